//! What is kept under numbers, in rising order.

ghost use Rattle.std.specs.Prelude.{◌≡◌, ◌<◌, ◌^◌, IfOk};
ghost use Rattle.std.specs.Ordering.{nat_cmp};
ghost use Rattle.std.specs.FinMap as map;
ghost use Rattle.std.specs.List.Sorted.{IsStrictlySortedBy};
ghost use Rattle.std.specs.Map.{keys_of};
ghost use Rattle.std.specs.Iterator.{YieldsFirstBy, item_count};
ghost use Rattle.tabled_kept.specs.Table.{table};

use crate::copies::map_of;
use crate::counted_map::CountedMap;
use crate::entries::Entries;
use std::alloc::Global;
use std::collections::BTreeMap;
use std::collections::btree_map::Iter;
use std::marker::Model;
use tabled_border::{Keep, OutOfMemory};

/// The entries of a map that keeps something under numbers. In contracts it is the list of those that are left.
#[derive(Drop)]
pub(crate) struct NumberedEntries<'a, V> {
    /// The slots that are left.
    pub(crate) slots: &'a [Option<V>],
    /// The number of the first of them.
    pub(crate) at: usize,
    /// What comes after the slots.
    pub(crate) others: Iter<'a, usize, V>,
}

impl<'a, V> Model for NumberedEntries<'a, V> {
    ghost use Rattle.std.specs.Prelude.{ℕ, List, ◌++◌, ◌+◌, ◌<◌, ◌^◌, length};
    ghost use Rattle.tabled_kept.specs.Slots.{numbered};

    ghost Value = { List (ℕ × V) };

    ghost view = { λ left. numbered left.at left.slots.now ++ left.others };

    ghost invariant = { λ left. left.at + length left.slots.now < 2 ^ 64 };
}

impl<'a, V> Iterator for NumberedEntries<'a, V> {
    type Item = (usize, &'a V);

    ghost next_gives = { YieldsFirstBy (λ item. (item.0, item.1.now)) (λ left. left) };

    ghost remaining = { item_count (λ left. left) };

    fn next(&mut self) -> Option<(usize, &'a V)> {
        while let Some((slot, rest)) = self.slots.split_first() {
            let at = self.at;
            self.slots = rest;
            self.at += 1;
            if let Some(value) = slot {
                return Some((at, value));
            }
        }
        let (number, value) = self.others.next()?;
        Some((*number, value))
    }
}

impl<V> Entries<usize, V> {
    /// The entries, in the order of their numbers.
    pub(crate) fn iter(&self) -> NumberedEntries<'_, V>
        ensures entries { result ≡ map.entries (table nat_cmp self.now) }
        ensures rising { IsStrictlySortedBy nat_cmp (keys_of result) }
    {
        NumberedEntries {
            slots: self.dense.first_row(),
            at: 0,
            others: self.others.iter(),
        }
    }
}

/// What is kept under numbers, each with its number, in rising order. In contracts it is the list of those that are left.
#[derive(Drop)]
pub struct Numbered<'a, V> {
    /// What is left, if there ever was something.
    left: Option<NumberedEntries<'a, V>>,
}

impl<'a, V> Model for Numbered<'a, V> {
    ghost use Rattle.std.specs.Prelude.{ℕ, List, [], unwrap_or};

    ghost Value = { List (ℕ × V) };

    ghost view = { λ numbered. unwrap_or numbered.left [] };
}

impl<'a, V> Iterator for Numbered<'a, V> {
    type Item = (usize, &'a V);

    ghost next_gives = { YieldsFirstBy (λ item. (item.0, item.1.now)) (λ left. left) };

    ghost remaining = { item_count (λ left. left) };

    fn next(&mut self) -> Option<(usize, &'a V)> {
        match &mut self.left {
            Some(left) => left.next(),
            None => None,
        }
    }
}

impl<V> CountedMap<usize, V> {
    /// Returns what is kept, in the order of its numbers.
    pub fn iter(&self) -> Numbered<'_, V>
        ensures entries { result ≡ map.entries (table nat_cmp self.now) }
        ensures rising { IsStrictlySortedBy nat_cmp (keys_of result) }
    {
        let Some(entries) = &self.entries else {
            return Numbered { left: None };
        };
        Numbered {
            left: Some(entries.entries.iter()),
        }
    }

    /// Returns a copy of what is kept, whose memory comes from `alloc`.
    pub fn copy(&self, alloc: Global) -> Result<BTreeMap<usize, V>, OutOfMemory>
    where
        V: Keep,
        ensures { IfOk result (λ copy. table nat_cmp copy.entries ≡ table nat_cmp self.now) }
    {
        let mut copies = Vec::new(alloc);
        for (number, value) in self.iter() {
            copies.push((number, value.keep(alloc)?))?;
        }
        map_of(copies, alloc)
    }
}
