//! The entries of a kept map, with their number.

ghost use Rattle.std.specs.Prelude.{◌≡◌, ◌↔◌, ◌<◌, ◌^◌, OnOk, OnErr, IfOk, None, option_copied, IsTrue, IsFalse};
ghost use Rattle.std.specs.FinMap as map;
ghost use Rattle.tabled_kept.specs.Table.{table};
ghost use Rattle.tabled_kept.specs.Same.{same_map};
ghost use Rattle.tabled_kept.specs.OneMore.{IsOneMore};
ghost use Rattle.tabled_kept.specs.Probing.{IsCounted, IsRaised};

use crate::entries::Entries;
use crate::meter::Meter;
use std::alloc::Global;
use std::marker::Model;
use tabled_border::{Keep, OutOfMemory};
use tabled_keys::Key;

/// The entries of a kept map, with their number, by which it is known at once whether there are any. In contracts it is the list
/// of the entries.
#[derive(Debug, Drop)]
pub(crate) struct Tally<K: Key, V> {
    pub(crate) entries: Entries<K, V>,
    /// How many entries there are.
    number: usize,
}

impl<K: Key, V> Model for Tally<K, V> {
    ghost use Rattle.std.specs.Prelude.{List, ◌≡◌};
    ghost use Rattle.std.specs.FinMap as map;
    ghost use Rattle.tabled_kept.specs.Table.{table};

    ghost Value = { List (K × V) };

    ghost view = { λ tally. tally.entries };

    ghost invariant = { λ tally. tally.number ≡ map.len (table K.cmp tally.entries) };
}

impl<K: Key, V> Tally<K, V> {
    /// No entries.
    pub(crate) fn new(alloc: Global) -> Self
        ensures { table K.cmp result ≡ map.empty }
    {
        Tally {
            entries: Entries::new(alloc),
            number: 0,
        }
    }

    /// What is kept under a key: one reading.
    pub(crate) fn read<M: Meter>(&self, key: K, probes: &mut M) -> Option<&V>
        ensures value { option_copied result ≡ map.get (table K.cmp self.now) key }
        ensures counted { IsCounted (M.made probes.old) (M.made probes.new) }
        ensures raised { IsRaised 1 (M.made probes.old) (M.made probes.new) }
    {
        self.entries.read(key, probes)
    }

    /// Whether nothing is kept, which is known at once.
    pub(crate) fn is_empty(&self) -> bool
        ensures { IsTrue result ↔ (table K.cmp self.now ≡ map.empty) }
    {
        self.number == 0
    }

    /// Keeps a value under a key, and returns the one that was there. Only a new key can need memory; where
    /// that is refused nothing changes.
    pub(crate) fn insert(&mut self, key: K, value: V) -> Result<Option<V>, OutOfMemory>
    where
        V: Drop,
        ensures before { IfOk result (λ before. before ≡ map.get (table K.cmp self.old) key) }
        ensures ok { OnOk result (table K.cmp self.new ≡ map.insert (table K.cmp self.old) key value) }
        ensures err { OnErr result (self.new ≡ self.old) }
        ensures absent { OnErr result (map.get (table K.cmp self.old) key ≡ None) }
        ensures few { map.len (table K.cmp self.new) < 2 ^ 64 }
    {
        let Ok(before) = self.entries.insert(key, value) else {
            return Err(OutOfMemory);
        };
        if before.is_none() {
            self.number += 1;
        }
        Ok(before)
    }

    /// Takes what is kept under a key.
    pub(crate) fn remove(&mut self, key: K) -> Option<V>
        ensures before { result ≡ map.get (table K.cmp self.old) key }
        ensures removed { table K.cmp self.new ≡ map.remove (table K.cmp self.old) key }
        ensures few { map.len (table K.cmp self.new) < 2 ^ 64 }
    {
        let before = self.entries.remove(key);
        if before.is_some() {
            self.number -= 1;
        }
        before
    }

    /// Takes everything. The room of the rows of slots stays.
    pub(crate) fn clear(&mut self)
    where
        V: Drop,
        ensures { table K.cmp self.new ≡ map.empty }
    {
        self.entries.clear();
        self.number = 0;
    }

    /// Whether both are the same: the same keys, and equal values under each.
    pub(crate) fn is_same(&self, other: &Self) -> bool
    where
        V: PartialEq,
        ensures { result ≡ same_map V.eq (table K.cmp self.now) (table K.cmp other.now) }
    {
        self.entries.is_same(&other.entries)
    }
}

impl<K: Key> Tally<K, u128> {
    /// Counts one more under a key whose slot stands in a row, where a number is there that has one after it. Else nothing changes.
    pub(crate) fn add_one(&mut self, key: K) -> bool
        ensures more { IsTrue result → IsOneMore (table K.cmp self.old) (table K.cmp self.new) key }
        ensures same { IsFalse result → self.new ≡ self.old }
    {
        let more = self.entries.add_one(key);
        more
    }
}

impl<K: Key, V: Keep> Keep for Tally<K, V> {
    fn keep(&self, alloc: Global) -> Result<Self, OutOfMemory> {
        // one field more, and this does not compile
        let Tally { entries, number } = self;
        let entries: Entries<K, V> = entries.keep(alloc)?;
        let number: usize = *number;
        Ok(Tally { entries, number })
    }
}
