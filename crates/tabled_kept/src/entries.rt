//! The entries of a kept map: in slots where their keys have one, and else in an ordered map.

ghost use Rattle.std.specs.Prelude.{◌≡◌, ◌<◌, ◌^◌, IsTrue, IsFalse, OnOk, OnErr, IfOk, None, option_copied};
ghost use Rattle.std.specs.FinMap as map;
ghost use Rattle.tabled_kept.specs.Table.{table};
ghost use Rattle.tabled_kept.specs.Same.{same_map};
ghost use Rattle.tabled_kept.specs.FirstFrom.{IsFirstFrom};
ghost use Rattle.tabled_kept.specs.OneMore.{IsOneMore};
ghost use Rattle.tabled_kept.specs.Probing.{IsCounted, IsRaised};

use crate::copies::copy_of;
use crate::meter::Meter;
use crate::sheet::Sheet;
use std::alloc::Global;
use std::collections::BTreeMap;
use std::marker::Model;
use std::ops::Bound;
use tabled_border::{Keep, OutOfMemory};
use tabled_keys::Key;

/// The entries of a kept map. A value stands in the slot of its key, if the key has one, and else in an ordered map; so a reading
/// is one of the slots or one of the ordered map. In contracts it is the list of its entries.
#[derive(Debug, Drop)]
pub(crate) struct Entries<K: Key, V> {
    pub(crate) dense: Sheet<V>,
    pub(crate) others: BTreeMap<K, V>,
}

impl<K: Key, V> Model for Entries<K, V> {
    ghost use Rattle.std.specs.Prelude.{List, length, ◌<◌, ◌^◌};
    ghost use Rattle.tabled_kept.specs.Kept.{all_entries, Parted};

    ghost Value = { List (K × V) };

    ghost view = { λ kept. all_entries K.key_at kept.dense kept.others.entries };

    ghost invariant = { λ kept. Parted K.cmp K.slot_of K.key_at kept.dense kept.others.entries × (length kept.others.entries < 2 ^ 63) };
}

impl<K: Key, V> Entries<K, V> {
    /// No entries.
    pub(crate) fn new(alloc: Global) -> Self
        ensures { table K.cmp result ≡ map.empty }
    {
        Entries {
            dense: Sheet::new(alloc),
            others: BTreeMap::new(alloc),
        }
    }

    /// What is kept under a key: one reading.
    pub(crate) fn read<M: Meter>(&self, key: K, probes: &mut M) -> Option<&V>
        ensures value { option_copied result ≡ map.get (table K.cmp self.now) key }
        ensures counted { IsCounted (M.made probes.old) (M.made probes.new) }
        ensures raised { IsRaised 1 (M.made probes.old) (M.made probes.new) }
    {
        probes.raise();
        match key.slot() {
            Some(slot) => self.dense.get(slot),
            None => self.others.get(&key),
        }
    }

    /// The first key at or after one, where no key has a slot: one reading.
    pub(crate) fn first_from<M: Meter>(&self, key: K, probes: &mut M) -> Option<K>
        requires { (any : K) → K.slot_of any ≡ None }
        ensures first { IsFirstFrom K.cmp (table K.cmp self.now) key result }
        ensures counted { IsCounted (M.made probes.old) (M.made probes.new) }
        ensures raised { IsRaised 1 (M.made probes.old) (M.made probes.new) }
    {
        probes.raise();
        let from_there = (Bound::Included(key), Bound::Unbounded);
        match self.others.range(from_there).next() {
            Some((first, _)) => Some(*first),
            None => None,
        }
    }

    /// Keeps a value under a key, and returns the one that was there. Only a new key can need memory; where
    /// that is refused nothing changes.
    pub(crate) fn insert(&mut self, key: K, value: V) -> Result<Option<V>, OutOfMemory>
    where
        V: Drop,
        ensures before { IfOk result (λ before. before ≡ map.get (table K.cmp self.old) key) }
        ensures ok { OnOk result (table K.cmp self.new ≡ map.insert (table K.cmp self.old) key value) }
        ensures err { OnErr result (self.new ≡ self.old) }
        ensures absent { OnErr result (map.get (table K.cmp self.old) key ≡ None) }
        ensures few { map.len (table K.cmp self.new) < 2 ^ 64 }
    {
        if let Some(slot) = key.slot() {
            let Ok(before) = self.dense.put(slot, value) else {
                return Err(OutOfMemory);
            };
            return Ok(before);
        }
        let Ok(before) = self.others.insert(key, value) else {
            return Err(OutOfMemory);
        };
        // `len` gives the checker the bound 2^63 of the entries, which the map keeps to
        let _ = self.others.len();
        Ok(before)
    }

    /// Takes what is kept under a key.
    pub(crate) fn remove(&mut self, key: K) -> Option<V>
        ensures before { result ≡ map.get (table K.cmp self.old) key }
        ensures removed { table K.cmp self.new ≡ map.remove (table K.cmp self.old) key }
        ensures few { map.len (table K.cmp self.new) < 2 ^ 64 }
    {
        if let Some(slot) = key.slot() {
            let before = self.dense.take(slot);
            return before;
        }
        let before = self.others.remove(&key);
        before
    }

    /// Takes everything. The room of the rows of slots stays.
    pub(crate) fn clear(&mut self)
    where
        V: Drop,
        ensures { table K.cmp self.new ≡ map.empty }
    {
        self.dense.clear();
        self.others.clear();
    }

    /// Whether both are the same: the same keys, and equal values under each.
    pub(crate) fn is_same(&self, other: &Self) -> bool
    where
        V: PartialEq,
        ensures { result ≡ same_map V.eq (table K.cmp self.now) (table K.cmp other.now) }
    {
        // `len` tells the checker that the keys are in their order
        let _ = self.others.len();
        let _ = other.others.len();
        let dense = self.dense.is_same(&other.dense);
        let others = self.others == other.others;
        dense && others
    }
}

impl<K: Key> Entries<K, u128> {
    /// Counts one more under a key whose slot stands in a row, where a number is there that has one after it. Else nothing changes.
    pub(crate) fn add_one(&mut self, key: K) -> bool
        ensures more { IsTrue result → IsOneMore (table K.cmp self.old) (table K.cmp self.new) key }
        ensures same { IsFalse result → self.new ≡ self.old }
    {
        if let Some(slot) = key.slot() {
            let more = self.dense.add_one(slot);
            return more;
        }
        false
    }
}

impl<K: Key, V: Keep> Keep for Entries<K, V> {
    fn keep(&self, alloc: Global) -> Result<Self, OutOfMemory> {
        // one field more, or a list in place of a value, and this does not compile; a look at the entries also gives
        // the checker their bound, which the copy keeps to
        let Entries { dense, others } = self;
        let dense: &Sheet<V> = dense;
        let others: &BTreeMap<K, V> = others;
        Ok(Entries {
            dense: dense.keep(alloc)?,
            others: copy_of(others, alloc)?,
        })
    }
}
