//! What a store keeps under keys: one value under each.

ghost use Rattle.std.specs.Prelude.{◌≡◌, ◌↔◌, ◌<◌, ◌^◌, OnOk, OnErr, IfOk, None, option_copied, IsTrue, IsFalse};
ghost use Rattle.std.specs.FinMap as map;
ghost use Rattle.tabled_kept.specs.Table.{table};
ghost use Rattle.tabled_kept.specs.Same.{same_map};
ghost use Rattle.tabled_kept.specs.FirstFrom.{IsFirstFrom};
ghost use Rattle.tabled_kept.specs.OneMore.{IsOneMore};
ghost use Rattle.tabled_kept.specs.Probing.{IsCounted, IsRaised};

use crate::meter::Meter;
use crate::probes::Probes;
use crate::tally::Tally;
use std::alloc::Global;
use std::marker::{Model, PhantomData};
use tabled_border::{Keep, OutOfMemory};
use tabled_keys::Key;

/// A map that is read in three ways, each of which is counted. Until something is kept it takes no memory beside itself. In contracts it
/// is the list of its entries.
#[derive(Debug, Drop)]
pub struct CountedMap<K: Key, V, M = Probes> {
    alloc: Global,
    /// The entries of the map, once something was kept.
    pub(crate) entries: Option<Box<Tally<K, V>>>,
    /// The type of the meters with which it is read.
    by: PhantomData<M>,
}

impl<K: Key, V, M> Model for CountedMap<K, V, M> {
    ghost use Rattle.std.specs.Prelude.{List, [], option_map, unwrap_or};

    ghost Value = { List (K × V) };

    ghost view = { λ kept. unwrap_or (option_map (λ entries. entries.value) kept.entries) [] };
}

/// The readings, for every type of meters.
impl<K: Key, V, M: Meter> CountedMap<K, V, M> {
    /// Returns what is kept under a key: one reading.
    pub fn read(&self, key: K, probes: &mut M) -> Option<&V>
        ensures value { option_copied result ≡ map.get (table K.cmp self.now) key }
        ensures counted { IsCounted (M.made probes.old) (M.made probes.new) }
        ensures raised { IsRaised 1 (M.made probes.old) (M.made probes.new) }
    {
        match &self.entries {
            Some(entries) => entries.read(key, probes),
            None => {
                probes.raise();
                None
            }
        }
    }

    /// Returns the first key at or after one, where no key has a slot: one reading.
    pub fn first_from(&self, key: K, probes: &mut M) -> Option<K>
        requires { (any : K) → K.slot_of any ≡ None }
        ensures first { IsFirstFrom K.cmp (table K.cmp self.now) key result }
        ensures counted { IsCounted (M.made probes.old) (M.made probes.new) }
        ensures raised { IsRaised 1 (M.made probes.old) (M.made probes.new) }
    {
        match &self.entries {
            Some(entries) => entries.entries.first_from(key, probes),
            None => {
                probes.raise();
                None
            }
        }
    }

    /// Returns whether nothing is kept: one reading, which does not look at the entries.
    pub fn is_empty(&self, probes: &mut M) -> bool
        ensures value { IsTrue result ↔ (table K.cmp self.now ≡ map.empty) }
        ensures counted { IsCounted (M.made probes.old) (M.made probes.new) }
        ensures raised { IsRaised 1 (M.made probes.old) (M.made probes.new) }
    {
        probes.raise();
        match &self.entries {
            Some(entries) => entries.is_empty(),
            None => true,
        }
    }
}

/// What is not counted, which stands where no look-up that is written for every type of meters can call it.
impl<K: Key, V> CountedMap<K, V> {
    /// Makes a map with nothing in it.
    pub fn new(alloc: Global) -> Self
        ensures { table K.cmp result ≡ map.empty }
    {
        CountedMap {
            alloc,
            entries: None,
            by: PhantomData,
        }
    }

    /// Keeps a value under a key, and returns the one that was there. Only a new key can need memory; where
    /// that is refused nothing changes.
    pub fn insert(&mut self, key: K, value: V) -> Result<Option<V>, OutOfMemory>
    where
        V: Drop,
        ensures before { IfOk result (λ before. before ≡ map.get (table K.cmp self.old) key) }
        ensures ok { OnOk result (table K.cmp self.new ≡ map.insert (table K.cmp self.old) key value) }
        ensures err { OnErr result (self.new ≡ self.old) }
        ensures absent { OnErr result (map.get (table K.cmp self.old) key ≡ None) }
        ensures few { map.len (table K.cmp self.new) < 2 ^ 64 }
    {
        match &mut self.entries {
            Some(entries) => entries.insert(key, value),
            None => self.insert_first(key, value),
        }
    }

    /// Keeps the first value of a map that has none.
    fn insert_first(&mut self, key: K, value: V) -> Result<Option<V>, OutOfMemory>
    where
        V: Drop,
        requires { table K.cmp self.old ≡ map.empty }
        ensures before { IfOk result (λ before. before ≡ map.get (table K.cmp self.old) key) }
        ensures ok { OnOk result (table K.cmp self.new ≡ map.insert (table K.cmp self.old) key value) }
        ensures err { OnErr result (self.new ≡ self.old) }
        ensures absent { map.get (table K.cmp self.old) key ≡ None }
        ensures few { map.len (table K.cmp self.new) < 2 ^ 64 }
    {
        let mut entries = Tally::new(self.alloc);
        let before = entries.insert(key, value)?;
        self.entries = Some(Box::new(self.alloc, entries)?);
        Ok(before)
    }

    /// Takes what is kept under a key.
    pub fn remove(&mut self, key: K) -> Option<V>
        ensures before { result ≡ map.get (table K.cmp self.old) key }
        ensures removed { table K.cmp self.new ≡ map.remove (table K.cmp self.old) key }
        ensures few { map.len (table K.cmp self.new) < 2 ^ 64 }
    {
        let Some(entries) = &mut self.entries else {
            return None;
        };
        let before = entries.remove(key);
        before
    }

    /// Takes what is kept under a key, and lets it go.
    pub fn take(&mut self, key: K)
    where
        V: Drop,
        ensures { table K.cmp self.new ≡ map.remove (table K.cmp self.old) key }
    {
        let _ = self.remove(key);
    }

    /// Takes everything, which takes no memory. The room of the rows of slots stays, so what stood in one can be kept there again
    /// without a request for memory.
    pub fn clear(&mut self)
    where
        V: Drop,
        ensures { table K.cmp self.new ≡ map.empty }
    {
        if let Some(entries) = &mut self.entries {
            entries.clear();
        }
    }

    /// Returns whether the two maps keep the same: the same keys, and equal values under each.
    pub fn is_same(&self, other: &Self) -> bool
    where
        V: PartialEq,
        ensures { result ≡ same_map V.eq (table K.cmp self.now) (table K.cmp other.now) }
    {
        match (&self.entries, &other.entries) {
            (Some(entries), Some(others)) => entries.is_same(others),
            (Some(entries), None) => entries.is_empty(),
            (None, Some(others)) => others.is_empty(),
            (None, None) => true,
        }
    }
}

impl<K: Key> CountedMap<K, u128> {
    /// Counts one more under a key where it stands: where a number is there in a row of slots, and has one after it. Else nothing
    /// changes. This is there for speed alone: a reading and an insertion take 133 instructions, and a crossing counts on two lines.
    pub fn add_one(&mut self, key: K) -> bool
        ensures more { IsTrue result → IsOneMore (table K.cmp self.old) (table K.cmp self.new) key }
        ensures same { IsFalse result → self.new ≡ self.old }
    {
        match &mut self.entries {
            Some(entries) => entries.add_one(key),
            None => false,
        }
    }
}

impl<K: Key, V: Keep> Keep for CountedMap<K, V> {
    fn keep(&self, alloc: Global) -> Result<Self, OutOfMemory> {
        // one field more, or a list in place of a value, and this does not compile
        let CountedMap {
            alloc: _,
            entries,
            by,
        } = self;
        let entries: &Option<Box<Tally<K, V>>> = entries;
        let _: &PhantomData<Probes> = by;
        let entries = match entries {
            Some(entries) => Some(Box::new(alloc, entries.keep(alloc)?)?),
            None => None,
        };
        Ok(CountedMap {
            alloc,
            entries,
            by: PhantomData,
        })
    }
}
