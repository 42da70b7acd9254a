//! Numbered slots, each empty or with a value.

ghost use Rattle.std.specs.Prelude.{◌≡◌, ◌↔◌, ◌<◌, ◌≤◌, vec_len, IsTrue, IsFalse, OnOk, OnErr, IfOk, None, option_copied};
ghost use Rattle.std.specs.Ordering.{nat_cmp};
ghost use Rattle.std.specs.FinMap as map;
ghost use Rattle.tabled_kept.specs.Slots.{filled};
ghost use Rattle.tabled_kept.specs.Same.{same_map};
ghost use Rattle.tabled_kept.specs.OneMore.{IsOneMore};

use crate::copies::copies;
use std::alloc::Global;
use std::marker::Model;
use std::mem;
use tabled_border::{Keep, OutOfMemory};

/// Slots with the numbers from 0 on, each empty or with a value. There are as many as the greatest number written so far asks
/// for. In contracts they are the values, each under the number of its slot: empty slots play no part.
#[derive(Debug, Drop)]
pub(crate) struct Slots<V> {
    slots: Vec<Option<V>>,
}

impl<V> Model for Slots<V> {
    ghost use Rattle.std.specs.Ordering.{nat_cmp};
    ghost use Rattle.std.specs.Coded.{codes};
    ghost use Rattle.std.specs.FinMap as map;
    ghost use Rattle.tabled_kept.specs.Slots.{filled};

    ghost Value = { map.FinMap nat_cmp V };

    ghost coded = { Prim.hlevel (codes, V.code, map.code) };

    ghost view = { λ kept. filled kept.slots.items };
}

impl<V> Slots<V> {
    /// No slots.
    pub(crate) fn new(alloc: Global) -> Self
        ensures { result ≡ map.empty }
    {
        Slots {
            slots: Vec::new(alloc),
        }
    }

    /// The slots, in the order of their numbers.
    pub(crate) fn as_slice(&self) -> &[Option<V>]
        ensures { filled result.now ≡ self.now }
    {
        &self.slots
    }

    /// The value in the slot of a number, if one is there.
    pub(crate) fn get(&self, at: usize) -> Option<&V>
        ensures { option_copied result ≡ map.get self.now at }
    {
        match self.slots.get(at) {
            Some(slot) => slot.as_ref(),
            None => None,
        }
    }

    /// Puts a value into the slot of a number, and returns the one that was there. Only where there is no such slot yet can
    /// memory be refused; then empty slots may have been added, and nothing else changes.
    pub(crate) fn put(&mut self, at: usize, value: V) -> Result<Option<V>, OutOfMemory>
    where
        V: Drop,
        ensures before { IfOk result (λ before. before ≡ map.get self.old at) }
        ensures ok { OnOk result (self.new ≡ map.insert self.old at value) }
        ensures err { OnErr result (self.new ≡ self.old) }
        ensures absent { OnErr result (map.get self.old at ≡ None) }
    {
        let Ok(()) = reach(&mut self.slots, at) else {
            return Err(OutOfMemory);
        };
        Ok(mem::replace(&mut self.slots[at], Some(value)))
    }

    /// Takes the value out of the slot of a number, if one is there. The slot stays.
    pub(crate) fn take(&mut self, at: usize) -> Option<V>
        ensures before { result ≡ map.get self.old at }
        ensures removed { self.new ≡ map.remove self.old at }
    {
        if at < self.slots.len() {
            return self.slots[at].take();
        }
        None
    }

    /// Takes all values out. The room for the slots stays.
    pub(crate) fn clear(&mut self)
    where
        V: Drop,
        ensures { self.new ≡ map.empty }
    {
        self.slots.clear();
    }

    /// Whether no slot has a value.
    pub(crate) fn is_empty(&self) -> bool
        ensures { IsTrue result ↔ (self.now ≡ map.empty) }
    {
        for slot in &self.slots {
            if slot.is_some() {
                return false;
            }
        }
        true
    }

    /// Whether both have values in slots of the same numbers, and equal ones in each.
    pub(crate) fn is_same(&self, other: &Self) -> bool
    where
        V: PartialEq,
        ensures { result ≡ same_map V.eq self.now other.now }
    {
        let most = self.slots.len().max(other.slots.len());
        for at in 0..most {
            if self.get(at) != other.get(at) {
                return false;
            }
        }
        true
    }
}

impl Slots<u128> {
    /// Counts one more in the slot of a number, where a number is there that has one after it. Else nothing changes.
    pub(crate) fn add_one(&mut self, at: usize) -> bool
        ensures more { IsTrue result → IsOneMore self.old self.new at }
        ensures same { IsFalse result → self.new ≡ self.old }
    {
        if at < self.slots.len() {
            if let Some(number) = self.slots[at] {
                let has_next = number < u128::MAX;
                if has_next {
                    self.slots[at] = Some(number + 1);
                    return true;
                }
            }
        }
        false
    }
}

/// Adds empty slots until there is one of the number. Where memory is refused some may have been added.
fn reach<V: Drop>(slots: &mut Vec<Option<V>>, at: usize) -> Result<(), OutOfMemory>
    ensures there { OnOk result (at < vec_len slots.new) }
    ensures same { filled slots.new.items ≡ filled slots.old.items }
    ensures missing { OnErr result (vec_len slots.old ≤ at) }
{
    while slots.len() <= at {
        slots.push(None)?;
    }
    Ok(())
}

impl<V: Keep> Keep for Slots<V> {
    fn keep(&self, alloc: Global) -> Result<Self, OutOfMemory> {
        // one field more, or a list in place of a value, and this does not compile
        let Slots { slots } = self;
        let slots: &Vec<Option<V>> = slots;
        Ok(Slots {
            slots: copies(slots, alloc)?,
        })
    }
}
