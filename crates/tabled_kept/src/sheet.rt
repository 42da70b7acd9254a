//! Sheets of slots: slots with small numbers stand in rows, and the others in an ordered map.

ghost use Rattle.std.specs.Prelude.{◌≡◌, ℕ, ◌<◌, ◌^◌, slice_index_or, is_some, if◌then◌else◌, IsTrue, IsFalse, OnOk, OnErr, IfOk, None, option_copied};
ghost use Rattle.std.specs.BTreeMap.{get_by};
ghost use Rattle.std.specs.Ordering.{nat_cmp};
ghost use Rattle.std.specs.FinMap as map;
ghost use Rattle.tabled_keys.specs.Slots.{slot};
ghost use Rattle.tabled_kept.specs.Sheet.{far_number};
ghost use Rattle.tabled_kept.specs.Same.{same_map};
ghost use Rattle.tabled_kept.specs.OneMore.{IsOneMore};

use crate::copies::copy_of;
use crate::number::Number;
use crate::table::Table;
use std::alloc::Global;
use std::collections::BTreeMap;
use std::marker::Model;
use tabled_border::{Keep, OutOfMemory};
use tabled_keys::Slot;

/// The first row that stands in the ordered map.
const NEAR_ROWS: usize = 256;

/// The first number in a row of which the slot stands in the ordered map.
const NEAR_END: usize = 1024;

/// How many numbers a row has.
const FAR_END: usize = 0x1_0000_0000;

/// Slots with values. A value stands in the rows where the numbers of its slot are small. Else it stands in an ordered map, under
/// one number of eight bytes, which is compared faster than a key and takes less room. In contracts they are the values, each under
/// its slot.
#[derive(Debug, Drop)]
pub(crate) struct Sheet<V> {
    near: Table<V>,
    far: BTreeMap<Number, V>,
}

impl<V> Model for Sheet<V> {
    ghost use Rattle.std.specs.Coded.{codes};
    ghost use Rattle.std.specs.FinMap as map;
    ghost use Rattle.tabled_kept.specs.Slots.{slot_cmp};
    ghost use Rattle.tabled_kept.specs.Sheet.{sheet, PartedSheet};

    ghost Value = { map.FinMap slot_cmp V };

    ghost coded = { Prim.hlevel (codes, V.code, map.code) };

    ghost view = { λ kept. sheet kept.near kept.far.entries };

    ghost invariant = { λ kept. PartedSheet kept.near kept.far.entries };
}

impl<V> Sheet<V> {
    /// No values.
    pub(crate) fn new(alloc: Global) -> Self
        ensures { result ≡ map.empty }
    {
        Sheet {
            near: Table::new(alloc),
            far: BTreeMap::new(alloc),
        }
    }

    /// The value in a slot, if one is there.
    pub(crate) fn get(&self, slot: Slot) -> Option<&V>
        requires { (slot.row < 2 ^ 30) × (slot.col < 2 ^ 32) }
        ensures { option_copied result ≡ map.get self.now slot }
    {
        match number(slot) {
            Some(number) => far_value(&self.far, number),
            None => self.near.get(slot),
        }
    }

    /// The slots of the first row, but for those that stand in the ordered map.
    pub(crate) fn first_row(&self) -> &[Option<V>]
        ensures { (col : ℕ) → slice_index_or result.now col None ≡ (if is_some (far_number (slot 0 col)) then None else map.get self.now (slot 0 col)) }
    {
        self.near.first_row()
    }

    /// Puts a value into a slot, and returns the one that was there. Only where nothing is there can memory be refused; then
    /// nothing changes.
    #[inline(always)]
    pub(crate) fn put(&mut self, slot: Slot, value: V) -> Result<Option<V>, OutOfMemory>
    where
        V: Drop,
        requires { (slot.row < 2 ^ 30) × (slot.col < 2 ^ 32) }
        ensures before { IfOk result (λ before. before ≡ map.get self.old slot) }
        ensures ok { OnOk result (self.new ≡ map.insert self.old slot value) }
        ensures err { OnErr result (self.new ≡ self.old) }
        ensures absent { OnErr result (map.get self.old slot ≡ None) }
    {
        if let Some(number) = number(slot) {
            let Ok(before) = self.far.insert(number, value) else {
                return Err(OutOfMemory);
            };
            return Ok(before);
        }
        let Ok(before) = self.near.put(slot, value) else {
            return Err(OutOfMemory);
        };
        Ok(before)
    }

    /// Takes the value out of a slot, if one is there.
    pub(crate) fn take(&mut self, slot: Slot) -> Option<V>
        requires { (slot.row < 2 ^ 30) × (slot.col < 2 ^ 32) }
        ensures before { result ≡ map.get self.old slot }
        ensures removed { self.new ≡ map.remove self.old slot }
    {
        if let Some(number) = number(slot) {
            let before = self.far.remove(&number);
            return before;
        }
        let before = self.near.take(slot);
        before
    }

    /// Takes all values out. The room of the rows stays.
    pub(crate) fn clear(&mut self)
    where
        V: Drop,
        ensures { self.new ≡ map.empty }
    {
        self.near.clear();
        self.far.clear();
    }

    /// Whether both have values in the same slots, and equal ones in each.
    pub(crate) fn is_same(&self, other: &Self) -> bool
    where
        V: PartialEq,
        ensures { result ≡ same_map V.eq self.now other.now }
    {
        // `len` tells the checker that the numbers are in their order
        let _ = self.far.len();
        let _ = other.far.len();
        let far = self.far == other.far;
        let near = self.near.is_same(&other.near);
        far && near
    }
}

impl Sheet<u128> {
    /// Counts one more in a slot of a row, where a number is there that has one after it. Else nothing changes.
    pub(crate) fn add_one(&mut self, slot: Slot) -> bool
        requires { (slot.row < 2 ^ 30) × (slot.col < 2 ^ 32) }
        ensures more { IsTrue result → IsOneMore self.old self.new slot }
        ensures same { IsFalse result → self.new ≡ self.old }
    {
        if number(slot).is_some() {
            return false;
        }
        let more = self.near.add_one(slot);
        more
    }
}

/// The value under a number, if one is there. Out of line, so that a value in a row is read without the registers that a search
/// takes.
#[inline(never)]
fn far_value<V>(far: &BTreeMap<Number, V>, number: Number) -> Option<&V>
    ensures { option_copied result ≡ get_by (nat_cmp number) far.now }
{
    far.get(&number)
}

/// The number of a slot that stands in the ordered map.
#[inline(always)]
fn number(slot: Slot) -> Option<Number>
    requires { (slot.row < 2 ^ 30) × (slot.col < 2 ^ 32) }
    ensures { result ≡ far_number slot }
{
    if slot.row < NEAR_ROWS && slot.col < NEAR_END {
        return None;
    }
    Some(Number::new(slot.row * FAR_END + slot.col))
}

impl<V: Keep> Keep for Sheet<V> {
    fn keep(&self, alloc: Global) -> Result<Self, OutOfMemory> {
        // one field more, or a list in place of a value, and this does not compile
        let Sheet { near, far } = self;
        let near: &Table<V> = near;
        let far: &BTreeMap<Number, V> = far;
        Ok(Sheet {
            near: near.keep(alloc)?,
            far: copy_of(far, alloc)?,
        })
    }
}
