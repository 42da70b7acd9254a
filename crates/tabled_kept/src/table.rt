//! Tables of slots: rows of slots, each row as long as its writes ask for.

ghost use Rattle.std.specs.Prelude.{◌≡◌, ◌<◌, ◌≤◌, ℕ, vec_len, slice_index_or, unwrap_or, IsTrue, IsFalse, OnOk, OnErr, IfOk, None, option_copied};
ghost use Rattle.std.specs.FinMap as map;
ghost use Rattle.tabled_kept.specs.Slots.{slot_cmp, in_rows};
ghost use Rattle.tabled_keys.specs.Slots.{slot};
ghost use Rattle.tabled_kept.specs.Same.{same_map};
ghost use Rattle.tabled_kept.specs.OneMore.{IsOneMore};

use crate::copies::copies;
use crate::slots::Slots;
use std::alloc::Global;
use std::marker::Model;
use tabled_border::{Keep, OutOfMemory};
use tabled_keys::Slot;

/// Rows of slots. There are as many rows as the greatest row written so far asks for, and each is as long as its own greatest
/// number. In contracts they are the values, each under its slot: empty slots and empty rows play no part.
#[derive(Debug, Drop)]
pub(crate) struct Table<V> {
    rows: Vec<Slots<V>>,
}

impl<V> Model for Table<V> {
    ghost use Rattle.std.specs.Coded.{codes};
    ghost use Rattle.std.specs.FinMap as map;
    ghost use Rattle.tabled_kept.specs.Slots.{slot_cmp, in_rows};

    ghost Value = { map.FinMap slot_cmp V };

    ghost coded = { Prim.hlevel (codes, V.code, map.code) };

    ghost view = { λ kept. in_rows kept.rows.items };
}

impl<V> Table<V> {
    /// A table with no rows.
    pub(crate) fn new(alloc: Global) -> Self
        ensures { result ≡ map.empty }
    {
        Table {
            rows: Vec::new(alloc),
        }
    }

    /// The value in a slot, if one is there.
    pub(crate) fn get(&self, slot: Slot) -> Option<&V>
        ensures { option_copied result ≡ map.get self.now slot }
    {
        match self.rows.get(slot.row) {
            Some(row) => row.get(slot.col),
            None => None,
        }
    }

    /// The slots of the first row.
    pub(crate) fn first_row(&self) -> &[Option<V>]
        ensures { (col : ℕ) → slice_index_or result.now col None ≡ map.get self.now (slot 0 col) }
    {
        match self.rows.first() {
            Some(row) => row.as_slice(),
            None => &[],
        }
    }

    /// Puts a value into a slot, and returns the one that was there. Only where there is no such slot yet can memory be
    /// refused; then empty slots and rows may have been added, and nothing else changes.
    pub(crate) fn put(&mut self, slot: Slot, value: V) -> Result<Option<V>, OutOfMemory>
    where
        V: Drop,
        ensures before { IfOk result (λ before. before ≡ map.get self.old slot) }
        ensures ok { OnOk result (self.new ≡ map.insert self.old slot value) }
        ensures err { OnErr result (self.new ≡ self.old) }
        ensures absent { OnErr result (map.get self.old slot ≡ None) }
    {
        let Ok(()) = reach(&mut self.rows, slot.row) else {
            return Err(OutOfMemory);
        };
        let Ok(before) = self.rows[slot.row].put(slot.col, value) else {
            return Err(OutOfMemory);
        };
        Ok(before)
    }

    /// Takes the value out of a slot, if one is there. The slot stays.
    pub(crate) fn take(&mut self, slot: Slot) -> Option<V>
        ensures before { result ≡ map.get self.old slot }
        ensures removed { self.new ≡ map.remove self.old slot }
    {
        if slot.row < self.rows.len() {
            let before = self.rows[slot.row].take(slot.col);
            return before;
        }
        None
    }

    /// Takes all values out. The room for the rows and for their slots stays.
    pub(crate) fn clear(&mut self)
    where
        V: Drop,
        ensures { self.new ≡ map.empty }
    {
        clear_all(&mut self.rows);
    }

    /// Whether both have values in the same slots, and equal ones in each.
    pub(crate) fn is_same(&self, other: &Self) -> bool
    where
        V: PartialEq,
        ensures { result ≡ same_map V.eq self.now other.now }
    {
        let most = self.rows.len().max(other.rows.len());
        for row in 0..most {
            if !is_same_row(self.rows.get(row), other.rows.get(row)) {
                return false;
            }
        }
        true
    }
}

impl Table<u128> {
    /// Counts one more in a slot, where a number is there that has one after it. Else nothing changes.
    pub(crate) fn add_one(&mut self, slot: Slot) -> bool
        ensures more { IsTrue result → IsOneMore self.old self.new slot }
        ensures same { IsFalse result → self.new ≡ self.old }
    {
        if slot.row < self.rows.len() {
            let more = self.rows[slot.row].add_one(slot.col);
            return more;
        }
        false
    }
}

/// Adds empty rows until there is one of the number. Where memory is refused some may have been added.
fn reach<V: Drop>(rows: &mut Vec<Slots<V>>, at: usize) -> Result<(), OutOfMemory>
    ensures there { OnOk result (at < vec_len rows.new) }
    ensures same { in_rows rows.new.items ≡ in_rows rows.old.items }
    ensures missing { OnErr result (vec_len rows.old ≤ at) }
{
    let alloc = *rows.allocator();
    while rows.len() <= at {
        rows.push(Slots::new(alloc))?;
    }
    Ok(())
}

/// Takes all values out of all rows.
fn clear_all<V: Drop>(rows: &mut Vec<Slots<V>>)
    ensures { (row : ℕ) → slice_index_or rows.new.items row map.empty ≡ map.empty }
{
    for row in 0..rows.len() {
        rows[row].clear();
    }
}

/// Whether two rows keep the same. A row that is not there keeps nothing.
fn is_same_row<V: PartialEq>(row: Option<&Slots<V>>, other: Option<&Slots<V>>) -> bool
    ensures { result ≡ same_map V.eq (unwrap_or (option_copied row.entry) map.empty) (unwrap_or (option_copied other.entry) map.empty) }
{
    match (row, other) {
        (Some(row), Some(other)) => row.is_same(other),
        (Some(row), None) => row.is_empty(),
        (None, Some(other)) => other.is_empty(),
        (None, None) => true,
    }
}

impl<V: Keep> Keep for Table<V> {
    fn keep(&self, alloc: Global) -> Result<Self, OutOfMemory> {
        // one field more, or a list in place of a value, and this does not compile
        let Table { rows } = self;
        let rows: &Vec<Slots<V>> = rows;
        Ok(Table {
            rows: copies(rows, alloc)?,
        })
    }
}
