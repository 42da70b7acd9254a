//! Rows as objects.

ghost use Rattle.std.specs.Prelude.{⊤, ◌≡◌};
ghost use Rattle.tabled_object.specs.Listing.{one_row, first_row, last_row, row_above_last};
ghost use Rattle.tabled_object.specs.Ranges.{rows_in, rows_on_step};

use crate::object::ranges::{RangeIterator, own_bound};
use crate::{Combine, Entity, ExactRecords, Object, Records};
use std::alloc::Global;
use std::iter::{self, Once};
use std::ops::{Bound, RangeBounds, Sub};
use tabled_border::OutOfMemory;

/// The rows of a table.
#[derive(Debug, Drop)]
pub struct Rows;

impl Rows {
    /// Returns the rows of the table that a range contains, such as `1..`, `..3`, `0..=2` or `..`, in order; of a range that has none
    /// inside the table, none. Of a range that was iterated to its end, or of a type of one's own without bounds, nothing is said.
    pub fn new<B: RangeBounds<usize>>(rows: B) -> RowRange
        ensures start { B.has_bounds rows → result.start ≡ B.start_bound rows }
        ensures end { B.has_bounds rows → result.end ≡ B.end_bound rows }
    {
        RowRange {
            start: own_bound(rows.start_bound()),
            end: own_bound(rows.end_bound()),
        }
    }

    /// Returns the row of that number, counted from 0.
    pub fn one(index: usize) -> Row
        ensures { result.index ≡ index }
    {
        Row { index }
    }

    /// Returns the first row.
    pub fn first() -> FirstRow {
        FirstRow
    }

    /// Returns the last row.
    pub fn last() -> LastRow {
        LastRow
    }
}

/// One row: it lists itself, also where the table has no such row.
#[derive(Debug, Drop)]
pub struct Row {
    /// The number of the row.
    pub index: usize,
}

impl<R: Records + ExactRecords> Object<R> for Row {
    type Iter = Once<Entity>;

    ghost listing = { λ row _ _. one_row row.index };

    ghost takes_no_memory = { λ _. ⊤ };

    fn cells(&self, _alloc: Global, _records: &R) -> Result<Self::Iter, OutOfMemory> {
        Ok(iter::once(Entity::Row(self.index)))
    }
}

impl Combine for Row {}

/// The first row: it lists nothing in a table without rows.
#[derive(Debug, Drop)]
pub struct FirstRow;

impl<R: Records + ExactRecords> Object<R> for FirstRow {
    type Iter = Once<Entity>;

    ghost listing = { λ _ rows _. first_row rows };

    ghost takes_no_memory = { λ _. ⊤ };

    fn cells(&self, _alloc: Global, records: &R) -> Result<Self::Iter, OutOfMemory> {
        if records.count_rows() == 0 {
            return Ok(iter::empty());
        }
        Ok(iter::once(Entity::Row(0)))
    }
}

impl Combine for FirstRow {}

/// The last row: it lists nothing in a table without rows.
#[derive(Debug, Drop)]
pub struct LastRow;

impl LastRow {
    /// Returns the row that has the given number of rows below it.
    pub fn offset(self, offset: usize) -> LastRowOffset
        ensures { result.offset ≡ offset }
    {
        LastRowOffset { offset }
    }
}

/// The same as `offset`.
impl Sub<usize> for LastRow {
    type Output = LastRowOffset;

    ghost sub_gives = { λ _ offset row. row.offset ≡ offset };

    fn sub(self, offset: usize) -> LastRowOffset {
        self.offset(offset)
    }
}

impl<R: Records + ExactRecords> Object<R> for LastRow {
    type Iter = Once<Entity>;

    ghost listing = { λ _ rows _. last_row rows };

    ghost takes_no_memory = { λ _. ⊤ };

    fn cells(&self, _alloc: Global, records: &R) -> Result<Self::Iter, OutOfMemory> {
        let last = records.count_rows().checked_sub(1);
        Ok(last.map(Entity::Row).into_iter())
    }
}

impl Combine for LastRow {}

/// A row counted back from the last one: it lists nothing where there is no such row.
#[derive(Debug, Drop)]
pub struct LastRowOffset {
    /// How many rows it has below it.
    pub offset: usize,
}

impl<R: Records + ExactRecords> Object<R> for LastRowOffset {
    type Iter = Once<Entity>;

    ghost listing = { λ row rows _. row_above_last row.offset rows };

    ghost takes_no_memory = { λ _. ⊤ };

    fn cells(&self, _alloc: Global, records: &R) -> Result<Self::Iter, OutOfMemory> {
        let count = records.count_rows();
        if self.offset >= count {
            return Ok(iter::empty());
        }
        Ok(iter::once(Entity::Row(count - 1 - self.offset)))
    }
}

impl Combine for LastRowOffset {}

/// The rows of a range: it lists those that the table has, in order.
#[derive(Debug, Drop)]
pub struct RowRange {
    /// Where the range starts.
    pub start: Bound<usize>,
    /// Where the range ends.
    pub end: Bound<usize>,
}

impl RowRange {
    /// Returns the rows of the range that are so many rows apart, from its start on; with a step of 0, none.
    pub fn step_by(self, step: usize) -> RowStep
        ensures range { result.range ≡ self }
        ensures step { result.step ≡ step }
    {
        RowStep { range: self, step }
    }
}

impl<R: Records + ExactRecords> Object<R> for RowRange {
    type Iter = RangeIterator;

    ghost listing = { λ range rows _. rows_in range.start range.end rows };

    ghost takes_no_memory = { λ _. ⊤ };

    fn cells(&self, _alloc: Global, records: &R) -> Result<Self::Iter, OutOfMemory> {
        let count = records.count_rows();
        Ok(RangeIterator::new(true, self.start, self.end, 1, count))
    }
}

impl Combine for RowRange {}

/// The rows of a range that are so many rows apart, from its start on: it lists those that the table has, in order.
#[derive(Debug, Drop)]
pub struct RowStep {
    /// The range.
    pub range: RowRange,
    /// How many rows they are apart; where that is 0, none is listed.
    pub step: usize,
}

impl<R: Records + ExactRecords> Object<R> for RowStep {
    type Iter = RangeIterator;

    ghost listing = { λ stepped rows _. rows_on_step stepped.range.start stepped.range.end stepped.step rows };

    ghost takes_no_memory = { λ _. ⊤ };

    fn cells(&self, _alloc: Global, records: &R) -> Result<Self::Iter, OutOfMemory> {
        let RowRange { start, end } = self.range;
        let count = records.count_rows();
        Ok(RangeIterator::new(true, start, end, self.step, count))
    }
}

impl Combine for RowStep {}
