//! Columns as objects.

ghost use Rattle.std.specs.Prelude.{⊤, ◌≡◌};
ghost use Rattle.tabled_object.specs.Listing.{one_column, first_column, last_column, column_before_last};
ghost use Rattle.tabled_object.specs.Ranges.{columns_in, columns_on_step};

use crate::object::ranges::{RangeIterator, own_bound};
use crate::{Combine, Entity, ExactRecords, Object, Records};
use std::alloc::Global;
use std::iter::{self, Once};
use std::ops::{Bound, RangeBounds, Sub};
use tabled_border::OutOfMemory;

/// The columns of a table.
#[derive(Debug, Drop)]
pub struct Columns;

impl Columns {
    /// Returns the columns of the table that a range contains, such as `1..`, `..3`, `0..=2` or `..`, in order; of a range that has none
    /// inside the table, none. Of a range that was iterated to its end, or of a type of one's own without bounds, nothing is said.
    pub fn new<B: RangeBounds<usize>>(columns: B) -> ColumnRange
        ensures start { B.has_bounds columns → result.start ≡ B.start_bound columns }
        ensures end { B.has_bounds columns → result.end ≡ B.end_bound columns }
    {
        ColumnRange {
            start: own_bound(columns.start_bound()),
            end: own_bound(columns.end_bound()),
        }
    }

    /// Returns the column of that number, counted from 0.
    pub fn one(index: usize) -> Column
        ensures { result.index ≡ index }
    {
        Column { index }
    }

    /// Returns the first column.
    pub fn first() -> FirstColumn {
        FirstColumn
    }

    /// Returns the last column.
    pub fn last() -> LastColumn {
        LastColumn
    }
}

/// One column: it lists itself, also where the table has no such column.
#[derive(Debug, Drop)]
pub struct Column {
    /// The number of the column.
    pub index: usize,
}

impl<R: Records + ExactRecords> Object<R> for Column {
    type Iter = Once<Entity>;

    ghost listing = { λ column _ _. one_column column.index };

    ghost takes_no_memory = { λ _. ⊤ };

    fn cells(&self, _alloc: Global, _records: &R) -> Result<Self::Iter, OutOfMemory> {
        Ok(iter::once(Entity::Column(self.index)))
    }
}

impl Combine for Column {}

/// The first column: it lists nothing in a table without columns.
#[derive(Debug, Drop)]
pub struct FirstColumn;

impl<R: Records + ExactRecords> Object<R> for FirstColumn {
    type Iter = Once<Entity>;

    ghost listing = { λ _ _ cols. first_column cols };

    ghost takes_no_memory = { λ _. ⊤ };

    fn cells(&self, _alloc: Global, records: &R) -> Result<Self::Iter, OutOfMemory> {
        if records.count_columns() == 0 {
            return Ok(iter::empty());
        }
        Ok(iter::once(Entity::Column(0)))
    }
}

impl Combine for FirstColumn {}

/// The last column: it lists nothing in a table without columns.
#[derive(Debug, Drop)]
pub struct LastColumn;

impl LastColumn {
    /// Returns the column that has the given number of columns at its right.
    pub fn offset(self, offset: usize) -> LastColumnOffset
        ensures { result.offset ≡ offset }
    {
        LastColumnOffset { offset }
    }
}

/// The same as `offset`.
impl Sub<usize> for LastColumn {
    type Output = LastColumnOffset;

    ghost sub_gives = { λ _ offset column. column.offset ≡ offset };

    fn sub(self, offset: usize) -> LastColumnOffset {
        self.offset(offset)
    }
}

impl<R: Records + ExactRecords> Object<R> for LastColumn {
    type Iter = Once<Entity>;

    ghost listing = { λ _ _ cols. last_column cols };

    ghost takes_no_memory = { λ _. ⊤ };

    fn cells(&self, _alloc: Global, records: &R) -> Result<Self::Iter, OutOfMemory> {
        let last = records.count_columns().checked_sub(1);
        Ok(last.map(Entity::Column).into_iter())
    }
}

impl Combine for LastColumn {}

/// A column counted back from the last one: it lists nothing where there is no such column.
#[derive(Debug, Drop)]
pub struct LastColumnOffset {
    /// How many columns it has at its right.
    pub offset: usize,
}

impl<R: Records + ExactRecords> Object<R> for LastColumnOffset {
    type Iter = Once<Entity>;

    ghost listing = { λ column _ cols. column_before_last column.offset cols };

    ghost takes_no_memory = { λ _. ⊤ };

    fn cells(&self, _alloc: Global, records: &R) -> Result<Self::Iter, OutOfMemory> {
        let count = records.count_columns();
        if self.offset >= count {
            return Ok(iter::empty());
        }
        Ok(iter::once(Entity::Column(count - 1 - self.offset)))
    }
}

impl Combine for LastColumnOffset {}

/// The columns of a range: it lists those that the table has, in order.
#[derive(Debug, Drop)]
pub struct ColumnRange {
    /// Where the range starts.
    pub start: Bound<usize>,
    /// Where the range ends.
    pub end: Bound<usize>,
}

impl ColumnRange {
    /// Returns the columns of the range that are so many columns apart, from its start on; with a step of 0, none.
    pub fn step_by(self, step: usize) -> ColumnStep
        ensures range { result.range ≡ self }
        ensures step { result.step ≡ step }
    {
        ColumnStep { range: self, step }
    }
}

impl<R: Records + ExactRecords> Object<R> for ColumnRange {
    type Iter = RangeIterator;

    ghost listing = { λ range _ cols. columns_in range.start range.end cols };

    ghost takes_no_memory = { λ _. ⊤ };

    fn cells(&self, _alloc: Global, records: &R) -> Result<Self::Iter, OutOfMemory> {
        let count = records.count_columns();
        Ok(RangeIterator::new(false, self.start, self.end, 1, count))
    }
}

impl Combine for ColumnRange {}

/// The columns of a range that are so many columns apart, from its start on: it lists those that the table has, in order.
#[derive(Debug, Drop)]
pub struct ColumnStep {
    /// The range.
    pub range: ColumnRange,
    /// How many columns they are apart; where that is 0, none is listed.
    pub step: usize,
}

impl<R: Records + ExactRecords> Object<R> for ColumnStep {
    type Iter = RangeIterator;

    ghost listing = { λ stepped _ cols. columns_on_step stepped.range.start stepped.range.end stepped.step cols };

    ghost takes_no_memory = { λ _. ⊤ };

    fn cells(&self, _alloc: Global, records: &R) -> Result<Self::Iter, OutOfMemory> {
        let ColumnRange { start, end } = self.range;
        let count = records.count_columns();
        Ok(RangeIterator::new(false, start, end, self.step, count))
    }
}

impl Combine for ColumnStep {}
