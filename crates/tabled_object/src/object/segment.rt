//! Whole tables as objects, and the cells of some rows and columns.

ghost use Rattle.std.specs.Prelude.{⊤, ◌≡◌};
ghost use Rattle.tabled_object.specs.Listing.{all_cells};
ghost use Rattle.tabled_object.specs.Ranges.{cells_in};

use crate::object::chosen::{CellIterator, CellTest};
use crate::object::ranges::ends_within;
use crate::{
    ColumnRange, Columns, Combine, Entity, EntityIterator, ExactRecords, Object, Records, RowRange,
    Rows,
};
use std::alloc::Global;
use std::iter::{self, Once};
use std::ops::RangeBounds;
use tabled_border::OutOfMemory;

/// The parts of a table.
#[derive(Debug, Drop)]
pub struct Segment;

impl Segment {
    /// Returns the cells that stand in the rows of the one range and in the columns of the other one, as `Rows::new` and `Columns::new`
    /// have them.
    pub fn new<B: RangeBounds<usize>, C: RangeBounds<usize>>(rows: B, cols: C) -> SegmentRange
        ensures first_row { B.has_bounds rows → result.rows.start ≡ B.start_bound rows }
        ensures last_row { B.has_bounds rows → result.rows.end ≡ B.end_bound rows }
        ensures first_col { C.has_bounds cols → result.cols.start ≡ C.start_bound cols }
        ensures last_col { C.has_bounds cols → result.cols.end ≡ C.end_bound cols }
    {
        SegmentRange {
            rows: Rows::new(rows),
            cols: Columns::new(cols),
        }
    }

    /// Every cell.
    pub fn all() -> SegmentAll {
        SegmentAll
    }
}

/// Every cell of a table.
#[derive(Debug, Drop)]
pub struct SegmentAll;

impl<R: Records + ExactRecords> Object<R> for SegmentAll {
    type Iter = Once<Entity>;

    ghost listing = { λ _ _ _. all_cells };

    ghost takes_no_memory = { λ _. ⊤ };

    fn cells(&self, _alloc: Global, _records: &R) -> Result<Self::Iter, OutOfMemory> {
        Ok(iter::once(Entity::Global))
    }
}

impl Combine for SegmentAll {}

/// The cells of some rows and columns: it lists those that the table has, in row order.
#[derive(Debug, Drop)]
pub struct SegmentRange {
    /// The rows of the cells.
    pub rows: RowRange,
    /// The columns of the cells.
    pub cols: ColumnRange,
}

impl<R: Records + ExactRecords> Object<R> for SegmentRange {
    type Iter = CellIterator;

    ghost listing = { λ segment rows cols. cells_in segment.rows.start segment.rows.end segment.cols.start segment.cols.end rows cols };

    ghost takes_no_memory = { λ _. ⊤ };

    fn cells(&self, _alloc: Global, records: &R) -> Result<Self::Iter, OutOfMemory> {
        let (row, rows_end) = ends_within(self.rows.start, self.rows.end, records.count_rows());
        let (col, cols_end) = ends_within(self.cols.start, self.cols.end, records.count_columns());
        let cells = EntityIterator::rectangle((row, rows_end - row), (col, cols_end - col));
        Ok(CellIterator::new(cells, CellTest::All))
    }
}

impl Combine for SegmentRange {}
