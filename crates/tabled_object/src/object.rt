//! Objects: cells of a table, named before the table is known.

ghost use Rattle.std.specs.Prelude.{ℕ, List, IfOk, IsOk};
ghost use Rattle.tabled_object.specs.declared.entity.Entity.{Entity};
ghost use Rattle.tabled_object.specs.Listing.{Lists};

mod cell;
mod chosen;
mod columns;
mod combined;
mod covering;
mod difference;
mod entities;
mod frame;
mod intersection;
mod lent;
mod ranges;
mod rows;
mod segment;

use crate::{Entity, ExactRecords, Records};
pub use cell::Cell;
pub use chosen::CellIterator;
pub use columns::{
    Column, ColumnRange, ColumnStep, Columns, FirstColumn, LastColumn, LastColumnOffset,
};
pub use combined::{Combine, Union};
pub use covering::{is_covered, listed_entities};
pub use difference::Difference;
pub use frame::Frame;
pub use intersection::Intersection;
pub use ranges::RangeIterator;
pub use rows::{FirstRow, LastRow, LastRowOffset, Row, RowRange, RowStep, Rows};
pub use segment::{Segment, SegmentAll, SegmentRange};
use std::alloc::Global;
use tabled_border::OutOfMemory;

/// Cells of a table, named before the table is known.
pub trait Object<R: Records + ExactRecords> {
    /// What gives the entities, one by one.
    type Iter: Iterator<Item = Entity> + Drop;

    /// What the object lists, in order, in a table of the given numbers of rows and columns.
    ghost listing: { Self → ℕ → ℕ → List Entity };

    /// What it says that listing the object takes no memory.
    ghost takes_no_memory: { Self → Type 0 } = { λ _. ⊥ };

    /// The entities of the object in that table. The memory for them, where there is need of any, comes from `alloc`.
    fn cells(&self, alloc: Global, records: &R) -> Result<Self::Iter, OutOfMemory>
        ensures always { takes_no_memory self.now → IsOk result }
        ensures listed { IfOk result (λ items. Lists Self.Iter.can_next Self.Iter.next_gives Self.Iter.remaining items
            (listing self.now (R.row_count records.now) (R.column_count records.now))) };
}
