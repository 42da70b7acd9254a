//! Which cells: the counts and sizes of a table, positions, entities, and objects that name cells before the table is known; and places
//! of an edge, counted from one of its ends.
//!
//! `docs/DEFINITIONS.md` explains the words of the contracts. Users name these items by `tabled_grid`.
#![tactic(auto)]

mod dimension;
mod entity;
mod object;
mod offset;
mod position;
mod records;

pub use dimension::{Dimension, FixedDimension};
pub use entity::{Entity, EntityIterator};
pub use object::{
    Cell, CellIterator, Column, ColumnRange, ColumnStep, Columns, Combine, Difference, FirstColumn,
    FirstRow, Frame, Intersection, LastColumn, LastColumnOffset, LastRow, LastRowOffset, Object,
    RangeIterator, Row, RowRange, RowStep, Rows, Segment, SegmentAll, SegmentRange, Union,
    is_covered, listed_entities,
};
pub use offset::Offset;
pub use position::Position;
pub use records::{ExactRecords, Records, Shape};
