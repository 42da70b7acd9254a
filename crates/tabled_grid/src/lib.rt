//! The store of border characters: what every layer of a table stands on.
//!
//! `docs/DEFINITIONS.md` explains the words of the contracts. What names cells is written in `tabled_object`, what stands at a
//! border in `tabled_border`, records and places in `tabled_places`; what a user names of these is passed on here.
#![tactic(auto)]

mod cells;
mod counter;
mod custom_lines;
mod layers;
mod line_numbers;
mod spots;

pub use custom_lines::{HorizontalLines, VerticalLines};
pub use layers::{Layers, border_writes};
pub use tabled_border::{ANSIBuf, ANSIFmt, ANSIStr, AnsiText, Border, Keep, OutOfMemory};
pub use tabled_kept::{Meter, Numbered, Probes};
pub use tabled_object::{
    Cell, CellIterator, Column, ColumnRange, ColumnStep, Columns, Combine, Difference, Dimension,
    Entity, EntityIterator, ExactRecords, FirstColumn, FirstRow, FixedDimension, Frame,
    Intersection, LastColumn, LastColumnOffset, LastRow, LastRowOffset, Object, Offset, Position,
    RangeIterator, Records, Row, RowRange, RowStep, Rows, Segment, SegmentAll, SegmentRange, Shape,
    Union,
};
pub use tabled_places::{
    Borders, Class, Direction, Event, HorizontalLine, LineOf, Part, Place, Rank, Region, Site,
    Spot, Target, VerticalLine, Write, Written,
};
