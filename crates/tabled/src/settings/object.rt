//! Objects: which rows, columns and cells an option is applied to.

pub use tabled_object::{
    Cell, Column, ColumnRange, ColumnStep, Columns, Combine, Difference, Entity, FirstColumn,
    FirstRow, Frame, Intersection, LastColumn, LastColumnOffset, LastRow, LastRowOffset, Object,
    Row, RowRange, RowStep, Rows, Segment, SegmentAll, SegmentRange, Union,
};
