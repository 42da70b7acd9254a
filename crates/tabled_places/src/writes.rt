//! One write of many.

use crate::Place;
use tabled_object::{Offset, Position};

/// Where something is written: at the cell level of a place, or at a numbered place of an edge.
#[derive(Clone, Copy, Debug, PartialEq, Eq)]
pub enum Target {
    /// The edge or the crossing of a place; for an edge `at` is not read.
    Cell(Place),
    /// A numbered place of the edge of this horizontal line over this column.
    Horizontal(Position, Offset),
    /// A numbered place of the edge of this vertical line beside this row.
    Vertical(Position, Offset),
}

/// A write, as one of a list. Nothing is written unless both are given.
#[derive(Debug, Drop)]
pub struct Write<T> {
    /// Where.
    pub target: Option<Target>,
    /// What.
    pub value: Option<T>,
}
