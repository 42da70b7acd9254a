//! Where a table keeps something.

ghost use Rattle.std.specs.Prelude.{◌≡◌};

use crate::{LineOf, Place, Rank};
use tabled_object::Offset;

/// Which way an edge runs.
#[derive(Clone, Copy, Debug, PartialEq, Eq, PartialOrd, Ord)]
pub enum Direction {
    /// As part of a horizontal line.
    Horizontal,
    /// As part of a vertical line.
    Vertical,
}

/// An edge or a crossing.
#[derive(Clone, Copy, Debug, PartialEq, Eq, PartialOrd, Ord)]
pub enum Spot {
    /// The edge of a horizontal line over a column, or of a vertical line beside a row: the number of the row or of the
    /// horizontal line, and that of the column or of the vertical line.
    Edge(Direction, usize, usize),
    /// The crossing of a horizontal line and a vertical line.
    Crossing(usize, usize),
}

/// What a class record has one value for.
#[derive(Clone, Copy, Debug, PartialEq, Eq)]
pub enum Class {
    /// The edges of one direction, on the lines of one rank.
    Edges(Direction, Rank),
    /// The crossings of the horizontal lines of one rank with the vertical lines of another.
    Crossings(Rank, Rank),
}

/// What a custom line has.
#[derive(Clone, Copy, Debug, PartialEq, Eq)]
pub enum Part {
    /// The mark that it stands.
    Mark,
    /// The edges of a custom line.
    Edges,
    /// The crossings of a custom line with the lines of one rank.
    Crossings(Rank),
}

/// Where something can be kept.
#[derive(Clone, Copy, Debug, PartialEq, Eq)]
pub enum Site {
    /// The default.
    Default,
    /// In the class record.
    Class(Class),
    /// At a custom line.
    Line(LineOf, Part),
    /// At the cell level of an edge or a crossing.
    Cell(Spot),
    /// At a numbered place of an edge, which is named as in [`Spot::Edge`].
    Offset(Direction, usize, usize, Offset),
}

impl Place {
    ghost use Rattle.tabled_places.specs.Calls.{spot_of};

    /// Returns the edge or the crossing of a place.
    pub fn spot(self) -> Spot
        ensures { result ≡ spot_of self }
    {
        match self {
            Place::Horizontal { row, col, .. } => Spot::Edge(Direction::Horizontal, row, col),
            Place::Vertical { row, col, .. } => Spot::Edge(Direction::Vertical, row, col),
            Place::Cross { row, col } => Spot::Crossing(row, col),
        }
    }
}
