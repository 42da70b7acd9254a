//! Which spots a line has, and on which lines a spot lies.

ghost use Rattle.std.specs.Prelude.{◌≡◌};
ghost use Rattle.tabled_places.specs.Calls.{edge_of, crossing_of};
ghost use Rattle.tabled_grid.specs.Counted.{first_line, second_line};

use crate::{Direction, LineOf, Spot};

/// The edge of a line over a column, or beside a row.
pub(crate) fn edge_at(line: LineOf, at: usize) -> Spot
    ensures { result ≡ edge_of line at }
{
    match line {
        LineOf::Horizontal(row) => Spot::Edge(Direction::Horizontal, row, at),
        LineOf::Vertical(col) => Spot::Edge(Direction::Vertical, at, col),
    }
}

/// The crossing of a line with one of the other direction.
pub(crate) fn crossing_at(line: LineOf, at: usize) -> Spot
    ensures { result ≡ crossing_of line at }
{
    match line {
        LineOf::Horizontal(row) => Spot::Crossing(row, at),
        LineOf::Vertical(col) => Spot::Crossing(at, col),
    }
}

/// The line on which an edge lies, or the horizontal one of a crossing.
pub(crate) fn line_of(spot: Spot) -> LineOf
    ensures { result ≡ first_line spot }
{
    match spot {
        Spot::Edge(Direction::Vertical, _, col) => LineOf::Vertical(col),
        Spot::Edge(Direction::Horizontal, row, _) | Spot::Crossing(row, _) => {
            LineOf::Horizontal(row)
        }
    }
}

/// The vertical line of a crossing.
pub(crate) fn line_across(spot: Spot) -> Option<LineOf>
    ensures { result ≡ second_line spot }
{
    match spot {
        Spot::Edge(..) => None,
        Spot::Crossing(_, col) => Some(LineOf::Vertical(col)),
    }
}
