//! A line of a table piece by piece: for each column, or row, a crossing and an edge, and finally a last crossing.

ghost use Rattle.std.specs.Prelude.{◌≡◌};
ghost use Rattle.tabled_printing.specs.LinePieces.{has_line, pieces_of, piece_size, crossing_line, crossing_of, edge_of};

use tabled_grid::{LineOf, Place};
use tabled_object::Dimension;

/// Returns whether a table of `shape.0` rows and `shape.1` columns has places, and the line is not past the one that closes it.
pub fn has_line(shape: (usize, usize), line: LineOf) -> bool
    ensures { result ≡ has_line shape line }
{
    let (rows, cols) = shape;
    rows != 0
        && cols != 0
        && match line {
            LineOf::Horizontal(row) => row <= rows,
            LineOf::Vertical(col) => col <= cols,
        }
}

/// Returns how many columns, or rows, a line is long. It has as many edges, and meets one line of the other direction more.
pub fn pieces_of(shape: (usize, usize), line: LineOf) -> usize
    ensures { result ≡ pieces_of shape line }
{
    match line {
        LineOf::Horizontal(_) => shape.1,
        LineOf::Vertical(_) => shape.0,
    }
}

/// Returns how many places the edge of a line has over column `n`, or beside row `n`.
pub fn piece_size<D: Dimension>(dims: &D, line: LineOf, n: usize) -> usize
    ensures { result ≡ piece_size (D.width_of dims.now) (D.height_of dims.now) line n }
{
    match line {
        LineOf::Horizontal(_) => dims.get_width(n),
        LineOf::Vertical(_) => dims.get_height(n),
    }
}

/// Returns the line of the other direction with number `n`.
pub fn crossing_line(line: LineOf, n: usize) -> LineOf
    ensures { result ≡ crossing_line line n }
{
    match line {
        LineOf::Horizontal(_) => LineOf::Vertical(n),
        LineOf::Vertical(_) => LineOf::Horizontal(n),
    }
}

/// Returns the place at which a line and line `n` of the other direction cross.
pub fn crossing_of(line: LineOf, n: usize) -> Place
    ensures { result ≡ crossing_of line n }
{
    match line {
        LineOf::Horizontal(row) => Place::Cross { row, col: n },
        LineOf::Vertical(col) => Place::Cross { row: n, col },
    }
}

/// Place `at` of the edge of a line over column `n`, or beside row `n`.
pub fn edge_of(line: LineOf, n: usize, at: usize) -> Place
    ensures { result ≡ edge_of line n at }
{
    match line {
        LineOf::Horizontal(row) => Place::Horizontal { row, col: n, at },
        LineOf::Vertical(col) => Place::Vertical { row: n, col, at },
    }
}
