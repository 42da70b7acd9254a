//! Where a border character stands in the picture of a table.

ghost use Rattle.std.specs.Prelude.{◌≡◌};
ghost use Rattle.tabled_places.specs.Value.{has_spot as is_there};

/// A place of the picture: one character of an edge, or the crossing of two lines.
///
/// Horizontal lines are counted from 0 at the top, vertical lines from 0 at the left.
#[derive(Clone, Copy, Debug, PartialEq, Eq, PartialOrd, Ord, Hash)]
pub enum Place {
    /// Character `at` of the edge of horizontal line `row` over column `col`, counted from its left end.
    Horizontal { row: usize, col: usize, at: usize },
    /// Character `at` of the edge of vertical line `col` beside row `row`, counted from its upper end.
    Vertical { row: usize, col: usize, at: usize },
    /// The crossing of horizontal line `row` and vertical line `col`.
    Cross { row: usize, col: usize },
}

/// A line of the table, by its number.
#[derive(Clone, Copy, Debug, PartialEq, Eq, PartialOrd, Ord, Hash)]
pub enum LineOf {
    /// A horizontal line, counted from 0 at the top.
    Horizontal(usize),
    /// A vertical line, counted from 0 at the left.
    Vertical(usize),
}

/// Where a line stands among those of its direction.
#[derive(Clone, Copy, Debug, PartialEq, Eq)]
pub enum Rank {
    /// Line 0.
    First,
    /// A line between the first and the last one.
    Inner,
    /// The line that closes the table.
    Last,
}

impl Rank {
    ghost use Rattle.tabled_places.specs.Site.{rank};

    /// Makes the rank of line `line`, of the lines 0 to `count`.
    pub fn of(line: usize, count: usize) -> Self
        ensures { result ≡ rank count line }
    {
        if line == 0 {
            Rank::First
        } else if line == count {
            Rank::Last
        } else {
            Rank::Inner
        }
    }
}

/// Whether a table of `shape.0` rows and `shape.1` columns has a place's edge, or its crossing.
/// A table without rows or without columns has none.
pub fn has_spot(place: Place, shape: (usize, usize)) -> bool
    ensures { result ≡ is_there shape place }
{
    let (rows, cols) = shape;
    match place {
        Place::Horizontal { row, col, .. } => 0 < rows && row <= rows && col < cols,
        Place::Vertical { row, col, .. } => 0 < cols && row < rows && col <= cols,
        Place::Cross { row, col } => 0 < rows && 0 < cols && row <= rows && col <= cols,
    }
}

impl Place {
    ghost use Rattle.tabled_places.specs.Value.{inside};

    /// Returns whether a table of `shape.0` rows and `shape.1` columns has this place, where its edge is `size`
    /// characters long. A crossing has no length.
    pub fn is_inside(self, shape: (usize, usize), size: usize) -> bool
        ensures { result ≡ inside shape size self }
    {
        match self {
            Place::Horizontal { at, .. } | Place::Vertical { at, .. } => {
                has_spot(self, shape) && at < size
            }
            Place::Cross { .. } => has_spot(self, shape),
        }
    }
}

impl LineOf {
    ghost use Rattle.tabled_places.specs.Drawn.{number};

    /// Returns the line's number among those of its direction, counted from 0.
    pub fn number(self) -> usize
        ensures { result ≡ number self }
    {
        match self {
            LineOf::Horizontal(line) | LineOf::Vertical(line) => line,
        }
    }
}
