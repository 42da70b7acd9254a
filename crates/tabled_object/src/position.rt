//! Where a cell stands.

ghost use Rattle.std.specs.Prelude.{◌≡◌};

/// A cell's row and column, counted from 0; also the row and column of an edge or of a crossing.
#[derive(Clone, Copy, Debug, PartialEq, Eq, PartialOrd, Ord, Hash)]
pub struct Position {
    /// The row, or the horizontal line.
    pub row: usize,
    /// The column, or the vertical line.
    pub col: usize,
}

impl Position {
    /// Makes the position of that row and column.
    pub const fn new(row: usize, col: usize) -> Self
        ensures row { result.row ≡ row }
        ensures col { result.col ≡ col }
    {
        Position { row, col }
    }
}

impl From<(usize, usize)> for Position {
    ghost from_gives = { λ pair result. (result.row ≡ pair.0) × (result.col ≡ pair.1) };

    fn from(pair: (usize, usize)) -> Self {
        Position::new(pair.0, pair.1)
    }
}

impl From<Position> for (usize, usize) {
    ghost from_gives = { λ position result. (result.0 ≡ position.row) × (result.1 ≡ position.col) };

    fn from(position: Position) -> Self {
        (position.row, position.col)
    }
}
