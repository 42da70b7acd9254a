//! Over how many columns and rows cells span.

ghost use Rattle.std.specs.Prelude.{◌≡◌, ◌<◌, ◌≤◌, ℕ, false};
ghost use Rattle.tabled_rooms.specs.Holding.{IsOneCell};

/// Over how many columns and rows each cell of a table spans. One is its own alone.
pub trait CellSpans {
    /// The number of columns, by row and column.
    ghost columns_at: { Self → ℕ → ℕ → ℕ };
    /// The number of rows, by row and column.
    ghost rows_at: { Self → ℕ → ℕ → ℕ };

    /// Whether one of the first `count` cells of a row may span: who knows that none does need not ask each.
    fn may_span(&self, row: usize, count: usize) -> bool
        ensures { result ≡ false → (col : ℕ) → col < count → IsOneCell (columns_at self.now) (rows_at self.now) (row, col) };

    /// Over how many columns a cell spans.
    fn columns(&self, row: usize, col: usize) -> usize
        ensures value { result ≡ columns_at self.now row col }
        ensures some { 1 ≤ result };

    /// Over how many rows a cell spans.
    fn rows(&self, row: usize, col: usize) -> usize
        ensures value { result ≡ rows_at self.now row col }
        ensures some { 1 ≤ result };
}
