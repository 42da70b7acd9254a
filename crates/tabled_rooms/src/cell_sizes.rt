//! How much room cells ask for.

ghost use Rattle.std.specs.Prelude.{◌≡◌, ℕ, max, IfOk};

use std::alloc::AllocError;

/// How much room each cell of a table asks for.
pub trait CellSizes {
    /// How wide, by row and column.
    ghost width_at: { Self → ℕ → ℕ → ℕ };
    /// How high, by row and column.
    ghost height_at: { Self → ℕ → ℕ → ℕ };

    /// How wide a cell asks to be. Refused where no number says it.
    fn width(&self, row: usize, col: usize) -> Result<usize, AllocError>
        ensures { IfOk result (λ width. width ≡ width_at self.now row col) };

    /// The greater one of a width and the one that a cell asks for: who knows at once that it asks for no more need not measure it. Refused
    /// where no number says it.
    fn wider(&self, row: usize, col: usize, width: usize) -> Result<usize, AllocError>
        ensures { IfOk result (λ wider. wider ≡ max width (width_at self.now row col)) }
    {
        let asked = self.width(row, col)?;
        Ok(asked.max(width))
    }

    /// How high a cell asks to be. Refused where no number says it.
    fn height(&self, row: usize, col: usize) -> Result<usize, AllocError>
        ensures { IfOk result (λ height. height ≡ height_at self.now row col) };
}
