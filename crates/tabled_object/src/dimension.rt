//! How wide the columns are, and how high the rows.

ghost use Rattle.std.specs.Prelude.{◌≡◌, ℕ, slice_index};

/// The sizes of a table. A width counts the places of a horizontal edge, which are terminal columns;
/// a height counts those of a vertical edge, which are lines of text.
pub trait Dimension {
    /// The width of a column, for the value as it stands.
    ghost width_of: { Self → ℕ → ℕ };
    /// The height of a row, for the value as it stands.
    ghost height_of: { Self → ℕ → ℕ };

    /// The width of column `col`.
    fn get_width(&self, col: usize) -> usize
        ensures { result ≡ width_of self.now col };

    /// The height of row `row`.
    fn get_height(&self, row: usize) -> usize
        ensures { result ≡ height_of self.now row };
}

/// Sizes that are given in full. Past the end of a list the size is 0.
#[derive(Debug, Drop)]
pub struct FixedDimension {
    /// The width of each column.
    pub widths: Vec<usize>,
    /// The height of each row.
    pub heights: Vec<usize>,
}

impl FixedDimension {
    /// Makes the sizes of these lists.
    pub fn new(widths: Vec<usize>, heights: Vec<usize>) -> Self
        ensures widths { result.widths ≡ widths }
        ensures heights { result.heights ≡ heights }
    {
        FixedDimension { widths, heights }
    }
}

impl Dimension for FixedDimension {
    ghost width_of = { λ sizes col. slice_index sizes.widths.items col };

    ghost height_of = { λ sizes row. slice_index sizes.heights.items row };

    fn get_width(&self, col: usize) -> usize {
        self.widths.get(col).copied().unwrap_or(0)
    }

    fn get_height(&self, row: usize) -> usize {
        self.heights.get(row).copied().unwrap_or(0)
    }
}
