//! What the cells of a table ask for where some span or have padding.

ghost use Rattle.std.specs.Prelude.{◌≡◌, ◌≤◌, ℕ, [], map, slice_index_or, IsTrue, IfOk};
ghost use Rattle.tabled_cells.specs.TextsBy.{texts_by};
ghost use Rattle.tabled_measure.specs.Sizes.{cell, height_asked, width_asked, AreSizesOf};

use crate::measure::{height_asked, padded_width, with_sides};
use std::alloc::AllocError;
use std::convert::AsStr;
use tabled_configuration::SpannedConfig;
use tabled_numbers::text_of;
use tabled_object::{Dimension, FixedDimension, Position};
use tabled_rooms::CellSizes;

/// What the texts of a table ask for, each with the padding of its place; a cell that is not there asks as the empty text does.
#[derive(Drop)]
pub struct TextSizes<'a, T: AsStr> {
    pub rows: &'a [Vec<T>],
    pub cfg: &'a SpannedConfig,
    /// How wide the columns are and how high the rows where no cell spans and no padding is set.
    pub sizes: &'a FixedDimension,
    ghost sized: { AreSizesOf sizes.now (texts_by T.text rows.now) },
}

impl<T: AsStr> TextSizes<'_, T> {
    /// Whether a column of that width has room for each text in it with a column for a space on each side.
    #[tactic(auto, using(crate::proofs::Measuring::asks_within))]
    fn is_wide_enough(&self, col: usize, width: usize) -> bool
        ensures { IsTrue result → (row : ℕ) → width_asked (cell (slice_index_or (texts_by T.text self.now.rows.now) row []) col) ≤ width }
    {
        if width < 2 || self.sizes.widths.len() <= col {
            return false;
        }
        self.sizes.get_width(col) <= width
    }

    /// How many lines the text of a cell asks for: one, where its row is one line high.
    #[tactic(auto, using(crate::proofs::Measuring::one_line))]
    fn lines_asked(&self, row: usize, col: usize) -> usize
        ensures { result ≡ height_asked (cell (slice_index_or (texts_by T.text self.now.rows.now) row []) col) }
    {
        if row < self.sizes.heights.len() && self.sizes.get_height(row) == 1 {
            return 1;
        }
        height_asked(text_at(self.rows, row, col))
    }
}

impl<T: AsStr> CellSizes for TextSizes<'_, T> {
    ghost use Rattle.tabled_cells.specs.TextsBy.{texts_by};
    ghost use Rattle.tabled_measure.specs.Sizes.{width_with_padding, height_with_padding};

    ghost width_at = { λ sizes row col. width_with_padding sizes.cfg.now.settings.cells (texts_by T.text sizes.rows.now) row col };

    ghost height_at = { λ sizes row col. height_with_padding sizes.cfg.now.settings.cells (texts_by T.text sizes.rows.now) row col };

    fn width(&self, row: usize, col: usize) -> Result<usize, AllocError> {
        let padding = self.cfg.get_padding(Position { row, col });
        padded_width(padding, text_at(self.rows, row, col))
    }

    fn wider(&self, row: usize, col: usize, width: usize) -> Result<usize, AllocError> {
        let padding = self.cfg.get_padding(Position { row, col });
        let (left, right) = (padding.left.size, padding.right.size);
        if left <= 1 && right <= 1 && self.is_wide_enough(col, width) {
            return Ok(width);
        }
        let asked = padded_width(padding, text_at(self.rows, row, col))?;
        Ok(asked.max(width))
    }

    fn height(&self, row: usize, col: usize) -> Result<usize, AllocError> {
        let padding = self.cfg.get_padding(Position { row, col });
        with_sides(
            self.lines_asked(row, col),
            padding.top.size,
            padding.bottom.size,
        )
    }
}

/// The text of the cell of a row and a column.
fn text_at<'a, T: AsStr>(rows: &'a [Vec<T>], row: usize, col: usize) -> &'a str
    ensures { result.now ≡ cell (slice_index_or (texts_by T.text rows.now) row []) col }
{
    match rows.get(row) {
        Some(cells) => text_of(cells, col),
        None => "",
    }
}
