//! The picture of a table while it is corrected.

ghost use Rattle.std.specs.Prelude.{◌≡◌, ◌||◌, ◌+◌, ◌<◌, ◌^◌, IfOk, OnOk, IsTrue, is_some};
ghost use Rattle.std.specs.BTreeMap.{get};
ghost use Rattle.std.specs.Option.{option_or};
ghost use Rattle.tabled_object.specs.declared.position.Position.{Position as At};
ghost use Rattle.tabled_layout.specs.Spans.{position_cmp};
ghost use Rattle.tabled_layout.specs.Covering.{covered_by_column_span, covered_by_row_span, covered_by_both_spans};
ghost use Rattle.tabled_correction.specs.Covered.{AreThose};
ghost use Rattle.tabled_correction.specs.Correction.{last_at};

use crate::covered::Covered;
use std::collections::BTreeMap;
use tabled_border::OutOfMemory;
use tabled_configuration::SpannedConfig;
use tabled_grid::{Borders, Place};
use tabled_object::Position;

/// What a configuration shows, the cells that its spans cover, and the crossings that were written since.
#[derive(Drop)]
pub(crate) struct Picture<'a> {
    pub(crate) cfg: &'a SpannedConfig,
    pub(crate) shape: (usize, usize),
    pub(crate) written: BTreeMap<Position, char>,
    pub(crate) covered: Covered,
    ghost rows_fit: { shape.0 < 2 ^ 64 },
    ghost cols_fit: { shape.1 < 2 ^ 64 },
    ghost in_rows: { AreThose covered.in_rows.keys shape (covered_by_column_span cfg.now.settings.column_spans) },
    ghost in_columns: { AreThose covered.in_columns.keys shape (covered_by_row_span cfg.now.settings.row_spans) },
    ghost by_both: { AreThose covered.by_both.keys shape (covered_by_both_spans cfg.now.settings.column_spans cfg.now.settings.row_spans) },
}

impl<'a> Picture<'a> {
    ghost use Rattle.tabled_places.specs.declared.place.Place.{Place as Spot};
    ghost use Rattle.tabled_object.specs.Entities.{is_inside};
    ghost use Rattle.tabled_correction.specs.Correction.{after_writes, spanned};
    ghost use Rattle.tabled_correction.specs.Correction as correction;
    ghost use Rattle.tabled_correction.specs.Picture.{pictured};

    /// What a configuration shows in a table of that shape, with nothing written since.
    pub(crate) fn new(cfg: &'a SpannedConfig, shape: (usize, usize)) -> Result<Self, OutOfMemory>
        ensures pictured { IfOk result (λ picture. pictured picture ≡ spanned shape cfg.now) }
        ensures shape { IfOk result (λ picture. picture.shape ≡ shape) }
        ensures config { IfOk result (λ picture. picture.cfg.now ≡ cfg.now) }
    {
        Ok(Picture {
            cfg,
            shape,
            written: BTreeMap::new(cfg.allocator()),
            covered: Covered::of(cfg, shape)?,
        })
    }

    /// The class record.
    pub(crate) fn class(&self) -> &Borders<char>
        ensures { result.now ≡ (pictured self.now).class }
    {
        self.cfg.get_borders()
    }

    /// The character of an edge or a crossing, without the offset characters.
    pub(crate) fn shown(&self, place: Place) -> Option<char>
        ensures { result ≡ (pictured self.now).shown place }
    {
        match place {
            Place::Cross { row, col } => self.crossing(row, col),
            Place::Horizontal { .. } | Place::Vertical { .. } => {
                self.cfg.plain_char_at(place, self.shape)
            }
        }
    }

    /// The character of a crossing: the one that was written last, else that of the configuration.
    fn crossing(&self, row: usize, col: usize) -> Option<char>
        ensures { result ≡ (pictured self.now).shown (Spot.Cross row col) }
    {
        match self.written.get(&Position::new(row, col)) {
            Some(character) => Some(*character),
            None => self
                .cfg
                .plain_char_at(Place::Cross { row, col }, self.shape),
        }
    }

    /// Writes crossings, in their order.
    pub(crate) fn write(&mut self, writes: &[(Position, char)]) -> Result<(), OutOfMemory>
        ensures { OnOk result (pictured self.new ≡ after_writes (pictured self.old) writes.now) }
    {
        put_all(&mut self.written, writes)
    }

    /// Whether a cell lies inside the table.
    pub(crate) fn has_cell(&self, cell: Position) -> bool
        ensures { result ≡ is_inside (pictured self.now).shape.0 (pictured self.now).shape.1 cell }
    {
        let (rows, cols) = self.shape;
        cell.row < rows && cell.col < cols
    }

    /// Whether a cell that no span of its row covers has something at its left; a cell outside the table has not.
    #[tactic(auto, unfolding(crate::specs::Correction::has_left))]
    fn has_left(&self, cell: Position) -> bool
        ensures { result ≡ correction.has_left (pictured self.now) cell }
    {
        self.has_cell(cell) && !self.is_covered_in_row(cell) && self.shows_left(cell)
    }

    /// Whether a column span covers a cell, or both spans of a cell.
    pub(crate) fn is_covered_in_row(&self, cell: Position) -> bool
        requires { IsTrue (is_inside (pictured self.now).shape.0 (pictured self.now).shape.1 cell) }
        ensures { result ≡ (covered_by_column_span (pictured self.now).columns cell || covered_by_both_spans (pictured self.now).columns (pictured self.now).rows cell) }
    {
        self.covered.in_rows.contains(&cell) || self.covered.by_both.contains(&cell)
    }

    /// Whether there is a character at the left edge of a cell of the table, or at one of the crossings there.
    fn shows_left(&self, cell: Position) -> bool
        requires row { cell.row < (pictured self.now).shape.0 }
        requires col { cell.col < (pictured self.now).shape.1 }
        ensures { result ≡ (is_some ((pictured self.now).shown (Spot.Vertical cell.row cell.col 0)) || (is_some ((pictured self.now).shown (Spot.Cross cell.row cell.col)) || is_some ((pictured self.now).shown (Spot.Cross (cell.row + 1) cell.col)))) }
    {
        let (row, col) = (cell.row, cell.col);
        self.shown(Place::Vertical { row, col, at: 0 }).is_some()
            || self.crossing(row, col).is_some()
            || self.crossing(row + 1, col).is_some()
    }

    /// Whether a cell that no span of its column covers has something above it; a cell outside the table has not.
    #[tactic(auto, unfolding(crate::specs::Correction::has_top))]
    fn has_top(&self, cell: Position) -> bool
        ensures { result ≡ correction.has_top (pictured self.now) cell }
    {
        self.has_cell(cell) && !self.is_covered_in_column(cell) && self.shows_top(cell)
    }

    /// Whether a row span covers a cell, or both spans of a cell.
    pub(crate) fn is_covered_in_column(&self, cell: Position) -> bool
        requires { IsTrue (is_inside (pictured self.now).shape.0 (pictured self.now).shape.1 cell) }
        ensures { result ≡ (covered_by_row_span (pictured self.now).rows cell || covered_by_both_spans (pictured self.now).columns (pictured self.now).rows cell) }
    {
        self.covered.in_columns.contains(&cell) || self.covered.by_both.contains(&cell)
    }

    /// Whether there is a character at the upper edge of a cell of the table, or at one of the crossings there.
    fn shows_top(&self, cell: Position) -> bool
        requires row { cell.row < (pictured self.now).shape.0 }
        requires col { cell.col < (pictured self.now).shape.1 }
        ensures { result ≡ (is_some ((pictured self.now).shown (Spot.Horizontal cell.row cell.col 0)) || (is_some ((pictured self.now).shown (Spot.Cross cell.row cell.col)) || is_some ((pictured self.now).shown (Spot.Cross cell.row (cell.col + 1))))) }
    {
        let (row, col) = (cell.row, cell.col);
        self.shown(Place::Horizontal { row, col, at: 0 }).is_some()
            || self.crossing(row, col).is_some()
            || self.crossing(row, col + 1).is_some()
    }

    /// Whether the cell above one has something at its left.
    #[tactic(auto, unfolding(crate::specs::Correction::left_above))]
    pub(crate) fn has_left_above(&self, cell: Position) -> bool
        ensures { result ≡ correction.left_above (pictured self.now) cell }
    {
        cell.row > 0 && self.has_left(Position::new(cell.row - 1, cell.col))
    }

    /// Whether the cell below one of the table has something at its left.
    #[tactic(auto, unfolding(crate::specs::Correction::left_below))]
    pub(crate) fn has_left_below(&self, cell: Position) -> bool
        requires row { cell.row < (pictured self.now).shape.0 }
        requires col { cell.col < (pictured self.now).shape.1 }
        ensures { result ≡ correction.left_below (pictured self.now) cell }
    {
        self.has_left(Position::new(cell.row + 1, cell.col))
    }

    /// Whether the cell at the left of one has something above it.
    #[tactic(auto, unfolding(crate::specs::Correction::top_at_left))]
    pub(crate) fn has_top_at_left(&self, cell: Position) -> bool
        ensures { result ≡ correction.top_at_left (pictured self.now) cell }
    {
        cell.col > 0 && self.has_top(Position::new(cell.row, cell.col - 1))
    }

    /// Whether the cell at the right of one of the table has something above it.
    #[tactic(auto, unfolding(crate::specs::Correction::top_at_right))]
    pub(crate) fn has_top_at_right(&self, cell: Position) -> bool
        requires row { cell.row < (pictured self.now).shape.0 }
        requires col { cell.col < (pictured self.now).shape.1 }
        ensures { result ≡ correction.top_at_right (pictured self.now) cell }
    {
        self.has_top(Position::new(cell.row, cell.col + 1))
    }
}

/// Puts crossings into a map, in their order.
fn put_all(
    written: &mut BTreeMap<Position, char>,
    writes: &[(Position, char)],
) -> Result<(), OutOfMemory>
    ensures { OnOk result ((crossing : At) → get position_cmp written.new crossing ≡ option_or (last_at writes.now crossing) (get position_cmp written.old crossing)) }
{
    for (crossing, character) in writes {
        written.insert(*crossing, *character)?;
    }
    Ok(())
}
