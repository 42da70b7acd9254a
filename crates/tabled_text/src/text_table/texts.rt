//! Texts of single cells.

ghost use Rattle.std.specs.Prelude.{◌≡◌, ◌<◌, [], length, option_map, slice_index_or, string_bytes, IfOk, OnOk, OnErr};
ghost use Rattle.tabled_measure.specs.Edited.{text_at, text_set};
ghost use Rattle.tabled_measure.specs.Sizes.{cell, column_count};

use super::TextTable;
use tabled_border::OutOfMemory;
use tabled_measure::edited::{Replaced, replace_in};
use tabled_object::Position;

impl TextTable {
    /// Replaces the text of a cell, and gives the one that stood there. Where the table has no such cell, it gives none, and nothing changes.
    /// The cell's row and column are measured again, and nothing else. What is set for the cell stays. Where memory is refused the
    /// table is as it was.
    ///
    /// `table.set_text(Position::new(1, 0), "Christopher")?`:
    ///
    /// ```text
    ///  name         age
    ///  Christopher  30
    /// ```
    #[tactic(auto, using(tabled_measure::proofs::TextLemmas::text_past, tabled_measure::proofs::TextLemmas::none_past, tabled_measure::proofs::TextLemmas::text_there))]
    pub fn set_text(
        &mut self,
        position: Position,
        text: &str,
    ) -> Result<Option<String>, OutOfMemory>
        ensures texts { OnOk result (self.new.texts ≡ text_set position.row position.col text.now self.old.texts) }
        ensures former { IfOk result (λ former. option_map string_bytes former ≡ text_at position.row position.col self.old.texts) }
        ensures config { self.new.config ≡ self.old.config }
        ensures err { OnErr result (self.new.texts ≡ self.old.texts) }
    {
        let Position { row, col } = position;
        let (rows, cols) = self.view().shape;
        if row >= rows || col >= cols {
            return Ok(None);
        }
        let alloc = self.config().config().allocator();
        let text = String::from_str(alloc, text)?;
        let former = self.replace_text(row, col, text)?;
        Ok(Some(former))
    }

    /// Replaces the text of a cell that the table has.
    fn replace_text(&mut self, row: usize, col: usize, text: String) -> Result<String, OutOfMemory>
        requires row { row < length self.old.texts }
        requires col { col < column_count self.old.texts }
        ensures texts { OnOk result (self.new.texts ≡ text_set row col (string_bytes text) self.old.texts) }
        ensures former { IfOk result (λ former. string_bytes former ≡ cell (slice_index_or self.old.texts row []) col) }
        ensures config { self.new.config ≡ self.old.config }
        ensures err { OnErr result (self.new.texts ≡ self.old.texts) }
    {
        let Replaced {
            former,
            width,
            height,
        } = replace_in(&mut self.cells, row, col, text)?;
        self.sizes.widths[col] = width;
        self.sizes.heights[row] = height;
        Ok(former)
    }
}
