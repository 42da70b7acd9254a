//! What is set for cells by entity.
//!
//! Of two writes for one cell the later one counts, whatever entities they name. A cell outside the table is as any other.

ghost use Rattle.std.specs.Prelude.{◌≡◌, IsTrue, IsOk, OnOk, OnErr, option_copied};
ghost use Rattle.tabled_settings.specs.Setting.{write_of, is_global};
ghost use Rattle.tabled_settings.specs.Live.{value_at};
ghost use Rattle.tabled_settings.specs.CellSettings.{of_alignment_horizontal, of_alignment_vertical, of_trim_horizontal, of_trim_vertical, of_line_alignment, of_justification, of_justification_color, of_padding, of_padding_color};
ghost use Rattle.tabled_configuration.specs.Configuration.{Changes, by_setting};

use super::SpannedConfig;
use tabled_border::{ANSIBuf, OutOfMemory};
use tabled_object::{Entity, Position};
use tabled_settings::{AlignmentHorizontal, AlignmentVertical, Indent, Sides};

impl SpannedConfig {
    /// Sets where the texts of the cells of an entity stand between the left and the right side. Where memory is refused
    /// nothing changes; for all cells none is asked for.
    pub fn set_alignment_horizontal(
        &mut self,
        entity: Entity,
        alignment: AlignmentHorizontal,
    ) -> Result<(), OutOfMemory>
        ensures ok { OnOk result (Changes (by_setting (of_alignment_horizontal (write_of entity alignment))) self.old self.new) }
        ensures err { OnErr result (self.new ≡ self.old) }
        ensures always { IsTrue (is_global entity) → IsOk result }
    {
        self.settings
            .cells
            .alignment_horizontal
            .insert(entity, alignment)
    }

    /// Returns where the text of a cell stands between its left and its right side: at the left where nothing was set.
    pub fn get_alignment_horizontal(&self, position: Position) -> AlignmentHorizontal
        ensures { result ≡ value_at self.now.settings.cells.alignment_horizontal position }
    {
        *self.settings.cells.alignment_horizontal.get(position)
    }

    /// Sets where the texts of the cells of an entity stand between the upper and the lower side. Where memory is refused
    /// nothing changes; for all cells none is asked for.
    pub fn set_alignment_vertical(
        &mut self,
        entity: Entity,
        alignment: AlignmentVertical,
    ) -> Result<(), OutOfMemory>
        ensures ok { OnOk result (Changes (by_setting (of_alignment_vertical (write_of entity alignment))) self.old self.new) }
        ensures err { OnErr result (self.new ≡ self.old) }
        ensures always { IsTrue (is_global entity) → IsOk result }
    {
        self.settings
            .cells
            .alignment_vertical
            .insert(entity, alignment)
    }

    /// Returns where the text of a cell stands between its upper and its lower side: at the top where nothing was set.
    pub fn get_alignment_vertical(&self, position: Position) -> AlignmentVertical
        ensures { result ≡ value_at self.now.settings.cells.alignment_vertical position }
    {
        *self.settings.cells.alignment_vertical.get(position)
    }

    /// Sets whether spaces at the left and the right of the texts of the cells of an entity are dropped before they are
    /// aligned. Where memory is refused nothing changes; for all cells none is asked for.
    pub fn set_trim_horizontal(&mut self, entity: Entity, trim: bool) -> Result<(), OutOfMemory>
        ensures ok { OnOk result (Changes (by_setting (of_trim_horizontal (write_of entity trim))) self.old self.new) }
        ensures err { OnErr result (self.new ≡ self.old) }
        ensures always { IsTrue (is_global entity) → IsOk result }
    {
        self.settings.cells.trim_horizontal.insert(entity, trim)
    }

    /// Returns whether spaces at the left and the right of a cell's text are dropped before it is aligned: not where nothing was set.
    pub fn get_trim_horizontal(&self, position: Position) -> bool
        ensures { result ≡ value_at self.now.settings.cells.trim_horizontal position }
    {
        *self.settings.cells.trim_horizontal.get(position)
    }

    /// Sets whether empty lines above and below the texts of the cells of an entity are dropped before they are aligned.
    /// Where memory is refused nothing changes; for all cells none is asked for.
    pub fn set_trim_vertical(&mut self, entity: Entity, trim: bool) -> Result<(), OutOfMemory>
        ensures ok { OnOk result (Changes (by_setting (of_trim_vertical (write_of entity trim))) self.old self.new) }
        ensures err { OnErr result (self.new ≡ self.old) }
        ensures always { IsTrue (is_global entity) → IsOk result }
    {
        self.settings.cells.trim_vertical.insert(entity, trim)
    }

    /// Returns whether empty lines above and below a cell's text are dropped before it is aligned: not where nothing was set.
    pub fn get_trim_vertical(&self, position: Position) -> bool
        ensures { result ≡ value_at self.now.settings.cells.trim_vertical position }
    {
        *self.settings.cells.trim_vertical.get(position)
    }

    /// Sets whether each line of the texts of the cells of an entity is aligned by itself. Where memory is refused
    /// nothing changes; for all cells none is asked for.
    pub fn set_line_alignment(&mut self, entity: Entity, each_line: bool) -> Result<(), OutOfMemory>
        ensures ok { OnOk result (Changes (by_setting (of_line_alignment (write_of entity each_line))) self.old self.new) }
        ensures err { OnErr result (self.new ≡ self.old) }
        ensures always { IsTrue (is_global entity) → IsOk result }
    {
        self.settings.cells.line_alignment.insert(entity, each_line)
    }

    /// Returns whether each line of a cell's text is aligned by itself: not where nothing was set.
    pub fn get_line_alignment(&self, position: Position) -> bool
        ensures { result ≡ value_at self.now.settings.cells.line_alignment position }
    {
        *self.settings.cells.line_alignment.get(position)
    }

    /// Sets the character that fills the cells of an entity beside their texts. Where memory is refused nothing changes;
    /// for all cells none is asked for.
    pub fn set_justification(&mut self, entity: Entity, character: char) -> Result<(), OutOfMemory>
        ensures ok { OnOk result (Changes (by_setting (of_justification (write_of entity character))) self.old self.new) }
        ensures err { OnErr result (self.new ≡ self.old) }
        ensures always { IsTrue (is_global entity) → IsOk result }
    {
        self.settings.cells.justification.insert(entity, character)
    }

    /// Returns the character that fills a cell beside its text: a space where nothing was set.
    pub fn get_justification(&self, position: Position) -> char
        ensures { result ≡ value_at self.now.settings.cells.justification position }
    {
        *self.settings.cells.justification.get(position)
    }

    /// Sets the color of the characters that fill the cells of an entity beside their texts, or none. Where memory is
    /// refused nothing changes; for all cells none is asked for.
    pub fn set_justification_color(
        &mut self,
        entity: Entity,
        color: Option<ANSIBuf>,
    ) -> Result<(), OutOfMemory>
        ensures ok { OnOk result (Changes (by_setting (of_justification_color (write_of entity color))) self.old self.new) }
        ensures err { OnErr result (self.new ≡ self.old) }
        ensures always { IsTrue (is_global entity) → IsOk result }
    {
        self.settings
            .cells
            .justification_color
            .insert(entity, color)
    }

    /// Returns the color of the characters that fill a cell beside its text: none where nothing was set.
    pub fn get_justification_color(&self, position: Position) -> Option<&ANSIBuf>
        ensures { option_copied result ≡ value_at self.now.settings.cells.justification_color position }
    {
        self.settings
            .cells
            .justification_color
            .get(position)
            .as_ref()
    }

    /// Sets how much padding the cells of an entity have on each side, in columns at the left and the right and in lines above and below
    /// the text, and what fills it. A character that does not draw plainly is a space when a table is printed. Where memory is refused
    /// nothing changes; for all cells none is asked for.
    pub fn set_padding(&mut self, entity: Entity, padding: Sides<Indent>) -> Result<(), OutOfMemory>
        ensures ok { OnOk result (Changes (by_setting (of_padding (write_of entity padding))) self.old self.new) }
        ensures err { OnErr result (self.new ≡ self.old) }
        ensures always { IsTrue (is_global entity) → IsOk result }
    {
        self.settings.cells.padding.insert(entity, padding)
    }

    /// Returns how much padding a cell has on each side, and what fills it, lent: a space at its left and at its right, and no line above or
    /// below, where nothing was set.
    pub fn get_padding(&self, position: Position) -> &Sides<Indent>
        ensures { result.now ≡ value_at self.now.settings.cells.padding position }
    {
        self.settings.cells.padding.get(position)
    }

    /// Sets the color of the padding of the cells of an entity on each side, or none there. Where memory is refused
    /// nothing changes; for all cells none is asked for.
    pub fn set_padding_color(
        &mut self,
        entity: Entity,
        colors: Sides<Option<ANSIBuf>>,
    ) -> Result<(), OutOfMemory>
        ensures ok { OnOk result (Changes (by_setting (of_padding_color (write_of entity colors))) self.old self.new) }
        ensures err { OnErr result (self.new ≡ self.old) }
        ensures always { IsTrue (is_global entity) → IsOk result }
    {
        self.settings.cells.padding_color.insert(entity, colors)
    }

    /// Returns the color of a cell's padding on each side, lent: none where nothing was set.
    pub fn get_padding_color(&self, position: Position) -> &Sides<Option<ANSIBuf>>
        ensures { result.now ≡ value_at self.now.settings.cells.padding_color position }
    {
        self.settings.cells.padding_color.get(position)
    }
}
