//! Characters and colors at numbered places of an edge.

ghost use Rattle.std.specs.Prelude.{◌≡◌, None, OnOk, OnErr, option_copied};
ghost use Rattle.tabled_places.specs.declared.site.Direction.TheVariants.{Horizontal, Vertical};
ghost use Rattle.tabled_places.specs.declared.site.Site.TheVariants.{Offset as at_offset};
ghost use Rattle.tabled_places.specs.Calls.{edge_offset, offset_erased, offsets_erased};
ghost use Rattle.std.specs.FinMap.{get};
ghost use Rattle.tabled_places.specs.State.{state_at, edge_place};
ghost use Rattle.tabled_places.specs.declared.place.Place.{Place as Spot};
ghost use Rattle.tabled_configuration.specs.Configuration.{Changes, by_characters, by_colors};

use super::SpannedConfig;
use tabled_border::{ANSIBuf, OutOfMemory};
use tabled_grid::{Offset, Place, Target};
use tabled_object::Position;

impl SpannedConfig {
    /// Writes a character at a numbered place of the edge of horizontal line `pos.row` over column `pos.col`, counted from its
    /// start or back from its end. Only a place that has none needs memory; where that is refused nothing changes.
    ///
    /// `x` at start 0 and `y` at end 0 of the position (0, 0), in a table of the style `ascii`:
    ///
    /// ```text
    /// +x-y+---+
    /// | a | b |
    /// +---+---+
    /// | c | d |
    /// +---+---+
    /// ```
    pub fn set_horizontal_char(
        &mut self,
        pos: Position,
        offset: Offset,
        character: char,
    ) -> Result<(), OutOfMemory>
        ensures ok { OnOk result (Changes (by_characters (edge_offset Horizontal pos.row pos.col offset character)) self.old self.new) }
        ensures err { OnErr result (self.new ≡ self.old) }
        ensures absent { OnErr result (state_at self.old.characters (at_offset Horizontal pos.row pos.col offset) ≡ None) }
    {
        self.characters
            .set_offset(horizontal_at(pos), offset, character)
    }

    /// Writes a character at a numbered place of the edge of vertical line `pos.col` beside row `pos.row`, counted from its start
    /// or back from its end. Only a place that has none needs memory; where that is refused nothing changes.
    ///
    /// `x` at start 0 of the position (1, 1), in a table of the style `ascii`:
    ///
    /// ```text
    /// +---+---+
    /// | a | b |
    /// +---+---+
    /// | c x d |
    /// +---+---+
    /// ```
    pub fn set_vertical_char(
        &mut self,
        pos: Position,
        offset: Offset,
        character: char,
    ) -> Result<(), OutOfMemory>
        ensures ok { OnOk result (Changes (by_characters (edge_offset Vertical pos.row pos.col offset character)) self.old self.new) }
        ensures err { OnErr result (self.new ≡ self.old) }
        ensures absent { OnErr result (state_at self.old.characters (at_offset Vertical pos.row pos.col offset) ≡ None) }
    {
        self.characters
            .set_offset(vertical_at(pos), offset, character)
    }

    /// Writes a color at a numbered place of the edge of horizontal line `pos.row` over column `pos.col`, counted from its start or
    /// back from its end. Only a place that has none needs memory; where that is refused nothing changes.
    ///
    /// A color at start 1 of the position (0, 0), with `r` for the place that has it:
    ///
    /// ```text
    /// +-r-+---+
    /// | a | b |
    /// ```
    pub fn set_horizontal_char_color(
        &mut self,
        pos: Position,
        offset: Offset,
        color: ANSIBuf,
    ) -> Result<(), OutOfMemory>
        ensures ok { OnOk result (Changes (by_colors (edge_offset Horizontal pos.row pos.col offset color)) self.old self.new) }
        ensures err { OnErr result (self.new ≡ self.old) }
        ensures absent { OnErr result (state_at self.old.colors (at_offset Horizontal pos.row pos.col offset) ≡ None) }
    {
        self.colors.set_offset(horizontal_at(pos), offset, color)
    }

    /// Writes a color at a numbered place of the edge of vertical line `pos.col` beside row `pos.row`, counted from its start or
    /// back from its end. Only a place that has none needs memory; where that is refused nothing changes.
    ///
    /// A color at start 0 of the position (1, 1), with `r` for the place that has it:
    ///
    /// ```text
    /// +---+---+
    /// | c r d |
    /// +---+---+
    /// ```
    pub fn set_vertical_char_color(
        &mut self,
        pos: Position,
        offset: Offset,
        color: ANSIBuf,
    ) -> Result<(), OutOfMemory>
        ensures ok { OnOk result (Changes (by_colors (edge_offset Vertical pos.row pos.col offset color)) self.old self.new) }
        ensures err { OnErr result (self.new ≡ self.old) }
        ensures absent { OnErr result (state_at self.old.colors (at_offset Vertical pos.row pos.col offset) ≡ None) }
    {
        self.colors.set_offset(vertical_at(pos), offset, color)
    }

    /// Returns the character that is kept at a numbered place of the edge of horizontal line `pos.row` over column `pos.col`,
    /// counted from its start or back from its end, whatever other levels have.
    pub fn get_horizontal_char(&self, pos: Position, offset: Offset) -> Option<char>
        ensures { result ≡ get self.now.characters.horizontal_offsets (edge_place pos.row pos.col offset) }
    {
        self.characters
            .kept_at(Target::Horizontal(pos, offset))
            .copied()
    }

    /// Erases the character at one numbered place of the edge of horizontal line `pos.row` over column `pos.col`,
    /// counted from its start or back from its end.
    ///
    /// `x` stood at start 0 of both edges, and that of the position (0, 0) is erased:
    ///
    /// ```text
    /// +---+x--+
    /// | a | b |
    /// ```
    pub fn remove_horizontal_char(&mut self, pos: Position, offset: Offset)
        ensures { Changes (by_characters (offset_erased Horizontal pos.row pos.col offset)) self.old self.new }
    {
        self.characters.erase_at(Target::Horizontal(pos, offset));
    }

    /// Returns the character that is kept at a numbered place of the edge of vertical line `pos.col` beside row `pos.row`,
    /// counted from its start or back from its end, whatever other levels have.
    pub fn get_vertical_char(&self, pos: Position, offset: Offset) -> Option<char>
        ensures { result ≡ get self.now.characters.vertical_offsets (edge_place pos.row pos.col offset) }
    {
        self.characters
            .kept_at(Target::Vertical(pos, offset))
            .copied()
    }

    /// Erases the character at one numbered place of the edge of vertical line `pos.col` beside row `pos.row`,
    /// counted from its start or back from its end.
    pub fn remove_vertical_char(&mut self, pos: Position, offset: Offset)
        ensures { Changes (by_characters (offset_erased Vertical pos.row pos.col offset)) self.old self.new }
    {
        self.characters.erase_at(Target::Vertical(pos, offset));
    }

    /// Returns the color that is kept at a numbered place of the edge of horizontal line `pos.row` over column `pos.col`,
    /// counted from its start or back from its end, whatever other levels have.
    pub fn get_horizontal_char_color(&self, pos: Position, offset: Offset) -> Option<&ANSIBuf>
        ensures { option_copied result ≡ get self.now.colors.horizontal_offsets (edge_place pos.row pos.col offset) }
    {
        self.colors.kept_at(Target::Horizontal(pos, offset))
    }

    /// Erases the color at one numbered place of the edge of horizontal line `pos.row` over column `pos.col`,
    /// counted from its start or back from its end.
    pub fn remove_horizontal_char_color(&mut self, pos: Position, offset: Offset)
        ensures { Changes (by_colors (offset_erased Horizontal pos.row pos.col offset)) self.old self.new }
    {
        self.colors.erase_at(Target::Horizontal(pos, offset));
    }

    /// Returns the color that is kept at a numbered place of the edge of vertical line `pos.col` beside row `pos.row`,
    /// counted from its start or back from its end, whatever other levels have.
    pub fn get_vertical_char_color(&self, pos: Position, offset: Offset) -> Option<&ANSIBuf>
        ensures { option_copied result ≡ get self.now.colors.vertical_offsets (edge_place pos.row pos.col offset) }
    {
        self.colors.kept_at(Target::Vertical(pos, offset))
    }

    /// Erases the color at one numbered place of the edge of vertical line `pos.col` beside row `pos.row`,
    /// counted from its start or back from its end.
    pub fn remove_vertical_char_color(&mut self, pos: Position, offset: Offset)
        ensures { Changes (by_colors (offset_erased Vertical pos.row pos.col offset)) self.old self.new }
    {
        self.colors.erase_at(Target::Vertical(pos, offset));
    }

    /// Erases all offset characters on the edges of horizontal lines.
    pub fn remove_horizontal_chars(&mut self)
        ensures { Changes (by_characters (offsets_erased Horizontal)) self.old self.new }
    {
        self.characters.erase_horizontal_offsets();
    }

    /// Erases all offset characters on the edges of vertical lines.
    pub fn remove_vertical_chars(&mut self)
        ensures { Changes (by_characters (offsets_erased Vertical)) self.old self.new }
    {
        self.characters.erase_vertical_offsets();
    }

    /// Erases all offset colors on the edges of horizontal lines.
    pub fn remove_color_line_horizontal(&mut self)
        ensures { Changes (by_colors (offsets_erased Horizontal)) self.old self.new }
    {
        self.colors.erase_horizontal_offsets();
    }

    /// Erases all offset colors on the edges of vertical lines.
    pub fn remove_color_line_vertical(&mut self)
        ensures { Changes (by_colors (offsets_erased Vertical)) self.old self.new }
    {
        self.colors.erase_vertical_offsets();
    }
}

/// The edge of a horizontal line, by its first place.
fn horizontal_at(pos: Position) -> Place
    ensures { result ≡ Spot.Horizontal pos.row pos.col 0 }
{
    Place::Horizontal {
        row: pos.row,
        col: pos.col,
        at: 0,
    }
}

/// The edge of a vertical line, by its first place.
fn vertical_at(pos: Position) -> Place
    ensures { result ≡ Spot.Vertical pos.row pos.col 0 }
{
    Place::Vertical {
        row: pos.row,
        col: pos.col,
        at: 0,
    }
}
