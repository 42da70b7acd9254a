//! Borders of single cells.

ghost use Rattle.std.specs.Prelude.{◌≡◌, [], OnOk, OnErr, IsOk, IsTrue, option_copied, filter};
ghost use Rattle.tabled_object.specs.Entities.{cells_of, is_inside};
ghost use Rattle.tabled_places.specs.Calls.{border_set, border_erased, writes_anew};
ghost use Rattle.tabled_places.specs.CellBorder.{border_shown};
ghost use Rattle.tabled_places.specs.State.{state_at};
ghost use Rattle.tabled_configuration.specs.Configuration.{Changes, by_characters, by_colors};
ghost use Rattle.tabled_configuration.specs.Options.{entity_bordered};

use super::SpannedConfig;
use tabled_border::{ANSIBuf, Border, OutOfMemory};
use tabled_object::{Entity, Position};

impl SpannedConfig {
    /// Writes the given sides and corners of a cell, whatever the shape of the table; what is not given stays as it is. Where
    /// memory is refused nothing changes; where each of these places had a character of its own, none is asked for.
    ///
    /// A border with `top` and `bottom` `=` on the cell (0, 1), in a table of the style `ascii`:
    ///
    /// ```text
    /// +---+===+
    /// | a | b |
    /// +---+===+
    /// | c | d |
    /// +---+---+
    /// ```
    pub fn set_border(&mut self, pos: Position, border: Border<char>) -> Result<(), OutOfMemory>
        ensures ok { OnOk result (Changes (by_characters (border_set pos border)) self.old self.new) }
        ensures err { OnErr result (self.new ≡ self.old) }
        ensures absent { OnErr result (IsTrue (writes_anew (state_at self.old.characters) (border_set pos border))) }
    {
        self.characters.set_border(pos, border)
    }

    /// Writes the given sides and corners of each cell of an entity that lies in a table of `shape.0` rows
    /// and `shape.1` columns, row by row: for what two cells share the later one counts. Cells outside are
    /// passed over. Where memory is refused nothing changes; without a cell inside none is asked for.
    ///
    /// A border with `top` and `bottom` `=` on column 1, in a table of the style `ascii`:
    ///
    /// ```text
    /// +---+===+
    /// | a | b |
    /// +---+===+
    /// | c | d |
    /// +---+===+
    /// ```
    pub fn set_entity_border(
        &mut self,
        entity: Entity,
        shape: (usize, usize),
        border: &Border<char>,
    ) -> Result<(), OutOfMemory>
        ensures ok { OnOk result (Changes (entity_bordered border.now shape entity) self.old self.new) }
        ensures err { OnErr result (self.new ≡ self.old) }
        ensures without_cells { filter (is_inside shape.0 shape.1) (cells_of entity shape.0 shape.1) ≡ [] → IsOk result }
    {
        self.characters.set_entity_border(entity, shape, border)
    }

    /// Returns the characters that show at the sides and corners of a cell in a table of `shape.0` rows and
    /// `shape.1` columns, offset characters aside. A cell outside has none.
    pub fn get_border(&self, pos: Position, shape: (usize, usize)) -> Border<char>
        ensures { result ≡ border_shown (state_at self.now.characters) shape pos }
    {
        let shown = self.characters.get_border(pos, shape);
        Border {
            top: shown.top.copied(),
            bottom: shown.bottom.copied(),
            left: shown.left.copied(),
            right: shown.right.copied(),
            left_top_corner: shown.left_top_corner.copied(),
            left_bottom_corner: shown.left_bottom_corner.copied(),
            right_top_corner: shown.right_top_corner.copied(),
            right_bottom_corner: shown.right_bottom_corner.copied(),
        }
    }

    /// Erases the cell characters of a cell's sides and corners, also of those that it shares with the cells beside it.
    ///
    /// The border of the cell (0, 1) is removed, where the cell (0, 0) beside it had a border of `#` in the style `ascii`:
    ///
    /// ```text
    /// ####+---+
    /// # a | b |
    /// ####+---+
    /// | c | d |
    /// +---+---+
    /// ```
    pub fn remove_border(&mut self, pos: Position)
        ensures { Changes (by_characters (border_erased pos)) self.old self.new }
    {
        self.characters.erase_border(pos);
    }

    /// Writes the given colors of a cell's sides and corners, whatever the shape of the table; what is not given stays as it is.
    /// Where memory is refused nothing changes; where each of these places had a color of its own, none is asked for.
    ///
    /// Colors with `top` and `bottom` on the cell (0, 1), with `r` for each place that has one:
    ///
    /// ```text
    /// +---+rrr+
    /// | a | b |
    /// +---+rrr+
    /// | c | d |
    /// +---+---+
    /// ```
    pub fn set_border_color(
        &mut self,
        pos: Position,
        border: Border<ANSIBuf>,
    ) -> Result<(), OutOfMemory>
        ensures ok { OnOk result (Changes (by_colors (border_set pos border)) self.old self.new) }
        ensures err { OnErr result (self.new ≡ self.old) }
        ensures absent { OnErr result (IsTrue (writes_anew (state_at self.old.colors) (border_set pos border))) }
    {
        self.colors.set_border(pos, border)
    }

    /// Returns the colors that show at the sides and corners of a cell in a table of `shape.0` rows and `shape.1`
    /// columns, offset colors aside. A cell outside has none.
    pub fn get_border_color(&self, pos: Position, shape: (usize, usize)) -> Border<&ANSIBuf>
        ensures { record {
          top = option_copied result.top;
          bottom = option_copied result.bottom;
          left = option_copied result.left;
          right = option_copied result.right;
          left_top_corner = option_copied result.left_top_corner;
          left_bottom_corner = option_copied result.left_bottom_corner;
          right_top_corner = option_copied result.right_top_corner;
          right_bottom_corner = option_copied result.right_bottom_corner;
        } ≡ border_shown (state_at self.now.colors) shape pos }
    {
        self.colors.get_border(pos, shape)
    }

    /// Erases the cell colors of a cell's sides and corners, also of those that it shares with the cells beside it.
    pub fn remove_border_color(&mut self, pos: Position)
        ensures { Changes (by_colors (border_erased pos)) self.old self.new }
    {
        self.colors.erase_border(pos);
    }
}
