//! What is asked of edges as wholes and of all cells, besides single places.

ghost use Rattle.std.specs.Prelude.{◌≡◌, ◌↔◌, ◌||◌, not, IsTrue, is_some};
ghost use Rattle.tabled_settings.specs.CellSettings.{first_settings};
ghost use Rattle.tabled_settings.specs.Live.{value_at};
ghost use Rattle.tabled_settings.specs.Padding as padding;
ghost use Rattle.std.specs.FinMap as map;
ghost use Rattle.tabled_places.specs.Value.{plain_value};
ghost use Rattle.tabled_places.specs.State.{state_at};
ghost use Rattle.tabled_configuration.specs.AlikeRows.{AreCellsAlike};
ghost use Rattle.tabled_configuration.specs.Configuration.{has_no_padding, is_sized_by_texts};

use super::SpannedConfig;
use tabled_grid::Place;
use tabled_object::Position;
use tabled_settings::{Indent, Sides};

impl SpannedConfig {
    /// Returns the character of an edge or a crossing without its offset characters. `at` of an edge is not read.
    pub fn plain_char_at(&self, place: Place, shape: (usize, usize)) -> Option<char>
        ensures { result ≡ plain_value (state_at self.now.characters) shape place }
    {
        self.characters.plain_at(place, shape).copied()
    }

    /// Returns whether each cell of a row is known to have the same padding, justification and trims, whatever its column. It takes as long
    /// where much is set as where little is.
    pub fn is_row_alike(&self, row: usize) -> bool
        ensures alike { IsTrue result → AreCellsAlike self.now.settings.cells row }
        ensures none { self.now.settings.cells ≡ first_settings → IsTrue result }
    {
        let cells = &self.settings.cells;
        cells.padding.is_row_alike(row)
            && cells.padding_color.is_row_alike(row)
            && cells.justification.is_row_alike(row)
            && cells.justification_color.is_row_alike(row)
            && cells.trim_horizontal.is_row_alike(row)
            && cells.trim_vertical.is_row_alike(row)
    }

    /// Returns whether a cell has the padding of one where none was set: one column of spaces at its left and at its right, and no line above
    /// or below.
    pub fn has_first_padding(&self, cell: Position) -> bool
        ensures { result ≡ padding.is_first_padding (value_at self.now.settings.cells.padding cell) }
    {
        is_first_padding(self.settings.cells.padding.get(cell))
    }

    /// Returns whether no padding is set: each cell has one column of spaces at its left and at its right, and no line above or below. So it
    /// is where nothing was set, or that for all cells after all else.
    pub fn has_no_padding(&self) -> bool
        ensures { result ≡ has_no_padding self.now }
    {
        let padding = &self.settings.cells.padding;
        padding.is_empty() && is_first_padding(padding.global())
    }

    /// Returns whether a cell spans several columns or rows, or padding is set, so that the columns and rows of a table are not as large as
    /// its texts alone ask.
    pub fn has_spans_or_padding(&self) -> bool
        ensures { result ≡ not (is_sized_by_texts self.now) }
    {
        self.has_spans() || !self.has_no_padding()
    }

    /// Returns whether a custom horizontal line of characters, or one of colors, stands at an index.
    pub fn has_custom_line(&self, line: usize) -> bool
        ensures { result ≡ (is_some (map.get self.now.characters.horizontal_lines line) || is_some (map.get self.now.colors.horizontal_lines line)) }
    {
        self.characters.get_hline(line).is_some() || self.colors.get_hline(line).is_some()
    }
}

/// Whether a side is that many spaces.
fn is_spaces(size: usize, indent: Indent) -> bool
    ensures { result ≡ padding.is_spaces size indent }
{
    indent.size == size && indent.fill == ' '
}

/// Whether it is the padding of cells where nothing was set.
fn is_first_padding(sides: &Sides<Indent>) -> bool
    ensures { result ≡ padding.is_first_padding sides.now }
{
    is_spaces(1, sides.left)
        && is_spaces(1, sides.right)
        && is_spaces(0, sides.top)
        && is_spaces(0, sides.bottom)
}
