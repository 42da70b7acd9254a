//! Border colors, level by level.

ghost use Rattle.std.specs.Prelude.{◌≡◌, option_copied};
ghost use Rattle.tabled_places.specs.Calls.{default_erased, cell_erased, spot_of};
ghost use Rattle.std.specs.FinMap.{get};
ghost use Rattle.tabled_places.specs.State.{class_record_set};
ghost use Rattle.tabled_configuration.specs.Configuration.{Changes, by_colors, all_but_offsets, default_color_set};

use super::{SpannedConfig, erase_below_offsets};
use tabled_border::ANSIBuf;
use tabled_grid::{Borders, Place, Target};

impl SpannedConfig {
    /// Sets the record of class colors whole: what it had before is gone, also where the new record has nothing.
    ///
    /// A record with `vertical` alone, with `r` for each place that has its color:
    ///
    /// ```text
    /// +---+---+
    /// | a r b |
    /// +---+---+
    /// | c r d |
    /// +---+---+
    /// ```
    pub fn set_borders_color(&mut self, colors: Borders<ANSIBuf>)
        ensures { Changes (by_colors (class_record_set colors)) self.old self.new }
    {
        self.colors.set_class(colors);
    }

    /// Returns the record of class colors.
    pub fn get_color_borders(&self) -> &Borders<ANSIBuf>
        ensures { result.now ≡ self.now.colors.class_record }
    {
        self.colors.get_class()
    }

    /// Sets the default border color, which shows wherever no other has one, and erases the class colors
    /// and the cells' colors. Offset colors stay.
    ///
    /// With `r` for each place that has the color:
    ///
    /// ```text
    /// rrrrrrrrr
    /// r a r b r
    /// rrrrrrrrr
    /// r c r d r
    /// rrrrrrrrr
    /// ```
    pub fn set_border_color_default(&mut self, color: ANSIBuf)
        ensures { Changes (by_colors (default_color_set color)) self.old self.new }
    {
        self.colors.set_default(color);
        self.colors.erase_class();
        self.colors.erase_cells();
    }

    /// Returns the default border color, if one is set.
    pub fn get_border_color_default(&self) -> Option<&ANSIBuf>
        ensures { option_copied result ≡ self.now.colors.default_value }
    {
        self.colors.get_default()
    }

    /// Erases the default border color alone.
    pub fn remove_border_color_default(&mut self)
        ensures { Changes (by_colors default_erased) self.old self.new }
    {
        self.colors.erase_default();
    }

    /// Returns the color that is kept at the cell level of one edge or one crossing, whatever other levels have; for an edge
    /// `at` is not read.
    pub fn get_char_color(&self, place: Place) -> Option<&ANSIBuf>
        ensures { option_copied result ≡ get self.now.colors.cells (spot_of place) }
    {
        self.colors.kept_at(Target::Cell(place))
    }

    /// Erases every border color, the offset colors aside.
    pub fn remove_borders_colors(&mut self)
        ensures { Changes (by_colors all_but_offsets) self.old self.new }
    {
        erase_below_offsets(&mut self.colors);
    }

    /// Erases the cell color of one edge or one crossing; for an edge `at` is not read.
    pub fn erase_color(&mut self, place: Place)
        ensures { Changes (by_colors (cell_erased place)) self.old self.new }
    {
        self.colors.erase_cell(place);
    }
}
