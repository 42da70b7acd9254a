//! Look-ups in a configuration's borders. They are written for every type of meters: so none can be made here, and each reading
//! raises the one that is lent.

ghost use Rattle.std.specs.Prelude.{◌≡◌, ◌↔◌, ◌<◌, IsTrue, option_copied};
ghost use Rattle.tabled_places.specs.Drawn.{Drawn};
ghost use Rattle.tabled_kept.specs.Probing.{IsRaised};
ghost use Rattle.tabled_places.specs.State.{state_at};
ghost use Rattle.tabled_places.specs.Value.{plain_value, value};

use super::SpannedConfig;
use tabled_border::ANSIBuf;
use tabled_grid::{Layers, LineOf, Place};
use tabled_kept::Meter;

impl<M: Meter> SpannedConfig<M> {
    /// Returns whether a line is drawn, of the lines 0 to `count` of its direction. At most six readings are made, and five where `count`
    /// is not 0.
    #[inline(always)]
    pub fn draws(&self, line: LineOf, count: usize, probes: &mut M) -> bool
        ensures drawn { IsTrue result ↔ Drawn (state_at self.now.characters) count line }
        ensures probes { IsRaised 6 (M.made probes.old) (M.made probes.new) }
        ensures of_several { 0 < count → IsRaised 5 (M.made probes.old) (M.made probes.new) }
    {
        self.characters.draws(line, count, probes)
    }

    /// Returns the character that shows at a place of a table of `shape.0` rows and `shape.1` columns. `size` is
    /// the width of a horizontal edge's column or the height of a vertical edge's row; for a crossing
    /// it is not read. A place outside the table has none. At most six readings are made.
    pub fn char_at(
        &self,
        place: Place,
        shape: (usize, usize),
        size: usize,
        probes: &mut M,
    ) -> Option<char>
        ensures value { result ≡ value (state_at self.now.characters) shape size place }
        ensures probes { IsRaised 6 (M.made probes.old) (M.made probes.new) }
    {
        self.characters.at(place, shape, size, probes).copied()
    }

    /// Returns the color that shows at a place of a table of `shape.0` rows and `shape.1` columns. `size` is
    /// the width of a horizontal edge's column or the height of a vertical edge's row; for a crossing
    /// it is not read. A place outside the table has none. At most six readings are made.
    pub fn color_at(
        &self,
        place: Place,
        shape: (usize, usize),
        size: usize,
        probes: &mut M,
    ) -> Option<&ANSIBuf>
        ensures value { option_copied result ≡ value (state_at self.now.colors) shape size place }
        ensures probes { IsRaised 6 (M.made probes.old) (M.made probes.new) }
    {
        self.colors.at(place, shape, size, probes)
    }

    /// Returns what `plain_char_at` does, and counts its readings: at most five are made.
    pub fn read_plain_char(
        &self,
        place: Place,
        shape: (usize, usize),
        probes: &mut M,
    ) -> Option<char>
        ensures value { result ≡ plain_value (state_at self.now.characters) shape place }
        ensures probes { IsRaised 5 (M.made probes.old) (M.made probes.new) }
    {
        self.characters.read_plain(place, shape, probes).copied()
    }

    /// Returns the color of an edge or a crossing without its offset colors, with its readings counted: at most five are made. `at`
    /// of an edge is not read.
    pub fn read_plain_color(
        &self,
        place: Place,
        shape: (usize, usize),
        probes: &mut M,
    ) -> Option<&ANSIBuf>
        ensures value { option_copied result ≡ plain_value (state_at self.now.colors) shape place }
        ensures probes { IsRaised 5 (M.made probes.old) (M.made probes.new) }
    {
        self.colors.read_plain(place, shape, probes)
    }

    /// Returns what is kept of the characters of borders, level by level.
    pub fn characters(&self) -> &Layers<char, M>
        ensures { result.now ≡ self.now.characters }
    {
        &self.characters
    }

    /// Returns what is kept of the colors of borders.
    pub fn colors(&self) -> &Layers<ANSIBuf, M>
        ensures { result.now ≡ self.now.colors }
    {
        &self.colors
    }
}
