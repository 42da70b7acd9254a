//! Many writes at once, of characters and of colors.

ghost use Rattle.std.specs.Prelude.{◌≡◌, ◌||◌, OnOk, OnErr, IsTrue};
ghost use Rattle.tabled_places.specs.Calls.{writes_anew};
ghost use Rattle.tabled_places.specs.State.{state_at};
ghost use Rattle.tabled_places.specs.Writes.{writes_made};
ghost use Rattle.tabled_configuration.specs.Configuration.{Changes, writes_applied};

use super::SpannedConfig;
use tabled_border::{ANSIBuf, OutOfMemory};
use tabled_grid::Write;

impl SpannedConfig {
    /// Makes the writes of two lists, of characters and of colors, each in its order: of two at one place the later one
    /// counts. Where memory is refused nothing changes, neither characters nor colors; where each of their places had
    /// something of its own, none is asked for.
    pub fn apply(
        &mut self,
        characters: Vec<Write<char>>,
        colors: Vec<Write<ANSIBuf>>,
    ) -> Result<(), OutOfMemory>
        ensures ok { OnOk result (Changes (writes_applied characters.items colors.items) self.old self.new) }
        ensures err { OnErr result (self.new ≡ self.old) }
        ensures absent { OnErr result (IsTrue (writes_anew (state_at self.old.characters) (writes_made characters.items)
            || writes_anew (state_at self.old.colors) (writes_made colors.items))) }
    {
        self.characters
            .write_both(characters, &mut self.colors, colors)
    }
}
