//! The room around a table.

ghost use Rattle.std.specs.Prelude.{◌≡◌, ⊤, refl};
ghost use Rattle.tabled_changes.specs.declared.resizing.Resizes.TheVariants as resizing;
ghost use Rattle.tabled_formatting.specs.Margins.{margin_given, with_fills};

use std::marker::Model;
use tabled_border::OutOfMemory;
use tabled_changes::{Resizes, SetTable};
use tabled_configuration::SpannedConfig;
use tabled_settings::{Indent, Sides};

/// The room around a table: how many columns at its left and its right, how many lines above and below it, and the characters that fill
/// them, spaces where none are said.
///
/// `Margin::new(2, 1, 1, 0).fill('>', '<', '=', ' ')` around a table of the style `ascii`:
///
/// ```text
/// ==========
/// >>+-----+<
/// >>| one |<
/// >>+-----+<
/// ```
#[derive(Clone, Copy, Debug, PartialEq, Eq, PartialOrd, Ord)]
pub struct Margin {
    sizes: Sides<Indent>,
}

impl Model for Margin {
    ghost use Rattle.tabled_settings.specs.declared.indent.Indent.{Indent as Room};
    ghost use Rattle.tabled_settings.specs.declared.sides.Sides.{Sides as Four};

    ghost Value = { Four Room };

    ghost view = { λ margin. margin.sizes };

    ghost inverse = { λ sizes. record { sizes = sizes } };
}

impl Margin {
    ghost use Rattle.tabled_formatting.specs.Margins.{spaces};

    /// So many columns or lines on each side, filled with spaces.
    pub fn new(left: usize, right: usize, top: usize, bottom: usize) -> Self
        ensures { result ≡ record { left = spaces left; right = spaces right; top = spaces top; bottom = spaces bottom } }
    {
        Margin {
            sizes: Sides::new(
                Indent::new(left, ' '),
                Indent::new(right, ' '),
                Indent::new(top, ' '),
                Indent::new(bottom, ' '),
            ),
        }
    }

    /// Returns the margin with its room filled with these characters. A character that does not take one column of a terminal by itself is
    /// printed as a space.
    pub fn fill(self, left: char, right: char, top: char, bottom: char) -> Self
        ensures { result ≡ with_fills self left right top bottom }
    {
        let sizes = self.sizes;
        Margin {
            sizes: Sides::new(
                Indent::new(sizes.left.size, left),
                Indent::new(sizes.right.size, right),
                Indent::new(sizes.top.size, top),
                Indent::new(sizes.bottom.size, bottom),
            ),
        }
    }
}

impl SetTable for Margin {
    ghost sets = { margin_given };

    ghost resizes = { resizing.Always };

    ghost takes_no_memory = { λ margin. ⊤ };

    ghost leaves_colors = { λ margin. refl };

    /// Sets how wide the margin is on each side, and what fills it. Its offsets and its colors stay. It takes no memory and
    /// returns Ok.
    fn set_table(&self, config: &mut SpannedConfig) -> Result<(), OutOfMemory> {
        config.set_margin(self.sizes);
        Ok(())
    }

    fn resizes() -> Resizes {
        Resizes::Always
    }
}
