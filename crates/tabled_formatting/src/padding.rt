//! The padding of cells.

ghost use Rattle.std.specs.Prelude.{◌≡◌, ⊤, refl};
ghost use Rattle.tabled_changes.specs.declared.resizing.Resizes.TheVariants as resizing;
ghost use Rattle.tabled_formatting.specs.Formatting.{padding_given};
ghost use Rattle.tabled_formatting.specs.Margins.{with_fills};

use std::marker::Model;
use tabled_border::OutOfMemory;
use tabled_changes::{Resizes, SetCells};
use tabled_configuration::SpannedConfig;
use tabled_object::Entity;
use tabled_settings::{Indent, Sides};

/// The padding of cells: how many columns stand at the left and at the right between the text of a cell and its border, how many lines
/// above and below it, and the characters that fill them, spaces where none are said. Cells for which nothing is set have one column at
/// the left and one at the right, and no line above or below.
///
/// `table.with(Style::ascii())?.modify(Cell::new(0, 1), Padding::new(3, 1, 1, 0).fill('>', '<', '=', ' '))?`:
///
/// ```text
/// +---+-----+
/// | a |=====|
/// |   |>>>b<|
/// +---+-----+
/// | c | d   |
/// +---+-----+
/// ```
#[derive(Clone, Copy, Debug, PartialEq, Eq, PartialOrd, Ord)]
pub struct Padding {
    sizes: Sides<Indent>,
}

impl Model for Padding {
    ghost use Rattle.tabled_settings.specs.declared.indent.Indent.{Indent as Room};
    ghost use Rattle.tabled_settings.specs.declared.sides.Sides.{Sides as Four};

    ghost Value = { Four Room };

    ghost view = { λ padding. padding.sizes };

    ghost inverse = { λ sizes. record { sizes = sizes } };
}

impl Padding {
    ghost use Rattle.tabled_formatting.specs.Margins.{spaces};

    /// So many columns or lines on each side, filled with spaces.
    pub fn new(left: usize, right: usize, top: usize, bottom: usize) -> Self
        ensures { result ≡ record { left = spaces left; right = spaces right; top = spaces top; bottom = spaces bottom } }
    {
        Padding {
            sizes: Sides::new(
                Indent::new(left, ' '),
                Indent::new(right, ' '),
                Indent::new(top, ' '),
                Indent::new(bottom, ' '),
            ),
        }
    }

    /// Makes a padding without room: the text stands right at the border.
    pub fn zero() -> Self
        ensures { result ≡ record { left = spaces 0; right = spaces 0; top = spaces 0; bottom = spaces 0 } }
    {
        Padding::new(0, 0, 0, 0)
    }

    /// So many columns at the left and at the right, and as many lines above and below, filled with spaces.
    pub fn filled(size: usize) -> Self
        ensures { result ≡ record { left = spaces size; right = spaces size; top = spaces size; bottom = spaces size } }
    {
        Padding::new(size, size, size, size)
    }

    /// Returns the padding with its room filled with these characters. A character that does not take one column of a terminal by itself is
    /// printed as a space.
    pub fn fill(self, left: char, right: char, top: char, bottom: char) -> Self
        ensures { result ≡ with_fills self left right top bottom }
    {
        let sizes = self.sizes;
        Padding {
            sizes: Sides::new(
                Indent::new(sizes.left.size, left),
                Indent::new(sizes.right.size, right),
                Indent::new(sizes.top.size, top),
                Indent::new(sizes.bottom.size, bottom),
            ),
        }
    }
}

impl SetCells for Padding {
    ghost sets = { padding_given };

    ghost resizes = { resizing.Always };

    ghost takes_no_memory = { λ padding. ⊤ };

    ghost leaves_colors = { λ padding entity. refl };

    /// Sets the padding of the cells of the entity. Its colors stay. Where memory is refused nothing changes; for all cells none is
    /// asked for.
    fn set_cells(&self, config: &mut SpannedConfig, entity: Entity) -> Result<(), OutOfMemory> {
        config.set_padding(entity, self.sizes)
    }

    fn resizes() -> Resizes {
        Resizes::Always
    }
}
