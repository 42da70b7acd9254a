//! How much room is left on a side, and what fills it.

ghost use Rattle.std.specs.Prelude.{◌≡◌, IfOk, IsOk};

use std::alloc::Global;
use tabled_border::{Keep, OutOfMemory};

/// The room on one side of a table, or of the text in a cell.
#[derive(Clone, Copy, Debug, PartialEq, Eq, PartialOrd, Ord, Hash)]
pub struct Indent {
    /// How many columns or lines.
    pub size: usize,
    /// The character that fills them.
    pub fill: char,
}

impl Indent {
    /// Makes room of so many columns or lines, filled with a character.
    pub const fn new(size: usize, fill: char) -> Self
        ensures { result ≡ record { size = size; fill = fill } }
    {
        Indent { size, fill }
    }
}

/// No room, and a space to fill it.
impl Default for Indent {
    ghost use Rattle.tabled_settings.specs.Padding.{no_indent};

    ghost is_default = { λ indent. indent ≡ no_indent };

    fn default() -> Self {
        Indent::new(0, ' ')
    }
}

impl Keep for Indent {
    /// A copy, which takes no memory.
    fn keep(&self, _alloc: Global) -> Result<Self, OutOfMemory>
        ensures copy { IfOk result (λ copy. copy ≡ self.now) }
        ensures always { IsOk result }
    {
        Ok(*self)
    }
}
