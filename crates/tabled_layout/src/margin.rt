//! The margin around a table.

ghost use Rattle.std.specs.Prelude.{◌≡◌};
ghost use Rattle.tabled_layout.specs.Margin.{first_margin};

use std::alloc::Global;
use tabled_border::{ANSIBuf, Keep, OutOfMemory};
use tabled_object::Offset;
use tabled_settings::{Indent, Sides};

/// The margin of a table: how wide it is on each side, where it begins, and its colors.
#[derive(Debug, Drop, PartialEq, Eq)]
pub struct Margin {
    /// How wide it is, and what fills it.
    pub size: Sides<Indent>,
    /// Where on its side it begins.
    pub offset: Sides<Offset>,
    /// The color of each side of the margin, if it has one.
    pub color: Sides<Option<ANSIBuf>>,
}

impl Margin {
    /// Makes a margin without room: size 0 and a space on each side, beginning at the start, without a color.
    pub fn new() -> Self
        ensures { result ≡ first_margin }
    {
        Margin {
            size: Sides::filled(Indent::new(0, ' ')),
            offset: Sides::filled(Offset::Start(0)),
            color: Sides::new(None, None, None, None),
        }
    }
}

impl Keep for Margin {
    fn keep(&self, alloc: Global) -> Result<Self, OutOfMemory> {
        Ok(Margin {
            size: self.size,
            offset: self.offset,
            color: self.color.keep(alloc)?,
        })
    }
}
