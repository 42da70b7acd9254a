//! The configuration of a table whose cells have one line.

use std::alloc::AllocError;
use tabled_border::ANSIStr;
use tabled_places::Borders;
use tabled_settings::{AlignmentHorizontal, Sides};

/// What a table of cells of one line is drawn by: a class record, an alignment, and the colors of its margin and of the
/// padding of its cells. Each setter takes a record and returns the new one.
#[derive(Copy, Debug, PartialEq, Eq)]
pub struct CompactConfig {
    borders: Borders<char>,
    alignment_horizontal: AlignmentHorizontal,
    margin_color: Sides<ANSIStr<'static>>,
    padding_color: Sides<ANSIStr<'static>>,
}

/// A copy takes no memory.
impl Clone for CompactConfig {
    ghost use Rattle.std.specs.Prelude.{◌≡◌, ⊤};

    ghost is_clone = { λ config copy. copy ≡ config };

    ghost is_infallible = { λ _. ⊤ };

    fn clone(&self) -> Result<Self, AllocError> {
        Ok(*self)
    }
}

impl CompactConfig {
    ghost use Rattle.std.specs.Prelude.{◌≡◌};
    ghost use Rattle.tabled_compact.specs.Compact.{IsPlain};

    /// Makes a configuration of no borders, texts at the left side, and empty colors.
    pub const fn new() -> Self
        ensures { IsPlain result }
    {
        CompactConfig {
            borders: Borders::empty(),
            alignment_horizontal: AlignmentHorizontal::Left,
            margin_color: Sides::filled(ANSIStr::empty()),
            padding_color: Sides::filled(ANSIStr::empty()),
        }
    }

    /// With this class record.
    pub const fn set_borders(mut self, borders: Borders<char>) -> Self
        ensures { result ≡ record self { borders = borders } }
    {
        self.borders = borders;
        self
    }

    /// Returns the class record.
    pub const fn get_borders(&self) -> &Borders<char>
        ensures { result.now ≡ self.now.borders }
    {
        &self.borders
    }

    /// With texts that stand there in their cells.
    pub const fn set_alignment_horizontal(mut self, alignment: AlignmentHorizontal) -> Self
        ensures { result ≡ record self { alignment_horizontal = alignment } }
    {
        self.alignment_horizontal = alignment;
        self
    }

    /// Returns where the texts stand in their cells.
    pub const fn get_alignment_horizontal(&self) -> AlignmentHorizontal
        ensures { result ≡ self.now.alignment_horizontal }
    {
        self.alignment_horizontal
    }

    /// With these colors of the four sides of the margin.
    pub const fn set_margin_color(mut self, color: Sides<ANSIStr<'static>>) -> Self
        ensures { result ≡ record self { margin_color = color.entry } }
    {
        self.margin_color = color;
        self
    }

    /// Returns the colors of the four sides of the margin.
    pub const fn get_margin_color(&self) -> &Sides<ANSIStr<'static>>
        ensures { result.now ≡ self.now.margin_color }
    {
        &self.margin_color
    }

    /// With these colors of the four sides of each cell's padding.
    pub const fn set_padding_color(mut self, color: Sides<ANSIStr<'static>>) -> Self
        ensures { result ≡ record self { padding_color = color.entry } }
    {
        self.padding_color = color;
        self
    }

    /// Returns the colors of the four sides of each cell's padding.
    pub const fn get_padding_color(&self) -> &Sides<ANSIStr<'static>>
        ensures { result.now ≡ self.now.padding_color }
    {
        &self.padding_color
    }
}

impl Default for CompactConfig {
    ghost use Rattle.tabled_compact.specs.Compact.{IsPlain};

    ghost is_default = { IsPlain };

    /// As by `new`.
    fn default() -> Self {
        CompactConfig::new()
    }
}
