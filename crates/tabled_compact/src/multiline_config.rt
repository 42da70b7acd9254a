//! The configuration of a table whose cells may have many lines.

use crate::Formatting;
use std::alloc::AllocError;
use tabled_border::ANSIStr;
use tabled_places::Borders;
use tabled_settings::{AlignmentHorizontal, AlignmentVertical, Sides};

/// What a table of cells of many lines is drawn by: as a [`CompactConfig`](crate::CompactConfig), with an alignment from top to
/// bottom too, and with how lines are laid out.
#[derive(Copy, Debug, PartialEq, Eq)]
pub struct CompactMultilineConfig {
    borders: Borders<char>,
    alignment_horizontal: AlignmentHorizontal,
    alignment_vertical: AlignmentVertical,
    formatting: Formatting,
    margin_color: Sides<ANSIStr<'static>>,
    padding_color: Sides<ANSIStr<'static>>,
}

/// A copy takes no memory.
impl Clone for CompactMultilineConfig {
    ghost use Rattle.std.specs.Prelude.{◌≡◌, ⊤};

    ghost is_clone = { λ config copy. copy ≡ config };

    ghost is_infallible = { λ _. ⊤ };

    fn clone(&self) -> Result<Self, AllocError> {
        Ok(*self)
    }
}

impl CompactMultilineConfig {
    ghost use Rattle.std.specs.Prelude.{◌≡◌};
    ghost use Rattle.tabled_compact.specs.Compact.{IsPlainMultiline};

    /// Makes a configuration of no borders, texts at the left and the upper side, empty colors, nothing trimmed and lines not aligned by
    /// themselves.
    pub const fn new() -> Self
        ensures { IsPlainMultiline result }
    {
        CompactMultilineConfig {
            borders: Borders::empty(),
            alignment_horizontal: AlignmentHorizontal::Left,
            alignment_vertical: AlignmentVertical::Top,
            formatting: Formatting::new(false, false, false),
            margin_color: Sides::filled(ANSIStr::empty()),
            padding_color: Sides::filled(ANSIStr::empty()),
        }
    }

    /// Sets the class record.
    pub fn set_borders(&mut self, borders: Borders<char>)
        ensures { self.new ≡ record self.old { borders = borders } }
    {
        self.borders = borders;
    }

    /// Returns the class record.
    pub const fn get_borders(&self) -> &Borders<char>
        ensures { result.now ≡ self.now.borders }
    {
        &self.borders
    }

    /// Sets where the texts stand in their cells, from left to right.
    pub fn set_alignment_horizontal(&mut self, alignment: AlignmentHorizontal)
        ensures { self.new ≡ record self.old { alignment_horizontal = alignment } }
    {
        self.alignment_horizontal = alignment;
    }

    /// Returns where the texts stand in their cells, from left to right.
    pub const fn get_alignment_horizontal(&self) -> AlignmentHorizontal
        ensures { result ≡ self.now.alignment_horizontal }
    {
        self.alignment_horizontal
    }

    /// Sets where the texts stand in their cells, from top to bottom.
    pub fn set_alignment_vertical(&mut self, alignment: AlignmentVertical)
        ensures { self.new ≡ record self.old { alignment_vertical = alignment } }
    {
        self.alignment_vertical = alignment;
    }

    /// Returns where the texts stand in their cells, from top to bottom.
    pub const fn get_alignment_vertical(&self) -> AlignmentVertical
        ensures { result ≡ self.now.alignment_vertical }
    {
        self.alignment_vertical
    }

    /// Sets how lines are laid out.
    pub fn set_formatting(&mut self, formatting: Formatting)
        ensures { self.new ≡ record self.old { formatting = formatting } }
    {
        self.formatting = formatting;
    }

    /// Returns how lines are laid out.
    pub const fn get_formatting(&self) -> Formatting
        ensures { result ≡ self.now.formatting }
    {
        self.formatting
    }

    /// Sets the colors of the four sides of the margin.
    pub fn set_margin_color(&mut self, color: Sides<ANSIStr<'static>>)
        ensures { self.new ≡ record self.old { margin_color = color.entry } }
    {
        self.margin_color = color;
    }

    /// Returns the colors of the four sides of the margin.
    pub const fn get_margin_color(&self) -> &Sides<ANSIStr<'static>>
        ensures { result.now ≡ self.now.margin_color }
    {
        &self.margin_color
    }

    /// Sets the colors of the four sides of each cell's padding.
    pub fn set_padding_color(&mut self, color: Sides<ANSIStr<'static>>)
        ensures { self.new ≡ record self.old { padding_color = color.entry } }
    {
        self.padding_color = color;
    }

    /// Returns the colors of the four sides of each cell's padding.
    pub const fn get_padding_color(&self) -> &Sides<ANSIStr<'static>>
        ensures { result.now ≡ self.now.padding_color }
    {
        &self.padding_color
    }
}

impl Default for CompactMultilineConfig {
    ghost use Rattle.tabled_compact.specs.Compact.{IsPlainMultiline};

    ghost is_default = { IsPlainMultiline };

    /// As by `new`.
    fn default() -> Self {
        CompactMultilineConfig::new()
    }
}
