//! The margin around a table. None of these calls takes memory.

ghost use Rattle.std.specs.Prelude.{◌≡◌};
ghost use Rattle.tabled_layout.specs.Margin.{of_size, of_offset, of_color};
ghost use Rattle.tabled_configuration.specs.Configuration.{Changes, by_margin};

use super::SpannedConfig;
use std::mem;
use tabled_border::ANSIBuf;
use tabled_grid::Offset;
use tabled_settings::{Indent, Sides};

impl SpannedConfig {
    /// Sets how wide the margin is on each side, in columns at the left and the right and in lines above and below, and
    /// what fills it.
    pub fn set_margin(&mut self, margin: Sides<Indent>)
        ensures { Changes (by_margin (of_size margin)) self.old self.new }
    {
        self.settings.margin.size = margin;
    }

    /// Returns how wide the margin is on each side, and what fills it: no room and a space where nothing was set.
    pub fn get_margin(&self) -> &Sides<Indent>
        ensures { result.now ≡ self.now.settings.margin.size }
    {
        &self.settings.margin.size
    }

    /// Sets where on its side each part of the margin begins.
    pub fn set_margin_offset(&mut self, offset: Sides<Offset>)
        ensures { Changes (by_margin (of_offset offset)) self.old self.new }
    {
        self.settings.margin.offset = offset;
    }

    /// Returns where on its side each part of the margin begins: at the start where nothing was set.
    pub fn get_margin_offset(&self) -> &Sides<Offset>
        ensures { result.now ≡ self.now.settings.margin.offset }
    {
        &self.settings.margin.offset
    }

    /// Sets the color of each part of the margin, or none.
    pub fn set_margin_color(&mut self, color: Sides<Option<ANSIBuf>>)
        ensures { Changes (by_margin (of_color color)) self.old self.new }
    {
        drop(mem::replace(&mut self.settings.margin.color, color));
    }

    /// Returns the color of each part of the margin: none where nothing was set.
    pub fn get_margin_color(&self) -> &Sides<Option<ANSIBuf>>
        ensures { result.now ≡ self.now.settings.margin.color }
    {
        &self.settings.margin.color
    }
}
