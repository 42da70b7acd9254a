//! A shadow of a table.

ghost use Rattle.std.specs.Prelude.{◌≡◌, true, false, None, Some, IfOk, option_map};
ghost use Rattle.tabled_changes.specs.declared.resizing.Resizes.TheVariants as resizing;
ghost use Rattle.tabled_formatting.specs.Margins.{indent_of, shadow_sizes, offset_of, shadow_offsets, color_of, shadow_colors, shadow_set};
ghost use Rattle.tabled_formatting.specs.LeavesColors.{none_in_shadow_set};

use crate::texts::copied_texts;
use std::alloc::Global;
use tabled_border::{ANSIBuf, Keep, OutOfMemory};
use tabled_changes::{Resizes, SetTable};
use tabled_color::Color;
use tabled_configuration::SpannedConfig;
use tabled_grid::Offset;
use tabled_settings::{Indent, Sides};

/// A shadow of a table. It falls on two sides of the margin that meet at a corner, and begins a little away from the other
/// corners. Here it is one wide, at the right and below:
///
/// ```text
/// +-----+
/// | one |▒
/// +-----+▒
///  ▒▒▒▒▒▒▒
/// ```
#[derive(Debug, Drop, PartialEq, Eq, PartialOrd, Ord)]
pub struct Shadow {
    fill: char,
    size: usize,
    offset: usize,
    direction: Sides<bool>,
    color: Option<Color>,
}

impl Shadow {
    /// The character of a shadow for which none is set.
    pub const DEFAULT_FILL: char = '▒';

    /// Makes a shadow of the given number of columns and lines, of the default character, at the right and below, with an offset of
    /// one and without a color.
    pub fn new(size: usize) -> Self
        ensures { result ≡ record { fill = 9618; size = size; offset = 1; direction = record { left = false; right = true; top = false; bottom = true }; color = None } }
    {
        Shadow {
            fill: Shadow::DEFAULT_FILL,
            size,
            offset: 1,
            direction: Sides::new(false, true, false, true),
            color: None,
        }
    }

    /// Returns the shadow with this character. One that does not draw plainly (`draws_plainly`) is a space when a table is printed.
    pub fn set_fill(mut self, fill: char) -> Self
        ensures { result ≡ record self { fill = fill } }
    {
        self.fill = fill;
        self
    }

    /// Returns the shadow that begins the given number of places away from the corners that it does not touch.
    pub fn set_offset(mut self, offset: usize) -> Self
        ensures { result ≡ record self { offset = offset } }
    {
        self.offset = offset;
        self
    }

    /// Returns the shadow above the table, and no longer below it.
    ///
    /// `Shadow::new(1).set_top()`:
    ///
    /// ```text
    ///  ▒▒▒▒▒▒▒
    /// +-----+▒
    /// | one |▒
    /// +-----+
    /// ```
    pub fn set_top(mut self) -> Self
        ensures { result ≡ record self { direction = record self.direction { top = true; bottom = false } } }
    {
        self.direction.top = true;
        self.direction.bottom = false;
        self
    }

    /// Returns the shadow below the table, and no longer above it.
    pub fn set_bottom(mut self) -> Self
        ensures { result ≡ record self { direction = record self.direction { top = false; bottom = true } } }
    {
        self.direction.top = false;
        self.direction.bottom = true;
        self
    }

    /// Returns the shadow at the left of the table, and no longer at its right.
    ///
    /// `Shadow::new(1).set_left()`:
    ///
    /// ```text
    ///  +-----+
    /// ▒| one |
    /// ▒+-----+
    /// ▒▒▒▒▒▒▒
    /// ```
    pub fn set_left(mut self) -> Self
        ensures { result ≡ record self { direction = record self.direction { left = true; right = false } } }
    {
        self.direction.left = true;
        self.direction.right = false;
        self
    }

    /// Returns the shadow at the right of the table, and no longer at its left.
    pub fn set_right(mut self) -> Self
        ensures { result ≡ record self { direction = record self.direction { left = false; right = true } } }
    {
        self.direction.left = false;
        self.direction.right = true;
        self
    }

    /// Returns the shadow in this color.
    pub fn set_color(self, color: Color) -> Self
        ensures { result ≡ record self { color = Some color } }
    {
        Shadow {
            fill: self.fill,
            size: self.size,
            offset: self.offset,
            direction: self.direction,
            color: Some(color),
        }
    }

    /// How wide the margin is on each side, and what fills it.
    fn sizes(&self) -> Sides<Indent>
        ensures { result ≡ shadow_sizes self.now }
    {
        Sides::new(
            self.indent(self.direction.left),
            self.indent(self.direction.right),
            self.indent(self.direction.top),
            self.indent(self.direction.bottom),
        )
    }

    /// How wide the margin is on a side on which the shadow falls, or on which it does not.
    fn indent(&self, falls: bool) -> Indent
        ensures { result ≡ indent_of self.now falls }
    {
        if falls {
            Indent::new(self.size, self.fill)
        } else {
            Indent::default()
        }
    }

    /// Where on its side each part of the margin begins.
    fn offsets(&self) -> Sides<Offset>
        ensures { result ≡ shadow_offsets self.now }
    {
        Sides::new(
            self.offset_of(self.direction.left, self.direction.bottom),
            self.offset_of(self.direction.right, self.direction.bottom),
            self.offset_of(self.direction.top, self.direction.right),
            self.offset_of(self.direction.bottom, self.direction.right),
        )
    }

    /// Where the margin begins on a side, by whether the shadow falls there, and whether its two sides meet at the side's end.
    fn offset_of(&self, falls: bool, meets_at_end: bool) -> Offset
        ensures { result ≡ offset_of self.now falls meets_at_end }
    {
        if !falls {
            Offset::Start(0)
        } else if meets_at_end {
            Offset::Start(self.offset)
        } else {
            Offset::End(self.offset)
        }
    }

    /// The color of each part of the margin, where the shadow has a color.
    fn colors(&self, alloc: Global) -> Result<Option<Sides<Option<ANSIBuf>>>, OutOfMemory>
        ensures { IfOk result (λ colors. colors ≡ option_map (λ color. shadow_colors color self.now.direction) self.now.color) }
    {
        match &self.color {
            Some(color) => Ok(Some(colors_of(alloc, color, &self.direction)?)),
            None => Ok(None),
        }
    }
}

/// The color on the sides on which a shadow falls.
fn colors_of(
    alloc: Global,
    color: &Color,
    direction: &Sides<bool>,
) -> Result<Sides<Option<ANSIBuf>>, OutOfMemory>
    ensures { IfOk result (λ colors. colors ≡ shadow_colors color.now direction.now) }
{
    let left = color_of(alloc, color, direction.left)?;
    let right = color_of(alloc, color, direction.right)?;
    let top = color_of(alloc, color, direction.top)?;
    let bottom = color_of(alloc, color, direction.bottom)?;
    Ok(Sides::new(left, right, top, bottom))
}

/// The color on a side on which the shadow falls, or on which it does not.
fn color_of(alloc: Global, color: &Color, falls: bool) -> Result<Option<ANSIBuf>, OutOfMemory>
    ensures { IfOk result (λ texts. texts ≡ color_of color.now falls) }
{
    if falls {
        Ok(Some(copied_texts(alloc, color)?))
    } else {
        Ok(None)
    }
}

impl Keep for Shadow {
    fn keep(&self, alloc: Global) -> Result<Self, OutOfMemory> {
        Ok(Shadow {
            fill: self.fill,
            size: self.size,
            offset: self.offset,
            direction: self.direction,
            color: self.color.keep(alloc)?,
        })
    }
}

impl SetTable for Shadow {
    ghost sets = { shadow_set };

    ghost resizes = { resizing.Always };

    ghost takes_no_memory = { λ shadow. ⊥ };

    ghost leaves_colors = { none_in_shadow_set };

    /// Sets the margin on each side and where it begins, and its color where the shadow has one: else the margin's colors stay.
    /// Where memory is refused nothing changes.
    fn set_table(&self, config: &mut SpannedConfig) -> Result<(), OutOfMemory> {
        let colors = self.colors(config.allocator())?;
        config.set_margin(self.sizes());
        config.set_margin_offset(self.offsets());
        if let Some(colors) = colors {
            config.set_margin_color(colors);
        }
        Ok(())
    }

    fn resizes() -> Resizes {
        Resizes::Always
    }
}
