//! The colors of the border of one cell.

ghost use Rattle.std.specs.Prelude.{◌≡◌, Some, IfOk, IsTrue, option_map};
ghost use Rattle.tabled_color.specs.Shade.{texts_of};

mod option;

use crate::Color;
use std::alloc::Global;
use std::marker::Model;
use tabled_border::{ANSIBuf, Border, Keep, OutOfMemory};

/// A color for each side and each corner of one cell. What is missing is not given.
///
/// Here the cell (0, 0) of a table of the style `ascii` has the eight colors of `BorderColor::full(t, b, l, r, c1, c2, c3, c4)`.
/// Each place that is colored shows a letter for its color instead of its character, `1` for the color `c1` and so on:
///
/// ```text
/// 1ttt2---+
/// l a r b |
/// 3bbb4---+
/// | c | d |
/// +---+---+
/// ```
///
/// Each call below shows that cell with the colors that it gives, with `r` for each place that is red.
#[derive(Debug, Drop, PartialEq, Eq, PartialOrd, Ord)]
pub struct BorderColor {
    inner: Border<Color>,
}

impl Model for BorderColor {
    ghost use Rattle.tabled_border.specs.declared.border.Border.{Border};
    ghost use Rattle.tabled_color.specs.Shade.{Shade};

    ghost Value = { Border Shade };

    ghost view = { λ color. color.inner };

    ghost inverse = { λ border. record { inner = border } };
}

impl BorderColor {
    ghost use Rattle.tabled_border.specs.Border.{no_border};
    ghost use Rattle.tabled_color.specs.BorderColors.{full_border, border_texts};

    /// Makes a border without colors.
    pub const fn new() -> Self
        ensures { result ≡ no_border }
    {
        BorderColor {
            inner: Border::empty(),
        }
    }

    /// Makes a color for each side and corner.
    pub const fn full(
        top: Color,
        bottom: Color,
        left: Color,
        right: Color,
        top_left: Color,
        top_right: Color,
        bottom_left: Color,
        bottom_right: Color,
    ) -> Self
        ensures { result ≡ full_border top bottom left right top_left top_right bottom_left bottom_right }
    {
        BorderColor {
            inner: Border::full(
                top,
                bottom,
                left,
                right,
                top_left,
                top_right,
                bottom_left,
                bottom_right,
            ),
        }
    }

    /// One color on all sides and corners, which is copied for them.
    ///
    /// `BorderColor::filled(alloc, Color::FG_RED)?`:
    ///
    /// ```text
    /// rrrrr
    /// r a r
    /// rrrrr
    /// ```
    pub fn filled(alloc: Global, color: Color) -> Result<Self, OutOfMemory>
        ensures { IfOk result (λ border. border ≡ full_border color color color color color color color color) }
    {
        let (top, bottom, left, right) = four_copies(alloc, &color)?;
        let (left_top_corner, left_bottom_corner, right_top_corner) = three_copies(alloc, &color)?;
        Ok(BorderColor {
            inner: Border {
                top,
                bottom,
                left,
                right,
                left_top_corner,
                left_bottom_corner,
                right_top_corner,
                right_bottom_corner: Some(color),
            },
        })
    }

    /// Sets the color of the upper side.
    ///
    /// `BorderColor::new().top(Color::FG_RED)`:
    ///
    /// ```text
    /// +rrr+
    /// | a |
    /// +---+
    /// ```
    pub fn top(self, color: Color) -> Self
        ensures { result ≡ record self { top = Some color } }
    {
        BorderColor {
            inner: Border {
                top: Some(color),
                ..self.inner
            },
        }
    }

    /// Sets the color of the lower side.
    ///
    /// `BorderColor::new().bottom(Color::FG_RED)`:
    ///
    /// ```text
    /// +---+
    /// | a |
    /// +rrr+
    /// ```
    pub fn bottom(self, color: Color) -> Self
        ensures { result ≡ record self { bottom = Some color } }
    {
        BorderColor {
            inner: Border {
                bottom: Some(color),
                ..self.inner
            },
        }
    }

    /// Sets the color of the left side.
    ///
    /// `BorderColor::new().left(Color::FG_RED)`:
    ///
    /// ```text
    /// +---+
    /// r a |
    /// +---+
    /// ```
    pub fn left(self, color: Color) -> Self
        ensures { result ≡ record self { left = Some color } }
    {
        BorderColor {
            inner: Border {
                left: Some(color),
                ..self.inner
            },
        }
    }

    /// Sets the color of the right side.
    ///
    /// `BorderColor::new().right(Color::FG_RED)`:
    ///
    /// ```text
    /// +---+
    /// | a r
    /// +---+
    /// ```
    pub fn right(self, color: Color) -> Self
        ensures { result ≡ record self { right = Some color } }
    {
        BorderColor {
            inner: Border {
                right: Some(color),
                ..self.inner
            },
        }
    }

    /// Sets the color of the upper left corner.
    ///
    /// `BorderColor::new().corner_top_left(Color::FG_RED)`:
    ///
    /// ```text
    /// r---+
    /// | a |
    /// +---+
    /// ```
    pub fn corner_top_left(self, color: Color) -> Self
        ensures { result ≡ record self { left_top_corner = Some color } }
    {
        BorderColor {
            inner: Border {
                left_top_corner: Some(color),
                ..self.inner
            },
        }
    }

    /// Sets the color of the upper right corner.
    ///
    /// `BorderColor::new().corner_top_right(Color::FG_RED)`:
    ///
    /// ```text
    /// +---r
    /// | a |
    /// +---+
    /// ```
    pub fn corner_top_right(self, color: Color) -> Self
        ensures { result ≡ record self { right_top_corner = Some color } }
    {
        BorderColor {
            inner: Border {
                right_top_corner: Some(color),
                ..self.inner
            },
        }
    }

    /// Sets the color of the lower left corner.
    ///
    /// `BorderColor::new().corner_bottom_left(Color::FG_RED)`:
    ///
    /// ```text
    /// +---+
    /// | a |
    /// r---+
    /// ```
    pub fn corner_bottom_left(self, color: Color) -> Self
        ensures { result ≡ record self { left_bottom_corner = Some color } }
    {
        BorderColor {
            inner: Border {
                left_bottom_corner: Some(color),
                ..self.inner
            },
        }
    }

    /// Sets the color of the lower right corner.
    ///
    /// `BorderColor::new().corner_bottom_right(Color::FG_RED)`:
    ///
    /// ```text
    /// +---+
    /// | a |
    /// +---r
    /// ```
    pub fn corner_bottom_right(self, color: Color) -> Self
        ensures { result ≡ record self { right_bottom_corner = Some color } }
    {
        BorderColor {
            inner: Border {
                right_bottom_corner: Some(color),
                ..self.inner
            },
        }
    }

    /// Returns the border that has these colors.
    pub fn into_inner(self) -> Border<Color>
        ensures { result ≡ self }
    {
        self.inner
    }

    /// Returns the border that has copies of these colors, each of which owns its texts. Where two are equal these are shared.
    pub fn to_ansi(&self, alloc: Global) -> Result<Border<ANSIBuf>, OutOfMemory>
        ensures { IfOk result (λ border. border ≡ border_texts self.now) }
    {
        let mut made = Vec::new(alloc);
        let (top, bottom, left, right) = side_texts(alloc, &self.inner, &mut made)?;
        let (left_top_corner, left_bottom_corner, right_top_corner, right_bottom_corner) =
            corner_texts(alloc, &self.inner, &mut made)?;
        Ok(Border {
            top,
            bottom,
            left,
            right,
            left_top_corner,
            left_bottom_corner,
            right_top_corner,
            right_bottom_corner,
        })
    }
}

/// Three copies of a color, each of them given.
type ThreeColors = (Option<Color>, Option<Color>, Option<Color>);

/// Four copies of a color, each of them given.
type FourColors = (Option<Color>, Option<Color>, Option<Color>, Option<Color>);

/// The texts of four colors, of each where it is given.
type FourTexts = (
    Option<ANSIBuf>,
    Option<ANSIBuf>,
    Option<ANSIBuf>,
    Option<ANSIBuf>,
);

/// Three copies of a color.
fn three_copies(alloc: Global, color: &Color) -> Result<ThreeColors, OutOfMemory>
    ensures first { IfOk result (λ copies. copies.0 ≡ Some color.now) }
    ensures second { IfOk result (λ copies. copies.1 ≡ Some color.now) }
    ensures third { IfOk result (λ copies. copies.2 ≡ Some color.now) }
{
    Ok((
        kept(alloc, color)?,
        kept(alloc, color)?,
        kept(alloc, color)?,
    ))
}

/// Four copies of a color.
fn four_copies(alloc: Global, color: &Color) -> Result<FourColors, OutOfMemory>
    ensures first { IfOk result (λ copies. copies.0 ≡ Some color.now) }
    ensures second { IfOk result (λ copies. copies.1 ≡ Some color.now) }
    ensures third { IfOk result (λ copies. copies.2 ≡ Some color.now) }
    ensures fourth { IfOk result (λ copies. copies.3 ≡ Some color.now) }
{
    Ok((
        kept(alloc, color)?,
        kept(alloc, color)?,
        kept(alloc, color)?,
        kept(alloc, color)?,
    ))
}

/// Copies of the texts of the colors above, below, at the left and at the right.
fn side_texts(
    alloc: Global,
    border: &Border<Color>,
    made: &mut Vec<ANSIBuf>,
) -> Result<FourTexts, OutOfMemory>
    ensures top { IfOk result (λ copies. copies.0 ≡ option_map texts_of border.now.top) }
    ensures bottom { IfOk result (λ copies. copies.1 ≡ option_map texts_of border.now.bottom) }
    ensures left { IfOk result (λ copies. copies.2 ≡ option_map texts_of border.now.left) }
    ensures right { IfOk result (λ copies. copies.3 ≡ option_map texts_of border.now.right) }
{
    Ok((
        texts(alloc, &border.top, made)?,
        texts(alloc, &border.bottom, made)?,
        texts(alloc, &border.left, made)?,
        texts(alloc, &border.right, made)?,
    ))
}

/// Copies of the texts of the colors of the corners: at the left above and below, at the right above and below.
fn corner_texts(
    alloc: Global,
    border: &Border<Color>,
    made: &mut Vec<ANSIBuf>,
) -> Result<FourTexts, OutOfMemory>
    ensures left_top { IfOk result (λ copies. copies.0 ≡ option_map texts_of border.now.left_top_corner) }
    ensures left_bottom { IfOk result (λ copies. copies.1 ≡ option_map texts_of border.now.left_bottom_corner) }
    ensures right_top { IfOk result (λ copies. copies.2 ≡ option_map texts_of border.now.right_top_corner) }
    ensures right_bottom { IfOk result (λ copies. copies.3 ≡ option_map texts_of border.now.right_bottom_corner) }
{
    Ok((
        texts(alloc, &border.left_top_corner, made)?,
        texts(alloc, &border.left_bottom_corner, made)?,
        texts(alloc, &border.right_top_corner, made)?,
        texts(alloc, &border.right_bottom_corner, made)?,
    ))
}

/// A copy of a color, given.
fn kept(alloc: Global, color: &Color) -> Result<Option<Color>, OutOfMemory>
    ensures { IfOk result (λ copy. copy ≡ Some color.now) }
{
    Ok(Some(color.keep(alloc)?))
}

/// Whether texts are those of a color.
fn are_texts_of(texts: &ANSIBuf, color: &Color) -> bool
    ensures { IsTrue result → texts.now ≡ texts_of color.now }
{
    texts.get_prefix() == color.get_prefix() && texts.get_suffix() == color.get_suffix()
}

/// The texts of a color, where it is given: a copy of those among the ones that were made, which share them, or else a copy of new ones.
fn texts(
    alloc: Global,
    color: &Option<Color>,
    made: &mut Vec<ANSIBuf>,
) -> Result<Option<ANSIBuf>, OutOfMemory>
    ensures { IfOk result (λ copy. copy ≡ option_map texts_of color.now) }
{
    let Some(color) = color else {
        return Ok(None);
    };
    for texts in made.iter() {
        if are_texts_of(texts, color) {
            return Ok(Some(texts.keep(alloc)?));
        }
    }
    let texts = ANSIBuf::new(alloc, color.get_prefix(), color.get_suffix())?;
    made.push(texts.keep(alloc)?)?;
    Ok(Some(texts))
}

impl Default for BorderColor {
    ghost use Rattle.tabled_border.specs.Border.{no_border};

    ghost is_default = { λ color. color ≡ no_border };

    fn default() -> Self {
        BorderColor::new()
    }
}

impl From<BorderColor> for Border<Color> {
    ghost from_gives = { λ color border. border ≡ color };

    fn from(color: BorderColor) -> Self {
        color.into_inner()
    }
}

impl Keep for BorderColor {
    fn keep(&self, alloc: Global) -> Result<Self, OutOfMemory> {
        Ok(BorderColor {
            inner: self.inner.keep(alloc)?,
        })
    }
}
