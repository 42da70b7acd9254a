//! Custom lines, which stand at one index in place of what the class record says there.

ghost use Rattle.std.specs.Prelude.{◌≡◌, ⊤};

use crate::Rank;
use std::alloc::AllocError;

/// A custom horizontal line. A character that is missing leaves the place to the levels below.
///
/// The line 1 with `main` `=`, `intersection` `*`, `left` `<` and `right` `>`:
///
/// ```text
/// +---+---+
/// | a | b |
/// <===*===>
/// | c | d |
/// +---+---+
/// ```
#[derive(Copy, Debug, Drop, PartialEq, Eq, PartialOrd, Ord, Hash)]
pub struct HorizontalLine<T> {
    /// Along the edges.
    pub main: Option<T>,
    /// At the crossings between the first and the last vertical line.
    pub intersection: Option<T>,
    /// At the crossing with vertical line 0.
    pub left: Option<T>,
    /// At the crossing with the last vertical line.
    pub right: Option<T>,
}

/// Values are copied where `T` is copied.
impl<T: Copy> Clone for HorizontalLine<T> {
    ghost is_clone = { λ value copy. copy ≡ value };

    ghost is_infallible = { λ _. ⊤ };

    fn clone(&self) -> Result<Self, AllocError> {
        Ok(*self)
    }
}

/// A custom vertical line. A character that is missing leaves the place to the levels below.
///
/// The line 1 with `main` `#`, `intersection` `*`, `top` `v` and `bottom` `^`:
///
/// ```text
/// +---v---+
/// | a # b |
/// +---*---+
/// | c # d |
/// +---^---+
/// ```
#[derive(Copy, Debug, Drop, PartialEq, Eq, PartialOrd, Ord, Hash)]
pub struct VerticalLine<T> {
    /// Along the edges.
    pub main: Option<T>,
    /// At the crossings between the first and the last horizontal line.
    pub intersection: Option<T>,
    /// At the crossing with horizontal line 0.
    pub top: Option<T>,
    /// At the crossing with the last horizontal line.
    pub bottom: Option<T>,
}

/// Values are copied where `T` is copied.
impl<T: Copy> Clone for VerticalLine<T> {
    ghost is_clone = { λ value copy. copy ≡ value };

    ghost is_infallible = { λ _. ⊤ };

    fn clone(&self) -> Result<Self, AllocError> {
        Ok(*self)
    }
}

impl<T> HorizontalLine<T> {
    ghost use Rattle.tabled_places.specs.CustomLines.{no_horizontal, put_horizontal_meeting};

    /// Makes a line of these characters: along its edges, at its crossings between, and at its two ends.
    pub const fn new(
        main: Option<T>,
        intersection: Option<T>,
        left: Option<T>,
        right: Option<T>,
    ) -> Self
        ensures { result ≡ record { main = main; intersection = intersection; left = left; right = right } }
    {
        HorizontalLine {
            main,
            intersection,
            left,
            right,
        }
    }

    /// Makes a line with nothing set.
    pub const fn empty() -> Self
        ensures { result ≡ no_horizontal }
    {
        HorizontalLine::new(None, None, None, None)
    }

    /// Sets or drops what the line has at its crossings with the vertical lines of a rank.
    pub fn set_crossing(&mut self, rank: Rank, value: Option<T>)
    where
        T: Copy,
        ensures { self.new ≡ put_horizontal_meeting rank value self.old }
    {
        match rank {
            Rank::First => self.left = value,
            Rank::Inner => self.intersection = value,
            Rank::Last => self.right = value,
        }
    }
}

impl<T> VerticalLine<T> {
    ghost use Rattle.tabled_places.specs.CustomLines.{no_vertical, put_vertical_meeting};

    /// Makes a line of these characters: along its edges, at its crossings between, and at its two ends.
    pub const fn new(
        main: Option<T>,
        intersection: Option<T>,
        top: Option<T>,
        bottom: Option<T>,
    ) -> Self
        ensures { result ≡ record { main = main; intersection = intersection; top = top; bottom = bottom } }
    {
        VerticalLine {
            main,
            intersection,
            top,
            bottom,
        }
    }

    /// Makes a line with nothing set.
    pub const fn empty() -> Self
        ensures { result ≡ no_vertical }
    {
        VerticalLine::new(None, None, None, None)
    }

    /// Sets or drops what the line has at its crossings with the horizontal lines of a rank.
    pub fn set_crossing(&mut self, rank: Rank, value: Option<T>)
    where
        T: Copy,
        ensures { self.new ≡ put_vertical_meeting rank value self.old }
    {
        match rank {
            Rank::First => self.top = value,
            Rank::Inner => self.intersection = value,
            Rank::Last => self.bottom = value,
        }
    }
}

impl<T> Default for HorizontalLine<T> {
    ghost use Rattle.tabled_places.specs.CustomLines.{no_horizontal};

    ghost is_default = { λ line. line ≡ no_horizontal };

    fn default() -> Self {
        HorizontalLine::empty()
    }
}

impl<T> Default for VerticalLine<T> {
    ghost use Rattle.tabled_places.specs.CustomLines.{no_vertical};

    ghost is_default = { λ line. line ≡ no_vertical };

    fn default() -> Self {
        VerticalLine::empty()
    }
}
