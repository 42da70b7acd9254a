//! The border of one cell, built call by call, and the border that takes one away.

ghost use Rattle.std.specs.Prelude.{◌≡◌, Some, IsSome};
ghost use Rattle.tabled_style.specs.Border.{full_border};

mod option;

use crate::{On, Style};
use std::marker::{Model, PhantomData};
use tabled_border::Border as GridBorder;

/// The border of one cell, or the frame of a table: a character for each side and each corner. What is missing is not given.
///
/// `T`, `B`, `L` and `R` mark which of the upper, the lower, the left and the right side are there: [`On`], or `()`.
///
/// `Border::full('t', 'b', 'l', 'r', '1', '2', '3', '4')` on the cell (0, 0) of a table of the style `ascii`:
///
/// ```text
/// 1ttt2---+
/// l a r b |
/// 3bbb4---+
/// | c | d |
/// +---+---+
/// ```
///
/// Each call below shows the cell with the border that it makes; what is not given is the style's.
#[derive_where(Clone, Copy, Debug, PartialEq, Eq, PartialOrd, Ord)]
pub struct Border<T, B, L, R> {
    border: GridBorder<char>,
    of_top: PhantomData<T>,
    of_bottom: PhantomData<B>,
    of_left: PhantomData<L>,
    of_right: PhantomData<R>,
}

impl<T, B, L, R> Model for Border<T, B, L, R> {
    ghost use Rattle.std.specs.Prelude.{ℕ};
    ghost use Rattle.tabled_border.specs.declared.border.Border.{Border};

    ghost Value = { Border ℕ };

    ghost view = { λ fields. fields.border };

    ghost inverse = { λ border. record { border = border; of_top = _; of_bottom = _; of_left = _; of_right = _ } };
}

impl Border<(), (), (), ()> {
    ghost use Rattle.tabled_border.specs.Border.{no_border};

    /// Makes a border with nothing given.
    pub fn new() -> Self
        ensures { result ≡ no_border }
    {
        Border::update(GridBorder::empty())
    }
}

impl Border<On, On, On, On> {
    /// Makes a border with all sides and corners given.
    ///
    /// `Border::full('t', 'b', 'l', 'r', '1', '2', '3', '4')`:
    ///
    /// ```text
    /// 1ttt2
    /// l a r
    /// 3bbb4
    /// ```
    pub fn full(
        top: char,
        bottom: char,
        left: char,
        right: char,
        top_left: char,
        top_right: char,
        bottom_left: char,
        bottom_right: char,
    ) -> Self
        ensures { result ≡ full_border top bottom left right top_left top_right bottom_left bottom_right }
    {
        Border::update(GridBorder::full(
            top,
            bottom,
            left,
            right,
            top_left,
            top_right,
            bottom_left,
            bottom_right,
        ))
    }

    /// Makes a border with this character on all sides and corners: `full` with it eight times.
    ///
    /// `Border::filled('#')`:
    ///
    /// ```text
    /// #####
    /// # a #
    /// #####
    /// ```
    pub fn filled(c: char) -> Self
        ensures { result ≡ full_border c c c c c c c c }
    {
        Border::full(c, c, c, c, c, c, c, c)
    }

    /// Returns what takes a border away.
    ///
    /// `Border::empty()` on a whole table of the style `ascii`:
    ///
    /// ```text
    ///  a | b
    /// ---+---
    ///  c | d
    /// ```
    pub fn empty() -> EmptyBorder {
        EmptyBorder
    }
}

impl<T, B, L, R> Border<T, B, L, R> {
    ghost use Rattle.tabled_style.specs.Shown.{frame_of};

    /// Makes the frame of a style: its sides and its corners.
    ///
    /// `Border::inherit(Style::rounded())`:
    ///
    /// ```text
    /// ╭───╮
    /// │ a │
    /// ╰───╯
    /// ```
    pub fn inherit<H, V, const HN: usize, const VN: usize>(
        style: Style<T, B, L, R, H, V, HN, VN>,
    ) -> Self
        ensures { result ≡ frame_of style.borders }
    {
        let borders = style.get_borders();
        Border::update(GridBorder {
            top: borders.top,
            bottom: borders.bottom,
            left: borders.left,
            right: borders.right,
            left_top_corner: borders.top_left,
            left_bottom_corner: borders.bottom_left,
            right_top_corner: borders.top_right,
            right_bottom_corner: borders.bottom_right,
        })
    }

    /// The border of these characters, whatever the markers say.
    fn update(border: GridBorder<char>) -> Self
        ensures { result ≡ border }
    {
        Border {
            border,
            of_top: PhantomData,
            of_bottom: PhantomData,
            of_left: PhantomData,
            of_right: PhantomData,
        }
    }

    /// Sets the upper side.
    ///
    /// `Border::new().top('=')`:
    ///
    /// ```text
    /// +===+
    /// | a |
    /// +---+
    /// ```
    pub fn top(mut self, c: char) -> Border<On, B, L, R>
        ensures { result ≡ record self { top = Some c } }
    {
        self.border.top = Some(c);
        Border::update(self.border)
    }

    /// Sets the lower side.
    ///
    /// `Border::new().bottom('=')`:
    ///
    /// ```text
    /// +---+
    /// | a |
    /// +===+
    /// ```
    pub fn bottom(mut self, c: char) -> Border<T, On, L, R>
        ensures { result ≡ record self { bottom = Some c } }
    {
        self.border.bottom = Some(c);
        Border::update(self.border)
    }

    /// Sets the left side.
    ///
    /// `Border::new().left('#')`:
    ///
    /// ```text
    /// +---+
    /// # a |
    /// +---+
    /// ```
    pub fn left(mut self, c: char) -> Border<T, B, On, R>
        ensures { result ≡ record self { left = Some c } }
    {
        self.border.left = Some(c);
        Border::update(self.border)
    }

    /// Sets the right side.
    ///
    /// `Border::new().right('#')`:
    ///
    /// ```text
    /// +---+
    /// | a #
    /// +---+
    /// ```
    pub fn right(mut self, c: char) -> Border<T, B, L, On>
        ensures { result ≡ record self { right = Some c } }
    {
        self.border.right = Some(c);
        Border::update(self.border)
    }

    /// Returns the sides and corners.
    pub fn into_inner(self) -> GridBorder<char>
        ensures { result ≡ self }
    {
        self.border
    }
}

impl<B, L, R> Border<On, B, L, R> {
    /// Returns the upper side. `into_inner` shows whether it is set.
    pub fn get_top(&self) -> char
        requires { IsSome self.now.top }
        ensures { self.now.top ≡ Some result }
    {
        self.border.top.unwrap()
    }
}

impl<T, L, R> Border<T, On, L, R> {
    /// Returns the lower side. `into_inner` shows whether it is set.
    pub fn get_bottom(&self) -> char
        requires { IsSome self.now.bottom }
        ensures { self.now.bottom ≡ Some result }
    {
        self.border.bottom.unwrap()
    }
}

impl<T, B, R> Border<T, B, On, R> {
    /// Returns the left side. `into_inner` shows whether it is set.
    pub fn get_left(&self) -> char
        requires { IsSome self.now.left }
        ensures { self.now.left ≡ Some result }
    {
        self.border.left.unwrap()
    }
}

impl<T, B, L> Border<T, B, L, On> {
    /// Returns the right side. `into_inner` shows whether it is set.
    pub fn get_right(&self) -> char
        requires { IsSome self.now.right }
        ensures { self.now.right ≡ Some result }
    {
        self.border.right.unwrap()
    }
}

impl<B, R> Border<On, B, On, R> {
    /// Sets the upper left corner.
    ///
    /// `Border::new().top('=').left('#').corner_top_left('*')`:
    ///
    /// ```text
    /// *===+
    /// # a |
    /// +---+
    /// ```
    pub fn corner_top_left(mut self, c: char) -> Self
        ensures { result ≡ record self { left_top_corner = Some c } }
    {
        self.border.left_top_corner = Some(c);
        self
    }

    /// Returns the upper left corner. `into_inner` shows whether it is set.
    pub fn get_corner_top_left(&self) -> char
        requires { IsSome self.now.left_top_corner }
        ensures { self.now.left_top_corner ≡ Some result }
    {
        self.border.left_top_corner.unwrap()
    }
}

impl<B, L> Border<On, B, L, On> {
    /// Sets the upper right corner.
    ///
    /// `Border::new().top('=').right('#').corner_top_right('*')`:
    ///
    /// ```text
    /// +===*
    /// | a #
    /// +---+
    /// ```
    pub fn corner_top_right(mut self, c: char) -> Self
        ensures { result ≡ record self { right_top_corner = Some c } }
    {
        self.border.right_top_corner = Some(c);
        self
    }

    /// Returns the upper right corner. `into_inner` shows whether it is set.
    pub fn get_corner_top_right(&self) -> char
        requires { IsSome self.now.right_top_corner }
        ensures { self.now.right_top_corner ≡ Some result }
    {
        self.border.right_top_corner.unwrap()
    }
}

impl<T, R> Border<T, On, On, R> {
    /// Sets the lower left corner.
    ///
    /// `Border::new().bottom('=').left('#').corner_bottom_left('*')`:
    ///
    /// ```text
    /// +---+
    /// # a |
    /// *===+
    /// ```
    pub fn corner_bottom_left(mut self, c: char) -> Self
        ensures { result ≡ record self { left_bottom_corner = Some c } }
    {
        self.border.left_bottom_corner = Some(c);
        self
    }

    /// Returns the lower left corner. `into_inner` shows whether it is set.
    pub fn get_corner_bottom_left(&self) -> char
        requires { IsSome self.now.left_bottom_corner }
        ensures { self.now.left_bottom_corner ≡ Some result }
    {
        self.border.left_bottom_corner.unwrap()
    }
}

impl<T, L> Border<T, On, L, On> {
    /// Sets the lower right corner.
    ///
    /// `Border::new().bottom('=').right('#').corner_bottom_right('*')`:
    ///
    /// ```text
    /// +---+
    /// | a #
    /// +===*
    /// ```
    pub fn corner_bottom_right(mut self, c: char) -> Self
        ensures { result ≡ record self { right_bottom_corner = Some c } }
    {
        self.border.right_bottom_corner = Some(c);
        self
    }

    /// Returns the lower right corner. `into_inner` shows whether it is set.
    pub fn get_corner_bottom_right(&self) -> char
        requires { IsSome self.now.right_bottom_corner }
        ensures { self.now.right_bottom_corner ≡ Some result }
    {
        self.border.right_bottom_corner.unwrap()
    }
}

/// Nothing is given.
impl<T, B, L, R> Default for Border<T, B, L, R> {
    ghost use Rattle.tabled_border.specs.Border.{no_border};

    ghost is_default = { λ border. border ≡ no_border };

    fn default() -> Self {
        Border::update(GridBorder::empty())
    }
}

impl<T, B, L, R> From<Border<T, B, L, R>> for GridBorder<char> {
    ghost from_gives = { λ border result. result ≡ border };

    fn from(border: Border<T, B, L, R>) -> Self {
        border.border
    }
}

/// Stands for taking a border away: that of each cell, or the frame of a table.
///
/// On a whole table of the style `modern`, whose lines inside stay:
///
/// ```text
///  a │ b
/// ───┼───
///  c │ d
/// ```
#[derive(Clone, Copy, Debug, Default, PartialEq, Eq, PartialOrd, Ord)]
pub struct EmptyBorder;
