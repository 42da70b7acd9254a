//! A custom horizontal line, built call by call.

ghost use Rattle.std.specs.Prelude.{◌≡◌, None, Some, IsSome};
ghost use Rattle.tabled_style.specs.Lines.{full_horizontal, turned_vertical};

use crate::{On, Style};
use std::marker::{Model, PhantomData};
use tabled_grid::{HorizontalLine as Line, Rank, VerticalLine};

/// A custom horizontal line: a character along its edges, one at its crossings between the outer vertical
/// lines, and one at each of its two ends. What is missing leaves the place to the class record.
///
/// `L`, `R` and `I` mark which of the left end, the right end and the crossings are there: [`On`], or `()`.
///
/// `HorizontalLine::full('=', '*', '<', '>')` as line 1 of a table of the style `ascii`. Each call below shows the line that it
/// makes there; where it has no character the style shows its own, here `+`:
///
/// ```text
/// +---+---+
/// | a | b |
/// <===*===>
/// | c | d |
/// +---+---+
/// ```
#[derive_where(Clone, Copy, Debug, PartialEq, Eq, PartialOrd, Ord, Hash)]
pub struct HorizontalLine<L, R, I> {
    line: Line<char>,
    of_left: PhantomData<L>,
    of_right: PhantomData<R>,
    of_intersection: PhantomData<I>,
}

impl<L, R, I> Model for HorizontalLine<L, R, I> {
    ghost use Rattle.std.specs.Prelude.{ℕ};
    ghost use Rattle.tabled_places.specs.declared.lines.HorizontalLine.{HorizontalLine};

    ghost Value = { HorizontalLine ℕ };

    ghost view = { λ fields. fields.line };

    ghost inverse = { λ line. record { line = line; of_left = _; of_right = _; of_intersection = _ } };
}

impl HorizontalLine<(), (), ()> {
    /// Makes a line with this character along its edges, and nothing at its crossings.
    ///
    /// `HorizontalLine::new('=')`:
    ///
    /// ```text
    /// +===+===+
    /// ```
    pub fn new(main: char) -> Self
        ensures { result ≡ record { main = Some main; intersection = None; left = None; right = None } }
    {
        HorizontalLine::update(Line::new(Some(main), None, None, None))
    }
}

impl<L, R, I> HorizontalLine<L, R, I> {
    ghost use Rattle.tabled_places.specs.CustomLines.{no_horizontal};
    ghost use Rattle.tabled_places.specs.Borders.{horizontal_of};

    /// Makes a line with nothing set.
    pub fn empty() -> Self
        ensures { result ≡ no_horizontal }
    {
        HorizontalLine::update(Line::empty())
    }

    /// Makes the line that a style draws between rows.
    ///
    /// `HorizontalLine::inherit(Style::modern())`:
    ///
    /// ```text
    /// ├───┼───┤
    /// ```
    pub fn inherit<T, B, const HN: usize, const VN: usize>(
        style: Style<T, B, L, R, On, I, HN, VN>,
    ) -> Self
        ensures { result ≡ horizontal_of Rank.Inner style.borders }
    {
        HorizontalLine::update(style.get_borders().horizontal_line(Rank::Inner))
    }

    /// Makes the line that a style draws above the first row.
    ///
    /// `HorizontalLine::inherit_top(Style::modern())`:
    ///
    /// ```text
    /// ┌───┬───┐
    /// ```
    pub fn inherit_top<B, H, const HN: usize, const VN: usize>(
        style: Style<On, B, L, R, H, I, HN, VN>,
    ) -> Self
        ensures { result ≡ horizontal_of Rank.First style.borders }
    {
        HorizontalLine::update(style.get_borders().horizontal_line(Rank::First))
    }

    /// Makes the line that a style draws below the last row.
    ///
    /// `HorizontalLine::inherit_bottom(Style::modern())`:
    ///
    /// ```text
    /// └───┴───┘
    /// ```
    pub fn inherit_bottom<T, H, const HN: usize, const VN: usize>(
        style: Style<T, On, L, R, H, I, HN, VN>,
    ) -> Self
        ensures { result ≡ horizontal_of Rank.Last style.borders }
    {
        HorizontalLine::update(style.get_borders().horizontal_line(Rank::Last))
    }

    /// The line of these characters, whatever the markers say.
    pub(crate) fn update(line: Line<char>) -> Self
        ensures { result ≡ line }
    {
        HorizontalLine {
            line,
            of_left: PhantomData,
            of_right: PhantomData,
            of_intersection: PhantomData,
        }
    }

    /// Sets the character along the edges.
    ///
    /// `HorizontalLine::filled('=').horizontal('~')`:
    ///
    /// ```text
    /// =~~~=~~~=
    /// ```
    pub fn horizontal(mut self, c: char) -> HorizontalLine<L, R, I>
        ensures { result ≡ record self { main = Some c } }
    {
        self.line.main = Some(c);
        HorizontalLine::update(self.line)
    }

    /// Sets the character at the crossings between the outer vertical lines.
    ///
    /// `HorizontalLine::new('=').intersection('*')`:
    ///
    /// ```text
    /// +===*===+
    /// ```
    pub fn intersection(mut self, c: char) -> HorizontalLine<L, R, On>
        ensures { result ≡ record self { intersection = Some c } }
    {
        self.line.intersection = Some(c);
        HorizontalLine::update(self.line)
    }

    /// Sets the character at the left end.
    ///
    /// `HorizontalLine::new('=').left('<')`:
    ///
    /// ```text
    /// <===+===+
    /// ```
    pub fn left(mut self, c: char) -> HorizontalLine<On, R, I>
        ensures { result ≡ record self { left = Some c } }
    {
        self.line.left = Some(c);
        HorizontalLine::update(self.line)
    }

    /// Sets the character at the right end.
    ///
    /// `HorizontalLine::new('=').right('>')`:
    ///
    /// ```text
    /// +===+===>
    /// ```
    pub fn right(mut self, c: char) -> HorizontalLine<L, On, I>
        ensures { result ≡ record self { right = Some c } }
    {
        self.line.right = Some(c);
        HorizontalLine::update(self.line)
    }

    /// Returns the character along the edges. `into_inner` shows whether it is set.
    pub fn get_horizontal(&self) -> char
        requires { IsSome self.now.main }
        ensures { self.now.main ≡ Some result }
    {
        self.line.main.unwrap()
    }

    /// Returns the line's four characters.
    pub fn into_inner(&self) -> Line<char>
        ensures { result ≡ self.now }
    {
        self.line
    }
}

impl HorizontalLine<On, On, On> {
    /// Makes a line of these four characters: along its edges, at its crossings between, and at its two ends.
    ///
    /// `HorizontalLine::full('=', '*', '<', '>')`:
    ///
    /// ```text
    /// <===*===>
    /// ```
    pub fn full(main: char, intersection: char, left: char, right: char) -> Self
        ensures { result ≡ full_horizontal main intersection left right }
    {
        HorizontalLine::update(Line::new(Some(main), Some(intersection), Some(left), Some(right)))
    }

    /// Makes a line of this character alone.
    ///
    /// `HorizontalLine::filled('=')`:
    ///
    /// ```text
    /// =========
    /// ```
    pub fn filled(main: char) -> Self
        ensures { result ≡ full_horizontal main main main main }
    {
        HorizontalLine::full(main, main, main, main)
    }
}

impl<L, R> HorizontalLine<L, R, On> {
    /// Returns the character at the crossings between. `into_inner` shows whether it is set.
    pub fn get_intersection(&self) -> char
        requires { IsSome self.now.intersection }
        ensures { self.now.intersection ≡ Some result }
    {
        self.line.intersection.unwrap()
    }

    /// Drops the character at the crossings between.
    ///
    /// `HorizontalLine::full('=', '*', '<', '>').remove_intersection()`:
    ///
    /// ```text
    /// <===+===>
    /// ```
    pub fn remove_intersection(mut self) -> HorizontalLine<L, R, ()>
        ensures { result ≡ record self { intersection = None } }
    {
        self.line.intersection = None;
        HorizontalLine::update(self.line)
    }
}

impl<R, I> HorizontalLine<On, R, I> {
    /// Returns the character at the left end. `into_inner` shows whether it is set.
    pub fn get_left(&self) -> char
        requires { IsSome self.now.left }
        ensures { self.now.left ≡ Some result }
    {
        self.line.left.unwrap()
    }

    /// Drops the character at the left end.
    ///
    /// `HorizontalLine::full('=', '*', '<', '>').remove_left()`:
    ///
    /// ```text
    /// +===*===>
    /// ```
    pub fn remove_left(mut self) -> HorizontalLine<(), R, I>
        ensures { result ≡ record self { left = None } }
    {
        self.line.left = None;
        HorizontalLine::update(self.line)
    }
}

impl<L, I> HorizontalLine<L, On, I> {
    /// Returns the character at the right end. `into_inner` shows whether it is set.
    pub fn get_right(&self) -> char
        requires { IsSome self.now.right }
        ensures { self.now.right ≡ Some result }
    {
        self.line.right.unwrap()
    }

    /// Drops the character at the right end.
    ///
    /// `HorizontalLine::full('=', '*', '<', '>').remove_right()`:
    ///
    /// ```text
    /// <===*===+
    /// ```
    pub fn remove_right(mut self) -> HorizontalLine<L, (), I>
        ensures { result ≡ record self { right = None } }
    {
        self.line.right = None;
        HorizontalLine::update(self.line)
    }
}

/// Nothing is set.
impl<L, R, I> Default for HorizontalLine<L, R, I> {
    ghost use Rattle.tabled_places.specs.CustomLines.{no_horizontal};

    ghost is_default = { λ line. line ≡ no_horizontal };

    fn default() -> Self {
        HorizontalLine::empty()
    }
}

impl<L, R, I> From<HorizontalLine<L, R, I>> for Line<char> {
    ghost from_gives = { λ line result. result ≡ line };

    fn from(line: HorizontalLine<L, R, I>) -> Self {
        line.line
    }
}

impl<L, R, I> From<Line<char>> for HorizontalLine<L, R, I> {
    ghost from_gives = { λ line result. result ≡ line };

    fn from(line: Line<char>) -> Self {
        HorizontalLine::update(line)
    }
}

/// The line turned down: its left end is the top, its right end the bottom.
impl<L, R, I> From<HorizontalLine<L, R, I>> for VerticalLine<char> {
    ghost from_gives = { λ line result. result ≡ turned_vertical line };

    fn from(line: HorizontalLine<L, R, I>) -> Self {
        let Line {
            main,
            intersection,
            left,
            right,
        } = line.line;
        VerticalLine::new(main, intersection, left, right)
    }
}
