//! A custom vertical line, built call by call.

ghost use Rattle.std.specs.Prelude.{◌≡◌, None, Some, IsSome};
ghost use Rattle.tabled_style.specs.Lines.{full_vertical, turned_horizontal};

use crate::{On, Style};
use std::marker::{Model, PhantomData};
use tabled_grid::{HorizontalLine, Rank, VerticalLine as Line};

/// A custom vertical line: a character along its edges, one at its crossings between the outer horizontal
/// lines, and one at each of its two ends. What is missing leaves the place to the class record.
///
/// `T`, `B` and `I` mark which of the upper end, the lower end and the crossings are there: [`On`], or `()`.
///
/// `VerticalLine::full('#', '*', 'v', '^')` as line 1 of a table of the style `ascii`. Each call below shows the line that it
/// makes in such a table, of one row where crossings play no part; where it has no character the style shows its own:
///
/// ```text
/// +---v---+
/// | a # b |
/// +---*---+
/// | c # d |
/// +---^---+
/// ```
#[derive_where(Clone, Copy, Debug, PartialEq, Eq, PartialOrd, Ord, Hash)]
pub struct VerticalLine<T, B, I> {
    line: Line<char>,
    of_top: PhantomData<T>,
    of_bottom: PhantomData<B>,
    of_intersection: PhantomData<I>,
}

impl<T, B, I> Model for VerticalLine<T, B, I> {
    ghost use Rattle.std.specs.Prelude.{ℕ};
    ghost use Rattle.tabled_places.specs.declared.lines.VerticalLine.{VerticalLine};

    ghost Value = { VerticalLine ℕ };

    ghost view = { λ fields. fields.line };

    ghost inverse = { λ line. record { line = line; of_top = _; of_bottom = _; of_intersection = _ } };
}

impl VerticalLine<(), (), ()> {
    /// Makes a line with this character along its edges, and nothing at its crossings.
    ///
    /// `VerticalLine::new('#')`:
    ///
    /// ```text
    /// +---+---+
    /// | a # b |
    /// +---+---+
    /// ```
    pub fn new(main: char) -> Self
        ensures { result ≡ record { main = Some main; intersection = None; top = None; bottom = None } }
    {
        VerticalLine::update(Line::new(Some(main), None, None, None))
    }
}

impl<T, B, I> VerticalLine<T, B, I> {
    ghost use Rattle.tabled_places.specs.CustomLines.{no_vertical};
    ghost use Rattle.tabled_places.specs.Borders.{vertical_of};

    /// Makes a line with nothing set.
    pub fn empty() -> Self
        ensures { result ≡ no_vertical }
    {
        VerticalLine::update(Line::empty())
    }

    /// Makes the line that a style draws between columns.
    ///
    /// `VerticalLine::inherit(Style::modern())`:
    ///
    /// ```text
    /// +---┬---+
    /// | a │ b |
    /// +---┴---+
    /// ```
    pub fn inherit<L, R, const HN: usize, const VN: usize>(
        style: Style<T, B, L, R, I, On, HN, VN>,
    ) -> Self
        ensures { result ≡ vertical_of Rank.Inner style.borders }
    {
        VerticalLine::update(style.get_borders().vertical_line(Rank::Inner))
    }

    /// Makes the line that a style draws before the first column.
    ///
    /// `VerticalLine::inherit_left(Style::modern())`:
    ///
    /// ```text
    /// +---┌---+
    /// | a │ b |
    /// +---└---+
    /// ```
    pub fn inherit_left<R, V, const HN: usize, const VN: usize>(
        style: Style<T, B, On, R, I, V, HN, VN>,
    ) -> Self
        ensures { result ≡ vertical_of Rank.First style.borders }
    {
        VerticalLine::update(style.get_borders().vertical_line(Rank::First))
    }

    /// Makes the line that a style draws after the last column.
    ///
    /// `VerticalLine::inherit_right(Style::modern())`:
    ///
    /// ```text
    /// +---┐---+
    /// | a │ b |
    /// +---┘---+
    /// ```
    pub fn inherit_right<L, V, const HN: usize, const VN: usize>(
        style: Style<T, B, L, On, I, V, HN, VN>,
    ) -> Self
        ensures { result ≡ vertical_of Rank.Last style.borders }
    {
        VerticalLine::update(style.get_borders().vertical_line(Rank::Last))
    }

    /// The line of these characters, whatever the markers say.
    pub(crate) fn update(line: Line<char>) -> Self
        ensures { result ≡ line }
    {
        VerticalLine {
            line,
            of_top: PhantomData,
            of_bottom: PhantomData,
            of_intersection: PhantomData,
        }
    }

    /// Sets the character along the edges.
    pub fn vertical(mut self, c: char) -> VerticalLine<T, B, I>
        ensures { result ≡ record self { main = Some c } }
    {
        self.line.main = Some(c);
        VerticalLine::update(self.line)
    }

    /// Sets the character at the crossings between the outer horizontal lines.
    ///
    /// `VerticalLine::new('#').intersection('*')`:
    ///
    /// ```text
    /// +---+---+
    /// | a # b |
    /// +---*---+
    /// | c # d |
    /// +---+---+
    /// ```
    pub fn intersection(mut self, c: char) -> VerticalLine<T, B, On>
        ensures { result ≡ record self { intersection = Some c } }
    {
        self.line.intersection = Some(c);
        VerticalLine::update(self.line)
    }

    /// Sets the character at the upper end.
    ///
    /// `VerticalLine::new('#').top('v')`:
    ///
    /// ```text
    /// +---v---+
    /// | a # b |
    /// +---+---+
    /// ```
    pub fn top(mut self, c: char) -> VerticalLine<On, B, I>
        ensures { result ≡ record self { top = Some c } }
    {
        self.line.top = Some(c);
        VerticalLine::update(self.line)
    }

    /// Sets the character at the lower end.
    ///
    /// `VerticalLine::new('#').bottom('^')`:
    ///
    /// ```text
    /// +---+---+
    /// | a # b |
    /// +---^---+
    /// ```
    pub fn bottom(mut self, c: char) -> VerticalLine<T, On, I>
        ensures { result ≡ record self { bottom = Some c } }
    {
        self.line.bottom = Some(c);
        VerticalLine::update(self.line)
    }

    /// Returns the character along the edges. `into_inner` shows whether it is set.
    pub fn get_vertical(&self) -> char
        requires { IsSome self.now.main }
        ensures { self.now.main ≡ Some result }
    {
        self.line.main.unwrap()
    }

    /// Returns the line's four characters.
    pub fn into_inner(&self) -> Line<char>
        ensures { result ≡ self.now }
    {
        self.line
    }
}

impl VerticalLine<On, On, On> {
    /// Makes a line of these four characters: along its edges, at its crossings between, and at its two ends.
    ///
    /// `VerticalLine::full('#', '*', '<', '>')`:
    ///
    /// ```text
    /// +---<---+
    /// | a # b |
    /// +---*---+
    /// | c # d |
    /// +--->---+
    /// ```
    pub fn full(main: char, intersection: char, top: char, bottom: char) -> Self
        ensures { result ≡ full_vertical main intersection top bottom }
    {
        VerticalLine::update(Line::new(Some(main), Some(intersection), Some(top), Some(bottom)))
    }

    /// Makes a line of this character alone.
    ///
    /// `VerticalLine::filled('#')`:
    ///
    /// ```text
    /// +---#---+
    /// | a # b |
    /// +---#---+
    /// ```
    pub fn filled(main: char) -> Self
        ensures { result ≡ full_vertical main main main main }
    {
        VerticalLine::full(main, main, main, main)
    }
}

impl<T, B> VerticalLine<T, B, On> {
    /// Returns the character at the crossings between. `into_inner` shows whether it is set.
    pub fn get_intersection(&self) -> char
        requires { IsSome self.now.intersection }
        ensures { self.now.intersection ≡ Some result }
    {
        self.line.intersection.unwrap()
    }

    /// Drops the character at the crossings between.
    ///
    /// `VerticalLine::full('#', '*', 'v', '^').remove_intersection()`:
    ///
    /// ```text
    /// +---v---+
    /// | a # b |
    /// +---+---+
    /// | c # d |
    /// +---^---+
    /// ```
    pub fn remove_intersection(mut self) -> VerticalLine<T, B, ()>
        ensures { result ≡ record self { intersection = None } }
    {
        self.line.intersection = None;
        VerticalLine::update(self.line)
    }
}

impl<B, I> VerticalLine<On, B, I> {
    /// Returns the character at the upper end. `into_inner` shows whether it is set.
    pub fn get_top(&self) -> char
        requires { IsSome self.now.top }
        ensures { self.now.top ≡ Some result }
    {
        self.line.top.unwrap()
    }

    /// Drops the character at the upper end.
    ///
    /// `VerticalLine::full('#', '*', 'v', '^').remove_top()`:
    ///
    /// ```text
    /// +---+---+
    /// | a # b |
    /// +---^---+
    /// ```
    pub fn remove_top(mut self) -> VerticalLine<(), B, I>
        ensures { result ≡ record self { top = None } }
    {
        self.line.top = None;
        VerticalLine::update(self.line)
    }
}

impl<T, I> VerticalLine<T, On, I> {
    /// Returns the character at the lower end. `into_inner` shows whether it is set.
    pub fn get_bottom(&self) -> char
        requires { IsSome self.now.bottom }
        ensures { self.now.bottom ≡ Some result }
    {
        self.line.bottom.unwrap()
    }

    /// Drops the character at the lower end.
    ///
    /// `VerticalLine::full('#', '*', 'v', '^').remove_bottom()`:
    ///
    /// ```text
    /// +---v---+
    /// | a # b |
    /// +---+---+
    /// ```
    pub fn remove_bottom(mut self) -> VerticalLine<T, (), I>
        ensures { result ≡ record self { bottom = None } }
    {
        self.line.bottom = None;
        VerticalLine::update(self.line)
    }
}

/// Nothing is set.
impl<T, B, I> Default for VerticalLine<T, B, I> {
    ghost use Rattle.tabled_places.specs.CustomLines.{no_vertical};

    ghost is_default = { λ line. line ≡ no_vertical };

    fn default() -> Self {
        VerticalLine::empty()
    }
}

impl<T, B, I> From<VerticalLine<T, B, I>> for Line<char> {
    ghost from_gives = { λ line result. result ≡ line };

    fn from(line: VerticalLine<T, B, I>) -> Self {
        line.line
    }
}

impl<T, B, I> From<Line<char>> for VerticalLine<T, B, I> {
    ghost from_gives = { λ line result. result ≡ line };

    fn from(line: Line<char>) -> Self {
        VerticalLine::update(line)
    }
}

/// The line turned across: its upper end is the left one, its lower end the right one.
impl<T, B, I> From<VerticalLine<T, B, I>> for HorizontalLine<char> {
    ghost from_gives = { λ line result. result ≡ turned_horizontal line };

    fn from(line: VerticalLine<T, B, I>) -> Self {
        let Line {
            main,
            intersection,
            top,
            bottom,
        } = line.line;
        HorizontalLine::new(main, intersection, top, bottom)
    }
}
