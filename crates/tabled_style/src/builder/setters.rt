//! The calls that set the characters of sides, corners and crossings.

ghost use Rattle.std.specs.Prelude.{◌≡◌, Some};
ghost use Rattle.tabled_style.specs.Setting.{put_where, horizontal_drawn, vertical_drawn, with_horizontal, with_vertical, with_intersection};

use super::Style;
use crate::On;
use tabled_grid::{Borders, HorizontalLine as HLine, Rank, VerticalLine as VLine};

/// The character where it is asked for, else what was there.
fn put_where(asked: bool, c: char, before: Option<char>) -> Option<char>
    ensures { result ≡ put_where asked c before }
{
    if asked { Some(c) } else { before }
}

/// The record with a character on its horizontal lines of a rank, and where they cross the vertical lines that it has.
#[tactic(auto, unfolding(crate::specs::Setting::horizontal_drawn))]
fn horizontal_drawn(rank: Rank, c: char, borders: Borders<char>) -> Borders<char>
    ensures { result ≡ horizontal_drawn rank c borders }
{
    let line = borders.horizontal_line(rank);
    let drawn = HLine {
        main: Some(c),
        intersection: put_where(borders.has_vertical(), c, line.intersection),
        left: put_where(borders.has_left(), c, line.left),
        right: put_where(borders.has_right(), c, line.right),
    };
    borders.with_horizontal_line(rank, drawn)
}

/// The record with a character on its vertical lines of a rank, and where they cross the horizontal lines that it has.
#[tactic(auto, unfolding(crate::specs::Setting::vertical_drawn))]
fn vertical_drawn(rank: Rank, c: char, borders: Borders<char>) -> Borders<char>
    ensures { result ≡ vertical_drawn rank c borders }
{
    let line = borders.vertical_line(rank);
    let drawn = VLine {
        main: Some(c),
        intersection: put_where(borders.has_horizontal(), c, line.intersection),
        top: put_where(borders.has_top(), c, line.top),
        bottom: put_where(borders.has_bottom(), c, line.bottom),
    };
    borders.with_vertical_line(rank, drawn)
}

impl<T, B, L, R, H, V, const HN: usize, const VN: usize> Style<T, B, L, R, H, V, HN, VN> {
    /// The style with a character on its horizontal lines of a rank, and where its custom vertical lines meet them.
    #[tactic(auto, unfolding(crate::specs::Setting::with_horizontal))]
    fn with_horizontal<Top, Bottom, Inner>(
        mut self,
        rank: Rank,
        c: char,
    ) -> Style<Top, Bottom, L, R, Inner, V, HN, VN>
        ensures { result ≡ with_horizontal rank c self }
    {
        self.borders = horizontal_drawn(rank, c, self.borders);
        self.verticals.set_crossing(rank, Some(c));
        self.marked()
    }

    /// The style with a character on its vertical lines of a rank, and where its custom horizontal lines meet them.
    #[tactic(auto, unfolding(crate::specs::Setting::with_vertical))]
    fn with_vertical<Left, Right, Inner>(
        mut self,
        rank: Rank,
        c: char,
    ) -> Style<T, B, Left, Right, H, Inner, HN, VN>
        ensures { result ≡ with_vertical rank c self }
    {
        self.borders = vertical_drawn(rank, c, self.borders);
        self.horizontals.set_crossing(rank, Some(c));
        self.marked()
    }

    /// Sets the top: the edges above the first row, the corners there of the sides that the style has, the
    /// crossings there where it has lines between columns, and the upper ends of its custom vertical lines.
    ///
    /// `Style::ascii().top('=')`:
    ///
    /// ```text
    /// =========
    /// | a | b |
    /// +---+---+
    /// | c | d |
    /// +---+---+
    /// ```
    pub fn top(self, c: char) -> Style<On, B, L, R, H, V, HN, VN>
        ensures { result ≡ with_horizontal Rank.First c self }
    {
        self.with_horizontal(Rank::First, c)
    }

    /// Sets the bottom: the edges below the last row, the corners there of the sides that the style has, the
    /// crossings there where it has lines between columns, and the lower ends of its custom vertical lines.
    ///
    /// `Style::ascii().bottom('=')`:
    ///
    /// ```text
    /// +---+---+
    /// | a | b |
    /// +---+---+
    /// | c | d |
    /// =========
    /// ```
    pub fn bottom(self, c: char) -> Style<T, On, L, R, H, V, HN, VN>
        ensures { result ≡ with_horizontal Rank.Last c self }
    {
        self.with_horizontal(Rank::Last, c)
    }

    /// Sets the left side: the edges before the first column, the corners there where the style has a top or a bottom, the
    /// crossings there where it has lines between rows, and the left ends of its custom horizontal lines.
    ///
    /// `Style::ascii().left('#')`:
    ///
    /// ```text
    /// #---+---+
    /// # a | b |
    /// #---+---+
    /// # c | d |
    /// #---+---+
    /// ```
    pub fn left(self, c: char) -> Style<T, B, On, R, H, V, HN, VN>
        ensures { result ≡ with_vertical Rank.First c self }
    {
        self.with_vertical(Rank::First, c)
    }

    /// Sets the right side: the edges after the last column, the corners there where the style has a top or a bottom, the crossings
    /// there where it has lines between rows, and the right ends of its custom horizontal lines.
    ///
    /// `Style::ascii().right('#')`:
    ///
    /// ```text
    /// +---+---#
    /// | a | b #
    /// +---+---#
    /// | c | d #
    /// +---+---#
    /// ```
    pub fn right(self, c: char) -> Style<T, B, L, On, H, V, HN, VN>
        ensures { result ≡ with_vertical Rank.Last c self }
    {
        self.with_vertical(Rank::Last, c)
    }

    /// Sets the lines between rows: their edges, their crossings where the style has lines between columns, their
    /// ends at the sides that it has, and the crossings of its custom vertical lines.
    ///
    /// `Style::ascii().horizontal('=')`:
    ///
    /// ```text
    /// +---+---+
    /// | a | b |
    /// =========
    /// | c | d |
    /// +---+---+
    /// ```
    pub fn horizontal(self, c: char) -> Style<T, B, L, R, On, V, HN, VN>
        ensures { result ≡ with_horizontal Rank.Inner c self }
    {
        self.with_horizontal(Rank::Inner, c)
    }

    /// Sets the lines between columns: their edges, their crossings where the style has lines between rows, their
    /// ends at the top and the bottom where it has them, and the crossings of its custom horizontal lines.
    ///
    /// `Style::ascii().vertical('#')`:
    ///
    /// ```text
    /// +---#---+
    /// | a # b |
    /// +---#---+
    /// | c # d |
    /// +---#---+
    /// ```
    pub fn vertical(self, c: char) -> Style<T, B, L, R, H, On, HN, VN>
        ensures { result ≡ with_vertical Rank.Inner c self }
    {
        self.with_vertical(Rank::Inner, c)
    }
}

impl<B, R, H, V, const HN: usize, const VN: usize> Style<On, B, On, R, H, V, HN, VN> {
    /// Sets the upper left corner.
    ///
    /// `Style::modern().corner_top_left('╭')`:
    ///
    /// ```text
    /// ╭───┬───┐
    /// │ a │ b │
    /// ├───┼───┤
    /// │ c │ d │
    /// └───┴───┘
    /// ```
    pub fn corner_top_left(mut self, c: char) -> Self
        ensures { result ≡ record self { borders = record self.borders { top_left = Some c } } }
    {
        self.borders.top_left = Some(c);
        self
    }
}

impl<B, L, H, V, const HN: usize, const VN: usize> Style<On, B, L, On, H, V, HN, VN> {
    /// Sets the upper right corner.
    ///
    /// `Style::modern().corner_top_right('╮')`:
    ///
    /// ```text
    /// ┌───┬───╮
    /// │ a │ b │
    /// ├───┼───┤
    /// │ c │ d │
    /// └───┴───┘
    /// ```
    pub fn corner_top_right(mut self, c: char) -> Self
        ensures { result ≡ record self { borders = record self.borders { top_right = Some c } } }
    {
        self.borders.top_right = Some(c);
        self
    }
}

impl<T, R, H, V, const HN: usize, const VN: usize> Style<T, On, On, R, H, V, HN, VN> {
    /// Sets the lower left corner.
    ///
    /// `Style::modern().corner_bottom_left('╰')`:
    ///
    /// ```text
    /// ┌───┬───┐
    /// │ a │ b │
    /// ├───┼───┤
    /// │ c │ d │
    /// ╰───┴───┘
    /// ```
    pub fn corner_bottom_left(mut self, c: char) -> Self
        ensures { result ≡ record self { borders = record self.borders { bottom_left = Some c } } }
    {
        self.borders.bottom_left = Some(c);
        self
    }
}

impl<T, L, H, V, const HN: usize, const VN: usize> Style<T, On, L, On, H, V, HN, VN> {
    /// Sets the lower right corner.
    ///
    /// `Style::modern().corner_bottom_right('╯')`:
    ///
    /// ```text
    /// ┌───┬───┐
    /// │ a │ b │
    /// ├───┼───┤
    /// │ c │ d │
    /// └───┴───╯
    /// ```
    pub fn corner_bottom_right(mut self, c: char) -> Self
        ensures { result ≡ record self { borders = record self.borders { bottom_right = Some c } } }
    {
        self.borders.bottom_right = Some(c);
        self
    }
}

impl<T, B, R, V, const HN: usize, const VN: usize> Style<T, B, On, R, On, V, HN, VN> {
    /// Sets the left ends of the lines between rows.
    ///
    /// `Style::ascii().intersection_left('*')`:
    ///
    /// ```text
    /// +---+---+
    /// | a | b |
    /// *---+---+
    /// | c | d |
    /// +---+---+
    /// ```
    pub fn intersection_left(mut self, c: char) -> Self
        ensures { result ≡ record self { borders = record self.borders { left_intersection = Some c } } }
    {
        self.borders.left_intersection = Some(c);
        self
    }
}

impl<T, B, L, V, const HN: usize, const VN: usize> Style<T, B, L, On, On, V, HN, VN> {
    /// Sets the right ends of the lines between rows.
    ///
    /// `Style::ascii().intersection_right('*')`:
    ///
    /// ```text
    /// +---+---+
    /// | a | b |
    /// +---+---*
    /// | c | d |
    /// +---+---+
    /// ```
    pub fn intersection_right(mut self, c: char) -> Self
        ensures { result ≡ record self { borders = record self.borders { right_intersection = Some c } } }
    {
        self.borders.right_intersection = Some(c);
        self
    }
}

impl<B, L, R, H, const HN: usize, const VN: usize> Style<On, B, L, R, H, On, HN, VN> {
    /// Sets the upper ends of the lines between columns.
    ///
    /// `Style::ascii().intersection_top('*')`:
    ///
    /// ```text
    /// +---*---+
    /// | a | b |
    /// +---+---+
    /// | c | d |
    /// +---+---+
    /// ```
    pub fn intersection_top(mut self, c: char) -> Self
        ensures { result ≡ record self { borders = record self.borders { top_intersection = Some c } } }
    {
        self.borders.top_intersection = Some(c);
        self
    }
}

impl<T, L, R, H, const HN: usize, const VN: usize> Style<T, On, L, R, H, On, HN, VN> {
    /// Sets the lower ends of the lines between columns.
    ///
    /// `Style::ascii().intersection_bottom('*')`:
    ///
    /// ```text
    /// +---+---+
    /// | a | b |
    /// +---+---+
    /// | c | d |
    /// +---*---+
    /// ```
    pub fn intersection_bottom(mut self, c: char) -> Self
        ensures { result ≡ record self { borders = record self.borders { bottom_intersection = Some c } } }
    {
        self.borders.bottom_intersection = Some(c);
        self
    }
}

#[tactic(auto, unfolding(crate::specs::Setting::with_intersection))]
impl<T, B, L, R, const HN: usize, const VN: usize> Style<T, B, L, R, On, On, HN, VN> {
    /// Sets the crossings of the lines between rows with those between columns, and those of all custom lines.
    ///
    /// `Style::ascii().intersection('*')`:
    ///
    /// ```text
    /// +---+---+
    /// | a | b |
    /// +---*---+
    /// | c | d |
    /// +---+---+
    /// ```
    pub fn intersection(mut self, c: char) -> Self
        ensures { result ≡ with_intersection c self }
    {
        self.borders.intersection = Some(c);
        self.horizontals.set_crossing(Rank::Inner, Some(c));
        self.verticals.set_crossing(Rank::Inner, Some(c));
        self
    }
}
