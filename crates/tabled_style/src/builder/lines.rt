//! The calls that take lines: custom ones, and those that replace a line of the style.

ghost use Rattle.std.specs.Prelude.{◌≡◌, []};
ghost use Rattle.tabled_style.specs.LineCalls.{space_where, spaced_vertical, spaced_horizontal, followed_vertical, followed_horizontal, settled_horizontal, settled_vertical};

use super::Style;
use super::custom::Lines;
use super::removers::{horizontal_dropped, vertical_dropped};
use crate::{HorizontalLine, On, VerticalLine};
use tabled_grid::{Borders, HorizontalLine as HLine, Rank, VerticalLine as VLine};

/// What is given, or a space where one is asked for.
pub(super) fn space_where(asked: bool, given: Option<char>) -> Option<char>
    ensures { result ≡ space_where asked given }
{
    match given {
        Some(c) => Some(c),
        None if asked => Some(' '),
        None => None,
    }
}

/// The lines between columns of a record, with a space for what they lack.
#[tactic(auto, unfolding(crate::specs::LineCalls::spaced_vertical))]
fn spaced_vertical(borders: Borders<char>) -> VLine<char>
    ensures { result ≡ spaced_vertical borders }
{
    let line = borders.vertical_line(Rank::Inner);
    VLine {
        main: space_where(true, line.main),
        top: space_where(borders.has_top(), line.top),
        bottom: space_where(borders.has_bottom(), line.bottom),
        ..line
    }
}

/// The lines between rows of a record, with a space for what they lack.
#[tactic(auto, unfolding(crate::specs::LineCalls::spaced_horizontal))]
fn spaced_horizontal(borders: Borders<char>) -> HLine<char>
    ensures { result ≡ spaced_horizontal borders }
{
    let line = borders.horizontal_line(Rank::Inner);
    HLine {
        main: space_where(true, line.main),
        left: space_where(borders.has_left(), line.left),
        right: space_where(borders.has_right(), line.right),
        ..line
    }
}

/// The record with its vertical lines of a rank as a horizontal line asks that has this where it crosses them.
#[tactic(auto, unfolding(crate::specs::LineCalls::followed_vertical))]
fn followed_vertical(rank: Rank, crossing: Option<char>, borders: Borders<char>) -> Borders<char>
    ensures { result ≡ followed_vertical rank crossing borders }
{
    match (crossing, rank) {
        (None, _) => vertical_dropped(rank, borders),
        (Some(_), Rank::Inner) => borders.with_vertical_line(rank, spaced_vertical(borders)),
        (Some(_), _) => borders,
    }
}

/// The record with its horizontal lines of a rank as a vertical line asks that has this where it crosses them.
#[tactic(auto, unfolding(crate::specs::LineCalls::followed_horizontal))]
fn followed_horizontal(rank: Rank, crossing: Option<char>, borders: Borders<char>) -> Borders<char>
    ensures { result ≡ followed_horizontal rank crossing borders }
{
    match (crossing, rank) {
        (None, _) => horizontal_dropped(rank, borders),
        (Some(_), Rank::Inner) => borders.with_horizontal_line(rank, spaced_horizontal(borders)),
        (Some(_), _) => borders,
    }
}

/// The second step of a call that takes a horizontal line.
#[tactic(auto, unfolding(crate::specs::LineCalls::settled_horizontal))]
fn settled_horizontal(line: HLine<char>, between: Borders<char>) -> Borders<char>
    ensures { result ≡ settled_horizontal line between }
{
    let inner = followed_vertical(Rank::Inner, line.intersection, between);
    let left = followed_vertical(Rank::First, line.left, inner);
    followed_vertical(Rank::Last, line.right, left)
}

/// The second step of a call that takes a vertical line.
#[tactic(auto, unfolding(crate::specs::LineCalls::settled_vertical))]
fn settled_vertical(line: VLine<char>, between: Borders<char>) -> Borders<char>
    ensures { result ≡ settled_vertical line between }
{
    let inner = followed_horizontal(Rank::Inner, line.intersection, between);
    let top = followed_horizontal(Rank::First, line.top, inner);
    followed_horizontal(Rank::Last, line.bottom, top)
}

impl<T, B, L, R, H, V, const HN: usize, const VN: usize> Style<T, B, L, R, H, V, HN, VN> {
    /// Replaces the custom horizontal lines by these, each with its index. A later one of the same index counts.
    ///
    /// `Style::rounded().horizontals([(1, HorizontalLine::filled('='))])`:
    ///
    /// ```text
    /// ╭───┬───╮
    /// │ a │ b │
    /// =========
    /// │ c │ d │
    /// ╰───┴───╯
    /// ```
    pub fn horizontals<const SIZE: usize>(
        self,
        list: [(usize, HorizontalLine<L, R, V>); SIZE],
    ) -> Style<T, B, L, R, H, V, SIZE, VN>
        ensures { result ≡ record self { horizontals = list } }
    {
        Style::new(self.borders, Lines::of_horizontals(list), self.verticals)
    }

    /// Replaces the custom vertical lines by these, each with its index. A later one of the same index counts.
    ///
    /// `Style::modern().remove_horizontal()` with `verticals([(1, VerticalLine::new('#').top('*').bottom('*'))])`:
    ///
    /// ```text
    /// ┌───*───┐
    /// │ a # b │
    /// │ c # d │
    /// └───*───┘
    /// ```
    pub fn verticals<const SIZE: usize>(
        self,
        list: [(usize, VerticalLine<T, B, H>); SIZE],
    ) -> Style<T, B, L, R, H, V, HN, SIZE>
        ensures { result ≡ record self { verticals = list } }
    {
        Style::new(self.borders, self.horizontals, Lines::of_verticals(list))
    }

    /// Drops the custom horizontal lines.
    ///
    /// `Style::psql().remove_horizontals()`:
    ///
    /// ```text
    ///  a | b
    ///  c | d
    /// ```
    pub fn remove_horizontals(self) -> Style<T, B, L, R, H, V, 0, VN>
        ensures { result ≡ record self { horizontals = [] } }
    {
        Style::new(self.borders, Lines { lines: [] }, self.verticals)
    }

    /// Drops the custom vertical lines.
    ///
    /// `Style::modern().remove_horizontal()` with `verticals([(1, VerticalLine::new('#').top('*').bottom('*'))])` and then
    /// `remove_verticals()`:
    ///
    /// ```text
    /// ┌───┬───┐
    /// │ a │ b │
    /// │ c │ d │
    /// └───┴───┘
    /// ```
    pub fn remove_verticals(self) -> Style<T, B, L, R, H, V, HN, 0>
        ensures { result ≡ record self { verticals = [] } }
    {
        Style::new(self.borders, self.horizontals, Lines { lines: [] })
    }
}

impl<T, B, L, R, H, V, const HN: usize, const VN: usize> Style<T, B, L, R, H, V, HN, VN> {
    ghost use Rattle.tabled_style.specs.LineCalls.{with_line_horizontal, with_line_vertical};

    /// The style with this as its horizontal line of a rank, followed by the rest.
    #[tactic(auto, unfolding(crate::specs::LineCalls::with_line_horizontal))]
    fn with_line_horizontal<Top, Bottom, Left, Right, Inner, Intersection>(
        mut self,
        rank: Rank,
        line: HLine<char>,
    ) -> Style<Top, Bottom, Left, Right, Inner, Intersection, HN, VN>
        ensures { result ≡ with_line_horizontal rank line self }
    {
        let between = self.borders.with_horizontal_line(rank, line);
        self.borders = settled_horizontal(line, between);
        self.horizontals.put_over(line);
        self.verticals
            .put_over(VLine::new(None, line.intersection, None, None));
        self.marked()
    }

    /// The style with this as its vertical line of a rank, followed by the rest.
    #[tactic(auto, unfolding(crate::specs::LineCalls::with_line_vertical))]
    fn with_line_vertical<Top, Bottom, Left, Right, Intersection, Inner>(
        mut self,
        rank: Rank,
        line: VLine<char>,
    ) -> Style<Top, Bottom, Left, Right, Intersection, Inner, HN, VN>
        ensures { result ≡ with_line_vertical rank line self }
    {
        let between = self.borders.with_vertical_line(rank, line);
        self.borders = settled_vertical(line, between);
        self.horizontals
            .put_over(HLine::new(None, line.intersection, None, None));
        self.verticals.put_over(line);
        self.marked()
    }

    /// Replaces the lines between rows by this one.
    ///
    /// First its four characters are put there, missing ones too. Then the rest of the style follows. Where the line
    /// has no crossing, the style loses its lines between columns; else it gets them, with a space where it has no
    /// character for them, also at their ends at the top and the bottom that it has then. Where the line has no left
    /// end, the style loses its left side, and likewise the right one. The custom lines take the crossing, the
    /// horizontal ones also the two ends, where they are given.
    ///
    /// `Style::ascii().line_horizontal(HorizontalLine::new('=').intersection('*'))`. It has no ends, so the sides go:
    ///
    /// ```text
    /// ---+---
    ///  a | b
    /// ===*===
    ///  c | d
    /// ---+---
    /// ```
    pub fn line_horizontal<Left, Right, Intersection>(
        self,
        line: HorizontalLine<Left, Right, Intersection>,
    ) -> Style<T, B, Left, Right, On, Intersection, HN, VN>
        ensures { result ≡ with_line_horizontal Rank.Inner line self }
    {
        self.with_line_horizontal(Rank::Inner, line.into_inner())
    }

    /// Replaces the top by this line. The rest of the style follows as in [`line_horizontal`](Style::line_horizontal).
    ///
    /// `Style::psql().line_top(HorizontalLine::new('=').intersection('*'))`. The custom line takes the crossing:
    ///
    /// ```text
    /// ===*===
    ///  a | b
    /// ---*---
    ///  c | d
    /// ```
    pub fn line_top<Left, Right, Intersection>(
        self,
        line: HorizontalLine<Left, Right, Intersection>,
    ) -> Style<On, B, Left, Right, H, Intersection, HN, VN>
        ensures { result ≡ with_line_horizontal Rank.First line self }
    {
        self.with_line_horizontal(Rank::First, line.into_inner())
    }

    /// Replaces the bottom by this line. The rest of the style follows as in [`line_horizontal`](Style::line_horizontal).
    ///
    /// `Style::psql().line_bottom(HorizontalLine::new('=').intersection('*'))`. The custom line takes the crossing:
    ///
    /// ```text
    ///  a | b
    /// ---*---
    ///  c | d
    /// ===*===
    /// ```
    pub fn line_bottom<Left, Right, Intersection>(
        self,
        line: HorizontalLine<Left, Right, Intersection>,
    ) -> Style<T, On, Left, Right, H, Intersection, HN, VN>
        ensures { result ≡ with_line_horizontal Rank.Last line self }
    {
        self.with_line_horizontal(Rank::Last, line.into_inner())
    }

    /// Replaces the lines between columns by this one.
    ///
    /// First its four characters are put there, missing ones too. Then the rest of the style follows. Where the line has no
    /// crossing, the style loses its lines between rows; else it gets them, with a space where it has no character for them, also
    /// at their ends at the left and the right side that it has then. Where the line has no upper end, the style loses its top, and
    /// likewise the bottom. The custom lines take the crossing, the vertical ones also the two ends, where they are given.
    ///
    /// `Style::psql().line_vertical(VerticalLine::new('#').intersection('*'))`:
    ///
    /// ```text
    ///  a # b
    /// ---*---
    ///  c # d
    /// ```
    pub fn line_vertical<Top, Bottom, Intersection>(
        self,
        line: VerticalLine<Top, Bottom, Intersection>,
    ) -> Style<Top, Bottom, L, R, Intersection, On, HN, VN>
        ensures { result ≡ with_line_vertical Rank.Inner line self }
    {
        self.with_line_vertical(Rank::Inner, line.into_inner())
    }

    /// Replaces the left side by this line. The rest of the style follows as in [`line_vertical`](Style::line_vertical).
    ///
    /// `Style::psql().line_left(VerticalLine::new('#'))`. The custom line has no end there:
    ///
    /// ```text
    /// # a | b
    ///  ---+---
    /// # c | d
    /// ```
    pub fn line_left<Top, Bottom, Intersection>(
        self,
        line: VerticalLine<Top, Bottom, Intersection>,
    ) -> Style<Top, Bottom, On, R, Intersection, V, HN, VN>
        ensures { result ≡ with_line_vertical Rank.First line self }
    {
        self.with_line_vertical(Rank::First, line.into_inner())
    }

    /// Replaces the right side by this line. The rest of the style follows as in [`line_vertical`](Style::line_vertical).
    ///
    /// `Style::psql().line_right(VerticalLine::new('#'))`. The custom line has no end there:
    ///
    /// ```text
    ///  a | b #
    /// ---+---
    ///  c | d #
    /// ```
    pub fn line_right<Top, Bottom, Intersection>(
        self,
        line: VerticalLine<Top, Bottom, Intersection>,
    ) -> Style<Top, Bottom, L, On, Intersection, V, HN, VN>
        ensures { result ≡ with_line_vertical Rank.Last line self }
    {
        self.with_line_vertical(Rank::Last, line.into_inner())
    }
}
