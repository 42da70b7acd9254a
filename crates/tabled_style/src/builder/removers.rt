//! The calls that drop sides, inner lines and the frame.

ghost use Rattle.std.specs.Prelude.{◌≡◌};
ghost use Rattle.tabled_style.specs.Removing.{horizontal_dropped, vertical_dropped, without_horizontal, without_vertical};

use super::Style;
use crate::On;
use tabled_grid::{Borders, HorizontalLine as HLine, Rank, VerticalLine as VLine};

/// The record without its horizontal lines of a rank.
pub(super) fn horizontal_dropped(rank: Rank, borders: Borders<char>) -> Borders<char>
    ensures { result ≡ horizontal_dropped rank borders }
{
    borders.with_horizontal_line(rank, HLine::empty())
}

/// The record without its vertical lines of a rank.
pub(super) fn vertical_dropped(rank: Rank, borders: Borders<char>) -> Borders<char>
    ensures { result ≡ vertical_dropped rank borders }
{
    borders.with_vertical_line(rank, VLine::empty())
}

impl<T, B, L, R, H, V, const HN: usize, const VN: usize> Style<T, B, L, R, H, V, HN, VN> {
    /// The style without its horizontal lines of a rank, and without the crossings of its custom lines with them.
    #[tactic(auto, unfolding(crate::specs::Removing::without_horizontal))]
    fn without_horizontal<Top, Bottom>(
        mut self,
        rank: Rank,
    ) -> Style<Top, Bottom, L, R, H, V, HN, VN>
        ensures { result ≡ without_horizontal rank self }
    {
        self.borders = horizontal_dropped(rank, self.borders);
        self.verticals.set_crossing(rank, None);
        self.marked()
    }

    /// The style without its vertical lines of a rank, and without the crossings of its custom lines with them.
    #[tactic(auto, unfolding(crate::specs::Removing::without_vertical))]
    fn without_vertical<Left, Right>(mut self, rank: Rank) -> Style<T, B, Left, Right, H, V, HN, VN>
        ensures { result ≡ without_vertical rank self }
    {
        self.borders = vertical_dropped(rank, self.borders);
        self.horizontals.set_crossing(rank, None);
        self.marked()
    }
}

impl<B, L, R, H, V, const HN: usize, const VN: usize> Style<On, B, L, R, H, V, HN, VN> {
    /// Drops the top: its edges, its crossings and its corners, and the upper ends of the custom vertical lines.
    ///
    /// `Style::ascii().remove_top()`:
    ///
    /// ```text
    /// | a | b |
    /// +---+---+
    /// | c | d |
    /// +---+---+
    /// ```
    pub fn remove_top(self) -> Style<(), B, L, R, H, V, HN, VN>
        ensures { result ≡ without_horizontal Rank.First self }
    {
        self.without_horizontal(Rank::First)
    }
}

impl<T, L, R, H, V, const HN: usize, const VN: usize> Style<T, On, L, R, H, V, HN, VN> {
    /// Drops the bottom: its edges, its crossings and its corners, and the lower ends of the custom vertical lines.
    ///
    /// `Style::ascii().remove_bottom()`:
    ///
    /// ```text
    /// +---+---+
    /// | a | b |
    /// +---+---+
    /// | c | d |
    /// ```
    pub fn remove_bottom(self) -> Style<T, (), L, R, H, V, HN, VN>
        ensures { result ≡ without_horizontal Rank.Last self }
    {
        self.without_horizontal(Rank::Last)
    }
}

impl<T, B, R, H, V, const HN: usize, const VN: usize> Style<T, B, On, R, H, V, HN, VN> {
    /// Drops the left side: its edges, its crossings and its corners, and the left ends of the custom horizontal lines.
    ///
    /// `Style::ascii().remove_left()`:
    ///
    /// ```text
    /// ---+---+
    ///  a | b |
    /// ---+---+
    ///  c | d |
    /// ---+---+
    /// ```
    pub fn remove_left(self) -> Style<T, B, (), R, H, V, HN, VN>
        ensures { result ≡ without_vertical Rank.First self }
    {
        self.without_vertical(Rank::First)
    }
}

impl<T, B, L, H, V, const HN: usize, const VN: usize> Style<T, B, L, On, H, V, HN, VN> {
    /// Drops the right side: its edges, its crossings and its corners, and the right ends of the custom horizontal lines.
    ///
    /// `Style::ascii().remove_right()`:
    ///
    /// ```text
    /// +---+---
    /// | a | b
    /// +---+---
    /// | c | d
    /// +---+---
    /// ```
    pub fn remove_right(self) -> Style<T, B, L, (), H, V, HN, VN>
        ensures { result ≡ without_vertical Rank.Last self }
    {
        self.without_vertical(Rank::Last)
    }
}

impl<T, B, L, R, V, const HN: usize, const VN: usize> Style<T, B, L, R, On, V, HN, VN> {
    /// Drops the lines between rows and their crossings. Custom lines stay.
    ///
    /// `Style::ascii().remove_horizontal()`:
    ///
    /// ```text
    /// +---+---+
    /// | a | b |
    /// | c | d |
    /// +---+---+
    /// ```
    pub fn remove_horizontal(mut self) -> Style<T, B, L, R, (), V, HN, VN>
        ensures { result ≡ record self { borders = horizontal_dropped Rank.Inner self.borders } }
    {
        self.borders = horizontal_dropped(Rank::Inner, self.borders);
        self.marked()
    }
}

impl<T, B, L, R, H, const HN: usize, const VN: usize> Style<T, B, L, R, H, On, HN, VN> {
    /// Drops the lines between columns and their crossings. Custom lines stay.
    ///
    /// `Style::ascii().remove_vertical()`:
    ///
    /// ```text
    /// +------+
    /// | a  b |
    /// +------+
    /// | c  d |
    /// +------+
    /// ```
    pub fn remove_vertical(mut self) -> Style<T, B, L, R, H, (), HN, VN>
        ensures { result ≡ record self { borders = vertical_dropped Rank.Inner self.borders } }
    {
        self.borders = vertical_dropped(Rank::Inner, self.borders);
        self.marked()
    }
}

#[tactic(auto, using(crate::proofs::InPlace::each_of_each), unfolding(crate::specs::Removing::without_horizontal, crate::specs::Removing::without_vertical))]
impl<H, V, const HN: usize, const VN: usize> Style<On, On, On, On, H, V, HN, VN> {
    ghost use Rattle.tabled_configuration.specs.Options.{inner_of};
    ghost use Rattle.tabled_style.specs.Lines.{each_line};
    ghost use Rattle.tabled_style.specs.Removing.{without_ends_horizontal, without_ends_vertical};

    /// Drops the frame: the bottom, the top, the left and the right side. What stays are the lines between rows
    /// and between columns with the crossings of the two, and the custom lines without their ends.
    ///
    /// `Style::ascii().remove_frame()`:
    ///
    /// ```text
    ///  a | b
    /// ---+---
    ///  c | d
    /// ```
    pub fn remove_frame(self) -> Style<(), (), (), (), H, V, HN, VN>
        ensures { result ≡ record {
          borders = inner_of self.borders;
          horizontals = each_line without_ends_horizontal self.horizontals;
          verticals = each_line without_ends_vertical self.verticals;
        } }
    {
        self.remove_bottom()
            .remove_top()
            .remove_left()
            .remove_right()
    }
}
