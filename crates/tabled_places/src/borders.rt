//! The class record: one character for each kind of border place.

ghost use Rattle.std.specs.Prelude.{◌≡◌, ◌↔◌, IsTrue, ⊤, option_copied};
ghost use Rattle.tabled_places.specs.Drawn.{number};
ghost use Rattle.tabled_places.specs.Reading.{direction_of};
ghost use Rattle.tabled_places.specs.Site.{edges, crossings, rank, class_value};

use crate::{HorizontalLine, LineOf, Rank, VerticalLine};
use std::alloc::AllocError;

/// The class record: a value for each of the fifteen kinds of border place, as characters or colors of a whole table.
///
/// A table of two rows and two columns, whose cells are empty, and which letter stands for which field:
///
/// ```text
/// 1aaa5aaa2     a top            b bottom          e horizontal
/// c   f   d     c left           d right           f vertical
/// 7eee9eee8     1 top_left       2 top_right       5 top_intersection     6 bottom_intersection
/// c   f   d     3 bottom_left    4 bottom_right    7 left_intersection    8 right_intersection
/// 3bbb6bbb4     9 intersection
/// ```
#[derive(Copy, Debug, Drop, PartialEq, Eq, PartialOrd, Ord, Hash)]
pub struct Borders<T> {
    /// The edges of horizontal line 0.
    pub top: Option<T>,
    /// The edges of the last horizontal line.
    pub bottom: Option<T>,
    /// The edges of vertical line 0.
    pub left: Option<T>,
    /// The edges of the last vertical line.
    pub right: Option<T>,
    /// The crossing of the first lines.
    pub top_left: Option<T>,
    /// The crossing of horizontal line 0 and the last vertical line.
    pub top_right: Option<T>,
    /// The crossing of the last horizontal line and vertical line 0.
    pub bottom_left: Option<T>,
    /// The crossing of the last lines.
    pub bottom_right: Option<T>,
    /// The crossings on horizontal line 0 but for its two corners.
    pub top_intersection: Option<T>,
    /// The crossings on the last horizontal line but for its two corners.
    pub bottom_intersection: Option<T>,
    /// The crossings on vertical line 0 but for its two corners.
    pub left_intersection: Option<T>,
    /// The crossings on the last vertical line but for its two corners.
    pub right_intersection: Option<T>,
    /// The edges of the other horizontal lines.
    pub horizontal: Option<T>,
    /// The edges of the other vertical lines.
    pub vertical: Option<T>,
    /// The crossings of the other lines.
    pub intersection: Option<T>,
}

/// Values are copied where `T` is copied.
impl<T: Copy> Clone for Borders<T> {
    ghost is_clone = { λ value copy. copy ≡ value };

    ghost is_infallible = { λ _. ⊤ };

    fn clone(&self) -> Result<Self, AllocError> {
        Ok(*self)
    }
}

impl<T> Borders<T> {
    ghost use Rattle.tabled_places.specs.Site.{Horizontal, Vertical, edges, crossings, rank, class_value};
    ghost use Rattle.tabled_places.specs.State.{HasNothing};
    ghost use Rattle.tabled_places.specs.Borders.{has_horizontal, has_vertical};
    ghost use Rattle.tabled_places.specs.CustomLines.{no_borders};

    /// Makes a record with nothing set.
    pub const fn empty() -> Self
        ensures { result ≡ no_borders }
    {
        Borders {
            top: None,
            bottom: None,
            left: None,
            right: None,
            top_left: None,
            top_right: None,
            bottom_left: None,
            bottom_right: None,
            top_intersection: None,
            bottom_intersection: None,
            left_intersection: None,
            right_intersection: None,
            horizontal: None,
            vertical: None,
            intersection: None,
        }
    }

    /// Returns whether horizontal line 0 has something: its edges or one of its crossings.
    pub fn has_top(&self) -> bool
        ensures { result ≡ has_horizontal Rank.First self.now }
    {
        self.has_horizontal_line(Rank::First)
    }

    /// Returns whether the last horizontal line has something: its edges or one of its crossings.
    pub fn has_bottom(&self) -> bool
        ensures { result ≡ has_horizontal Rank.Last self.now }
    {
        self.has_horizontal_line(Rank::Last)
    }

    /// Returns whether vertical line 0 has something: its edges or one of its crossings.
    pub fn has_left(&self) -> bool
        ensures { result ≡ has_vertical Rank.First self.now }
    {
        self.has_vertical_line(Rank::First)
    }

    /// Returns whether the last vertical line has something: its edges or one of its crossings.
    pub fn has_right(&self) -> bool
        ensures { result ≡ has_vertical Rank.Last self.now }
    {
        self.has_vertical_line(Rank::Last)
    }

    /// Returns whether the horizontal lines between have something: their edges or one of their crossings.
    pub fn has_horizontal(&self) -> bool
        ensures { result ≡ has_horizontal Rank.Inner self.now }
    {
        self.has_horizontal_line(Rank::Inner)
    }

    /// Returns whether the vertical lines between have something: their edges or one of their crossings.
    pub fn has_vertical(&self) -> bool
        ensures { result ≡ has_vertical Rank.Inner self.now }
    {
        self.has_vertical_line(Rank::Inner)
    }

    /// Returns whether the horizontal lines of a rank have something: their edges or one of their crossings.
    pub fn has_horizontal_line(&self, rank: Rank) -> bool
        ensures { result ≡ has_horizontal rank self.now }
    {
        self.edges_horizontal(rank).is_some()
            || self.crossing(rank, Rank::First).is_some()
            || self.crossing(rank, Rank::Inner).is_some()
            || self.crossing(rank, Rank::Last).is_some()
    }

    /// Returns whether the vertical lines of a rank have something: their edges or one of their crossings.
    pub fn has_vertical_line(&self, rank: Rank) -> bool
        ensures { result ≡ has_vertical rank self.now }
    {
        self.edges_vertical(rank).is_some()
            || self.crossing(Rank::First, rank).is_some()
            || self.crossing(Rank::Inner, rank).is_some()
            || self.crossing(Rank::Last, rank).is_some()
    }

    /// Returns whether nothing is set.
    pub fn is_empty(&self) -> bool
        ensures { IsTrue result ↔ HasNothing self.now }
    {
        let lines = [
            self.has_top(),
            self.has_horizontal(),
            self.has_bottom(),
            self.has_left(),
            self.has_vertical(),
            self.has_right(),
        ];
        !lines.contains(&true)
    }

    /// What the edges of the horizontal lines of a rank have.
    fn edges_horizontal(&self, rank: Rank) -> Option<&T>
        ensures { option_copied result ≡ class_value (edges Horizontal rank) self.now }
    {
        match rank {
            Rank::First => self.top.as_ref(),
            Rank::Inner => self.horizontal.as_ref(),
            Rank::Last => self.bottom.as_ref(),
        }
    }

    /// What the edges of the vertical lines of a rank have.
    fn edges_vertical(&self, rank: Rank) -> Option<&T>
        ensures { option_copied result ≡ class_value (edges Vertical rank) self.now }
    {
        match rank {
            Rank::First => self.left.as_ref(),
            Rank::Inner => self.vertical.as_ref(),
            Rank::Last => self.right.as_ref(),
        }
    }

    /// What the crossings of the horizontal lines of one rank with the vertical lines of another have.
    fn crossing(&self, row: Rank, col: Rank) -> Option<&T>
        ensures { option_copied result ≡ class_value (crossings row col) self.now }
    {
        match (row, col) {
            (Rank::First, Rank::First) => self.top_left.as_ref(),
            (Rank::First, Rank::Inner) => self.top_intersection.as_ref(),
            (Rank::First, Rank::Last) => self.top_right.as_ref(),
            (Rank::Inner, Rank::First) => self.left_intersection.as_ref(),
            (Rank::Inner, Rank::Inner) => self.intersection.as_ref(),
            (Rank::Inner, Rank::Last) => self.right_intersection.as_ref(),
            (Rank::Last, Rank::First) => self.bottom_left.as_ref(),
            (Rank::Last, Rank::Inner) => self.bottom_intersection.as_ref(),
            (Rank::Last, Rank::Last) => self.bottom_right.as_ref(),
        }
    }
}

/// What a record has for the edges of a line, of the lines 0 to `count` of its direction.
pub fn edges_of<T>(borders: &Borders<T>, line: LineOf, count: usize) -> Option<&T>
    ensures { option_copied result ≡ class_value (edges (direction_of line) (rank count (number line))) borders.now }
{
    match line {
        LineOf::Horizontal(row) => borders.edges_horizontal(Rank::of(row, count)),
        LineOf::Vertical(col) => borders.edges_vertical(Rank::of(col, count)),
    }
}

/// What a record has for the crossing of horizontal line `row` and vertical line `col`, in a table of `shape.0` rows and
/// `shape.1` columns.
pub fn crossing_of<T>(
    borders: &Borders<T>,
    row: usize,
    col: usize,
    shape: (usize, usize),
) -> Option<&T>
    ensures { option_copied result ≡ class_value (crossings (rank shape.0 row) (rank shape.1 col)) borders.now }
{
    borders.crossing(Rank::of(row, shape.0), Rank::of(col, shape.1))
}

/// The record as six lines: of each rank a horizontal and a vertical one.
impl<T: Copy> Borders<T> {
    ghost use Rattle.tabled_places.specs.Site.{Horizontal, Vertical, edges, crossings};
    ghost use Rattle.tabled_places.specs.Borders.{with_class, horizontal_of, vertical_of, put_horizontal, put_vertical};

    /// Returns the horizontal line of a rank.
    pub fn horizontal_line(&self, rank: Rank) -> HorizontalLine<T>
        ensures { result ≡ horizontal_of rank self.now }
    {
        match rank {
            Rank::First => HorizontalLine {
                main: self.top,
                intersection: self.top_intersection,
                left: self.top_left,
                right: self.top_right,
            },
            Rank::Inner => HorizontalLine {
                main: self.horizontal,
                intersection: self.intersection,
                left: self.left_intersection,
                right: self.right_intersection,
            },
            Rank::Last => HorizontalLine {
                main: self.bottom,
                intersection: self.bottom_intersection,
                left: self.bottom_left,
                right: self.bottom_right,
            },
        }
    }

    /// Returns the vertical line of a rank.
    pub fn vertical_line(&self, rank: Rank) -> VerticalLine<T>
        ensures { result ≡ vertical_of rank self.now }
    {
        match rank {
            Rank::First => VerticalLine {
                main: self.left,
                intersection: self.left_intersection,
                top: self.top_left,
                bottom: self.bottom_left,
            },
            Rank::Inner => VerticalLine {
                main: self.vertical,
                intersection: self.intersection,
                top: self.top_intersection,
                bottom: self.bottom_intersection,
            },
            Rank::Last => VerticalLine {
                main: self.right,
                intersection: self.right_intersection,
                top: self.top_right,
                bottom: self.bottom_right,
            },
        }
    }

    /// Returns the record with this as its horizontal line of a rank: what the line does not have the record loses.
    pub fn with_horizontal_line(mut self, rank: Rank, line: HorizontalLine<T>) -> Self
        ensures { result ≡ put_horizontal rank line self }
    {
        self.set_edges_horizontal(rank, line.main);
        self.set_crossing(rank, Rank::Inner, line.intersection);
        self.set_crossing(rank, Rank::First, line.left);
        self.set_crossing(rank, Rank::Last, line.right);
        self
    }

    /// Returns the record with this as its vertical line of a rank: what the line does not have the record loses.
    pub fn with_vertical_line(mut self, rank: Rank, line: VerticalLine<T>) -> Self
        ensures { result ≡ put_vertical rank line self }
    {
        self.set_edges_vertical(rank, line.main);
        self.set_crossing(Rank::Inner, rank, line.intersection);
        self.set_crossing(Rank::First, rank, line.top);
        self.set_crossing(Rank::Last, rank, line.bottom);
        self
    }

    /// Sets the edges of the horizontal lines of a rank.
    fn set_edges_horizontal(&mut self, rank: Rank, value: Option<T>)
        ensures { self.new ≡ with_class (edges Horizontal rank) value self.old }
    {
        match rank {
            Rank::First => self.top = value,
            Rank::Inner => self.horizontal = value,
            Rank::Last => self.bottom = value,
        }
    }

    /// Sets the edges of the vertical lines of a rank.
    fn set_edges_vertical(&mut self, rank: Rank, value: Option<T>)
        ensures { self.new ≡ with_class (edges Vertical rank) value self.old }
    {
        match rank {
            Rank::First => self.left = value,
            Rank::Inner => self.vertical = value,
            Rank::Last => self.right = value,
        }
    }

    /// Sets the crossings of the horizontal lines of one rank with the vertical lines of another.
    fn set_crossing(&mut self, row: Rank, col: Rank, value: Option<T>)
        ensures { self.new ≡ with_class (crossings row col) value self.old }
    {
        match (row, col) {
            (Rank::First, Rank::First) => self.top_left = value,
            (Rank::First, Rank::Inner) => self.top_intersection = value,
            (Rank::First, Rank::Last) => self.top_right = value,
            (Rank::Inner, Rank::First) => self.left_intersection = value,
            (Rank::Inner, Rank::Inner) => self.intersection = value,
            (Rank::Inner, Rank::Last) => self.right_intersection = value,
            (Rank::Last, Rank::First) => self.bottom_left = value,
            (Rank::Last, Rank::Inner) => self.bottom_intersection = value,
            (Rank::Last, Rank::Last) => self.bottom_right = value,
        }
    }
}

impl<T> Default for Borders<T> {
    ghost use Rattle.tabled_places.specs.State.{HasNothing};

    ghost is_default = { HasNothing };

    fn default() -> Self {
        Borders::empty()
    }
}
