//! The border of one cell: its four sides and its four corners.

ghost use Rattle.std.specs.Prelude.{◌≡◌, ◌↔◌, IsTrue, Some, ⊤, [], ◌∷◌, is_some};
ghost use Rattle.std.specs.List.{list_any, list_all};
ghost use Rattle.std.specs.Option.{option_eq};
ghost use Rattle.tabled_border.specs.Converting.{Converts};

use std::alloc::AllocError;

/// A character or a color for each side and each corner of one cell. What is missing is not given.
///
/// `Border::full('t', 'b', 'l', 'r', '1', '2', '3', '4')` on the cell (0, 0) of a table, whose other borders are dashes, bars
/// and plus signs:
///
/// ```text
/// 1ttt2---+
/// l a r b |
/// 3bbb4---+
/// | c | d |
/// +---+---+
/// ```
#[derive(Copy, Debug, Drop, PartialEq, Eq, PartialOrd, Ord, Hash)]
pub struct Border<T> {
    /// The upper side.
    pub top: Option<T>,
    /// The lower side.
    pub bottom: Option<T>,
    /// The left side.
    pub left: Option<T>,
    /// The right side.
    pub right: Option<T>,
    /// The upper left corner.
    pub left_top_corner: Option<T>,
    /// The lower left corner.
    pub left_bottom_corner: Option<T>,
    /// The upper right corner.
    pub right_top_corner: Option<T>,
    /// The lower right corner.
    pub right_bottom_corner: Option<T>,
}

/// Values are copied where `T` is copied.
impl<T: Copy> Clone for Border<T> {
    ghost is_clone = { λ value copy. copy ≡ value };

    ghost is_infallible = { λ _. ⊤ };

    fn clone(&self) -> Result<Self, AllocError> {
        Ok(*self)
    }
}

impl<T> Border<T> {
    ghost use Rattle.tabled_border.specs.Border.{no_border};

    /// Makes a border of these sides and corners.
    pub const fn new(
        top: Option<T>,
        bottom: Option<T>,
        left: Option<T>,
        right: Option<T>,
        left_top_corner: Option<T>,
        left_bottom_corner: Option<T>,
        right_top_corner: Option<T>,
        right_bottom_corner: Option<T>,
    ) -> Self
        ensures { result ≡ record {
          top = top;
          bottom = bottom;
          left = left;
          right = right;
          left_top_corner = left_top_corner;
          left_bottom_corner = left_bottom_corner;
          right_top_corner = right_top_corner;
          right_bottom_corner = right_bottom_corner;
        } }
    {
        Border {
            top,
            bottom,
            left,
            right,
            left_top_corner,
            left_bottom_corner,
            right_top_corner,
            right_bottom_corner,
        }
    }

    /// Makes a border with all sides and corners given.
    pub const fn full(
        top: T,
        bottom: T,
        left: T,
        right: T,
        top_left: T,
        top_right: T,
        bottom_left: T,
        bottom_right: T,
    ) -> Self
        ensures { result ≡ record {
          top = Some top;
          bottom = Some bottom;
          left = Some left;
          right = Some right;
          left_top_corner = Some top_left;
          left_bottom_corner = Some bottom_left;
          right_top_corner = Some top_right;
          right_bottom_corner = Some bottom_right;
        } }
    {
        Border {
            top: Some(top),
            bottom: Some(bottom),
            left: Some(left),
            right: Some(right),
            left_top_corner: Some(top_left),
            left_bottom_corner: Some(bottom_left),
            right_top_corner: Some(top_right),
            right_bottom_corner: Some(bottom_right),
        }
    }

    /// Makes a border with `c` on all sides and corners.
    pub const fn filled(c: T) -> Self
    where
        T: Copy,
        ensures { result ≡ record {
          top = Some c;
          bottom = Some c;
          left = Some c;
          right = Some c;
          left_top_corner = Some c;
          left_bottom_corner = Some c;
          right_top_corner = Some c;
          right_bottom_corner = Some c;
        } }
    {
        Border::full(c, c, c, c, c, c, c, c)
    }

    /// Makes a border with nothing given.
    pub const fn empty() -> Self
        ensures { result ≡ no_border }
    {
        Border::new(None, None, None, None, None, None, None, None)
    }

    /// Returns whether the upper side or one of its corners is given.
    pub fn has_top(&self) -> bool
        ensures { result ≡ list_any is_some
            (self.now.top ∷ self.now.left_top_corner ∷ self.now.right_top_corner ∷ []) }
    {
        self.top.is_some() || self.left_top_corner.is_some() || self.right_top_corner.is_some()
    }

    /// Returns whether the lower side or one of its corners is given.
    pub fn has_bottom(&self) -> bool
        ensures { result ≡ list_any is_some
            (self.now.bottom ∷ self.now.left_bottom_corner ∷ self.now.right_bottom_corner ∷ []) }
    {
        self.bottom.is_some()
            || self.left_bottom_corner.is_some()
            || self.right_bottom_corner.is_some()
    }

    /// Returns whether the left side or one of its corners is given.
    pub fn has_left(&self) -> bool
        ensures { result ≡ list_any is_some
            (self.now.left ∷ self.now.left_top_corner ∷ self.now.left_bottom_corner ∷ []) }
    {
        self.left.is_some() || self.left_top_corner.is_some() || self.left_bottom_corner.is_some()
    }

    /// Returns whether the right side or one of its corners is given.
    pub fn has_right(&self) -> bool
        ensures { result ≡ list_any is_some
            (self.now.right ∷ self.now.right_top_corner ∷ self.now.right_bottom_corner ∷ []) }
    {
        self.right.is_some()
            || self.right_top_corner.is_some()
            || self.right_bottom_corner.is_some()
    }

    /// Returns whether all sides and corners are equal: each is as the upper side.
    pub fn is_same(&self) -> bool
    where
        T: PartialEq,
        ensures { result ≡ list_all (option_eq T.eq self.now.top)
            (self.now.bottom ∷ self.now.left ∷ self.now.right ∷ self.now.left_top_corner
            ∷ self.now.left_bottom_corner ∷ self.now.right_top_corner ∷ self.now.right_bottom_corner ∷ []) }
    {
        self.top == self.bottom
            && self.top == self.left
            && self.top == self.right
            && self.top == self.left_top_corner
            && self.top == self.left_bottom_corner
            && self.top == self.right_top_corner
            && self.top == self.right_bottom_corner
    }

    /// Returns whether nothing is given.
    pub fn is_empty(&self) -> bool
        ensures { IsTrue result ↔ (self.now ≡ no_border) }
    {
        self.top.is_none()
            && self.bottom.is_none()
            && self.left.is_none()
            && self.right.is_none()
            && self.left_top_corner.is_none()
            && self.left_bottom_corner.is_none()
            && self.right_top_corner.is_none()
            && self.right_bottom_corner.is_none()
    }

    /// Returns the border with each side and corner that is given converted.
    pub fn convert<U: From<T>>(self) -> Border<U>
        ensures top { Converts U.from_gives self.top result.top }
        ensures bottom { Converts U.from_gives self.bottom result.bottom }
        ensures left { Converts U.from_gives self.left result.left }
        ensures right { Converts U.from_gives self.right result.right }
        ensures left_top_corner { Converts U.from_gives self.left_top_corner result.left_top_corner }
        ensures left_bottom_corner { Converts U.from_gives self.left_bottom_corner result.left_bottom_corner }
        ensures right_top_corner { Converts U.from_gives self.right_top_corner result.right_top_corner }
        ensures right_bottom_corner { Converts U.from_gives self.right_bottom_corner result.right_bottom_corner }
    {
        Border {
            top: convert_given(self.top),
            bottom: convert_given(self.bottom),
            left: convert_given(self.left),
            right: convert_given(self.right),
            left_top_corner: convert_given(self.left_top_corner),
            left_bottom_corner: convert_given(self.left_bottom_corner),
            right_top_corner: convert_given(self.right_top_corner),
            right_bottom_corner: convert_given(self.right_bottom_corner),
        }
    }
}

/// What is given, converted.
fn convert_given<T, U: From<T>>(given: Option<T>) -> Option<U>
    ensures { Converts U.from_gives given result }
{
    match given {
        Some(value) => Some(U::from(value)),
        None => None,
    }
}

impl<T> Default for Border<T> {
    ghost use Rattle.tabled_border.specs.Border.{no_border};

    ghost is_default = { λ border. border ≡ no_border };

    fn default() -> Self {
        Border::empty()
    }
}
