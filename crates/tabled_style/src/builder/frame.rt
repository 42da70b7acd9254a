//! The call that gives a style another frame.

ghost use Rattle.std.specs.Prelude.{◌≡◌, ◌&&◌};
ghost use Rattle.tabled_style.specs.Frame.{sides_given, corners_given, corrected};

use super::Style;
use super::lines::space_where;
use crate::Border;
use tabled_border::Border as GridBorder;
use tabled_grid::{Borders, HorizontalLine as HLine, VerticalLine as VLine};

/// The border with a space at each side that it has only by a corner.
fn sides_given(border: GridBorder<char>) -> GridBorder<char>
    ensures { result ≡ sides_given border }
{
    GridBorder {
        top: space_where(border.has_top(), border.top),
        bottom: space_where(border.has_bottom(), border.bottom),
        left: space_where(border.has_left(), border.left),
        right: space_where(border.has_right(), border.right),
        ..border
    }
}

/// The border with a space at each missing corner between two sides that it has.
fn corners_given(border: GridBorder<char>) -> GridBorder<char>
    ensures { result ≡ corners_given border }
{
    let (top, bottom) = (border.has_top(), border.has_bottom());
    let (left, right) = (border.has_left(), border.has_right());
    GridBorder {
        left_top_corner: space_where(both(top, left), border.left_top_corner),
        left_bottom_corner: space_where(both(bottom, left), border.left_bottom_corner),
        right_top_corner: space_where(both(top, right), border.right_top_corner),
        right_bottom_corner: space_where(both(bottom, right), border.right_bottom_corner),
        ..border
    }
}

impl<T, B, L, R, H, V, const HN: usize, const VN: usize> Style<T, B, L, R, H, V, HN, VN> {
    ghost use Rattle.tabled_style.specs.Frame.{with_frame};

    /// Replaces the frame: the four sides and the four corners.
    ///
    /// First the border is corrected. A side of which only a corner is given becomes a space; then each missing
    /// corner between two sides that the border has becomes a space. The custom horizontal lines take the left and
    /// the right side as their ends, the vertical ones the top and the bottom, where they are given.
    ///
    /// `Style::ascii().frame(Border::filled('#'))`:
    ///
    /// ```text
    /// ####+####
    /// # a | b #
    /// +---+---+
    /// # c | d #
    /// ####+####
    /// ```
    #[tactic(auto, unfolding(crate::specs::Frame::corrected, crate::specs::Frame::with_frame))]
    pub fn frame<Top, Bottom, Left, Right>(
        mut self,
        border: Border<Top, Bottom, Left, Right>,
    ) -> Style<Top, Bottom, Left, Right, H, V, HN, VN>
        ensures { result ≡ with_frame (corrected border) self }
    {
        let frame = corners_given(sides_given(border.into_inner()));
        self.borders = Borders {
            top: frame.top,
            bottom: frame.bottom,
            left: frame.left,
            right: frame.right,
            top_left: frame.left_top_corner,
            top_right: frame.right_top_corner,
            bottom_left: frame.left_bottom_corner,
            bottom_right: frame.right_bottom_corner,
            ..self.borders
        };
        self.horizontals
            .put_over(HLine::new(None, None, frame.left, frame.right));
        self.verticals
            .put_over(VLine::new(None, None, frame.top, frame.bottom));
        self.marked()
    }
}

/// Whether both hold.
fn both(one: bool, other: bool) -> bool
    ensures { result ≡ one && other }
{
    one && other
}
