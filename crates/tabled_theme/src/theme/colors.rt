//! The class colors of a theme, one field at a time.

ghost use Rattle.std.specs.Prelude.{◌≡◌, Some, None, option_copied};
ghost use Rattle.tabled_places.specs.declared.site.Class.TheVariants.{Edges as edges, Crossings as crossings};
ghost use Rattle.tabled_places.specs.declared.site.Direction.TheVariants.{Horizontal, Vertical};
ghost use Rattle.tabled_places.specs.declared.place.Rank.TheVariants.{First as first, Inner as inner, Last as last};
ghost use Rattle.tabled_places.specs.Site.{class_value};
ghost use Rattle.tabled_theme.specs.Changing.{with_color};

use super::Theme;
use super::fields::put;
use tabled_color::Color;

impl Theme {
    /// Sets the color of the edges of the first horizontal line.
    ///
    /// `set_colors_top(Color::FG_RED)`, with `r` for each place that is red:
    ///
    /// ```text
    /// +rrr+rrr+
    /// | a | b |
    /// +---+---+
    /// | c | d |
    /// +---+---+
    /// ```
    pub fn set_colors_top(&mut self, color: Color)
        ensures { self.new ≡ with_color (edges Horizontal first) (Some color) self.old }
    {
        put(&mut self.colors.top, Some(color));
    }

    /// Sets the color of the edges of the last horizontal line.
    pub fn set_colors_bottom(&mut self, color: Color)
        ensures { self.new ≡ with_color (edges Horizontal last) (Some color) self.old }
    {
        put(&mut self.colors.bottom, Some(color));
    }

    /// Sets the color of the edges of the first vertical line.
    pub fn set_colors_left(&mut self, color: Color)
        ensures { self.new ≡ with_color (edges Vertical first) (Some color) self.old }
    {
        put(&mut self.colors.left, Some(color));
    }

    /// Sets the color of the edges of the last vertical line.
    pub fn set_colors_right(&mut self, color: Color)
        ensures { self.new ≡ with_color (edges Vertical last) (Some color) self.old }
    {
        put(&mut self.colors.right, Some(color));
    }

    /// Sets the color of the upper left corner.
    pub fn set_colors_corner_top_left(&mut self, color: Color)
        ensures { self.new ≡ with_color (crossings first first) (Some color) self.old }
    {
        put(&mut self.colors.top_left, Some(color));
    }

    /// Sets the color of the upper right corner.
    pub fn set_colors_corner_top_right(&mut self, color: Color)
        ensures { self.new ≡ with_color (crossings first last) (Some color) self.old }
    {
        put(&mut self.colors.top_right, Some(color));
    }

    /// Sets the color of the lower left corner.
    pub fn set_colors_corner_bottom_left(&mut self, color: Color)
        ensures { self.new ≡ with_color (crossings last first) (Some color) self.old }
    {
        put(&mut self.colors.bottom_left, Some(color));
    }

    /// Sets the color of the lower right corner.
    pub fn set_colors_corner_bottom_right(&mut self, color: Color)
        ensures { self.new ≡ with_color (crossings last last) (Some color) self.old }
    {
        put(&mut self.colors.bottom_right, Some(color));
    }

    /// Sets the color of the crossings on the first horizontal line, the corners aside.
    pub fn set_colors_intersection_top(&mut self, color: Color)
        ensures { self.new ≡ with_color (crossings first inner) (Some color) self.old }
    {
        put(&mut self.colors.top_intersection, Some(color));
    }

    /// Sets the color of the crossings on the last horizontal line, the corners aside.
    pub fn set_colors_intersection_bottom(&mut self, color: Color)
        ensures { self.new ≡ with_color (crossings last inner) (Some color) self.old }
    {
        put(&mut self.colors.bottom_intersection, Some(color));
    }

    /// Sets the color of the crossings on the first vertical line, the corners aside.
    pub fn set_colors_intersection_left(&mut self, color: Color)
        ensures { self.new ≡ with_color (crossings inner first) (Some color) self.old }
    {
        put(&mut self.colors.left_intersection, Some(color));
    }

    /// Sets the color of the crossings on the last vertical line, the corners aside.
    pub fn set_colors_intersection_right(&mut self, color: Color)
        ensures { self.new ≡ with_color (crossings inner last) (Some color) self.old }
    {
        put(&mut self.colors.right_intersection, Some(color));
    }

    /// Sets the color of the crossings of inner lines.
    pub fn set_colors_intersection(&mut self, color: Color)
        ensures { self.new ≡ with_color (crossings inner inner) (Some color) self.old }
    {
        put(&mut self.colors.intersection, Some(color));
    }

    /// Sets the color of the edges of the inner horizontal lines.
    pub fn set_colors_horizontal(&mut self, color: Color)
        ensures { self.new ≡ with_color (edges Horizontal inner) (Some color) self.old }
    {
        put(&mut self.colors.horizontal, Some(color));
    }

    /// Sets the color of the edges of the inner vertical lines.
    ///
    /// `set_colors_vertical(Color::FG_RED)`, with `r` for each place that is red:
    ///
    /// ```text
    /// +---+---+
    /// | a r b |
    /// +---+---+
    /// | c r d |
    /// +---+---+
    /// ```
    pub fn set_colors_vertical(&mut self, color: Color)
        ensures { self.new ≡ with_color (edges Vertical inner) (Some color) self.old }
    {
        put(&mut self.colors.vertical, Some(color));
    }

    /// Returns the color of the edges of the first horizontal line.
    pub fn get_colors_top(&self) -> Option<&Color>
        ensures { option_copied result ≡ class_value (edges Horizontal first) self.now.colors }
    {
        self.colors.top.as_ref()
    }

    /// Returns the color of the edges of the last horizontal line.
    pub fn get_colors_bottom(&self) -> Option<&Color>
        ensures { option_copied result ≡ class_value (edges Horizontal last) self.now.colors }
    {
        self.colors.bottom.as_ref()
    }

    /// Returns the color of the edges of the first vertical line.
    pub fn get_colors_left(&self) -> Option<&Color>
        ensures { option_copied result ≡ class_value (edges Vertical first) self.now.colors }
    {
        self.colors.left.as_ref()
    }

    /// Returns the color of the edges of the last vertical line.
    pub fn get_colors_right(&self) -> Option<&Color>
        ensures { option_copied result ≡ class_value (edges Vertical last) self.now.colors }
    {
        self.colors.right.as_ref()
    }

    /// Returns the color of the upper left corner.
    pub fn get_colors_corner_top_left(&self) -> Option<&Color>
        ensures { option_copied result ≡ class_value (crossings first first) self.now.colors }
    {
        self.colors.top_left.as_ref()
    }

    /// Returns the color of the upper right corner.
    pub fn get_colors_corner_top_right(&self) -> Option<&Color>
        ensures { option_copied result ≡ class_value (crossings first last) self.now.colors }
    {
        self.colors.top_right.as_ref()
    }

    /// Returns the color of the lower left corner.
    pub fn get_colors_corner_bottom_left(&self) -> Option<&Color>
        ensures { option_copied result ≡ class_value (crossings last first) self.now.colors }
    {
        self.colors.bottom_left.as_ref()
    }

    /// Returns the color of the lower right corner.
    pub fn get_colors_corner_bottom_right(&self) -> Option<&Color>
        ensures { option_copied result ≡ class_value (crossings last last) self.now.colors }
    {
        self.colors.bottom_right.as_ref()
    }

    /// Returns the color of the crossings on the first horizontal line, the corners aside.
    pub fn get_colors_intersection_top(&self) -> Option<&Color>
        ensures { option_copied result ≡ class_value (crossings first inner) self.now.colors }
    {
        self.colors.top_intersection.as_ref()
    }

    /// Returns the color of the crossings on the last horizontal line, the corners aside.
    pub fn get_colors_intersection_bottom(&self) -> Option<&Color>
        ensures { option_copied result ≡ class_value (crossings last inner) self.now.colors }
    {
        self.colors.bottom_intersection.as_ref()
    }

    /// Returns the color of the crossings on the first vertical line, the corners aside.
    pub fn get_colors_intersection_left(&self) -> Option<&Color>
        ensures { option_copied result ≡ class_value (crossings inner first) self.now.colors }
    {
        self.colors.left_intersection.as_ref()
    }

    /// Returns the color of the crossings on the last vertical line, the corners aside.
    pub fn get_colors_intersection_right(&self) -> Option<&Color>
        ensures { option_copied result ≡ class_value (crossings inner last) self.now.colors }
    {
        self.colors.right_intersection.as_ref()
    }

    /// Returns the color of the crossings of inner lines.
    pub fn get_colors_intersection(&self) -> Option<&Color>
        ensures { option_copied result ≡ class_value (crossings inner inner) self.now.colors }
    {
        self.colors.intersection.as_ref()
    }

    /// Returns the color of the edges of the inner horizontal lines.
    pub fn get_colors_horizontal(&self) -> Option<&Color>
        ensures { option_copied result ≡ class_value (edges Horizontal inner) self.now.colors }
    {
        self.colors.horizontal.as_ref()
    }

    /// Returns the color of the edges of the inner vertical lines.
    pub fn get_colors_vertical(&self) -> Option<&Color>
        ensures { option_copied result ≡ class_value (edges Vertical inner) self.now.colors }
    {
        self.colors.vertical.as_ref()
    }

    /// Drops the color of the edges of the first horizontal line.
    pub fn remove_colors_top(&mut self)
        ensures { self.new ≡ with_color (edges Horizontal first) None self.old }
    {
        put(&mut self.colors.top, None);
    }

    /// Drops the color of the edges of the last horizontal line.
    pub fn remove_colors_bottom(&mut self)
        ensures { self.new ≡ with_color (edges Horizontal last) None self.old }
    {
        put(&mut self.colors.bottom, None);
    }

    /// Drops the color of the edges of the first vertical line.
    pub fn remove_colors_left(&mut self)
        ensures { self.new ≡ with_color (edges Vertical first) None self.old }
    {
        put(&mut self.colors.left, None);
    }

    /// Drops the color of the edges of the last vertical line.
    pub fn remove_colors_right(&mut self)
        ensures { self.new ≡ with_color (edges Vertical last) None self.old }
    {
        put(&mut self.colors.right, None);
    }

    /// Drops the color of the upper left corner.
    pub fn remove_colors_corner_top_left(&mut self)
        ensures { self.new ≡ with_color (crossings first first) None self.old }
    {
        put(&mut self.colors.top_left, None);
    }

    /// Drops the color of the upper right corner.
    pub fn remove_colors_corner_top_right(&mut self)
        ensures { self.new ≡ with_color (crossings first last) None self.old }
    {
        put(&mut self.colors.top_right, None);
    }

    /// Drops the color of the lower left corner.
    pub fn remove_colors_corner_bottom_left(&mut self)
        ensures { self.new ≡ with_color (crossings last first) None self.old }
    {
        put(&mut self.colors.bottom_left, None);
    }

    /// Drops the color of the lower right corner.
    pub fn remove_colors_corner_bottom_right(&mut self)
        ensures { self.new ≡ with_color (crossings last last) None self.old }
    {
        put(&mut self.colors.bottom_right, None);
    }

    /// Drops the color of the crossings on the first horizontal line, the corners aside.
    pub fn remove_colors_intersection_top(&mut self)
        ensures { self.new ≡ with_color (crossings first inner) None self.old }
    {
        put(&mut self.colors.top_intersection, None);
    }

    /// Drops the color of the crossings on the last horizontal line, the corners aside.
    pub fn remove_colors_intersection_bottom(&mut self)
        ensures { self.new ≡ with_color (crossings last inner) None self.old }
    {
        put(&mut self.colors.bottom_intersection, None);
    }

    /// Drops the color of the crossings on the first vertical line, the corners aside.
    pub fn remove_colors_intersection_left(&mut self)
        ensures { self.new ≡ with_color (crossings inner first) None self.old }
    {
        put(&mut self.colors.left_intersection, None);
    }

    /// Drops the color of the crossings on the last vertical line, the corners aside.
    pub fn remove_colors_intersection_right(&mut self)
        ensures { self.new ≡ with_color (crossings inner last) None self.old }
    {
        put(&mut self.colors.right_intersection, None);
    }

    /// Drops the color of the crossings of inner lines.
    pub fn remove_colors_intersection(&mut self)
        ensures { self.new ≡ with_color (crossings inner inner) None self.old }
    {
        put(&mut self.colors.intersection, None);
    }

    /// Drops the color of the edges of the inner horizontal lines.
    pub fn remove_colors_horizontal(&mut self)
        ensures { self.new ≡ with_color (edges Horizontal inner) None self.old }
    {
        put(&mut self.colors.horizontal, None);
    }

    /// Drops the color of the edges of the inner vertical lines.
    pub fn remove_colors_vertical(&mut self)
        ensures { self.new ≡ with_color (edges Vertical inner) None self.old }
    {
        put(&mut self.colors.vertical, None);
    }
}
