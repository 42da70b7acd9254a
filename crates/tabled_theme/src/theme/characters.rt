//! The characters of a theme's class record, one field at a time.

ghost use Rattle.std.specs.Prelude.{◌≡◌, Some, None};
ghost use Rattle.tabled_places.specs.declared.site.Class.TheVariants.{Edges as edges, Crossings as crossings};
ghost use Rattle.tabled_places.specs.declared.site.Direction.TheVariants.{Horizontal, Vertical};
ghost use Rattle.tabled_places.specs.declared.place.Rank.TheVariants.{First as first, Inner as inner, Last as last};
ghost use Rattle.tabled_places.specs.Site.{class_value};
ghost use Rattle.tabled_theme.specs.Changing.{with_character};

use super::Theme;

impl Theme {
    /// Sets the character of the edges of the first horizontal line.
    ///
    /// `set_borders_top('=')`. The crossings and corners have fields of their own:
    ///
    /// ```text
    /// +===+===+
    /// | a | b |
    /// +---+---+
    /// | c | d |
    /// +---+---+
    /// ```
    pub fn set_borders_top(&mut self, c: char)
        ensures { self.new ≡ with_character (edges Horizontal first) (Some c) self.old }
    {
        self.characters.top = Some(c);
    }

    /// Sets the character of the edges of the last horizontal line.
    pub fn set_borders_bottom(&mut self, c: char)
        ensures { self.new ≡ with_character (edges Horizontal last) (Some c) self.old }
    {
        self.characters.bottom = Some(c);
    }

    /// Sets the character of the edges of the first vertical line.
    pub fn set_borders_left(&mut self, c: char)
        ensures { self.new ≡ with_character (edges Vertical first) (Some c) self.old }
    {
        self.characters.left = Some(c);
    }

    /// Sets the character of the edges of the last vertical line.
    pub fn set_borders_right(&mut self, c: char)
        ensures { self.new ≡ with_character (edges Vertical last) (Some c) self.old }
    {
        self.characters.right = Some(c);
    }

    /// Sets the character of the upper left corner.
    ///
    /// `set_borders_corner_top_left('*')`:
    ///
    /// ```text
    /// *---+---+
    /// | a | b |
    /// ```
    pub fn set_borders_corner_top_left(&mut self, c: char)
        ensures { self.new ≡ with_character (crossings first first) (Some c) self.old }
    {
        self.characters.top_left = Some(c);
    }

    /// Sets the character of the upper right corner.
    pub fn set_borders_corner_top_right(&mut self, c: char)
        ensures { self.new ≡ with_character (crossings first last) (Some c) self.old }
    {
        self.characters.top_right = Some(c);
    }

    /// Sets the character of the lower left corner.
    pub fn set_borders_corner_bottom_left(&mut self, c: char)
        ensures { self.new ≡ with_character (crossings last first) (Some c) self.old }
    {
        self.characters.bottom_left = Some(c);
    }

    /// Sets the character of the lower right corner.
    pub fn set_borders_corner_bottom_right(&mut self, c: char)
        ensures { self.new ≡ with_character (crossings last last) (Some c) self.old }
    {
        self.characters.bottom_right = Some(c);
    }

    /// Sets the character of the crossings on the first horizontal line, the corners aside.
    ///
    /// `set_borders_intersection_top('*')`:
    ///
    /// ```text
    /// +---*---+
    /// | a | b |
    /// ```
    pub fn set_borders_intersection_top(&mut self, c: char)
        ensures { self.new ≡ with_character (crossings first inner) (Some c) self.old }
    {
        self.characters.top_intersection = Some(c);
    }

    /// Sets the character of the crossings on the last horizontal line, the corners aside.
    pub fn set_borders_intersection_bottom(&mut self, c: char)
        ensures { self.new ≡ with_character (crossings last inner) (Some c) self.old }
    {
        self.characters.bottom_intersection = Some(c);
    }

    /// Sets the character of the crossings on the first vertical line, the corners aside.
    pub fn set_borders_intersection_left(&mut self, c: char)
        ensures { self.new ≡ with_character (crossings inner first) (Some c) self.old }
    {
        self.characters.left_intersection = Some(c);
    }

    /// Sets the character of the crossings on the last vertical line, the corners aside.
    pub fn set_borders_intersection_right(&mut self, c: char)
        ensures { self.new ≡ with_character (crossings inner last) (Some c) self.old }
    {
        self.characters.right_intersection = Some(c);
    }

    /// Sets the character of the crossings of inner lines.
    pub fn set_borders_intersection(&mut self, c: char)
        ensures { self.new ≡ with_character (crossings inner inner) (Some c) self.old }
    {
        self.characters.intersection = Some(c);
    }

    /// Sets the character of the edges of the inner horizontal lines.
    pub fn set_borders_horizontal(&mut self, c: char)
        ensures { self.new ≡ with_character (edges Horizontal inner) (Some c) self.old }
    {
        self.characters.horizontal = Some(c);
    }

    /// Sets the character of the edges of the inner vertical lines.
    pub fn set_borders_vertical(&mut self, c: char)
        ensures { self.new ≡ with_character (edges Vertical inner) (Some c) self.old }
    {
        self.characters.vertical = Some(c);
    }

    /// Returns the character of the edges of the first horizontal line.
    pub fn get_borders_top(&self) -> Option<char>
        ensures { result ≡ class_value (edges Horizontal first) self.now.characters }
    {
        self.characters.top
    }

    /// Returns the character of the edges of the last horizontal line.
    pub fn get_borders_bottom(&self) -> Option<char>
        ensures { result ≡ class_value (edges Horizontal last) self.now.characters }
    {
        self.characters.bottom
    }

    /// Returns the character of the edges of the first vertical line.
    pub fn get_borders_left(&self) -> Option<char>
        ensures { result ≡ class_value (edges Vertical first) self.now.characters }
    {
        self.characters.left
    }

    /// Returns the character of the edges of the last vertical line.
    pub fn get_borders_right(&self) -> Option<char>
        ensures { result ≡ class_value (edges Vertical last) self.now.characters }
    {
        self.characters.right
    }

    /// Returns the character of the upper left corner.
    pub fn get_borders_corner_top_left(&self) -> Option<char>
        ensures { result ≡ class_value (crossings first first) self.now.characters }
    {
        self.characters.top_left
    }

    /// Returns the character of the upper right corner.
    pub fn get_borders_corner_top_right(&self) -> Option<char>
        ensures { result ≡ class_value (crossings first last) self.now.characters }
    {
        self.characters.top_right
    }

    /// Returns the character of the lower left corner.
    pub fn get_borders_corner_bottom_left(&self) -> Option<char>
        ensures { result ≡ class_value (crossings last first) self.now.characters }
    {
        self.characters.bottom_left
    }

    /// Returns the character of the lower right corner.
    pub fn get_borders_corner_bottom_right(&self) -> Option<char>
        ensures { result ≡ class_value (crossings last last) self.now.characters }
    {
        self.characters.bottom_right
    }

    /// Returns the character of the crossings on the first horizontal line, the corners aside.
    pub fn get_borders_intersection_top(&self) -> Option<char>
        ensures { result ≡ class_value (crossings first inner) self.now.characters }
    {
        self.characters.top_intersection
    }

    /// Returns the character of the crossings on the last horizontal line, the corners aside.
    pub fn get_borders_intersection_bottom(&self) -> Option<char>
        ensures { result ≡ class_value (crossings last inner) self.now.characters }
    {
        self.characters.bottom_intersection
    }

    /// Returns the character of the crossings on the first vertical line, the corners aside.
    pub fn get_borders_intersection_left(&self) -> Option<char>
        ensures { result ≡ class_value (crossings inner first) self.now.characters }
    {
        self.characters.left_intersection
    }

    /// Returns the character of the crossings on the last vertical line, the corners aside.
    pub fn get_borders_intersection_right(&self) -> Option<char>
        ensures { result ≡ class_value (crossings inner last) self.now.characters }
    {
        self.characters.right_intersection
    }

    /// Returns the character of the crossings of inner lines.
    pub fn get_borders_intersection(&self) -> Option<char>
        ensures { result ≡ class_value (crossings inner inner) self.now.characters }
    {
        self.characters.intersection
    }

    /// Returns the character of the edges of the inner horizontal lines.
    pub fn get_borders_horizontal(&self) -> Option<char>
        ensures { result ≡ class_value (edges Horizontal inner) self.now.characters }
    {
        self.characters.horizontal
    }

    /// Returns the character of the edges of the inner vertical lines.
    pub fn get_borders_vertical(&self) -> Option<char>
        ensures { result ≡ class_value (edges Vertical inner) self.now.characters }
    {
        self.characters.vertical
    }

    /// Drops the character of the edges of the first horizontal line.
    ///
    /// `remove_borders_top()`. The line is still drawn, as its crossings have something:
    ///
    /// ```text
    /// +   +   +
    /// | a | b |
    /// +---+---+
    /// | c | d |
    /// +---+---+
    /// ```
    pub fn remove_borders_top(&mut self)
        ensures { self.new ≡ with_character (edges Horizontal first) None self.old }
    {
        self.characters.top = None;
    }

    /// Drops the character of the edges of the last horizontal line.
    pub fn remove_borders_bottom(&mut self)
        ensures { self.new ≡ with_character (edges Horizontal last) None self.old }
    {
        self.characters.bottom = None;
    }

    /// Drops the character of the edges of the first vertical line.
    pub fn remove_borders_left(&mut self)
        ensures { self.new ≡ with_character (edges Vertical first) None self.old }
    {
        self.characters.left = None;
    }

    /// Drops the character of the edges of the last vertical line.
    pub fn remove_borders_right(&mut self)
        ensures { self.new ≡ with_character (edges Vertical last) None self.old }
    {
        self.characters.right = None;
    }

    /// Drops the character of the upper left corner.
    pub fn remove_borders_corner_top_left(&mut self)
        ensures { self.new ≡ with_character (crossings first first) None self.old }
    {
        self.characters.top_left = None;
    }

    /// Drops the character of the upper right corner.
    pub fn remove_borders_corner_top_right(&mut self)
        ensures { self.new ≡ with_character (crossings first last) None self.old }
    {
        self.characters.top_right = None;
    }

    /// Drops the character of the lower left corner.
    pub fn remove_borders_corner_bottom_left(&mut self)
        ensures { self.new ≡ with_character (crossings last first) None self.old }
    {
        self.characters.bottom_left = None;
    }

    /// Drops the character of the lower right corner.
    pub fn remove_borders_corner_bottom_right(&mut self)
        ensures { self.new ≡ with_character (crossings last last) None self.old }
    {
        self.characters.bottom_right = None;
    }

    /// Drops the character of the crossings on the first horizontal line, the corners aside.
    pub fn remove_borders_intersection_top(&mut self)
        ensures { self.new ≡ with_character (crossings first inner) None self.old }
    {
        self.characters.top_intersection = None;
    }

    /// Drops the character of the crossings on the last horizontal line, the corners aside.
    pub fn remove_borders_intersection_bottom(&mut self)
        ensures { self.new ≡ with_character (crossings last inner) None self.old }
    {
        self.characters.bottom_intersection = None;
    }

    /// Drops the character of the crossings on the first vertical line, the corners aside.
    pub fn remove_borders_intersection_left(&mut self)
        ensures { self.new ≡ with_character (crossings inner first) None self.old }
    {
        self.characters.left_intersection = None;
    }

    /// Drops the character of the crossings on the last vertical line, the corners aside.
    pub fn remove_borders_intersection_right(&mut self)
        ensures { self.new ≡ with_character (crossings inner last) None self.old }
    {
        self.characters.right_intersection = None;
    }

    /// Drops the character of the crossings of inner lines.
    pub fn remove_borders_intersection(&mut self)
        ensures { self.new ≡ with_character (crossings inner inner) None self.old }
    {
        self.characters.intersection = None;
    }

    /// Drops the character of the edges of the inner horizontal lines.
    pub fn remove_borders_horizontal(&mut self)
        ensures { self.new ≡ with_character (edges Horizontal inner) None self.old }
    {
        self.characters.horizontal = None;
    }

    /// Drops the character of the edges of the inner vertical lines.
    pub fn remove_borders_vertical(&mut self)
        ensures { self.new ≡ with_character (edges Vertical inner) None self.old }
    {
        self.characters.vertical = None;
    }
}
