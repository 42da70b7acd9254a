//! The class record and the class colors of a theme, whole and by their frame.

ghost use Rattle.std.specs.Prelude.{◌≡◌, option_copied};
ghost use Rattle.std.specs.Borrow.{Lends, sem};
ghost use Rattle.tabled_places.specs.Borders.{has_horizontal, has_vertical};
ghost use Rattle.tabled_places.specs.CustomLines.{no_borders};
ghost use Rattle.tabled_places.specs.contracts.borders.Borders.{the_row as borders_row};
ghost use Rattle.tabled_color.specs.contracts.color.Color.{the_row as color_row};
ghost use denote.Text.{Char};
ghost use Rattle.tabled_theme.specs.contracts.theme.Theme.{the_row};
ghost use Rattle.tabled_theme.specs.Fields.{frame_of, with_frame};

use super::Theme;
use super::fields::put_frame;
use std::mem;
use tabled_border::Border;
use tabled_color::Color;
use tabled_grid::{Borders, Rank};

impl Theme {
    /// Sets the class record whole.
    ///
    /// In the theme of the style `rounded`, whose custom line stays, `set_borders(Style::ascii().get_borders())`:
    ///
    /// ```text
    /// +---+---+
    /// | a | b |
    /// ├───┼───┤
    /// | c | d |
    /// +---+---+
    /// ```
    pub fn set_borders(&mut self, borders: Borders<char>)
        ensures { self.new ≡ record self.old { characters = borders } }
    {
        self.characters = borders;
    }

    /// Sets the class colors whole.
    pub fn set_colors(&mut self, colors: Borders<Color>)
        ensures { self.new ≡ record self.old { colors = colors } }
    {
        drop(mem::replace(&mut self.colors, colors));
    }

    /// Returns the class record.
    pub fn get_borders(&self) -> &Borders<char>
        ensures { result.now ≡ self.now.characters }
    {
        &self.characters
    }

    /// Returns the class colors.
    pub fn get_borders_colors(&self) -> &Borders<Color>
        ensures { result.now ≡ self.now.colors }
    {
        &self.colors
    }

    /// Returns the class record, to be changed. What is written there is this theme's.
    pub fn get_borders_mut(&mut self) -> &mut Borders<char>
        ensures* writes_back { sem 𝓛 (Lends the_row (borders_row Char) self.entry result (λ borders. record self.old { characters = borders })) }
        ensures value { result.now ≡ self.old.characters }
    {
        &mut self.characters
    }

    /// Returns the class colors, to be changed. What is written there is this theme's.
    pub fn get_colors_mut(&mut self) -> &mut Borders<Color>
        ensures* writes_back { sem 𝓛 (Lends the_row (borders_row color_row) self.entry result (λ colors. record self.old { colors = colors })) }
        ensures value { result.now ≡ self.old.colors }
    {
        &mut self.colors
    }

    /// Empties the class record. The custom lines stay.
    ///
    /// In the theme of the style `rounded`, `remove_borders()`. The ends and the crossings of the custom line still draw the
    /// three vertical lines, which have no characters of their own now:
    ///
    /// ```text
    ///   a   b
    /// ├───┼───┤
    ///   c   d
    /// ```
    pub fn remove_borders(&mut self)
        ensures { self.new ≡ record self.old { characters = no_borders } }
    {
        self.characters = Borders::empty();
    }

    /// Drops all class colors.
    pub fn remove_colors(&mut self)
        ensures { self.new ≡ record self.old { colors = no_borders } }
    {
        self.set_colors(Borders::empty());
    }

    /// Sets the four sides and the four corners of the class record; those that the frame does not give are dropped. The
    /// intersections stay.
    ///
    /// `set_frame(Border::filled('#'))`:
    ///
    /// ```text
    /// ####+####
    /// # a | b #
    /// +---+---+
    /// # c | d #
    /// ####+####
    /// ```
    pub fn set_frame(&mut self, frame: Border<char>)
        ensures { self.new ≡ record self.old { characters = with_frame frame self.old.characters } }
    {
        self.characters = put_frame(self.characters, frame);
    }

    /// Sets the colors of the four sides and the four corners; those that the frame does not give are dropped. The colors
    /// of the intersections stay.
    ///
    /// A frame with one color on all sides and corners, with `r` for each place that has it:
    ///
    /// ```text
    /// rrrr+rrrr
    /// r a | b r
    /// +---+---+
    /// r c | d r
    /// rrrr+rrrr
    /// ```
    pub fn set_frame_colors(&mut self, frame: Border<Color>)
        ensures { self.new ≡ record self.old { colors = with_frame frame self.old.colors } }
    {
        let colors = mem::replace(&mut self.colors, Borders::empty());
        self.set_colors(put_frame(colors, frame));
    }

    /// Returns the four sides and the four corners of the class record.
    pub fn get_frame(&self) -> Border<char>
        ensures { result ≡ frame_of self.now.characters }
    {
        Border {
            top: self.characters.top,
            bottom: self.characters.bottom,
            left: self.characters.left,
            right: self.characters.right,
            left_top_corner: self.characters.top_left,
            left_bottom_corner: self.characters.bottom_left,
            right_top_corner: self.characters.top_right,
            right_bottom_corner: self.characters.bottom_right,
        }
    }

    /// Returns the colors of the four sides and the four corners.
    pub fn get_frame_colors(&self) -> Border<&Color>
        ensures { record {
          top = option_copied result.top;
          bottom = option_copied result.bottom;
          left = option_copied result.left;
          right = option_copied result.right;
          left_top_corner = option_copied result.left_top_corner;
          left_bottom_corner = option_copied result.left_bottom_corner;
          right_top_corner = option_copied result.right_top_corner;
          right_bottom_corner = option_copied result.right_bottom_corner;
        } ≡ frame_of self.now.colors }
    {
        Border {
            top: self.colors.top.as_ref(),
            bottom: self.colors.bottom.as_ref(),
            left: self.colors.left.as_ref(),
            right: self.colors.right.as_ref(),
            left_top_corner: self.colors.top_left.as_ref(),
            left_bottom_corner: self.colors.bottom_left.as_ref(),
            right_top_corner: self.colors.top_right.as_ref(),
            right_bottom_corner: self.colors.bottom_right.as_ref(),
        }
    }

    /// Returns whether horizontal line 0 has something in the class record: its edges or one of its crossings.
    pub fn borders_has_top(&self) -> bool
        ensures { result ≡ has_horizontal Rank.First self.now.characters }
    {
        self.characters.has_top()
    }

    /// Returns whether the last horizontal line has something in the class record.
    pub fn borders_has_bottom(&self) -> bool
        ensures { result ≡ has_horizontal Rank.Last self.now.characters }
    {
        self.characters.has_bottom()
    }

    /// Returns whether vertical line 0 has something in the class record.
    pub fn borders_has_left(&self) -> bool
        ensures { result ≡ has_vertical Rank.First self.now.characters }
    {
        self.characters.has_left()
    }

    /// Returns whether the last vertical line has something in the class record.
    pub fn borders_has_right(&self) -> bool
        ensures { result ≡ has_vertical Rank.Last self.now.characters }
    {
        self.characters.has_right()
    }

    /// Returns whether the horizontal lines between have something in the class record.
    pub fn borders_has_horizontal(&self) -> bool
        ensures { result ≡ has_horizontal Rank.Inner self.now.characters }
    {
        self.characters.has_horizontal()
    }

    /// Returns whether the vertical lines between have something in the class record.
    pub fn borders_has_vertical(&self) -> bool
        ensures { result ≡ has_vertical Rank.Inner self.now.characters }
    {
        self.characters.has_vertical()
    }
}
