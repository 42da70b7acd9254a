//! A theme: what a style draws, to be changed field by field.

ghost use Rattle.std.specs.Prelude.{◌≡◌, [], IfOk, IsOk};
ghost use Rattle.tabled_places.specs.CustomLines.{no_borders};
ghost use Rattle.tabled_theme.specs.Shown.{of_borders, of_style, of_configuration};

mod characters;
mod colors;
mod compact;
mod fields;
mod keep;
mod lines;
mod option;
mod ready;
mod records;

use crate::line_map::LineMap;
use fields::copied;
use std::alloc::Global;
use std::marker::Model;
use tabled_border::OutOfMemory;
use tabled_changes::ColoredConfig;
use tabled_color::Color;
use tabled_grid::{Borders, HorizontalLine, VerticalLine};
use tabled_style::Style;

/// Border characters and border colors of a whole table, and custom lines: those that were set, and beneath them
/// those that came with a style, of which one shows where none was set at its index.
///
/// As an option a theme draws a table anew, as a style does. `Theme::from_style(alloc, Style::rounded())?`, and the same after
/// `set_borders_vertical(':')`:
///
/// ```text
/// ╭───┬───╮     ╭───┬───╮
/// │ a │ b │     │ a : b │
/// ├───┼───┤     ├───┼───┤
/// │ c │ d │     │ c : d │
/// ╰───┴───╯     ╰───┴───╯
/// ```
///
/// The pictures of the calls below begin with the theme of the style `ascii`. Which places the fifteen fields are that have a
/// call each is shown at [`Borders`].
#[derive(Debug, PartialEq, Eq)]
pub struct Theme {
    characters: Borders<char>,
    colors: Borders<Color>,
    set_horizontals: LineMap<HorizontalLine<char>>,
    set_verticals: LineMap<VerticalLine<char>>,
    horizontals_beneath: LineMap<HorizontalLine<char>>,
    verticals_beneath: LineMap<VerticalLine<char>>,
}

/// Written out, so that dropping a theme is one call wherever its life ends.
impl Drop for Theme {
    fn drop(self) {
        let Theme {
            characters: _,
            colors,
            set_horizontals: _,
            set_verticals: _,
            horizontals_beneath: _,
            verticals_beneath: _,
        } = self;
        drop(colors);
    }
}

impl Model for Theme {
    ghost use Rattle.tabled_theme.specs.Shown.{ThemeShown, theme_code};

    ghost Value = { ThemeShown };

    ghost coded = { theme_code };

    ghost view = { λ theme. record {
      characters = theme.characters;
      colors = theme.colors;
      set = record { horizontals = theme.set_horizontals; verticals = theme.set_verticals };
      beneath = record { horizontals = theme.horizontals_beneath; verticals = theme.verticals_beneath };
    } };

    ghost inverse = { λ shown. record {
      characters = shown.characters;
      colors = shown.colors;
      set_horizontals = shown.set.horizontals;
      set_verticals = shown.set.verticals;
      horizontals_beneath = shown.beneath.horizontals;
      verticals_beneath = shown.beneath.verticals;
    } };
}

impl Theme {
    /// Makes a theme with nothing set. It keeps the allocator for the lines that are put later.
    pub fn new(alloc: Global) -> Self
        ensures { result ≡ of_borders no_borders }
    {
        Theme::from_borders(alloc, Borders::empty())
    }

    /// Makes a theme of a class record alone.
    ///
    /// `Theme::from_borders(alloc, Style::rounded().get_borders())`, which leaves the custom line of that style out:
    ///
    /// ```text
    /// ╭───┬───╮
    /// │ a │ b │
    /// │ c │ d │
    /// ╰───┴───╯
    /// ```
    pub fn from_borders(alloc: Global, borders: Borders<char>) -> Self
        ensures { result ≡ of_borders borders }
    {
        Theme {
            characters: borders,
            colors: Borders::empty(),
            set_horizontals: LineMap::new(alloc),
            set_verticals: LineMap::new(alloc),
            horizontals_beneath: LineMap::new(alloc),
            verticals_beneath: LineMap::new(alloc),
        }
    }

    /// Makes the theme of what a style draws. Its custom lines lie beneath: of two at one index the later one counts.
    /// Without custom lines it takes no memory and returns Ok.
    pub fn from_style<T, B, L, R, H, V, const HN: usize, const VN: usize>(
        alloc: Global,
        style: Style<T, B, L, R, H, V, HN, VN>,
    ) -> Result<Self, OutOfMemory>
        ensures theme { IfOk result (λ theme. theme ≡ of_style style) }
        ensures without_lines { style.horizontals ≡ [] → style.verticals ≡ [] → IsOk result }
    {
        let horizontals_beneath = LineMap::of_list(alloc, style.get_horizontals())?;
        let verticals_beneath = LineMap::of_list(alloc, style.get_verticals())?;
        Ok(Theme {
            characters: style.get_borders(),
            colors: Borders::empty(),
            set_horizontals: LineMap::new(alloc),
            set_verticals: LineMap::new(alloc),
            horizontals_beneath,
            verticals_beneath,
        })
    }

    /// Makes the theme of what the class level and the custom lines of a configuration draw. The lines are lines that were set; each color
    /// is a copy that owns its texts.
    pub fn from_config(alloc: Global, cfg: &ColoredConfig) -> Result<Self, OutOfMemory>
        ensures { IfOk result (λ theme. theme ≡ of_configuration cfg.now.spanned) }
    {
        let config = cfg.config();
        let set_horizontals = LineMap::of(config.get_horizontal_lines()?);
        let set_verticals = LineMap::of(config.get_vertical_lines()?);
        let colors = copied(alloc, config.get_color_borders())?;
        Ok(Theme {
            characters: *config.get_borders(),
            colors,
            set_horizontals,
            set_verticals,
            horizontals_beneath: LineMap::new(alloc),
            verticals_beneath: LineMap::new(alloc),
        })
    }
}
