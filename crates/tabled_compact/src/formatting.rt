//! How the lines of a cell's text are laid out.

ghost use Rattle.std.specs.Prelude.{◌≡◌};

/// How the lines of a cell's text are laid out. By default nothing is trimmed, and the text is aligned as a whole.
#[derive(Clone, Copy, Debug, Default, PartialEq, Eq)]
pub struct Formatting {
    /// Whether spaces at the ends of lines are left out.
    pub horizontal_trim: bool,
    /// Whether empty lines above and below the text are left out.
    pub vertical_trim: bool,
    /// Whether each line is aligned by itself.
    pub allow_lines_alignment: bool,
}

impl Formatting {
    /// Makes the formatting with these three.
    pub const fn new(
        horizontal_trim: bool,
        vertical_trim: bool,
        allow_lines_alignment: bool,
    ) -> Self
        ensures { result ≡ record { horizontal_trim = horizontal_trim; vertical_trim = vertical_trim; allow_lines_alignment = allow_lines_alignment } }
    {
        Formatting {
            horizontal_trim,
            vertical_trim,
            allow_lines_alignment,
        }
    }
}
