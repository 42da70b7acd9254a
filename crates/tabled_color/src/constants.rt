//! The colors and text attributes that every terminal knows.

use crate::color::{Color, Inner};

impl Color {
    /// Black characters.
    pub const FG_BLACK: Self = Color {
        inner: Inner::Static {
            prefix: "\u{1b}[30m",
            suffix: "\u{1b}[39m",
        },
    };

    /// Red characters.
    pub const FG_RED: Self = Color {
        inner: Inner::Static {
            prefix: "\u{1b}[31m",
            suffix: "\u{1b}[39m",
        },
    };

    /// Green characters.
    pub const FG_GREEN: Self = Color {
        inner: Inner::Static {
            prefix: "\u{1b}[32m",
            suffix: "\u{1b}[39m",
        },
    };

    /// Yellow characters.
    pub const FG_YELLOW: Self = Color {
        inner: Inner::Static {
            prefix: "\u{1b}[33m",
            suffix: "\u{1b}[39m",
        },
    };

    /// Blue characters.
    pub const FG_BLUE: Self = Color {
        inner: Inner::Static {
            prefix: "\u{1b}[34m",
            suffix: "\u{1b}[39m",
        },
    };

    /// Magenta characters.
    pub const FG_MAGENTA: Self = Color {
        inner: Inner::Static {
            prefix: "\u{1b}[35m",
            suffix: "\u{1b}[39m",
        },
    };

    /// Cyan characters.
    pub const FG_CYAN: Self = Color {
        inner: Inner::Static {
            prefix: "\u{1b}[36m",
            suffix: "\u{1b}[39m",
        },
    };

    /// White characters.
    pub const FG_WHITE: Self = Color {
        inner: Inner::Static {
            prefix: "\u{1b}[37m",
            suffix: "\u{1b}[39m",
        },
    };

    /// Bright black characters.
    pub const FG_BRIGHT_BLACK: Self = Color {
        inner: Inner::Static {
            prefix: "\u{1b}[90m",
            suffix: "\u{1b}[39m",
        },
    };

    /// Bright red characters.
    pub const FG_BRIGHT_RED: Self = Color {
        inner: Inner::Static {
            prefix: "\u{1b}[91m",
            suffix: "\u{1b}[39m",
        },
    };

    /// Bright green characters.
    pub const FG_BRIGHT_GREEN: Self = Color {
        inner: Inner::Static {
            prefix: "\u{1b}[92m",
            suffix: "\u{1b}[39m",
        },
    };

    /// Bright yellow characters.
    pub const FG_BRIGHT_YELLOW: Self = Color {
        inner: Inner::Static {
            prefix: "\u{1b}[93m",
            suffix: "\u{1b}[39m",
        },
    };

    /// Bright blue characters.
    pub const FG_BRIGHT_BLUE: Self = Color {
        inner: Inner::Static {
            prefix: "\u{1b}[94m",
            suffix: "\u{1b}[39m",
        },
    };

    /// Bright magenta characters.
    pub const FG_BRIGHT_MAGENTA: Self = Color {
        inner: Inner::Static {
            prefix: "\u{1b}[95m",
            suffix: "\u{1b}[39m",
        },
    };

    /// Bright cyan characters.
    pub const FG_BRIGHT_CYAN: Self = Color {
        inner: Inner::Static {
            prefix: "\u{1b}[96m",
            suffix: "\u{1b}[39m",
        },
    };

    /// Bright white characters.
    pub const FG_BRIGHT_WHITE: Self = Color {
        inner: Inner::Static {
            prefix: "\u{1b}[97m",
            suffix: "\u{1b}[39m",
        },
    };

    /// Black background.
    pub const BG_BLACK: Self = Color {
        inner: Inner::Static {
            prefix: "\u{1b}[40m",
            suffix: "\u{1b}[49m",
        },
    };

    /// Red background.
    pub const BG_RED: Self = Color {
        inner: Inner::Static {
            prefix: "\u{1b}[41m",
            suffix: "\u{1b}[49m",
        },
    };

    /// Green background.
    pub const BG_GREEN: Self = Color {
        inner: Inner::Static {
            prefix: "\u{1b}[42m",
            suffix: "\u{1b}[49m",
        },
    };

    /// Yellow background.
    pub const BG_YELLOW: Self = Color {
        inner: Inner::Static {
            prefix: "\u{1b}[43m",
            suffix: "\u{1b}[49m",
        },
    };

    /// Blue background.
    pub const BG_BLUE: Self = Color {
        inner: Inner::Static {
            prefix: "\u{1b}[44m",
            suffix: "\u{1b}[49m",
        },
    };

    /// Magenta background.
    pub const BG_MAGENTA: Self = Color {
        inner: Inner::Static {
            prefix: "\u{1b}[45m",
            suffix: "\u{1b}[49m",
        },
    };

    /// Cyan background.
    pub const BG_CYAN: Self = Color {
        inner: Inner::Static {
            prefix: "\u{1b}[46m",
            suffix: "\u{1b}[49m",
        },
    };

    /// White background.
    pub const BG_WHITE: Self = Color {
        inner: Inner::Static {
            prefix: "\u{1b}[47m",
            suffix: "\u{1b}[49m",
        },
    };

    /// Bright black background.
    pub const BG_BRIGHT_BLACK: Self = Color {
        inner: Inner::Static {
            prefix: "\u{1b}[100m",
            suffix: "\u{1b}[49m",
        },
    };

    /// Bright red background.
    pub const BG_BRIGHT_RED: Self = Color {
        inner: Inner::Static {
            prefix: "\u{1b}[101m",
            suffix: "\u{1b}[49m",
        },
    };

    /// Bright green background.
    pub const BG_BRIGHT_GREEN: Self = Color {
        inner: Inner::Static {
            prefix: "\u{1b}[102m",
            suffix: "\u{1b}[49m",
        },
    };

    /// Bright yellow background.
    pub const BG_BRIGHT_YELLOW: Self = Color {
        inner: Inner::Static {
            prefix: "\u{1b}[103m",
            suffix: "\u{1b}[49m",
        },
    };

    /// Bright blue background.
    pub const BG_BRIGHT_BLUE: Self = Color {
        inner: Inner::Static {
            prefix: "\u{1b}[104m",
            suffix: "\u{1b}[49m",
        },
    };

    /// Bright magenta background.
    pub const BG_BRIGHT_MAGENTA: Self = Color {
        inner: Inner::Static {
            prefix: "\u{1b}[105m",
            suffix: "\u{1b}[49m",
        },
    };

    /// Bright cyan background.
    pub const BG_BRIGHT_CYAN: Self = Color {
        inner: Inner::Static {
            prefix: "\u{1b}[106m",
            suffix: "\u{1b}[49m",
        },
    };

    /// Bright white background.
    pub const BG_BRIGHT_WHITE: Self = Color {
        inner: Inner::Static {
            prefix: "\u{1b}[107m",
            suffix: "\u{1b}[49m",
        },
    };

    /// Bold characters.
    pub const BOLD: Self = Color {
        inner: Inner::Static {
            prefix: "\u{1b}[1m",
            suffix: "\u{1b}[22m",
        },
    };

    /// Dimmed characters.
    pub const DIMMED: Self = Color {
        inner: Inner::Static {
            prefix: "\u{1b}[2m",
            suffix: "\u{1b}[22m",
        },
    };

    /// Italic characters.
    pub const ITALIC: Self = Color {
        inner: Inner::Static {
            prefix: "\u{1b}[3m",
            suffix: "\u{1b}[23m",
        },
    };

    /// Underlined characters.
    pub const UNDERLINE: Self = Color {
        inner: Inner::Static {
            prefix: "\u{1b}[4m",
            suffix: "\u{1b}[24m",
        },
    };

    /// Blinking characters.
    pub const BLINK: Self = Color {
        inner: Inner::Static {
            prefix: "\u{1b}[5m",
            suffix: "\u{1b}[25m",
        },
    };

    /// Characters and background exchanged.
    pub const INVERT: Self = Color {
        inner: Inner::Static {
            prefix: "\u{1b}[7m",
            suffix: "\u{1b}[27m",
        },
    };

    /// Hidden characters.
    pub const HIDDEN: Self = Color {
        inner: Inner::Static {
            prefix: "\u{1b}[8m",
            suffix: "\u{1b}[28m",
        },
    };

    /// Characters struck through.
    pub const STRIKETHROUGH: Self = Color {
        inner: Inner::Static {
            prefix: "\u{1b}[9m",
            suffix: "\u{1b}[29m",
        },
    };

    /// All colors and attributes switched off.
    pub const RESET: Self = Color {
        inner: Inner::Static {
            prefix: "\u{1b}[0m",
            suffix: "\u{1b}[0m",
        },
    };
}
