//! Colors as values.

use std::alloc::Global;
use tabled_color::Color;
use tabled_grid::OutOfMemory;

/// Whether a color has these two texts.
fn is_of(color: &Color, prefix: &str, suffix: &str) -> bool {
    color.get_prefix() == prefix && color.get_suffix() == suffix
}

/// A color of these texts; one without texts where there is no memory for it.
fn made(alloc: Global, prefix: &str, suffix: &str) -> Color {
    Color::new(alloc, prefix, suffix).unwrap_or(Color::empty())
}

/// Two colors joined; a color without texts where there is no memory for it.
fn joined(alloc: Global, first: Color, second: Color) -> Color {
    let joined = first.join(alloc, &second).unwrap_or(Color::empty());
    drop(first);
    drop(second);
    joined
}

/// Whether a color has these two texts.
fn has_texts(color: Color, prefix: &str, suffix: &str) -> bool {
    let has_texts = is_of(&color, prefix, suffix);
    drop(color);
    has_texts
}

/// A color of dots joined with another.
fn dots(alloc: Global) -> Color {
    joined(alloc, made(alloc, "...", "!!!"), made(alloc, "@@@", "###"))
}

/// That one joined with a third.
fn three(alloc: Global) -> Color {
    joined(alloc, dots(alloc), made(alloc, "$$$", "%%%"))
}

/// The color of a text and of what is behind it.
fn black_on_white(alloc: Global) -> Color {
    let white = Color::rgb_bg(alloc, 255, 255, 255);
    let black = Color::rgb_fg(alloc, 0, 0, 0);
    let (white, black) = (
        white.unwrap_or(Color::empty()),
        black.unwrap_or(Color::empty()),
    );
    joined(alloc, white, black)
}

#[test]
fn colors_are_joined(rt: HostRuntime) {
    let alloc = rt.alloc();
    let black = joined(alloc, Color::FG_BLACK, Color::FG_BLUE);
    assert!(rt; has_texts(black, "\u{1b}[30m\u{1b}[34m", "\u{1b}[39m"));
    let green = joined(alloc, Color::FG_BRIGHT_GREEN, Color::BG_BLUE);
    assert!(rt; has_texts(green, "\u{1b}[92m\u{1b}[44m", "\u{1b}[39m\u{1b}[49m"));
    assert!(rt; has_texts(dots(alloc), "...@@@", "!!!###"));
    assert!(rt; has_texts(three(alloc), "...@@@$$$", "!!!###%%%"));
    let (prefix, suffix) = (
        "\u{1b}[48;2;255;255;255m\u{1b}[38;2;0;0;0m",
        "\u{1b}[49m\u{1b}[39m",
    );
    assert!(rt; has_texts(black_on_white(alloc), prefix, suffix));
    let green = Color::rgb_bg(alloc, 0, 255, 128).unwrap_or(Color::empty());
    assert!(rt; has_texts(green, "\u{1b}[48;2;0;255;128m", "\u{1b}[49m"));
}

/// Whether two colors are equal, and have texts.
fn are_equal(first: Color, second: Color) -> bool {
    let are_equal = first == second && !first.is_empty();
    drop(first);
    drop(second);
    are_equal
}

/// Whether a constant is unequal to an owned color of its texts, and the lesser of the two.
fn constant_is_lesser(owned: Color) -> bool {
    let is_lesser = !owned.is_empty() && Color::FG_RED != owned && Color::FG_RED < owned;
    drop(owned);
    is_lesser
}

/// Whether a text is in red as it should be.
fn is_colorized(alloc: Global) -> bool {
    let colored = Color::FG_RED.colorize(alloc, "a\r\nb\n");
    let colored = colored.unwrap_or(String::new(alloc));
    let is_colorized = colored.as_str() == "\u{1b}[31ma\u{1b}[39m\n\u{1b}[31mb\u{1b}[39m";
    drop(colored);
    is_colorized
}

#[test]
fn colors_are_compared_and_put_around_texts(rt: HostRuntime) {
    let alloc = rt.alloc();
    assert!(rt; are_equal(dots(alloc), made(alloc, "...@@@", "!!!###")));
    assert!(rt; are_equal(three(alloc), made(alloc, "...@@@$$$", "!!!###%%%")));
    assert!(rt; constant_is_lesser(made(alloc, "\u{1b}[31m", "\u{1b}[39m")));
    assert!(rt; is_colorized(alloc));
}

/// Whether a color is empty.
fn is_empty(color: Color) -> bool {
    let is_empty = color.is_empty();
    drop(color);
    is_empty
}

/// Whether a color of these texts is empty, if there was memory for it.
fn made_is_empty(alloc: Global, prefix: &str, suffix: &str) -> Option<bool> {
    match Color::new(alloc, prefix, suffix) {
        Ok(color) => Some(is_empty(color)),
        Err(OutOfMemory) => None,
    }
}

/// Whether an attribute has these texts, and is not empty.
fn is_attribute(color: Color, prefix: &str, suffix: &str) -> bool {
    let is_attribute = is_of(&color, prefix, suffix) && !color.is_empty();
    drop(color);
    is_attribute
}

#[test]
fn attributes_have_texts(rt: HostRuntime) {
    assert!(rt; is_attribute(Color::BOLD, "\u{1b}[1m", "\u{1b}[22m"));
    assert!(rt; is_attribute(Color::DIMMED, "\u{1b}[2m", "\u{1b}[22m"));
    assert!(rt; is_attribute(Color::ITALIC, "\u{1b}[3m", "\u{1b}[23m"));
    assert!(rt; is_attribute(Color::UNDERLINE, "\u{1b}[4m", "\u{1b}[24m"));
    assert!(rt; is_attribute(Color::BLINK, "\u{1b}[5m", "\u{1b}[25m"));
    assert!(rt; is_attribute(Color::INVERT, "\u{1b}[7m", "\u{1b}[27m"));
    assert!(rt; is_attribute(Color::HIDDEN, "\u{1b}[8m", "\u{1b}[28m"));
    assert!(rt; is_attribute(Color::STRIKETHROUGH, "\u{1b}[9m", "\u{1b}[29m"));
    assert!(rt; is_attribute(Color::RESET, "\u{1b}[0m", "\u{1b}[0m"));
}

#[test]
fn colors_without_texts_are_empty(rt: HostRuntime) {
    assert!(rt; is_empty(Color::empty()));
    assert!(rt; made_is_empty(rt.alloc(), "", "") == Some(true));
    assert!(rt; made_is_empty(rt.alloc(), "a", "b") == Some(false));
    assert!(rt; !is_empty(Color::FG_BLACK));
    assert!(rt; !is_empty(Color::BG_RED));
}
