//! The texts of colors.

ghost use Rattle.std.specs.Prelude.{◌≡◌, ◌↔◌, [], ◌∷◌, true, false, codes, IsTrue, IfOk, string_bytes, if◌then◌else◌, None, IsOk, option_map};
ghost use Rattle.tabled_color.specs.Shade.{Shade, texts_of, static_shade, owned_shade, sequence, rgb_sequence, joined};
ghost use Rattle.tabled_color.specs.Painting.{colorized};
ghost use Rattle.tabled_border.specs.Texts.{Texts};
ghost use Rattle.tabled_border.specs.LentTexts.{lent_texts};
ghost use Rattle.tabled_border.specs.declared.ansi.ANSIStr.{ANSIStr as Lent};

use std::alloc::Global;
use std::cmp::Ordering;
use std::hash::Hash;
use tabled_border::{ANSIBuf, ANSIFmt, ANSIStr, AnsiText, OutOfMemory};
use tabled_color::Color;

/// The eight colors of characters by the texts that terminals know them by: black, red, green, yellow, blue, magenta, cyan, white.
pub fn colors_of_characters() -> [Color; 8]
    ensures { result ≡ static_shade (sequence (codes "30")) (sequence (codes "39"))
        ∷ static_shade (sequence (codes "31")) (sequence (codes "39"))
        ∷ static_shade (sequence (codes "32")) (sequence (codes "39"))
        ∷ static_shade (sequence (codes "33")) (sequence (codes "39"))
        ∷ static_shade (sequence (codes "34")) (sequence (codes "39"))
        ∷ static_shade (sequence (codes "35")) (sequence (codes "39"))
        ∷ static_shade (sequence (codes "36")) (sequence (codes "39"))
        ∷ static_shade (sequence (codes "37")) (sequence (codes "39")) ∷ [] }
{
    [
        Color::FG_BLACK,
        Color::FG_RED,
        Color::FG_GREEN,
        Color::FG_YELLOW,
        Color::FG_BLUE,
        Color::FG_MAGENTA,
        Color::FG_CYAN,
        Color::FG_WHITE,
    ]
}

/// The bright ones, in the same order.
pub fn bright_colors_of_characters() -> [Color; 8]
    ensures { result ≡ static_shade (sequence (codes "90")) (sequence (codes "39"))
        ∷ static_shade (sequence (codes "91")) (sequence (codes "39"))
        ∷ static_shade (sequence (codes "92")) (sequence (codes "39"))
        ∷ static_shade (sequence (codes "93")) (sequence (codes "39"))
        ∷ static_shade (sequence (codes "94")) (sequence (codes "39"))
        ∷ static_shade (sequence (codes "95")) (sequence (codes "39"))
        ∷ static_shade (sequence (codes "96")) (sequence (codes "39"))
        ∷ static_shade (sequence (codes "97")) (sequence (codes "39")) ∷ [] }
{
    [
        Color::FG_BRIGHT_BLACK,
        Color::FG_BRIGHT_RED,
        Color::FG_BRIGHT_GREEN,
        Color::FG_BRIGHT_YELLOW,
        Color::FG_BRIGHT_BLUE,
        Color::FG_BRIGHT_MAGENTA,
        Color::FG_BRIGHT_CYAN,
        Color::FG_BRIGHT_WHITE,
    ]
}

/// The eight colors of the background, in the same order.
pub fn colors_of_the_background() -> [Color; 8]
    ensures { result ≡ static_shade (sequence (codes "40")) (sequence (codes "49"))
        ∷ static_shade (sequence (codes "41")) (sequence (codes "49"))
        ∷ static_shade (sequence (codes "42")) (sequence (codes "49"))
        ∷ static_shade (sequence (codes "43")) (sequence (codes "49"))
        ∷ static_shade (sequence (codes "44")) (sequence (codes "49"))
        ∷ static_shade (sequence (codes "45")) (sequence (codes "49"))
        ∷ static_shade (sequence (codes "46")) (sequence (codes "49"))
        ∷ static_shade (sequence (codes "47")) (sequence (codes "49")) ∷ [] }
{
    [
        Color::BG_BLACK,
        Color::BG_RED,
        Color::BG_GREEN,
        Color::BG_YELLOW,
        Color::BG_BLUE,
        Color::BG_MAGENTA,
        Color::BG_CYAN,
        Color::BG_WHITE,
    ]
}

/// The bright ones of the background, in the same order.
pub fn bright_colors_of_the_background() -> [Color; 8]
    ensures { result ≡ static_shade (sequence (codes "100")) (sequence (codes "49"))
        ∷ static_shade (sequence (codes "101")) (sequence (codes "49"))
        ∷ static_shade (sequence (codes "102")) (sequence (codes "49"))
        ∷ static_shade (sequence (codes "103")) (sequence (codes "49"))
        ∷ static_shade (sequence (codes "104")) (sequence (codes "49"))
        ∷ static_shade (sequence (codes "105")) (sequence (codes "49"))
        ∷ static_shade (sequence (codes "106")) (sequence (codes "49"))
        ∷ static_shade (sequence (codes "107")) (sequence (codes "49")) ∷ [] }
{
    [
        Color::BG_BRIGHT_BLACK,
        Color::BG_BRIGHT_RED,
        Color::BG_BRIGHT_GREEN,
        Color::BG_BRIGHT_YELLOW,
        Color::BG_BRIGHT_BLUE,
        Color::BG_BRIGHT_MAGENTA,
        Color::BG_BRIGHT_CYAN,
        Color::BG_BRIGHT_WHITE,
    ]
}

/// Bold, dimmed, italic, underlined and blinking characters, those in the color of the background, hidden ones, those that are struck
/// through, and the end of all colors and attributes.
pub fn attributes() -> [Color; 9]
    ensures { result ≡ static_shade (sequence (codes "1")) (sequence (codes "22"))
        ∷ static_shade (sequence (codes "2")) (sequence (codes "22"))
        ∷ static_shade (sequence (codes "3")) (sequence (codes "23"))
        ∷ static_shade (sequence (codes "4")) (sequence (codes "24"))
        ∷ static_shade (sequence (codes "5")) (sequence (codes "25"))
        ∷ static_shade (sequence (codes "7")) (sequence (codes "27"))
        ∷ static_shade (sequence (codes "8")) (sequence (codes "28"))
        ∷ static_shade (sequence (codes "9")) (sequence (codes "29"))
        ∷ static_shade (sequence (codes "0")) (sequence (codes "0")) ∷ [] }
{
    [
        Color::BOLD,
        Color::DIMMED,
        Color::ITALIC,
        Color::UNDERLINE,
        Color::BLINK,
        Color::INVERT,
        Color::HIDDEN,
        Color::STRIKETHROUGH,
        Color::RESET,
    ]
}

/// A color of characters by its red, green and blue part, in decimal.
pub fn characters_by_parts(alloc: Global, r: u8, g: u8, b: u8) -> Result<Color, OutOfMemory>
    ensures { IfOk result (λ color. color ≡ owned_shade (rgb_sequence (codes "38") r g b) (sequence (codes "39"))) }
{
    Color::rgb_fg(alloc, r, g, b)
}

/// A color of the background by its red, green and blue part, in decimal.
pub fn background_by_parts(alloc: Global, r: u8, g: u8, b: u8) -> Result<Color, OutOfMemory>
    ensures { IfOk result (λ color. color ≡ owned_shade (rgb_sequence (codes "48") r g b) (sequence (codes "49"))) }
{
    Color::rgb_bg(alloc, r, g, b)
}

/// A color of any two texts.
pub fn color_of_texts(alloc: Global, prefix: &str, suffix: &str) -> Result<Color, OutOfMemory>
    ensures { IfOk result (λ color. color ≡ owned_shade prefix.now suffix.now) }
{
    Color::new(alloc, prefix, suffix)
}

/// Two colors at once: each text of the first, followed by that of the second where the two differ.
pub fn two_colors_joined(alloc: Global, first: &Color, second: &Color) -> Result<Color, OutOfMemory>
    ensures { IfOk result (λ color. color ≡ joined first.now second.now) }
{
    first.join(alloc, second)
}

/// Joined with the empty color a color keeps its texts.
pub fn joined_with_empty()
    ensures { (color : Shade) → texts_of (joined color (static_shade [] [])) ≡ texts_of color }
{}

/// A text in color: the texts of the color stand around each of its lines, and around no line feed.
pub fn text_in_color(alloc: Global, color: &Color, text: &str) -> Result<String, OutOfMemory>
    ensures { IfOk result (λ colored. string_bytes colored ≡ colorized color.now text.now) }
{
    color.colorize(alloc, text)
}

/// A color without texts.
pub fn no_color_at_all() -> Color
    ensures { result ≡ static_shade [] [] }
{
    Color::empty()
}

/// Whether a color has no texts.
pub fn color_is_empty(color: &Color) -> bool
    ensures { IsTrue result ↔ ((color.now.prefix ≡ []) × (color.now.suffix ≡ [])) }
{
    color.is_empty()
}

/// The texts of a color, before and after what is colored.
pub fn texts_of_a_color(color: &Color) -> (&str, &str)
    ensures prefix { result.0.now ≡ color.now.prefix }
    ensures suffix { result.1.now ≡ color.now.suffix }
{
    (color.get_prefix(), color.get_suffix())
}

/// The texts of a color that does not own them, and nothing of one that does.
pub fn texts_of_a_static_color(color: &Color) -> Option<ANSIStr<'static>>
    ensures { option_map lent_texts result ≡ (if color.now.owned then None else Some (texts_of color.now)) }
{
    color.as_ansi_str()
}

/// The texts of a color, given up by it; those that it owns take no memory.
pub fn texts_given_up(alloc: Global, color: Color) -> Result<ANSIBuf, OutOfMemory>
    ensures texts { IfOk result (λ texts. texts ≡ texts_of color) }
    ensures owned { IsTrue color.owned → IsOk result }
{
    color.into_ansi(alloc)
}

/// A color of owned texts owns them, and one of static texts has them as they are.
pub fn colors_converted(texts: ANSIBuf, lent: ANSIStr<'static>) -> (Color, Color)
    ensures owned { result.0 ≡ owned_shade texts.prefix texts.suffix }
    ensures lent { result.1 ≡ static_shade (lent_texts lent.entry).prefix (lent_texts lent.entry).suffix }
{
    (Color::from(texts), Color::from(lent))
}

/// What a color states as its texts, for the padding and the margin and for a writer, are its texts; of owned and of lent texts
/// they are these.
pub fn stated_texts()
    ensures prefix { (color : Shade) → ⟦<Color as AnsiText>⟧.prefix_text color ≡ color.prefix }
    ensures suffix { (color : Shade) → ⟦<Color as AnsiText>⟧.suffix_text color ≡ color.suffix }
    ensures written_prefix { (color : Shade) → ⟦<Color as ANSIFmt>⟧.prefix_text color ≡ color.prefix }
    ensures written_suffix { (color : Shade) → ⟦<Color as ANSIFmt>⟧.suffix_text color ≡ color.suffix }
    ensures owned_prefix { (texts : Texts) → ⟦<ANSIBuf as AnsiText>⟧.prefix_text texts ≡ texts.prefix }
    ensures owned_suffix { (texts : Texts) → ⟦<ANSIBuf as AnsiText>⟧.suffix_text texts ≡ texts.suffix }
    ensures owned_written_prefix { (texts : Texts) → ⟦<ANSIBuf as ANSIFmt>⟧.prefix_text texts ≡ texts.prefix }
    ensures owned_written_suffix { (texts : Texts) → ⟦<ANSIBuf as ANSIFmt>⟧.suffix_text texts ≡ texts.suffix }
    ensures lent_prefix { (texts : Lent) → ⟦<ANSIStr<'static> as AnsiText>⟧.prefix_text texts ≡ (lent_texts texts).prefix }
    ensures lent_suffix { (texts : Lent) → ⟦<ANSIStr<'static> as AnsiText>⟧.suffix_text texts ≡ (lent_texts texts).suffix }
    ensures lent_written_prefix { (texts : Lent) → ⟦<ANSIStr<'static> as ANSIFmt>⟧.prefix_text texts ≡ (lent_texts texts).prefix }
    ensures lent_written_suffix { (texts : Lent) → ⟦<ANSIStr<'static> as ANSIFmt>⟧.suffix_text texts ≡ (lent_texts texts).suffix }
{}

/// Colors are equal by `==` exactly where they are the same, and so where their order is `Equal`; equal ones are hashed
/// alike. A static color is unequal to an owned one, and stands before it.
pub fn equality_order_and_hash_agree()
    ensures equal { (a b : Shade) → IsTrue (⟦<Color as PartialEq>⟧.eq a b) ↔ (a ≡ b) }
    ensures order { (a b : Shade) → (⟦<Color as Ord>⟧.cmp a b ≡ Ordering.Equal) ↔ (a ≡ b) }
    ensures hash { (a b : Shade) → IsTrue (⟦<Color as PartialEq>⟧.eq a b) → ⟦<Color as Hash>⟧.hash_input a ≡ ⟦<Color as Hash>⟧.hash_input b }
    ensures static_first { (a b : Shade) → a.owned ≡ false → b.owned ≡ true → ⟦<Color as Ord>⟧.cmp a b ≡ Ordering.Less }
{}
