//! The styles that the program knows: the ready ones.

ghost use Rattle.std.specs.Prelude.{◌≡◌, map, string_bytes};
ghost use Rattle.tabled_pages.specs.Style.{style_of};

use tabled_style::ReadyStyle;

/// Returns the style that these words ask for: one word, the name of a style.
pub fn style_of(words: &[String]) -> Option<ReadyStyle>
    ensures { result ≡ style_of (map string_bytes words.now) }
{
    match words {
        [name] => ReadyStyle::from_name(name.as_str()),
        _ => None,
    }
}
