//! Texts of others as a refusal tells them.

ghost use Rattle.std.specs.Prelude.{◌≡◌, string_bytes, IfOk};
ghost use Rattle.tabled_viewing.specs.Told.{is_unseen, seen, told};

use std::alloc::Global;
use tabled_border::OutOfMemory;
use tabled_clean::cleaned_line;

/// Whether a character is not seen: a soft hyphen, a joiner or a filler without width, a variation selector, a byte order mark, a tag.
#[tactic(auto, unfolding(crate::specs::Told::is_unseen))]
fn is_unseen(character: char) -> bool
    ensures { result ≡ is_unseen character }
{
    matches!(
        character,
        '\u{AD}'
            | '\u{34F}'
            | '\u{115F}'..='\u{1160}'
            | '\u{17B4}'..='\u{17B5}'
            | '\u{180B}'..='\u{180F}'
            | '\u{200B}'..='\u{200D}'
            | '\u{2060}'..='\u{2065}'
            | '\u{3164}'
            | '\u{FE00}'..='\u{FE0F}'
            | '\u{FEFF}'
            | '\u{FFA0}'
            | '\u{FFF0}'..='\u{FFF8}'
            | '\u{1BCA0}'..='\u{1BCA3}'
            | '\u{1D173}'..='\u{1D17A}'
            | '\u{E0000}'..='\u{E0FFF}'
    )
}

/// A character that is seen: U+FFFD in the place of one that is not.
fn seen(character: char) -> char
    ensures { result ≡ seen character }
{
    if is_unseen(character) {
        char::REPLACEMENT_CHARACTER
    } else {
        character
    }
}

/// Returns a text as a refusal tells it: on one line, nothing in it steers a terminal, and U+FFFD stands in the place of each character that is
/// not seen.
pub(crate) fn told(alloc: Global, text: &str) -> Result<String, OutOfMemory>
    ensures { IfOk result (λ line. string_bytes line ≡ told text.now) }
{
    let line = cleaned_line(alloc, text)?;
    let mut told = String::with_capacity(alloc, line.len())?;
    for character in line.chars() {
        told.push(seen(character))?;
    }
    Ok(told)
}
