//! Control characters, marks of directions and separators, and what is shown in their places.

ghost use Rattle.std.specs.Prelude.{◌≡◌, ◌∷◌, [], ℕ, List, false, IfOk, OnOk, string_bytes};
ghost use Rattle.std.specs.List.{list_all};
ghost use Rattle.tabled_clean.specs.Steering.{steers, shown_for, going_on, cleaned, is_clean, is_printable};

use std::alloc::Global;
use tabled_border::OutOfMemory;

/// What a carriage return is shown as.
const RETURN_SHOWN: char = '\u{240D}';

/// Returns whether a character steers a terminal, in place of being shown: a control character but the line feed (those below the space, the
/// delete character, and U+0080 to U+009F), a character that sets a direction of writing (U+061C, U+200E, U+200F, U+202A to U+202E,
/// U+2066 to U+206F), a separator of lines or paragraphs (U+2028, U+2029), or a mark of an annotation (U+FFF9 to U+FFFB).
#[tactic(auto, unfolding(crate::specs::Steering::steers))]
pub fn steers(character: char) -> bool
    ensures { result ≡ steers character }
{
    let number = character as u32;
    let is_control = (number < 32 && number != 10) || (0x7F <= number && number <= 0x9F);
    let is_direction = number == 0x61C
        || (0x200E <= number && number <= 0x200F)
        || (0x202A <= number && number <= 0x202E)
        || (0x2066 <= number && number <= 0x206F);
    let is_separator = 0x2028 <= number && number <= 0x2029;
    let is_annotation = 0xFFF9 <= number && number <= 0xFFFB;
    is_control || is_direction || is_separator || is_annotation
}

/// What a character is shown as.
fn shown_for(character: char) -> char
    ensures { result ≡ shown_for character }
{
    if !steers(character) {
        return character;
    }
    match character {
        '\0'..='\u{1F}' => char::from_u32(0x2400 + character as u32).unwrap_or('\u{FFFD}'),
        '\u{7F}' => '\u{2421}',
        _ => '\u{FFFD}',
    }
}

/// Whether a text has printable characters of ASCII alone.
fn is_printable(text: &str) -> bool
    ensures { result ≡ list_all is_printable text.now }
{
    // no early end, so that several bytes are tested at once
    let mut all = true;
    for byte in text.as_bytes() {
        all &= (b' '..=b'~').contains(byte);
    }
    all
}

/// Returns whether no character of a text steers a terminal.
pub fn is_clean(text: &str) -> bool
    ensures { result ≡ is_clean text.now }
{
    is_printable(text) || text.chars().all(|character| !steers(character))
}

/// Writes a carriage return that was held back, unless a line feed comes next.
fn release(clean: &mut String, is_held: bool, next: char) -> Result<(), OutOfMemory>
    ensures { (more : List ℕ) → OnOk result (going_on (string_bytes clean.new) false (next ∷ more) ≡ going_on (string_bytes clean.old) is_held (next ∷ more)) }
{
    if !is_held {
        return Ok(());
    }
    if next == '\n' {
        return Ok(());
    }
    clean.push(RETURN_SHOWN)?;
    Ok(())
}

/// Writes what a character is shown as, or holds it back if it is a carriage return, and answers whether one is held back.
fn put(clean: &mut String, is_held: bool, character: char) -> Result<bool, OutOfMemory>
    ensures { (more : List ℕ) → IfOk result (λ holds. going_on (string_bytes clean.new) holds more ≡ going_on (string_bytes clean.old) is_held (character ∷ more)) }
{
    release(clean, is_held, character)?;
    if character == '\r' {
        return Ok(true);
    }
    clean.push(shown_for(character))?;
    Ok(false)
}

/// Writes a carriage return that is held back at the end of a text.
fn end(clean: &mut String, is_held: bool) -> Result<(), OutOfMemory>
    ensures { OnOk result (string_bytes clean.new ≡ going_on (string_bytes clean.old) is_held []) }
{
    if !is_held {
        return Ok(());
    }
    clean.push(RETURN_SHOWN)?;
    Ok(())
}

/// What stands in the place of a text, written character by character.
fn written(alloc: Global, text: &str) -> Result<String, OutOfMemory>
    ensures { IfOk result (λ clean. string_bytes clean ≡ cleaned text.now) }
{
    let mut clean = String::new(alloc);
    let mut is_held = false;
    for character in text.chars() {
        is_held = put(&mut clean, is_held, character)?;
    }
    end(&mut clean, is_held)?;
    Ok(clean)
}

/// Returns a text in which nothing steers a terminal. A carriage return before a line feed is left out. In the place of each other character
/// that steers stands the picture of its control character, from U+2400 on, or U+FFFD; the rest is as it was. Memory may be refused.
///
/// ```text
/// a, ESC, [31m    a␛[31m
/// ```
pub fn cleaned(alloc: Global, text: &str) -> Result<String, OutOfMemory>
    ensures { IfOk result (λ clean. string_bytes clean ≡ cleaned text.now) }
{
    if is_clean(text) {
        return Ok(String::from_str(alloc, text)?);
    }
    written(alloc, text)
}
