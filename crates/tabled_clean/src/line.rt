//! Texts on one line.

ghost use Rattle.std.specs.Prelude.{◌≡◌, IfOk, string_bytes};
ghost use Rattle.tabled_clean.specs.Line.{cleaned_line, in_line};

use crate::cleaned;
use std::alloc::Global;
use tabled_border::OutOfMemory;

/// A character on a line: the picture of a line feed in its place, and any other as it is.
fn in_line(character: char) -> char
    ensures { result ≡ in_line character }
{
    if character == '\n' {
        '\u{240A}'
    } else {
        character
    }
}

/// Returns a text on one line, in which nothing steers a terminal: that of `cleaned`, with the picture U+240A in the place of each line feed:
/// `a␊b` for an `a`, a line feed and a `b`. Memory may be refused.
pub fn cleaned_line(alloc: Global, text: &str) -> Result<String, OutOfMemory>
    ensures { IfOk result (λ line. string_bytes line ≡ cleaned_line text.now) }
{
    let clean = cleaned(alloc, text)?;
    let mut line = String::new(alloc);
    for character in clean.chars() {
        line.push(in_line(character))?;
    }
    Ok(line)
}
