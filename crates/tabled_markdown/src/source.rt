//! What stands for a text in a cell of a table.

ghost use Rattle.std.specs.Prelude.{◌≡◌, ◌++◌, ◌||◌, ℕ, List, IfOk, OnOk, encode_utf8, string_bytes};
ghost use Rattle.std.specs.Option.{option_map};
ghost use Rattle.tabled_markdown.specs.Reading.{read_text};
ghost use Rattle.tabled_markdown.specs.Source.{backslash, source_after, blank_word, escaped, is_mark, is_of_address, to_end, word_of};

use std::alloc::{AllocError, Global};

/// The word that stands for a character, if one does.
fn word_of(character: char) -> Option<&'static str>
    ensures { option_map (λ word. word.now) result ≡ word_of character }
{
    match character {
        '\n' => Some("<br>"),
        '\r' => Some("&#13;"),
        '&' => Some("&amp;"),
        '<' => Some("&lt;"),
        _ => None,
    }
}

/// The word that stands for a blank at an end of a text, where the byte is one.
fn blank_word(byte: u8) -> Option<&'static str>
    ensures { option_map (λ word. word.now) result ≡ blank_word byte }
{
    match byte {
        b' ' => Some("&#32;"),
        b'\t' => Some("&#9;"),
        0x0B => Some("&#11;"),
        0x0C => Some("&#12;"),
        _ => None,
    }
}

/// Whether a backslash stands before a character that comes after another.
fn has_backslash(before: char, character: char) -> bool
    ensures { result ≡ (is_mark character || is_of_address before character) }
{
    match character {
        '$' | '*' | '[' | '\\' | ']' | '_' | '`' | '|' | '~' => true,
        '/' => before == ':',
        '.' => before == 'w',
        _ => false,
    }
}

/// The backslash before a character that comes after another, where it needs one.
fn backslash(before: char, character: char) -> &'static str
    ensures { result.now ≡ backslash before character }
{
    if has_backslash(before, character) {
        "\\"
    } else {
        ""
    }
}

/// Puts what stands for a character after another.
fn put(written: &mut String, before: char, character: char) -> Result<(), AllocError>
    ensures { (more : List ℕ) → OnOk result (string_bytes written.new ++ source_after character more ≡ string_bytes written.old ++ source_after before (encode_utf8 character ++ more)) }
{
    if let Some(word) = word_of(character) {
        written.push_str(word)?;
        return Ok(());
    }
    written.push_str(backslash(before, character))?;
    written.push(character)?;
    Ok(())
}

/// Puts what stands for a text, after a space, where others follow.
fn put_inner(written: &mut String, text: &str) -> Result<(), AllocError>
    ensures { OnOk result (string_bytes written.new ≡ string_bytes written.old ++ source_after 32 text.now) }
{
    let mut before = ' ';
    for character in text.chars() {
        put(written, before, character)?;
        before = character;
    }
    Ok(())
}

/// The word for the blank that a text begins with, or nothing, and the rest of the text.
fn cut_start(text: &str) -> (&'static str, &str)
    ensures { escaped text.now ≡ result.0.now ++ to_end 32 result.1.now }
{
    match text.as_bytes() {
        [first, ..] => match blank_word(*first) {
            Some(word) => (word, &text[1..]),
            None => ("", text),
        },
        [] => ("", text),
    }
}

/// The text before the blank that it ends with, and the word for it, or nothing.
fn cut_end(text: &str) -> (&str, &'static str)
    ensures { to_end 32 text.now ≡ source_after 32 result.0.now ++ result.1.now }
{
    match text.as_bytes() {
        [.., last] => match blank_word(*last) {
            Some(word) => (&text[..text.len() - 1], word),
            None => (text, ""),
        },
        [] => (text, ""),
    }
}

/// Puts what stands for a text.
pub(crate) fn put_escaped(written: &mut String, text: &str) -> Result<(), AllocError>
    ensures { OnOk result (string_bytes written.new ≡ string_bytes written.old ++ escaped text.now) }
{
    let (start, rest) = cut_start(text);
    let (inner, end) = cut_end(rest);
    written.push_str(start)?;
    put_inner(written, inner)?;
    written.push_str(end)?;
    Ok(())
}

/// Returns what stands for a text in a cell of a table of markdown, so that GitHub shows the text as it is.
///
/// A line feed is written `<br>`, a carriage return `&#13;`, `&` is `&amp;` and `<` is `&lt;`. A blank at the start or at the end, where it would
/// be lost, is written by its number, as `&#32;` for a space; so are a tabulator, a vertical one and a form feed. A backslash stands before each
/// of ``$ * [ \ ] _ ` | ~``, at which something else than a text may begin or end, and before a slash after a colon and a point after a `w`, so
/// that neither `https://` nor `www.` begins a link, in which other backslashes would be shown. All else is itself: `! > # - +` begin nothing
/// within a cell.
///
/// What GitHub makes of words that it has read, as of `:smile:`, `@name` or `#7`, is not held back, and a zero character, which markdown can't
/// have, is not kept. Only memory can be refused.
///
/// ```text
/// a|b, and c*    a\|b, and c\*
/// ```
pub fn escaped(alloc: Global, text: &str) -> Result<String, AllocError>
    ensures source { IfOk result (λ source. string_bytes source ≡ escaped text.now) }

    // Read by the grammar of markdown, it is the text.
    ensures read_back { IfOk result (λ source. read_text (string_bytes source) ≡ text.now) }
{
    let mut source = String::new(alloc);
    put_escaped(&mut source, text)?;
    Ok(source)
}
