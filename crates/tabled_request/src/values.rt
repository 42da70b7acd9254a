//! What the values of options are.

ghost use Rattle.std.specs.Prelude.{◌≡◌, ◌==◌};
ghost use Rattle.std.specs.List.{list_any};
ghost use Rattle.tabled_request.specs.Values.{is_line, separator_named};

/// The separator that a word is: one character of ASCII, but for a quote, a line feed and a carriage return, or what `\t` and `\0` stand for.
#[tactic(auto, unfolding(crate::specs::Values::separator_named))]
pub(crate) fn separator_named(word: &str) -> Option<char>
    ensures { result ≡ separator_named word.now }
{
    if word == "\\t" {
        return Some('\t');
    }
    if word == "\\0" {
        return Some('\0');
    }
    let bytes = word.as_bytes();
    if bytes.len() != 1 {
        return None;
    }
    let byte = bytes[0];
    if 128 <= byte || byte == b'"' || byte == b'\n' || byte == b'\r' {
        return None;
    }
    Some(char::from(byte))
}

/// Whether a byte is a line feed.
fn has_line_feed(bytes: &[u8]) -> bool
    ensures { result ≡ list_any (λ b. b == 10) bytes.now }
{
    bytes.iter().any(|byte| *byte == b'\n')
}

/// Whether a word has no line feed.
pub(crate) fn is_line(word: &str) -> bool
    ensures { result ≡ is_line word.now }
{
    !has_line_feed(word.as_bytes())
}
