//! How many columns a text takes on a terminal.

ghost use Rattle.std.specs.Prelude.{◌≡◌};
ghost use Rattle.std.specs.List.{list_all};
ghost use Rattle.tabled_width.specs.Texts.{fits, is_printable, width_of_text};

use unicode_width::UnicodeWidthStr;

/// Returns whether a text has printable characters of ASCII alone, so that it is one line, and each of its bytes takes one column.
pub fn is_printable(text: &str) -> bool
    ensures { result ≡ list_all is_printable text.now }
{
    // no early end, so that several bytes are tested at once
    let mut all = true;
    for byte in text.as_bytes() {
        all &= (b' '..=b'~').contains(byte);
    }
    all
}

/// Returns how many terminal columns a line takes. A tab or another control character takes one.
pub fn width_of(line: &str) -> usize
    ensures { result ≡ width_of_text line.now }
{
    if is_printable(line) {
        line.len()
    } else {
        line.width()
    }
}

/// Returns whether a line takes at most so many terminal columns.
pub fn fits(width: usize, line: &str) -> bool
    ensures { result ≡ fits width line.now }
{
    width_of(line) <= width
}
