//! Lines that are cut at a separator.

ghost use Rattle.std.specs.Prelude.{◌≡◌, ◌<◌, ◌==◌, ◌∷◌, [], length, map, IfOk, IfSome, MatchOption};
ghost use Rattle.std.specs.List.{position, slice_split};
ghost use Rattle.std.specs.Str.{IsUtf8};
ghost use Rattle.tabled_input.specs.Lines.{cells_of, cut_at, line_feeds, separated as rows_of};

use std::alloc::{AllocError, Global};

/// Where the first separator stands in a line.
fn separator_in(line: &str, separator: u8) -> Option<usize>
    ensures { result ≡ position (λ b. b == separator) line.now }
{
    line.as_bytes().iter().position(|byte| *byte == separator)
}

/// What stands before the first separator of a line, a character of ASCII, and what stands after it, if there is one.
fn cut(line: &str, separator: u8) -> Option<(&str, &str)>
    requires { separator < 128 }
    ensures parts { MatchOption result (slice_split (λ b. b == separator) line.now ≡ line.now ∷ [])
        (λ parts. slice_split (λ b. b == separator) line.now ≡ parts.0.now ∷ slice_split (λ b. b == separator) parts.1.now) }
    ensures utf8 { IfSome result (λ parts. IsUtf8 parts.0.now × IsUtf8 parts.1.now) }
    ensures shorter { IfSome result (λ parts. length parts.1.now < length line.now) }
{
    match separator_in(line, separator) {
        Some(at) => Some((&line[..at], &line[at + 1..])),
        None => None,
    }
}

/// The cells of a line, which is cut at a character of ASCII. Room is made for the given number at first.
fn pieces<'a>(
    alloc: Global,
    line: &'a str,
    separator: u8,
    room: usize,
) -> Result<Vec<&'a str>, AllocError>
    requires { separator < 128 }
    ensures { IfOk result (λ cells. map (λ cell. cell.now) cells.items ≡ slice_split (λ b. b == separator) line.now) }
{
    let mut cells = Vec::with_capacity(alloc, room)?;
    let mut rest = line;
    while let Some((cell, more)) = cut(rest, separator) {
        cells.push(cell)?;
        rest = more;
    }
    cells.push(rest)?;
    Ok(cells)
}

/// The line as one cell.
fn whole<'a>(alloc: Global, line: &'a str) -> Result<Vec<&'a str>, AllocError>
    ensures { IfOk result (λ cells. map (λ cell. cell.now) cells.items ≡ line.now ∷ []) }
{
    let mut cells = Vec::new(alloc);
    cells.push(line)?;
    Ok(cells)
}

/// The cells of a line.
fn cells<'a>(
    alloc: Global,
    line: &'a str,
    separator: char,
    room: usize,
) -> Result<Vec<&'a str>, AllocError>
    ensures { IfOk result (λ cells. map (λ cell. cell.now) cells.items ≡ cut_at separator line.now) }
{
    if (separator as u32) < 128 {
        pieces(alloc, line, separator as u8, room)
    } else {
        whole(alloc, line)
    }
}

/// Returns the rows of a text: its lines but blank ones, each cut at a separator, a character of ASCII; another one separates nothing. The
/// cells are lent. A line ends at a line feed, or at a carriage return and a line feed; one at the end of the text begins no further line. Only
/// memory can be refused.
pub fn separated<'a>(
    alloc: Global,
    text: &'a str,
    separator: char,
) -> Result<Vec<Vec<&'a str>>, AllocError>
    ensures { IfOk result (λ rows. cells_of rows.items ≡ rows_of separator text.now) }
{
    let mut rows: Vec<Vec<&'a str>> = Vec::new(alloc);
    for line in text.lines() {
        if !line.is_empty() {
            let room = rows.first().map_or(0, |row| row.len());
            rows.push(cells(alloc, line, separator, room)?)?;
        }
    }
    Ok(rows)
}

/// How many line feeds some bytes have.
pub(crate) fn line_feeds(bytes: &[u8]) -> usize
    ensures { result ≡ line_feeds bytes.now }
{
    let mut count = 0;
    for each in bytes {
        if *each == b'\n' {
            count += 1;
        }
    }
    count
}
