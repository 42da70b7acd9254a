//! The rows of an input: its lines, cut at tabs.

ghost use Rattle.std.specs.Prelude.{◌≡◌, ◌<◌, [], ◌∷◌, length, IfNone, IfOk, IfSome};
ghost use Rattle.std.specs.List.{before_first, after_first};
ghost use Rattle.tabled_printing.specs.Pieces.{lent};
ghost use Rattle.tabled_text.specs.TextTable.{lent_texts};
ghost use Rattle.tabled_pages.specs.Input.{cells_of, is_byte, lines_of, rows_of};
ghost use Rattle.tabled_pages.specs.declared.bytes.TheConstants.{LINE_FEED};

use std::alloc::{AllocError, Global};

/// What stands before the first line feed of a text, and what stands after it; without one the whole text, and nothing.
fn cut(text: &str) -> (&str, &str)
    ensures before { result.0.now ≡ before_first (is_byte LINE_FEED) text.now }
    ensures after { result.1.now ≡ after_first (is_byte LINE_FEED) text.now }
{
    match text.split_once('\n') {
        Some(parts) => parts,
        None => (text, ""),
    }
}

/// The first line of an input and what follows it, or None at the end of the input.
fn first_line(input: &str) -> Option<(&str, &str)>
    ensures none { IfNone result (lines_of input.now ≡ []) }
    ensures some { IfSome result (λ cut. lines_of input.now ≡ cut.0.now ∷ lines_of cut.1.now) }
    ensures shorter { IfSome result (λ cut. length cut.1.now < length input.now) }
{
    if input.is_empty() {
        None
    } else {
        Some(cut(input))
    }
}

/// The cells of a line. Room is made for the given number at first.
fn cells_of<'a>(alloc: Global, line: &'a str, room: usize) -> Result<Vec<&'a str>, AllocError>
    ensures { IfOk result (λ cells. lent cells.items ≡ cells_of line.now) }
{
    let mut cells = Vec::with_capacity(alloc, room)?;
    for cell in line.split('\t') {
        cells.push(cell)?;
    }
    Ok(cells)
}

/// Returns the rows of an input: the cells of each line, which are not copied.
pub fn rows_of<'a>(alloc: Global, input: &'a str) -> Result<Vec<Vec<&'a str>>, AllocError>
    ensures { IfOk result (λ rows. lent_texts rows.items ≡ rows_of input.now) }
{
    let mut rows: Vec<Vec<&'a str>> = Vec::new(alloc);
    let mut rest = input;
    while let Some((line, more)) = first_line(rest) {
        let room = rows.first().map_or(0, |row| row.len());
        rows.push(cells_of(alloc, line, room)?)?;
        rest = more;
    }
    Ok(rows)
}
