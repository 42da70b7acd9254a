//! Lines that are cut at runs of blanks.

ghost use Rattle.std.specs.Prelude.{◌≡◌, ◌-◌, ◌<◌, ◌≤◌, ◌∷◌, length, map, IfOk};
ghost use Rattle.std.specs.List.{sum_by};
ghost use Rattle.tabled_input.specs.Lines.{cells_of};
ghost use Rattle.tabled_input.specs.Spaced.{AreEven, after_cell, cell_len, cells_of_line, first_cell, row_words, spaced, word_columns, word_count, word_lines, words};

use crate::blanks::{from_word, is_blank_line, trimmed, word_count, word_len};
use crate::blocks::column_count;
use crate::wide::{wide_count, wide_len};
use std::alloc::{AllocError, Global};

/// How many words each line has that has any.
fn word_counts(alloc: Global, text: &str) -> Result<Vec<usize>, AllocError>
    ensures { IfOk result (λ counts. counts.items ≡ map word_count (word_lines text.now)) }
{
    let mut counts = Vec::new(alloc);
    for line in text.lines() {
        if !is_blank_line(line) {
            counts.push(word_count(line))?;
        }
    }
    Ok(counts)
}

/// How many columns of words the lines of a text have.
fn word_columns(alloc: Global, text: &str) -> Result<usize, AllocError>
    ensures { IfOk result (λ columns. columns ≡ word_columns text.now) }
{
    let counts = word_counts(alloc, text)?;
    if counts.is_empty() {
        return Ok(1);
    }
    let most = text.len() / counts.len();
    Ok(column_count(&counts).min(most).max(1))
}

/// How many bytes the cell has that a line begins with: a wide one, or a word.
fn cell_len(line: &[u8], is_wide: bool) -> usize
    ensures { result ≡ cell_len is_wide line.now }
{
    if is_wide {
        wide_len(line)
    } else {
        word_len(line)
    }
}

/// The first cell of a line, and what follows it.
#[tactic(auto, using(crate::proofs::WideCells::after_first))]
fn split_cell(line: &str, is_wide: bool) -> (&str, &str)
    ensures cell { result.0.now ≡ first_cell is_wide line.now }
    ensures rest { result.1.now ≡ after_cell is_wide line.now }
{
    let rest = from_word(line);
    let end = cell_len(rest.as_bytes(), is_wide);
    (&rest[..end], &rest[end..])
}

/// The first of so many cells of a line, and what is left for the others.
fn cut_cell(line: &str, is_wide: bool, columns: usize) -> (&str, &str)
    requires { 0 < columns }
    ensures { cells_of_line is_wide columns line.now ≡ result.0.now ∷ cells_of_line is_wide (columns - 1) result.1.now }
{
    if columns == 1 {
        (trimmed(line), "")
    } else {
        split_cell(line, is_wide)
    }
}

/// So many cells of a line.
#[tactic(auto, unfolding(crate::specs::Spaced::cells_of_line))]
fn cells<'a>(
    alloc: Global,
    line: &'a str,
    is_wide: bool,
    columns: usize,
) -> Result<Vec<&'a str>, AllocError>
    ensures { IfOk result (λ cells. map (λ cell. cell.now) cells.items ≡ cells_of_line is_wide columns line.now) }
{
    let mut cells = Vec::with_capacity(alloc, columns)?;
    let mut rest = line;
    for done in 0..columns {
        let (cell, more) = cut_cell(rest, is_wide, columns - done);
        cells.push(cell)?;
        rest = more;
    }
    Ok(cells)
}

/// The rows of a text whose lines have so many cells.
fn rows_of<'a>(
    alloc: Global,
    text: &'a str,
    is_wide: bool,
    columns: usize,
) -> Result<Vec<Vec<&'a str>>, AllocError>
    ensures { IfOk result (λ rows. cells_of rows.items ≡ map (cells_of_line is_wide columns) (word_lines text.now)) }
{
    let mut rows = Vec::new(alloc);
    for line in text.lines() {
        if !is_blank_line(line) {
            rows.push(cells(alloc, line, is_wide, columns)?)?;
        }
    }
    Ok(rows)
}

/// Returns the rows of a text whose cells stand between runs of blanks, which are spaces and tabulators, as programs print them that line
/// their columns up. Where each line is cut at the same places at its runs of two blanks and more, these are the cells; else each cell is a
/// word, but the last one of a line has the rest of it. All rows have as many cells, which are lent, and the cells of each have the words of its
/// line. All together are no more than the text has bytes. Only memory can be refused.
pub fn spaced<'a>(alloc: Global, text: &'a str) -> Result<Vec<Vec<&'a str>>, AllocError>
    ensures rows { IfOk result (λ rows. cells_of rows.items ≡ spaced text.now) }
    ensures even { IfOk result (λ rows. AreEven (cells_of rows.items)) }
    ensures words { IfOk result (λ rows. row_words (cells_of rows.items) ≡ map words (word_lines text.now)) }
    ensures bounded { IfOk result (λ rows. sum_by length (cells_of rows.items) ≤ length text.now) }
{
    let wide = wide_count(alloc, text)?;
    let columns = if wide > 0 {
        wide
    } else {
        word_columns(alloc, text)?
    };
    rows_of(alloc, text, wide > 0, columns)
}
