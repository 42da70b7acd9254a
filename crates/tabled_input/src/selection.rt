//! Which rows and columns of a table are shown, and the numbers of its rows.

ghost use Rattle.std.specs.Prelude.{◌≡◌, ◌<◌, ◌≤◌, ◌∷◌, [], map, length, slice_index_or, string_bytes, take, IfOk, OnOk};
ghost use Rattle.tabled_input.specs.Lines.{cells_of};
ghost use Rattle.tabled_input.specs.Selection.{first_number, number_text, row_numbers, selected, selected_row, with_before};

use std::alloc::{AllocError, Global};

/// Keeps the first rows, as many as are asked for.
pub fn head(rows: &mut Vec<Vec<&str>>, count: usize)
    ensures { cells_of rows.new.items ≡ take count (cells_of rows.old.items) }
{
    rows.truncate(count);
}

/// A cell of a row, the empty text where it has no such one.
fn cell<'a>(row: &[&'a str], col: usize) -> &'a str
    ensures { result.now ≡ slice_index_or (map (λ cell. cell.now) row.now) col [] }
{
    match row.get(col) {
        Some(cell) => cell,
        None => "",
    }
}

/// The cells of these columns of a row.
fn selected_row<'a>(
    alloc: Global,
    row: &[&'a str],
    columns: &[usize],
) -> Result<Vec<&'a str>, AllocError>
    ensures { IfOk result (λ cells. map (λ cell. cell.now) cells.items ≡ selected_row columns.now (map (λ cell. cell.now) row.now)) }
{
    let mut cells = Vec::with_capacity(alloc, columns.len())?;
    for col in columns {
        cells.push(cell(row, *col))?;
    }
    Ok(cells)
}

/// Returns the cells of these columns, in that order. A column may be named twice. Where a row has no such cell, the empty text stands. Only
/// memory can be refused.
pub fn columns_of<'a>(
    alloc: Global,
    rows: &[Vec<&'a str>],
    columns: &[usize],
) -> Result<Vec<Vec<&'a str>>, AllocError>
    ensures { IfOk result (λ shown. cells_of shown.items ≡ selected columns.now (cells_of rows.now)) }
{
    let mut shown = Vec::with_capacity(alloc, rows.len())?;
    for row in rows {
        shown.push(selected_row(alloc, row, columns)?)?;
    }
    Ok(shown)
}

/// The number of a row, and that of a header, which is row 0.
fn number_text(alloc: Global, row: usize) -> Result<String, AllocError>
    ensures { IfOk result (λ text. string_bytes text ≡ number_text row) }
{
    if row == 0 {
        String::from_str(alloc, "#")
    } else {
        format!(in alloc; "{row}")
    }
}

/// The number of the first row.
fn first_number(has_header: bool) -> usize
    ensures same { result ≡ first_number has_header }
    ensures most { result ≤ 1 }
{
    if has_header { 0 } else { 1 }
}

/// Returns the texts of the numbers of so many rows: from 1 on, in decimal digits, and `#` for the first one where that is a header. Only
/// memory can be refused.
pub fn row_numbers(alloc: Global, rows: usize, has_header: bool) -> Result<Vec<String>, AllocError>
    requires { rows < usize.MAX }
    ensures { IfOk result (λ numbers. map string_bytes numbers.items ≡ row_numbers has_header rows) }
{
    let first = first_number(has_header);
    let mut numbers = Vec::with_capacity(alloc, rows)?;
    for row in 0..rows {
        numbers.push(number_text(alloc, first + row)?)?;
    }
    Ok(numbers)
}

/// Puts a text before the cells of a row.
fn put_first<'a>(row: &mut Vec<&'a str>, text: &'a str) -> Result<(), AllocError>
    ensures { OnOk result (map (λ cell. cell.now) row.new.items ≡ text.now ∷ map (λ cell. cell.now) row.old.items) }
{
    row.insert(0, text)?;
    Ok(())
}

/// Puts a text before the cells of each row: the first text before those of the first row, and so on. Where memory is refused, some rows may
/// have theirs.
pub fn put_before<'a>(rows: &mut [Vec<&'a str>], texts: &'a [String]) -> Result<(), AllocError>
    requires { length texts.now ≡ length rows.old }
    ensures { OnOk result (cells_of rows.new ≡ with_before (map string_bytes texts.now) (cells_of rows.old)) }
{
    for (at, row) in rows.iter_mut().enumerate() {
        put_first(row, texts[at].as_str())?;
    }
    Ok(())
}
