//! The rows of an input that are shown.

ghost use Rattle.std.specs.Prelude.{◌≡◌, ◌≢◌, ◌<◌, ◌≤◌, ◌*◌, ◌⊎◌, [], true, nat_lt, None, Some, length, map, slice_index_or, option_map, string_bytes, IfErr, IfOk, OnOk};
ghost use Rattle.tabled_builder.specs.Records.{columns, filled};
ghost use Rattle.tabled_input.specs.Selection.{row_numbers};
ghost use Rattle.tabled_measure.specs.Sizes.{column_count, unequal_row};
ghost use Rattle.tabled_rows.specs.Rows.{filled_to};
ghost use Rattle.tabled_printing.specs.Pieces.{lent};
ghost use Rattle.tabled_text.specs.TextTable.{lent_texts};
ghost use Rattle.tabled_viewing.specs.Refusal.{fault_of_any, fault_of_columns, fault_of_counts, fault_of_filled, fault_of_sides, unequal};
ghost use Rattle.tabled_viewing.specs.Rows.{columns_chosen, first_rows, header_count, rows_chosen, rows_filled, rows_shown, with_numbers};
ghost use Rattle.tabled_viewing.specs.declared.error.ViewError.TheVariants as refusals;

use crate::error::ViewError;
use std::alloc::{AllocError, Global};
use tabled_input::{INPUT_LIMIT, columns_of, head, put_before, row_numbers};
use tabled_measure::measure::unequal_row;
use tabled_numbers::column_count;
use tabled_request::{OptionName, Request, columns_named, headings_of, unknown_part, word_at};

/// How many cells a row has; none, if there is no such row.
fn cells_of(rows: &[Vec<&str>], row: usize) -> usize
    ensures { result ≡ length (slice_index_or (lent_texts rows.now) row []) }
{
    match rows.get(row) {
        Some(cells) => cells.len(),
        None => 0,
    }
}

/// Whether so many rows of so many cells have more cells together than an input may have bytes.
fn are_too_many(rows: usize, columns: usize) -> bool
    ensures { result ≡ nat_lt INPUT_LIMIT (rows * columns) }
{
    match rows.checked_mul(columns) {
        Some(cells) => INPUT_LIMIT < cells,
        None => true,
    }
}

/// Fills a row with empty cells up to so many.
fn fill_row(row: &mut Vec<&str>, width: usize) -> Result<(), AllocError>
    ensures { OnOk result (lent row.new.items ≡ filled_to width (lent row.old.items)) }
{
    for _ in 0..width.saturating_sub(row.len()) {
        row.push("")?;
    }
    Ok(())
}

/// Fills each row with empty cells up to so many.
fn fill_rows(rows: &mut [Vec<&str>], width: usize) -> Result<(), AllocError>
    ensures { OnOk result (lent_texts rows.new ≡ map (filled_to width) (lent_texts rows.old)) }
{
    for row in rows.iter_mut() {
        fill_row(row, width)?;
    }
    Ok(())
}

/// Rows filled with empty cells up to the longest. Refused where they would have too many cells, before memory is asked for.
fn fill(rows: Vec<Vec<&str>>) -> Result<Vec<Vec<&str>>, ViewError>
    ensures rows { IfOk result (λ all. lent_texts all.items ≡ filled (lent_texts rows.entry.items)) }
    ensures good { OnOk result (fault_of_filled (lent_texts rows.entry.items) ≡ None) }
    ensures kinds { IfErr result (λ e. e ≢ refusals.WriteFailed) }
    ensures refused { IfErr result (λ e. (e ≡ refusals.OutOfMemory) ⊎ (fault_of_filled (lent_texts rows.entry.items) ≡ Some e)) }
{
    let columns = tabled_builder::columns_of(&rows);
    if are_too_many(rows.len(), columns) {
        return Err(ViewError::TooManyCells {
            rows: rows.len(),
            columns,
        });
    }
    let mut rows = rows;
    fill_rows(&mut rows, columns)?;
    Ok(rows)
}

/// Whether all rows have as many cells as the first. Refused with the first that has not.
fn check_equal(rows: &[Vec<&str>]) -> Result<(), ViewError>
    ensures good { OnOk result (option_map (unequal (lent_texts rows.now)) (unequal_row (lent_texts rows.now)) ≡ None) }
    ensures kinds { IfErr result (λ e. e ≢ refusals.WriteFailed) }
    ensures refused { IfErr result (λ e. option_map (unequal (lent_texts rows.now)) (unequal_row (lent_texts rows.now)) ≡ Some e) }
{
    match unequal_row(rows) {
        None => Ok(()),
        Some(row) => Err(ViewError::UnequalRows {
            row,
            cells: cells_of(rows, row),
            columns: column_count(rows),
        }),
    }
}

/// Rows of one length: they are filled, if they are to be, and else refused where they are of unlike length.
fn rows_filled(request: Request, rows: Vec<Vec<&str>>) -> Result<Vec<Vec<&str>>, ViewError>
    ensures rows { IfOk result (λ all. lent_texts all.items ≡ rows_filled request (lent_texts rows.entry.items)) }
    ensures good { OnOk result (fault_of_counts request (lent_texts rows.entry.items) ≡ None) }
    ensures kinds { IfErr result (λ e. e ≢ refusals.WriteFailed) }
    ensures refused { IfErr result (λ e. (e ≡ refusals.OutOfMemory) ⊎ (fault_of_counts request (lent_texts rows.entry.items) ≡ Some e)) }
{
    if request.fills {
        return fill(rows);
    }
    check_equal(&rows)?;
    Ok(rows)
}

/// How many rows a header takes.
fn header_count(has_header: bool) -> usize
    ensures same { result ≡ header_count has_header }
    ensures most { result ≤ 1 }
{
    if has_header { 1 } else { 0 }
}

/// Keeps the first of rows: the header, and as many below it as are asked for.
fn keep_first(rows: &mut Vec<Vec<&str>>, count: Option<usize>, has_header: bool)
    ensures { lent_texts rows.new.items ≡ first_rows count has_header (lent_texts rows.old.items) }
{
    let Some(count) = count else {
        return;
    };
    if rows.len() <= count {
        return;
    }
    head(rows, header_count(has_header) + count);
}

/// Whether each part of a word that an option has names some of the columns of these rows.
fn check_columns(
    request: Request,
    words: &[String],
    rows: &[Vec<&str>],
    option: OptionName,
    number: Option<usize>,
) -> Result<(), ViewError>
    ensures good { OnOk result (fault_of_columns request (map string_bytes words.now) (lent_texts rows.now) option number ≡ None) }
    ensures kinds { IfErr result (λ e. e ≢ refusals.WriteFailed) }
    ensures refused { IfErr result (λ e. fault_of_columns request (map string_bytes words.now) (lent_texts rows.now) option number ≡ Some e) }
{
    let Some(n) = number else {
        return Ok(());
    };
    let Some(word) = words.get(n) else {
        return Ok(());
    };
    let headings = headings_of(request, rows);
    match unknown_part(word.as_str(), headings, column_count(rows)) {
        None => Ok(()),
        Some(part) => Err(ViewError::UnknownColumn {
            option,
            word: n,
            part,
        }),
    }
}

/// Rows of the columns that a word names, in its order, where it names any.
fn columns_chosen<'a>(
    alloc: Global,
    request: Request,
    word: Option<&str>,
    rows: Vec<Vec<&'a str>>,
) -> Result<Vec<Vec<&'a str>>, AllocError>
    ensures { IfOk result (λ all. lent_texts all.items ≡ columns_chosen request (option_map (λ word. word.now) word.entry) (lent_texts rows.entry.items)) }
{
    let Some(word) = word else {
        return Ok(rows);
    };
    let headings = headings_of(request, &rows);
    let columns = columns_named(alloc, word, headings, column_count(&rows))?;
    columns_of(alloc, &rows, &columns)
}

/// Whether the words that say where cells stand name columns of these rows.
fn check_sides(request: Request, words: &[String], rows: &[Vec<&str>]) -> Result<(), ViewError>
    ensures good { OnOk result (fault_of_sides request (map string_bytes words.now) (lent_texts rows.now) ≡ None) }
    ensures kinds { IfErr result (λ e. e ≢ refusals.WriteFailed) }
    ensures refused { IfErr result (λ e. fault_of_sides request (map string_bytes words.now) (lent_texts rows.now) ≡ Some e) }
{
    check_columns(request, words, rows, OptionName::Left, request.left)?;
    check_columns(request, words, rows, OptionName::Center, request.center)?;
    check_columns(request, words, rows, OptionName::Right, request.right)
}

/// Returns the rows that are shown, before they have their numbers: of one length, the first of them, of the columns that are named, as far as
/// the request asks for that. Refused with the first reason that there is: how many cells rows have, then a column that is not there.
pub(crate) fn rows_chosen<'a>(
    alloc: Global,
    request: Request,
    words: &[String],
    rows: Vec<Vec<&'a str>>,
) -> Result<Vec<Vec<&'a str>>, ViewError>
    ensures rows { IfOk result (λ all. lent_texts all.items ≡ rows_chosen request (map string_bytes words.now) (lent_texts rows.entry.items)) }
    ensures good { OnOk result (let words = map string_bytes words.now in
        fault_of_any request words (lent_texts rows.entry.items) ≡ fault_of_sides request words (rows_shown request words (lent_texts rows.entry.items))) }
    ensures kinds { IfErr result (λ e. e ≢ refusals.WriteFailed) }
    ensures refused { IfErr result (λ e. (e ≡ refusals.OutOfMemory) ⊎ (fault_of_any request (map string_bytes words.now) (lent_texts rows.entry.items) ≡ Some e)) }
{
    let mut rows = rows_filled(request, rows)?;
    keep_first(&mut rows, request.head, request.has_header);
    check_columns(request, words, &rows, OptionName::Columns, request.columns)?;
    let rows = columns_chosen(alloc, request, word_at(words, request.columns), rows)?;
    Ok(rows)
}

/// Returns the numbers of so many rows, if they are to be there.
pub(crate) fn numbers_asked(
    alloc: Global,
    request: Request,
    rows: usize,
) -> Result<Vec<String>, AllocError>
    requires { rows < usize.MAX }
    ensures { request.has_row_numbers ≡ true → IfOk result (λ numbers. map string_bytes numbers.items ≡ row_numbers request.has_header rows) }
{
    if request.has_row_numbers {
        return row_numbers(alloc, rows, request.has_header);
    }
    Ok(Vec::new(alloc))
}

/// Puts numbers before rows, if they are to be there.
fn put_numbers<'a>(
    request: Request,
    rows: &mut [Vec<&'a str>],
    numbers: &'a [String],
) -> Result<(), AllocError>
    requires { request.has_row_numbers ≡ true → map string_bytes numbers.now ≡ row_numbers request.has_header (length rows.old) }
    ensures { OnOk result (lent_texts rows.new ≡ with_numbers request (lent_texts rows.old)) }
{
    if request.has_row_numbers {
        return put_before(rows, numbers);
    }
    Ok(())
}

/// Returns the rows that are shown: these with their numbers before them, if they are to be there. Refused where a word that says where cells
/// stand names a column that is not there.
pub(crate) fn rows_numbered<'a>(
    request: Request,
    words: &[String],
    rows: Vec<Vec<&'a str>>,
    numbers: &'a [String],
) -> Result<Vec<Vec<&'a str>>, ViewError>
    requires { request.has_row_numbers ≡ true → map string_bytes numbers.now ≡ row_numbers request.has_header (length rows.items) }
    ensures rows { IfOk result (λ all. lent_texts all.items ≡ with_numbers request (lent_texts rows.entry.items)) }
    ensures good { OnOk result (fault_of_sides request (map string_bytes words.now) (with_numbers request (lent_texts rows.entry.items)) ≡ None) }
    ensures kinds { IfErr result (λ e. e ≢ refusals.WriteFailed) }
    ensures refused { IfErr result (λ e. (e ≡ refusals.OutOfMemory) ⊎ (fault_of_sides request (map string_bytes words.now) (with_numbers request (lent_texts rows.entry.items)) ≡ Some e)) }
{
    let mut rows = rows;
    put_numbers(request, &mut rows, numbers)?;
    check_sides(request, words, &rows)?;
    Ok(rows)
}
