//! How large the cells of a table are.

ghost use Rattle.std.specs.Prelude.{◌≡◌, ◌+◌, true, None, length, max, map, slice_index, EachIndex, IfOk, OnOk, replicate, string_bytes};
ghost use Rattle.std.specs.List.{list_all};
ghost use Rattle.std.specs.Str.{IsUtf8};
ghost use Rattle.tabled_object.specs.Entities.{below};
ghost use Rattle.tabled_width.specs.Texts.{texts, pieces, width_of_text, is_printable};
ghost use Rattle.tabled_cells.specs.Printable.{ArePrintable};
ghost use Rattle.tabled_cells.specs.TextsBy.{texts_by};
ghost use Rattle.tabled_measure.specs.Cells.{AreUtf8};
ghost use Rattle.tabled_measure.specs.Edited.{widths_with};
ghost use Rattle.tabled_measure.specs.EditedColumns.{heights_with};
ghost use Rattle.tabled_measure.specs.Sizes.{cell, greatest, column_count, column_width, unequal_row, width_asked, height_asked, padded_width, column_widths, row_height, row_heights};

use std::alloc::{AllocError, Global};
use std::convert::AsStr;
use tabled_border::OutOfMemory;
use tabled_numbers::{column_count, text_of};
use tabled_object::FixedDimension;
use tabled_settings::{Indent, Sides};
use tabled_width::{is_printable, width_of};

/// The first row that has more or fewer cells than the first.
pub fn unequal_row<T: AsStr>(rows: &[Vec<T>]) -> Option<usize>
    ensures { result ≡ unequal_row (texts_by T.text rows.now) }
{
    let columns = column_count(rows);
    rows.iter().position(|row| row.len() != columns)
}

/// How many terminal columns the widest line of a text takes.
fn widest_line(text: &str) -> usize
    ensures { result ≡ greatest (map width_of_text (pieces text.now)) }
{
    text.split('\n')
        .map(|line| width_of(line))
        .max()
        .unwrap_or(0)
}

/// So many terminal columns, and two for spaces around them. Refused where no number says it.
fn with_spaces(columns: usize) -> Result<usize, OutOfMemory>
    ensures { IfOk result (λ width. width ≡ columns + 2) }
{
    columns.checked_add(2).ok_or(OutOfMemory)
}

/// What is measured of a text at once.
#[derive(Clone, Copy, Debug)]
struct CellSize {
    /// How many terminal columns it asks for: those of its widest line, and two for spaces around it.
    width: usize,
    /// Whether it is of printable characters alone, and so one line.
    is_printable: bool,
}

/// Measures a text: one of printable characters by its length. Refused where no number says how wide it is.
#[inline(always)]
#[tactic(auto, using(crate::proofs::Measuring::printable_columns), unfolding(crate::specs::Sizes::width_asked))]
fn measure(text: &str) -> Result<CellSize, OutOfMemory>
    ensures width { IfOk result (λ found. found.width ≡ width_asked text.now) }
    ensures printable { IfOk result (λ found. found.is_printable ≡ true → list_all is_printable text.now ≡ true) }
{
    if is_printable(text) {
        return Ok(CellSize {
            width: with_spaces(text.len())?,
            is_printable: true,
        });
    }
    Ok(CellSize {
        width: with_spaces(widest_line(text))?,
        is_printable: false,
    })
}

/// How many terminal columns a text takes: one of printable characters as many as it is long.
#[tactic(auto, using(crate::proofs::Measuring::printable_columns))]
fn columns_of(text: &str) -> usize
    ensures { result ≡ greatest (map width_of_text (pieces text.now)) }
{
    if is_printable(text) {
        text.len()
    } else {
        widest_line(text)
    }
}

/// A size and those on its two sides. Refused where no number says it.
pub fn with_sides(size: usize, before: usize, after: usize) -> Result<usize, AllocError>
    ensures { IfOk result (λ sum. sum ≡ before + size + after) }
{
    let first = before.checked_add(size).ok_or(AllocError)?;
    first.checked_add(after).ok_or(AllocError)
}

/// How wide a text is with a padding. Refused where no number says it.
#[tactic(auto, unfolding(crate::specs::Sizes::padded_width))]
pub fn padded_width(padding: &Sides<Indent>, text: &str) -> Result<usize, AllocError>
    ensures { IfOk result (λ width. width ≡ padded_width padding.now text.now) }
{
    with_sides(columns_of(text), padding.left.size, padding.right.size)
}

/// Measures the cell of a row in a column.
fn measure_at<T: AsStr>(row: &[T], col: usize) -> Result<CellSize, OutOfMemory>
    ensures width { IfOk result (λ found. found.width ≡ width_asked (cell (map T.text row.now) col)) }
    ensures printable { IfOk result (λ found. found.is_printable ≡ true → list_all is_printable (cell (map T.text row.now) col) ≡ true) }
    ensures utf8 { IsUtf8 (cell (map T.text row.now) col) }
{
    measure(text_of(row, col))
}

/// Makes each column wide enough for a row's cell in it. Returns whether all the row's texts are known to be printable.
fn widen<T: AsStr>(widths: &mut [usize], row: &[T]) -> Result<bool, OutOfMemory>
    ensures widths { OnOk result (EachIndex widths.new (λ col. slice_index widths.new col ≡ max (slice_index widths.old col) (width_asked (cell (map T.text row.now) col)))) }
    ensures printable { IfOk result (λ are_printable. are_printable ≡ true → ArePrintable (map T.text row.now)) }
    ensures utf8 { OnOk result (EachIndex widths.new (λ col. IsUtf8 (cell (map T.text row.now) col))) }
{
    let mut are_printable = row.len() <= widths.len();
    for (col, width) in widths.iter_mut().enumerate() {
        let found = measure_at(row, col)?;
        *width = (*width).max(found.width);
        are_printable &= found.is_printable;
    }
    Ok(are_printable)
}

/// A zero for each column.
fn no_widths<T: AsStr>(alloc: Global, rows: &[Vec<T>]) -> Result<Vec<usize>, AllocError>
    ensures { IfOk result (λ widths. widths.items ≡ replicate (column_count (texts_by T.text rows.now)) 0) }
{
    let columns = column_count(rows);
    vec![in alloc; 0usize; columns]
}

/// How many lines a text asks for.
pub fn height_asked(text: &str) -> usize
    ensures { result ≡ height_asked text.now }
{
    text.as_bytes()
        .iter()
        .filter(|byte| **byte == b'\n')
        .count()
        + 1
}

/// How high a row is.
pub fn row_height<T: AsStr>(row: &[T]) -> usize
    ensures { result ≡ row_height (map T.text row.now) }
{
    row.iter()
        .map(|text| height_asked(text.as_str()))
        .max()
        .unwrap_or(0)
}

/// How high a row is, of which it is said whether its texts are known to be printable.
fn height_of<T: AsStr>(row: &[T], are_printable: bool) -> usize
    requires { are_printable ≡ true → ArePrintable (map T.text row.now) }
    ensures { result ≡ row_height (map T.text row.now) }
{
    if are_printable && !row.is_empty() {
        1
    } else {
        row_height(row)
    }
}

/// Widths of columns, of as many as are asked for; 0 past the last one.
fn widths_of_columns(
    alloc: Global,
    widths: &[usize],
    count: usize,
) -> Result<Vec<usize>, AllocError>
    ensures { IfOk result (λ copies. copies.items ≡ map (slice_index widths.now) (below count)) }
{
    (0..count)
        .map(|col| widths.get(col).copied().unwrap_or(0))
        .collect(alloc)
}

/// How wide columns are with a row more, and how high that is.
pub fn sizes_with(
    alloc: Global,
    widths: &[usize],
    row: &[String],
) -> Result<(Vec<usize>, usize), OutOfMemory>
    ensures widths { IfOk result (λ sizes. sizes.0.items ≡ widths_with widths.now (map string_bytes row.now)) }
    ensures height { IfOk result (λ sizes. sizes.1 ≡ row_height (map string_bytes row.now)) }
{
    let mut wider = widths_of_columns(alloc, widths, row.len())?;
    let are_printable = widen(&mut wider, row)?;
    let height = height_of(row, are_printable);
    Ok((wider, height))
}

/// Measures the texts of a table: how wide each column is, and how high each row.
pub fn sizes_of<T: AsStr>(alloc: Global, rows: &[Vec<T>]) -> Result<FixedDimension, OutOfMemory>
    ensures widths { IfOk result (λ sizes. sizes.widths.items ≡ column_widths (texts_by T.text rows.now)) }
    ensures heights { IfOk result (λ sizes. sizes.heights.items ≡ row_heights (texts_by T.text rows.now)) }
    ensures utf8 { unequal_row (texts_by T.text rows.now) ≡ None → OnOk result (AreUtf8 (texts_by T.text rows.now)) }
{
    let mut widths = no_widths(alloc, rows)?;
    let mut heights = Vec::with_capacity(alloc, rows.len())?;
    for row in rows {
        let is_printable = widen(&mut widths, row)?;
        heights.push(height_of(row, is_printable))?;
    }
    Ok(FixedDimension::new(widths, heights))
}

/// How wide a column is. Refused where no number says it.
pub fn column_width(rows: &[Vec<String>], col: usize) -> Result<usize, OutOfMemory>
    ensures { IfOk result (λ width. width ≡ column_width (texts rows.now) col) }
{
    let mut width: usize = 0;
    for row in rows {
        let found = measure_at(row, col)?;
        width = width.max(found.width);
    }
    Ok(width)
}

/// How wide a column of these texts is. Refused where no number says it.
pub fn width_of_texts(column: &[String]) -> Result<usize, OutOfMemory>
    ensures { IfOk result (λ width. width ≡ greatest (map width_asked (map string_bytes column.now))) }
{
    let mut width: usize = 0;
    for text in column {
        let found = measure(text.as_str())?;
        width = width.max(found.width);
    }
    Ok(width)
}

/// How high rows are with a column more, of which as many as it has texts are looked at.
pub fn heights_with(
    alloc: Global,
    heights: &[usize],
    column: &[String],
) -> Result<Vec<usize>, AllocError>
    ensures { IfOk result (λ higher. higher.items ≡ heights_with heights.now (map string_bytes column.now)) }
{
    (0..column.len())
        .map(|row| {
            let before = heights.get(row).copied().unwrap_or(0);
            before.max(height_asked(text_of(column, row)))
        })
        .collect(alloc)
}

/// Measures how high rows are.
pub fn measure_heights(heights: &mut [usize], rows: &[Vec<String>])
    requires { length heights.old ≡ length rows.now }
    ensures { heights.new ≡ row_heights (texts rows.now) }
{
    for row in 0..rows.len() {
        heights[row] = row_height(&rows[row]);
    }
}
