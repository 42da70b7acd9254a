//! Where the cells of each column stand.

ghost use Rattle.std.specs.Prelude.{◌≡◌, ◌&&◌, if◌then◌else◌, map, string_bytes, unwrap_or, Some, None, IfOk};
ghost use Rattle.std.specs.List.{range_with_len};
ghost use Rattle.tabled_numbers.specs.Columns.{column_count, is_numeric};
ghost use Rattle.tabled_request.specs.Sides.{below_header, headings_of, is_named, sides_of};
ghost use Rattle.tabled_request.specs.declared.sides.ColumnSide.TheVariants.{Left, Center, Right};

use crate::columns::{flags_of, no_flags};
use crate::request::Request;
use crate::words::word_at;
use std::alloc::{AllocError, Global};
use std::convert::AsStr;
use tabled_numbers::{column_count, is_numeric};

/// Where the cells of a column stand.
#[derive(Clone, Copy, Debug, PartialEq, Eq)]
pub enum ColumnSide {
    /// At the left.
    Left,
    /// In the middle.
    Center,
    /// At the right.
    Right,
}

/// Returns the headings of the columns: the texts of the first row, where that is a header.
pub fn headings_of<T: AsStr>(request: Request, rows: &[Vec<T>]) -> &[T]
    ensures { map T.text result.now ≡ headings_of request (map (λ row. map T.text row.items) rows.now) }
{
    match rows {
        [row, ..] if request.has_header => row,
        _ => &[],
    }
}

/// The rows below the header.
fn below_header<T: AsStr>(rows: &[Vec<T>], has_header: bool) -> &[Vec<T>]
    ensures { map (λ row. map T.text row.items) result.now ≡ below_header has_header (map (λ row. map T.text row.items) rows.now) }
{
    match rows {
        [_, more @ ..] if has_header => more,
        _ => rows,
    }
}

/// For each column, whether the word of that number names it.
fn named<T: AsStr>(
    alloc: Global,
    request: Request,
    words: &[String],
    rows: &[Vec<T>],
    number: Option<usize>,
) -> Result<Vec<bool>, AllocError>
    ensures { IfOk result (λ flags. flags.items ≡ map (is_named request (map string_bytes words.now) (map (λ row. map T.text row.items) rows.now) number) (range_with_len 0 (column_count (map (λ row. map T.text row.items) rows.now)))) }
{
    let count = column_count(rows);
    match word_at(words, number) {
        Some(word) => flags_of(alloc, word, headings_of(request, rows), count),
        None => no_flags(alloc, count),
    }
}

/// Whether the cells of a column stand at the right by themselves, since they are numbers.
fn is_found<T: AsStr>(request: Request, rows: &[Vec<T>], col: usize) -> bool
    ensures { result ≡ (request.finds_numbers && is_numeric (below_header request.has_header (map (λ row. map T.text row.items) rows.now)) col) }
{
    request.finds_numbers && is_numeric(below_header(rows, request.has_header), col)
}

/// A side, by whether the word for the left side names a column, that for the middle, and that for the right.
fn side_said(is_left: bool, is_center: bool, is_right: bool) -> Option<ColumnSide>
    ensures { result ≡ (if is_left then Some Left else if is_center then Some Center else if is_right then Some Right else None) }
{
    match (is_left, is_center, is_right) {
        (true, _, _) => Some(ColumnSide::Left),
        (_, true, _) => Some(ColumnSide::Center),
        (_, _, true) => Some(ColumnSide::Right),
        _ => None,
    }
}

/// The side of a column: one that is said, or else the right side where it is one of numbers.
fn side_of<T: AsStr>(
    request: Request,
    rows: &[Vec<T>],
    col: usize,
    said: Option<ColumnSide>,
) -> ColumnSide
    ensures { result ≡ unwrap_or said (if request.finds_numbers && is_numeric (below_header request.has_header (map (λ row. map T.text row.items) rows.now)) col then Right else Left) }
{
    match said {
        Some(side) => side,
        None if is_found(request, rows, col) => ColumnSide::Right,
        None => ColumnSide::Left,
    }
}

/// Returns where the cells of each column stand: as the words say, and else at the right where those below the header are numbers, or say that
/// there is none, one at least a number. Of the words that name a column, by its number or its heading, that for the left side comes first,
/// then that for the middle.
pub fn all_sides<T: AsStr>(
    alloc: Global,
    request: Request,
    words: &[String],
    rows: &[Vec<T>],
) -> Result<Vec<ColumnSide>, AllocError>
    ensures { IfOk result (λ sides. sides.items ≡ sides_of request (map string_bytes words.now) (map (λ row. map T.text row.items) rows.now)) }
{
    let left = named(alloc, request, words, rows, request.left)?;
    let center = named(alloc, request, words, rows, request.center)?;
    let right = named(alloc, request, words, rows, request.right)?;
    let (left, center, right) = (left.as_slice(), center.as_slice(), right.as_slice());
    let mut all = Vec::new(alloc);
    for col in 0..column_count(rows) {
        let said = side_said(left[col], center[col], right[col]);
        all.push(side_of(request, rows, col, said))?;
    }
    Ok(all)
}
