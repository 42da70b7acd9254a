//! Columns that words name.

ghost use Rattle.std.specs.Prelude.{◌≡◌, ℕ, ◌-◌, ◌<◌, ◌≤◌, false, ◌||◌, ◌==◌, ◌++◌, IfOk, OnOk, get_or, replicate, length, filter, map, option_map};
ghost use Rattle.std.specs.List.{list_any, before_first, after_first, range_with_len};
ghost use Rattle.tabled_request.specs.Columns.{are_columns, both, columns_named, columns_of_part, has_heading, is_dash, is_in, is_one, is_part, is_range, numbers_of, unknown_part};

use crate::numerals::number_of;
use std::alloc::{AllocError, Global};
use std::convert::AsStr;

/// Two numbers, where both are.
fn both(first: Option<usize>, last: Option<usize>) -> Option<(usize, usize)>
    ensures { result ≡ both first last }
{
    match (first, last) {
        (Some(first), Some(last)) => Some((first, last)),
        _ => None,
    }
}

/// Whether a byte is a dash.
fn has_dash(bytes: &[u8]) -> bool
    ensures { result ≡ list_any is_dash bytes.now }
{
    bytes.iter().any(|byte| *byte == b'-')
}

/// What stands before the first dash of a text, and what stands after it; without one the whole text, and nothing.
fn cut(text: &str) -> (&str, &str)
    ensures before { result.0.now ≡ before_first is_dash text.now }
    ensures after { result.1.now ≡ after_first is_dash text.now }
{
    match text.split_once('-') {
        Some(parts) => parts,
        None => (text, ""),
    }
}

/// The first and the last number of a part of a word that is a number, or two with a dash between them.
#[tactic(auto, unfolding(crate::specs::Columns::numbers_of))]
fn numbers_of(part: &str) -> Option<(usize, usize)>
    ensures { result ≡ numbers_of part.now }
{
    if !has_dash(part.as_bytes()) {
        let number = number_of(part);
        return both(number, number);
    }
    let (first, last) = cut(part);
    both(number_of(first), number_of(last))
}

/// Whether numbers are a range, from 1 on and not backward.
fn is_range(numbers: (usize, usize)) -> bool
    ensures { result ≡ is_range numbers }
{
    let (first, last) = numbers;
    1 <= first && first <= last
}

/// Whether a part of a word may name columns: by a range, or by a heading that is not empty.
fn is_part(part: &str) -> bool
    ensures { result ≡ is_part part.now }
{
    match numbers_of(part) {
        Some(numbers) => is_range(numbers),
        None => !part.is_empty(),
    }
}

/// Returns whether each part of a word, between commas, may name columns: by a number from 1 on, by two with a dash between them that do not
/// go backward, or by a heading, which is any other text that is not empty.
pub fn are_columns(word: &str) -> bool
    ensures { result ≡ are_columns word.now }
{
    word.split(',').all(|part| is_part(part))
}

/// The first column of a range, counted from 0, and the one after its last, of so many columns.
fn reach(numbers: (usize, usize), count: usize) -> (usize, usize)
    ensures columns { filter (is_in numbers) (range_with_len 0 count) ≡ range_with_len result.0 (result.1 - result.0) }
    ensures within { result.1 ≤ count }
{
    let (first, last) = numbers;
    (first.saturating_sub(1), last.min(count))
}

/// Puts the columns of a range, of so many, after others.
fn put_range(
    columns: &mut Vec<usize>,
    numbers: (usize, usize),
    count: usize,
) -> Result<(), AllocError>
    ensures { OnOk result (columns.new.items ≡ columns.old.items ++ filter (is_in numbers) (range_with_len 0 count)) }
{
    let (from, to) = reach(numbers, count);
    for col in from..to {
        columns.push(col)?;
    }
    Ok(())
}

/// Whether the heading of a column is a text.
fn has_heading<T: AsStr>(headings: &[T], text: &str, col: usize) -> bool
    ensures { result ≡ has_heading (map T.text headings.now) text.now col }
{
    match headings.get(col) {
        Some(heading) => heading.as_str() == text,
        None => false,
    }
}

/// Puts the columns whose heading is a text, of so many, after others.
fn put_headed<T: AsStr>(
    columns: &mut Vec<usize>,
    headings: &[T],
    text: &str,
    count: usize,
) -> Result<(), AllocError>
    ensures { OnOk result (columns.new.items ≡ columns.old.items ++ filter (has_heading (map T.text headings.now) text.now) (range_with_len 0 count)) }
{
    for col in 0..headings.len().min(count) {
        if has_heading(headings, text, col) {
            columns.push(col)?;
        }
    }
    Ok(())
}

/// Puts the columns that a part of a word names, of so many, after others.
#[tactic(auto, unfolding(crate::specs::Columns::columns_of_part))]
fn put_columns<T: AsStr>(
    columns: &mut Vec<usize>,
    part: &str,
    headings: &[T],
    count: usize,
) -> Result<(), AllocError>
    ensures { OnOk result (columns.new.items ≡ columns.old.items ++ columns_of_part (map T.text headings.now) count part.now) }
{
    match numbers_of(part) {
        Some(numbers) => put_range(columns, numbers, count),
        None => put_headed(columns, headings, part, count),
    }
}

/// Returns the columns that a word names, part after part between commas, of so many that there are, counted from 0: of a number or a range
/// those that it names, and of any other part those whose heading it is, byte by byte.
pub fn columns_named<T: AsStr>(
    alloc: Global,
    word: &str,
    headings: &[T],
    count: usize,
) -> Result<Vec<usize>, AllocError>
    ensures { IfOk result (λ columns. columns.items ≡ columns_named word.now (map T.text headings.now) count) }
{
    let mut columns = Vec::new(alloc);
    for part in word.split(',') {
        put_columns(&mut columns, part, headings, count)?;
    }
    Ok(columns)
}

/// Whether one of so many columns has a text for its heading.
fn is_heading<T: AsStr>(headings: &[T], text: &str, count: usize) -> bool
    ensures { result ≡ list_any (has_heading (map T.text headings.now) text.now) (range_with_len 0 count) }
{
    (0..headings.len().min(count)).any(|col| has_heading(headings, text, col))
}

/// Whether a part of a word names no column, of so many.
#[tactic(auto, unfolding(crate::specs::Columns::columns_of_part))]
fn is_unknown<T: AsStr>(part: &str, headings: &[T], count: usize) -> bool
    ensures { result ≡ (length (columns_of_part (map T.text headings.now) count part.now) == 0) }
{
    match numbers_of(part) {
        Some(numbers) => {
            let (from, to) = reach(numbers, count);
            to <= from
        }
        None => !is_heading(headings, part, count),
    }
}

/// Returns the number, counted from 0, of the first part of a word, between commas, that names no column, of so many that there are: by its
/// number, as one of a range, or by its heading.
pub fn unknown_part<T: AsStr>(word: &str, headings: &[T], count: usize) -> Option<usize>
    ensures { result ≡ unknown_part word.now (map T.text headings.now) count }
{
    word.split(',')
        .position(|part| is_unknown(part, headings, count))
}

/// Sets the flag of a column, if it has one.
fn set_flag(flags: &mut [bool], col: usize)
    ensures same_length { length flags.new ≡ length flags.old }
    ensures set { (k : ℕ) → k < length flags.old → get_or flags.new k false ≡ (get_or flags.old k false || (col == k)) }
{
    if col < flags.len() {
        flags[col] = true;
    }
}

/// Sets the flags of columns.
fn set_flags(flags: &mut [bool], columns: &[usize])
    ensures same_length { length flags.new ≡ length flags.old }
    ensures set { (col : ℕ) → col < length flags.old → get_or flags.new col false ≡ (get_or flags.old col false || is_one columns.now col) }
{
    for col in columns {
        set_flag(flags, *col);
    }
}

/// For each column, of so many, that no word names it.
pub(crate) fn no_flags(alloc: Global, count: usize) -> Result<Vec<bool>, AllocError>
    ensures { IfOk result (λ flags. flags.items ≡ replicate count false) }
{
    vec![in alloc; false; count]
}

/// For each column, of so many, whether a word names it.
pub(crate) fn flags_of<T: AsStr>(
    alloc: Global,
    word: &str,
    headings: &[T],
    count: usize,
) -> Result<Vec<bool>, AllocError>
    ensures { IfOk result (λ flags. flags.items ≡ map (is_one (columns_named word.now (map T.text headings.now) count)) (range_with_len 0 count)) }
{
    let mut flags = no_flags(alloc, count)?;
    let mut columns = Vec::new(alloc);
    for part in word.split(',') {
        columns.clear();
        put_columns(&mut columns, part, headings, count)?;
        set_flags(&mut flags, &columns);
    }
    Ok(flags)
}
