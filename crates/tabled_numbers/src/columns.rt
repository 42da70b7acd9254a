//! Columns of numbers.

ghost use Rattle.std.specs.Prelude.{◌≡◌, map};
ghost use Rattle.std.specs.List.{list_all, list_any};
ghost use Rattle.tabled_numbers.specs.Columns.{cell, column_count, is_number_or_none, is_numeric, says_none};
ghost use Rattle.tabled_numbers.specs.Numbers as numbers;

use crate::numbers::is_number;
use std::convert::AsStr;

/// Returns how many columns rows have: as many as the first one has cells.
pub fn column_count<T: AsStr>(rows: &[Vec<T>]) -> usize
    ensures { result ≡ column_count (map (λ row. map T.text row.items) rows.now) }
{
    match rows.first() {
        Some(row) => row.len(),
        None => 0,
    }
}

/// Returns the text of the cell of a row in a column, the empty one past the end of the row.
pub fn text_of<'a, T: AsStr>(cells: &'a [T], col: usize) -> &'a str
    ensures { result.now ≡ cell (map T.text cells.now) col }
{
    match cells.get(col) {
        Some(text) => text.as_str(),
        None => "",
    }
}

/// Whether a text is a word that says that there is no number, in large or small letters.
#[tactic(auto, unfolding(crate::specs::Columns::says_none))]
fn says_none(text: &str) -> bool
    ensures { result ≡ says_none text.now }
{
    text.eq_ignore_ascii_case("-")
        || text.eq_ignore_ascii_case("n/a")
        || text.eq_ignore_ascii_case("null")
        || text.eq_ignore_ascii_case("nan")
}

/// Whether a text is a number, or says that there is none: it is empty, or such a word.
fn is_number_or_none(text: &str) -> bool
    ensures { result ≡ is_number_or_none text.now }
{
    text.is_empty() || is_number(text) || says_none(text)
}

/// Whether each cell of a column is a number, or says that there is none.
fn has_numbers_alone<T: AsStr>(rows: &[Vec<T>], col: usize) -> bool
    ensures { result ≡ list_all (λ row. is_number_or_none (cell row col)) (map (λ row. map T.text row.items) rows.now) }
{
    rows.iter().all(|row| is_number_or_none(text_of(row, col)))
}

/// Whether a cell of a column is a number.
fn has_number<T: AsStr>(rows: &[Vec<T>], col: usize) -> bool
    ensures { result ≡ list_any (λ row. numbers.is_number (cell row col)) (map (λ row. map T.text row.items) rows.now) }
{
    rows.iter().any(|row| is_number(text_of(row, col)))
}

/// Returns whether each cell of a column is a number, or says that there is none, and one of them is a number. A cell says so that is empty, as
/// it is past the end of a row, or that is "-", "n/a", "null" or "nan", in large or small letters.
#[tactic(auto, unfolding(crate::specs::Columns::is_numeric))]
pub fn is_numeric<T: AsStr>(rows: &[Vec<T>], col: usize) -> bool
    ensures { result ≡ is_numeric (map (λ row. map T.text row.items) rows.now) col }
{
    has_numbers_alone(rows, col) && has_number(rows, col)
}
