//! Cells that words name.

ghost use Rattle.std.specs.Prelude.{◌≡◌, codes, IfOk};
ghost use Rattle.std.specs.List.{before_first, after_first};
ghost use Rattle.std.specs.Str.{bytes_eq};
ghost use Rattle.tabled_request.specs.Cells.{are_cells, cells_of, is_cell, is_colon, is_part, named_cells, part_of};

use crate::numerals::{from_one, number_of};
use std::alloc::{AllocError, Global};

/// Whether a word is a star, which stands for all rows or all columns.
fn is_star(word: &str) -> bool
    ensures { result ≡ bytes_eq word.now (codes "*") }
{
    word == "*"
}

/// Whether a word stands for a row or a column: a number from 1 on, or a star.
fn is_part(word: &str) -> bool
    ensures { result ≡ is_part word.now }
{
    is_star(word) || from_one(number_of(word)).is_some()
}

/// What a word stands for, of all rows or all columns.
#[derive(Clone, Copy, Debug, PartialEq, Eq)]
pub struct Choice {
    /// All of them.
    pub is_all: bool,
    /// The one of this number, counted from 1.
    pub number: Option<usize>,
}

impl Choice {
    /// What a word stands for.
    fn of(word: &str) -> Choice
        ensures { result ≡ part_of word.now }
    {
        Choice {
            is_all: is_star(word),
            number: number_of(word),
        }
    }
}

/// The cells that a part of a word names: those in these rows and these columns.
#[derive(Clone, Copy, Debug, PartialEq, Eq)]
pub struct NamedCells {
    /// Their rows.
    pub rows: Choice,
    /// Their columns.
    pub cols: Choice,
}

/// What stands before the first colon of a text, and what stands after it; without one the whole text, and nothing.
fn cut(text: &str) -> (&str, &str)
    ensures before { result.0.now ≡ before_first is_colon text.now }
    ensures after { result.1.now ≡ after_first is_colon text.now }
{
    match text.split_once(':') {
        Some(parts) => parts,
        None => (text, ""),
    }
}

/// Whether a part of a word names cells: by a row and a column with a colon between them.
#[tactic(auto, unfolding(crate::specs::Cells::is_cell))]
fn is_cell(part: &str) -> bool
    ensures { result ≡ is_cell part.now }
{
    let (row, col) = cut(part);
    is_part(row) && is_part(col)
}

/// The cells that a part of a word names.
#[tactic(auto, unfolding(crate::specs::Cells::cells_of))]
fn cells_of(part: &str) -> NamedCells
    ensures { result ≡ cells_of part.now }
{
    let (rows, cols) = cut(part);
    NamedCells {
        rows: Choice::of(rows),
        cols: Choice::of(cols),
    }
}

/// Returns whether each part of a word, between commas, names cells: by a row and a column with a colon between them, each a number from 1
/// on, or a star for all.
pub fn are_cells(word: &str) -> bool
    ensures { result ≡ are_cells word.now }
{
    word.split(',').all(|part| is_cell(part))
}

/// Returns the cells that each part of a word names, between commas.
pub fn named_cells(alloc: Global, word: &str) -> Result<Vec<NamedCells>, AllocError>
    ensures { IfOk result (λ named. named.items ≡ named_cells word.now) }
{
    let mut named = Vec::new(alloc);
    for part in word.split(',') {
        named.push(cells_of(part))?;
    }
    Ok(named)
}
