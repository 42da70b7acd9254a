//! Rows of cells whose texts stand one after the other in one text.

ghost use Rattle.std.specs.Prelude.{◌≡◌, ◌<◌, ◌≤◌, ◌++◌, ℕ, List, [], ◌∷◌, encode_utf8, length, map, take, drop, IfOk, OnOk};
ghost use Rattle.std.specs.Str.{IsCharBoundary, IsUtf8};
ghost use Rattle.tabled_input.specs.Joined.{AreTexts, parts, total};
ghost use Rattle.tabled_input.specs.Lines.{cells_of as cells_lent};

use std::alloc::{AllocError, Global};
use std::marker::Model;

/// Rows of cells whose texts stand one after the other in one text, so that no cell takes memory of its own. The last row may go on, and so
/// may its last cell.
#[derive(Debug, Drop)]
pub struct JoinedRows {
    text: String,
    /// How many bytes each cell has that has ended.
    lengths: Vec<usize>,
    /// How many cells each row has that has ended.
    counts: Vec<usize>,
    /// How many bytes the cells have together that have ended.
    ended_bytes: usize,
    /// How many cells the rows have together that have ended.
    ended_cells: usize,
}

impl Model for JoinedRows {
    ghost use Rattle.std.specs.Prelude.{◌≡◌, ◌≤◌, length, string_bytes};
    ghost use Rattle.tabled_input.specs.Joined.{AreTexts, Joined, joined, total};

    ghost Value = { Joined };

    ghost view = { λ all. joined all.counts.items all.lengths.items (string_bytes all.text) };

    ghost invariant = { λ all.
        AreTexts all.lengths.items (string_bytes all.text)
        × (all.ended_bytes ≡ total all.lengths.items)
        × (all.ended_cells ≡ total all.counts.items)
        × (all.ended_cells ≤ length all.lengths.items) };
}

impl JoinedRows {
    /// Returns no rows.
    pub(crate) fn new(alloc: Global) -> Self
        ensures rows { result.rows ≡ [] }
        ensures row { result.row ≡ [] }
        ensures cell { result.cell ≡ [] }
    {
        JoinedRows {
            text: String::new(alloc),
            lengths: Vec::new(alloc),
            counts: Vec::new(alloc),
            ended_bytes: 0,
            ended_cells: 0,
        }
    }

    /// Puts a character to the end of the cell that goes on.
    pub(crate) fn push(&mut self, character: char) -> Result<(), AllocError>
        ensures rows { OnOk result (self.new.rows ≡ self.old.rows) }
        ensures row { OnOk result (self.new.row ≡ self.old.row) }
        ensures cell { OnOk result (self.new.cell ≡ self.old.cell ++ encode_utf8 character) }
    {
        self.text.push(character)?;
        Ok(())
    }

    /// Ends the cell that goes on.
    pub(crate) fn end_cell(&mut self) -> Result<(), AllocError>
        ensures rows { OnOk result (self.new.rows ≡ self.old.rows) }
        ensures row { OnOk result (self.new.row ≡ self.old.row ++ self.old.cell ∷ []) }
        ensures cell { OnOk result (self.new.cell ≡ []) }
    {
        self.lengths.push(self.text.len() - self.ended_bytes)?;
        self.ended_bytes = self.text.len();
        Ok(())
    }

    /// Ends the row that goes on, of the cells that have ended.
    pub(crate) fn end_row(&mut self) -> Result<(), AllocError>
        ensures rows { OnOk result (self.new.rows ≡ self.old.rows ++ self.old.row ∷ []) }
        ensures row { OnOk result (self.new.row ≡ []) }
        ensures cell { OnOk result (self.new.cell ≡ self.old.cell) }
    {
        self.counts.push(self.lengths.len() - self.ended_cells)?;
        self.ended_cells = self.lengths.len();
        Ok(())
    }

    /// Returns what the cell that goes on has so far.
    pub(crate) fn open_cell(&self) -> &str
        ensures { result.now ≡ self.now.cell }
    {
        &self.text[self.ended_bytes..]
    }

    /// Returns how many rows have ended.
    pub fn count(&self) -> usize
        ensures count { result ≡ length self.now.rows }
        ensures bound { result < usize.MAX }
    {
        self.counts.len()
    }

    /// Returns the rows that have ended; their cells are lent. Only memory can be refused.
    pub fn rows(&self, alloc: Global) -> Result<Vec<Vec<&str>>, AllocError>
        ensures { IfOk result (λ rows. cells_lent rows.items ≡ self.now.rows) }
    {
        rows_of(alloc, self.text.as_str(), &self.lengths, &self.counts)
    }
}

/// The first so many bytes of a text, and what follows them; where no character ends there, nothing and all of it.
fn cut(text: &str, at: usize) -> (&str, &str)
    ensures parts { IsCharBoundary text.now at → (result.0.now ≡ take at text.now) × (result.1.now ≡ drop at text.now) }
    ensures utf8 { IsUtf8 result.0.now × IsUtf8 result.1.now }
{
    match text.split_at_checked(at) {
        Some(parts) => parts,
        None => ("", text),
    }
}

/// Texts of these lengths, which stand one after the other at the start of a text, and what follows them.
fn cells_of<'a>(
    alloc: Global,
    text: &'a str,
    lengths: &[usize],
) -> Result<(Vec<&'a str>, &'a str), AllocError>
    ensures utf8 { IfOk result (λ cut. IsUtf8 cut.1.now) }
    ensures parts { (more : List ℕ) → AreTexts (lengths.now ++ more) text.now → IfOk result (λ cut. (map (λ cell. cell.now) cut.0.items ≡ parts lengths.now text.now)
        × (cut.1.now ≡ drop (total lengths.now) text.now)) }
{
    let mut cells = Vec::with_capacity(alloc, lengths.len())?;
    let mut rest = text;
    for len in lengths {
        let (cell, more) = cut(rest, *len);
        cells.push(cell)?;
        rest = more;
    }
    Ok((cells, rest))
}

/// Rows of so many cells each, of texts of these lengths that stand one after the other in a text.
fn rows_of<'a>(
    alloc: Global,
    text: &'a str,
    lengths: &[usize],
    counts: &[usize],
) -> Result<Vec<Vec<&'a str>>, AllocError>
    requires texts { AreTexts lengths.now text.now }
    requires within { total counts.now ≤ length lengths.now }
    ensures { IfOk result (λ rows. cells_lent rows.items ≡ parts counts.now (parts lengths.now text.now)) }
{
    let mut rows = Vec::with_capacity(alloc, counts.len())?;
    let mut rest = text;
    let mut left = lengths;
    for count in counts {
        let (here, below) = left.split_at(*count);
        let (row, more) = cells_of(alloc, rest, here)?;
        rows.push(row)?;
        rest = more;
        left = below;
    }
    Ok(rows)
}
