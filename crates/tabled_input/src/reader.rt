//! A reader of CSV, which takes one character after the other.

ghost use Rattle.std.specs.Prelude.{◌≡◌, ℕ, List, [], ◌∷◌, ◌++◌, OnOk};
ghost use Rattle.tabled_input.specs.Quoted.{bare_step, end_at, is_quoted, step_at};
ghost use Rattle.tabled_input.specs.Reading.{is_row_start, rows_with};

use crate::joined::JoinedRows;
use std::alloc::{AllocError, Global};

/// Where a character stands.
#[derive(Clone, Copy, Debug, PartialEq, Eq)]
pub enum At {
    /// At the start of a row.
    RowStart,
    /// At the start of a cell that is not the first of its row.
    CellStart,
    /// In a cell, outside of quotes.
    Bare,
    /// Within quotes.
    Quoted,
    /// After a quote within quotes, which ends them or is the first of two.
    AfterQuote,
}

/// What a character does.
#[derive(Clone, Copy, Debug, PartialEq, Eq)]
pub enum Step {
    /// The character ends the row.
    Row,
    /// The character ends the cell.
    Cell,
    /// The character is one of the cell's, and the next one stands there.
    Letter(At),
    /// The character is none of a cell's, and the next one stands there: a quote around a cell, or a line feed before a row.
    Nothing(At),
}

/// What a character does outside of quotes.
fn bare_step(separator: char, character: char) -> Step
    ensures { result ≡ bare_step separator character }
{
    if character == separator {
        return Step::Cell;
    }
    if character == '\n' {
        return Step::Row;
    }
    Step::Letter(At::Bare)
}

/// What a character does by where it stands.
#[tactic(auto, unfolding(crate::specs::Quoted::step_at))]
fn step_at(separator: char, at: At, character: char) -> Step
    ensures { result ≡ step_at separator at character }
{
    let is_quote = character == '"';
    match at {
        At::RowStart | At::CellStart if is_quote => Step::Nothing(At::Quoted),
        At::RowStart if character == '\n' => Step::Nothing(At::RowStart),
        At::Quoted if is_quote => Step::Nothing(At::AfterQuote),
        At::AfterQuote if is_quote => Step::Letter(At::Quoted),
        At::Quoted => Step::Letter(At::Quoted),
        _ => bare_step(separator, character),
    }
}

/// The rows that were read, the cells of the row that is being read, and what was read of its next cell.
#[derive(Debug, Drop)]
pub struct Reader {
    pub separator: char,
    pub at: At,
    pub read: JoinedRows,
}

impl Reader {
    /// Makes a reader before a text.
    pub fn new(alloc: Global, separator: char) -> Self
        ensures separator { result.separator ≡ separator }
        ensures at { result.at ≡ At.RowStart }
        ensures rows { result.read.rows ≡ [] }
        ensures row { result.read.row ≡ [] }
        ensures cell { result.read.cell ≡ [] }
    {
        Reader {
            separator,
            at: At::RowStart,
            read: JoinedRows::new(alloc),
        }
    }

    /// Ends the cell and its row.
    fn end_row(&mut self) -> Result<(), AllocError>
        ensures rows { OnOk result (self.new.read.rows ≡ self.old.read.rows ++ (self.old.read.row ++ self.old.read.cell ∷ []) ∷ []) }
        ensures row { OnOk result (self.new.read.row ≡ []) }
        ensures cell { OnOk result (self.new.read.cell ≡ []) }
        ensures separator { OnOk result (self.new.separator ≡ self.old.separator) }
    {
        self.read.end_cell()?;
        self.read.end_row()
    }

    /// Takes a character.
    pub fn take(&mut self, character: char) -> Result<(), AllocError>
        ensures rows { (more : List ℕ) → OnOk result (rows_with self.new more ≡ rows_with self.old (character ∷ more)) }
        ensures end { (more : List ℕ) → OnOk result (end_at self.new.separator self.new.at more ≡ end_at self.old.separator self.old.at (character ∷ more)) }
    {
        match step_at(self.separator, self.at, character) {
            Step::Row => {
                self.end_row()?;
                self.at = At::RowStart;
            }
            Step::Cell => {
                self.read.end_cell()?;
                self.at = At::CellStart;
            }
            Step::Letter(next) => {
                self.read.push(character)?;
                self.at = next;
            }
            Step::Nothing(next) => self.at = next,
        }
        Ok(())
    }

    /// Returns whether the text ended within quotes.
    pub fn is_within_quotes(&self) -> bool
        ensures { result ≡ is_quoted self.now.at }
    {
        match self.at {
            At::Quoted => true,
            _ => false,
        }
    }

    /// Whether no row has begun.
    fn is_between_rows(&self) -> bool
        ensures { result ≡ is_row_start self.now.at }
    {
        match self.at {
            At::RowStart => true,
            _ => false,
        }
    }

    /// Ends the row that has begun, if one has.
    pub fn end(&mut self) -> Result<(), AllocError>
        ensures { OnOk result (self.new.read.rows ≡ rows_with self.old []) }
    {
        if self.is_between_rows() {
            return Ok(());
        }
        self.end_row()?;
        Ok(())
    }
}
