//! The rows of a text in CSV.

ghost use Rattle.std.specs.Prelude.{◌≡◌, ◌==◌, ◌+◌, ◌-◌, ◌⊎◌, ◌∷◌, [], ℕ, List, true, false, chars, length, IfOk, IfErr, OnOk};
ghost use Rattle.tabled_input.specs.Lines.{line_feeds};
ghost use Rattle.tabled_input.specs.Quoted.{csv_rows, end_at, has_open_quote, line_of_last, without_returns};
ghost use Rattle.tabled_input.specs.Reading.{going_on, rows_with};
ghost use Rattle.tabled_input.specs.Written.{IsWritten};
ghost use Rattle.tabled_input.specs.declared.quoted.CsvError.{CsvError as Refusal};

use crate::joined::JoinedRows;
use crate::lines::line_feeds;
use crate::reader::Reader;
use std::alloc::{AllocError, Global};

/// Why a text has no rows.
#[derive(Clone, Copy, Debug, PartialEq, Eq)]
pub enum CsvError {
    /// A cell of the last row begins with a quote, and no other quote ends it: the line on which the quote stands, and the row, both counted
    /// from 1.
    OpenQuote { line: usize, row: usize },
    /// Memory was asked for and refused.
    OutOfMemory,
}

impl From<AllocError> for CsvError {
    ghost from_gives = { λ _ e. e ≡ Refusal.OutOfMemory };

    fn from(_refused: AllocError) -> CsvError {
        CsvError::OutOfMemory
    }
}

/// Takes a carriage return that was held back, unless a line feed comes next.
#[tactic(auto, unfolding(crate::specs::Quoted::without_returns))]
fn release(reader: &mut Reader, is_held: bool, next: char) -> Result<(), AllocError>
    ensures rows { (more : List ℕ) → OnOk result (rows_with reader.new (going_on false (next ∷ more)) ≡ rows_with reader.old (going_on is_held (next ∷ more))) }
    ensures end { (more : List ℕ) → OnOk result (end_at reader.new.separator reader.new.at (going_on false (next ∷ more)) ≡ end_at reader.old.separator reader.old.at (going_on is_held (next ∷ more))) }
{
    if !is_held {
        return Ok(());
    }
    if next == '\n' {
        return Ok(());
    }
    reader.take('\r')?;
    Ok(())
}

/// Takes a character, or holds it back if it is a carriage return, and answers whether one is held back.
#[tactic(auto, unfolding(crate::specs::Quoted::without_returns))]
fn put(reader: &mut Reader, is_held: bool, character: char) -> Result<bool, AllocError>
    ensures rows { (more : List ℕ) → IfOk result (λ holds. rows_with reader.new (going_on holds more) ≡ rows_with reader.old (going_on is_held (character ∷ more))) }
    ensures end { (more : List ℕ) → IfOk result (λ holds. end_at reader.new.separator reader.new.at (going_on holds more) ≡ end_at reader.old.separator reader.old.at (going_on is_held (character ∷ more))) }
{
    release(reader, is_held, character)?;
    if character == '\r' {
        return Ok(true);
    }
    reader.take(character)?;
    Ok(false)
}

/// Takes a carriage return that is held back at the end of a text.
#[tactic(auto, unfolding(crate::specs::Quoted::without_returns))]
fn finish(reader: &mut Reader, is_held: bool) -> Result<(), AllocError>
    ensures rows { OnOk result (rows_with reader.new [] ≡ rows_with reader.old (going_on is_held [])) }
    ensures end { OnOk result (end_at reader.new.separator reader.new.at [] ≡ end_at reader.old.separator reader.old.at (going_on is_held [])) }
{
    if !is_held {
        return Ok(());
    }
    reader.take('\r')?;
    Ok(())
}

/// Takes the characters of a text.
fn read(reader: &mut Reader, text: &str) -> Result<(), AllocError>
    ensures rows { OnOk result (rows_with reader.new [] ≡ rows_with reader.old (without_returns (chars text.now))) }
    ensures end { OnOk result (reader.new.at ≡ end_at reader.old.separator reader.old.at (without_returns (chars text.now))) }
{
    let mut is_held = false;
    for character in text.chars() {
        is_held = put(reader, is_held, character)?;
    }
    finish(reader, is_held)?;
    Ok(())
}

/// The line of a text on which a cell begins that goes on to its end.
fn line_of_last(text: &str, cell: &str) -> usize
    ensures { result ≡ line_feeds text.now - line_feeds cell.now + 1 }
{
    let above = line_feeds(text.as_bytes());
    above.saturating_sub(line_feeds(cell.as_bytes())) + 1
}

/// Returns the rows of a text in CSV, whose cells stand between separators. A cell that begins with a quote ends with one, and may have
/// separators and line feeds; two quotes in it are one. A line feed, or a carriage return and a line feed, ends a row. Refused where the last
/// cell has no quote that ends it, and where memory is.
pub fn csv(alloc: Global, text: &str, separator: char) -> Result<JoinedRows, CsvError>
    ensures rows { IfOk result (λ read. read.rows ≡ csv_rows separator text.now) }
    ensures closed { OnOk result (has_open_quote separator text.now ≡ false) }
    ensures refused { IfErr result (λ e. (e ≡ Refusal.OutOfMemory) ⊎ ((has_open_quote separator text.now ≡ true) × (e ≡ Refusal.OpenQuote (line_of_last text.now (csv_rows separator text.now)) (length (csv_rows separator text.now))))) }

    // A text is written for the rows that are read, where the separator is no quote and no line feed; and no others are read of it.
    ensures grammar { (separator == 34) ≡ false → (separator == 10) ≡ false → IfOk result (λ read. IsWritten separator read.rows text.now) }
    ensures written { (rows : List (List (List ℕ))) → IsWritten separator rows text.now → IfOk result (λ read. read.rows ≡ rows) }
    ensures memory_alone { (rows : List (List (List ℕ))) → IsWritten separator rows text.now → IfErr result (λ e. e ≡ Refusal.OutOfMemory) }
{
    let mut reader = Reader::new(alloc, separator);
    read(&mut reader, text)?;
    if reader.is_within_quotes() {
        return Err(CsvError::OpenQuote {
            line: line_of_last(text, reader.read.open_cell()),
            row: reader.read.count() + 1,
        });
    }
    reader.end()?;
    Ok(reader.read)
}
