//! The rows of an input.

ghost use Rattle.std.specs.Prelude.{◌≡◌, ◌==◌, ◌≤◌, false, length, string_bytes, IfErr, IfOk, OnOk};
ghost use Rattle.std.specs.Str.{IsUtf8};
ghost use Rattle.std.specs.Str.Lossy.{utf8_valid_len};
ghost use Rattle.tabled_input.specs.Input.{not_utf8, without_mark};

use crate::error::InputError;
use crate::joined::JoinedRows;
use crate::place::place_after;
use crate::read::{INPUT_LIMIT, read_input};
use crate::{csv, separated, spaced};
use std::alloc::{AllocError, Global};
use std::io::Read;
use std::marker::Model;

/// How the cells of an input stand.
#[derive(Clone, Copy, Debug, PartialEq, Eq)]
pub enum Cells {
    /// Between separators, a row in a line.
    Separated(char),
    /// As CSV has them, between separators.
    Quoted(char),
    /// Between runs of blanks, a row in a line.
    Spaced,
}

/// The refusal of an input that is no text of UTF-8.
fn refusal_of(input: &[u8]) -> InputError
    requires within { length input.now ≤ INPUT_LIMIT }
    requires no_text { ¬ (IsUtf8 input.now) }
    ensures refusal { result ≡ not_utf8 input.now }
    ensures no_text { (utf8_valid_len input.now == length input.now) ≡ false }
{
    match str::from_utf8(input) {
        Ok(_) => unreachable!("it is no text"),
        Err(refused) => {
            let (line, byte) = place_after(&input[..refused.valid_up_to()]);
            InputError::NotUtf8 { line, byte }
        }
    }
}

/// An input as a text. Refused where it is none of UTF-8.
fn as_text(input: Vec<u8>) -> Result<String, InputError>
    requires { length input.items ≤ INPUT_LIMIT }
    ensures text { IfOk result (λ text. string_bytes text ≡ input.items) }
    ensures utf8 { OnOk result (IsUtf8 input.items) }
    ensures refused { IfErr result (λ e. (e ≡ not_utf8 input.items) × ((utf8_valid_len input.items == length input.items) ≡ false)) }
{
    match String::from_utf8(input) {
        Ok(text) => Ok(text),
        Err(refused) => Err(refusal_of(refused.as_bytes())),
    }
}

/// A text without one byte order mark at its start.
fn without_mark(text: &str) -> &str
    ensures { result.now ≡ without_mark text.now }
{
    match text.strip_prefix('\u{feff}') {
        Some(rest) => rest,
        None => text,
    }
}

/// An input that was read, and the rows of cells that it has: no cell takes memory of its own.
#[derive(Debug, Drop)]
pub struct Input {
    cells: Cells,
    /// What was read, in which cells stand as they are.
    text: String,
    /// The cells of CSV, which may stand otherwise in what was read.
    quoted: JoinedRows,
}

impl Model for Input {
    ghost use Rattle.std.specs.Prelude.{ℕ, List, string_bytes};
    ghost use Rattle.tabled_input.specs.Input.{rows_held};

    ghost Value = { List (List (List ℕ)) };

    ghost view = { λ input. rows_held input.cells (string_bytes input.text) input.quoted.rows };
}

impl Input {
    ghost use Rattle.std.specs.Prelude.{◌≡◌, ◌+◌, ◌≤◌, ◌⊎◌, ℕ, List, None, Some, length, string_bytes, IfErr, IfOk, IfSome, OnOk};
    ghost use Rattle.std.specs.Io.KnownBytes.{Consumes, IsAtEnd};
    ghost use Rattle.tabled_input.specs.Input.{fault_of, fault_of_text, rows_in, rows_of_text, without_mark};
    ghost use Rattle.tabled_input.specs.Lines.{cells_of};
    ghost use Rattle.tabled_input.specs.Spaced.{AreEven};
    ghost use Rattle.tabled_input.specs.declared.error.InputError.{InputError as Refusal};

    /// Reads an input whole, and at most one byte past the limit of 268,435,456 bytes; one byte order mark at its start is dropped. Over a
    /// reader that tells its bytes, the rows are those of these bytes, and a refusal is the first fault that they have; unless reading
    /// failed, or memory was refused. Where cells stand between blanks, all rows have as many.
    pub fn read<R: Read>(alloc: Global, cells: Cells, input: &mut R) -> Result<Self, InputError>
        ensures whole { OnOk result (IsAtEnd (R.remaining input.new)) }
        ensures rows { IfOk result (λ read. IfSome (R.remaining input.old) (λ bytes. read ≡ rows_in cells bytes)) }
        ensures even { cells ≡ Cells.Spaced → IfOk result (λ read. AreEven read) }
        ensures good { OnOk result (IfSome (R.remaining input.old) (λ bytes. fault_of cells bytes ≡ None)) }
        ensures refused { IfErr result (λ e. (e ≡ Refusal.OutOfMemory) ⊎ (e ≡ Refusal.ReadFailed) ⊎ IfSome (R.remaining input.old) (λ bytes. fault_of cells bytes ≡ Some e)) }
        ensures at_most { (taken : List ℕ) × Consumes (R.remaining input.old) (R.remaining input.new) taken × (length taken ≤ INPUT_LIMIT + 1) }
    {
        let bytes = read_input(alloc, INPUT_LIMIT, input)?;
        Input::of_bytes(alloc, cells, bytes)
    }

    /// The input of some bytes.
    fn of_bytes(alloc: Global, cells: Cells, bytes: Vec<u8>) -> Result<Self, InputError>
        requires { length bytes.items ≤ INPUT_LIMIT }
        ensures rows { IfOk result (λ read. read ≡ rows_in cells bytes.items) }
        ensures good { OnOk result (fault_of cells bytes.items ≡ None) }
        ensures refused { IfErr result (λ e. (e ≡ Refusal.OutOfMemory) ⊎ (fault_of cells bytes.items ≡ Some e)) }
    {
        let text = as_text(bytes)?;
        Input::of_text(alloc, cells, text)
    }

    /// The input of a text.
    fn of_text(alloc: Global, cells: Cells, text: String) -> Result<Self, InputError>
        ensures rows { IfOk result (λ read. read ≡ rows_of_text cells (without_mark (string_bytes text))) }
        ensures good { OnOk result (fault_of_text cells (without_mark (string_bytes text)) ≡ None) }
        ensures refused { IfErr result (λ e. (e ≡ Refusal.OutOfMemory) ⊎ (fault_of_text cells (without_mark (string_bytes text)) ≡ Some e)) }
    {
        match cells {
            Cells::Quoted(separator) => {
                let quoted = csv(alloc, without_mark(text.as_str()), separator)?;
                let text = String::new(alloc);
                Ok(Input {
                    cells,
                    text,
                    quoted,
                })
            }
            Cells::Separated(_) | Cells::Spaced => {
                let quoted = JoinedRows::new(alloc);
                Ok(Input {
                    cells,
                    text,
                    quoted,
                })
            }
        }
    }

    /// Returns the rows of the input, whose cells are lent. Only memory can be refused.
    pub fn rows(&self, alloc: Global) -> Result<Vec<Vec<&str>>, AllocError>
        ensures { IfOk result (λ rows. cells_of rows.items ≡ self.now) }
    {
        let text = without_mark(self.text.as_str());
        match self.cells {
            Cells::Separated(separator) => separated(alloc, text, separator),
            Cells::Quoted(_) => self.quoted.rows(alloc),
            Cells::Spaced => spaced(alloc, text),
        }
    }
}
