//! Why an input has no rows.

ghost use Rattle.std.specs.Prelude.{◌≡◌};
ghost use Rattle.tabled_input.specs.Input.{of_csv};
ghost use Rattle.tabled_input.specs.declared.error.InputError.{InputError as Refusal};

use crate::CsvError;
use std::alloc::{AllocError, AllocFailed};

/// Why an input has no rows, in the order in which the reasons are tested. Memory may be refused at any point. Lines, rows and bytes are
/// counted from 1.
#[derive(Clone, Copy, Debug, PartialEq, Eq)]
pub enum InputError {
    /// The input could not be read.
    ReadFailed,
    /// The input has more bytes than are taken.
    TooLong,
    /// The input is no text of UTF-8: the line of the first byte that belongs to none, and its number in the line.
    NotUtf8 { line: usize, byte: usize },
    /// A cell of this row, the last one, begins with a quote, and no other quote ends it: the line on which the quote stands, and the row.
    OpenQuote { line: usize, row: usize },
    /// Memory was asked for and refused.
    OutOfMemory,
}

impl From<AllocError> for InputError {
    ghost from_gives = { λ _ e. e ≡ Refusal.OutOfMemory };

    fn from(_refused: AllocError) -> InputError {
        InputError::OutOfMemory
    }
}

impl<T: Drop> From<AllocFailed<T>> for InputError {
    ghost from_gives = { λ _ e. e ≡ Refusal.OutOfMemory };

    fn from(_refused: AllocFailed<T>) -> InputError {
        InputError::OutOfMemory
    }
}

impl From<CsvError> for InputError {
    ghost from_gives = { λ refused e. e ≡ of_csv refused };

    fn from(refused: CsvError) -> InputError {
        match refused {
            CsvError::OpenQuote { line, row } => InputError::OpenQuote { line, row },
            CsvError::OutOfMemory => InputError::OutOfMemory,
        }
    }
}
