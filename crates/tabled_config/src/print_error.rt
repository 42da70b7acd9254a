//! Why a table was not printed.

ghost use Rattle.std.specs.Prelude.{◌≡◌};
ghost use Rattle.std.specs.IoError.{error_kind};
ghost use Rattle.tabled_config.specs.Refusal.{kind_of};
ghost use Rattle.tabled_config.specs.declared.print_error.PrintError.TheVariants.{OutOfMemory as Refused};

use std::alloc::{AllocError, AllocFailed};
use std::error::Error;
use std::io::ErrorKind;
use std::{fmt, io};
use tabled_border::OutOfMemory;

/// A refusal of the printer. Nothing was written. They stand in the order in which they are looked for,
/// the first one last: memory is asked for only once a table has been found good.
#[derive(Clone, Copy, Debug, PartialEq, Eq)]
pub enum PrintError {
    /// Memory was asked for and refused.
    OutOfMemory,
    /// A span is set somewhere; tables with spans are not printed.
    Spans,
    /// There are not as many rows of cells as the table has rows.
    RowCount,
    /// The row of this number, counted from 0, does not have as many cells as the table has columns.
    ColumnCount(usize),
    /// The text of the cell at this row and column does not have as many lines as its row is high.
    Height(usize, usize),
    /// A line of the text of the cell at this row and column is not as wide as its column.
    Width(usize, usize),
}

/// One sentence, such as `row 3 needs one cell for each column`.
impl fmt::Display for PrintError {
    fn fmt<W: fmt::Write>(&self, f: &mut fmt::Formatter<W>) -> fmt::Result {
        match self {
            PrintError::OutOfMemory => write!(f, "{OutOfMemory}"),
            PrintError::Spans => f.write_str("tables with spans are not printed, and one is set"),
            PrintError::RowCount => f.write_str(
                "the table needs one row of cells for each of its rows",
            ),
            PrintError::ColumnCount(row) => write!(f, "row {row} needs one cell for each column"),
            PrintError::Height(row, col) => write!(
                f,
                "cell ({row}, {col}) needs as many lines as its row is high"
            ),
            PrintError::Width(row, col) => write!(
                f,
                "each line of cell ({row}, {col}) must be as wide as its column"
            ),
        }
    }
}

impl Error for PrintError {}

/// So that a program that reads and writes takes a refusal by `?`: as one of memory, or of its input. Numbers of rows and columns are
/// not kept.
impl From<PrintError> for io::Error {
    ghost from_gives = { λ refused error. error_kind error ≡ kind_of refused };

    fn from(refused: PrintError) -> io::Error {
        match refused {
            PrintError::OutOfMemory => io::Error::from(AllocError),
            _ => io::Error::new(
                ErrorKind::InvalidInput,
                "the table cannot be printed with these cells",
            ),
        }
    }
}

impl From<OutOfMemory> for PrintError {
    ghost from_gives = { λ _ e. e ≡ Refused };

    fn from(_refused: OutOfMemory) -> PrintError {
        PrintError::OutOfMemory
    }
}

impl From<AllocError> for PrintError {
    ghost from_gives = { λ _ e. e ≡ Refused };

    fn from(_refused: AllocError) -> PrintError {
        PrintError::OutOfMemory
    }
}

impl<T: Drop> From<AllocFailed<T>> for PrintError {
    ghost from_gives = { λ _ e. e ≡ Refused };

    fn from(_refused: AllocFailed<T>) -> PrintError {
        PrintError::OutOfMemory
    }
}
