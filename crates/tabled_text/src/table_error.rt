//! Why a call of a table of texts was refused.

ghost use Rattle.std.specs.Prelude.{◌≡◌};
ghost use Rattle.std.specs.IoError.{error_kind};
ghost use Rattle.tabled_text.specs.Refusal.{kind_of};
ghost use Rattle.tabled_text.specs.declared.table_error.TableError.TheVariants.{OutOfMemory as Refused, Write as NotWritten, UnknownStyle as NotKnown};

use std::alloc::{AllocError, AllocFailed};
use std::error::Error;
use std::io::ErrorKind;
use std::{fmt, io};
use tabled_border::OutOfMemory;
use tabled_style::UnknownStyle;

/// A refusal of a call of a `TextTable`. The refusals of memory and of a style's name become one of these by `?`, and one of these
/// becomes an `io::Error`, or an error of `anyhow`, in the same way.
#[derive(Clone, Copy, Debug, PartialEq, Eq)]
pub enum TableError {
    /// Memory was asked for and refused.
    OutOfMemory,
    /// A row has more or fewer cells than row 0.
    UnequalRows {
        /// The first such row, counted from 0.
        row: usize,
        /// How many cells it has.
        cells: usize,
        /// How many row 0 has.
        columns: usize,
    },
    /// A column has more or fewer cells than there are rows.
    UnequalColumn {
        /// The index at which it was to stand, counted from 0.
        column: usize,
        /// How many cells it has.
        cells: usize,
        /// How many rows there are.
        rows: usize,
    },
    /// The writer failed that the text was written to.
    Write,
    /// No ready style has the name that was asked for.
    UnknownStyle,
}

/// One sentence, such as `row 3 has 2 cells where row 0 has 4`.
impl fmt::Display for TableError {
    fn fmt<W: fmt::Write>(&self, f: &mut fmt::Formatter<W>) -> fmt::Result {
        match self {
            TableError::OutOfMemory => write!(f, "{OutOfMemory}"),
            TableError::UnequalRows {
                row,
                cells,
                columns,
            } => write!(f, "row {row} has {cells} cells where row 0 has {columns}"),
            TableError::UnequalColumn {
                column,
                cells,
                rows,
            } => write!(
                f,
                "column {column} has {cells} cells where there are {rows} rows"
            ),
            TableError::Write => f.write_str("the writer failed"),
            TableError::UnknownStyle => write!(f, "{UnknownStyle}"),
        }
    }
}

impl Error for TableError {}

/// So that a program that reads and writes takes a refusal by `?`. The numbers of an unequal row or column are not kept.
impl From<TableError> for io::Error {
    ghost from_gives = { λ refused error. error_kind error ≡ kind_of refused };

    fn from(refused: TableError) -> io::Error {
        match refused {
            TableError::OutOfMemory => io::Error::from(AllocError),
            TableError::UnequalRows { .. } => io::Error::new(
                ErrorKind::InvalidInput,
                "a row does not have as many cells as row 0",
            ),
            TableError::UnequalColumn { .. } => io::Error::new(
                ErrorKind::InvalidInput,
                "a column does not have as many cells as there are rows",
            ),
            TableError::Write => io::Error::from(fmt::Error),
            TableError::UnknownStyle => io::Error::new(
                ErrorKind::InvalidInput,
                "no style of the library has this name",
            ),
        }
    }
}

impl From<OutOfMemory> for TableError {
    ghost from_gives = { λ _ e. e ≡ Refused };

    fn from(_refused: OutOfMemory) -> TableError {
        TableError::OutOfMemory
    }
}

impl From<UnknownStyle> for TableError {
    ghost from_gives = { λ _ e. e ≡ NotKnown };

    fn from(_unknown: UnknownStyle) -> TableError {
        TableError::UnknownStyle
    }
}

impl From<fmt::Error> for TableError {
    ghost from_gives = { λ _ e. e ≡ NotWritten };

    fn from(_failed: fmt::Error) -> TableError {
        TableError::Write
    }
}

impl From<AllocError> for TableError {
    ghost from_gives = { λ _ e. e ≡ Refused };

    fn from(_refused: AllocError) -> TableError {
        TableError::OutOfMemory
    }
}

impl<T: Drop> From<AllocFailed<T>> for TableError {
    ghost from_gives = { λ _ e. e ≡ Refused };

    fn from(_refused: AllocFailed<T>) -> TableError {
        TableError::OutOfMemory
    }
}
