//! Why the program shows no table.

ghost use Rattle.std.specs.Prelude.{◌≡◌};
ghost use Rattle.std.specs.IoError.{error_kind};
ghost use Rattle.tabled_pages.specs.Refusal.{kind_of};
ghost use Rattle.tabled_pages.specs.declared.error.ShowError.TheVariants.{OutOfMemory};

use std::alloc::{AllocError, AllocFailed};
use std::error::Error;
use std::io::ErrorKind;
use std::{fmt, io};

/// Why the program shows no table, in the order in which the reasons are tested. Memory may be
/// refused at any point after the first.
#[derive(Clone, Copy, Debug, PartialEq, Eq)]
pub enum ShowError {
    /// There is not one argument, or it names no style.
    Usage,
    /// Standard input could not be read.
    ReadFailed,
    /// The input has more bytes than the program takes.
    TooLong,
    /// The input has a byte that is no printable character of ASCII, no tab and no line feed.
    ByteOutOfRange,
    /// Two rows differ in how many cells they have.
    UnequalRows,
    /// Memory was asked for and refused.
    OutOfMemory,
    /// Standard output could not be written.
    WriteFailed,
}

impl ShowError {
    ghost use Rattle.tabled_pages.specs.Refusal.{text_of, status_of};

    /// Returns what the program says on standard error.
    pub fn text(&self) -> &'static str
        ensures { result.now ≡ text_of self.now }
    {
        match self {
            ShowError::Usage => "usage: tabled_show STYLE",
            ShowError::ReadFailed => "read failed",
            ShowError::TooLong => "input too long",
            ShowError::ByteOutOfRange => "byte out of range",
            ShowError::UnequalRows => "rows of unequal count",
            ShowError::OutOfMemory => "out of memory",
            ShowError::WriteFailed => "write failed",
        }
    }

    /// Returns the status that the program ends with.
    pub fn status(&self) -> u8
        ensures { result ≡ status_of self.now }
    {
        match self {
            ShowError::Usage => 2,
            ShowError::ReadFailed => 1,
            ShowError::TooLong => 5,
            ShowError::ByteOutOfRange => 4,
            ShowError::UnequalRows => 3,
            ShowError::OutOfMemory => 1,
            ShowError::WriteFailed => 1,
        }
    }
}

/// The text that the program says.
impl fmt::Display for ShowError {
    fn fmt<W: fmt::Write>(&self, f: &mut fmt::Formatter<W>) -> fmt::Result {
        f.write_str(self.text())
    }
}

impl Error for ShowError {}

/// So that a program that reads and writes takes a refusal by `?`: as one of memory, of reading or writing, or of its input.
impl From<ShowError> for io::Error {
    ghost from_gives = { λ refused error. error_kind error ≡ kind_of refused };

    fn from(refused: ShowError) -> io::Error {
        match refused {
            ShowError::OutOfMemory => io::Error::from(AllocError),
            ShowError::ReadFailed | ShowError::WriteFailed => {
                io::Error::new(ErrorKind::Other, refused.text())
            }
            _ => io::Error::new(ErrorKind::InvalidInput, refused.text()),
        }
    }
}

impl From<AllocError> for ShowError {
    ghost from_gives = { λ _ e. e ≡ OutOfMemory };

    fn from(_refused: AllocError) -> ShowError {
        ShowError::OutOfMemory
    }
}

impl<T: Drop> From<AllocFailed<T>> for ShowError {
    ghost from_gives = { λ _ e. e ≡ OutOfMemory };

    fn from(_refused: AllocFailed<T>) -> ShowError {
        ShowError::OutOfMemory
    }
}

impl From<tabled_grid::OutOfMemory> for ShowError {
    ghost from_gives = { λ _ e. e ≡ OutOfMemory };

    fn from(_refused: tabled_grid::OutOfMemory) -> ShowError {
        ShowError::OutOfMemory
    }
}
