//! The one refusal that every call may meet which needs memory.

ghost use Rattle.std.specs.Prelude.{◌≡◌, codes, Some};
ghost use Rattle.std.specs.IoError.{error_kind};
ghost use Rattle.std.specs.declared.io.ErrorKind.TheVariants.{OutOfMemory as memory_refused};

use std::alloc::{AllocError, AllocFailed};
use std::error::Error;
use std::{fmt, io};

/// Memory was asked for and refused. What the call was to change is as it was before.
#[derive(Clone, Copy, Debug, PartialEq, Eq)]
pub struct OutOfMemory;

/// One sentence: `memory was asked for and refused`.
impl fmt::Display for OutOfMemory {
    ghost output = { λ _. Some (codes "memory was asked for and refused") };

    fn fmt<W: fmt::Write>(&self, f: &mut fmt::Formatter<W>) -> fmt::Result {
        f.write_str("memory was asked for and refused")
    }
}

impl Error for OutOfMemory {}

impl From<AllocError> for OutOfMemory {
    fn from(_refused: AllocError) -> OutOfMemory {
        OutOfMemory
    }
}

impl<T: Drop> From<AllocFailed<T>> for OutOfMemory {
    fn from(_refused: AllocFailed<T>) -> OutOfMemory {
        OutOfMemory
    }
}

/// So that a function which returns the allocator's error takes this one by `?`. Its crate lists `tabled_border`.
impl From<OutOfMemory> for AllocError {
    fn from(_refused: OutOfMemory) -> AllocError {
        AllocError
    }
}

/// So that a function which returns an error of input and output takes this one by `?`, as it takes the allocator's.
/// Its crate lists `tabled_border`.
impl From<OutOfMemory> for io::Error {
    ghost from_gives = { λ _ error. error_kind error ≡ memory_refused };

    fn from(_refused: OutOfMemory) -> io::Error {
        io::Error::from(AllocError)
    }
}
