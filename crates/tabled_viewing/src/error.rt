//! Why the program shows no table.

ghost use Rattle.std.specs.Prelude.{◌≡◌};
ghost use Rattle.tabled_viewing.specs.Refusal.{of_given, of_input, status_of_given, status_of_input};
ghost use Rattle.tabled_viewing.specs.declared.error.ViewError.TheVariants as refusals;

use std::alloc::{AllocError, AllocFailed};
use tabled_input::InputError;
use tabled_request::{GivenError, OptionName, WordsError};

/// Why the program shows no table, in the order in which the reasons are tested. Memory may be refused at any point.
#[derive(Clone, Copy, Debug, PartialEq, Eq)]
pub enum ViewError {
    /// The words can't be read.
    Given {
        refusal: GivenError,
    },
    /// A word is wrong.
    Words {
        refusal: WordsError,
    },
    /// The file that a word names, by its number, can't be opened.
    OpenFailed {
        word: usize,
    },
    /// The input is refused.
    Input {
        refusal: InputError,
    },
    /// The row of this number, counted from 0, has more or fewer cells than the first.
    UnequalRows {
        row: usize,
        cells: usize,
        columns: usize,
    },
    /// Filled, the rows would have more cells than an input may have bytes.
    TooManyCells {
        rows: usize,
        columns: usize,
    },
    /// The part of this number, counted from 0, of the value of an option, which is the word of that number, names no column that is shown.
    UnknownColumn {
        option: OptionName,
        word: usize,
        part: usize,
    },
    /// Memory was asked for and refused.
    OutOfMemory,
    /// The output could not be written.
    WriteFailed,
}

impl ViewError {
    ghost use Rattle.tabled_viewing.specs.Refusal.{status_of};

    /// Returns the status that the program ends with: 2 for its words, 3 for rows of unlike length, 4 for an input that is no text or no CSV,
    /// 5 for one that is too long or would be filled too much, and 1 for a failure.
    pub fn status(&self) -> u8
        ensures { result ≡ status_of self.now }
    {
        match self {
            ViewError::Given { refusal } => status_of_given(*refusal),
            ViewError::Words { .. } => 2,
            ViewError::OpenFailed { .. } => 1,
            ViewError::Input { refusal } => status_of_input(*refusal),
            ViewError::UnequalRows { .. } => 3,
            ViewError::TooManyCells { .. } => 5,
            ViewError::UnknownColumn { .. } => 2,
            ViewError::OutOfMemory => 1,
            ViewError::WriteFailed => 1,
        }
    }
}

/// The status where the words can't be read.
fn status_of_given(refusal: GivenError) -> u8
    ensures { result ≡ status_of_given refusal }
{
    match refusal {
        GivenError::Unreadable { .. } => 2,
        GivenError::OutOfMemory => 1,
    }
}

/// The status where the input is refused.
fn status_of_input(refusal: InputError) -> u8
    ensures { result ≡ status_of_input refusal }
{
    match refusal {
        InputError::ReadFailed => 1,
        InputError::TooLong => 5,
        InputError::NotUtf8 { .. } => 4,
        InputError::OpenQuote { .. } => 4,
        InputError::OutOfMemory => 1,
    }
}

impl From<AllocError> for ViewError {
    ghost from_gives = { λ _ e. e ≡ refusals.OutOfMemory };

    fn from(_refused: AllocError) -> ViewError {
        ViewError::OutOfMemory
    }
}

impl<T: Drop> From<AllocFailed<T>> for ViewError {
    ghost from_gives = { λ _ e. e ≡ refusals.OutOfMemory };

    fn from(_refused: AllocFailed<T>) -> ViewError {
        ViewError::OutOfMemory
    }
}

impl From<tabled_grid::OutOfMemory> for ViewError {
    ghost from_gives = { λ _ e. e ≡ refusals.OutOfMemory };

    fn from(_refused: tabled_grid::OutOfMemory) -> ViewError {
        ViewError::OutOfMemory
    }
}

impl From<InputError> for ViewError {
    ghost from_gives = { λ refusal e. e ≡ of_input refusal };

    fn from(refusal: InputError) -> ViewError {
        match refusal {
            InputError::OutOfMemory => ViewError::OutOfMemory,
            other => ViewError::Input { refusal: other },
        }
    }
}

impl From<GivenError> for ViewError {
    ghost from_gives = { λ refusal e. e ≡ of_given refusal };

    fn from(refusal: GivenError) -> ViewError {
        match refusal {
            GivenError::OutOfMemory => ViewError::OutOfMemory,
            other => ViewError::Given { refusal: other },
        }
    }
}

impl From<WordsError> for ViewError {
    ghost from_gives = { λ refusal e. e ≡ refusals.Words refusal };

    fn from(refusal: WordsError) -> ViewError {
        ViewError::Words { refusal }
    }
}
