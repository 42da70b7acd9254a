//! The rows of cells of an input: it is read whole, is a text of UTF-8, and its cells stand between separators, or as CSV has them, where
//! they may stand in quotes, or between runs of blanks. Which of them are shown, and the numbers of rows.
//!
//! `docs/DEFINITIONS.md` explains the words of the contracts.
#![tactic(auto)]

mod blanks;
mod blocks;
mod error;
mod joined;
mod lines;
mod place;
mod quoted;
mod read;
mod reader;
mod rows;
mod selection;
mod spacing;
mod wide;

pub use error::InputError;
pub use joined::JoinedRows;
pub use lines::separated;
pub use quoted::{CsvError, csv};
pub use read::{INPUT_LIMIT, read_input};
pub use rows::{Cells, Input};
pub use selection::{columns_of, head, put_before, row_numbers};
pub use spacing::spaced;
