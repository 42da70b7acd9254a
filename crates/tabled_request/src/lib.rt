//! What the words after the program's name ask for, and what its surroundings say.
//!
//! `docs/DEFINITIONS.md` explains the words of the contracts.
#![tactic(auto)]

mod cells;
mod columns;
mod error;
mod given;
mod hints;
mod numerals;
mod options;
mod request;
mod sides;
mod spread;
mod surroundings;
mod values;
mod words;

pub use cells::{Choice, NamedCells, are_cells, named_cells};
pub use columns::{are_columns, columns_named, unknown_part};
pub use error::WordsError;
pub use given::{GivenError, all_words};
pub use numerals::number_of;
pub use options::OptionName;
pub use request::{Form, FrameColor, Request, Shows, When};
pub use sides::{ColumnSide, all_sides, headings_of};
pub use spread::spread_words;
pub use surroundings::{Surroundings, told_by};
pub use words::{read_words, word_at};
