//! What the program `tabled_show` does: it reads rows of cells, and writes them as a framed table.
//!
//! A row is a line of the input, and its cells stand between tabs. `docs/DEFINITIONS.md` explains the words of the
//! contracts.
#![tactic(auto)]

mod bytes;
mod error;
mod page;
mod program;
mod read;
mod rows;
mod styles;
mod words;

pub use error::ShowError;
pub use program::run;
pub use words::all_words;
