//! Rows of one's own values: how many cells a value has, what stands above them, and the text of each.
//!
//! `docs/DEFINITIONS.md` explains the words of the contracts.
#![tactic(auto)]

mod columns;
mod macros;
mod spelled;
mod tuples;
mod values;

pub use columns::{fill_rows, put_column, remove_column, reserve_column};
pub use values::Tabled;
