//! Texts that are numbers, as they stand in cells.
//!
//! `docs/DEFINITIONS.md` explains the words of the contracts.
#![tactic(auto)]

mod columns;
mod numbers;

pub use columns::{column_count, is_numeric, text_of};
pub use numbers::{are_digits, is_number};
