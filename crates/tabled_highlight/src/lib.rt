//! Outlines around cells of a table.
//!
//! `docs/DEFINITIONS.md` explains the words of the contracts.
#![tactic(auto)]

mod around;
mod cells;
mod highlight;

pub use highlight::Highlight;
