//! Texts from outside, in which nothing steers a terminal.
//!
//! `docs/DEFINITIONS.md` explains the words of the contracts.
#![tactic(auto)]

mod cleaning;
mod line;

pub use cleaning::{cleaned, is_clean, steers};
pub use line::cleaned_line;
