//! Tables in markdown, which GitHub shows as the very cells that they are made of.
//!
//! `docs/DEFINITIONS.md` explains the words of the contracts.
#![tactic(auto)]

mod source;
mod table;

pub use source::escaped;
pub use table::{Side, markdown};
