//! Rows of texts: how large their columns and rows are, and what becomes of texts and sizes where a text, a column or all texts change.
//!
//! `docs/DEFINITIONS.md` explains the words of the contracts.
#![tactic(auto)]

pub mod changing;
pub mod edited;
pub mod found;
pub mod measure;
pub mod numeric;
pub mod runs;
pub mod spanned;
