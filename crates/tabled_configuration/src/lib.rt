//! The configuration of borders and of what is set for cells, and what configurations mean. The options that change one stand in
//! `tabled_changes`, and what prints its lines in `tabled_printing`.
//!
//! `docs/DEFINITIONS.md` explains the words of the contracts. Users name these items by `tabled_config`.
#![tactic(auto)]

mod spanned_config;

pub use spanned_config::{SpannedConfig, apply_colors};
