//! Compact configurations: plain records of the class borders, of an alignment and of the colors around a table, which take
//! no memory.
//!
//! `docs/DEFINITIONS.md` explains the words of the contracts. Users name these items by `tabled_printing`.
#![tactic(auto)]

mod compact_config;
mod formatting;
mod multiline_config;

pub use compact_config::CompactConfig;
pub use formatting::Formatting;
pub use multiline_config::CompactMultilineConfig;
