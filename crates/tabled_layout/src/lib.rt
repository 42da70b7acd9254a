//! What is set for a table beside its borders: for its cells by entity, for the margin around it, and the spans of its cells.
//!
//! `docs/DEFINITIONS.md` explains the words of the contracts.
#![tactic(auto)]

mod covering;
mod margin;
mod spans;
mod table_settings;

pub use margin::Margin;
pub use spans::Spans;
pub use table_settings::TableSettings;
pub use tabled_settings::Indent;
