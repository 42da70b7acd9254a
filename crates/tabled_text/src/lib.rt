//! A table of texts: it measures its cells, takes options, and prints itself as its settings say.
//!
//! `docs/DEFINITIONS.md` explains the words of the contracts.
#![tactic(auto)]

mod display;
mod fitting;
mod lent_table;
mod stream;
mod table;
mod table_error;
mod table_view;
mod text_table;

pub use display::InColor;
pub use lent_table::LentTable;
pub use table::Table;
pub use table_error::TableError;
pub use text_table::TextTable;
