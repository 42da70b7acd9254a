//! Borders, styles and themes around text tables, proved.
//!
//! A table of texts is a `TextTable`, or a `LentTable` where the texts are lent to it; both are a `Table`, which measures its cells, takes
//! options, and prints itself as they set it.
//!
//! ```text
//! let mut table = TextTable::new(alloc, &[&["name", "age"], &["Alice", "30"]])?;
//! table.with(Style::rounded())?;
//! table.to_text()?
//!
//! ╭───────┬─────╮
//! │ name  │ age │
//! ├───────┼─────┤
//! │ Alice │ 30  │
//! ╰───────┴─────╯
//! ```
//!
//! Modules stand where the Rust crate `tabled` has them, so that a line of imports that was written for it names the same
//! things here, as far as they are ported. Nothing is defined in this crate: it passes on what the crates below it have.
#![tactic(auto)]

pub mod builder;
pub mod grid;
pub mod markdown;
pub mod proved;
pub mod settings;
pub mod texts;

pub use tabled_rows::Tabled;
pub use tabled_text::{InColor, LentTable, Table, TableError, TextTable};
