//! The ready styles, each on one small table.

use std::alloc::Global;
use tabled::settings::style::ReadyStyle;
use tabled::{TableError, TextTable};

/// A small table in the ready style of that name.
pub fn small_table(alloc: Global, name: &str) -> Result<String, TableError> {
    let mut table = TextTable::new(alloc, &[&["a", "b"], &["1", "2"], &["3", "4"]])?;
    table.with(ReadyStyle::from_name(name).unwrap_or(ReadyStyle::Ascii))?;
    Ok(table.to_text()?)
}
