//! Tables of one's own values, and of records, as users write them.

use std::alloc::Global;
use tabled::builder::Builder;
use tabled::grid::config::{OutOfMemory, Position};
use tabled::settings::object::Rows;
use tabled::settings::themes::Colorization;
use tabled::settings::{CellColor, Color, JoinedColor, Style};
use tabled::{TableError, Tabled, TextTable};
use tabled_rows::row;

#[derive(Drop)]
pub struct Language {
    name: &'static str,
    since: u16,
}

impl Tabled for Language {
    fn headers(alloc: Global) -> Result<Vec<String>, OutOfMemory> {
        row![in alloc; "name", "since"]
    }

    fn fields(&self, alloc: Global) -> Result<Vec<String>, OutOfMemory> {
        row![in alloc; self.name, self.since]
    }
}

/// Values of one's own, each a row.
pub fn values_of_ones_own(alloc: Global) -> Result<String, TableError> {
    let c = Language {
        name: "C",
        since: 1972,
    };
    let lisp = Language {
        name: "Lisp",
        since: 1960,
    };
    let mut table = TextTable::of(alloc, &[c, lisp])?;
    table.with(Style::psql())?;
    Ok(table.to_text()?)
}

/// Records of unlike length, of which a table is built.
pub fn built_of_records(alloc: Global) -> Result<String, TableError> {
    let mut builder = Builder::new(alloc);
    builder.push_record(row![in alloc; "tea", 95, "s"]?)?;
    builder.push_record(row![in alloc; "coffee"]?)?;
    builder.insert_column(0, row![in alloc; 1, 2]?)?;
    let mut table = builder.build()?;
    table.with(Style::rounded())?;
    Ok(table.to_text()?)
}

/// A row that is put into a table.
pub fn row_put_in(alloc: Global) -> Result<String, TableError> {
    let rows: &[&[&str]] = &[&["name", "age"], &["Bob", "7"]];
    let mut table = TextTable::new(alloc, rows)?;
    table.with(Style::psql())?;
    table.insert_row(1, row![in alloc; "Alice", 30]?)?;
    Ok(table.to_text()?)
}

/// A column that is put into a table.
pub fn column_put_in(alloc: Global) -> Result<String, TableError> {
    let rows: &[&[&str]] = &[&["name", "age"], &["Bob", "7"]];
    let mut table = TextTable::new(alloc, rows)?;
    table.with(Style::psql())?;
    table.push_column(row![in alloc; "city", "Oslo"]?)?;
    Ok(table.to_text()?)
}

/// A text that is replaced in a table.
pub fn text_replaced(alloc: Global) -> Result<String, TableError> {
    let rows: &[&[&str]] = &[&["name", "age"], &["Bob", "7"]];
    let mut table = TextTable::new(alloc, rows)?;
    table.with(Style::psql())?;
    table.set_text(Position::new(1, 1), "eight")?;
    Ok(table.to_text()?)
}

/// The first row on a ground from line to line.
pub fn first_row_on_a_ground(alloc: Global) -> Result<String, TableError> {
    let rows: &[&[&str]] = &[&["name", "age"], &["Bob", "7"]];
    let mut table = TextTable::new(alloc, rows)?;
    table.with(Style::rounded())?;
    table.modify(Rows::first(), CellColor::new(Color::BG_BLUE))?;
    Ok(table.to_ansi()?)
}

/// Rows on grounds of their own, the first of which is bold too.
pub fn bold_row_on_its_ground(alloc: Global) -> Result<String, TableError> {
    let rows: &[&[&str]] = &[&["name", "age"], &["Bob", "7"]];
    let mut table = TextTable::new(alloc, rows)?;
    table.with(Style::rounded())?;
    let grounds = vec![in alloc; Color::BG_BLUE, Color::BG_GREEN]?;
    table.with(Colorization::rows(grounds))?;
    table.modify(Rows::first(), JoinedColor::new(Color::BOLD))?;
    Ok(table.to_ansi()?)
}
