//! Tables as a user of the library draws them. Each function is one recipe, and a test of `tests/gallery.rs` or
//! `tests/gallery_settings.rs` holds the picture that it draws; `docs/GALLERY.md` is made of them.

use std::alloc::Global;
use tabled::markdown::Side;
use tabled::settings::object::{Cell, Columns, Combine, Rows, Segment};
use tabled::settings::style::{Border, BorderColor, HorizontalLine, LineText};
use tabled::settings::themes::{BorderCorrection, JoinedCorners};
use tabled::settings::{Alignment, Color, Highlight, Margin, Shadow, Span, Style};
use tabled::texts::Overflow;
use tabled::{TableError, TextTable};

/// The table that the recipes draw.
pub fn people(alloc: Global) -> Result<TextTable, TableError> {
    TextTable::new(alloc, &[&["name", "age"], &["Alice", "30"], &["Bob", "7"]])
}

/// A table in a ready style.
pub fn first_table(alloc: Global) -> Result<String, TableError> {
    let rows: &[&[&str]] = &[&["name", "age"], &["Alice", "30"], &["Bob", "7"]];
    let mut table = TextTable::new(alloc, rows)?;
    table.with(Style::rounded())?;
    Ok(table.to_text()?)
}

/// Numbers at the right.
pub fn numbers_at_the_right(alloc: Global) -> Result<String, TableError> {
    let mut table = people(alloc)?;
    table.with(Style::rounded())?;
    table.modify(Columns::one(1), Alignment::right())?;
    Ok(table.to_text()?)
}

/// A line below the header.
pub fn line_below_the_header(alloc: Global) -> Result<String, TableError> {
    let mut table = people(alloc)?;
    let line = HorizontalLine::full('=', '+', '+', '+');
    table.with(Style::ascii().remove_horizontal().horizontals([(1, line)]))?;
    Ok(table.to_text()?)
}

/// Borders around some cells, and a character at one corner.
pub fn borders_on_cells(alloc: Global) -> Result<String, TableError> {
    let mut table = people(alloc)?;
    table.with(Style::ascii())?;
    table.modify(Columns::one(1), Border::new().left('#').right('#'))?;
    let corner = Border::new().bottom('-').left('#').corner_bottom_left('@');
    table.modify(Cell::new(2, 0), corner)?;
    Ok(table.to_text()?)
}

/// A title in the top line.
pub fn title_in_the_top_line(alloc: Global) -> Result<String, TableError> {
    let mut table = people(alloc)?;
    let title = LineText::new(alloc, " staff ", Rows::first())?;
    table
        .with(Style::modern())?
        .with(title.align(Alignment::center()))?;
    Ok(table.to_text()?)
}

/// An outline around a ring of cells, and a cell that touches it at a corner.
pub fn outline_around_cells(alloc: Global) -> Result<String, TableError> {
    let rows: &[&[&str]] = &[
        &["a", "b", "c", "d"],
        &["e", "f", "g", "h"],
        &["i", "j", "k", "l"],
        &["m", "n", "o", "p"],
    ];
    let mut table = TextTable::new(alloc, rows)?;
    let ring = Segment::all().not(Rows::last().and(Columns::last()).and((1, 1)));
    let border = Border::full('─', '─', '│', '│', '┌', '┐', '└', '┘');
    table.with(Highlight::new(ring.and((3, 3))).border(border))?;
    Ok(table.to_text()?)
}

/// In color: the numbers red, the borders blue.
pub fn in_color(alloc: Global) -> Result<String, TableError> {
    let mut table = people(alloc)?;
    table.with(Style::rounded())?;
    table.modify(Segment::all(), BorderColor::filled(alloc, Color::FG_BLUE)?)?;
    table.modify(Columns::one(1).not(Rows::first()), Color::FG_RED)?;
    Ok(table.to_ansi()?)
}

/// A shadow.
pub fn shadow(alloc: Global) -> Result<String, TableError> {
    let mut table = people(alloc)?;
    table.with(Style::rounded())?.with(Shadow::new(1))?;
    Ok(table.to_text()?)
}

/// A margin, filled on each side.
pub fn margin(alloc: Global) -> Result<String, TableError> {
    let mut table = people(alloc)?;
    let margin = Margin::new(2, 2, 1, 1).fill('<', '>', 'v', '^');
    table.with(Style::rounded())?.with(margin)?;
    Ok(table.to_text()?)
}

/// A title over all columns.
pub fn title_over_all_columns(alloc: Global) -> Result<String, TableError> {
    let mut table = people(alloc)?;
    table.with(Style::modern())?;
    table.insert_title("staff")?;
    Ok(table.to_text()?)
}

/// Columns of numbers, which are found below the headings.
pub fn columns_of_numbers(alloc: Global) -> Result<String, TableError> {
    let mut table = people(alloc)?;
    table.with(Style::psql())?;
    table.align_numbers(1)?;
    Ok(table.to_text()?)
}

/// A column that is found by its heading, and cells that are found by their text.
pub fn cells_found_by_text(alloc: Global) -> Result<String, TableError> {
    let rows: &[&[&str]] = &[
        &["city", "Jan", "Jul"],
        &["Oslo", "-4", "17"],
        &["Rome", "-", "8"],
    ];
    let mut table = TextTable::new(alloc, rows)?;
    table.with(Style::sharp())?;
    let july = table.columns_named("Jul")?;
    let missing = table.cells_with("-")?;
    table.modify(july, Alignment::right())?;
    table.modify(missing, Alignment::center())?;
    Ok(table.to_text()?)
}

/// A line between groups of rows: where the text of a column changes.
pub fn lines_between_groups(alloc: Global) -> Result<String, TableError> {
    let rows: &[&[&str]] = &[
        &["city", "name"],
        &["Oslo", "Alice"],
        &["Oslo", "Bob"],
        &["Rome", "Carol"],
    ];
    let mut table = TextTable::new(alloc, rows)?;
    table.with(Style::rounded())?;
    let line = HorizontalLine::inherit(Style::modern()).into_inner();
    table.line_between_groups(1, 0, line)?;
    Ok(table.to_text()?)
}

/// Neighbors with equal texts as one cell.
pub fn equal_neighbors_as_one(alloc: Global) -> Result<String, TableError> {
    let rows: &[&[&str]] = &[
        &["2026", "2026", "2027"],
        &["Oslo", "Rome", "Rome"],
        &["Oslo", "Bern", "Rome"],
    ];
    let mut table = TextTable::new(alloc, rows)?;
    table.with(Style::modern())?;
    table.merge_equal_columns(Rows::first())?;
    table.merge_equal_rows(Rows::first().inverse())?;
    table.with(JoinedCorners::new())?;
    Ok(table.to_text()?)
}

/// A table in markdown, which GitHub shows as these very cells.
pub fn table_in_markdown(alloc: Global) -> Result<String, TableError> {
    let table = TextTable::new(
        alloc,
        &[&["case", "in %"], &["a < b", "30"], &["two\nlines", "7"]],
    )?;
    Ok(table.to_markdown(&[Side::Plain, Side::Right])?)
}

/// A heading over two columns, beside one over two rows.
pub fn headings(alloc: Global) -> Result<String, TableError> {
    let rows: &[&[&str]] = &[
        &["city", "weather", ""],
        &["", "Jan", "Jul"],
        &["Oslo", "-4", "17"],
        &["Rome", "8", "26"],
    ];
    let mut table = TextTable::new(alloc, rows)?;
    table.with(Style::modern_rounded())?;
    table.modify(Cell::new(0, 0), Span::row(2))?;
    table.modify(Cell::new(0, 0), Alignment::center_vertical())?;
    table.modify(Cell::new(0, 1), Span::column(2))?;
    table.modify(Cell::new(0, 1), Alignment::center())?;
    table.with(BorderCorrection::span())?;
    Ok(table.to_text()?)
}

/// A cell over two rows.
pub fn cell_over_two_rows(alloc: Global) -> Result<String, TableError> {
    let rows: &[&[&str]] = &[
        &["day", "train", "to"],
        &["Mon", "5:10", "Oslo"],
        &["", "9:40", "Rome"],
        &["Tue", "7:00", "Oslo"],
    ];
    let mut table = TextTable::new(alloc, rows)?;
    table.with(Style::modern())?;
    table.modify(Cell::new(1, 0), Span::row(2))?;
    table.with(BorderCorrection::span())?;
    Ok(table.to_text()?)
}

/// Light lines that end at the double ones of a frame, and a heavy line that crosses them.
pub fn joined_corners(alloc: Global) -> Result<String, TableError> {
    let mut table = people(alloc)?;
    let frame = Border::full('═', '═', '║', '║', '╔', '╗', '╚', '╝');
    table.with(Style::modern().frame(frame))?;
    table.modify(Cell::new(1, 1), Border::new().left('┃'))?;
    table.with(JoinedCorners::new())?;
    Ok(table.to_text()?)
}

/// Texts from outside, in which nothing steers the terminal.
pub fn texts_from_outside(alloc: Global) -> Result<String, TableError> {
    let rows: &[&[&str]] = &[&["file", "size"], &["a\u{1b}[2Jb", "7"], &["c\r\nd", "30"]];
    let mut table = TextTable::new(alloc, rows)?;
    table.with(Style::rounded())?;
    table.clean()?;
    Ok(table.to_text()?)
}

/// Tabs as spaces, up to a stop each 4 columns.
pub fn tabs_as_spaces(alloc: Global) -> Result<String, TableError> {
    let rows: &[&[&str]] = &[&["call", "cost"], &["read\t1\nsend\t20", "a\tb"]];
    let mut table = TextTable::new(alloc, rows)?;
    table.with(Style::rounded())?;
    table.expand_tabs(4)?;
    Ok(table.to_text()?)
}

/// Long texts, within 26 columns of the terminal.
pub fn within_the_terminal(alloc: Global) -> Result<String, TableError> {
    let rows: &[&[&str]] = &[
        &["name", "what it is"],
        &["tea", "leaves in hot water"],
        &["coffee", "roasted beans, ground, in hot water"],
    ];
    let mut table = TextTable::new(alloc, rows)?;
    table.with(Style::rounded())?;
    table.fit(26, Overflow::WrapWords)?;
    Ok(table.to_text()?)
}
