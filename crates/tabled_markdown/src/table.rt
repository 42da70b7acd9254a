//! The text of a table.

ghost use Rattle.std.specs.Prelude.{◌≡◌, ◌++◌, ◌<◌, ◌∷◌, IfOk, OnOk, length, map, string_bytes};
ghost use Rattle.std.specs.List.{flat_map};
ghost use Rattle.tabled_markdown.specs.Reading.{read_rows, read_sides};
ghost use Rattle.tabled_markdown.specs.Source.{escaped};
ghost use Rattle.tabled_markdown.specs.Table.{cell, delimiter, fitted, fitted_sides, in_cell, markdown, row_line, side, side_line};

use crate::source::put_escaped;
use std::alloc::{AllocError, Global};
use std::convert::AsStr;

/// Where the texts of a column stand.
#[derive(Clone, Copy, Debug, PartialEq, Eq)]
pub enum Side {
    /// Where the reader of the markdown has them.
    Plain,
    /// At the left.
    Left,
    /// In the middle.
    Center,
    /// At the right.
    Right,
}

/// The word that says where the texts of a column stand.
fn delimiter(side: Side) -> &'static str
    ensures { result.now ≡ delimiter side }
{
    match side {
        Side::Plain => "---",
        Side::Left => ":--",
        Side::Center => ":-:",
        Side::Right => "--:",
    }
}

/// Where the texts of a column stand.
fn side_of(sides: &[Side], col: usize) -> Side
    ensures { result ≡ side sides.now col }
{
    match sides.get(col) {
        Some(side) => *side,
        None => Side::Plain,
    }
}

/// The text of the cell of a row in a column.
fn text_of<T: AsStr>(cells: &[T], col: usize) -> &str
    ensures { result.now ≡ cell (map T.text cells.now) col }
{
    match cells.get(col) {
        Some(text) => text.as_str(),
        None => "",
    }
}

/// Puts a cell that has a text, and the bar after it.
fn put_cell(text: &mut String, cell: &str) -> Result<(), AllocError>
    ensures { OnOk result (string_bytes text.new ≡ string_bytes text.old ++ in_cell (escaped cell.now)) }
{
    text.push(' ')?;
    put_escaped(text, cell)?;
    text.push_str(" |")?;
    Ok(())
}

/// Puts a cell that says where the texts of a column stand, and the bar after it.
fn put_side(text: &mut String, side: Side) -> Result<(), AllocError>
    ensures { OnOk result (string_bytes text.new ≡ string_bytes text.old ++ in_cell (delimiter side)) }
{
    text.push(' ')?;
    text.push_str(delimiter(side))?;
    text.push_str(" |")?;
    Ok(())
}

/// Puts the line of a row.
fn put_row<T: AsStr>(text: &mut String, cells: &[T], count: usize) -> Result<(), AllocError>
    ensures { OnOk result (string_bytes text.new ≡ string_bytes text.old ++ row_line count (map T.text cells.now)) }
{
    text.push('|')?;
    for col in 0..count {
        put_cell(text, text_of(cells, col))?;
    }
    Ok(())
}

/// Puts the line that says where the texts of the columns stand.
fn put_sides(text: &mut String, sides: &[Side], count: usize) -> Result<(), AllocError>
    ensures { OnOk result (string_bytes text.new ≡ string_bytes text.old ++ side_line count sides.now) }
{
    text.push('|')?;
    for col in 0..count {
        put_side(text, side_of(sides, col))?;
    }
    Ok(())
}

/// Puts the lines of rows, each after a line feed.
fn put_rows<T: AsStr>(text: &mut String, rows: &[Vec<T>], count: usize) -> Result<(), AllocError>
    ensures { OnOk result (string_bytes text.new ≡ string_bytes text.old ++ flat_map (λ row. 10 ∷ row_line count (map T.text row.items)) rows.now) }
{
    for row in rows {
        text.push('\n')?;
        put_row(text, row, count)?;
    }
    Ok(())
}

/// Puts the lines of a table, with a line feed between two of them.
fn put_table<T: AsStr>(
    text: &mut String,
    rows: &[Vec<T>],
    sides: &[Side],
    count: usize,
) -> Result<(), AllocError>
    ensures { OnOk result (string_bytes text.new ≡ string_bytes text.old ++ markdown count sides.now (map (λ row. map T.text row.items) rows.now)) }
{
    match rows.split_first() {
        Some((first, others)) => {
            put_row(text, first, count)?;
            text.push('\n')?;
            put_sides(text, sides, count)?;
            put_rows(text, others, count)?;
            Ok(())
        }
        None => Ok(()),
    }
}

/// Returns the text of a table in markdown, as GitHub shows it, of so many columns: a line for the first row, which has the headings, a line
/// that says where the texts of the columns stand, and a line for each other row. A line feed stands between two lines, and none at the end.
/// What stands past the end of a row are empty cells, and past the end of the sides each column is `Plain`. What a row has past the columns is
/// left out. Without rows there is no text. Each text stands as `escaped` writes it, so that it is shown as it is. Only memory can be refused.
///
/// ```text
/// | name | in % |
/// | :-- | --: |
/// | a\|b | 30 |
/// ```
pub fn markdown<T: AsStr>(
    alloc: Global,
    rows: &[Vec<T>],
    sides: &[Side],
    count: usize,
) -> Result<String, AllocError>
    ensures text { IfOk result (λ text. string_bytes text ≡ markdown count sides.now (map (λ row. map T.text row.items) rows.now)) }

    // Read by the grammar of markdown, it has the cells of the rows, and the sides where there are rows.
    ensures rows_read { IfOk result (λ text. read_rows (string_bytes text) ≡ map (fitted count) (map (λ row. map T.text row.items) rows.now)) }
    ensures sides_read { 0 < length rows.now → IfOk result (λ text. read_sides (string_bytes text) ≡ fitted_sides count sides.now) }
{
    let mut text = String::new(alloc);
    put_table(&mut text, rows, sides, count)?;
    Ok(text)
}
