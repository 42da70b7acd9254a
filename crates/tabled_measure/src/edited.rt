//! Rows of which one text is replaced, and rows with a column more or less.

ghost use Rattle.std.specs.Prelude.{◌≡◌, ◌<◌, [], true, length, map, replicate, slice_index_or, string_bytes, IfOk, OnOk, OnErr};
ghost use Rattle.std.specs.List.{remove};
ghost use Rattle.tabled_width.specs.Texts.{texts};
ghost use Rattle.tabled_rows.specs.Rows.{HasRoom};
ghost use Rattle.tabled_measure.specs.Edited.{text_set};
ghost use Rattle.tabled_measure.specs.EditedColumns.{column_goes_in, with_column, without_column};
ghost use Rattle.tabled_measure.specs.Sizes.{cell, column_width, row_height};

use crate::measure::{column_width, row_height};
use std::alloc::Global;
use std::mem;
use tabled_border::OutOfMemory;
use tabled_rows::{put_column, reserve_column};

/// A text that another one has replaced, and how large its column and its row are since.
#[derive(Drop)]
pub struct Replaced {
    /// The text that stood there.
    pub former: String,
    /// How wide the column is.
    pub width: usize,
    /// How high the row is.
    pub height: usize,
}

/// Puts a text into the place of a cell's, and gives the one that stood there.
fn swapped(rows: &mut [Vec<String>], row: usize, col: usize, text: String) -> String
    requires row { row < length rows.old }
    requires col { col < length (slice_index_or (texts rows.old) row []) }
    ensures texts { texts rows.new ≡ text_set row col (string_bytes text) (texts rows.old) }
    ensures former { string_bytes result ≡ cell (slice_index_or (texts rows.old) row []) col }
{
    let cells = &mut rows[row];
    mem::replace(&mut cells[col], text)
}

/// Replaces the text of a cell, and measures its column and its row. Refused where no number says how wide the column is; then the texts
/// are as they were.
pub fn replace_in(
    rows: &mut [Vec<String>],
    row: usize,
    col: usize,
    text: String,
) -> Result<Replaced, OutOfMemory>
    requires row { row < length rows.old }
    requires col { col < length (slice_index_or (texts rows.old) row []) }
    ensures texts { OnOk result (texts rows.new ≡ text_set row col (string_bytes text) (texts rows.old)) }
    ensures former { IfOk result (λ done. string_bytes done.former ≡ cell (slice_index_or (texts rows.old) row []) col) }
    ensures width { IfOk result (λ done. done.width ≡ column_width (texts rows.new) col) }
    ensures height { IfOk result (λ done. done.height ≡ row_height (slice_index_or (texts rows.new) row [])) }
    ensures err { OnErr result (texts rows.new ≡ texts rows.old) }
{
    let former = swapped(rows, row, col, text);
    match column_width(rows, col) {
        Ok(width) => {
            let height = row_height(&rows[row]);
            Ok(Replaced {
                former,
                width,
                height,
            })
        }
        Err(refused) => {
            drop(swapped(rows, row, col, former));
            Err(refused)
        }
    }
}

/// The given number of rows without texts, each with room for one.
fn rows_without_texts(alloc: Global, count: usize) -> Result<Vec<Vec<String>>, OutOfMemory>
    ensures texts { IfOk result (λ rows. texts rows.items ≡ replicate count []) }
    ensures room { IfOk result (λ rows. HasRoom 0 rows.items) }
{
    let mut rows = Vec::with_capacity(alloc, count)?;
    for _ in 0..count {
        rows.push(Vec::with_capacity(alloc, 1)?)?;
    }
    Ok(rows)
}

/// Puts a column into rows at an index, as many texts as there are rows; where there are none, each text is one. Where memory is refused
/// the texts are as they were.
pub fn put_into(
    alloc: Global,
    rows: &mut Vec<Vec<String>>,
    index: usize,
    column: Vec<String>,
) -> Result<(), OutOfMemory>
    requires { column_goes_in (map string_bytes column.items) (texts rows.old.items) ≡ true }
    ensures texts { OnOk result (texts rows.new.items ≡ with_column index (map string_bytes column.items) (texts rows.old.items)) }
    ensures err { OnErr result (texts rows.new.items ≡ texts rows.old.items) }
{
    let missing = column.len().saturating_sub(rows.len());
    let mut added = rows_without_texts(alloc, missing)?;
    rows.reserve(missing)?;
    reserve_column(rows, 0)?;
    rows.append(&mut added)?;
    put_column(alloc, rows, 0, index, column);
    Ok(())
}

/// Takes the text at an index out of a row; an empty one, where it has none.
fn take_text(alloc: Global, row: &mut Vec<String>, index: usize) -> String
    ensures text { string_bytes result ≡ cell (map string_bytes row.old.items) index }
    ensures rest { map string_bytes row.new.items ≡ remove (map string_bytes row.old.items) index }
{
    if index >= row.len() {
        return String::new(alloc);
    }
    row.remove(index)
}

/// Takes the text at an index out of each row, and gives these. Where memory is refused the texts are as they were.
pub fn take_column(
    alloc: Global,
    rows: &mut [Vec<String>],
    index: usize,
) -> Result<Vec<String>, OutOfMemory>
    ensures texts { OnOk result (texts rows.new ≡ without_column index (texts rows.old)) }
    ensures column { IfOk result (λ column. map string_bytes column.items ≡ map (λ row. cell row index) (texts rows.old)) }
    ensures err { OnErr result (texts rows.new ≡ texts rows.old) }
{
    let mut column = Vec::with_capacity(alloc, rows.len())?;
    for row in rows.iter_mut() {
        let text = take_text(alloc, row, index);
        column.push(text)?;
    }
    Ok(column)
}
