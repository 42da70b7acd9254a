//! A text more in each row, at the same place.

ghost use Rattle.std.specs.Prelude.{◌≡◌, ◌<◌, [], max, OnOk, map, drop, slice_index_or, string_bytes, vec_len, vec_capacity};
ghost use Rattle.std.specs.Vec.Iter.{into_iter_items};
ghost use Rattle.std.specs.List.{insert, remove};
ghost use Rattle.tabled_rows.specs.Rows.{HasRoom, column_put, filled_to, row_texts};

use std::alloc::Global;
use std::vec::IntoIter;
use tabled_border::OutOfMemory;

/// Makes room in each row for texts up to a number of them, and for one more. Where memory is refused, rows have their texts.
pub fn reserve_column(rows: &mut [Vec<String>], width: usize) -> Result<(), OutOfMemory>
    ensures texts { row_texts rows.new ≡ row_texts rows.old }
    ensures room { OnOk result (HasRoom width rows.new) }
{
    for row in rows.iter_mut() {
        let missing = width.saturating_sub(row.len());
        row.reserve(missing.saturating_add(1))?;
    }
    Ok(())
}

/// Fills a row that has room up to a number of texts with empty ones.
fn fill(alloc: Global, row: &mut Vec<String>, width: usize)
    requires { max width (vec_len row.old) < vec_capacity row.old }
    ensures texts { map string_bytes row.new.items ≡ filled_to width (map string_bytes row.old.items) }
    ensures room { vec_len row.new < vec_capacity row.new }
{
    for _ in 0..width.saturating_sub(row.len()) {
        if row.push(String::new(alloc)).is_err() {
            return;
        }
    }
}

/// Fills each row with empty texts up to a number of them. Where memory is refused, some may have been filled.
pub fn fill_rows(alloc: Global, rows: &mut [Vec<String>], width: usize) -> Result<(), OutOfMemory>
    ensures { OnOk result (row_texts rows.new ≡ map (filled_to width) (row_texts rows.old)) }
{
    reserve_column(rows, width)?;
    for row in rows.iter_mut() {
        fill(alloc, row, width);
    }
    Ok(())
}

/// The next text of a column, or an empty one past its end.
fn next_text(alloc: Global, texts: &mut IntoIter<String>) -> String
    ensures text { string_bytes result ≡ slice_index_or (map string_bytes (into_iter_items texts.old)) 0 [] }
    ensures rest { into_iter_items texts.new ≡ drop 1 (into_iter_items texts.old) }
{
    match texts.next() {
        Some(text) => text,
        None => String::new(alloc),
    }
}

/// Puts a text into a row that has room, which is filled up to a number of texts before; past its end it stands at the end.
fn put_text(alloc: Global, row: &mut Vec<String>, width: usize, index: usize, text: String)
    requires { max width (vec_len row.old) < vec_capacity row.old }
    ensures { map string_bytes row.new.items ≡ insert (filled_to width (map string_bytes row.old.items)) index (string_bytes text) }
{
    fill(alloc, row, width);
    let at = index.min(row.len());
    let _ = row.insert(at, text);
}

/// Puts a column's texts into rows that have room: each row is filled up to a number of texts, and then has the text of its
/// number, or an empty one, at the index; past its end that stands at the end.
pub fn put_column(
    alloc: Global,
    rows: &mut [Vec<String>],
    width: usize,
    index: usize,
    column: Vec<String>,
)
    requires { HasRoom width rows.old }
    ensures { row_texts rows.new ≡ column_put width index (map string_bytes column.items) (row_texts rows.old) }
{
    let mut texts = column.into_iter();
    for row in rows.iter_mut() {
        let text = next_text(alloc, &mut texts);
        put_text(alloc, row, width, index, text);
    }
}

/// Takes the text at an index out of a row, if it has one.
fn take_text(row: &mut Vec<String>, index: usize)
    ensures { map string_bytes row.new.items ≡ remove (map string_bytes row.old.items) index }
{
    if index >= row.len() {
        return;
    }
    drop(row.remove(index));
}

/// Takes the text at an index out of each row that has one.
pub fn remove_column(rows: &mut [Vec<String>], index: usize)
    ensures { row_texts rows.new ≡ map (λ row. remove row index) (row_texts rows.old) }
{
    for row in rows.iter_mut() {
        take_text(row, index);
    }
}
