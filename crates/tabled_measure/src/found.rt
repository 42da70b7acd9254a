//! Columns, cells and rows that are found by their texts.

ghost use Rattle.std.specs.Prelude.{◌≡◌, bytes_eq, filter, map, IfOk};
ghost use Rattle.tabled_object.specs.Entities.{below, cells_of};
ghost use Rattle.tabled_object.specs.Listing.{alone};
ghost use Rattle.tabled_object.specs.declared.entity.Entity.TheVariants.{Column, Global as all_cells};
ghost use Rattle.tabled_cells.specs.TextsBy.{texts_by};
ghost use Rattle.tabled_measure.specs.Found.{begins_group, has_text, text_at};

use std::alloc::{AllocError, Global};
use std::convert::AsStr;
use tabled_numbers::text_of;
use tabled_object::{Entity, Position, Shape};

/// The text of the cell in a row and a column, the empty one where there is none.
pub(crate) fn text_at<'a, T: AsStr>(rows: &'a [Vec<T>], row: usize, col: usize) -> &'a str
    ensures { result.now ≡ text_at (texts_by T.text rows.now) row col }
{
    match rows.get(row) {
        Some(cells) => text_of(cells, col),
        None => "",
    }
}

/// The columns, of as many as are asked for, whose text in row 0 is this one, from the left.
pub fn columns_named<T: AsStr>(
    alloc: Global,
    rows: &[Vec<T>],
    name: &str,
    count: usize,
) -> Result<Vec<Entity>, AllocError>
    ensures { IfOk result (λ found. found.items ≡ map Column (filter (λ col. bytes_eq (text_at (texts_by T.text rows.now) 0 col) name.now) (below count))) }
{
    (0..count)
        .filter(|col| text_at(rows, 0, *col) == name)
        .map(|col| Entity::Column(col))
        .collect(alloc)
}

/// Whether the text of a cell is this one.
fn has_text<T: AsStr>(rows: &[Vec<T>], cell: Position, text: &str) -> bool
    ensures { result ≡ has_text (texts_by T.text rows.now) text.now cell }
{
    text_at(rows, cell.row, cell.col) == text
}

/// The cells of a table of that shape whose text is this one, in row order.
pub fn cells_with<T: AsStr>(
    alloc: Global,
    rows: &[Vec<T>],
    text: &str,
    shape: Shape,
) -> Result<Vec<Position>, AllocError>
    ensures { IfOk result (λ found. found.items ≡ filter (has_text (texts_by T.text rows.now) text.now) (cells_of all_cells shape.rows shape.cols)) }
{
    Entity::Global
        .iter(shape.rows, shape.cols)
        .filter(|cell| has_text(rows, *cell, text))
        .collect(alloc)
}

/// Cells as entities.
pub fn as_entities(alloc: Global, cells: &[Position]) -> Result<Vec<Entity>, AllocError>
    ensures { IfOk result (λ found. found.items ≡ map alone cells.now) }
{
    cells
        .iter()
        .map(|cell| Entity::Cell(cell.row, cell.col))
        .collect(alloc)
}

/// Whether the text of a row in a column is another than that of the row above.
fn begins_group<T: AsStr>(rows: &[Vec<T>], headings: usize, col: usize, row: usize) -> bool
    ensures { result ≡ begins_group headings col (texts_by T.text rows.now) row }
{
    headings < row && text_at(rows, row - 1, col) != text_at(rows, row, col)
}

/// The rows below the first ones, which are headings, of as many as are asked for, whose text in a column is another than that of the row
/// above.
pub fn group_starts<T: AsStr>(
    alloc: Global,
    rows: &[Vec<T>],
    headings: usize,
    col: usize,
    count: usize,
) -> Result<Vec<usize>, AllocError>
    ensures { IfOk result (λ starts. starts.items ≡ filter (begins_group headings col (texts_by T.text rows.now)) (below count)) }
{
    (0..count)
        .filter(|row| begins_group(rows, headings, col, *row))
        .collect(alloc)
}
