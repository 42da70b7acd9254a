//! Whether a table can be printed: whether it has spans, and the first fault of its cells. No memory is asked for.

ghost use Rattle.std.specs.Prelude.{◌≡◌, ◌==◌, length, map, slice_get, string_bytes};
ghost use Rattle.std.specs.List.{list_all};
ghost use Rattle.tabled_width.specs.Texts.{texts, pieces, width_of_text};
ghost use Rattle.tabled_config.specs.Refusal as refusal;
ghost use Rattle.tabled_config.specs.Refusal.{fits_height, cell_faults, row_faults, table_faults};

use crate::PrintError;
use tabled_configuration::SpannedConfig;
use tabled_object::Dimension;
use unicode_width::UnicodeWidthStr;

/// How many lines a text has: one more than it has line feeds.
fn line_count(text: &str) -> usize
    ensures { result ≡ length (pieces text.now) }
{
    text.as_bytes()
        .iter()
        .filter(|byte| **byte == b'\n')
        .count()
        + 1
}

/// Whether a text has as many lines as its row is high. Height 0 is that of no byte at all.
fn has_height(text: &str, height: usize) -> bool
    ensures { result ≡ fits_height height text.now }
{
    if height == 0 {
        text.is_empty()
    } else {
        line_count(text) == height
    }
}

/// Whether each line of a text is of the given width.
fn has_width(text: &str, width: usize) -> bool
    ensures { result ≡ list_all (λ piece. width_of_text piece == width) (pieces text.now) }
{
    text.split('\n').all(|piece| piece.width() == width)
}

/// The first fault of a cell: its height is looked at before its width.
fn fault_of_cell<D: Dimension>(dims: &D, row: usize, col: usize, text: &str) -> Option<PrintError>
    ensures { result ≡ slice_get (cell_faults (D.width_of dims.now) (D.height_of dims.now) row (col, text.now)) 0 }
{
    let height = dims.get_height(row);
    if !has_height(text, height) {
        return Some(PrintError::Height(row, col));
    }
    if height != 0 && !has_width(text, dims.get_width(col)) {
        return Some(PrintError::Width(row, col));
    }
    None
}

/// The first fault of a row of cells: their number is looked at before the cells.
fn fault_of_row<D: Dimension>(
    dims: &D,
    cols: usize,
    row: usize,
    cells: &[String],
) -> Option<PrintError>
    ensures { result ≡ slice_get (row_faults (D.width_of dims.now) (D.height_of dims.now) cols (row, map string_bytes cells.now)) 0 }
{
    if cells.len() != cols {
        return Some(PrintError::ColumnCount(row));
    }
    for (col, cell) in cells.iter().enumerate() {
        let fault = fault_of_cell(dims, row, col, cell.as_str());
        if fault.is_some() {
            return fault;
        }
    }
    None
}

/// The first fault of the cells of a table, row by row from the top: the number of rows is looked at first.
fn first_fault<D: Dimension>(
    dims: &D,
    shape: (usize, usize),
    cells: &[Vec<String>],
) -> Option<PrintError>
    ensures { result ≡ slice_get (table_faults (D.width_of dims.now) (D.height_of dims.now) shape (texts cells.now)) 0 }
{
    let (rows, cols) = shape;
    if cells.len() != rows {
        return Some(PrintError::RowCount);
    }
    for (row, row_cells) in cells.iter().enumerate() {
        let fault = fault_of_row(dims, cols, row, row_cells);
        if fault.is_some() {
            return fault;
        }
    }
    None
}

/// The first fault of a table: its spans are looked at before its cells.
pub(crate) fn first_refusal<D: Dimension>(
    cfg: &SpannedConfig,
    dims: &D,
    shape: (usize, usize),
    cells: &[Vec<String>],
) -> Option<PrintError>
    ensures { result ≡ refusal.first_refusal cfg.now shape (D.width_of dims.now) (D.height_of dims.now) (texts cells.now) }
{
    if cfg.has_spans() {
        return Some(PrintError::Spans);
    }
    first_fault(dims, shape, cells)
}
