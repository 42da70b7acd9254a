//! Tables in markdown.

ghost use Rattle.std.specs.Prelude.{◌≡◌, ◌<◌, length, string_bytes, IfOk};
ghost use Rattle.tabled_markdown.specs.Reading.{read_rows, read_sides};
ghost use Rattle.tabled_markdown.specs.Table.{fitted_sides};
ghost use Rattle.tabled_measure.specs.Sizes.{column_count};
ghost use Rattle.tabled_width.specs.Texts.{texts};

use std::alloc::Global;
use tabled_markdown::Side;
use tabled_text::{TableError, TextTable};

/// What a table of rows writes in markdown is read, by the grammar of markdown, as these very rows, and as the sides of their columns.
pub fn markdown_is_read_back(
    alloc: Global,
    rows: Vec<Vec<String>>,
    sides: &[Side],
) -> Result<String, TableError>
    ensures rows { IfOk result (λ text. read_rows (string_bytes text) ≡ texts rows.items) }
    ensures sides { 0 < length rows.items → IfOk result (λ text. read_sides (string_bytes text) ≡ fitted_sides (column_count (texts rows.items)) sides.now) }
{
    let table = TextTable::from_rows(alloc, rows)?;
    Ok(table.to_markdown(sides)?)
}
