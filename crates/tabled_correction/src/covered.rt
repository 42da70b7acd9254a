//! The cells of a table that spans cover, as sets: as many cells as the spans have, and no more than the table.

ghost use Rattle.std.specs.Prelude.{◌≡◌, ◌||◌, ◌&&◌, ◌==◌, IfOk, OnOk};
ghost use Rattle.tabled_object.specs.declared.position.Position.{Position as At};
ghost use Rattle.tabled_kept.specs.Table.{table};
ghost use Rattle.tabled_layout.specs.Spans.{position_cmp};
ghost use Rattle.tabled_layout.specs.Covering.{covered_by_column_span, covered_by_row_span, covered_by_both_spans};
ghost use Rattle.tabled_correction.specs.Covered.{has, is_in, AreThose};

use crate::interval::Interval;
use std::alloc::Global;
use std::collections::{BTreeMap, BTreeSet};
use tabled_border::OutOfMemory;
use tabled_configuration::SpannedConfig;
use tabled_object::Position;

/// The cells of a table that spans cover.
#[derive(Drop)]
pub(crate) struct Covered {
    /// The cells that column spans cover.
    pub(crate) in_rows: BTreeSet<Position>,
    /// The cells that row spans cover.
    pub(crate) in_columns: BTreeSet<Position>,
    /// The cells that both spans of a cell cover.
    pub(crate) by_both: BTreeSet<Position>,
}

impl Covered {
    /// The cells that the spans of a configuration cover, in a table of `shape.0` rows and `shape.1` columns.
    pub(crate) fn of(cfg: &SpannedConfig, shape: (usize, usize)) -> Result<Self, OutOfMemory>
        ensures in_rows { IfOk result (λ covered. AreThose covered.in_rows.keys shape (covered_by_column_span cfg.now.settings.column_spans)) }
        ensures in_columns { IfOk result (λ covered. AreThose covered.in_columns.keys shape (covered_by_row_span cfg.now.settings.row_spans)) }
        ensures by_both { IfOk result (λ covered. AreThose covered.by_both.keys shape (covered_by_both_spans cfg.now.settings.column_spans cfg.now.settings.row_spans)) }
    {
        let alloc = cfg.allocator();
        let (columns, rows) = (cfg.get_column_spans(), cfg.get_row_spans());
        Ok(Covered {
            in_rows: covered_in_rows(alloc, columns, shape)?,
            in_columns: covered_in_columns(alloc, rows, shape)?,
            by_both: covered_by_both(alloc, columns, rows, shape)?,
        })
    }
}

/// The cells of a table that column spans cover.
fn covered_in_rows(
    alloc: Global,
    columns: &BTreeMap<Position, usize>,
    shape: (usize, usize),
) -> Result<BTreeSet<Position>, OutOfMemory>
    ensures { IfOk result (λ cells. AreThose cells.keys shape (covered_by_column_span (table position_cmp columns.now.entries))) }
{
    let (rows, cols) = shape;
    let mut cells = BTreeSet::new(alloc);
    for (position, count) in columns {
        let across = Interval::after(position.col, *count, cols);
        add_rectangle(&mut cells, Interval::only(position.row, rows), across)?;
    }
    Ok(cells)
}

/// The cells of a table that row spans cover.
fn covered_in_columns(
    alloc: Global,
    rows: &BTreeMap<Position, usize>,
    shape: (usize, usize),
) -> Result<BTreeSet<Position>, OutOfMemory>
    ensures { IfOk result (λ cells. AreThose cells.keys shape (covered_by_row_span (table position_cmp rows.now.entries))) }
{
    let mut cells = BTreeSet::new(alloc);
    for (position, count) in rows {
        let down = Interval::after(position.row, *count, shape.0);
        add_rectangle(&mut cells, down, Interval::only(position.col, shape.1))?;
    }
    Ok(cells)
}

/// The cells of a table that both spans of a cell cover.
fn covered_by_both(
    alloc: Global,
    columns: &BTreeMap<Position, usize>,
    rows: &BTreeMap<Position, usize>,
    shape: (usize, usize),
) -> Result<BTreeSet<Position>, OutOfMemory>
    ensures { IfOk result (λ cells. AreThose cells.keys shape (covered_by_both_spans (table position_cmp columns.now.entries) (table position_cmp rows.now.entries))) }
{
    let mut cells = BTreeSet::new(alloc);
    for (position, count) in columns {
        let height = rows.get(position).copied().unwrap_or(0);
        let down = Interval::after(position.row, height, shape.0);
        let across = Interval::after(position.col, *count, shape.1);
        add_rectangle(&mut cells, down, across)?;
    }
    Ok(cells)
}

/// Adds the cells of some rows and some columns.
fn add_rectangle(
    cells: &mut BTreeSet<Position>,
    rows: Interval,
    cols: Interval,
) -> Result<(), OutOfMemory>
    ensures { OnOk result ((cell : At) → has cells.new.keys cell ≡ (has cells.old.keys cell || (is_in rows cell.row && is_in cols cell.col))) }
{
    for row in rows.start..rows.end {
        add_row(cells, row, cols)?;
    }
    Ok(())
}

/// Adds the cells of one row and some columns.
fn add_row(cells: &mut BTreeSet<Position>, row: usize, cols: Interval) -> Result<(), OutOfMemory>
    ensures { OnOk result ((cell : At) → has cells.new.keys cell ≡ (has cells.old.keys cell || ((cell.row == row) && is_in cols cell.col))) }
{
    for col in cols.start..cols.end {
        cells.insert(Position::new(row, col))?;
    }
    Ok(())
}
