//! Runs of equal texts, which become one cell.

ghost use Rattle.std.specs.Prelude.{◌≡◌, ℕ, nat_lt, filter, length, map, take, IfOk, OnOk, OnErr};
ghost use Rattle.tabled_object.specs.Listing.{covered};
ghost use Rattle.tabled_configuration.specs.Configuration.{Changes};
ghost use Rattle.tabled_numbers.specs.Columns.{column_count};
ghost use Rattle.tabled_cells.specs.TextsBy.{texts_by};
ghost use Rattle.tabled_measure.specs.Runs.{are_alike, begins, count_along, merged, moved, number, run_length, runs, spanned_by};

use crate::found::text_at;
use std::alloc::{AllocError, Global};
use std::collections::BTreeSet;
use std::convert::AsStr;
use tabled_border::OutOfMemory;
use tabled_configuration::SpannedConfig;
use tabled_object::{Entity, Position, Shape, is_covered};

/// The row of a cell, where runs go down, and else its column.
fn number(down: bool, cell: Position) -> usize
    ensures { result ≡ number down cell }
{
    if down { cell.row } else { cell.col }
}

/// The cell of another row, or of another column.
fn moved(down: bool, cell: Position, n: usize) -> Position
    ensures { result ≡ moved down cell n }
{
    if down {
        Position::new(n, cell.col)
    } else {
        Position::new(cell.row, n)
    }
}

/// Whether two cells are both among these, and have one text.
fn are_alike<T: AsStr>(
    entities: &BTreeSet<Entity>,
    rows: &[Vec<T>],
    one: Position,
    other: Position,
) -> bool
    ensures { result ≡ are_alike (covered entities.now.keys) (texts_by T.text rows.now) one other }
{
    is_covered(entities, one)
        && is_covered(entities, other)
        && text_at(rows, one.row, one.col) == text_at(rows, other.row, other.col)
}

/// Whether a run may begin at a cell: the one before is not like it.
fn begins<T: AsStr>(
    down: bool,
    entities: &BTreeSet<Entity>,
    rows: &[Vec<T>],
    cell: Position,
) -> bool
    ensures { result ≡ begins down (covered entities.now.keys) (texts_by T.text rows.now) cell }
{
    let n = number(down, cell);
    n == 0 || !are_alike(entities, rows, moved(down, cell, n - 1), cell)
}

/// How many cells from one on are like it, one after the other, itself among them, of as many rows or columns as there are.
fn run_length<T: AsStr>(
    down: bool,
    entities: &BTreeSet<Entity>,
    rows: &[Vec<T>],
    cell: Position,
    count: usize,
) -> usize
    requires { count ≡ count_along down (texts_by T.text rows.now) }
    ensures { result ≡ run_length down (covered entities.now.keys) (texts_by T.text rows.now) cell }
{
    (number(down, cell)..count)
        .take_while(|n| are_alike(entities, rows, cell, moved(down, cell, *n)))
        .count()
}

/// The runs of two cells and more, each by its first cell and its length, in the row order of these.
pub fn runs<T: AsStr>(
    alloc: Global,
    down: bool,
    entities: &BTreeSet<Entity>,
    rows: &[Vec<T>],
    shape: Shape,
) -> Result<Vec<(Position, usize)>, AllocError>
    requires rows { shape.rows ≡ length (texts_by T.text rows.now) }
    requires columns { shape.cols ≡ column_count (texts_by T.text rows.now) }
    ensures { IfOk result (λ found. found.items ≡ runs down (covered entities.now.keys) (texts_by T.text rows.now)) }
{
    let count = if down { shape.rows } else { shape.cols };
    Entity::Global
        .iter(shape.rows, shape.cols)
        .filter(|cell| begins(down, entities, rows, *cell))
        .map(|cell| (cell, run_length(down, entities, rows, cell, count)))
        .filter(|run| run.1 > 1)
        .collect(alloc)
}

/// Lets the first cell of a run span all of it. Where memory is refused nothing changes.
fn set_span(cfg: &mut SpannedConfig, down: bool, run: (Position, usize)) -> Result<(), OutOfMemory>
    ensures ok { OnOk result (Changes (spanned_by down run) cfg.old cfg.new) }
    ensures err { OnErr result (cfg.new ≡ cfg.old) }
{
    if down {
        cfg.set_row_span(run.0, run.1)
    } else {
        cfg.set_column_span(run.0, run.1)
    }
}

/// Lets the first cell of each run span all of it. Where memory is refused the first of them may.
pub fn merge(
    cfg: &mut SpannedConfig,
    down: bool,
    runs: &[(Position, usize)],
) -> Result<(), OutOfMemory>
    ensures ok { OnOk result (Changes (merged down runs.now) cfg.old cfg.new) }
    ensures err { OnErr result ((count : ℕ) × Changes (merged down (take count runs.now)) cfg.old cfg.new) }
{
    for run in runs {
        set_span(cfg, down, *run)?;
    }
    Ok(())
}
