//! Tables to which the tests apply options, their texts, and their places.

use std::alloc::Global;
use tabled_config::{
    CellOption, ColoredConfig, PrintError, SpannedConfig, TableOption, modify, print_plain,
};
use tabled_grid::{ANSIBuf, FixedDimension, Object, OutOfMemory, Place, Probes, Shape};
use tabled_style::Style;

/// The widths of the columns, the heights of the rows, and the cells.
pub(crate) type Table = (
    &'static [usize],
    &'static [usize],
    &'static [&'static [&'static str]],
);

pub(crate) static ONE: Table = (&[3], &[1], &[&[" a "]]);

pub(crate) static TWO_COLUMNS: Table = (&[3, 3], &[1], &[&[" a ", " b "]]);

pub(crate) static TWO_ROWS: Table = (&[3], &[1, 1], &[&[" a "], &[" b "]]);

pub(crate) static THREE_ROWS: Table = (&[3], &[1, 1, 1], &[&[" a "], &[" b "], &[" c "]]);

pub(crate) static FOUR: Table = (&[3, 3], &[1, 1], &[&[" a ", " b "], &[" c ", " d "]]);

/// A table of nine cells.
pub(crate) static NINE: Table = (
    &[3, 3, 3],
    &[1, 1, 1],
    &[
        &[" a ", " b ", " c "],
        &[" d ", " e ", " f "],
        &[" g ", " h ", " i "],
    ],
);

/// A table of two rows and one column.
pub(crate) static GREETING: Table = (&[13], &[1, 1], &[&[" &str        "], &[" Hello World "]]);

/// A configuration in which nothing was set.
pub(crate) fn config(alloc: Global) -> ColoredConfig {
    ColoredConfig::new(SpannedConfig::new(alloc))
}

/// A configuration with a full frame around a table and between its cells.
pub(crate) fn in_ascii(alloc: Global, table: Table) -> ColoredConfig {
    let mut cfg = config(alloc);
    let _ = apply(&mut cfg, table, Style::ascii());
    cfg
}

/// Lets go of a configuration: first of the colors of cells, and then of the rest, which is one call.
pub(crate) fn let_go(cfg: ColoredConfig) {
    drop(cfg.into_inner());
}

/// How many rows and columns a table has.
pub(crate) fn counts(table: Table) -> (usize, usize) {
    (table.1.len(), table.0.len())
}

/// The sizes of a table, of which those are missing for which there was no memory.
pub(crate) fn sizes(alloc: Global, table: Table) -> FixedDimension {
    let widths = table.0.to_vec(alloc).unwrap_or(Vec::new(alloc));
    let heights = table.1.to_vec(alloc).unwrap_or(Vec::new(alloc));
    FixedDimension::new(widths, heights)
}

/// Applies an option that asks for no sizes to a table: whether there was memory for it.
pub(crate) fn apply<O>(cfg: &mut ColoredConfig, table: Table, option: O) -> bool
where
    O: TableOption<Shape, ColoredConfig, ()>,
{
    let mut shape = Shape {
        rows: table.1.len(),
        cols: table.0.len(),
    };
    option.change(&mut shape, cfg, &mut ()).is_ok()
}

/// Applies such an option, if there was memory for it: whether there was, also for what it changes.
pub(crate) fn apply_made<O>(
    cfg: &mut ColoredConfig,
    table: Table,
    option: Result<O, OutOfMemory>,
) -> bool
where
    O: TableOption<Shape, ColoredConfig, ()>,
{
    match option {
        Ok(option) => apply(cfg, table, option),
        Err(OutOfMemory) => false,
    }
}

/// Puts a text on a line of a table, if there was memory for it: whether there was, also for what it changes.
pub(crate) fn write<O>(
    alloc: Global,
    cfg: &mut ColoredConfig,
    table: Table,
    text: Result<O, OutOfMemory>,
) -> bool
where
    O: TableOption<Shape, ColoredConfig, FixedDimension>,
{
    match text {
        Ok(text) => {
            let mut dims = sizes(alloc, table);
            let is_written = change(cfg, table, &mut dims, text);
            drop(dims);
            is_written
        }
        Err(OutOfMemory) => false,
    }
}

/// Applies an option to a table of these sizes: whether there was memory for it.
fn change<O>(cfg: &mut ColoredConfig, table: Table, dims: &mut FixedDimension, option: O) -> bool
where
    O: TableOption<Shape, ColoredConfig, FixedDimension>,
{
    let mut shape = Shape {
        rows: table.1.len(),
        cols: table.0.len(),
    };
    option.change(&mut shape, cfg, dims).is_ok()
}

/// Applies an option to the cells of an object: whether there was memory for it.
pub(crate) fn apply_to<O, P>(
    alloc: Global,
    cfg: &mut ColoredConfig,
    table: Table,
    object: &O,
    option: &P,
) -> bool
where
    O: Object<Shape>,
    P: CellOption<Shape, ColoredConfig>,
{
    let mut shape = Shape {
        rows: table.1.len(),
        cols: table.0.len(),
    };
    modify(alloc, &mut shape, cfg, object, option).is_ok()
}

/// Adds the texts of rows: whether there was memory for them.
fn push_rows(
    alloc: Global,
    cells: &mut Vec<Vec<String>>,
    rows: &[&[&str]],
) -> Result<(), OutOfMemory> {
    for row in rows {
        let mut texts = Vec::new(alloc);
        for text in *row {
            texts.push(String::from_str(alloc, text)?)?;
        }
        cells.push(texts)?;
    }
    Ok(())
}

/// Whether printing cells after a text returns this, and makes this text of it.
fn makes_of(
    shown: &mut String,
    cfg: &ColoredConfig,
    dims: &FixedDimension,
    shape: (usize, usize),
    cells: &[Vec<String>],
    expected: (Result<(), PrintError>, &str),
) -> bool {
    let returned = print_plain(shown, cfg.config(), dims, shape, cells);
    returned == expected.0 && shown.as_str() == expected.1
}

/// Whether printing a table after a text returns this, and makes this text of it.
pub(crate) fn makes(
    alloc: Global,
    cfg: &ColoredConfig,
    table: Table,
    start: &str,
    outcome: Result<(), PrintError>,
    text: &str,
) -> bool {
    let dims = sizes(alloc, table);
    let mut cells = Vec::new(alloc);
    let mut shown = String::new(alloc);
    let has_start = shown.push_str(start).is_ok();
    let has_cells = push_rows(alloc, &mut cells, table.2).is_ok();
    let expected = (outcome, text);
    let is_made = makes_of(&mut shown, cfg, &dims, counts(table), &cells, expected);
    drop(shown);
    drop(cells);
    drop(dims);
    has_start && has_cells && is_made
}

/// Whether a table is printed so after an option.
pub(crate) fn prints_with<O>(alloc: Global, option: O, table: Table, text: &str) -> bool
where
    O: TableOption<Shape, ColoredConfig, ()>,
{
    let mut cfg = config(alloc);
    let is_printed = apply(&mut cfg, table, option) && makes(alloc, &cfg, table, "", Ok(()), text);
    let_go(cfg);
    is_printed
}

/// Whether a table is printed so after two options.
pub(crate) fn prints_with_both<O, P>(
    alloc: Global,
    first: O,
    second: P,
    table: Table,
    text: &str,
) -> bool
where
    O: TableOption<Shape, ColoredConfig, ()>,
    P: TableOption<Shape, ColoredConfig, ()>,
{
    let mut cfg = config(alloc);
    let is_first_applied = apply(&mut cfg, table, first);
    let is_second_applied = apply(&mut cfg, table, second);
    let is_printed = is_first_applied
        && is_second_applied
        && makes(alloc, &cfg, table, "", Ok(()), text);
    let_go(cfg);
    is_printed
}

/// How many places the edge of a place has.
fn size(table: Table, place: Place) -> usize {
    match place {
        Place::Horizontal { col, .. } => table.0.get(col).copied().unwrap_or(0),
        Place::Vertical { .. } => 1,
        Place::Cross { .. } => 0,
    }
}

/// The character of a place of a table.
pub(crate) fn char_at(cfg: &ColoredConfig, table: Table, place: Place) -> Option<char> {
    let (shape, size) = (counts(table), size(table, place));
    cfg.config().char_at(place, shape, size, &mut Probes::new())
}

/// Whether there is a color, and it begins with this text.
pub(crate) fn begins(color: Option<&ANSIBuf>, prefix: &str) -> bool {
    match color {
        Some(color) => color.get_prefix() == prefix,
        None => false,
    }
}

/// Whether a place of a table has a color that begins with this text.
pub(crate) fn has_color(cfg: &ColoredConfig, table: Table, place: Place, prefix: &str) -> bool {
    let (shape, size) = (counts(table), size(table, place));
    let color = cfg
        .config()
        .color_at(place, shape, size, &mut Probes::new());
    begins(color, prefix)
}

/// Whether a place of a table has no color.
pub(crate) fn is_plain(cfg: &ColoredConfig, table: Table, place: Place) -> bool {
    let (shape, size) = (counts(table), size(table, place));
    let color = cfg
        .config()
        .color_at(place, shape, size, &mut Probes::new());
    color.is_none()
}

/// A place above a cell of the first row.
pub(crate) fn top(col: usize, at: usize) -> Place {
    Place::Horizontal { row: 0, col, at }
}

/// A crossing.
pub(crate) fn crossing(row: usize, col: usize) -> Place {
    Place::Cross { row, col }
}
