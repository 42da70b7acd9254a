//! Colors in turn, fillings, trims, shadows, and options on compact configurations.

use crate::tables::{FOUR, ONE, Table, apply, apply_made, begins, config, let_go};
use std::alloc::Global;
use tabled_color::Color;
use tabled_config::{ColoredConfig, CompactConfig, TableOption};
use tabled_formatting::{Alignment, Justification, MarginColor, Shadow, TrimStrategy};
use tabled_grid::{Borders, Combine, Offset, OutOfMemory, Position, Rows, Shape};
use tabled_options::Colorization;
use tabled_settings::{Indent, Sides};
use tabled_style::Style;

const X: &str = "\u{1b}[31m";

const Y: &str = "\u{1b}[32m";

const Z: &str = "\u{1b}[34m";

/// A cell.
const CELL: Position = Position { row: 0, col: 0 };

/// Adds the colors of x, y and z.
fn push_colors(colors: &mut Vec<Color>) -> Result<(), OutOfMemory> {
    colors.push(Color::FG_RED)?;
    colors.push(Color::FG_GREEN)?;
    colors.push(Color::FG_BLUE)?;
    Ok(())
}

/// The first colors of x, y and z, of which those are missing for which there was no memory.
fn colors(alloc: Global, count: usize) -> Vec<Color> {
    let mut colors = Vec::new(alloc);
    let are_pushed = push_colors(&mut colors).is_ok();
    colors.truncate(if are_pushed { count } else { 0 });
    colors
}

/// Whether the cells have colors that begin so, each with its row and column.
fn have_colors(cfg: &ColoredConfig, cells: &[(usize, usize, &str)]) -> bool {
    for (row, col, prefix) in cells {
        let cell = Position {
            row: *row,
            col: *col,
        };
        if !begins(cfg.get_color(cell), prefix) {
            return false;
        }
    }
    true
}

/// Whether cells have these colors after an option.
fn colors_cells<O>(alloc: Global, option: O, table: Table, cells: &[(usize, usize, &str)]) -> bool
where
    O: TableOption<Shape, ColoredConfig, ()>,
{
    let mut cfg = config(alloc);
    let is_colored = apply(&mut cfg, table, option) && have_colors(&cfg, cells);
    let_go(cfg);
    is_colored
}

/// Three cells in a row.
static IN_A_ROW: Table = (&[3, 3, 3], &[1], &[&[" a ", " b ", " c "]]);

/// Three rows of two cells.
static BOARD: Table = (
    &[3, 3],
    &[1, 1, 1],
    &[&[" a ", " b "], &[" c ", " d "], &[" e ", " f "]],
);

#[test]
fn cells_have_colors_in_turn(rt: HostRuntime) {
    let alloc = rt.alloc();
    let by_column = Colorization::by_column(colors(alloc, 3));
    let cells = [(0, 0, X), (1, 0, Y), (0, 1, Z), (1, 1, X)];
    assert!(rt; colors_cells(alloc, by_column, FOUR, &cells));
    let columns = Colorization::columns(colors(alloc, 2));
    let cells = [(0, 0, X), (0, 1, Y), (0, 2, X)];
    assert!(rt; colors_cells(alloc, columns, IN_A_ROW, &cells));
    assert!(rt; chess_is_colored(alloc));
}

/// Whether cells have two colors by turns.
fn chess_is_colored(alloc: Global) -> bool {
    match Colorization::chess(alloc, Color::FG_RED, Color::FG_GREEN) {
        Ok(chess) => colors_cells(alloc, chess, BOARD, &[(0, 1, Y), (1, 1, X), (2, 0, X)]),
        Err(OutOfMemory) => false,
    }
}

/// Whether listed entities have colors as a whole.
fn exact_entities_are_colored(alloc: Global) -> bool {
    let target = Rows::one(1).and((0usize, 0usize));
    let exact = Colorization::exact(colors(alloc, 2), target);
    let cells = [(1, 0, X), (1, 1, X), (0, 0, Y), (0, 1, "")];
    colors_cells(alloc, exact, FOUR, &cells)
}

/// Whether no colors make no map of colors.
fn no_colors_make_no_map(alloc: Global) -> bool {
    let table = FOUR;
    let mut cfg = config(alloc);
    let by_row = Colorization::by_row(Vec::new(alloc));
    let is_first_applied = apply(&mut cfg, table, by_row);
    let exact = Colorization::exact(Vec::new(alloc), Rows::one(0));
    let is_second_applied = apply(&mut cfg, table, exact);
    let makes_none = is_first_applied && is_second_applied && cfg.get_colors().is_empty();
    let_go(cfg);
    makes_none
}

#[test]
fn entities_have_colors_in_turn(rt: HostRuntime) {
    assert!(rt; exact_entities_are_colored(rt.alloc()));
    assert!(rt; no_colors_make_no_map(rt.alloc()));
}

/// Whether the default filling is a space of no color, whatever was there.
fn default_filling_is_a_space(alloc: Global) -> bool {
    let table = ONE;
    let mut cfg = config(alloc);
    let colored = Justification::colored('#', Color::FG_RED);
    let is_space = apply(&mut cfg, table, colored)
        && apply(&mut cfg, table, Justification::default())
        && cfg.config().get_justification(CELL) == ' '
        && cfg.config().get_justification_color(CELL).is_none();
    let_go(cfg);
    is_space
}

/// Whether one trim leaves the other.
fn one_trim_leaves_the_other(alloc: Global) -> bool {
    let table = ONE;
    let mut cfg = config(alloc);
    let is_left = apply(&mut cfg, table, TrimStrategy::Vertical)
        && apply(&mut cfg, table, TrimStrategy::Horizontal)
        && cfg.config().get_trim_horizontal(CELL)
        && cfg.config().get_trim_vertical(CELL);
    let_go(cfg);
    is_left
}

#[test]
fn fillings_and_trims_are_set(rt: HostRuntime) {
    assert!(rt; default_filling_is_a_space(rt.alloc()));
    assert!(rt; one_trim_leaves_the_other(rt.alloc()));
}

/// Whether the margin is that of a shadow at the left and below.
fn is_shadowed(cfg: &ColoredConfig) -> bool {
    let (shadow, nothing) = (Indent { size: 2, fill: '▒' }, Indent { size: 0, fill: ' ' });
    let (left, bottom, none) = (Offset::Start(3), Offset::End(3), Offset::Start(0));
    let margin = Sides::new(shadow, nothing, nothing, shadow);
    let offset = Sides::new(left, none, none, bottom);
    let is_shadowed = *cfg.config().get_margin() == margin
        && *cfg.config().get_margin_offset() == offset;
    drop(margin);
    drop(offset);
    is_shadowed
}

/// Whether a margin is red at the top and at the left.
fn is_red(cfg: &ColoredConfig) -> bool {
    let colors = cfg.config().get_margin_color();
    begins(colors.top.as_ref(), X) && begins(colors.left.as_ref(), X)
}

/// Whether a shadow makes its margin, and leaves the color that was set before.
fn shadow_makes_its_margin(alloc: Global) -> bool {
    let table = ONE;
    let mut cfg = config(alloc);
    let red = MarginColor::filled(alloc, Color::FG_RED);
    let is_colored = apply_made(&mut cfg, table, red);
    let shadow = Shadow::new(2).set_offset(3).set_left();
    let is_applied = apply(&mut cfg, table, shadow);
    let is_made = is_colored && is_applied && is_shadowed(&cfg) && is_red(&cfg);
    let_go(cfg);
    is_made
}

#[test]
fn a_shadow_is_a_margin(rt: HostRuntime) {
    assert!(rt; shadow_makes_its_margin(rt.alloc()));
}

/// Whether an option makes this of a new compact configuration.
fn makes_compact<O>(option: O, expected: &CompactConfig) -> bool
where
    O: TableOption<Shape, CompactConfig, ()>,
{
    let mut cfg = CompactConfig::new();
    let changed = option.change(&mut Shape { rows: 1, cols: 1 }, &mut cfg, &mut ());
    changed.is_ok() && cfg == *expected
}

/// A compact configuration with a vertical line alone.
fn lined() -> CompactConfig {
    let class: Borders<char> = Borders {
        vertical: Some('|'),
        ..Borders::empty()
    };
    CompactConfig::new().set_borders(class)
}

#[test]
fn compact_configurations_take_what_they_have_room_for(rt: HostRuntime) {
    assert!(rt; makes_compact(Alignment::top(), &CompactConfig::new()));
    assert!(rt; makes_compact(Style::psql(), &lined()));
}
