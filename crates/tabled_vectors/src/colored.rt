//! The colors of borders and of cells, and what is set by entity.

use crate::tables::{ONE, apply, apply_to, config, crossing, has_color, is_plain, let_go, top};
use std::alloc::Global;
use tabled_color::{BorderColor, Color};
use tabled_config::{ColoredConfig, Colors};
use tabled_grid::{ANSIBuf, Entity, Offset, OutOfMemory, Place, Position};
use tabled_settings::AlignmentHorizontal;
use tabled_style::Style;

const RED: &str = "\u{1b}[31m";

const BLUE: &str = "\u{1b}[34m";

const CELL: Position = Position { row: 0, col: 0 };

/// Whether the places above the cell begin with these texts.
fn top_has(cfg: &ColoredConfig, colors: [&str; 3]) -> bool {
    let table = ONE;
    let [first, second, third] = colors;
    has_color(cfg, table, top(0, 0), first)
        && has_color(cfg, table, top(0, 1), second)
        && has_color(cfg, table, top(0, 2), third)
}

/// Whether the top of a table is red, and no crossing.
fn top_is_red(alloc: Global) -> bool {
    let table = ONE;
    let mut cfg = config(alloc);
    let is_red = apply(&mut cfg, table, BorderColor::new().top(Color::FG_RED))
        && top_has(&cfg, [RED, RED, RED])
        && is_plain(&cfg, table, crossing(0, 0))
        && is_plain(&cfg, table, crossing(0, 1));
    let_go(cfg);
    is_red
}

/// Makes one place above the cell red: whether there was memory for it.
fn make_place_red(alloc: Global, cfg: &mut ColoredConfig) -> bool {
    match ANSIBuf::new(alloc, RED, "\u{1b}[39m") {
        Ok(red) => cfg
            .config_mut()
            .set_horizontal_char_color(CELL, Offset::Start(1), red)
            .is_ok(),
        Err(OutOfMemory) => false,
    }
}

/// Makes all cells blue all around: whether there was memory for it.
fn make_blue(alloc: Global, cfg: &mut ColoredConfig) -> bool {
    match BorderColor::filled(alloc, Color::FG_BLUE) {
        Ok(blue) => {
            let is_applied = apply_to(alloc, cfg, ONE, &Entity::Global, &blue);
            drop(blue);
            is_applied
        }
        Err(OutOfMemory) => false,
    }
}

/// A place above the cell, or below it.
fn edge(row: usize, at: usize) -> Place {
    Place::Horizontal { row, col: 0, at }
}

/// Whether no place of the line above the cell has a color, or of that below it.
fn line_is_plain(cfg: &ColoredConfig, row: usize) -> bool {
    let table = ONE;
    is_plain(cfg, table, crossing(row, 0))
        && is_plain(cfg, table, edge(row, 0))
        && is_plain(cfg, table, edge(row, 1))
        && is_plain(cfg, table, edge(row, 2))
        && is_plain(cfg, table, crossing(row, 1))
}

/// Whether the place beside the cell has no color.
fn side_is_plain(cfg: &ColoredConfig, col: usize) -> bool {
    let (row, at) = (0, 0);
    is_plain(cfg, ONE, Place::Vertical { row, col, at })
}

/// Whether the red place stays in the blue, and no place has a color after a style.
fn red_stays_until_a_style(alloc: Global) -> bool {
    let mut cfg = config(alloc);
    let is_red_until_then = make_place_red(alloc, &mut cfg)
        && make_blue(alloc, &mut cfg)
        && top_has(&cfg, [BLUE, RED, BLUE])
        && apply(&mut cfg, ONE, Style::ascii())
        && line_is_plain(&cfg, 0)
        && side_is_plain(&cfg, 0)
        && side_is_plain(&cfg, 1)
        && line_is_plain(&cfg, 1);
    let_go(cfg);
    is_red_until_then
}

#[test]
fn borders_are_colored(rt: HostRuntime) {
    assert!(rt; top_is_red(rt.alloc()));
    assert!(rt; red_stays_until_a_style(rt.alloc()));
}

/// Makes one cell red: whether there was memory for it.
fn make_red(alloc: Global, cfg: &mut ColoredConfig) -> bool {
    match ANSIBuf::new(alloc, RED, "\u{1b}[39m") {
        Ok(red) => cfg.set_color(Entity::Cell(0, 0), red).is_ok(),
        Err(OutOfMemory) => false,
    }
}

/// Whether a cell has the empty color.
fn is_empty_at(cfg: &ColoredConfig, row: usize, col: usize) -> bool {
    match cfg.get_color(Position { row, col }) {
        Some(color) => color.is_empty(),
        None => false,
    }
}

/// Whether no map of colors was made, and whether it has no color.
fn emptiness(cfg: &ColoredConfig) -> (bool, bool) {
    let colors = cfg.get_colors();
    (colors.is_empty(), Colors::is_empty(colors))
}

/// Whether a removal leaves the map of colors, which is empty once the color of all cells is removed.
fn removals_leave(alloc: Global, cfg: &mut ColoredConfig) -> bool {
    cfg.get_color(Position { row: 0, col: 1 }).is_none()
        && make_red(alloc, cfg)
        && is_empty_at(cfg, 0, 1)
        && cfg.remove_color(Entity::Cell(0, 0)).is_ok()
        && is_empty_at(cfg, 0, 0)
        && emptiness(cfg) == (false, false)
        && cfg.remove_color(Entity::Global).is_ok()
        && emptiness(cfg) == (false, true)
}

/// Whether that holds of a new configuration.
fn removals_leave_the_map(alloc: Global) -> bool {
    let mut cfg = config(alloc);
    let is_left = removals_leave(alloc, &mut cfg);
    let_go(cfg);
    is_left
}

/// Sets the alignment of an entity: whether there was memory for it.
fn align(cfg: &mut ColoredConfig, entity: Entity, alignment: AlignmentHorizontal) -> bool {
    cfg.config_mut()
        .set_alignment_horizontal(entity, alignment)
        .is_ok()
}

/// Whether the alignment that was set last for all cells is that of a cell.
fn last_alignment_counts(alloc: Global) -> bool {
    let mut cfg = config(alloc);
    let is_left = align(&mut cfg, Entity::Row(0), AlignmentHorizontal::Right)
        && align(&mut cfg, Entity::Column(0), AlignmentHorizontal::Center)
        && align(&mut cfg, Entity::Global, AlignmentHorizontal::Left)
        && cfg.config().get_alignment_horizontal(CELL) == AlignmentHorizontal::Left;
    let_go(cfg);
    is_left
}

#[test]
fn cells_have_what_was_set_last(rt: HostRuntime) {
    assert!(rt; removals_leave_the_map(rt.alloc()));
    assert!(rt; last_alignment_counts(rt.alloc()));
}
