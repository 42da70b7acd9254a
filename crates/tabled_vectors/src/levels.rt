//! What shows at each level: the default, custom lines, cells and offsets.

use crate::tables::{FOUR, ONE, TWO_ROWS, Table, config, in_ascii, let_go, makes};
use std::alloc::Global;
use tabled_config::ColoredConfig;
use tabled_grid::{Border, HorizontalLine, LineOf, Offset, Place, Position, Probes, VerticalLine};

const CELL: Position = Position { row: 0, col: 0 };

/// Sets offset characters of one cell: whether there was memory for them.
fn set_offsets(cfg: &mut ColoredConfig, offsets: &[(Offset, char)]) -> bool {
    for (offset, character) in offsets {
        let set = cfg
            .config_mut()
            .set_horizontal_char(CELL, *offset, *character);
        if set.is_err() {
            return false;
        }
    }
    true
}

/// Whether one cell is printed in a full frame alone once its offset characters are removed.
fn offsets_are_removed(alloc: Global, cfg: &mut ColoredConfig) -> bool {
    cfg.config_mut().remove_horizontal_chars();
    makes(alloc, cfg, ONE, "", Ok(()), "+---+\n| a |\n+---+")
}

/// Whether one cell in a full frame is printed so with these offset characters, and as before once they are removed.
fn offsets_show(alloc: Global, offsets: &[(Offset, char)], text: &str) -> bool {
    let table = ONE;
    let mut cfg = in_ascii(alloc, table);
    let is_shown = set_offsets(&mut cfg, offsets)
        && makes(alloc, &cfg, table, "", Ok(()), text)
        && offsets_are_removed(alloc, &mut cfg);
    let_go(cfg);
    is_shown
}

#[test]
fn offsets_show_until_they_are_removed(rt: HostRuntime) {
    let (start, end) = ((Offset::Start(2), 's'), (Offset::End(0), 'e'));
    let text = "+--s+\n| a |\n+---+";
    assert!(rt; offsets_show(rt.alloc(), &[end, start], text));
    assert!(rt; offsets_show(rt.alloc(), &[start, end], text));
    let past = (Offset::End(3), 'e');
    assert!(rt; offsets_show(rt.alloc(), &[past], "+---+\n| a |\n+---+"));
}

/// Puts a border with its lower left corner alone around the first cell: whether there was memory for it.
fn put_corner(cfg: &mut ColoredConfig) -> bool {
    let mut corner = Border::empty();
    corner.left_bottom_corner = Some('#');
    cfg.config_mut().set_border(CELL, corner).is_ok()
}

/// Whether the row between two cells is not drawn, which is found by at most six readings.
fn draws_no_row(cfg: &ColoredConfig) -> bool {
    let mut probes = Probes::new();
    !cfg.config().draws(LineOf::Horizontal(1), 2, &mut probes) && probes.count() <= 6
}

/// Whether a corner alone draws its row and its column until it is removed, and, where it was put twice and removed once, draws
/// no row.
fn corner_shows(alloc: Global, cfg: &mut ColoredConfig) -> bool {
    let table = TWO_ROWS;
    let is_shown = put_corner(cfg) && makes(alloc, cfg, table, "", Ok(()), "  a \n#   \n  b ");
    cfg.config_mut().remove_border(CELL);
    let is_removed = makes(alloc, cfg, table, "", Ok(()), " a \n b ");
    let is_put_twice = put_corner(cfg) && put_corner(cfg);
    cfg.config_mut().remove_border(CELL);
    is_shown && is_removed && is_put_twice && draws_no_row(cfg)
}

#[test]
fn a_corner_alone_draws_its_row_and_its_column(rt: HostRuntime) {
    let mut cfg = config(rt.alloc());
    let shows = corner_shows(rt.alloc(), &mut cfg);
    let_go(cfg);
    assert!(rt; shows);
}

/// Whether the default alone frames a table.
fn default_shows(alloc: Global) -> bool {
    let mut cfg = config(alloc);
    cfg.config_mut().set_border_default('*');
    let is_shown = makes(alloc, &cfg, ONE, "", Ok(()), "*****\n* a *\n*****");
    let_go(cfg);
    is_shown
}

/// Whether a vertical line alone draws itself.
fn vertical_line_shows(alloc: Global) -> bool {
    let mut cfg = config(alloc);
    let line = VerticalLine::new(Some('|'), Some('+'), None, None);
    let is_shown = cfg.config_mut().insert_vertical_line(1, line).is_ok()
        && makes(alloc, &cfg, FOUR, "", Ok(()), " a | b \n c | d ");
    let_go(cfg);
    is_shown
}

/// Whether a new configuration has no character at an edge, which is found by at most six readings.
fn nothing_shows(alloc: Global) -> bool {
    let cfg = config(alloc);
    let mut probes = Probes::new();
    let (row, col, at) = (0, 0, 0);
    let edge = Place::Horizontal { row, col, at };
    let character = cfg.config().char_at(edge, (1, 1), 3, &mut probes);
    let_go(cfg);
    character.is_none() && probes.count() <= 6
}

/// Puts a line over another: whether there was memory for both.
fn put_two_lines(cfg: &mut ColoredConfig) -> bool {
    let first = HorizontalLine::new(Some('='), None, Some('L'), None);
    let second = HorizontalLine::new(Some('='), None, None, None);
    let config = cfg.config_mut();
    config.insert_horizontal_line(1, first).is_ok()
        && config.insert_horizontal_line(1, second).is_ok()
}

/// Whether a line that is put over another keeps nothing of it.
fn later_line_shows(alloc: Global, table: Table) -> bool {
    let mut cfg = in_ascii(alloc, table);
    let is_shown = put_two_lines(&mut cfg)
        && makes(
            alloc,
            &cfg,
            table,
            "",
            Ok(()),
            "+---+\n| a |\n+===+\n| b |\n+---+",
        );
    let_go(cfg);
    is_shown
}

#[test]
fn each_level_shows_what_was_set_there(rt: HostRuntime) {
    assert!(rt; default_shows(rt.alloc()));
    assert!(rt; vertical_line_shows(rt.alloc()));
    assert!(rt; nothing_shows(rt.alloc()));
    assert!(rt; later_line_shows(rt.alloc(), TWO_ROWS));
}
