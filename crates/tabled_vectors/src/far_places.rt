//! What shows about row and column 256, where the slots of a store end.

use crate::tables::{ONE, config, let_go, makes};
use std::alloc::Global;
use tabled_config::SpannedConfig;
use tabled_grid::{Border, HorizontalLine, LineOf, Place, Position, Probes};

const SHAPE: (usize, usize) = (300, 300);

/// The crossings on both sides of the last row and the last column that have slots.
const CROSSINGS: [(usize, usize); 4] = [(255, 255), (255, 256), (256, 255), (256, 256)];

/// The crossing of two lines.
fn crossing(at: (usize, usize)) -> Place {
    let (row, col) = at;
    Place::Cross { row, col }
}

/// The first place of the first edge of a horizontal line.
fn first_of(row: usize) -> Place {
    let (col, at) = (0, 0);
    Place::Horizontal { row, col, at }
}

/// Whether a place shows this, found by at most six readings.
fn shows(cfg: &SpannedConfig, place: Place, character: Option<char>) -> bool {
    let mut probes = Probes::new();
    cfg.char_at(place, SHAPE, 1, &mut probes) == character && probes.count() <= 6
}

/// Whether the four crossings show this.
fn crossings_show(cfg: &SpannedConfig, character: Option<char>) -> bool {
    for at in CROSSINGS.iter() {
        if !shows(cfg, crossing(*at), character) {
            return false;
        }
    }
    true
}

/// Whether a line is drawn.
fn is_drawn(cfg: &SpannedConfig, line: LineOf) -> bool {
    cfg.draws(line, 300, &mut Probes::new())
}

/// Writes at a crossing alone: whether there was memory for it.
fn write(cfg: &mut SpannedConfig, at: (usize, usize)) -> bool {
    let mut corner = Border::empty();
    corner.left_top_corner = Some('x');
    cfg.set_border(at.into(), corner).is_ok()
}

/// Whether crossings on both sides of the end show what is written there.
fn written_crossings_show(cfg: &mut SpannedConfig) -> bool {
    let [first, second, third, fourth] = CROSSINGS;
    write(cfg, first)
        && write(cfg, second)
        && write(cfg, third)
        && write(cfg, fourth)
        && crossings_show(cfg, Some('x'))
        && shows(cfg, crossing((254, 255)), None)
}

/// Whether nothing shows at the four crossings, and none of their lines is drawn.
fn nothing_shows(cfg: &SpannedConfig) -> bool {
    crossings_show(cfg, None)
        && !is_drawn(cfg, LineOf::Horizontal(255))
        && !is_drawn(cfg, LineOf::Horizontal(256))
        && !is_drawn(cfg, LineOf::Vertical(255))
        && !is_drawn(cfg, LineOf::Vertical(256))
}

/// Whether crossings on both sides of the end show what is written there, until it is erased.
fn crossings_show_until_erased(alloc: Global) -> bool {
    let mut cfg = SpannedConfig::new(alloc);
    let are_shown = written_crossings_show(&mut cfg);
    cfg.remove_borders();
    let are_erased = nothing_shows(&cfg);
    drop(cfg);
    are_shown && are_erased
}

/// Puts a horizontal line of one character: whether there was memory for it.
fn put_line(cfg: &mut SpannedConfig, line: usize, character: char) -> bool {
    let fields = HorizontalLine::new(Some(character), None, None, None);
    cfg.insert_horizontal_line(line, fields).is_ok()
}

/// Whether lines on both sides of the end show, and there is memory for one that replaces the first.
fn put_lines_show(cfg: &mut SpannedConfig) -> bool {
    put_line(cfg, 255, '=')
        && put_line(cfg, 256, '-')
        && shows(cfg, first_of(255), Some('='))
        && shows(cfg, first_of(256), Some('-'))
        && put_line(cfg, 255, '#')
}

/// Whether the line that replaced the first shows, and the other does not.
fn one_line_shows(cfg: &SpannedConfig) -> bool {
    shows(cfg, first_of(255), Some('#'))
        && shows(cfg, first_of(256), None)
        && is_drawn(cfg, LineOf::Horizontal(255))
        && !is_drawn(cfg, LineOf::Horizontal(256))
}

/// Whether lines on both sides of the end show, one replaced and one removed.
fn lines_show(alloc: Global) -> bool {
    let mut cfg = SpannedConfig::new(alloc);
    let are_shown = put_lines_show(&mut cfg);
    cfg.remove_horizontal_line(256);
    let is_removed = one_line_shows(&cfg);
    drop(cfg);
    are_shown && is_removed
}

/// Whether a configuration in which something was written and erased again equals a new one.
fn erased_is_new(alloc: Global) -> bool {
    let (mut cfg, new) = (SpannedConfig::new(alloc), SpannedConfig::new(alloc));
    let (row, col) = (200, 200);
    let is_written = write(&mut cfg, (row, col));
    cfg.remove_border(Position { row, col });
    let is_new = cfg == new;
    drop(cfg);
    drop(new);
    is_written && is_new
}

/// Whether a border of the cell after the last row that there can be is above and beside it alone.
fn border_has_no_line_below(config: &mut SpannedConfig) -> bool {
    let (row, col, at) = (usize::MAX, 0, 0);
    config
        .set_border(Position { row, col }, Border::filled('x'))
        .is_ok()
        && config.get_char(Place::Horizontal { row, col, at }) == Some('x')
        && config.get_char(Place::Cross { row, col: 1 }) == Some('x')
        && config.get_char(Place::Cross { row: 0, col }).is_none()
}

/// Whether the cell after the last row that there can be has a border above and beside it alone, which draws the lines of its
/// column.
fn last_row_has_no_line_below(alloc: Global) -> bool {
    let mut cfg = config(alloc);
    let has_none = border_has_no_line_below(cfg.config_mut())
        && makes(alloc, &cfg, ONE, "", Ok(()), "  a  ");
    let_go(cfg);
    has_none
}

#[test]
fn places_show_on_both_sides_of_the_last_slots(rt: HostRuntime) {
    assert!(rt; crossings_show_until_erased(rt.alloc()));
    assert!(rt; lines_show(rt.alloc()));
    assert!(rt; erased_is_new(rt.alloc()));
    assert!(rt; last_row_has_no_line_below(rt.alloc()));
}
