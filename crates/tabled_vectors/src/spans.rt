//! Spans, their correction, and what the printer says of them.

use crate::tables::{FOUR, NINE, ONE, TWO_COLUMNS, Table, apply, config, counts, let_go, makes};
use std::alloc::Global;
use tabled_config::{ColoredConfig, PrintError, TableOption};
use tabled_grid::{Place, Position, Probes, Shape};
use tabled_options::BorderCorrection;
use tabled_style::Style;

/// The position of the first cell.
const FIRST: Position = Position { row: 0, col: 0 };

/// Lets the first cell of a table in a style span columns and rows, and corrects the borders: whether there was memory.
fn correct<O>(cfg: &mut ColoredConfig, table: Table, style: O, columns: usize, rows: usize) -> bool
where
    O: TableOption<Shape, ColoredConfig, ()>,
{
    apply(cfg, table, style)
        && cfg.config_mut().set_column_span(FIRST, columns).is_ok()
        && cfg.config_mut().set_row_span(FIRST, rows).is_ok()
        && apply(cfg, table, BorderCorrection::span())
}

/// Whether the crossings of a line of a table are these characters.
fn line_has(cfg: &ColoredConfig, table: Table, row: usize, characters: &str) -> bool {
    for (col, character) in characters.chars().enumerate() {
        let place = Place::Cross { row, col };
        let shown = cfg
            .config()
            .char_at(place, counts(table), 0, &mut Probes::new());
        if shown != Some(character) {
            return false;
        }
    }
    true
}

/// Whether the crossings of a table are these characters, line by line.
fn has_crossings(cfg: &ColoredConfig, table: Table, lines: &[&str]) -> bool {
    for (row, characters) in lines.iter().enumerate() {
        if !line_has(cfg, table, row, characters) {
            return false;
        }
    }
    true
}

/// Whether spans in a style leave these crossings.
fn leaves<O>(
    alloc: Global,
    table: Table,
    style: O,
    columns: usize,
    rows: usize,
    crossings: &[&str],
) -> bool
where
    O: TableOption<Shape, ColoredConfig, ()>,
{
    let mut cfg = config(alloc);
    let is_left = correct(&mut cfg, table, style, columns, rows)
        && has_crossings(&cfg, table, crossings);
    let_go(cfg);
    is_left
}

#[test]
fn spans_are_corrected(rt: HostRuntime) {
    let table = NINE;
    let alloc = rt.alloc();
    let crossings = ["+--+", "++++", "++++", "++++"];
    assert!(rt; leaves(alloc, table, Style::ascii(), 3, 1, &crossings));
    assert!(rt; leaves(alloc, FOUR, Style::ascii(), 1, 2, &["+++", "|++", "+++"]));
    let crossings = ["┌─┬┐", "││├┤", "├┬┼┤", "└┴┴┘"];
    assert!(rt; leaves(alloc, table, Style::modern(), 2, 2, &crossings));
    assert!(rt;
        leaves(
            alloc,
            TWO_COLUMNS,
            Style::ascii(),
            usize::MAX,
            1,
            &["+-+", "+-+"]
        )
    );
}

/// Whether a cell that is too wide is refused so, and the text stays.
fn refuses_wide(alloc: Global, cfg: &ColoredConfig, refusal: PrintError) -> bool {
    let wide: Table = (&[3], &[1], &[&[" ab "]]);
    makes(alloc, cfg, wide, "before:", Err(refusal), "before:")
}

/// Whether a width is refused, and a span before it.
fn spans_are_refused_first(alloc: Global) -> bool {
    let mut cfg = config(alloc);
    let are_refused = refuses_wide(alloc, &cfg, PrintError::Width(0, 0))
        && cfg.config_mut().set_column_span(FIRST, 2).is_ok()
        && refuses_wide(alloc, &cfg, PrintError::Spans)
        && cfg.config_mut().set_column_span(FIRST, usize::MAX).is_ok()
        && refuses_wide(alloc, &cfg, PrintError::Spans);
    let_go(cfg);
    are_refused
}

/// Whether a span that is taken back is none, and the table is printed.
fn span_is_taken_back(alloc: Global) -> bool {
    let mut cfg = config(alloc);
    let is_none = cfg.config_mut().set_column_span(FIRST, 3).is_ok()
        && cfg.config_mut().set_column_span(FIRST, 1).is_ok()
        && cfg.config().get_column_spans().is_empty()
        && makes(alloc, &cfg, ONE, "", Ok(()), " a ");
    let_go(cfg);
    is_none
}

#[test]
fn spans_are_refused_until_they_are_taken_back(rt: HostRuntime) {
    assert!(rt; spans_are_refused_first(rt.alloc()));
    assert!(rt; span_is_taken_back(rt.alloc()));
}
