//! What the places along a line show.

use crate::tables::{
    ONE, TWO_COLUMNS, Table, apply, config, counts, in_ascii, let_go, sizes, write,
};
use std::alloc::Global;
use tabled_color::{BorderColor, Color};
use tabled_config::{ColoredConfig, Mark, Run, line_marks, line_runs};
use tabled_grid::{LineOf, OutOfMemory, Probes, Rows};
use tabled_options::LineText;
use tabled_theme::Theme;

const RED: &str = "\u{1b}[31m";

static NO_CELLS: Table = (&[], &[], &[]);

/// Whether a mark shows this character, a full stop for none, and has a color that begins in red if there is an `r`.
fn is_drawn(mark: &Mark<'_>, character: u8, color: u8) -> bool {
    let is_red = match mark.color {
        Some(color) => color.get_prefix() == RED,
        None => false,
    };
    mark.shown.unwrap_or('.') == char::from(character) && is_red == (color == b'r')
}

/// Whether marks show these characters, with a full stop for none, and are red where there is an `r` in the second text.
fn are_drawn(marks: &[Mark<'_>], characters: &[u8], colors: &[u8]) -> bool {
    let (mut characters, mut colors) = (characters.iter(), colors.iter());
    for mark in marks {
        match (characters.next(), colors.next()) {
            (Some(character), Some(color)) if is_drawn(mark, *character, *color) => {}
            _ => return false,
        }
    }
    characters.next().is_none() && colors.next().is_none()
}

/// Whether a line's marks are drawn so.
fn marks_are(
    alloc: Global,
    cfg: &ColoredConfig,
    table: Table,
    line: LineOf,
    expected: (&str, &str),
) -> bool {
    let dims = sizes(alloc, table);
    let shape = counts(table);
    let marks_are = match line_marks(cfg.config(), &dims, shape, line, &mut Probes::new()) {
        Ok(marks) => {
            let (characters, colors) = (expected.0.as_bytes(), expected.1.as_bytes());
            let are_drawn = are_drawn(&marks, characters, colors);
            drop(marks);
            are_drawn
        }
        Err(OutOfMemory) => false,
    };
    drop(dims);
    marks_are
}

/// Whether the edge of the top line of a frame is red, its corners are not, and the left line is not.
fn top_is_red(alloc: Global) -> bool {
    let table = ONE;
    let mut cfg = in_ascii(alloc, table);
    let is_red = apply(&mut cfg, table, BorderColor::new().top(Color::FG_RED));
    let is_drawn = is_red
        && marks_are(
            alloc,
            &cfg,
            table,
            LineOf::Horizontal(0),
            ("+---+", ".rrr."),
        )
        && marks_are(alloc, &cfg, table, LineOf::Vertical(0), ("+|+", "..."))
        && runs_are(
            alloc,
            &cfg,
            table,
            LineOf::Horizontal(0),
            &[('+', 1), ('-', 3), ('+', 1)],
        );
    let_go(cfg);
    is_drawn
}

/// Whether runs show these characters, each so often.
fn are_run(runs: &[Run<'_>], expected: &[(char, usize)]) -> bool {
    let mut expected = expected.iter();
    for run in runs {
        match expected.next() {
            Some((character, count)) if is_run(run, *character, *count) => {}
            _ => return false,
        }
    }
    expected.next().is_none()
}

/// Whether a run shows this character, so often.
fn is_run(run: &Run<'_>, character: char, count: usize) -> bool {
    run.mark.shown == Some(character) && run.count == count
}

/// Whether the runs of a line are these.
fn runs_are(
    alloc: Global,
    cfg: &ColoredConfig,
    table: Table,
    line: LineOf,
    expected: &[(char, usize)],
) -> bool {
    let dims = sizes(alloc, table);
    let shape = counts(table);
    let runs_are = match line_runs(cfg.config(), &dims, shape, line, &mut Probes::new()) {
        Ok(runs) => {
            let are_run = are_run(&runs, expected);
            drop(runs);
            are_run
        }
        Err(OutOfMemory) => false,
    };
    drop(dims);
    runs_are
}

/// A top line and a vertical line, which show nothing where they cross.
fn open(alloc: Global) -> Theme {
    let mut theme = Theme::new(alloc);
    theme.set_borders_top('-');
    theme.set_borders_vertical('|');
    theme
}

/// Whether a text stands in the marks of its line, around a crossing that shows nothing, and the closing line, which is not
/// drawn, has places without a character; the line after it has none.
fn text_stands_in_its_line(alloc: Global) -> bool {
    let table = TWO_COLUMNS;
    let mut cfg = config(alloc);
    let [first, second, third] = [("ABC.EFG", "......."), (".......", "......."), ("", "")];
    let text = LineText::new(alloc, "ABCDEFG", Rows::first());
    let is_lined = apply(&mut cfg, table, open(alloc));
    let is_written = write(alloc, &mut cfg, table, text);
    let stands = is_lined
        && is_written
        && marks_are(alloc, &cfg, table, LineOf::Horizontal(0), first)
        && marks_are(alloc, &cfg, table, LineOf::Horizontal(1), second)
        && marks_are(alloc, &cfg, table, LineOf::Horizontal(2), third);
    let_go(cfg);
    stands
}

/// Whether no line of a table without cells has a mark.
fn no_line_has_marks(alloc: Global) -> bool {
    let table = NO_CELLS;
    let cfg = in_ascii(alloc, table);
    let has_none = marks_are(alloc, &cfg, table, LineOf::Horizontal(0), ("", ""))
        && marks_are(alloc, &cfg, table, LineOf::Horizontal(1), ("", ""))
        && marks_are(alloc, &cfg, table, LineOf::Vertical(0), ("", ""))
        && marks_are(alloc, &cfg, table, LineOf::Vertical(1), ("", ""));
    let_go(cfg);
    has_none
}

#[test]
fn a_line_has_the_mark_of_each_place(rt: HostRuntime) {
    assert!(rt; top_is_red(rt.alloc()));
    assert!(rt; text_stands_in_its_line(rt.alloc()));
    assert!(rt; no_line_has_marks(rt.alloc()));
}
