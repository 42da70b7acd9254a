//! Styles and borders as options.

use crate::tables::{
    ONE, TWO_ROWS, Table, apply, apply_to, config, in_ascii, let_go, makes, prints_with,
    prints_with_both,
};
use std::alloc::Global;
use tabled_config::ColoredConfig;
use tabled_style::{Border, EmptyBorder, HorizontalLine, Style};

/// Whether a frame leaves what was written for a cell.
fn frame_leaves(alloc: Global, cfg: &mut ColoredConfig) -> bool {
    let table = ONE;
    apply_to(alloc, cfg, table, &(0, 0), &Border::new().top('x'))
        && apply(cfg, table, Border::filled('#'))
        && makes(alloc, cfg, table, "", Ok(()), "#xxx#\n# a #\n#####")
}

/// Whether a style leaves nothing of that.
fn style_erases(alloc: Global, cfg: &mut ColoredConfig) -> bool {
    let table = ONE;
    apply(cfg, table, Style::empty()) && makes(alloc, cfg, table, "", Ok(()), " a ")
}

/// Whether a frame leaves what was written for a cell, and a style does not.
fn frame_leaves_a_cell(alloc: Global) -> bool {
    let mut cfg = in_ascii(alloc, ONE);
    let is_left = frame_leaves(alloc, &mut cfg) && style_erases(alloc, &mut cfg);
    let_go(cfg);
    is_left
}

#[test]
fn a_frame_leaves_what_was_written_for_a_cell(rt: HostRuntime) {
    assert!(rt; frame_leaves_a_cell(rt.alloc()));
    assert!(rt; prints_with_both(rt.alloc(), Style::ascii(), EmptyBorder, ONE, " a "));
}

/// A table of three rows.
static LANGUAGES: Table = (
    &[7],
    &[1, 1, 1],
    &[&[" &str  "], &[" Hello "], &[" 2022  "]],
);

/// Whether a cell has the frame of another style.
fn cell_is_framed(alloc: Global) -> bool {
    let table = LANGUAGES;
    let mut cfg = config(alloc);
    let frame = Border::inherit(Style::modern());
    let text = "┌───────┐\n│ &str  │\n└───────┘\n  Hello  \n  2022   ";
    let is_framed = apply(&mut cfg, table, Style::psql())
        && apply_to(alloc, &mut cfg, table, &(0, 0), &frame)
        && makes(alloc, &cfg, table, "", Ok(()), text);
    let_go(cfg);
    is_framed
}

/// A table of three rows and two columns.
static NUMBERS: Table = (
    &[10, 7],
    &[1, 1, 1],
    &[
        &[" 0        ", " 1     "],
        &[" 2        ", " 3     "],
        &[" 4        ", " 5     "],
    ],
);

/// That table in a full frame of another style.
static FRAMED_NUMBERS: &str = "┌──────────+───────┐
│ 0        | 1     │
+----------+-------+
│ 2        | 3     │
+----------+-------+
│ 4        | 5     │
└──────────+───────┘";

#[test]
fn a_cell_and_a_table_have_the_frame_of_another_style(rt: HostRuntime) {
    assert!(rt; cell_is_framed(rt.alloc()));
    let framed = Style::ascii().frame(Border::inherit(Style::modern()));
    assert!(rt; prints_with(rt.alloc(), framed, NUMBERS, FRAMED_NUMBERS));
    let corner = Border::new().bottom('b').left('l').corner_bottom_left('c');
    let framed = Style::empty().frame(corner);
    assert!(rt; prints_with(rt.alloc(), framed, ONE, "l a \ncbbb"));
}

#[test]
fn lines_take_what_they_do_not_give(rt: HostRuntime) {
    let table = TWO_ROWS;
    let twice = Style::rounded().horizontals([
        (1, HorizontalLine::filled('#')),
        (1, HorizontalLine::filled('&')),
    ]);
    let text = "╭───╮\n│ a │\n&&&&&\n│ b │\n╰───╯";
    assert!(rt; prints_with(rt.alloc(), twice, table, text));
    let bare = Style::ascii().line_horizontal(HorizontalLine::new('='));
    assert!(rt; prints_with(rt.alloc(), bare, table, "---\n a \n===\n b \n---"));
}
