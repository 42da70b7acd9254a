//! Printed tables, and what is refused where cells do not fit.

use crate::tables::{ONE, Table, in_ascii, let_go, makes};
use std::alloc::Global;
use tabled_config::PrintError;

/// Whether printing with a full frame returns this and makes this text of `before:`.
fn gives(alloc: Global, table: Table, outcome: Result<(), PrintError>, text: &str) -> bool {
    let cfg = in_ascii(alloc, ONE);
    let is_given = makes(alloc, &cfg, table, "before:", outcome, text);
    let_go(cfg);
    is_given
}

/// Tables, and what is made of `before:` in a full frame.
static FRAMED: [(Table, &str); 8] = [
    ((&[], &[], &[]), "before:"),
    ((&[3], &[1], &[&[" a "]]), "before:+---+\n| a |\n+---+"),
    (
        (&[3], &[2], &[&[" a \n b "]]),
        "before:+---+\n| a |\n| b |\n+---+",
    ),
    ((&[3], &[0], &[&[""]]), "before:+---+\n+---+"),
    ((&[4], &[1], &[&[" 漢 "]]), "before:+----+\n| 漢 |\n+----+"),
    ((&[0], &[1], &[&[""]]), "before:++\n||\n++"),
    ((&[3, 3, 3], &[], &[]), "before:"),
    ((&[], &[1, 1], &[&[], &[]]), "before:"),
];

#[test]
fn cells_are_printed_in_a_full_frame(rt: HostRuntime) {
    for (table, text) in FRAMED.iter() {
        assert!(rt; gives(rt.alloc(), *table, Ok(()), text), "{text}");
    }
}

/// Tables that are refused, and the first fault of each.
static REFUSED: [(Table, PrintError); 9] = [
    ((&[3], &[1], &[&[" ab "]]), PrintError::Width(0, 0)),
    ((&[3], &[1], &[&[" a \n b "]]), PrintError::Height(0, 0)),
    ((&[3], &[0], &[&[" a "]]), PrintError::Height(0, 0)),
    ((&[], &[1, 1], &[&[]]), PrintError::RowCount),
    (
        (&[3, 3], &[1, 1], &[&[" a ", " bb "], &[" c "]]),
        PrintError::Width(0, 1),
    ),
    (
        (&[3, 3], &[1, 1], &[&[" a ", " b "], &[" c\n"]]),
        PrintError::ColumnCount(1),
    ),
    (
        (&[3, 3], &[1, 1], &[&["aaaa\n", " b "], &[" a ", " b "]]),
        PrintError::Height(0, 0),
    ),
    (
        (&[3, 3], &[1, 1], &[&["aaaa\n", " b "], &[" c\n"], &[]]),
        PrintError::RowCount,
    ),
    (
        (&[3, 3], &[1, 1], &[&[" a ", " bb "], &[" c "], &[]]),
        PrintError::RowCount,
    ),
];

#[test]
fn the_first_fault_is_answered(rt: HostRuntime) {
    for (table, refusal) in REFUSED.iter() {
        assert!(rt; gives(rt.alloc(), *table, Err(*refusal), "before:"));
    }
}
