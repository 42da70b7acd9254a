//! Outlines around some cells.

use crate::tables::{
    FOUR, TWO_COLUMNS, Table, apply, apply_made, char_at, config, crossing, has_color, in_ascii,
    is_plain, let_go, makes, prints_with, prints_with_both, top,
};
use std::alloc::Global;
use tabled_color::Color;
use tabled_config::ColoredConfig;
use tabled_grid::{Columns, Combine, Entity, Rows, Segment};
use tabled_options::Highlight;
use tabled_style::{Border, Style};

/// Cells of a table of four columns.
static TYPES: Table = (
    &[7, 7, 27, 7],
    &[1, 1, 1, 1],
    &[
        &[
            " usize ",
            " &str  ",
            " &str                      ",
            " bool  ",
        ],
        &[
            " 0     ",
            " ELF   ",
            " Extensible Linking Format ",
            " true  ",
        ],
        &[
            " 1     ",
            " DWARF ",
            "                           ",
            " true  ",
        ],
        &[
            " 2     ",
            " PE    ",
            " Portable Executable       ",
            " false ",
        ],
    ],
);

/// All of it outlined but for the first column's first two cells and the first row's second and fourth.
static TYPES_OUTLINED: &str = "                *****************************        
| usize | &str  * &str                      * bool  |
|-------*********---------------------------*********
| 0     * ELF   | Extensible Linking Format | true  *
*********                                           *
* 1     | DWARF |                           | true  *
*                                                   *
* 2     | PE    | Portable Executable       | false *
*****************************************************";

#[test]
fn most_cells_are_outlined(rt: HostRuntime) {
    let without = (0, 0).and((1, 0)).and((0, 1)).and((0, 3));
    let outline = Highlight::outline(Segment::all().not(without), '*');
    let style = Style::markdown();
    assert!(rt; prints_with_both(rt.alloc(), style, outline, TYPES, TYPES_OUTLINED));
}

/// Five cells in a row.
static FIVE: Table = (
    &[3, 3, 3, 3, 3],
    &[1],
    &[&[" a ", " b ", " c ", " d ", " e "]],
);

/// The five cells in a line of stars.
static STARS: &str = "*********************\n* a   b   c   d   e *\n*********************";

/// The five cells in some orders, and the first one once more.
static ORDERS: [[Entity; 6]; 5] = [
    [A, E, C, B, D, A],
    [D, B, C, E, A, D],
    [A, B, C, D, E, A],
    [E, D, C, B, A, E],
    [C, A, E, D, B, C],
];

const A: Entity = Entity::Cell(0, 0);

const B: Entity = Entity::Cell(0, 1);

const C: Entity = Entity::Cell(0, 2);

const D: Entity = Entity::Cell(0, 3);

const E: Entity = Entity::Cell(0, 4);

/// Whether the five cells, in this order, are outlined as one.
fn are_outlined(alloc: Global, order: &'static [Entity]) -> bool {
    prints_with_both(
        alloc,
        Style::empty(),
        Highlight::outline(order, '*'),
        FIVE,
        STARS,
    )
}

#[test]
fn cells_in_any_order_have_one_outline(rt: HostRuntime) {
    for order in ORDERS.iter() {
        assert!(rt; are_outlined(rt.alloc(), order), "{order:?}");
    }
}

const TOP_LEFT: Entity = Entity::Cell(0, 0);

const TOP_RIGHT: Entity = Entity::Cell(0, 1);

const BOTTOM_LEFT: Entity = Entity::Cell(1, 0);

const BOTTOM_RIGHT: Entity = Entity::Cell(1, 1);

const OUTSIDE: Entity = Entity::Cell(5, 5);

/// An outline whose eight characters are different, with a character of its own where cells touch at a corner alone, if one
/// is given.
fn numbered(cells: &'static [Entity], touch: Option<char>) -> Highlight<&'static [Entity]> {
    let border = Border::full('1', '2', '3', '4', '5', '6', '7', '8');
    let outline = Highlight::new(cells).border(border);
    match touch {
        Some(character) => outline.diagonal(character),
        None => outline,
    }
}

/// Some of four cells, the character where they touch, and the table with such an outline.
static OUTLINED: [(&[Entity], Option<char>, &str); 5] = [
    (
        &[TOP_RIGHT, BOTTOM_LEFT, BOTTOM_RIGHT],
        None,
        "    51116\n  a 3 b 4\n51118   4\n3 c   d 4\n722222228",
    ),
    (&[OUTSIDE], None, " a  b \n c  d "),
    (&[TOP_LEFT, BOTTOM_RIGHT], Some('X'), CROSSED),
    (&[BOTTOM_RIGHT, TOP_LEFT], Some('X'), CROSSED),
    (&[BOTTOM_RIGHT, TOP_LEFT, BOTTOM_RIGHT], Some('X'), CROSSED),
];

/// Two cells that touch, with a character of their own there.
const CROSSED: &str = "51116    \n3 a 4 b  \n7222X1116\n  c 3 d 4\n    72228";

/// Whether four cells with such an outline have this character in their middle.
fn has_middle(alloc: Global, outline: Highlight<&'static [Entity]>, character: char) -> bool {
    let table = FOUR;
    let mut cfg = config(alloc);
    let has_middle = apply(&mut cfg, table, outline)
        && char_at(&cfg, table, crossing(1, 1)) == Some(character);
    let_go(cfg);
    has_middle
}

/// Some of four cells, the character where they touch, if one is given, and the one that stands there.
static MIDDLES: [(&[Entity], Option<char>, char); 6] = [
    (&[TOP_LEFT, BOTTOM_RIGHT], None, '5'),
    (&[BOTTOM_RIGHT, TOP_LEFT], None, '5'),
    (&[TOP_RIGHT, BOTTOM_LEFT], None, '6'),
    (&[BOTTOM_LEFT, TOP_RIGHT], None, '6'),
    (&[TOP_RIGHT, BOTTOM_LEFT], Some('X'), 'X'),
    (&[TOP_RIGHT, BOTTOM_LEFT, BOTTOM_RIGHT], Some('X'), '8'),
];

#[test]
fn cells_that_touch_share_an_outline(rt: HostRuntime) {
    for (cells, touch, text) in OUTLINED.iter() {
        let outline = numbered(cells, *touch);
        assert!(rt; prints_with(rt.alloc(), outline, FOUR, text), "{cells:?}");
    }
    for (cells, touch, character) in MIDDLES.iter() {
        let outline = numbered(cells, *touch);
        assert!(rt; has_middle(rt.alloc(), outline, *character), "{cells:?}");
    }
}

#[test]
fn an_outline_without_border_draws_touches_alone(rt: HostRuntime) {
    let table = FOUR;
    let nothing = Highlight::new(Segment::all());
    assert!(rt; prints_with(rt.alloc(), nothing, table, " a  b \n c  d "));
    let alone = Highlight::new((0, 0).and((1, 1))).diagonal('X');
    assert!(rt; prints_with(rt.alloc(), alone, table, " a   b \n   X   \n c   d "));
}

/// Four cells of which the first row and the first column are outlined.
static ROW_AND_COLUMN: &str = "*********\n* a   b *\n*   *****\n* c * d  \n*****    ";

/// Whether the first row and the first column, with a cell outside and one that both have, are outlined as one, and as
/// they are once they are outlined again.
fn row_and_column_are_outlined(alloc: Global, cfg: &mut ColoredConfig) -> bool {
    let table = FOUR;
    let target = Rows::one(0).and(Columns::one(0)).and((9, 9)).and((0, 0));
    let is_outlined = apply(cfg, table, Highlight::outline(&target, '*'));
    let shows_once = is_outlined && makes(alloc, cfg, table, "", Ok(()), ROW_AND_COLUMN);
    let is_outlined = apply(cfg, table, Highlight::outline(&target, '*'));
    let shows_twice = is_outlined && makes(alloc, cfg, table, "", Ok(()), ROW_AND_COLUMN);
    drop(target);
    shows_once && shows_twice
}

#[test]
fn a_row_a_column_and_a_cell_outside_have_one_outline(rt: HostRuntime) {
    let mut cfg = config(rt.alloc());
    let is_outlined = row_and_column_are_outlined(rt.alloc(), &mut cfg);
    let_go(cfg);
    assert!(rt; is_outlined);
}

#[test]
fn the_later_outline_counts(rt: HostRuntime) {
    let first = Highlight::outline((0, 0), '*');
    let second = Highlight::outline((0, 1), '#');
    let text = "****#####\n* a # b #\n****#####";
    assert!(rt; prints_with_both(rt.alloc(), first, second, TWO_COLUMNS, text));
}

const RED: &str = "\u{1b}[31m";

/// Whether an outline in red is red, and nothing else, and leaves the text.
fn is_red(alloc: Global) -> bool {
    let table = FOUR;
    let mut cfg = in_ascii(alloc, table);
    let text = "+---+---+\n| a | b |\n+---+---+\n| c | d |\n+---+---+";
    let outline = Highlight::colored(alloc, (0, 0), Color::FG_RED);
    let is_outlined = apply_made(&mut cfg, table, outline);
    let is_red = is_outlined
        && has_color(&cfg, table, top(0, 0), RED)
        && has_color(&cfg, table, crossing(1, 1), RED)
        && is_plain(&cfg, table, top(1, 0))
        && makes(alloc, &cfg, table, "", Ok(()), text);
    let_go(cfg);
    is_red
}

#[test]
fn colors_leave_characters(rt: HostRuntime) {
    assert!(rt; is_red(rt.alloc()));
}
