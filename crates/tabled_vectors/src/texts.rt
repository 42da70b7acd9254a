//! Texts and characters on lines.

use crate::tables::{
    FOUR, GREETING, ONE, TWO_COLUMNS, Table, apply, apply_to, char_at, config, crossing, has_color,
    in_ascii, is_plain, let_go, makes, top, write,
};
use std::alloc::Global;
use tabled_color::Color;
use tabled_config::{ColoredConfig, TableOption};
use tabled_formatting::Alignment;
use tabled_grid::{
    Columns, Combine, FirstColumn, FirstRow, FixedDimension, Offset, OutOfMemory, Row, Rows, Shape,
    VerticalLine,
};
use tabled_options::{LineChar, LineText};
use tabled_settings::AlignmentHorizontal;
use tabled_style::Style;
use tabled_theme::Theme;

/// A text, how it is aligned, moved and limited, and the table with the top line that it makes.
type Title = (
    &'static str,
    Option<Alignment>,
    Offset,
    Option<usize>,
    &'static str,
);

const LEFT: Option<Alignment> = Some(Alignment::Horizontal(AlignmentHorizontal::Left));

const CENTER: Option<Alignment> = Some(Alignment::Horizontal(AlignmentHorizontal::Center));

const RIGHT: Option<Alignment> = Some(Alignment::Horizontal(AlignmentHorizontal::Right));

const HERE: Offset = Offset::Start(0);

const FAR: Offset = Offset::Start(usize::MAX);

const FAR_BACK: Offset = Offset::End(usize::MAX);

const LONG: &str = "ABCDEFGHIJKLMNOPQRST";

/// The table with this top line.
macro_rules! titled {
    ($top:literal) => {
        concat!(
            $top,
            "\n| &str        |\n+-------------+\n| Hello World |\n+-------------+"
        )
    };
}

const UNTOUCHED: &str = titled!("+-------------+");

static TITLES: [Title; 14] = [
    ("TABLE", CENTER, HERE, None, titled!("+----TABLE----+")),
    ("TABLE", CENTER, FAR, None, UNTOUCHED),
    (
        "TABLE",
        None,
        Offset::Start(3),
        None,
        titled!("+--TABLE------+"),
    ),
    ("+-.table", None, HERE, Some(3), titled!("+-.-----------+")),
    (LONG, RIGHT, HERE, None, UNTOUCHED),
    (LONG, LEFT, HERE, None, titled!("ABCDEFGHIJKLMNO")),
    (
        "TABLE",
        RIGHT,
        Offset::End(3),
        None,
        titled!("+------------TA"),
    ),
    (
        "TABLE",
        None,
        Offset::End(3),
        None,
        titled!("+-----------TAB"),
    ),
    ("TABLE", LEFT, FAR_BACK, None, titled!("TABLE---------+")),
    ("TABLE", None, FAR_BACK, None, UNTOUCHED),
    ("TABLE", RIGHT, FAR, None, UNTOUCHED),
    ("TABLE", RIGHT, FAR_BACK, None, UNTOUCHED),
    ("TABLE", None, HERE, Some(0), UNTOUCHED),
    ("漢字", CENTER, HERE, None, titled!("+----漢字-------+")),
];

/// The text for the first row.
fn title_of(alloc: Global, title: Title) -> Result<LineText<FirstRow>, OutOfMemory> {
    let (text, alignment, offset, limit, _) = title;
    let text = LineText::new(alloc, text, Rows::first())?.offset(offset);
    let text = match alignment {
        Some(alignment) => text.align(alignment),
        None => text,
    };
    match limit {
        Some(limit) => Ok(text.limit(limit)),
        None => Ok(text),
    }
}

/// Whether a table is printed so once a text is put on a line, if there was memory for it.
fn prints_on<P>(
    alloc: Global,
    mut cfg: ColoredConfig,
    text: Result<P, OutOfMemory>,
    table: Table,
    expected: &str,
) -> bool
where
    P: TableOption<Shape, ColoredConfig, FixedDimension>,
{
    let is_printed = write(alloc, &mut cfg, table, text)
        && makes(alloc, &cfg, table, "", Ok(()), expected);
    let_go(cfg);
    is_printed
}

/// Whether a title makes its top line, and nothing else.
fn makes_its_top_line(alloc: Global, title: Title) -> bool {
    let option = title_of(alloc, title);
    prints_on(alloc, in_ascii(alloc, GREETING), option, GREETING, title.4)
}

#[test]
fn titles_make_their_top_lines(rt: HostRuntime) {
    for title in TITLES.iter() {
        assert!(rt; makes_its_top_line(rt.alloc(), *title));
    }
}

/// Whether a table in the full frame is printed so with a text above a row.
fn prints_above(alloc: Global, text: &str, row: Row, expected: &str) -> bool {
    let option = LineText::new(alloc, text, row);
    prints_on(alloc, in_ascii(alloc, GREETING), option, GREETING, expected)
}

/// The table in the full frame with a text in its closing line.
static CLOSED: &str = "+-------------+
| &str        |
+-------------+
| Hello World |
TABLE---------+";

/// The same with the text above the last row.
static INNER: &str = "+-------------+
| &str        |
TABLE---------+
| Hello World |
+-------------+";

#[test]
fn a_text_stands_above_the_row_that_is_named(rt: HostRuntime) {
    let table = GREETING;
    let alloc = rt.alloc();
    assert!(rt; prints_above(alloc, "TABLE", Rows::one(2), CLOSED));
    assert!(rt; prints_above(alloc, "TABLE", Rows::one(3), UNTOUCHED));
    assert!(rt; prints_above(alloc, "TABLE", Rows::one(usize::MAX), UNTOUCHED));
    let above_the_last = LineText::new(alloc, "TABLE", Rows::last());
    assert!(rt; prints_on(alloc, in_ascii(alloc, table), above_the_last, table, INNER));
    let before_the_first = LineText::new(alloc, "TABLE", Rows::last().offset(usize::MAX));
    assert!(rt;
        prints_on(
            alloc,
            in_ascii(alloc, table),
            before_the_first,
            table,
            UNTOUCHED
        )
    );
}

/// The table with a text down both sides.
static BOTH_SIDES: &str = "T-------------T
A &str        A
B-------------B
L Hello World L
E-------------E";

/// The table with a text that ends at the bottom.
static AT_THE_BOTTOM: &str = "+-------------+
| &str        |
+-------------+
A Hello World |
B-------------+";

/// Puts a text on the line before a column: whether there was memory for it.
fn put_before(alloc: Global, cfg: &mut ColoredConfig, column: usize) -> bool {
    let text = LineText::new(alloc, "TABLE", Columns::one(column));
    write(alloc, cfg, GREETING, text)
}

/// Whether texts run down both sides.
fn has_both_sides(alloc: Global, cfg: &mut ColoredConfig) -> bool {
    put_before(alloc, cfg, 0)
        && put_before(alloc, cfg, 1)
        && makes(alloc, cfg, GREETING, "", Ok(()), BOTH_SIDES)
}

/// A text that ends at the bottom of the first column.
fn at_the_bottom(alloc: Global) -> Result<LineText<FirstColumn>, OutOfMemory> {
    Ok(LineText::new(alloc, "AB", Columns::first())?.align(Alignment::bottom()))
}

#[test]
fn texts_run_down_the_sides(rt: HostRuntime) {
    let alloc = rt.alloc();
    let mut cfg = in_ascii(alloc, GREETING);
    let has_both = has_both_sides(alloc, &mut cfg);
    let_go(cfg);
    assert!(rt; has_both);
    assert!(rt;
        prints_on(
            alloc,
            in_ascii(alloc, GREETING),
            at_the_bottom(alloc),
            GREETING,
            AT_THE_BOTTOM
        )
    );
}

/// A table of three rows.
static LANGUAGES: Table = (
    &[7],
    &[1, 1, 1],
    &[&[" &str  "], &[" Hello "], &[" 2022  "]],
);

/// Whether a text on the middle line of a table of four cells makes this of it.
fn makes_of_four(alloc: Global, cfg: &mut ColoredConfig, text: &str, expected: &str) -> bool {
    let table = FOUR;
    let text = LineText::new(alloc, text, Rows::one(1));
    write(alloc, cfg, table, text) && makes(alloc, cfg, table, "", Ok(()), expected)
}

/// Whether two texts on the middle line of a table with a vertical line alone make these texts.
fn draws_its_line(alloc: Global, cfg: &mut ColoredConfig) -> bool {
    let line = VerticalLine::new(Some('|'), Some('+'), None, None);
    cfg.config_mut().insert_vertical_line(1, line).is_ok()
        && makes_of_four(alloc, cfg, "ABCDEFG", " a | b \nABCDEFG\n c | d ")
        && makes_of_four(alloc, cfg, "xyz", " a | b \nxyzDEFG\n c | d ")
}

/// A configuration with a line below the first row of a table and lines between its columns.
fn headed(alloc: Global, table: Table) -> ColoredConfig {
    let mut cfg = config(alloc);
    let _ = apply(&mut cfg, table, Style::psql());
    cfg
}

#[test]
fn a_text_draws_a_line_by_its_crossings_alone(rt: HostRuntime) {
    let table = LANGUAGES;
    let alloc = rt.alloc();
    let text = " &str  \nSanta--\n Hello \n 2022  ";
    let drawn = LineText::new(alloc, "Santa", Rows::one(1));
    assert!(rt; prints_on(alloc, headed(alloc, table), drawn, table, text));
    let text = " &str  \n-------\n Hello \n 2022  ";
    let undrawn = LineText::new(alloc, "Santa", Rows::first());
    assert!(rt; prints_on(alloc, headed(alloc, table), undrawn, table, text));
    let mut cfg = config(alloc);
    let is_drawn = draws_its_line(alloc, &mut cfg);
    let_go(cfg);
    assert!(rt; is_drawn);
}

const BLUE: &str = "\u{1b}[34m";

/// A text on the first row in blue.
fn blue(alloc: Global, text: &str) -> Result<LineText<FirstRow>, OutOfMemory> {
    Ok(LineText::new(alloc, text, Rows::first())?.color(Color::FG_BLUE))
}

/// Whether the first places of a title in blue are blue, and the next one plain.
fn title_is_blue(cfg: &ColoredConfig) -> bool {
    let table = GREETING;
    has_color(cfg, table, crossing(0, 0), BLUE)
        && has_color(cfg, table, top(0, 0), BLUE)
        && has_color(cfg, table, top(0, 1), BLUE)
        && has_color(cfg, table, top(0, 2), BLUE)
        && has_color(cfg, table, top(0, 3), BLUE)
        && is_plain(cfg, table, top(0, 4))
}

/// A theme of a top line and of a line between columns that has nothing at their crossing.
fn open(alloc: Global) -> Theme {
    let mut theme = Theme::new(alloc);
    theme.set_borders_top('-');
    theme.set_borders_vertical('|');
    theme
}

/// Whether a crossing without a character uses up a character of the text and has its color.
fn crossing_is_blue(alloc: Global, cfg: &ColoredConfig) -> bool {
    let table = TWO_COLUMNS;
    makes(alloc, cfg, table, "", Ok(()), "ABC EFG\n a | b ")
        && char_at(cfg, table, crossing(0, 1)).is_none()
        && has_color(cfg, table, crossing(0, 1), BLUE)
}

/// Whether texts in blue are blue.
fn texts_are_blue(alloc: Global, cfg: &mut ColoredConfig) -> bool {
    let table = TWO_COLUMNS;
    write(alloc, cfg, GREETING, blue(alloc, "TABLE"))
        && title_is_blue(cfg)
        && apply(cfg, table, open(alloc))
        && write(alloc, cfg, table, blue(alloc, "ABCDEFG"))
        && crossing_is_blue(alloc, cfg)
}

#[test]
fn a_color_stands_at_each_place_of_a_text(rt: HostRuntime) {
    let mut cfg = in_ascii(rt.alloc(), GREETING);
    let are_blue = texts_are_blue(rt.alloc(), &mut cfg);
    let_go(cfg);
    assert!(rt; are_blue);
}

/// Whether a text of two lines stands at the right by the wider one, with its line feed on a place of its own.
fn has_a_line_feed(cfg: &ColoredConfig) -> bool {
    let table = GREETING;
    char_at(cfg, table, top(0, 11)) == Some('A')
        && char_at(cfg, table, top(0, 12)) == Some('B')
        && char_at(cfg, table, crossing(0, 1)) == Some('\n')
}

/// A column without width.
static NARROW: Table = (&[0], &[1], &[&[""]]);

#[test]
fn each_character_takes_a_place(rt: HostRuntime) {
    let table = GREETING;
    let alloc = rt.alloc();
    let mut cfg = in_ascii(alloc, table);
    let title = title_of(alloc, ("AB\nCDE", RIGHT, HERE, None, ""));
    let is_written = write(alloc, &mut cfg, table, title);
    let has_text = is_written && has_a_line_feed(&cfg);
    let_go(cfg);
    assert!(rt; has_text);
    let text = LineText::new(alloc, "AB", Rows::first());
    assert!(rt; prints_on(alloc, in_ascii(alloc, NARROW), text, NARROW, "AB\n||\n++"));
}

/// Whether marks stand on a row and beside cells.
fn has_marks(alloc: Global) -> bool {
    let table = GREETING;
    let mut cfg = config(alloc);
    let first = LineChar::horizontal(':', Offset::Start(0));
    let last = LineChar::horizontal(':', Offset::End(0));
    let side = LineChar::vertical('#', Offset::Start(0));
    let text = "| &str        |\n|:-----------:|\n# Hello World #";
    let sides = (1, 0).and((1, 1));
    let are_drawn = apply(&mut cfg, table, Style::markdown())
        && apply_to(alloc, &mut cfg, table, &Rows::one(1), &first)
        && apply_to(alloc, &mut cfg, table, &Rows::one(1), &last)
        && apply_to(alloc, &mut cfg, table, &sides, &side)
        && makes(alloc, &cfg, table, "", Ok(()), text);
    drop(sides);
    let_go(cfg);
    are_drawn
}

/// Whether two marks above a cell, in this order, make this text.
fn has_two_marks(alloc: Global, first: LineChar, second: LineChar, text: &str) -> bool {
    let table = ONE;
    let mut cfg = in_ascii(alloc, table);
    let are_drawn = apply_to(alloc, &mut cfg, table, &(0, 0), &first)
        && apply_to(alloc, &mut cfg, table, &(0, 0), &second)
        && makes(alloc, &cfg, table, "", Ok(()), text);
    let_go(cfg);
    are_drawn
}

#[test]
fn marks_stand_on_lines(rt: HostRuntime) {
    let start = LineChar::horizontal('s', Offset::Start(2));
    let end = LineChar::horizontal('e', Offset::End(0));
    let past = LineChar::horizontal('p', Offset::End(3));
    assert!(rt; has_marks(rt.alloc()));
    assert!(rt; has_two_marks(rt.alloc(), start, end, "+--s+\n| a |\n+---+"));
    assert!(rt; has_two_marks(rt.alloc(), end, start, "+--s+\n| a |\n+---+"));
    assert!(rt; has_two_marks(rt.alloc(), past, past, "+---+\n| a |\n+---+"));
}
