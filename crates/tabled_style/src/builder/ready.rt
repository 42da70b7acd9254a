//! The ready styles.

ghost use Rattle.std.specs.Prelude.{◌≡◌};
ghost use Rattle.tabled_style.specs.Ready.{open_line, class_record, boxed, unframed, plain, ruled};
ghost use Rattle.tabled_style.specs.Lines.{full_horizontal};

use super::Style;
use super::custom::Lines;
use crate::On;
use tabled_grid::{Borders, HorizontalLine as HLine, Rank};

/// Along the edges, at the crossings between, and at the two ends.
fn full_line(main: char, intersection: char, left: char, right: char) -> HLine<char>
    ensures { result ≡ full_horizontal main intersection left right }
{
    HLine::new(Some(main), Some(intersection), Some(left), Some(right))
}

/// Along the edges and at the crossings between, without ends.
fn open_line(main: char, intersection: char) -> HLine<char>
    ensures { result ≡ open_line main intersection }
{
    HLine::new(Some(main), Some(intersection), None, None)
}

/// The record of a top, a bottom, the lines between rows, and the edges of the vertical lines.
fn class_record(
    top: HLine<char>,
    bottom: HLine<char>,
    between: HLine<char>,
    left: Option<char>,
    right: Option<char>,
    vertical: Option<char>,
) -> Borders<char>
    ensures { result ≡ class_record top bottom between left right vertical }
{
    let verticals = Borders {
        left,
        right,
        vertical,
        ..Borders::empty()
    };
    verticals
        .with_horizontal_line(Rank::Inner, between)
        .with_horizontal_line(Rank::Last, bottom)
        .with_horizontal_line(Rank::First, top)
}

/// The record with one character for the edges of all vertical lines.
fn boxed(top: HLine<char>, bottom: HLine<char>, between: HLine<char>, side: char) -> Borders<char>
    ensures { result ≡ boxed top bottom between side }
{
    class_record(top, bottom, between, Some(side), Some(side), Some(side))
}

/// The record with one line for the top and the bottom, with lines between columns and without sides.
fn unframed(line: HLine<char>, vertical: char) -> Borders<char>
    ensures { result ≡ unframed line vertical }
{
    class_record(line, line, HLine::empty(), None, None, Some(vertical))
}

/// A style without custom lines.
fn plain<T, B, L, R, H, V>(borders: Borders<char>) -> Style<T, B, L, R, H, V, 0, 0>
    ensures { result ≡ plain borders }
{
    Style::new(borders, Lines { lines: [] }, Lines { lines: [] })
}

/// A style with one custom line, under the first row.
fn ruled<T, B, L, R, H, V>(
    borders: Borders<char>,
    rule: HLine<char>,
) -> Style<T, B, L, R, H, V, 1, 0>
    ensures { result ≡ ruled borders rule }
{
    let rules = [(1, rule)];
    Style::new(borders, Lines { lines: rules }, Lines { lines: [] })
}

#[tactic(auto, unfolding(crate::specs::Ready::empty, crate::specs::Ready::blank, crate::specs::Ready::ascii, crate::specs::Ready::psql, crate::specs::Ready::markdown, crate::specs::Ready::modern, crate::specs::Ready::sharp, crate::specs::Ready::rounded, crate::specs::Ready::modern_rounded, crate::specs::Ready::extended, crate::specs::Ready::dots, crate::specs::Ready::re_structured_text, crate::specs::Ready::ascii_rounded))]
impl Style<(), (), (), (), (), (), 0, 0> {
    ghost use Rattle.tabled_style.specs.Ready.{empty, blank, ascii, psql, markdown, modern, sharp, rounded, modern_rounded, extended, dots, re_structured_text, ascii_rounded};

    /// Nothing: no borders at all.
    ///
    /// ```text
    ///  Tree   Height  Cones
    ///  Larch  45 m    yes
    ///  Beech  40 m    no
    /// ```
    pub fn empty() -> Style<(), (), (), (), (), (), 0, 0>
        ensures { result ≡ empty }
    {
        plain(Borders::empty())
    }

    /// Returns a space between columns, and nothing else.
    ///
    /// ```text
    ///  Tree    Height   Cones
    ///  Larch   45 m     yes
    ///  Beech   40 m     no
    /// ```
    pub fn blank() -> Style<(), (), (), (), (), On, 0, 0>
        ensures { result ≡ blank }
    {
        plain(unframed(HLine::empty(), ' '))
    }

    /// Dashes, bars and plus signs on every line.
    ///
    /// ```text
    /// +-------+--------+-------+
    /// | Tree  | Height | Cones |
    /// +-------+--------+-------+
    /// | Larch | 45 m   | yes   |
    /// +-------+--------+-------+
    /// | Beech | 40 m   | no    |
    /// +-------+--------+-------+
    /// ```
    pub fn ascii() -> Style<On, On, On, On, On, On, 0, 0>
        ensures { result ≡ ascii }
    {
        plain(boxed(
            full_line('-', '+', '+', '+'),
            full_line('-', '+', '+', '+'),
            full_line('-', '+', '+', '+'),
            '|',
        ))
    }

    /// Bars between columns, and one line under the first row, without a frame.
    ///
    /// ```text
    ///  Tree  | Height | Cones
    /// -------+--------+-------
    ///  Larch | 45 m   | yes
    ///  Beech | 40 m   | no
    /// ```
    pub fn psql() -> Style<(), (), (), (), (), On, 1, 0>
        ensures { result ≡ psql }
    {
        let borders = unframed(HLine::empty(), '|');
        ruled(borders, open_line('-', '+'))
    }

    /// Bars on both sides and between columns, and one line under the first row.
    ///
    /// ```text
    /// | Tree  | Height | Cones |
    /// |-------|--------|-------|
    /// | Larch | 45 m   | yes   |
    /// | Beech | 40 m   | no    |
    /// ```
    pub fn markdown() -> Style<(), (), On, On, (), On, 1, 0>
        ensures { result ≡ markdown }
    {
        let borders = boxed(HLine::empty(), HLine::empty(), HLine::empty(), '|');
        ruled(borders, full_line('-', '|', '|', '|'))
    }

    /// Thin lines of the box drawing characters, everywhere.
    ///
    /// ```text
    /// ┌───────┬────────┬───────┐
    /// │ Tree  │ Height │ Cones │
    /// ├───────┼────────┼───────┤
    /// │ Larch │ 45 m   │ yes   │
    /// ├───────┼────────┼───────┤
    /// │ Beech │ 40 m   │ no    │
    /// └───────┴────────┴───────┘
    /// ```
    pub fn modern() -> Style<On, On, On, On, On, On, 0, 0>
        ensures { result ≡ modern }
    {
        plain(boxed(
            full_line('─', '┬', '┌', '┐'),
            full_line('─', '┴', '└', '┘'),
            full_line('─', '┼', '├', '┤'),
            '│',
        ))
    }

    /// Thin lines, with no line between rows but the one under the first row.
    ///
    /// ```text
    /// ┌───────┬────────┬───────┐
    /// │ Tree  │ Height │ Cones │
    /// ├───────┼────────┼───────┤
    /// │ Larch │ 45 m   │ yes   │
    /// │ Beech │ 40 m   │ no    │
    /// └───────┴────────┴───────┘
    /// ```
    pub fn sharp() -> Style<On, On, On, On, (), On, 1, 0>
        ensures { result ≡ sharp }
    {
        let borders = boxed(
            full_line('─', '┬', '┌', '┐'),
            full_line('─', '┴', '└', '┘'),
            HLine::empty(),
            '│',
        );
        ruled(borders, full_line('─', '┼', '├', '┤'))
    }

    /// As `sharp`, with round corners.
    ///
    /// ```text
    /// ╭───────┬────────┬───────╮
    /// │ Tree  │ Height │ Cones │
    /// ├───────┼────────┼───────┤
    /// │ Larch │ 45 m   │ yes   │
    /// │ Beech │ 40 m   │ no    │
    /// ╰───────┴────────┴───────╯
    /// ```
    pub fn rounded() -> Style<On, On, On, On, (), On, 1, 0>
        ensures { result ≡ rounded }
    {
        let borders = boxed(
            full_line('─', '┬', '╭', '╮'),
            full_line('─', '┴', '╰', '╯'),
            HLine::empty(),
            '│',
        );
        ruled(borders, full_line('─', '┼', '├', '┤'))
    }

    /// As `modern`, with round corners.
    ///
    /// ```text
    /// ╭───────┬────────┬───────╮
    /// │ Tree  │ Height │ Cones │
    /// ├───────┼────────┼───────┤
    /// │ Larch │ 45 m   │ yes   │
    /// ├───────┼────────┼───────┤
    /// │ Beech │ 40 m   │ no    │
    /// ╰───────┴────────┴───────╯
    /// ```
    pub fn modern_rounded() -> Style<On, On, On, On, On, On, 0, 0>
        ensures { result ≡ modern_rounded }
    {
        plain(boxed(
            full_line('─', '┬', '╭', '╮'),
            full_line('─', '┴', '╰', '╯'),
            full_line('─', '┼', '├', '┤'),
            '│',
        ))
    }

    /// Double lines of the box drawing characters, everywhere.
    ///
    /// ```text
    /// ╔═══════╦════════╦═══════╗
    /// ║ Tree  ║ Height ║ Cones ║
    /// ╠═══════╬════════╬═══════╣
    /// ║ Larch ║ 45 m   ║ yes   ║
    /// ╠═══════╬════════╬═══════╣
    /// ║ Beech ║ 40 m   ║ no    ║
    /// ╚═══════╩════════╩═══════╝
    /// ```
    pub fn extended() -> Style<On, On, On, On, On, On, 0, 0>
        ensures { result ≡ extended }
    {
        plain(boxed(
            full_line('═', '╦', '╔', '╗'),
            full_line('═', '╩', '╚', '╝'),
            full_line('═', '╬', '╠', '╣'),
            '║',
        ))
    }

    /// Full stops along the top, and full stops and colons elsewhere.
    ///
    /// ```text
    /// ..........................
    /// : Tree  : Height : Cones :
    /// :.......:........:.......:
    /// : Larch : 45 m   : yes   :
    /// :.......:........:.......:
    /// : Beech : 40 m   : no    :
    /// :.......:........:.......:
    /// ```
    pub fn dots() -> Style<On, On, On, On, On, On, 0, 0>
        ensures { result ≡ dots }
    {
        plain(boxed(
            full_line('.', '.', '.', '.'),
            full_line('.', ':', ':', ':'),
            full_line('.', ':', ':', ':'),
            ':',
        ))
    }

    /// Three lines of equals signs, broken between columns, as in the simple tables of reStructuredText.
    ///
    /// ```text
    /// ======= ======== =======
    ///  Tree    Height   Cones
    /// ======= ======== =======
    ///  Larch   45 m     yes
    ///  Beech   40 m     no
    /// ======= ======== =======
    /// ```
    pub fn re_structured_text() -> Style<On, On, (), (), (), On, 1, 0>
        ensures { result ≡ re_structured_text }
    {
        let borders = unframed(open_line('=', ' '), ' ');
        ruled(borders, open_line('=', ' '))
    }

    /// Returns a frame of dashes and bars with dots and apostrophes as corners, and bars between columns.
    ///
    /// ```text
    /// .------------------------.
    /// | Tree  | Height | Cones |
    /// | Larch | 45 m   | yes   |
    /// | Beech | 40 m   | no    |
    /// '------------------------'
    /// ```
    pub fn ascii_rounded() -> Style<On, On, On, On, (), On, 0, 0>
        ensures { result ≡ ascii_rounded }
    {
        plain(boxed(
            full_line('-', '-', '.', '.'),
            full_line('-', '-', '\'', '\''),
            HLine::empty(),
            '|',
        ))
    }
}
