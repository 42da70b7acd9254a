//! Themes, and their custom lines.

use crate::tables::{THREE_ROWS, TWO_ROWS, Table, apply_made, config, let_go, makes};
use std::alloc::Global;
use std::collections::BTreeMap;
use tabled_grid::{Keep, OutOfMemory, VerticalLine};
use tabled_style::{HorizontalLine, Style};
use tabled_theme::Theme;

/// A table of four rows and two columns.
static LANGUAGES: Table = (
    &[7, 5],
    &[1, 1, 1, 1],
    &[
        &[" &str  ", " i32 "],
        &[" Hello ", " 0   "],
        &[" Hello ", " 1   "],
        &[" Hello ", " 2   "],
    ],
);

/// That table with a line of another style between its columns.
static CROSSED: &str = "=======╠=====
 &str  ═ i32 
======= =====
 Hello ═ 0   
 Hello ═ 1   
 Hello ═ 2   
=======╣=====";

/// The same with that line between its rows.
static UNDERLINED: &str = " ======= ===== 
  &str    i32  
╠═══════╬═════╣
  Hello   0    
  Hello   1    
  Hello   2    
 ======= ===== ";

/// Puts the inner line of the extended style between the columns of a theme, or between its rows.
fn put_line(theme: &mut Theme, is_vertical: bool) -> Result<(), OutOfMemory> {
    let line = HorizontalLine::inherit(Style::extended());
    if is_vertical {
        theme.insert_vertical_line(1, VerticalLine::from(line))
    } else {
        theme.insert_horizontal_line(1, line.into_inner())
    }
}

/// A theme of the text style with that line.
fn lined(alloc: Global, is_vertical: bool) -> Result<Theme, OutOfMemory> {
    let mut theme = Theme::from_style(alloc, Style::re_structured_text())?;
    put_line(&mut theme, is_vertical)?;
    Ok(theme)
}

/// Whether a theme is drawn so, if there was memory for it.
fn draws(alloc: Global, theme: Result<Theme, OutOfMemory>, table: Table, text: &str) -> bool {
    let mut cfg = config(alloc);
    let is_drawn = apply_made(&mut cfg, table, theme)
        && makes(alloc, &cfg, table, "", Ok(()), text);
    let_go(cfg);
    is_drawn
}

#[test]
fn a_line_of_another_style_stands_between(rt: HostRuntime) {
    let table = LANGUAGES;
    let alloc = rt.alloc();
    assert!(rt; draws(alloc, lined(alloc, true), table, CROSSED));
    assert!(rt; draws(alloc, lined(alloc, false), table, UNDERLINED));
}

/// A theme of a style with lines of `#` and of `&` at these indices.
fn two_lines(alloc: Global, first: usize, second: usize) -> Result<Theme, OutOfMemory> {
    let style = Style::rounded().horizontals([
        (first, HorizontalLine::filled('#')),
        (second, HorizontalLine::filled('&')),
    ]);
    Theme::from_style(alloc, style)
}

/// Two lines of a style, of which the first is covered by one that is set.
static COVERED: &str = "╭───╮\n│ a │\n=====\n│ b │\n&&&&&\n│ c │\n╰───╯";

/// The same where nothing is set any more.
static UNCOVERED: &str = "╭───╮\n│ a │\n#####\n│ b │\n&&&&&\n│ c │\n╰───╯";

/// The same without horizontal lines.
static REMOVED: &str = "╭───╮\n│ a │\n│ b │\n│ c │\n╰───╯";

/// Whether a line that is set covers that of the style until it is replaced by none, so that the one beneath shows again in all
/// its fields, and none shows once all are removed. What is drawn is a copy.
fn set_line_covers(alloc: Global, theme: &mut Theme) -> bool {
    let (first, set) = (HorizontalLine::filled('#'), HorizontalLine::filled('='));
    let is_set = theme.insert_horizontal_line(1, set.into_inner()).is_ok();
    let is_covered = draws(alloc, theme.keep(alloc), THREE_ROWS, COVERED);
    theme.set_horizontal_lines(BTreeMap::new(alloc));
    let is_beneath = theme.get_horizontal_line(1).copied() == Some(first.into_inner());
    let is_uncovered = draws(alloc, theme.keep(alloc), THREE_ROWS, UNCOVERED);
    theme.remove_horizontal_lines();
    let is_removed = draws(alloc, theme.keep(alloc), THREE_ROWS, REMOVED);
    is_set && is_covered && is_beneath && is_uncovered && is_removed
}

#[test]
fn lines_that_are_set_stand_over_those_of_a_style(rt: HostRuntime) {
    let alloc = rt.alloc();
    let text = "╭───╮\n│ a │\n&&&&&\n│ b │\n╰───╯";
    assert!(rt; draws(alloc, two_lines(alloc, 1, 1), TWO_ROWS, text));
    let are_covered = match two_lines(alloc, 1, 2) {
        Ok(mut theme) => {
            let is_covered = set_line_covers(alloc, &mut theme);
            drop(theme);
            is_covered
        }
        Err(OutOfMemory) => false,
    };
    assert!(rt; are_covered);
}
