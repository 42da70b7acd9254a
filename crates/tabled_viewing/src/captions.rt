//! Texts above and below a table.

ghost use Rattle.std.specs.Prelude.{◌≡◌, ◌+◌, ◌==◌, ◌&&◌, ◌++◌, [], List, Some, chars, nat_le, sum, option_map, string_bytes, IfOk, OnOk};
ghost use Rattle.std.specs.List.{list_all};
ghost use Rattle.tabled_configuration.specs.Colored.{Changes, Shows};
ghost use Rattle.tabled_configuration.specs.Configuration.{ConfigEvent, settings_of};
ghost use Rattle.tabled_viewing.specs.Captions.{beside, caption, cut_to, has_room, lettering, on_line, shown_text, takes_one, written_on_line};

use std::alloc::Global;
use std::convert::AsStr;
use tabled_border::OutOfMemory;
use tabled_clean::cleaned;
use tabled_formatting::Alignment;
use tabled_object::{Row, Rows};
use tabled_options::LineText;
use tabled_text::Table;
use tabled_width::truncated;
use unicode_width::UnicodeWidthChar;

/// Whether a character takes one column of the terminal.
fn takes_one(character: char) -> bool
    ensures { result ≡ takes_one character }
{
    character.width().unwrap_or(0) == 1
}

/// Whether each character of a text takes one column of the terminal.
fn all_take_one(text: &str) -> bool
    ensures { result ≡ list_all takes_one (chars text.now) }
{
    text.chars().all(takes_one)
}

/// Whether some columns of the terminal are no more than these columns of a table take together.
fn are_within(columns: usize, widths: &[usize]) -> bool
    ensures { result ≡ nat_le columns (sum widths.now) }
{
    let mut left = columns;
    for width in widths {
        left = left.saturating_sub(*width);
    }
    left == 0
}

/// Whether a text has room on a line of the table, between two spaces: each of its characters takes one column, and it is no wider than the
/// columns of the table together.
fn has_room<T: AsStr + Drop>(table: &Table<T>, text: &str) -> bool
    ensures { result ≡ has_room table.now.texts text.now }
{
    let count = text.chars().count();
    all_take_one(text) && are_within(count + 2, &table.sizes().widths)
}

/// A text as it is shown: cleaned, unless it is to be left as it is.
fn shown_text(alloc: Global, text: &str, is_raw: bool) -> Result<String, OutOfMemory>
    ensures { IfOk result (λ shown. string_bytes shown ≡ shown_text is_raw text.now) }
{
    if is_raw {
        return Ok(String::from_str(alloc, text)?);
    }
    cleaned(alloc, text)
}

/// A text cut off before two dots, where it is wider than the table may be.
fn cut_to(alloc: Global, text: String, width: Option<usize>) -> Result<String, OutOfMemory>
    ensures { IfOk result (λ shown. string_bytes shown ≡ cut_to width (string_bytes text)) }
{
    match width {
        Some(width) => truncated(alloc, text.as_str(), width, ".."),
        None => Ok(text),
    }
}

/// Returns a text that is to stand above or below the table as it is shown there, within a width; the empty one is none.
pub(crate) fn caption(
    alloc: Global,
    is_raw: bool,
    width: Option<usize>,
    text: Option<&str>,
) -> Result<Option<String>, OutOfMemory>
    ensures { IfOk result (λ shown. option_map string_bytes shown ≡ caption is_raw width (option_map (λ text. text.now) text.entry)) }
{
    match text {
        Some(text) if !text.is_empty() => {
            let shown = shown_text(alloc, text, is_raw)?;
            Ok(Some(cut_to(alloc, shown, width)?))
        }
        _ => Ok(None),
    }
}

/// A text for the middle of the horizontal line above the row of that number, between two spaces.
fn lettering(alloc: Global, text: &str, line: usize) -> Result<LineText<Row>, OutOfMemory>
    ensures { IfOk result (λ given. given ≡ lettering text.now line) }
{
    let spaced = format!(in alloc; " {text} ")?;
    let given: LineText<Row> = LineText::new(alloc, spaced.as_str(), Rows::one(line))?;
    Ok(given.align(Alignment::center()))
}

/// Writes a text in the middle of the horizontal line above the row of that number. Where memory is refused nothing changes.
fn write_on_line<T: AsStr + Drop>(
    table: &mut Table<T>,
    alloc: Global,
    text: &str,
    line: usize,
) -> Result<(), OutOfMemory>
    ensures config { (before : List ConfigEvent) → Shows before table.old.config → settings_of before ≡ []
        → OnOk result (Changes (written_on_line before table.old.texts text.now line) table.old.config table.new.config) }
    ensures texts { table.new.texts ≡ table.old.texts }
{
    let given = lettering(alloc, text, line)?;
    table.apply(given)
}

/// Whether a text stands on a line of the table: the line is drawn, and has room for it.
fn stands_on_line<T: AsStr + Drop>(table: &Table<T>, text: &str, is_drawn: bool) -> bool
    ensures { result ≡ (is_drawn && has_room table.now.texts text.now) }
{
    is_drawn && has_room(table, text)
}

/// Writes a text on a line of the table, where the line is drawn and has room for it, and returns what stands beside the table for it then.
fn put_text<T: AsStr + Drop>(
    table: &mut Table<T>,
    alloc: Global,
    text: String,
    is_drawn: bool,
    line: usize,
) -> Result<String, OutOfMemory>
    ensures config { (before : List ConfigEvent) → Shows before table.old.config → settings_of before ≡ []
        → OnOk result (Shows (before ++ on_line is_drawn before table.old.texts line (Some (string_bytes text))) table.new.config) }
    ensures beside { IfOk result (λ left. string_bytes left ≡ beside is_drawn table.old.texts (Some (string_bytes text))) }
    ensures texts { table.new.texts ≡ table.old.texts }
{
    if stands_on_line(table, text.as_str(), is_drawn) {
        write_on_line(table, alloc, text.as_str(), line)?;
        return Ok(String::new(alloc));
    }
    let mut left = text;
    left.push('\n')?;
    Ok(left)
}

/// Writes a text, if there is one, on a line of the table, where the line is drawn and has room for it, and returns what stands beside the
/// table for it then: the text and a line feed, or nothing. Where memory is refused the text may have been written.
pub(crate) fn put_caption<T: AsStr + Drop>(
    table: &mut Table<T>,
    alloc: Global,
    text: Option<String>,
    is_drawn: bool,
    line: usize,
) -> Result<String, OutOfMemory>
    ensures config { (before : List ConfigEvent) → Shows before table.old.config → settings_of before ≡ []
        → OnOk result (Shows (before ++ on_line is_drawn before table.old.texts line (option_map string_bytes text)) table.new.config) }
    ensures beside { IfOk result (λ left. string_bytes left ≡ beside is_drawn table.old.texts (option_map string_bytes text)) }
    ensures texts { table.new.texts ≡ table.old.texts }
{
    match text {
        None => Ok(String::new(alloc)),
        Some(text) => put_text(table, alloc, text, is_drawn, line),
    }
}
