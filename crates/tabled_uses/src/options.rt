//! Each option once, on the same table. Each function is one use, and a test of `tests/gallery.rs` or
//! `tests/gallery_settings.rs` holds the picture that it draws; `docs/GALLERY.md` is made of them.

use crate::recipes::people;
use std::alloc::Global;
use tabled::grid::config::{Indent, Sides};
use tabled::settings::formatting::{AlignmentStrategy, TrimStrategy};
use tabled::settings::object::{Columns, Combine, Entity, Frame, Rows, Segment};
use tabled::settings::style::{
    Border, HorizontalLine, LineChar, LineText, Offset, ReadyStyle, VerticalLine,
};
use tabled::settings::themes::Colorization;
use tabled::settings::{
    Alignment, Color, Highlight, Justification, MarginColor, Padding, PaddingColor, Shadow, Style,
    Theme,
};
use tabled::{TableError, TextTable};

/// A ready style that is chosen while the program runs.
pub fn style_by_name(alloc: Global, name: &str) -> Result<String, TableError> {
    let mut table = people(alloc)?;
    table.with(ReadyStyle::from_name(name).unwrap_or(ReadyStyle::Ascii))?;
    Ok(table.to_text()?)
}

/// The characters of a style without its custom lines.
pub fn characters_of_a_style(alloc: Global) -> Result<String, TableError> {
    let mut table = people(alloc)?;
    table.with(Style::rounded().get_borders())?;
    Ok(table.to_text()?)
}

/// A custom vertical line.
pub fn vertical_line(alloc: Global) -> Result<String, TableError> {
    let mut table = people(alloc)?;
    let line = VerticalLine::full('!', '+', '+', '+');
    table.with(Style::ascii().remove_vertical().verticals([(1, line)]))?;
    Ok(table.to_text()?)
}

/// A border around the whole table.
pub fn border_of_the_table(alloc: Global) -> Result<String, TableError> {
    let mut table = people(alloc)?;
    table.with(Style::ascii())?.with(Border::filled('#'))?;
    Ok(table.to_text()?)
}

/// No border around the table.
pub fn table_without_a_border(alloc: Global) -> Result<String, TableError> {
    let mut table = people(alloc)?;
    table.with(Style::ascii())?.with(Border::empty())?;
    Ok(table.to_text()?)
}

/// The border taken away again from some cells.
pub fn cells_without_a_border(alloc: Global) -> Result<String, TableError> {
    let mut table = people(alloc)?;
    table.with(Style::ascii())?;
    table.modify(Columns::one(0), Border::new().left('#'))?;
    table.modify(Rows::one(1), Border::empty())?;
    Ok(table.to_text()?)
}

/// Cells of one object and not of another.
pub fn cells_of_one_object_and_not_of_another(alloc: Global) -> Result<String, TableError> {
    let mut table = people(alloc)?;
    table.with(Style::ascii())?;
    table.modify(Columns::first().not(Rows::first()), Border::new().left('>'))?;
    Ok(table.to_text()?)
}

/// Rows and cells of ranges: every other row, and the cells below the first row and right of the first column.
pub fn rows_and_cells_of_ranges(alloc: Global) -> Result<String, TableError> {
    let mut table = people(alloc)?;
    table.with(Style::ascii())?;
    table.modify(Rows::new(..).step_by(2), Border::new().left('>'))?;
    table.modify(Segment::new(1.., 1..), Alignment::right())?;
    Ok(table.to_text()?)
}

/// An outline around the cells within the outermost ones.
pub fn outline_within_the_frame(alloc: Global) -> Result<String, TableError> {
    let rows: &[&[&str]] = &[
        &["a", "b", "c", "d"],
        &["e", "f", "g", "h"],
        &["i", "j", "k", "l"],
        &["m", "n", "o", "p"],
    ];
    let mut table = TextTable::new(alloc, rows)?;
    table.with(Style::ascii())?;
    table.with(Highlight::outline(Frame.inverse(), '*'))?;
    table.modify(
        Rows::new(1..).intersect(Columns::last() - 1),
        Border::new().right('>'),
    )?;
    Ok(table.to_text()?)
}

/// Outlined cells that touch at a corner alone, with a character of its own there.
pub fn outline_of_cells_that_touch(alloc: Global) -> Result<String, TableError> {
    let mut table = people(alloc)?;
    let border = Border::full('─', '─', '│', '│', '┌', '┐', '└', '┘');
    let outline = Highlight::new((0, 0).and((1, 1)).and((2, 0))).border(border);
    table.with(outline.diagonal('┼'))?;
    Ok(table.to_text()?)
}

/// Cells that are chosen while the program runs.
pub fn cells_of_a_list(alloc: Global) -> Result<String, TableError> {
    let mut table = people(alloc)?;
    let cells = [Entity::Cell(1, 0), Entity::Cell(2, 1)];
    table
        .with(Style::ascii())?
        .modify(cells, Border::filled('*'))?;
    Ok(table.to_text()?)
}

/// A text down a vertical line.
pub fn title_down_the_side(alloc: Global) -> Result<String, TableError> {
    let mut table = people(alloc)?;
    let title = LineText::new(alloc, "staff", Columns::first())?;
    table.with(Style::ascii())?.with(title)?;
    Ok(table.to_text()?)
}

/// A character at the end of each edge above a row.
pub fn marks_above_a_row(alloc: Global) -> Result<String, TableError> {
    let mut table = people(alloc)?;
    let mark = LineChar::horizontal(':', Offset::End(0));
    table.with(Style::markdown())?.modify(Rows::one(1), mark)?;
    Ok(table.to_text()?)
}

/// A theme: a style that is changed field by field and line by line.
pub fn theme(alloc: Global) -> Result<String, TableError> {
    let mut table = people(alloc)?;
    let mut theme = Theme::from_style(alloc, Style::rounded())?;
    theme.set_borders_vertical(':');
    theme.insert_horizontal_line(2, HorizontalLine::full('═', '╪', '╞', '╡').into_inner())?;
    table.with(theme)?;
    Ok(table.to_text()?)
}

/// A character wherever nothing else stands.
pub fn default_character(alloc: Global) -> Result<String, TableError> {
    let mut table = people(alloc)?;
    table.with(Style::psql())?;
    table.config_mut().config_mut().set_border_default('.');
    Ok(table.to_text()?)
}

/// Lines that are centered one by one, without the spaces at their ends.
pub fn lines_one_by_one(alloc: Global) -> Result<String, TableError> {
    let mut table = TextTable::new(alloc, &[&["Ada\n  Lovelace", "1815\nto 1852"]])?;
    table
        .with(Style::ascii())?
        .with(Alignment::center())?
        .with(TrimStrategy::Horizontal)?;
    table.modify(Columns::one(0), AlignmentStrategy::PerLine)?;
    Ok(table.to_text()?)
}

/// Cells that are filled beside their texts.
pub fn filled_cells(alloc: Global) -> Result<String, TableError> {
    let mut table = people(alloc)?;
    table.with(Style::ascii())?.with(Justification::new('.'))?;
    table.modify(Columns::one(1), Alignment::right())?;
    Ok(table.to_text()?)
}

/// A text at the bottom of a higher row, without the blank lines around it.
pub fn text_at_the_bottom(alloc: Global) -> Result<String, TableError> {
    let mut table = TextTable::new(alloc, &[&["1\n2\n3", "\nlow\n"]])?;
    table.with(Style::ascii())?.with(TrimStrategy::Vertical)?;
    table.modify(Columns::last(), Alignment::bottom())?;
    Ok(table.to_text()?)
}

/// Texts of several lines, and of characters that are two columns wide.
pub fn tall_and_wide_cells(alloc: Global) -> Result<String, TableError> {
    let mut table = TextTable::new(alloc, &[&["Ada\nLovelace", "1815"], &["東京", "都"]])?;
    table.with(Style::ascii())?;
    Ok(table.to_text()?)
}

/// Rows whose colors take turns.
pub fn colors_in_turn(alloc: Global) -> Result<String, TableError> {
    let mut table = people(alloc)?;
    let mut colors = Vec::new(alloc);
    colors.push(Color::BG_BLUE)?;
    colors.push(Color::BG_GREEN)?;
    table
        .with(Style::sharp())?
        .with(Colorization::rows(colors))?;
    Ok(table.to_ansi()?)
}

/// A color for the cells of an object.
pub fn color_of_an_object(alloc: Global) -> Result<String, TableError> {
    let mut table = people(alloc)?;
    let mut colors = Vec::new(alloc);
    colors.push(Color::BG_GREEN)?;
    table
        .with(Style::sharp())?
        .with(Colorization::exact(colors, Columns::one(1)))?;
    Ok(table.to_ansi()?)
}

/// An outline in color.
pub fn outline_in_color(alloc: Global) -> Result<String, TableError> {
    let mut table = people(alloc)?;
    table.with(Style::ascii())?;
    table.with(Highlight::colored(alloc, Rows::one(1), Color::FG_RED)?)?;
    Ok(table.to_ansi()?)
}

/// A compact table, without padding.
pub fn table_without_padding(alloc: Global) -> Result<String, TableError> {
    let mut table = people(alloc)?;
    table.with(Style::rounded())?.with(Padding::zero())?;
    table.modify(Columns::one(1), Alignment::right())?;
    Ok(table.to_text()?)
}

/// The spaces around texts in color, and what fills cells.
pub fn spaces_in_color(alloc: Global) -> Result<String, TableError> {
    let mut table = people(alloc)?;
    table.with(Style::ascii())?;
    table.with(PaddingColor::filled(alloc, Color::BG_BLUE)?)?;
    table.with(Justification::new(' ').color(Color::BG_GREEN))?;
    Ok(table.to_ansi()?)
}

/// A shadow in color, at the left and above.
pub fn shadow_in_color(alloc: Global) -> Result<String, TableError> {
    let mut table = people(alloc)?;
    let shadow = Shadow::new(1).set_left().set_top().set_fill('#');
    table
        .with(Style::rounded())?
        .with(shadow.set_color(Color::FG_RED))?;
    Ok(table.to_ansi()?)
}

/// A margin in color.
pub fn margin_in_color(alloc: Global) -> Result<String, TableError> {
    let mut table = people(alloc)?;
    let margin = Sides::filled(Indent::new(1, '.'));
    table.config_mut().config_mut().set_margin(margin);
    table
        .with(Style::rounded())?
        .with(MarginColor::filled(alloc, Color::FG_RED)?)?;
    Ok(table.to_ansi()?)
}
