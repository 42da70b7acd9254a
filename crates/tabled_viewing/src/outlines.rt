//! Outlines around cells.

ghost use Rattle.std.specs.Prelude.{◌≡◌, [], Some, None, map, option_map, string_bytes, IfOk, OnOk};
ghost use Rattle.tabled_configuration.specs.Colored.{Changes};
ghost use Rattle.tabled_text.specs.TextTable.{lent_texts};
ghost use Rattle.tabled_width.specs.Texts.{Table as Texts};
ghost use Rattle.tabled_viewing.specs.Outlines.{AreMarked, draws_boxes, entity_of, index_of, line_of, marked, named, outlined, outlines, text_at, touch_of};

use std::alloc::Global;
use std::convert::AsStr;
use tabled_border::OutOfMemory;
use tabled_highlight::Highlight;
use tabled_numbers::column_count;
use tabled_object::{Entity, Position};
use tabled_request::{Choice, NamedCells, Request, named_cells, word_at};
use tabled_style::{Border, On, ReadyStyle};
use tabled_text::Table;

/// The text of a cell, the empty one outside the table.
fn text_at<'a>(rows: &[Vec<&'a str>], pos: Position) -> &'a str
    ensures { result.now ≡ text_at (lent_texts rows.now) pos }
{
    let Some(row) = rows.get(pos.row) else {
        return "";
    };
    match row.get(pos.col) {
        Some(text) => text,
        None => "",
    }
}

/// The cells of rows whose text a word is, in row order.
fn marked(alloc: Global, rows: &[Vec<&str>], word: &str) -> Result<Vec<Entity>, OutOfMemory>
    ensures { IfOk result (λ cells. cells.items ≡ marked (lent_texts rows.now) word.now) }
{
    let mut cells = Vec::new(alloc);
    for pos in Entity::Global.iter(rows.len(), column_count(rows)) {
        if text_at(rows, pos) == word {
            cells.push(Entity::Cell(pos.row, pos.col))?;
        }
    }
    Ok(cells)
}

/// Returns the cells of rows whose text a word is, as it stands in them, if there is a word.
pub(crate) fn cells_marked(
    alloc: Global,
    rows: &[Vec<&str>],
    word: Option<&str>,
) -> Result<Option<Vec<Entity>>, OutOfMemory>
    ensures { IfOk result (λ cells. option_map (λ cells. cells.items) cells ≡ option_map (marked (lent_texts rows.now)) (option_map (λ word. word.now) word.entry)) }
{
    match word {
        Some(word) => Ok(Some(marked(alloc, rows, word)?)),
        None => Ok(None),
    }
}

/// The row or the column that a part of a word names, counted from 0.
fn index_of(part: Choice) -> usize
    ensures { result ≡ index_of part }
{
    part.number.unwrap_or(1).saturating_sub(1)
}

/// The cells that a part of a word names.
fn entity_of(named: NamedCells) -> Entity
    ensures { result ≡ entity_of named }
{
    match (named.rows.is_all, named.cols.is_all) {
        (true, true) => Entity::Global,
        (true, false) => Entity::Column(index_of(named.cols)),
        (false, true) => Entity::Row(index_of(named.rows)),
        (false, false) => Entity::Cell(index_of(named.rows), index_of(named.cols)),
    }
}

/// The cells that parts of a word name.
fn entities_of(alloc: Global, parts: &[NamedCells]) -> Result<Vec<Entity>, OutOfMemory>
    ensures { IfOk result (λ cells. cells.items ≡ map entity_of parts.now) }
{
    let mut cells = Vec::new(alloc);
    for part in parts {
        cells.push(entity_of(*part))?;
    }
    Ok(cells)
}

/// The cells that a word names.
fn named(alloc: Global, word: &str) -> Result<Vec<Entity>, OutOfMemory>
    ensures { IfOk result (λ cells. cells.items ≡ named word.now) }
{
    let parts = named_cells(alloc, word)?;
    entities_of(alloc, &parts)
}

/// The cells that a word names, if there is one.
fn cells_named(alloc: Global, word: Option<&str>) -> Result<Option<Vec<Entity>>, OutOfMemory>
    ensures { IfOk result (λ cells. option_map (λ cells. cells.items) cells ≡ option_map named (option_map (λ word. word.now) word.entry)) }
{
    match word {
        Some(word) => Ok(Some(named(alloc, word)?)),
        None => Ok(None),
    }
}

/// Whether a style draws by box drawing characters.
fn draws_boxes(style: ReadyStyle) -> bool
    ensures { result ≡ draws_boxes style }
{
    match style {
        ReadyStyle::Modern => true,
        ReadyStyle::Sharp => true,
        ReadyStyle::Rounded => true,
        ReadyStyle::ModernRounded => true,
        ReadyStyle::Extended => true,
        _ => false,
    }
}

/// What an outline is drawn with over a table of a style: heavy box drawing characters, or number signs.
fn line_of(style: ReadyStyle) -> Border<On, On, On, On>
    ensures { result ≡ line_of style }
{
    if draws_boxes(style) {
        Border::full('━', '━', '┃', '┃', '┏', '┓', '┗', '┛')
    } else {
        Border::filled('#')
    }
}

/// What stands where two of the cells touch at a corner alone.
fn touch_of(style: ReadyStyle) -> char
    ensures { result ≡ touch_of style }
{
    if draws_boxes(style) { '╋' } else { '#' }
}

/// An outline around cells of a table of a style.
fn outline_of(style: ReadyStyle, cells: Vec<Entity>) -> Highlight<Vec<Entity>>
    ensures { result ≡ record { target = cells; border = Some (line_of style); diagonal = Some (touch_of style); color = None } }
{
    Highlight::new(cells)
        .border(line_of(style))
        .diagonal(touch_of(style))
}

/// Puts an outline around cells of the table, if there are any to have one.
fn put_outline<T: AsStr + Drop>(
    table: &mut Table<T>,
    style: ReadyStyle,
    cells: Option<Vec<Entity>>,
) -> Result<(), OutOfMemory>
    ensures config { OnOk result (Changes (outlined style (option_map (λ cells. cells.items) cells) table.old.texts) table.old.config table.new.config) }
    ensures texts { table.new.texts ≡ table.old.texts }
{
    match cells {
        Some(cells) => table.apply(outline_of(style, cells)),
        None => Ok(()),
    }
}

/// Puts the outlines around cells that the request asks for: around those that a word names, and then around those whose text a word is, which
/// are given.
pub(crate) fn outline<T: AsStr + Drop>(
    table: &mut Table<T>,
    alloc: Global,
    request: Request,
    style: ReadyStyle,
    words: &[String],
    marked: Option<Vec<Entity>>,
) -> Result<(), OutOfMemory>
    ensures config { (rows : Texts) → AreMarked request (map string_bytes words.now) rows marked
        → OnOk result (Changes (outlines request style (map string_bytes words.now) rows table.old.texts) table.old.config table.new.config) }
    ensures texts { table.new.texts ≡ table.old.texts }
{
    let places = cells_named(alloc, word_at(words, request.outline))?;
    put_outline(table, style, places)?;
    put_outline(table, style, marked)
}
