//! What is written for rows.

ghost use Rattle.std.specs.Prelude.{◌≡◌, ◌⊎◌, ◌++◌, ℕ, [], ◌∷◌, List, None, Some, true, false, if◌then◌else◌, map, string_bytes, IfErr, IfOk, IsErrOf, OnOk};
ghost use Rattle.std.specs.Io.KnownBytes.{Appends};
ghost use Rattle.tabled_clean.specs.Steering.{cleaned};
ghost use Rattle.tabled_configuration.specs.Colored.{Shows};
ghost use Rattle.tabled_configuration.specs.Configuration.{ConfigEvent};
ghost use Rattle.tabled_painting.specs.Widths.{text_width};
ghost use Rattle.tabled_width.specs.Narrow.{IsRectangle};
ghost use Rattle.tabled_printing.specs.Columns.{WritesNarrow};
ghost use Rattle.tabled_width.specs.Texts.{Table as Texts};
ghost use Rattle.tabled_measure.specs.Cells.{leaves_sizes, margin_set};
ghost use Rattle.tabled_measure.specs.Changed.{cells_changed, each_text};
ghost use Rattle.tabled_text.specs.TextTable.{lent_texts, look_of, text_of};
ghost use Rattle.tabled_text.specs.declared.table_error.TableError.TheVariants as table_refusals;
ghost use Rattle.tabled_request.specs.Sides.{sides_of};
ghost use Rattle.tabled_viewing.specs.Asked.{width_asked};
ghost use Rattle.tabled_viewing.specs.Captions.{beside};
ghost use Rattle.tabled_viewing.specs.Outlines.{AreMarked};
ghost use Rattle.tabled_viewing.specs.Refusal.{fault_of_rows};
ghost use Rattle.tabled_viewing.specs.View.{IsPage, IsPageOf, IsViewOfRows, IsWithin, KeepsWidth, captioned, draws_above, draws_below, footer_of, framed, title_of, titled, written};
ghost use Rattle.tabled_viewing.specs.declared.error.ViewError.TheVariants as refusals;

use crate::asked::{is_colored, width_asked};
use crate::captions::{caption, put_caption};
use crate::colors::place_and_color;
use crate::drawing::{draw_borders, keep_within};
use crate::error::ViewError;
use crate::notes::{Notes, notes_of};
use crate::outlines::cells_marked;
use crate::rows::{numbers_asked, rows_chosen, rows_numbered};
use std::alloc::Global;
use std::convert::AsStr;
use std::io::Write;
use tabled_border::OutOfMemory;
use tabled_object::Entity;
use tabled_request::{ColumnSide, Request, Surroundings, all_sides, word_at};
use tabled_style::ReadyStyle;
use tabled_text::{LentTable, Table, TableError};

/// Writes the title on the first line of the table, or returns it where it stands above the table.
fn put_title<T: AsStr + Drop>(
    table: &mut Table<T>,
    alloc: Global,
    request: Request,
    style: ReadyStyle,
    words: &[String],
    around: Surroundings,
) -> Result<String, OutOfMemory>
    ensures config { (rows texts : Texts) → Shows (framed request style (map string_bytes words.now) rows texts) table.old.config
        → OnOk result (Shows (titled style (title_of request (map string_bytes words.now) around) (framed request style (map string_bytes words.now) rows texts) table.old.texts) table.new.config) }
    ensures above { IfOk result (λ above. string_bytes above ≡ beside (draws_above style) table.old.texts (title_of request (map string_bytes words.now) around)) }
    ensures texts { table.new.texts ≡ table.old.texts }
{
    let title = word_at(words, request.title);
    let text = caption(alloc, request.is_raw, width_asked(request, around), title)?;
    put_caption(table, alloc, text, style.borders().top.is_some(), 0)
}

/// Writes the footer on the last line of the table, or returns it where it stands below the table.
fn put_footer<T: AsStr + Drop>(
    table: &mut Table<T>,
    alloc: Global,
    request: Request,
    style: ReadyStyle,
    words: &[String],
    around: Surroundings,
) -> Result<String, OutOfMemory>
    ensures config { (rows texts : Texts) → let words = map string_bytes words.now in let title = title_of request words around in let footer = footer_of request words around in
        let before = framed request style words rows texts in
        Shows (titled style title before table.old.texts) table.old.config → OnOk result (Shows (captioned style title footer before table.old.texts) table.new.config) }
    ensures below { IfOk result (λ below. string_bytes below ≡ beside (draws_below style) table.old.texts (footer_of request (map string_bytes words.now) around)) }
    ensures texts { table.new.texts ≡ table.old.texts }
{
    let footer = word_at(words, request.footer);
    let text = caption(alloc, request.is_raw, width_asked(request, around), footer)?;
    let rows = table.shape().rows;
    put_caption(table, alloc, text, style.borders().bottom.is_some(), rows)
}

/// A line feed, and what stands below a table.
fn after_table(alloc: Global, below: &str) -> Result<String, OutOfMemory>
    ensures { IfOk result (λ after. string_bytes after ≡ 10 ∷ below.now) }
{
    let after = format!(in alloc; "\n{below}")?;
    Ok(after)
}

/// Writes a table, in color or not, between two texts.
fn print<T: AsStr + Drop, W: Write>(
    table: &Table<T>,
    is_colored: bool,
    before: &str,
    after: &str,
    output: &mut W,
) -> Result<(), TableError>
    ensures text { (events : List ConfigEvent) → Shows events table.now.config
        → OnOk result (Appends (W.contents output.old) (W.contents output.new) (before.now ++ written is_colored events table.now.texts ++ after.now)) }
    ensures rectangle { is_colored ≡ false → (events : List ConfigEvent) → Shows events table.now.config → WritesNarrow events → leaves_sizes events ≡ true
        → OnOk result (IsRectangle (text_width (look_of events table.now.texts) (margin_set events)) (text_of events table.now.texts)) }
    ensures refusal { IfErr result (λ e. (e ≡ table_refusals.OutOfMemory) ⊎ (e ≡ table_refusals.Write)) }
    ensures unwritten { IfErr result (λ e. (e ≡ table_refusals.Write) ⊎ (output.new ≡ output.old)) }
{
    if is_colored {
        return table.print_ansi_between(before, after, output);
    }
    table.print_between(before, after, output)
}

/// Writes a table as it is printed; a refusal is one of the program. Nothing is written where memory is refused.
fn write_table<T: AsStr + Drop, W: Write>(
    table: &Table<T>,
    is_colored: bool,
    before: &str,
    after: &str,
    output: &mut W,
) -> Result<(), ViewError>
    ensures text { (events : List ConfigEvent) → Shows events table.now.config
        → OnOk result (Appends (W.contents output.old) (W.contents output.new) (before.now ++ written is_colored events table.now.texts ++ after.now)) }
    ensures rectangle { is_colored ≡ false → (events : List ConfigEvent) → Shows events table.now.config → WritesNarrow events → leaves_sizes events ≡ true
        → OnOk result (IsRectangle (text_width (look_of events table.now.texts) (margin_set events)) (text_of events table.now.texts)) }
    ensures refused { IfErr result (λ e. (e ≡ refusals.OutOfMemory) ⊎ (e ≡ refusals.WriteFailed)) }
    ensures unwritten { IfErr result (λ e. (e ≡ refusals.WriteFailed) ⊎ (output.new ≡ output.old)) }
{
    match print(table, is_colored, before, after, output) {
        Ok(()) => Ok(()),
        Err(TableError::Write) => Err(ViewError::WriteFailed),
        Err(_) => Err(ViewError::OutOfMemory),
    }
}

/// Writes the page of a table whose borders are drawn, whose cells stand at these sides, and which has its width. Returns what is said beside
/// it. All memory is asked for before something is written.
fn write_drawn<T: AsStr + Drop, W: Write>(
    alloc: Global,
    request: Request,
    style: ReadyStyle,
    words: &[String],
    around: Surroundings,
    sides: &[ColumnSide],
    table: Table<T>,
    output: &mut W,
) -> Result<Notes, ViewError>
    ensures written { (rows texts : Texts) → let words = map string_bytes words.now in let events = framed request style words rows texts in
        Shows events table.config → sides.now ≡ sides_of request words rows
        → IsWithin request.cuts_off (width_asked request around) events texts table.texts → KeepsWidth (width_asked request around) events texts table.texts
        → IfOk result (λ notes. (text : List ℕ) × IsPageOf request style words around rows texts text notes
        × Appends (W.contents output.old) (W.contents output.new) text) }
    ensures refused { IfErr result (λ e. (e ≡ refusals.OutOfMemory) ⊎ (e ≡ refusals.WriteFailed)) }
    ensures unwritten { IfErr result (λ e. (e ≡ refusals.WriteFailed) ⊎ (output.new ≡ output.old)) }
{
    let mut table = table;
    let notes = notes_of(&table, request, around);
    let above = put_title(&mut table, alloc, request, style, words, around)?;
    let below = put_footer(&mut table, alloc, request, style, words, around)?;
    let in_color = is_colored(request, around);
    place_and_color(&mut table, alloc, request, sides, in_color)?;
    let after = after_table(alloc, below.as_str())?;
    write_table(&table, in_color, above.as_str(), after.as_str(), output)?;
    Ok(notes)
}

/// Writes the page of a table that has no borders yet, whose cells stand at these sides, and of which the cells whose text a word is are given.
/// Returns what is said beside it. All memory is asked for before something is written.
fn write_page_of_table<T: AsStr + Drop, W: Write>(
    alloc: Global,
    request: Request,
    style: ReadyStyle,
    words: &[String],
    around: Surroundings,
    sides: &[ColumnSide],
    marked: Option<Vec<Entity>>,
    table: Table<T>,
    output: &mut W,
) -> Result<Notes, ViewError>
    requires { Shows [] table.config }
    ensures written { (rows : Texts) → AreMarked request (map string_bytes words.now) rows marked → sides.now ≡ sides_of request (map string_bytes words.now) rows
        → IfOk result (λ notes. (text : List ℕ) × IsPageOf request style (map string_bytes words.now) around rows table.texts text notes
        × Appends (W.contents output.old) (W.contents output.new) text) }
    ensures refused { IfErr result (λ e. (e ≡ refusals.OutOfMemory) ⊎ (e ≡ refusals.WriteFailed)) }
    ensures unwritten { IfErr result (λ e. (e ≡ refusals.WriteFailed) ⊎ (output.new ≡ output.old)) }
{
    let mut table = table;
    draw_borders(&mut table, alloc, request, style, words, marked)?;
    match width_asked(request, around) {
        None => write_drawn(alloc, request, style, words, around, sides, table, output),
        Some(width) => {
            let table = keep_within(table, request.cuts_off, width)?;
            write_drawn(alloc, request, style, words, around, sides, table, output)
        }
    }
}

/// A table of rows of one length, whose texts are lent. It has no borders yet.
fn plain_table<'a>(alloc: Global, rows: Vec<Vec<&'a str>>) -> Result<LentTable<'a>, OutOfMemory>
    ensures texts { IfOk result (λ table. table.texts ≡ lent_texts rows.entry.items) }
    ensures config { IfOk result (λ table. Shows [] table.config) }
{
    match LentTable::from_rows(alloc, rows) {
        Ok(table) => Ok(table),
        Err(_) => Err(OutOfMemory),
    }
}

/// Whether the texts of a table are shown as they are: nothing in them steers a terminal, or they are not to be cleaned.
fn stays(table: &LentTable<'_>, is_raw: bool) -> bool
    ensures yes { result ≡ true → (if is_raw then table.now.texts else cells_changed (each_text cleaned) table.now.texts) ≡ table.now.texts }
    ensures no { result ≡ false → is_raw ≡ false }
{
    is_raw || table.is_clean()
}

/// Writes the page of rows of one length, and returns what is said beside it. Their cells are copied only where they are to be cleaned, and one
/// of them steers a terminal. All memory is asked for before something is written.
fn write_page_of_rows<W: Write>(
    alloc: Global,
    request: Request,
    style: ReadyStyle,
    words: &[String],
    around: Surroundings,
    rows: Vec<Vec<&str>>,
    output: &mut W,
) -> Result<Notes, ViewError>
    ensures written { IfOk result (λ notes. (text : List ℕ) × IsPage request style (map string_bytes words.now) around (lent_texts rows.entry.items) text notes
        × Appends (W.contents output.old) (W.contents output.new) text) }
    ensures refused { IfErr result (λ e. (e ≡ refusals.OutOfMemory) ⊎ (e ≡ refusals.WriteFailed)) }
    ensures unwritten { IfErr result (λ e. (e ≡ refusals.WriteFailed) ⊎ (output.new ≡ output.old)) }
{
    let sides = all_sides(alloc, request, words, &rows)?;
    let marked = cells_marked(alloc, &rows, word_at(words, request.mark))?;
    let table = plain_table(alloc, rows)?;
    if stays(&table, request.is_raw) {
        return write_page_of_table(
            alloc, request, style, words, around, &sides, marked, table, output,
        );
    }
    let table = table.cleaned()?;
    write_page_of_table(
        alloc, request, style, words, around, &sides, marked, table, output,
    )
}

/// Writes the page of rows, nothing where there is none, and returns what is said beside it. All memory is asked for before something is
/// written.
pub(crate) fn write_page<W: Write>(
    alloc: Global,
    request: Request,
    style: ReadyStyle,
    words: &[String],
    around: Surroundings,
    rows: Vec<Vec<&str>>,
    output: &mut W,
) -> Result<Notes, ViewError>
    ensures written { IfOk result (λ notes. (text : List ℕ) × IsViewOfRows request style (map string_bytes words.now) around (lent_texts rows.entry.items) text notes
        × Appends (W.contents output.old) (W.contents output.new) text) }
    ensures good { OnOk result (fault_of_rows request (map string_bytes words.now) (lent_texts rows.entry.items) ≡ None) }
    ensures write_failed { IsErrOf result refusals.WriteFailed → fault_of_rows request (map string_bytes words.now) (lent_texts rows.entry.items) ≡ None }
    ensures refused { IfErr result (λ e. (e ≡ refusals.OutOfMemory) ⊎ (e ≡ refusals.WriteFailed) ⊎ (fault_of_rows request (map string_bytes words.now) (lent_texts rows.entry.items) ≡ Some e)) }
    ensures unwritten { IfErr result (λ e. (e ≡ refusals.WriteFailed) ⊎ (output.new ≡ output.old)) }
{
    if rows.is_empty() {
        return Ok(Notes::none());
    }
    let rows = rows_chosen(alloc, request, words, rows)?;
    let numbers = numbers_asked(alloc, request, rows.len())?;
    let rows = rows_numbered(request, words, rows, &numbers)?;
    write_page_of_rows(alloc, request, style, words, around, rows, output)
}
