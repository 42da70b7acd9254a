//! The table of a request, with its style, within its width.

ghost use Rattle.std.specs.Prelude.{◌≡◌, ◌≤◌, ◌-◌, true, [], List, length, map, string_bytes, IfOk, OnOk};
ghost use Rattle.tabled_configuration.specs.Colored.{Shows};
ghost use Rattle.tabled_configuration.specs.Configuration.{ConfigEvent};
ghost use Rattle.tabled_configuration.specs.Configuration as borders;
ghost use Rattle.tabled_width.specs.Texts.{Table as Texts};
ghost use Rattle.tabled_painting.specs.Widths.{text_width};
ghost use Rattle.tabled_measure.specs.Cells.{leaves_sizes, margin_set};
ghost use Rattle.tabled_measure.specs.Changed.{CellsArePrintable};
ghost use Rattle.tabled_text.specs.Fitted.{IsFitted, frame_width, least_width};
ghost use Rattle.tabled_text.specs.TextTable.{look_of};
ghost use Rattle.tabled_width.specs.Limited.{ends_printable};
ghost use Rattle.tabled_viewing.specs.Outlines.{AreMarked};
ghost use Rattle.tabled_viewing.specs.View.{IsKeptWithin, drawn, framed, has_header_line};

use crate::outlines::outline;
use std::alloc::Global;
use std::convert::AsStr;
use tabled_border::OutOfMemory;
use tabled_object::Entity;
use tabled_request::Request;
use tabled_style::ReadyStyle;
use tabled_text::{Table, TextTable};
use tabled_width::Overflow;

/// Whether the line below the header is drawn: there is a header, and either a row below it or no other line that closes the table.
fn has_header_line(request: Request, style: ReadyStyle, rows: usize) -> bool
    ensures { result ≡ has_header_line request style rows }
{
    request.has_header && (1 < rows || style.borders().bottom.is_none())
}

/// Draws the table in a style: as it is, or, where the header has no line, without the lines that stand at single rows.
fn draw<T: AsStr + Drop>(
    table: &mut Table<T>,
    request: Request,
    style: ReadyStyle,
) -> Result<(), OutOfMemory>
    requires { Shows [] table.old.config }
    ensures config { OnOk result (Shows (drawn request style (length table.old.texts)) table.new.config) }
    ensures texts { table.new.texts ≡ table.old.texts }
{
    if has_header_line(request, style, table.shape().rows) {
        return table.apply(style);
    }
    table.apply(style.borders())
}

/// The table kept within so many columns of the terminal, by what is done with lines that are too wide.
fn fit_by<T: AsStr + Drop>(
    table: Table<T>,
    width: usize,
    how: Overflow<'_>,
) -> Result<TextTable, OutOfMemory>
    requires { ends_printable how ≡ true }
    ensures texts { (events : List ConfigEvent) → borders.Shows events table.config.spanned
        → IfOk result (λ fitted. IsFitted how.entry 1 (width - frame_width events table.texts) table.texts fitted.texts) }
    ensures fits { (events : List ConfigEvent) → borders.Shows events table.config.spanned → leaves_sizes events ≡ true → CellsArePrintable table.texts → least_width 1 events table.texts ≤ width
        → IfOk result (λ fitted. text_width (look_of events fitted.texts) (margin_set events) ≤ width) }
    ensures config { IfOk result (λ fitted. fitted.config ≡ table.config) }
{
    table.fitted(width, how)
}

/// Returns the table kept within so many columns of the terminal: its texts are cut off before two dots, or go on in further lines, cut at
/// their spaces.
pub(crate) fn keep_within<T: AsStr + Drop>(
    table: Table<T>,
    cuts_off: bool,
    width: usize,
) -> Result<TextTable, OutOfMemory>
    ensures texts { (events : List ConfigEvent) → borders.Shows events table.config.spanned
        → IfOk result (λ fitted. IsKeptWithin cuts_off width events table.texts fitted.texts) }
    ensures fits { (events : List ConfigEvent) → borders.Shows events table.config.spanned → leaves_sizes events ≡ true → CellsArePrintable table.texts → least_width 1 events table.texts ≤ width
        → IfOk result (λ fitted. text_width (look_of events fitted.texts) (margin_set events) ≤ width) }
    ensures config { IfOk result (λ fitted. fitted.config ≡ table.config) }
{
    if cuts_off {
        return fit_by(table, width, Overflow::Truncate(".."));
    }
    fit_by(table, width, Overflow::WrapWords)
}

/// Draws the table in a style, with the outlines that are asked for, of which the cells whose text a word is are given.
pub(crate) fn draw_borders<T: AsStr + Drop>(
    table: &mut Table<T>,
    alloc: Global,
    request: Request,
    style: ReadyStyle,
    words: &[String],
    marked: Option<Vec<Entity>>,
) -> Result<(), OutOfMemory>
    requires { Shows [] table.old.config }
    ensures config { (rows : Texts) → AreMarked request (map string_bytes words.now) rows marked
        → OnOk result (Shows (framed request style (map string_bytes words.now) rows table.old.texts) table.new.config) }
    ensures texts { table.new.texts ≡ table.old.texts }
{
    draw(table, request, style)?;
    outline(table, alloc, request, style, words, marked)
}
