//! Tables of texts.

ghost use Rattle.std.specs.Prelude.{◌≡◌, ◌≤◌, ◌-◌, ◌++◌, ◌⊎◌, ◌&&◌, ◌||◌, ◌==◌, not, nat_le, max, min, ℕ, List, [], true, false, None, slice_index, slice_index_or, map, length, take, string_bytes, slice_get, IfOk, IfErr, OnOk, OnErr, MatchOption, IsOkUnless};
ghost use Rattle.std.specs.Io.KnownBytes.{Appends};
ghost use Rattle.std.specs.List.{All, list_all};
ghost use Rattle.std.specs.Str.{IsUtf8};
ghost use Rattle.tabled_clean.specs.Steering.{is_clean};
ghost use Rattle.tabled_object.specs.Entities.{position};
ghost use Rattle.tabled_settings.specs.Live.{value_at};
ghost use Rattle.tabled_configuration.specs.Colored.{Shows, Changes};
ghost use Rattle.tabled_configuration.specs.Configuration.{ConfigEvent};
ghost use Rattle.tabled_configuration.specs.Configuration as borders;
ghost use Rattle.tabled_configuration.specs.Options.{MakesInTurn};
ghost use Rattle.tabled_printing.specs.Along.{is_empty};
ghost use Rattle.tabled_width.specs.Narrow.{IsRectangle, is_narrow};
ghost use Rattle.tabled_printing.specs.Columns.{WritesNarrow};
ghost use Rattle.tabled_printing.specs.Picture.{printed};
ghost use Rattle.tabled_width.specs.Texts.{Table, pieces, texts, width_of_text};
ghost use Rattle.tabled_painting.specs.Margin.{is_without_room};
ghost use Rattle.tabled_painting.specs.Painted.{Painted, plain};
ghost use Rattle.tabled_painting.specs.PaintedTable.{plain_text, colored_text};
ghost use Rattle.tabled_painting.specs.Widths.{StandsStraightIn, text_width};
ghost use Rattle.tabled_measure.specs.Cells.{KeepsApart, StandApart, cells_set, margin_set, leaves_sizes, sets_no_padding, sets_no_spans};
ghost use Rattle.tabled_measure.specs.Changed.{CellsAreClean, CellsArePrintable};
ghost use Rattle.tabled_text.specs.Fitted.{CanShare, IsFitted, frame_width, least_width};
ghost use Rattle.tabled_text.specs.Refusal.{unequal};
ghost use Rattle.tabled_measure.specs.Sizes.{cell, column_count, column_widths, row_heights, unequal_row};
ghost use Rattle.tabled_text.specs.TextTable.{cell_texts, AreRead, heights_read, lent_rows, look_of, look_printed, painted, painted_alone, shape_of, text_of, widths_read};
ghost use Rattle.tabled_object.specs.declared.dimension.FixedDimension.{FixedDimension};
ghost use Rattle.tabled_text.specs.declared.table_error.TableError.{TableError as Refusal};
ghost use Rattle.std.specs.Fmt.{WritesOnOk};
ghost use Rattle.tabled_width.specs.Limited.{ends_printable};
ghost use Rattle.tabled_claims.specs.Clean.{WritesClean};

use std::alloc::Global;
use std::{fmt, io, mem};
use tabled_border::OutOfMemory;
use tabled_changes::{CellOption, ColoredConfig, TableOption};
use tabled_object::{FixedDimension, Object, Shape};
use tabled_text::{TableError, TextTable};
use tabled_width::Overflow;

/// A table has the texts that it is given and nothing else yet; rows of unequal counts are refused with the number of the first
/// that has more or fewer cells than row 0, and with both counts.
pub fn table_of_texts(alloc: Global, rows: &[&[&str]]) -> Result<TextTable, TableError>
    ensures texts { IfOk result (λ table. table.texts ≡ lent_rows rows.now) }
    ensures config { IfOk result (λ table. Shows [] table.config) }
    ensures refusal { MatchOption (unequal_row (lent_rows rows.now)) (IsOkUnless result Refusal.OutOfMemory) (λ row. (result ≡ Err Refusal.OutOfMemory) ⊎ (result ≡ Err (unequal (lent_rows rows.now) row))) }
{
    TextTable::new(alloc, rows)
}

/// A table of rows that are handed over has their texts: unequal rows are refused for that alone.
pub fn table_of_rows(alloc: Global, rows: Vec<Vec<String>>) -> Result<TextTable, TableError>
    ensures texts { IfOk result (λ table. table.texts ≡ texts rows.items) }
    ensures config { IfOk result (λ table. Shows [] table.config) }
    ensures refusal { MatchOption (unequal_row (texts rows.items)) (IsOkUnless result Refusal.OutOfMemory) (λ row. result ≡ Err (unequal (texts rows.items) row)) }
{
    TextTable::from_rows(alloc, rows)
}

/// Columns are as wide, and rows as high, as their cells ask where none spans.
pub fn as_large_as_its_cells(table: &TextTable) -> &FixedDimension
    ensures widths { result.now.widths.items ≡ column_widths table.now.texts }
    ensures heights { result.now.heights.items ≡ row_heights table.now.texts }
{
    table.sizes()
}

/// An option changes a table by the option's events and by nothing else; where memory is refused it changes nothing.
pub fn option_on_a_table<P>(table: &mut TextTable, option: P) -> Result<(), OutOfMemory>
where
    P: TableOption<Shape, ColoredConfig, FixedDimension> + Drop,
    ensures config { OnOk result ((read : FixedDimension) × AreRead table.old read × Changes (P.makes option (shape_of table.old.texts) read table.old.config) table.old.config table.new.config) }
    ensures texts { table.new.texts ≡ table.old.texts }
    ensures sizes { table.new.sizes ≡ table.old.sizes }
    ensures unchanged { OnErr result (table.new ≡ table.old) }
{
    table.apply(option)
}

/// An option on cells changes a table by its events for each entity that the object lists, in turn, and by nothing else; where
/// memory is refused, for a beginning of the listing.
pub fn option_on_cells<O, P>(
    table: &mut TextTable,
    object: &O,
    option: &P,
) -> Result<(), OutOfMemory>
where
    O: Object<Shape>,
    P: CellOption<Shape, ColoredConfig>,
    ensures config { OnOk result ((made : List ConfigEvent) × MakesInTurn Changes (map (P.makes option.now (shape_of table.old.texts))
        (O.listing object.now (length table.old.texts) (column_count table.old.texts))) made table.old.config table.new.config) }
    ensures beginning { OnErr result ((count : ℕ) × (made : List ConfigEvent) × MakesInTurn Changes (map (P.makes option.now (shape_of table.old.texts))
        (take count (O.listing object.now (length table.old.texts) (column_count table.old.texts)))) made table.old.config table.new.config) }
    ensures texts { table.new.texts ≡ table.old.texts }
    ensures sizes { table.new.sizes ≡ table.old.sizes }
{
    table.apply_to(object, option)
}

/// An option in a chain of calls does what it does by `option_on_a_table`.
pub fn option_in_a_chain<P>(table: &mut TextTable, option: P) -> Result<&mut TextTable, OutOfMemory>
where
    P: TableOption<Shape, ColoredConfig, FixedDimension> + Drop,
    ensures config { IfOk result (λ lent. (read : FixedDimension) × AreRead table.old read × Changes (P.makes option (shape_of table.old.texts) read table.old.config) table.old.config lent.now.config) }
    ensures texts { IfOk result (λ lent. lent.now.texts ≡ table.old.texts) }
    ensures sizes { IfOk result (λ lent. lent.now.sizes ≡ table.old.sizes) }
    ensures same_table { IfOk result (λ lent. lent.ghost_name ≡ table.entry.ghost_name) }
{
    table.with(option)
}

/// An option on cells in a chain of calls does what it does by `option_on_cells`.
pub fn cells_in_a_chain<O, P>(
    table: &mut TextTable,
    object: O,
    option: P,
) -> Result<&mut TextTable, OutOfMemory>
where
    O: Object<Shape> + Drop,
    P: CellOption<Shape, ColoredConfig> + Drop,
    ensures config { IfOk result (λ lent. (made : List ConfigEvent) × MakesInTurn Changes (map (P.makes option (shape_of table.old.texts))
        (O.listing object (length table.old.texts) (column_count table.old.texts))) made table.old.config lent.now.config) }
    ensures texts { IfOk result (λ lent. lent.now.texts ≡ table.old.texts) }
    ensures sizes { IfOk result (λ lent. lent.now.sizes ≡ table.old.sizes) }
    ensures same_table { IfOk result (λ lent. lent.ghost_name ≡ table.entry.ghost_name) }
{
    table.modify(object, option)
}

/// The text of a table is what its options make of its cells, which stand as they are set, draw around them, and leave as a margin
/// around all; a cell that spans others is shown in the room of all of them. It is refused for memory alone.
pub fn text_of_a_table(table: &TextTable) -> Result<String, OutOfMemory>
    ensures text { (events : List ConfigEvent) → borders.Shows events table.now.config.spanned → IfOk result (λ text. string_bytes text ≡ text_of events table.now.texts) }
{
    table.to_text()
}

/// Where no cell spans and no padding is set, the text is that of all cells, each in its own column and row.
pub fn text_of_cells_alone(table: &TextTable) -> Result<String, OutOfMemory>
    ensures { (events : List ConfigEvent) → borders.Shows events table.now.config.spanned → leaves_sizes events ≡ true
        → IfOk result (λ text. string_bytes text ≡ plain_text (painted_alone events table.now.texts)) }
{
    table.to_text()
}

/// What an option reads of a table's sizes is what is set when it is applied: where no cell spans and no padding is set the sizes that the
/// texts ask for, and else those of columns and rows in which each cell that is shown has room with its padding, by the lines that are drawn
/// then.
pub fn sizes_by_what_is_set<P>(table: &mut TextTable, option: P) -> Result<(), OutOfMemory>
where
    P: TableOption<Shape, ColoredConfig, FixedDimension> + Drop,
    ensures read { OnOk result ((read : FixedDimension) × (read.widths.items ≡ widths_read table.old.config.spanned table.old.texts) × (read.heights.items ≡ heights_read table.old.config.spanned table.old.texts)
        × Changes (P.makes option (shape_of table.old.texts) read table.old.config) table.old.config table.new.config) }
    ensures unchanged { OnErr result (table.new ≡ table.old) }
{
    table.apply(option)
}

/// The text of a table after another one, which a refusal leaves as it was.
pub fn text_appended(table: &TextTable, out: &mut String) -> Result<(), OutOfMemory>
    ensures text { (events : List ConfigEvent) → borders.Shows events table.now.config.spanned → OnOk result (string_bytes out.new ≡ string_bytes out.old ++ text_of events table.now.texts) }
    ensures unchanged { OnErr result (string_bytes out.new ≡ string_bytes out.old) }
{
    table.append_to(out)
}

/// The text of a table to a writer: only the writer's own fault can leave something written.
pub fn text_written<W: fmt::Write>(table: &TextTable, out: &mut W) -> Result<(), TableError>
    ensures text { (events : List ConfigEvent) → borders.Shows events table.now.config.spanned → OnOk result (W.write_str_gives out.old (text_of events table.now.texts) out.new) }
    ensures refusal { IfErr result (λ e. (e ≡ Refusal.OutOfMemory) ⊎ (e ≡ Refusal.Write)) }
    ensures unwritten { IfErr result (λ e. (e ≡ Refusal.Write) ⊎ (out.new ≡ out.old)) }
{
    table.write_to(out)
}

/// Where only narrow characters were written, and the padding of each cell begins with a space, the text of a table of equal rows is a
/// rectangle, whatever its cells say, however they stand, whichever of them span, and with any margin: each of its lines takes as many
/// columns of the terminal as the others. So it is where no padding is set [unset]; and, whatever padding is set, for texts of printable
/// ASCII, where narrow characters fill the cells beside them [printable].
pub fn text_is_a_rectangle()
    ensures rectangle { (events : List ConfigEvent) (table : Table) → unequal_row table ≡ None → ((r c : ℕ) → IsUtf8 (cell (slice_index_or table r []) c)) → WritesNarrow events → StandApart events table
        → IsRectangle (text_width (look_printed events table) (margin_set events)) (text_of events table) }
    ensures unset { (events : List ConfigEvent) (table : Table) → sets_no_padding events ≡ true → StandApart events table }
    ensures printable { (events : List ConfigEvent) (table : Table) → CellsArePrintable table → ((r c : ℕ) → is_narrow (value_at (cells_set events).justification (position r c)) ≡ true) → StandApart events table }
{}

/// Where no cell spans and no padding is set, each vertical line that is drawn stands straight: reading the text's lines in the column that
/// follows the left side of the margin and the columns before the line gives, from top to bottom, what the places along it show.
pub fn vertical_lines_stand_straight()
    ensures { (events : List ConfigEvent) (table : Table) → unequal_row table ≡ None → ((r c : ℕ) → IsUtf8 (cell (slice_index_or table r []) c)) → WritesNarrow events → leaves_sizes events ≡ true
        → is_empty (look_of events table).shape ≡ false → (c : ℕ) → c ≤ column_count table → (look_of events table).vertical c ≡ true
        → StandsStraightIn (look_of events table) (margin_set events) c (pieces (text_of events table)) }
{}

/// A table that is kept within a number of columns of the terminal prints lines that take no more, with its cells and their padding, its
/// lines and its margin: where only narrow characters were written, where no cell spans and the padding of each begins with a space, where
/// the columns can have one column each, and where each text can be kept within the share of its column, as one can whose characters take one
/// column, and one of any characters that is cut off.
pub fn fitted_table_fits(
    table: &mut TextTable,
    total: usize,
    how: Overflow<'_>,
) -> Result<String, OutOfMemory>
    ensures fits { (events : List ConfigEvent) → borders.Shows events table.old.config.spanned → WritesNarrow events → KeepsApart events → sets_no_spans events ≡ true → CanShare how.entry 1 (total - frame_width events table.old.texts) table.old.texts
        → least_width 1 events table.old.texts ≤ total → IfOk result (λ text. list_all (λ line. nat_le (width_of_text line) total) (pieces (string_bytes text)) ≡ true) }
    ensures texts { (events : List ConfigEvent) → borders.Shows events table.old.config.spanned
        → IfOk result (λ text. IsFitted how.entry 1 (total - frame_width events table.old.texts) table.old.texts table.new.texts) }
    ensures printable { (events : List ConfigEvent) → borders.Shows events table.old.config.spanned → WritesNarrow events → KeepsApart events → sets_no_spans events ≡ true → ends_printable how.entry ≡ true → CellsArePrintable table.old.texts
        → least_width 1 events table.old.texts ≤ total → IfOk result (λ text. list_all (λ line. nat_le (width_of_text line) total) (pieces (string_bytes text)) ≡ true) }
{
    table.fit(total, how)?;
    table.to_text()
}

/// A table fitted so that no column has less than a least share, if it asks for that: the table is then no wider than it may be where its
/// columns can have that share each. Of texts of printable ASCII nothing more is asked than that [printable].
pub fn fitted_with_least_shares(
    table: &mut TextTable,
    total: usize,
    least: usize,
    how: Overflow<'_>,
) -> Result<String, OutOfMemory>
    ensures fits { (events : List ConfigEvent) → borders.Shows events table.old.config.spanned → WritesNarrow events → KeepsApart events → sets_no_spans events ≡ true
        → CanShare how.entry (max least 1) (total - frame_width events table.old.texts) table.old.texts → least_width (max least 1) events table.old.texts ≤ total
        → IfOk result (λ text. list_all (λ line. nat_le (width_of_text line) total) (pieces (string_bytes text)) ≡ true) }
    ensures texts { (events : List ConfigEvent) → borders.Shows events table.old.config.spanned
        → IfOk result (λ text. IsFitted how.entry (max least 1) (total - frame_width events table.old.texts) table.old.texts table.new.texts) }
    ensures printable { (events : List ConfigEvent) → borders.Shows events table.old.config.spanned → WritesNarrow events → KeepsApart events → sets_no_spans events ≡ true → ends_printable how.entry ≡ true → CellsArePrintable table.old.texts
        → least_width (max least 1) events table.old.texts ≤ total → IfOk result (λ text. list_all (λ line. nat_le (width_of_text line) total) (pieces (string_bytes text)) ≡ true) }
{
    table.fit_with(total, least, how)?;
    table.to_text()
}

/// The least width that a table can be kept within, by the columns of its frame and the least share of each column; as far as it can be
/// counted.
pub fn least_width_of_a_table(table: &TextTable, least: usize) -> usize
    ensures { (events : List ConfigEvent) → borders.Shows events table.now.config.spanned → result ≡ min (least_width (max least 1) events table.now.texts) usize.MAX }
{
    table.least_width(least)
}

/// Nothing in the text of a table steers a terminal, where nothing in its cells does, nor among the characters that its options write: no
/// character of the text, none between the texts of the colors, where it is written in color, and so no byte is a control character of ASCII
/// but the line feed. What fills a margin or padding never steers.
pub fn nothing_steers_the_terminal()
    ensures plain { (events : List ConfigEvent) (table : Table) → CellsAreClean table → WritesClean events → is_clean (text_of events table) ≡ true }
    ensures colored { (events : List ConfigEvent) (table : Table) → CellsAreClean table → WritesClean events
        → All (λ line. is_clean (plain line) ≡ true) (painted events table) }
    ensures bytes { (events : List ConfigEvent) (table : Table) → CellsAreClean table → WritesClean events
        → list_all (λ byte. (nat_le 32 byte && not (byte == 127)) || (byte == 10)) (text_of events table) ≡ true }
{}

/// Nothing in the text of a table that was cleaned steers a terminal, whatever its cells said, where its options write nothing that does.
pub fn cleaned_table_steers_nothing(table: &mut TextTable) -> Result<String, OutOfMemory>
    ensures plain { (events : List ConfigEvent) → borders.Shows events table.old.config.spanned → WritesClean events → IfOk result (λ text. is_clean (string_bytes text) ≡ true) }
    ensures bytes { (events : List ConfigEvent) → borders.Shows events table.old.config.spanned → WritesClean events
        → IfOk result (λ text. list_all (λ byte. (nat_le 32 byte && not (byte == 127)) || (byte == 10)) (string_bytes text) ≡ true) }
{
    table.clean()?;
    table.to_text()
}

/// A cleaned table in color: its text is that of painted lines, and none of their characters steers, so what stands between the texts of the
/// colors does not.
pub fn cleaned_table_in_color(table: &mut TextTable) -> Result<String, OutOfMemory>
    ensures { (events : List ConfigEvent) → Shows events table.old.config → WritesClean events
        → IfOk result (λ text. (lines : List Painted) × (string_bytes text ≡ colored_text lines) × All (λ line. is_clean (plain line) ≡ true) lines) }
{
    table.clean()?;
    table.to_ansi()
}

/// Where the margin has no room, no cell spans and no padding is set, the text of a table is what the plain printer prints around its cells.
pub fn text_without_margin()
    ensures { (events : List ConfigEvent) (table : Table) → is_without_room (margin_set events) ≡ true → leaves_sizes events ≡ true
        → text_of events table ≡ printed events (length table, column_count table) (slice_index (column_widths table)) (slice_index (row_heights table))
        (cell_texts events table) }
{}

/// The text of a table in color is that of its painted lines, whose characters are the table's text: what its options make of its
/// cells, draw around them and leave as a margin, each character with the color that they give it. So without the texts of the colors it is a
/// rectangle where the plain text is one. It is refused as the plain text is.
pub fn text_in_color(table: &TextTable) -> Result<String, OutOfMemory>
    ensures text { (events : List ConfigEvent) → Shows events table.now.config → IfOk result (λ text. string_bytes text ≡ colored_text (painted events table.now.texts)) }
    ensures characters { (events : List ConfigEvent) → Shows events table.now.config
        → IfOk result (λ text. (lines : List Painted) × (string_bytes text ≡ colored_text lines) × (plain_text lines ≡ text_of events table.now.texts)) }
    ensures rectangle { (events : List ConfigEvent) → Shows events table.now.config → WritesNarrow events → StandApart events table.now.texts
        → IfOk result (λ text. (lines : List Painted) × (string_bytes text ≡ colored_text lines) × IsRectangle (text_width (look_printed events table.now.texts) (margin_set events)) (plain_text lines)) }
{
    table.to_ansi()
}

/// The text of a table after another one, which a refusal leaves as it was.
pub fn text_in_color_appended(table: &TextTable, out: &mut String) -> Result<(), OutOfMemory>
    ensures text { (events : List ConfigEvent) → Shows events table.now.config → OnOk result (string_bytes out.new ≡ string_bytes out.old ++ colored_text (painted events table.now.texts)) }
    ensures unchanged { OnErr result (string_bytes out.new ≡ string_bytes out.old) }
{
    table.append_ansi_to(out)
}

/// The text of a table to a writer: only the writer's own fault can leave something written.
pub fn text_in_color_written<W: fmt::Write>(
    table: &TextTable,
    out: &mut W,
) -> Result<(), TableError>
    ensures text { (events : List ConfigEvent) → Shows events table.now.config → OnOk result (W.write_str_gives out.old (colored_text (painted events table.now.texts)) out.new) }
    ensures refusal { IfErr result (λ e. (e ≡ Refusal.OutOfMemory) ⊎ (e ≡ Refusal.Write)) }
    ensures unwritten { IfErr result (λ e. (e ≡ Refusal.Write) ⊎ (out.new ≡ out.old)) }
{
    table.write_ansi_to(out)
}

/// The text to a stream of bytes, such as standard output: only the stream's own fault can leave something written.
pub fn text_printed<W: io::Write>(table: &TextTable, out: &mut W) -> Result<(), TableError>
    ensures text { (events : List ConfigEvent) → borders.Shows events table.now.config.spanned → OnOk result (Appends (W.contents out.old) (W.contents out.new) (text_of events table.now.texts)) }
    ensures refusal { IfErr result (λ e. (e ≡ Refusal.OutOfMemory) ⊎ (e ≡ Refusal.Write)) }
    ensures unwritten { IfErr result (λ e. (e ≡ Refusal.Write) ⊎ (out.new ≡ out.old)) }
{
    table.print_to(out)
}

/// The text in color to a stream of bytes: only the stream's own fault can leave something written.
pub fn text_in_color_printed<W: io::Write>(table: &TextTable, out: &mut W) -> Result<(), TableError>
    ensures text { (events : List ConfigEvent) → Shows events table.now.config → OnOk result (Appends (W.contents out.old) (W.contents out.new) (colored_text (painted events table.now.texts))) }
    ensures refusal { IfErr result (λ e. (e ≡ Refusal.OutOfMemory) ⊎ (e ≡ Refusal.Write)) }
    ensures unwritten { IfErr result (λ e. (e ≡ Refusal.Write) ⊎ (out.new ≡ out.old)) }
{
    table.print_ansi_to(out)
}

/// The text between two others, to a stream of bytes: only the stream's own fault can leave something written. The text of the table is a
/// rectangle as `text_is_a_rectangle` says.
pub fn text_printed_between<W: io::Write>(
    table: &TextTable,
    before: &str,
    after: &str,
    out: &mut W,
) -> Result<(), TableError>
    ensures text { (events : List ConfigEvent) → borders.Shows events table.now.config.spanned → OnOk result (Appends (W.contents out.old) (W.contents out.new) (before.now ++ text_of events table.now.texts ++ after.now)) }
    ensures rectangle { (events : List ConfigEvent) → borders.Shows events table.now.config.spanned → WritesNarrow events → StandApart events table.now.texts
        → OnOk result (IsRectangle (text_width (look_printed events table.now.texts) (margin_set events)) (text_of events table.now.texts)) }
    ensures refusal { IfErr result (λ e. (e ≡ Refusal.OutOfMemory) ⊎ (e ≡ Refusal.Write)) }
    ensures unwritten { IfErr result (λ e. (e ≡ Refusal.Write) ⊎ (out.new ≡ out.old)) }
{
    table.print_between(before, after, out)
}

/// The text in color between two others, to a stream of bytes: only the stream's own fault can leave something written.
pub fn text_in_color_printed_between<W: io::Write>(
    table: &TextTable,
    before: &str,
    after: &str,
    out: &mut W,
) -> Result<(), TableError>
    ensures text { (events : List ConfigEvent) → Shows events table.now.config → OnOk result (Appends (W.contents out.old) (W.contents out.new) (before.now ++ colored_text (painted events table.now.texts) ++ after.now)) }
    ensures refusal { IfErr result (λ e. (e ≡ Refusal.OutOfMemory) ⊎ (e ≡ Refusal.Write)) }
    ensures unwritten { IfErr result (λ e. (e ≡ Refusal.Write) ⊎ (out.new ≡ out.old)) }
{
    table.print_ansi_between(before, after, out)
}

/// The texts of a table are lent as they were given.
pub fn texts_of_a_table(table: &TextTable) -> &[Vec<String>]
    ensures { texts result.now ≡ table.now.texts }
{
    table.texts()
}

/// The configuration of a table, lent.
pub fn configuration_of_a_table(table: &TextTable) -> &ColoredConfig
    ensures { result.now ≡ table.now.config }
{
    table.config()
}

/// The configuration of a table, lent to be changed, is the table's, and so is what is written there; texts and sizes are as before.
pub fn configuration_written(table: &mut TextTable, config: ColoredConfig) -> ColoredConfig
    ensures before { result ≡ table.old.config }
    ensures written { table.new ≡ record table.old { config = config } }
{
    mem::replace(table.config_mut(), config)
}

/// The counts of rows and of columns of a table.
pub fn shape_of_a_table(table: &TextTable) -> Shape
    ensures { result ≡ shape_of table.now.texts }
{
    table.shape()
}

/// A table displayed by a formatter: where that takes it, it has the table's text.
pub fn table_displayed<W: fmt::Write>(table: &TextTable, out: &mut fmt::Formatter<W>) -> fmt::Result
    ensures { (events : List ConfigEvent) → borders.Shows events table.now.config.spanned → WritesOnOk W.write_str_gives out.old result (text_of events table.now.texts) out.new }
{
    fmt::Display::fmt(table, out)
}

/// A table that is lent to be displayed in color has that text, as a hole in a format displays it.
pub fn table_displayed_in_color<W: fmt::Write>(
    table: &TextTable,
    out: &mut fmt::Formatter<W>,
) -> fmt::Result
    ensures { (es : List ConfigEvent) → Shows es table.now.config → WritesOnOk W.write_str_gives out.old result (colored_text (painted es table.now.texts)) out.new }
{
    let shown = table.in_color();
    fmt::Display::fmt(&shown, out)
}
