//! A table that gives its text, or writes it: after a text, to a writer, or to a stream of bytes, plain or in color.

use super::Table;
use crate::TableError;
use crate::table_view::TableView;
use std::convert::AsStr;
use std::{fmt, io};
use tabled_border::OutOfMemory;
use tabled_object::Shape;

impl<T: AsStr + Drop> Table<T> {
    ghost use Rattle.std.specs.Prelude.{◌≡◌, ◌≤◌, ◌⊎◌, ◌++◌, ℕ, List, true, false, None, IfErr, IfOk, OnErr, OnOk, slice_index_or, string_bytes, []};
    ghost use Rattle.std.specs.Str.{IsUtf8};
    ghost use Rattle.std.specs.Io.KnownBytes.{Appends};
    ghost use Rattle.tabled_configuration.specs.Colored.{Shows};
    ghost use Rattle.tabled_configuration.specs.Configuration.{ConfigEvent};
    ghost use Rattle.tabled_configuration.specs.Configuration as borders;
    ghost use Rattle.tabled_painting.specs.Painted.{Painted};
    ghost use Rattle.tabled_painting.specs.PaintedTable.{plain_text, colored_text};
    ghost use Rattle.tabled_painting.specs.Widths.{StandsStraightIn, text_width};
    ghost use Rattle.tabled_printing.specs.Along.{is_empty};
    ghost use Rattle.tabled_width.specs.Narrow.{IsRectangle};
    ghost use Rattle.tabled_printing.specs.Columns.{WritesNarrow};
    ghost use Rattle.tabled_width.specs.Texts.{pieces};
    ghost use Rattle.tabled_measure.specs.Cells.{StandApart, margin_set, leaves_sizes};
    ghost use Rattle.tabled_measure.specs.Sizes.{cell, column_count, unequal_row};
    ghost use Rattle.tabled_text.specs.TableViews.{IsTable, texts_viewed};
    ghost use Rattle.tabled_text.specs.TextTable.{look_of, look_printed, painted, text_of};
    ghost use Rattle.tabled_text.specs.declared.table_error.TableError.{TableError as Refusal};

    /// Returns the text of the table without colors: its cells as they are set for each, its borders, and its margin around them. A cell that
    /// spans several columns or rows is shown in the room of all of them. Only memory can be refused.
    ///
    /// Where only narrow characters were written, and the padding of each cell begins with a space, as it does where none is set, or its text
    /// is of printable ASCII, the text is a rectangle: each of its lines takes as many columns of a terminal as the others. Where no cell
    /// spans, and no padding is set, each vertical line stands in one column.
    pub fn to_text(&self) -> Result<String, OutOfMemory>
        ensures text { (es : List ConfigEvent) → borders.Shows es self.now.config.spanned → IfOk result (λ text. string_bytes text ≡ text_of es self.now.texts) }
        ensures rectangle { (es : List ConfigEvent) → borders.Shows es self.now.config.spanned → WritesNarrow es → StandApart es self.now.texts
            → IfOk result (λ text. IsRectangle (text_width (look_printed es self.now.texts) (margin_set es)) (string_bytes text)) }
        ensures straight { (es : List ConfigEvent) → borders.Shows es self.now.config.spanned → WritesNarrow es → leaves_sizes es ≡ true → is_empty (look_of es self.now.texts).shape ≡ false
            → (c : ℕ) → c ≤ column_count self.now.texts → (look_of es self.now.texts).vertical c ≡ true
            → IfOk result (λ text. StandsStraightIn (look_of es self.now.texts) (margin_set es) c (pieces (string_bytes text))) }
    {
        let text = self.view().text(false)?;
        Ok(text)
    }

    /// Writes the text of the table to a writer, in one call of it. Where it is refused by `to_text` nothing is written; where
    /// the writer fails some of the text may be.
    pub fn write_to<W: fmt::Write>(&self, out: &mut W) -> Result<(), TableError>
        ensures text { (es : List ConfigEvent) → borders.Shows es self.now.config.spanned → OnOk result (W.write_str_gives out.old (text_of es self.now.texts) out.new) }
        ensures refusal { IfErr result (λ e. (e ≡ Refusal.OutOfMemory) ⊎ (e ≡ Refusal.Write)) }
        ensures unwritten { IfErr result (λ e. (e ≡ Refusal.Write) ⊎ (out.new ≡ out.old)) }
    {
        let text = self.to_text()?;
        out.write_str(text.as_str())?;
        Ok(())
    }

    /// Writes the text of the table after what `out` has. Where it is refused, as by `to_text`, `out` is as before.
    pub fn append_to(&self, out: &mut String) -> Result<(), OutOfMemory>
        ensures text { (es : List ConfigEvent) → borders.Shows es self.now.config.spanned → OnOk result (string_bytes out.new ≡ string_bytes out.old ++ text_of es self.now.texts) }
        ensures unchanged { OnErr result (string_bytes out.new ≡ string_bytes out.old) }
    {
        let text = self.to_text()?;
        out.push_str(text.as_str())?;
        Ok(())
    }

    /// Returns the text of the table in color, as terminals show it: the same characters as in `to_text`, each between the two texts of
    /// its color. Where the color changes along a line the text that ends the last one is written and then the text that begins
    /// the next, and at the end of a line the text that ends its last color; where there is no color nothing is written. Without
    /// these texts it is a rectangle where `to_text` says that its text is one. Refused as `to_text` is.
    pub fn to_ansi(&self) -> Result<String, OutOfMemory>
        ensures text { (es : List ConfigEvent) → Shows es self.now.config → IfOk result (λ text. string_bytes text ≡ colored_text (painted es self.now.texts)) }
        ensures characters { (es : List ConfigEvent) → Shows es self.now.config
            → IfOk result (λ text. (lines : List Painted) × (string_bytes text ≡ colored_text lines) × (plain_text lines ≡ text_of es self.now.texts)) }
        ensures rectangle { (es : List ConfigEvent) → Shows es self.now.config → WritesNarrow es → StandApart es self.now.texts
            → IfOk result (λ text. (lines : List Painted) × (string_bytes text ≡ colored_text lines) × IsRectangle (text_width (look_printed es self.now.texts) (margin_set es)) (plain_text lines)) }
    {
        let text = self.view().text(true)?;
        Ok(text)
    }

    /// Writes the text of the table in color after what `out` has. Where it is refused, as by `to_ansi`, `out` is as before.
    pub fn append_ansi_to(&self, out: &mut String) -> Result<(), OutOfMemory>
        ensures text { (es : List ConfigEvent) → Shows es self.now.config → OnOk result (string_bytes out.new ≡ string_bytes out.old ++ colored_text (painted es self.now.texts)) }
        ensures unchanged { OnErr result (string_bytes out.new ≡ string_bytes out.old) }
    {
        let text = self.to_ansi()?;
        out.push_str(text.as_str())?;
        Ok(())
    }

    /// Writes the text of the table in color to a writer, in one call of it. Where it is refused by `to_ansi` nothing is written;
    /// where the writer fails some of the text may be.
    pub fn write_ansi_to<W: fmt::Write>(&self, out: &mut W) -> Result<(), TableError>
        ensures text { (es : List ConfigEvent) → Shows es self.now.config → OnOk result (W.write_str_gives out.old (colored_text (painted es self.now.texts)) out.new) }
        ensures refusal { IfErr result (λ e. (e ≡ Refusal.OutOfMemory) ⊎ (e ≡ Refusal.Write)) }
        ensures unwritten { IfErr result (λ e. (e ≡ Refusal.Write) ⊎ (out.new ≡ out.old)) }
    {
        let text = self.to_ansi()?;
        out.write_str(text.as_str())?;
        Ok(())
    }

    /// Writes the text of the table to a stream of bytes, such as standard output. Where it is refused by `to_text` nothing is
    /// written; where the stream fails some of the text may be.
    pub fn print_to<W: io::Write>(&self, out: &mut W) -> Result<(), TableError>
        ensures text { (es : List ConfigEvent) → borders.Shows es self.now.config.spanned → OnOk result (Appends (W.contents out.old) (W.contents out.new) (text_of es self.now.texts)) }
        ensures refusal { IfErr result (λ e. (e ≡ Refusal.OutOfMemory) ⊎ (e ≡ Refusal.Write)) }
        ensures unwritten { IfErr result (λ e. (e ≡ Refusal.Write) ⊎ (out.new ≡ out.old)) }
    {
        self.print_between("", "", out)
    }

    /// Writes a text, the text of the table and another text to a stream of bytes. All memory is asked for before something is written, so
    /// where it is refused nothing is; where the stream fails a beginning of the three may be.
    ///
    /// `table.print_between("Tea\n", "\n", &mut rt.stdout())?` writes a line above the table, and ends the table's last line.
    pub fn print_between<W: io::Write>(
        &self,
        before: &str,
        after: &str,
        out: &mut W,
    ) -> Result<(), TableError>
        ensures text { (es : List ConfigEvent) → borders.Shows es self.now.config.spanned → OnOk result (Appends (W.contents out.old) (W.contents out.new) (before.now ++ text_of es self.now.texts ++ after.now)) }
        ensures rectangle { (es : List ConfigEvent) → borders.Shows es self.now.config.spanned → WritesNarrow es → StandApart es self.now.texts
            → OnOk result (IsRectangle (text_width (look_printed es self.now.texts) (margin_set es)) (text_of es self.now.texts)) }
        ensures refusal { IfErr result (λ e. (e ≡ Refusal.OutOfMemory) ⊎ (e ≡ Refusal.Write)) }
        ensures unwritten { IfErr result (λ e. (e ≡ Refusal.Write) ⊎ (out.new ≡ out.old)) }
    {
        self.view().print(false, before, after, out)
    }

    /// The table as it is lent to be printed.
    pub(crate) fn view(&self) -> TableView<'_, T>
        ensures table { IsTable T.text result }
        ensures config { result.config.now ≡ self.now.config }
        ensures texts { texts_viewed T.text result ≡ self.now.texts }
        ensures sizes { result.sizes.now ≡ self.now.sizes }
        ensures equal { unequal_row self.now.texts ≡ None }
        ensures utf8 { (r c : ℕ) → IsUtf8 (cell (slice_index_or self.now.texts r []) c) }
    {
        let Shape { rows, cols } = self.shape();
        TableView {
            rows: self.texts(),
            shape: (rows, cols),
            sizes: &self.sizes,
            config: self.config(),
        }
    }

    /// Writes the text of the table in color to a stream of bytes, such as standard output. Where it is refused by `to_ansi`
    /// nothing is written; where the stream fails some of the text may be.
    pub fn print_ansi_to<W: io::Write>(&self, out: &mut W) -> Result<(), TableError>
        ensures text { (es : List ConfigEvent) → Shows es self.now.config → OnOk result (Appends (W.contents out.old) (W.contents out.new) (colored_text (painted es self.now.texts))) }
        ensures refusal { IfErr result (λ e. (e ≡ Refusal.OutOfMemory) ⊎ (e ≡ Refusal.Write)) }
        ensures unwritten { IfErr result (λ e. (e ≡ Refusal.Write) ⊎ (out.new ≡ out.old)) }
    {
        self.print_ansi_between("", "", out)
    }

    /// Writes a text, the text of the table in color and another text to a stream of bytes. Where memory is refused nothing is written;
    /// where the stream fails a beginning of the three may be.
    pub fn print_ansi_between<W: io::Write>(
        &self,
        before: &str,
        after: &str,
        out: &mut W,
    ) -> Result<(), TableError>
        ensures text { (es : List ConfigEvent) → Shows es self.now.config → OnOk result (Appends (W.contents out.old) (W.contents out.new) (before.now ++ colored_text (painted es self.now.texts) ++ after.now)) }
        ensures refusal { IfErr result (λ e. (e ≡ Refusal.OutOfMemory) ⊎ (e ≡ Refusal.Write)) }
        ensures unwritten { IfErr result (λ e. (e ≡ Refusal.Write) ⊎ (out.new ≡ out.old)) }
    {
        self.view().print(true, before, after, out)
    }
}
