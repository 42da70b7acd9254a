//! A table as it is lent to be printed piece by piece.

ghost use Rattle.std.specs.Prelude.{◌≡◌, ◌⊎◌, ◌++◌, None, true, false, length, string_bytes, unwrap_or, IfErr, IfOk, OnOk};
ghost use Rattle.std.specs.Io.KnownBytes.{Appends};
ghost use Rattle.tabled_painting.specs.TablePages.{text_of_page};
ghost use Rattle.tabled_printing.specs.Along.{is_empty};
ghost use Rattle.tabled_configuration.specs.Configuration.{all_writes, is_sized_by_texts};
ghost use Rattle.tabled_text.specs.TableViews.{AreSizes, IsTable, text_viewed, texts_viewed};
ghost use Rattle.tabled_text.specs.TextTable.{heights_with_spans, widths_with_spans};
ghost use Rattle.tabled_text.specs.declared.table_error.TableError.{TableError as Refusal};

use crate::TableError;
use crate::stream::write_page;
use std::convert::AsStr;
use std::io;
use tabled_border::OutOfMemory;
use tabled_changes::ColoredConfig;
use tabled_measure::spanned::TextSizes;
use tabled_object::FixedDimension;
use tabled_painting::{TablePage, sizes_of_spanned};

/// A table as it is lent to be printed: its texts, owned or lent themselves, with their sizes, where no cell spans and no padding is set, and
/// their configuration.
#[derive(Drop)]
pub(crate) struct TableView<'a, T> {
    pub(crate) rows: &'a [Vec<T>],
    /// How many rows and columns there are.
    pub(crate) shape: (usize, usize),
    pub(crate) sizes: &'a FixedDimension,
    pub(crate) config: &'a ColoredConfig,
}

impl<'a, T: AsStr> TableView<'a, T> {
    /// Whether it has no rows or no columns.
    fn has_no_places(&self) -> bool
        ensures { result ≡ is_empty self.now.shape }
    {
        let (rows, cols) = self.shape;
        rows == 0 || cols == 0
    }

    /// How wide its columns are and how high its rows, where cells span or have padding.
    fn sizes_with_spans(&self) -> Result<FixedDimension, OutOfMemory>
        requires { IsTable T.text self.now }
        ensures widths { IfOk result (λ sizes. sizes.widths.items ≡ widths_with_spans self.now.config.now.spanned.settings (all_writes self.now.config.now.spanned) (texts_viewed T.text self.now)) }
        ensures heights { IfOk result (λ sizes. sizes.heights.items ≡ heights_with_spans self.now.config.now.spanned.settings (all_writes self.now.config.now.spanned) (texts_viewed T.text self.now)) }
        ensures columns { IfOk result (λ sizes. length sizes.widths.items ≡ self.now.shape.1) }
        ensures rows { IfOk result (λ sizes. length sizes.heights.items ≡ self.now.shape.0) }
    {
        let cfg = self.config.config();
        let cells = TextSizes {
            rows: self.rows,
            cfg,
            sizes: self.sizes,
        };
        let sizes = sizes_of_spanned(cfg, self.shape, &cells)?;
        Ok(sizes)
    }

    /// How wide its columns are and how high its rows, if these are not what its texts alone ask.
    pub(crate) fn other_sizes(&self) -> Result<Option<FixedDimension>, OutOfMemory>
        requires { IsTable T.text self.now }
        ensures sizes { IfOk result (λ other. AreSizes T.text self.now (unwrap_or other self.now.sizes.now)) }
        ensures none { IfOk result (λ other. is_sized_by_texts self.now.config.now.spanned ≡ true → other ≡ None) }
    {
        if !self.config.config().has_spans_or_padding() {
            return Ok(None);
        }
        let sizes = self.sizes_with_spans()?;
        Ok(Some(sizes))
    }

    /// The page of the table, where it has places, in color or without colors.
    fn page<'b>(
        &'b self,
        other: &'b Option<FixedDimension>,
        with_colors: bool,
    ) -> Result<TablePage<'a, 'b>, OutOfMemory>
        requires places { is_empty self.now.shape ≡ false }
        requires sizes { AreSizes T.text self.now (unwrap_or other.now self.now.sizes.now) }
        ensures text { IfOk result (λ page. text_of_page page (texts_viewed T.text self.now) ≡ text_viewed T.text self.now with_colors) }
        ensures shape { IfOk result (λ page. page.lines.frame.shape ≡ self.now.shape) }
    {
        let sizes = match other {
            Some(sizes) => sizes,
            None => self.sizes,
        };
        TablePage::new(self.config, sizes, self.shape, with_colors)
    }

    /// The text of the table, in color or without colors.
    pub(crate) fn text(&self, with_colors: bool) -> Result<String, OutOfMemory>
        requires { IsTable T.text self.now }
        ensures { IfOk result (λ text. string_bytes text ≡ text_viewed T.text self.now with_colors) }
    {
        let alloc = self.config.config().allocator();
        if self.has_no_places() {
            return Ok(String::new(alloc));
        }
        let other = self.other_sizes()?;
        let page = self.page(&other, with_colors)?;
        let room = String::with_capacity(alloc, page.least_bytes())?;
        let text = page.print(room, self.rows)?;
        Ok(text)
    }

    /// Writes a text, the text of the table and another text to a stream of bytes. All memory is asked for before something is written.
    pub(crate) fn print<W: io::Write>(
        &self,
        with_colors: bool,
        before: &str,
        after: &str,
        out: &mut W,
    ) -> Result<(), TableError>
        requires { IsTable T.text self.now }
        ensures text { OnOk result (Appends (W.contents out.old) (W.contents out.new) (before.now ++ text_viewed T.text self.now with_colors ++ after.now)) }
        ensures refusal { IfErr result (λ e. (e ≡ Refusal.OutOfMemory) ⊎ (e ≡ Refusal.Write)) }
        ensures unwritten { IfErr result (λ e. (e ≡ Refusal.Write) ⊎ (out.new ≡ out.old)) }
    {
        if self.has_no_places() {
            return write_both(before, after, out);
        }
        let other = self.other_sizes()?;
        let page = self.page(&other, with_colors)?;
        let alloc = self.config.config().allocator();
        write_page(alloc, page, before, self.rows, after, out)
    }
}

/// Writes two texts to a stream, one after the other.
fn write_both<W: io::Write>(before: &str, after: &str, out: &mut W) -> Result<(), TableError>
    ensures written { OnOk result (Appends (W.contents out.old) (W.contents out.new) (before.now ++ after.now)) }
    ensures refused { IfErr result (λ e. e ≡ Refusal.Write) }
{
    write_bytes(out, before)?;
    write_bytes(out, after)
}

/// Writes the bytes of a text to a stream, which is asked for nothing where there is none.
fn write_bytes<W: io::Write>(out: &mut W, text: &str) -> Result<(), TableError>
    ensures written { OnOk result (Appends (W.contents out.old) (W.contents out.new) text.now) }
    ensures refused { IfErr result (λ e. e ≡ Refusal.Write) }
{
    if text.is_empty() {
        return Ok(());
    }
    match out.write_all(text.as_bytes()) {
        Ok(()) => Ok(()),
        Err(_) => Err(TableError::Write),
    }
}
