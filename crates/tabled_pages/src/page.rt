//! The table of an input, and how it is written.

ghost use Rattle.std.specs.Prelude.{◌≡◌, ◌≢◌, ◌≤◌, ◌⊎◌, List, ◌++◌, ◌∷◌, [], Some, None, true, false, length, IfOk, IfErr, IsErrOf, OnOk};
ghost use Rattle.std.specs.Io.KnownBytes.{Appends};
ghost use Rattle.tabled_configuration.specs.Configuration.{ConfigEvent, Shows};
ghost use Rattle.tabled_text.specs.TextTable.{lent_texts, text_of};
ghost use Rattle.tabled_pages.specs.Input.{fault_of, have_equal_counts};
ghost use Rattle.tabled_pages.specs.Page.{page};
ghost use Rattle.tabled_pages.specs.Style.{styled};
ghost use Rattle.tabled_pages.specs.declared.bytes.TheConstants.{LINE_FEED};

use crate::bytes::as_text;
use crate::error::ShowError;
use crate::read::INPUT_LIMIT;
use crate::rows::rows_of;
use std::alloc::Global;
use std::io::Write;
use tabled_style::ReadyStyle;
use tabled_text::{LentTable, TableError};

/// A table of these rows. They are refused where they differ in their counts.
fn plain_table<'a>(alloc: Global, rows: Vec<Vec<&'a str>>) -> Result<LentTable<'a>, ShowError>
    ensures texts { IfOk result (λ table. table.texts ≡ lent_texts rows.entry.items) }
    ensures config { IfOk result (λ table. Shows [] table.config.spanned) }
    ensures equal { OnOk result (have_equal_counts (lent_texts rows.entry.items) ≡ true) }
    ensures refused { IfErr result (λ e. (e ≡ ShowError.OutOfMemory) ⊎ ((e ≡ ShowError.UnequalRows) × (have_equal_counts (lent_texts rows.entry.items) ≡ false))) }
{
    match LentTable::from_rows(alloc, rows) {
        Ok(table) => Ok(table),
        Err(TableError::OutOfMemory) => Err(ShowError::OutOfMemory),
        Err(TableError::UnequalRows { .. }) => Err(ShowError::UnequalRows),
        Err(_) => unreachable!("nothing is printed yet"),
    }
}

/// A table of these rows to which a style was applied, and nothing else. They are refused where they differ in their counts.
fn styled_table<'a>(
    alloc: Global,
    style: ReadyStyle,
    rows: Vec<Vec<&'a str>>,
) -> Result<LentTable<'a>, ShowError>
    ensures texts { IfOk result (λ table. table.texts ≡ lent_texts rows.entry.items) }
    ensures config { IfOk result (λ table. Shows (styled style) table.config.spanned) }
    ensures equal { OnOk result (have_equal_counts (lent_texts rows.entry.items) ≡ true) }
    ensures refused { IfErr result (λ e. (e ≡ ShowError.OutOfMemory) ⊎ ((e ≡ ShowError.UnequalRows) × (have_equal_counts (lent_texts rows.entry.items) ≡ false))) }
{
    let mut table = plain_table(alloc, rows)?;
    table.apply(style)?;
    Ok(table)
}

/// Writes the text of a table, and a line feed after it.
fn write_table<W: Write>(table: &LentTable, output: &mut W) -> Result<(), ShowError>
    ensures written { (es : List ConfigEvent) → Shows es table.now.config.spanned
        → OnOk result (Appends (W.contents output.old) (W.contents output.new) (text_of es table.now.texts ++ LINE_FEED ∷ [])) }
    ensures refused { IfErr result (λ e. (e ≡ ShowError.OutOfMemory) ⊎ (e ≡ ShowError.WriteFailed)) }
    ensures unwritten { IfErr result (λ e. (e ≡ ShowError.WriteFailed) ⊎ (output.new ≡ output.old)) }
{
    match table.print_between("", "\n", output) {
        Ok(()) => Ok(()),
        Err(TableError::Write) => Err(ShowError::WriteFailed),
        Err(_) => Err(ShowError::OutOfMemory),
    }
}

/// Writes the table of an input in a style, and a line feed after it; nothing where the input is empty. Nothing is written before the
/// input has been found good, and all memory asked for.
pub fn write_page<W: Write>(
    alloc: Global,
    style: ReadyStyle,
    input: &[u8],
    output: &mut W,
) -> Result<(), ShowError>
    requires { length input.now ≤ INPUT_LIMIT }
    ensures written { OnOk result (Appends (W.contents output.old) (W.contents output.new) (page style input.now)) }
    ensures good { OnOk result (fault_of input.now ≡ None) }
    ensures faults { IfErr result (λ e. (e ≡ ShowError.OutOfMemory) ⊎ (e ≡ ShowError.WriteFailed) ⊎ (fault_of input.now ≡ Some e)) }
    ensures write_failed { IsErrOf result ShowError.WriteFailed → fault_of input.now ≡ None }
    ensures kinds { IfErr result (λ e. e ≢ ShowError.Usage) }
    ensures unwritten { IfErr result (λ e. (e ≡ ShowError.WriteFailed) ⊎ (output.new ≡ output.old)) }
{
    let input = as_text(input)?;
    if input.is_empty() {
        return Ok(());
    }
    let rows = rows_of(alloc, input)?;
    let table = styled_table(alloc, style, rows)?;
    write_table(&table, output)
}
