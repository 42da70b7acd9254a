//! Tables of texts that are lent. What is claimed of tables holds of these too: their calls are the same ones.

ghost use Rattle.std.specs.Prelude.{◌≡◌, ◌≤◌, ◌⊎◌, ℕ, List, [], true, false, Err, string_bytes, IfOk, IsOkUnless, MatchOption};
ghost use Rattle.tabled_configuration.specs.Colored.{Shows};
ghost use Rattle.tabled_configuration.specs.Configuration.{ConfigEvent};
ghost use Rattle.tabled_configuration.specs.Configuration as borders;
ghost use Rattle.tabled_painting.specs.Widths.{StandsStraightIn, text_width};
ghost use Rattle.tabled_printing.specs.Along.{is_empty};
ghost use Rattle.tabled_width.specs.Narrow.{IsRectangle};
ghost use Rattle.tabled_printing.specs.Columns.{WritesNarrow};
ghost use Rattle.tabled_width.specs.Texts.{pieces};
ghost use Rattle.tabled_measure.specs.Cells.{StandApart, leaves_sizes, margin_set};
ghost use Rattle.tabled_text.specs.Refusal.{unequal};
ghost use Rattle.tabled_measure.specs.Sizes.{column_count, unequal_row};
ghost use Rattle.tabled_text.specs.TextTable.{lent_rows, lent_texts, look_of, look_printed, text_of};
ghost use Rattle.tabled_text.specs.declared.table_error.TableError.{TableError as Refusal};

use std::alloc::Global;
use tabled_border::OutOfMemory;
use tabled_text::{LentTable, TableError, TextTable};

/// A table of lent texts has them and nothing else yet; rows of unequal counts are refused for that alone, as by `table_of_rows`.
pub fn table_of_lent_texts<'a>(
    alloc: Global,
    rows: Vec<Vec<&'a str>>,
) -> Result<LentTable<'a>, TableError>
    ensures texts { IfOk result (λ table. table.texts ≡ lent_texts rows.entry.items) }
    ensures config { IfOk result (λ table. Shows [] table.config) }
    ensures refusal { MatchOption (unequal_row (lent_texts rows.entry.items)) (IsOkUnless result Refusal.OutOfMemory) (λ row. result ≡ Err (unequal (lent_texts rows.entry.items) row)) }
{
    LentTable::from_rows(alloc, rows)
}

/// A table of rows that are lent themselves has their texts and nothing else yet; whatever else they are, memory may be refused before they
/// are looked at.
pub fn table_of_lent_rows<'a>(
    alloc: Global,
    rows: &[&[&'a str]],
) -> Result<LentTable<'a>, TableError>
    ensures texts { IfOk result (λ table. table.texts ≡ lent_rows rows.now) }
    ensures config { IfOk result (λ table. Shows [] table.config) }
    ensures refusal { MatchOption (unequal_row (lent_rows rows.now)) (IsOkUnless result Refusal.OutOfMemory) (λ row. (result ≡ Err Refusal.OutOfMemory) ⊎ (result ≡ Err (unequal (lent_rows rows.now) row))) }
{
    LentTable::new(alloc, rows)
}

/// The text of a table of lent texts is that of any table with these texts and this configuration, a rectangle and with straight vertical
/// lines as `tables` says of such a text, though nothing is known of the texts but that they are lent; nothing but memory is ever refused.
pub fn text_of_lent_texts(table: &LentTable) -> Result<String, OutOfMemory>
    ensures text { (events : List ConfigEvent) → borders.Shows events table.now.config.spanned → IfOk result (λ text. string_bytes text ≡ text_of events table.now.texts) }
    ensures rectangle { (events : List ConfigEvent) → borders.Shows events table.now.config.spanned → WritesNarrow events → StandApart events table.now.texts
        → IfOk result (λ text. IsRectangle (text_width (look_printed events table.now.texts) (margin_set events)) (string_bytes text)) }
    ensures straight { (events : List ConfigEvent) → borders.Shows events table.now.config.spanned → WritesNarrow events → leaves_sizes events ≡ true
        → is_empty (look_of events table.now.texts).shape ≡ false → (c : ℕ) → c ≤ column_count table.now.texts → (look_of events table.now.texts).vertical c ≡ true
        → IfOk result (λ text. StandsStraightIn (look_of events table.now.texts) (margin_set events) c (pieces (string_bytes text))) }
{
    table.to_text()
}

/// What edits texts is there for a table of copies of them, for which all is set as it was.
pub fn copies_of_lent_texts(table: &LentTable) -> Result<TextTable, OutOfMemory>
    ensures texts { IfOk result (λ copy. copy.texts ≡ table.now.texts) }
    ensures config { IfOk result (λ copy. copy.config ≡ table.now.config) }
{
    table.copied()
}
