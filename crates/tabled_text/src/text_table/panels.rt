//! Rows over all columns, above the others and below them.

ghost use Rattle.std.specs.Prelude.{◌≡◌, ◌+◌, ◌-◌, ◌∷◌, [], replicate, true, false, Err, length, map, string_bytes, IfOk, OnOk, OnErr, IsOkUnless};
ghost use Rattle.std.specs.List.{insert};
ghost use Rattle.tabled_object.specs.Entities.{position};
ghost use Rattle.tabled_configuration.specs.Colored.{Changes};
ghost use Rattle.tabled_configuration.specs.Configuration.{by_column_span};
ghost use Rattle.tabled_measure.specs.Edited.{goes_in};
ghost use Rattle.tabled_text.specs.Panels.{IsSpannedBy, panel, panel_columns};
ghost use Rattle.tabled_text.specs.declared.table_error.TableError.{TableError as Refusal};

use super::TextTable;
use crate::TableError;
use std::alloc::Global;
use std::mem;
use tabled_border::{Keep, OutOfMemory};
use tabled_changes::{ColoredConfig, TableOption};
use tabled_correction::BorderCorrection;
use tabled_object::{Position, Shape};

impl TextTable {
    /// Puts a title above all rows: one cell over all columns, around which the borders are corrected as by `BorderCorrection`. It is to
    /// follow the style, since a style replaces what was corrected. What is set for rows and cells stays under its numbers, and is that of
    /// other texts then. Where memory is refused the table is as it was; so it is where its rows have no cells, which is refused as by
    /// `insert_row`.
    ///
    /// `table.with(Style::ascii())?` and then `table.insert_title("staff")?`:
    ///
    /// ```text
    /// +-------------+
    /// | staff       |
    /// +-------+-----+
    /// | name  | age |
    /// +-------+-----+
    /// | Alice | 30  |
    /// +-------+-----+
    /// ```
    pub fn insert_title(&mut self, text: &str) -> Result<(), TableError>
        ensures texts { OnOk result (self.new.texts ≡ insert self.old.texts 0 (panel text.now self.old.texts)) }
        ensures config { OnOk result (IsSpannedBy 0 (length self.old.texts + 1, panel_columns self.old.texts) self.old.config self.new.config) }
        ensures same_texts { OnErr result (self.new.texts ≡ self.old.texts) }
        ensures same_config { OnErr result (self.new.config ≡ self.old.config) }
        ensures fits { goes_in (panel text.now self.old.texts) self.old.texts ≡ true → IsOkUnless result Refusal.OutOfMemory }
        ensures unequal { goes_in (panel text.now self.old.texts) self.old.texts ≡ false → result ≡ Err (Refusal.UnequalRows 0 1 0) }
    {
        self.insert_panel(0, text)
    }

    /// Puts a footer below all rows, as `insert_title` puts a title above them.
    ///
    /// `table.with(Style::psql())?` and then `table.insert_footer("2 people")?`:
    ///
    /// ```text
    ///  name  | age
    /// -------+-----
    ///  Alice | 30
    ///  Bob   | 7
    ///  2 people
    /// ```
    pub fn insert_footer(&mut self, text: &str) -> Result<(), TableError>
        ensures texts { OnOk result (self.new.texts ≡ insert self.old.texts (length self.old.texts) (panel text.now self.old.texts)) }
        ensures config { OnOk result (IsSpannedBy (length self.old.texts) (length self.old.texts + 1, panel_columns self.old.texts) self.old.config self.new.config) }
        ensures same_texts { OnErr result (self.new.texts ≡ self.old.texts) }
        ensures same_config { OnErr result (self.new.config ≡ self.old.config) }
        ensures fits { goes_in (panel text.now self.old.texts) self.old.texts ≡ true → IsOkUnless result Refusal.OutOfMemory }
        ensures unequal { goes_in (panel text.now self.old.texts) self.old.texts ≡ false → result ≡ Err (Refusal.UnequalRows (length self.old.texts) 1 0) }
    {
        let last = self.shape().rows;
        self.insert_panel(last, text)
    }

    /// Puts a row over all columns at an index.
    fn insert_panel(&mut self, index: usize, text: &str) -> Result<(), TableError>
        ensures texts { OnOk result (self.new.texts ≡ insert self.old.texts index (panel text.now self.old.texts)) }
        ensures config { OnOk result (IsSpannedBy index (length self.old.texts + 1, panel_columns self.old.texts) self.old.config self.new.config) }
        ensures same_texts { OnErr result (self.new.texts ≡ self.old.texts) }
        ensures same_config { OnErr result (self.new.config ≡ self.old.config) }
        ensures fits { goes_in (panel text.now self.old.texts) self.old.texts ≡ true → IsOkUnless result Refusal.OutOfMemory }
        ensures unequal { goes_in (panel text.now self.old.texts) self.old.texts ≡ false → result ≡ Err (Refusal.UnequalRows index 1 0) }
    {
        let Shape { rows, cols } = self.shape();
        if rows != 0 && cols == 0 {
            return Err(TableError::UnequalRows {
                row: index,
                cells: 1,
                columns: 0,
            });
        }
        let alloc = self.config().config().allocator();
        let row = panel_of(alloc, text, cols.max(1))?;
        let config = self.spanned_by(index)?;
        self.insert_row(index, row)?;
        drop(mem::replace(&mut *self.config, config));
        Ok(())
    }

    /// A copy of the configuration in which the first cell of a row spans all columns, with the borders corrected for one row more.
    fn spanned_by(&self, row: usize) -> Result<ColoredConfig, OutOfMemory>
        ensures { IfOk result (λ config. IsSpannedBy row (length self.now.texts + 1, panel_columns self.now.texts) self.now.config config) }
    {
        let alloc = self.config().config().allocator();
        let Shape { rows, cols } = self.shape();
        let rows = rows.checked_add(1).ok_or(OutOfMemory)?;
        let mut config: ColoredConfig = self.config().keep(alloc)?;
        set_spanned(&mut config, row, rows, cols.max(1))?;
        Ok(config)
    }
}

/// Lets the first cell of a row span all columns of a table, and corrects its borders. Where memory is refused, the cell may span.
fn set_spanned(
    config: &mut ColoredConfig,
    row: usize,
    rows: usize,
    cols: usize,
) -> Result<(), OutOfMemory>
    ensures { OnOk result (IsSpannedBy row (rows, cols) config.old config.new) }
{
    set_span(config, row, cols)?;
    BorderCorrection::span().change(&mut Shape { rows, cols }, config, &mut ())
}

/// Lets the first cell of a row span some columns.
fn set_span(config: &mut ColoredConfig, row: usize, cols: usize) -> Result<(), OutOfMemory>
    ensures { OnOk result (Changes (by_column_span (position row 0, cols)) config.old config.new) }
{
    config
        .config_mut()
        .set_column_span(Position::new(row, 0), cols)
}

/// The cells of a row over some columns, one at least: a text, and empty ones after it.
fn panel_of(alloc: Global, text: &str, columns: usize) -> Result<Vec<String>, OutOfMemory>
    ensures { IfOk result (λ row. map string_bytes row.items ≡ text.now ∷ replicate (columns - 1) []) }
{
    let mut row = Vec::with_capacity(alloc, columns)?;
    row.push(String::from_str(alloc, text)?)?;
    for _ in 0..columns.saturating_sub(1) {
        row.push(String::new(alloc))?;
    }
    Ok(row)
}
