//! Columns that are put into a table, and taken out.

ghost use Rattle.std.specs.Prelude.{◌≡◌, ◌<◌, true, false, Err, min, length, map, option_map, string_bytes, IfOk, OnOk, OnErr, IsOkUnless};
ghost use Rattle.tabled_measure.specs.EditedColumns.{column_at, column_goes_in, with_column, without_column};
ghost use Rattle.tabled_measure.specs.Sizes.{cell, column_count};
ghost use Rattle.tabled_text.specs.declared.table_error.TableError.{TableError as Refusal};

use super::TextTable;
use crate::TableError;
use std::mem;
use tabled_border::OutOfMemory;
use tabled_measure::edited::{put_into, take_column};
use tabled_measure::measure::{heights_with, measure_heights, width_of_texts};
use tabled_object::Shape;

impl TextTable {
    /// Puts a column at the end. It is refused where it has more or fewer cells than there are rows, with both counts, and where memory is;
    /// then the table is as it was. Into a table without rows any column goes in, each of whose texts is a row. Rows grow as high as its
    /// cells ask.
    ///
    /// `table.push_column(row![in alloc; "city", "Oslo"]?)?`:
    ///
    /// ```text
    ///  name   age  city
    ///  Alice  30   Oslo
    /// ```
    pub fn push_column(&mut self, column: Vec<String>) -> Result<(), TableError>
        ensures texts { OnOk result (self.new.texts ≡ with_column (column_count self.old.texts) (map string_bytes column.items) self.old.texts) }
        ensures config { self.new.config ≡ self.old.config }
        ensures err { OnErr result (self.new.texts ≡ self.old.texts) }
        ensures fits { column_goes_in (map string_bytes column.items) self.old.texts ≡ true → IsOkUnless result Refusal.OutOfMemory }
        ensures unequal { column_goes_in (map string_bytes column.items) self.old.texts ≡ false → result ≡ Err (Refusal.UnequalColumn (column_count self.old.texts) (length column.items) (length self.old.texts)) }
    {
        let last = self.shape().cols;
        self.insert_column(last, column)
    }

    /// Puts a column at an index, counted from 0, before the one that stood there; at the end, where none did. Refused as by `push_column`.
    /// What is set for columns and cells stays under its numbers, and is that of other texts then.
    ///
    /// `table.insert_column(0, row![in alloc; "no", 1]?)?`:
    ///
    /// ```text
    ///  no  name   age
    ///  1   Alice  30
    /// ```
    pub fn insert_column(&mut self, index: usize, column: Vec<String>) -> Result<(), TableError>
        ensures texts { OnOk result (self.new.texts ≡ with_column index (map string_bytes column.items) self.old.texts) }
        ensures config { self.new.config ≡ self.old.config }
        ensures err { OnErr result (self.new.texts ≡ self.old.texts) }
        ensures fits { column_goes_in (map string_bytes column.items) self.old.texts ≡ true → IsOkUnless result Refusal.OutOfMemory }
        ensures unequal { column_goes_in (map string_bytes column.items) self.old.texts ≡ false → result ≡ Err (Refusal.UnequalColumn (min index (column_count self.old.texts)) (length column.items) (length self.old.texts)) }
    {
        let Shape { rows, cols } = self.shape();
        if rows != 0 && column.len() != rows {
            return Err(TableError::UnequalColumn {
                column: index.min(cols),
                cells: column.len(),
                rows,
            });
        }
        self.put_column(index, column)?;
        Ok(())
    }

    /// Puts a column that goes in at an index.
    fn put_column(&mut self, index: usize, column: Vec<String>) -> Result<(), OutOfMemory>
        requires { column_goes_in (map string_bytes column.items) self.old.texts ≡ true }
        ensures texts { OnOk result (self.new.texts ≡ with_column index (map string_bytes column.items) self.old.texts) }
        ensures config { self.new.config ≡ self.old.config }
        ensures err { OnErr result (self.new.texts ≡ self.old.texts) }
    {
        if column.is_empty() {
            return Ok(());
        }
        let alloc = self.config().config().allocator();
        let at = index.min(self.sizes.widths.len());
        let width = width_of_texts(&column)?;
        let heights = heights_with(alloc, &self.sizes.heights, &column)?;
        self.sizes.widths.reserve(1)?;
        put_into(alloc, &mut self.cells, index, column)?;
        let _ = self.sizes.widths.insert(at, width);
        drop(mem::replace(&mut self.sizes.heights, heights));
        Ok(())
    }

    /// Takes the column at an index, counted from 0, out of the table, and gives its texts; none, where none stands there. The rows are
    /// measured again, which takes time as the whole table does; they stay, without cells too. What is set stays under its numbers. Where
    /// memory is refused the table is as it was.
    ///
    /// `table.remove_column(0)?`:
    ///
    /// ```text
    ///  age
    ///  30
    /// ```
    #[tactic(auto, using(tabled_measure::proofs::ColumnLemmas::without_past, tabled_measure::proofs::ColumnLemmas::column_past))]
    pub fn remove_column(&mut self, index: usize) -> Result<Option<Vec<String>>, OutOfMemory>
        ensures texts { OnOk result (self.new.texts ≡ without_column index self.old.texts) }
        ensures column { IfOk result (λ column. option_map (λ cells. map string_bytes cells.items) column ≡ column_at index self.old.texts) }
        ensures config { self.new.config ≡ self.old.config }
        ensures err { OnErr result (self.new.texts ≡ self.old.texts) }
    {
        let (_, cols) = self.view().shape;
        if index >= cols {
            return Ok(None);
        }
        let column = self.take_out(index)?;
        Ok(Some(column))
    }

    /// Takes a column out that the table has.
    fn take_out(&mut self, index: usize) -> Result<Vec<String>, OutOfMemory>
        requires { index < column_count self.old.texts }
        ensures texts { OnOk result (self.new.texts ≡ without_column index self.old.texts) }
        ensures column { IfOk result (λ column. map string_bytes column.items ≡ map (λ row. cell row index) self.old.texts) }
        ensures config { self.new.config ≡ self.old.config }
        ensures err { OnErr result (self.new.texts ≡ self.old.texts) }
    {
        let alloc = self.config().config().allocator();
        let column = take_column(alloc, &mut self.cells, index)?;
        measure_heights(&mut self.sizes.heights, &self.cells);
        let _ = self.sizes.widths.remove(index);
        Ok(column)
    }
}
