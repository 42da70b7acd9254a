//! Rows that are put into a table, and taken out.

ghost use Rattle.std.specs.Prelude.{◌≡◌, ◌≤◌, true, false, Err, min, length, map, option_map, slice_get, string_bytes, IfOk, OnOk, OnErr, IsOkUnless};
ghost use Rattle.std.specs.List.{insert, remove};
ghost use Rattle.tabled_measure.specs.Sizes.{column_count};
ghost use Rattle.tabled_measure.specs.Edited.{goes_in};
ghost use Rattle.tabled_text.specs.declared.table_error.TableError.{TableError as Refusal};

use super::TextTable;
use crate::TableError;
use std::mem;
use tabled_border::OutOfMemory;
use tabled_measure::measure::{sizes_of, sizes_with};
use tabled_object::Shape;

impl TextTable {
    /// Puts a row at the end. It is refused where it has more or fewer cells than the others, with both counts, and where memory is;
    /// then the table is as it was. Columns grow as wide as its cells ask.
    ///
    /// `table.push_row(row![in alloc; "Carol", 41]?)?`:
    ///
    /// ```text
    ///  name   age
    ///  Alice  30
    ///  Carol  41
    /// ```
    pub fn push_row(&mut self, row: Vec<String>) -> Result<(), TableError>
        ensures texts { OnOk result (self.new.texts ≡ insert self.old.texts (length self.old.texts) (map string_bytes row.items)) }
        ensures config { self.new.config ≡ self.old.config }
        ensures err { OnErr result (self.new.texts ≡ self.old.texts) }
        ensures fits { goes_in (map string_bytes row.items) self.old.texts ≡ true → IsOkUnless result Refusal.OutOfMemory }
        ensures unequal { goes_in (map string_bytes row.items) self.old.texts ≡ false → result ≡ Err (Refusal.UnequalRows (length self.old.texts) (length row.items) (column_count self.old.texts)) }
    {
        let last = self.shape().rows;
        self.insert_row(last, row)
    }

    /// Puts a row at an index, counted from 0, before the one that stood there; at the end, where none did. Refused as by `push_row`.
    /// What is set for rows and cells stays under its numbers, and is that of other texts then.
    pub fn insert_row(&mut self, index: usize, row: Vec<String>) -> Result<(), TableError>
        ensures texts { OnOk result (self.new.texts ≡ insert self.old.texts index (map string_bytes row.items)) }
        ensures config { self.new.config ≡ self.old.config }
        ensures err { OnErr result (self.new.texts ≡ self.old.texts) }
        ensures fits { goes_in (map string_bytes row.items) self.old.texts ≡ true → IsOkUnless result Refusal.OutOfMemory }
        ensures unequal { goes_in (map string_bytes row.items) self.old.texts ≡ false → result ≡ Err (Refusal.UnequalRows (min index (length self.old.texts)) (length row.items) (column_count self.old.texts)) }
    {
        let Shape { rows, cols } = self.shape();
        let at = index.min(rows);
        if rows != 0 && row.len() != cols {
            return Err(TableError::UnequalRows {
                row: at,
                cells: row.len(),
                columns: cols,
            });
        }
        self.put_row(at, row)?;
        Ok(())
    }

    /// Puts a row that goes in at an index.
    fn put_row(&mut self, at: usize, row: Vec<String>) -> Result<(), OutOfMemory>
        requires at { at ≤ length self.old.texts }
        requires fits { goes_in (map string_bytes row.items) self.old.texts ≡ true }
        ensures texts { OnOk result (self.new.texts ≡ insert self.old.texts at (map string_bytes row.items)) }
        ensures config { self.new.config ≡ self.old.config }
        ensures err { OnErr result (self.new.texts ≡ self.old.texts) }
    {
        let alloc = self.config().config().allocator();
        let (widths, height) = sizes_with(alloc, &self.sizes.widths, &row)?;
        self.cells.reserve(1)?;
        self.sizes.heights.insert(at, height)?;
        let _ = self.cells.insert(at, row);
        drop(mem::replace(&mut self.sizes.widths, widths));
        Ok(())
    }

    /// Takes the row at an index, counted from 0, out of the table, and gives its texts; none, where none stands there. The columns are
    /// measured again, which takes time as the whole table does. What is set stays under its numbers. Where memory is refused the
    /// table is as it was.
    pub fn remove_row(&mut self, index: usize) -> Result<Option<Vec<String>>, OutOfMemory>
        ensures texts { OnOk result (self.new.texts ≡ remove self.old.texts index) }
        ensures row { IfOk result (λ row. option_map (λ cells. map string_bytes cells.items) row ≡ slice_get self.old.texts index) }
        ensures config { self.new.config ≡ self.old.config }
        ensures err { OnErr result (self.new.texts ≡ self.old.texts) }
    {
        if index >= self.cells.len() {
            return Ok(None);
        }
        let alloc = self.config().config().allocator();
        let row = self.cells.remove(index);
        match sizes_of(alloc, &self.cells) {
            Ok(sizes) => {
                drop(mem::replace(&mut self.sizes, sizes));
                Ok(Some(row))
            }
            Err(_) => {
                let _ = self.cells.insert(index, row);
                Err(OutOfMemory)
            }
        }
    }
}
