//! A builder of tables of texts.

ghost use Rattle.std.specs.Prelude.{◌≡◌, [], ◌∷◌, ◌++◌, length, map, option_map, slice_get, string_bytes, IfOk, OnOk, OnErr};
ghost use Rattle.std.specs.List.{insert, remove};
ghost use Rattle.tabled_configuration.specs.Colored.{Shows};
ghost use Rattle.tabled_width.specs.Texts.{texts};
ghost use Rattle.tabled_builder.specs.Records.{columns, filled, with_column};

use crate::records::{columns_of, new_records};
use std::alloc::Global;
use std::marker::Model;
use tabled_border::OutOfMemory;
use tabled_rows::{fill_rows, put_column, remove_column, reserve_column};
use tabled_text::TextTable;

/// The texts of a table that is to be, record by record. Records may be of unlike length: where a table is built of them, or a
/// column is put in, each is filled with empty texts up to the longest. Indices are counted from 0.
///
/// Where memory is refused, what was to be changed is as it was.
#[derive(Debug)]
pub struct Builder {
    records: Vec<Vec<String>>,
}

/// Written out, so that dropping a builder is one call wherever its life ends.
impl Drop for Builder {
    fn drop(self) {
        let Builder { records } = self;
        drop(records);
    }
}

impl Model for Builder {
    ghost use Rattle.tabled_width.specs.Texts.{Table, texts};

    ghost Value = { Table };

    ghost view = { λ builder. texts builder.records.items };
}

impl Builder {
    /// Makes a builder without records.
    pub fn new(alloc: Global) -> Self
        ensures { result ≡ [] }
    {
        Builder {
            records: Vec::new(alloc),
        }
    }

    /// Makes a builder of these records, which may be of unlike length.
    pub fn from_rows(records: Vec<Vec<String>>) -> Self
        ensures { result ≡ texts records.items }
    {
        Builder { records }
    }

    /// Puts a record at the end.
    ///
    /// After `row!["tea", 95]` and `row!["coffee"]` a table of them is
    ///
    /// ```text
    ///  tea     95
    ///  coffee
    /// ```
    pub fn push_record(&mut self, row: Vec<String>) -> Result<(), OutOfMemory>
        ensures pushed { OnOk result (self.new ≡ self.old ++ map string_bytes row.items ∷ []) }
        ensures err { OnErr result (self.new ≡ self.old) }
    {
        self.records.push(row)?;
        Ok(())
    }

    /// Puts a record at an index, before the one that stood there; at the end, where none did.
    pub fn insert_record(&mut self, index: usize, row: Vec<String>) -> Result<(), OutOfMemory>
        ensures inserted { OnOk result (self.new ≡ insert self.old index (map string_bytes row.items)) }
        ensures err { OnErr result (self.new ≡ self.old) }
    {
        let at = index.min(self.records.len());
        self.records.insert(at, row)?;
        Ok(())
    }

    /// Takes the record at an index out, and gives its texts; none, where none stood there.
    pub fn remove_record(&mut self, index: usize) -> Option<Vec<String>>
        ensures removed { self.new ≡ remove self.old index }
        ensures record { option_map (λ row. map string_bytes row.items) result ≡ slice_get self.old index }
    {
        if index >= self.records.len() {
            return None;
        }
        Some(self.records.remove(index))
    }

    /// Puts a column at the end: each record has the text of its number there, or an empty one. Where the column is longer, new
    /// records begin with empty texts.
    pub fn push_column(&mut self, column: Vec<String>) -> Result<(), OutOfMemory>
        ensures pushed { OnOk result (self.new ≡ with_column (columns self.old) (map string_bytes column.items) self.old) }
        ensures err { OnErr result (self.new ≡ self.old) }
    {
        let last = self.count_columns();
        self.insert_column(last, column)
    }

    /// Puts a column at an index, before the one that stood there; at the end, where none did.
    pub fn insert_column(&mut self, index: usize, column: Vec<String>) -> Result<(), OutOfMemory>
        ensures inserted { OnOk result (self.new ≡ with_column index (map string_bytes column.items) self.old) }
        ensures err { OnErr result (self.new ≡ self.old) }
    {
        let alloc = *self.records.allocator();
        let width = self.count_columns();
        let missing = column.len().saturating_sub(self.records.len());
        let mut added = new_records(alloc, missing, width)?;
        self.records.reserve(missing)?;
        reserve_column(&mut self.records, width)?;
        self.records.append(&mut added)?;
        put_column(alloc, &mut self.records, width, index, column);
        Ok(())
    }

    /// Takes the text at an index out of each record that has one.
    pub fn remove_column(&mut self, index: usize)
        ensures { self.new ≡ map (λ row. remove row index) self.old }
    {
        remove_column(&mut self.records, index);
    }

    /// Returns how many records there are.
    pub fn count_records(&self) -> usize
        ensures { result ≡ length self.now }
    {
        self.records.len()
    }

    /// Returns how many columns there are: as many as the longest record has texts.
    pub fn count_columns(&self) -> usize
        ensures { result ≡ columns self.now }
    {
        columns_of(&self.records)
    }

    /// Returns a table of the records, each filled with empty texts up to the longest. Only memory can be refused.
    pub fn build(self) -> Result<TextTable, OutOfMemory>
        ensures texts { IfOk result (λ table. table.texts ≡ filled self) }
        ensures config { IfOk result (λ table. Shows [] table.config) }
    {
        let Builder { mut records } = self;
        let alloc = *records.allocator();
        let width = columns_of(&records);
        fill_rows(alloc, &mut records, width)?;
        match TextTable::from_rows(alloc, records) {
            Ok(table) => Ok(table),
            Err(_) => Err(OutOfMemory),
        }
    }
}
