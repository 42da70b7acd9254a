//! A table of copies of the texts of another.

ghost use Rattle.std.specs.Prelude.{◌≡◌, IfOk};
ghost use Rattle.tabled_cells.specs.TextsBy.{texts_by};
ghost use Rattle.tabled_width.specs.Texts.{texts};

use super::Table;
use crate::TextTable;
use crate::text_table::copied_row;
use std::alloc::{AllocError, Global};
use std::convert::AsStr;
use std::mem;
use tabled_border::{Keep, OutOfMemory};
use tabled_changes::ColoredConfig;

impl<T: AsStr + Drop> Table<T> {
    /// Returns a table of copies of these texts, for which all is set that is set for this one: what edits texts, such as `fit` and `clean`,
    /// is there for it also where these are lent.
    ///
    /// `table.copied()?` of a `LentTable` in the style `ascii`, after `push_row(row![in alloc; "e", "f"]?)?`:
    ///
    /// ```text
    /// +---+---+
    /// | a | b |
    /// +---+---+
    /// | c | d |
    /// +---+---+
    /// | e | f |
    /// +---+---+
    /// ```
    pub fn copied(&self) -> Result<TextTable, OutOfMemory>
        ensures texts { IfOk result (λ table. table.texts ≡ self.now.texts) }
        ensures config { IfOk result (λ table. table.config ≡ self.now.config) }
    {
        let alloc = self.config().config().allocator();
        let cells = copied_cells(alloc, &self.cells)?;
        let config: ColoredConfig = self.config().keep(alloc)?;
        let mut table = TextTable::of_equal_rows(alloc, cells)?;
        drop(mem::replace(&mut *table.config, config));
        Ok(table)
    }
}

/// The texts of rows, copied.
fn copied_cells<T: AsStr>(alloc: Global, rows: &[Vec<T>]) -> Result<Vec<Vec<String>>, AllocError>
    ensures { IfOk result (λ copies. texts copies.items ≡ texts_by T.text rows.now) }
{
    let mut copies = Vec::with_capacity(alloc, rows.len())?;
    for row in rows {
        copies.push(copied_row(alloc, row)?)?;
    }
    Ok(copies)
}
