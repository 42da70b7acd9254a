//! A table of texts of its own.

ghost use Rattle.std.specs.Prelude.{◌≡◌, map, string_bytes, IfOk};
ghost use Rattle.tabled_width.specs.Texts.{texts};
ghost use Rattle.tabled_text.specs.TextTable.{lent_rows};

mod edited_columns;
mod limits;
mod making;
mod panels;
mod rows;
mod texts;

use crate::{Table, TableError};
use std::alloc::{AllocError, Global};
use std::convert::AsStr;

/// A table of texts of its own: its cells, rows and columns can be edited, and its texts fitted.
///
/// `TextTable::new(alloc, &[&["a", "b"], &["c", "d"]])?`, to which no option was applied, has no borders:
///
/// ```text
///  a  b
///  c  d
/// ```
pub type TextTable = Table<String>;

impl TextTable {
    ghost use Rattle.std.specs.Prelude.{◌≡◌, ◌⊎◌, [], Err, IfOk, MatchOption, IsOkUnless};
    ghost use Rattle.tabled_configuration.specs.Colored.{Shows};
    ghost use Rattle.tabled_text.specs.Refusal.{unequal};
    ghost use Rattle.tabled_measure.specs.Sizes.{unequal_row};
    ghost use Rattle.tabled_text.specs.TextTable.{lent_rows};
    ghost use Rattle.tabled_text.specs.declared.table_error.TableError.{TableError as Refusal};

    /// Makes a table of these rows of texts, which are copied. Refused as by `from_rows`.
    ///
    /// `TextTable::new(alloc, &[&["a", "b"], &["c", "d"]])?`, to which no option was applied, has no borders:
    ///
    /// ```text
    ///  a  b
    ///  c  d
    /// ```
    pub fn new(alloc: Global, rows: &[&[&str]]) -> Result<Self, TableError>
        ensures texts { IfOk result (λ table. table.texts ≡ lent_rows rows.now) }
        ensures config { IfOk result (λ table. Shows [] table.config) }
        ensures refusal { MatchOption (unequal_row (lent_rows rows.now)) (IsOkUnless result Refusal.OutOfMemory) (λ row. (result ≡ Err Refusal.OutOfMemory) ⊎ (result ≡ Err (unequal (lent_rows rows.now) row))) }
    {
        let rows = copied(alloc, rows)?;
        let table = TextTable::from_rows(alloc, rows)?;
        Ok(table)
    }
}

/// The texts of rows, copied.
fn copied(alloc: Global, rows: &[&[&str]]) -> Result<Vec<Vec<String>>, AllocError>
    ensures { IfOk result (λ copies. texts copies.items ≡ lent_rows rows.now) }
{
    let mut copies = Vec::with_capacity(alloc, rows.len())?;
    for row in rows {
        copies.push(copied_row(alloc, row)?)?;
    }
    Ok(copies)
}

/// The texts of a row, copied.
pub(crate) fn copied_row<T: AsStr>(alloc: Global, row: &[T]) -> Result<Vec<String>, AllocError>
    ensures { IfOk result (λ copies. map string_bytes copies.items ≡ map T.text row.now) }
{
    let mut copies = Vec::with_capacity(alloc, row.len())?;
    for text in row {
        copies.push(String::from_str(alloc, text.as_str())?)?;
    }
    Ok(copies)
}
