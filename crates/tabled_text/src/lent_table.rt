//! A table of texts that are lent to it.

ghost use Rattle.std.specs.Prelude.{◌≡◌, IfOk};
ghost use Rattle.tabled_text.specs.TextTable.{lent_rows, lent_texts};

use crate::{Table, TableError};
use std::alloc::{AllocError, Global};

/// A table of texts that are lent to it, such as the words of one input, or literals: no text is copied. What edits texts is there for a
/// `TextTable` alone, which copies those that it is given.
///
/// A page of 10 MB with 1,250,000 cells takes half of the memory that a `TextTable` of it takes.
pub type LentTable<'a> = Table<&'a str>;

impl<'a> LentTable<'a> {
    ghost use Rattle.std.specs.Prelude.{◌≡◌, ◌⊎◌, [], Err, IfOk, IsOkUnless, MatchOption};
    ghost use Rattle.tabled_configuration.specs.Colored.{Shows};
    ghost use Rattle.tabled_text.specs.Refusal.{unequal};
    ghost use Rattle.tabled_measure.specs.Sizes.{unequal_row};
    ghost use Rattle.tabled_text.specs.TextTable.{lent_rows};
    ghost use Rattle.tabled_text.specs.declared.table_error.TableError.{TableError as Refusal};

    /// Makes a table of these rows of texts, which are lent and not copied. Refused as by `from_rows`.
    ///
    /// `LentTable::new(alloc, &[&["a", "b"], &["c", "d"]])?` prints what a `TextTable` does.
    pub fn new(alloc: Global, rows: &[&[&'a str]]) -> Result<Self, TableError>
        ensures texts { IfOk result (λ table. table.texts ≡ lent_rows rows.now) }
        ensures config { IfOk result (λ table. Shows [] table.config) }
        ensures refusal { MatchOption (unequal_row (lent_rows rows.now)) (IsOkUnless result Refusal.OutOfMemory) (λ row. (result ≡ Err Refusal.OutOfMemory) ⊎ (result ≡ Err (unequal (lent_rows rows.now) row))) }
    {
        let rows = held(alloc, rows)?;
        let table = LentTable::from_rows(alloc, rows)?;
        Ok(table)
    }
}

/// Rows of texts that are lent, held as they are.
fn held<'a>(alloc: Global, rows: &[&[&'a str]]) -> Result<Vec<Vec<&'a str>>, AllocError>
    ensures { IfOk result (λ found. lent_texts found.items ≡ lent_rows rows.now) }
{
    let mut found = Vec::with_capacity(alloc, rows.len())?;
    for row in rows {
        found.push(row.to_vec(alloc)?)?;
    }
    Ok(found)
}
