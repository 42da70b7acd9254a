//! Tables of one's own values.

ghost use Rattle.std.specs.Prelude.{◌≡◌, ◌⊎◌, [], ◌∷◌, map, IfErr, IfOk};
ghost use Rattle.std.specs.List.{AllZip};
ghost use Rattle.tabled_configuration.specs.Colored.{Shows};
ghost use Rattle.tabled_width.specs.Texts.{texts};
ghost use Rattle.tabled_rows.specs.Spelled.{IsRow};
ghost use Rattle.tabled_text.specs.Refusal.{AreUnequal};
ghost use Rattle.tabled_text.specs.declared.table_error.TableError.{TableError as Refusal};

use super::TextTable;
use crate::TableError;
use std::alloc::Global;
use tabled_border::OutOfMemory;
use tabled_rows::Tabled;

/// The rows of values, below the texts that stand above their cells.
fn rows_of<T: Tabled>(alloc: Global, values: &[T]) -> Result<Vec<Vec<String>>, OutOfMemory>
    ensures { IfOk result (λ rows. AllZip IsRow (T.known_headers ∷ map T.known_fields values.now) (texts rows.items)) }
{
    let mut rows = Vec::new(alloc);
    rows.push(T::headers(alloc)?)?;
    for value in values {
        rows.push(value.fields(alloc)?)?;
    }
    Ok(rows)
}

impl TextTable {
    /// Makes a table of values, each of which is a row, below the texts that stand above their cells. Refused as by `from_rows`: where a
    /// value has more or fewer texts than stand above its cells, with the number of its row, where that of what stands above is 0, and both
    /// counts.
    ///
    /// `TextTable::of(alloc, &[("tea", 95), ("coffee", 7)])?` with `Style::psql()`; tuples have the numbers of their fields above them:
    ///
    /// ```text
    ///  0      | 1
    /// --------+----
    ///  tea    | 95
    ///  coffee | 7
    /// ```
    pub fn of<T: Tabled>(alloc: Global, values: &[T]) -> Result<Self, TableError>
        ensures rows { IfOk result (λ table. AllZip IsRow (T.known_headers ∷ map T.known_fields values.now) table.texts) }
        ensures config { IfOk result (λ table. Shows [] table.config) }
        ensures refusal { IfErr result (λ e. (e ≡ Refusal.OutOfMemory) ⊎ AreUnequal (T.known_headers ∷ map T.known_fields values.now) e) }
    {
        let rows = rows_of(alloc, values)?;
        let table = TextTable::from_rows(alloc, rows)?;
        Ok(table)
    }
}
