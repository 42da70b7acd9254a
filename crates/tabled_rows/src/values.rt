//! Values that are rows of a table.

ghost use Rattle.std.specs.Prelude.{ℕ, Option, None, List, IfOk, map, string_bytes};
ghost use Rattle.tabled_rows.specs.Spelled.{IsRow};

use std::alloc::Global;
use tabled_border::OutOfMemory;

/// A value that is a row of a table: it has a text for each cell, and its type has the texts that stand above them, as many.
///
/// A type of one's own has it in some lines. With `use tabled_rows::row;`:
///
/// ```text
/// impl Tabled for Language {
///     fn headers(alloc: Global) -> Result<Vec<String>, OutOfMemory> {
///         row![in alloc; "name", "since"]
///     }
///     fn fields(&self, alloc: Global) -> Result<Vec<String>, OutOfMemory> {
///         row![in alloc; self.name, self.since]
///     }
/// }
/// ```
///
/// What its texts are may be said for proofs, by `known_headers` and `known_fields`.
pub trait Tabled {
    /// What stands above its cells, where that is said.
    ghost known_headers: { Option (List (Option (List ℕ))) } = { None };

    /// What its cells have, where that is said; of each text that may be known or not.
    ghost known_fields: { Self → Option (List (Option (List ℕ))) } = { λ _. None };

    /// What stands above its cells. Only memory can be refused.
    fn headers(alloc: Global) -> Result<Vec<String>, OutOfMemory>
        ensures { IfOk result (λ texts. IsRow known_headers (map string_bytes texts.items)) };

    /// The texts of its cells. Only memory can be refused.
    fn fields(&self, alloc: Global) -> Result<Vec<String>, OutOfMemory>
        ensures { IfOk result (λ texts. IsRow (known_fields self.now) (map string_bytes texts.items)) };
}

/// A value that is lent has the cells of the value.
impl<T: Tabled> Tabled for &T {
    ghost known_headers = { T.known_headers };

    ghost known_fields = { λ value. T.known_fields value.now };

    fn headers(alloc: Global) -> Result<Vec<String>, OutOfMemory> {
        T::headers(alloc)
    }

    fn fields(&self, alloc: Global) -> Result<Vec<String>, OutOfMemory> {
        (*self).fields(alloc)
    }
}
