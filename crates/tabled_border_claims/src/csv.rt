//! Rows of cells that are written as CSV.

ghost use Rattle.std.specs.Prelude.{◌≡◌, ◌==◌, ℕ, false, List, IfErr, IfOk};
ghost use Rattle.tabled_input.specs.Written.{IsWritten};
ghost use Rattle.tabled_input.specs.declared.quoted.CsvError.{CsvError as Refusal};

use std::alloc::Global;
use tabled_input::{CsvError, JoinedRows, csv};

/// Whatever rows of cells a text is written for, each cell in quotes or, where it may, bare, these rows are read, and only memory can be
/// refused; and a text is written for the rows that are read of it.
pub fn written_rows_are_read(
    alloc: Global,
    text: &str,
    separator: char,
) -> Result<JoinedRows, CsvError>
    ensures read { (rows : List (List (List ℕ))) → IsWritten separator rows text.now → IfOk result (λ found. found.rows ≡ rows) }
    ensures grammar { (separator == 34) ≡ false → (separator == 10) ≡ false → IfOk result (λ found. IsWritten separator found.rows text.now) }
    ensures memory_alone { (rows : List (List (List ℕ))) → IsWritten separator rows text.now → IfErr result (λ e. e ≡ Refusal.OutOfMemory) }
{
    csv(alloc, text, separator)
}
