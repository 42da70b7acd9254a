//! How the input is read: whole, up to a limit.

ghost use Rattle.std.specs.Prelude.{◌≡◌, ◌+◌, ◌<◌, ◌≤◌, ◌⊎◌, ℕ, List, length, vec_len, IfOk, IfErr, OnOk, IfSome, IsErrOf};
ghost use Rattle.std.specs.Io.KnownBytes.{Consumes, IsAtEnd};

use crate::error::ShowError;
use std::alloc::Global;
use std::io::Read;
use tabled_input::InputError;

/// The most bytes that an input may have.
pub const INPUT_LIMIT: usize = 16_777_216;

/// Reads all that there is, and at most one byte past the limit.
pub fn read_input<R: Read>(alloc: Global, reader: &mut R) -> Result<Vec<u8>, ShowError>
    ensures whole { IfOk result (λ input. Consumes (R.remaining reader.old) (R.remaining reader.new) input.items) }
    ensures end { OnOk result (IsAtEnd (R.remaining reader.new)) }
    ensures within { IfOk result (λ input. vec_len input ≤ INPUT_LIMIT) }
    ensures too_long { IsErrOf result ShowError.TooLong → IfSome (R.remaining reader.old) (λ input. INPUT_LIMIT < length input) }
    ensures one_past { (taken : List ℕ) × Consumes (R.remaining reader.old) (R.remaining reader.new) taken
        × (length taken ≤ INPUT_LIMIT + 1) }
    ensures faults { IfErr result (λ e. (e ≡ ShowError.ReadFailed) ⊎ (e ≡ ShowError.TooLong) ⊎ (e ≡ ShowError.OutOfMemory)) }
{
    match tabled_input::read_input(alloc, INPUT_LIMIT, reader) {
        Ok(input) => Ok(input),
        Err(InputError::ReadFailed) => Err(ShowError::ReadFailed),
        Err(InputError::TooLong) => Err(ShowError::TooLong),
        Err(InputError::OutOfMemory) => Err(ShowError::OutOfMemory),
        Err(_) => unreachable!("an input is only read"),
    }
}
