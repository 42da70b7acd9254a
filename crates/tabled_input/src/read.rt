//! How an input is read: whole, up to a limit.

ghost use Rattle.std.specs.Prelude.{◌≡◌, ◌+◌, ◌<◌, ◌≤◌, ◌⊎◌, ◌++◌, ℕ, List, true, false, length, vec_len, IfOk, IfErr, OnOk, IfSome, IsErrOf};
ghost use Rattle.std.specs.Io.KnownBytes.{Consumes, IsAtEnd};

use crate::error::InputError;
use std::alloc::{AllocError, Global};
use std::io::Read;

/// The most bytes that an input of rows may have.
pub const INPUT_LIMIT: usize = 268_435_456;

/// How many bytes are asked for at a time.
const CHUNK_SIZE: usize = 65_536;

/// Room for the bytes of one read.
fn chunk(alloc: Global) -> Result<Vec<u8>, AllocError>
    ensures { IfOk result (λ room. vec_len room ≡ CHUNK_SIZE) }
{
    vec![in alloc; 0u8; CHUNK_SIZE]
}

/// Reads once, as much as there is room for, and appends what came. Returns whether nothing came, at
/// the end of the reader. A read that returns any fault has failed.
fn read_more<R: Read>(
    reader: &mut R,
    room: &mut [u8],
    input: &mut Vec<u8>,
) -> Result<bool, InputError>
    requires { 0 < length room.old }
    ensures taken { (taken : List ℕ) × Consumes (R.remaining reader.old) (R.remaining reader.new) taken
        × (length taken ≤ length room.old) × OnOk result (input.new.items ≡ input.old.items ++ taken) }
    ensures more { result ≡ Ok false → vec_len input.old < vec_len input.new }
    ensures end { result ≡ Ok true → IsAtEnd (R.remaining reader.new) }
    ensures idle { result ≡ Ok true → vec_len input.new ≡ vec_len input.old }
    ensures faults { IfErr result (λ e. (e ≡ InputError.ReadFailed) ⊎ (e ≡ InputError.OutOfMemory)) }
{
    let count = match reader.read(room) {
        Ok(count) => count,
        Err(_) => return Err(InputError::ReadFailed),
    };
    input.extend_from_slice(&room[..count])?;
    Ok(count == 0)
}

/// Reads all that there is, and at most one byte past a limit.
pub fn read_input<R: Read>(
    alloc: Global,
    limit: usize,
    reader: &mut R,
) -> Result<Vec<u8>, InputError>
    ensures whole { IfOk result (λ input. Consumes (R.remaining reader.old) (R.remaining reader.new) input.items) }
    ensures end { OnOk result (IsAtEnd (R.remaining reader.new)) }
    ensures within { IfOk result (λ input. vec_len input ≤ limit) }
    ensures too_long { IsErrOf result InputError.TooLong → IfSome (R.remaining reader.old) (λ input. limit < length input) }
    ensures one_past { (taken : List ℕ) × Consumes (R.remaining reader.old) (R.remaining reader.new) taken
        × (length taken ≤ limit + 1) }
    ensures faults { IfErr result (λ e. (e ≡ InputError.ReadFailed) ⊎ (e ≡ InputError.TooLong) ⊎ (e ≡ InputError.OutOfMemory)) }
{
    let mut room = chunk(alloc)?;
    let mut input = Vec::new(alloc);
    while input.len() <= limit {
        let most = (CHUNK_SIZE - 1).min(limit - input.len()) + 1;
        if read_more(reader, &mut room[..most], &mut input)? {
            return Ok(input);
        }
    }
    Err(InputError::TooLong)
}
