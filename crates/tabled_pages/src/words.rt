//! The words after the program's name.

ghost use Rattle.std.specs.Prelude.{◌≡◌, ◌⊎◌, ◌≤◌, IfErr, IfOk, IfSome, length, string_bytes};
ghost use Rattle.std.specs.List.{All};

use crate::error::ShowError;
use std::alloc::Global;
use std::env::{Env, FillError};

/// A word after the program's name, counted from 1, or None past the last. One that is not UTF-8, or
/// longer than any style's name, is refused as an unknown style.
fn word_at<E: Env>(alloc: Global, env: &E, place: usize) -> Result<Option<String>, ShowError>
    ensures refusal { IfErr result (λ e. (e ≡ ShowError.Usage) ⊎ (e ≡ ShowError.OutOfMemory)) }
    ensures at_most { IfOk result (λ found. IfSome found (λ word. length (string_bytes word) ≤ 64)) }
{
    let mut room = [0u8; 64];
    match env.arg(place, &mut room) {
        Ok(length) => match str::from_utf8(&room[..length]) {
            Ok(word) => Ok(Some(String::from_str(alloc, word)?)),
            Err(_) => Err(ShowError::Usage),
        },
        Err(FillError::NotPresent) => Ok(None),
        Err(FillError::TooLong) => Err(ShowError::Usage),
    }
}

/// Returns the words after the program's name, one after the other, each of at most 64 bytes. Which they are no contract says, since that of
/// `Env::arg` does not tell what an argument is.
pub fn all_words<E: Env>(alloc: Global, env: &E) -> Result<Vec<String>, ShowError>
    ensures refusal { IfErr result (λ e. (e ≡ ShowError.Usage) ⊎ (e ≡ ShowError.OutOfMemory)) }
    ensures at_most { IfOk result (λ words. All (λ word. length (string_bytes word) ≤ 64) words.items) }
{
    let mut words = Vec::new(alloc);
    for place in 1..usize::MAX {
        match word_at(alloc, env, place)? {
            Some(word) => words.push(word)?,
            None => break,
        }
    }
    Ok(words)
}
