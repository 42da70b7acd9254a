//! The words after the program's name.

ghost use Rattle.std.specs.Prelude.{◌≡◌, ◌⊎◌, ◌≤◌, [], ◌∷◌, ◌++◌, map, IfErr, IfOk, OnOk, length, string_bytes};
ghost use Rattle.std.specs.List.{All};
ghost use Rattle.std.specs.Str.{IsUtf8};
ghost use Rattle.tabled_request.specs.declared.given.GivenError.{GivenError as Refusal};

use std::alloc::{AllocError, AllocFailed, Global};
use std::env::{Env, FillError};

/// How many bytes a word may have.
pub const WORD_LIMIT: usize = 4096;

/// Why words can't be read.
#[derive(Clone, Copy, Debug, PartialEq, Eq)]
pub enum GivenError {
    /// A word is no text of UTF-8, or has more than 4096 bytes: its number, counted from 0.
    Unreadable { word: usize },
    /// Memory was asked for and refused.
    OutOfMemory,
}

impl From<AllocError> for GivenError {
    ghost from_gives = { λ _ e. e ≡ Refusal.OutOfMemory };

    fn from(_refused: AllocError) -> GivenError {
        GivenError::OutOfMemory
    }
}

impl<T: Drop> From<AllocFailed<T>> for GivenError {
    ghost from_gives = { λ _ e. e ≡ Refusal.OutOfMemory };

    fn from(_refused: AllocFailed<T>) -> GivenError {
        GivenError::OutOfMemory
    }
}

/// Keeps the next word, which has these bytes.
fn keep_word(words: &mut Vec<String>, bytes: &[u8]) -> Result<(), GivenError>
    ensures kept { OnOk result (map string_bytes words.new.items ≡ map string_bytes words.old.items ++ bytes.now ∷ []) }
    ensures readable { OnOk result (IsUtf8 bytes.now) }
    ensures refused { IfErr result (λ e. (e ≡ Refusal.OutOfMemory) ⊎ ((e ≡ Refusal.Unreadable (length words.old.items)) × ¬ IsUtf8 bytes.now)) }
{
    match str::from_utf8(bytes) {
        Ok(text) => words.push(String::from_str(*words.allocator(), text)?)?,
        Err(_) => return Err(GivenError::Unreadable { word: words.len() }),
    }
    Ok(())
}

/// Returns the words after the program's name, one after the other, all of them and each whole. One that is no text of UTF-8, or has more
/// than 4096 bytes, is refused. Which they are no contract says, since that of `Env::arg` does not tell what an argument is.
pub fn all_words<E: Env>(alloc: Global, env: &E) -> Result<Vec<String>, GivenError>
    ensures at_most { IfOk result (λ words. All (λ text. length (string_bytes text) ≤ WORD_LIMIT) words.items) }
{
    let mut words = Vec::new(alloc);
    let mut room = [0u8; WORD_LIMIT];
    for place in 1..usize::MAX {
        match env.arg(place, &mut room) {
            Ok(length) => keep_word(&mut words, &room[..length])?,
            Err(FillError::NotPresent) => break,
            Err(FillError::TooLong) => return Err(GivenError::Unreadable { word: place - 1 }),
        }
    }
    Ok(words)
}
