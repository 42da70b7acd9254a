//! What text is written into, piece by piece: a text, or a stream.

ghost use Rattle.std.specs.Prelude.{List, ℕ, [], ◌++◌, OnOk};
ghost use Rattle.std.specs.Char.{encode_utf8};
ghost use Rattle.tabled_cells.specs.Placed.{times};
ghost use Rattle.tabled_painting.specs.Outputs as gained;

use std::alloc::AllocError;
use tabled_width::{push_after, push_times};

/// What text is written into, piece by piece.
pub trait Output {
    /// Why no more can be written.
    type Error;

    /// Whether these bytes, written in their order, make the one the other.
    ghost gains: { List ℕ → Self → Self → Type 0 };

    /// Writes a text.
    fn push_str(&mut self, text: &str) -> Result<(), Self::Error>
        ensures { OnOk result (gains text.now self.old self.new) };

    /// Writes a character.
    fn push(&mut self, character: char) -> Result<(), Self::Error>
        ensures { OnOk result (gains (encode_utf8 character) self.old self.new) };

    /// Writes a character the given number of times.
    fn push_times(&mut self, count: usize, character: char) -> Result<(), Self::Error>
        ensures { OnOk result (gains (times count character) self.old self.new) };

    /// Writes a character, and then another one the given number of times.
    fn push_after(&mut self, first: char, count: usize, character: char) -> Result<(), Self::Error>
        ensures { OnOk result (gains (encode_utf8 first ++ times count character) self.old self.new) };

    /// Nothing written leaves it as it is.
    ghost gains_none: { (output : Self) → gains [] output output };

    /// What is written in turn is written.
    ghost gains_both: { (xs ys : List ℕ) (old between new : Self)
        → gains xs old between → gains ys between new → gains (xs ++ ys) old new };
}

/// A text takes what memory has room for.
impl Output for String {
    type Error = AllocError;

    ghost gains = { gained.text_gains };

    fn push_str(&mut self, text: &str) -> Result<(), AllocError> {
        String::push_str(self, text)
    }

    fn push(&mut self, character: char) -> Result<(), AllocError> {
        String::push(self, character)
    }

    fn push_times(&mut self, count: usize, character: char) -> Result<(), AllocError> {
        push_times(self, count, character)
    }

    fn push_after(&mut self, first: char, count: usize, character: char) -> Result<(), AllocError> {
        push_after(self, first, count, character)
    }

    ghost gains_none = { gained.text_none };

    ghost gains_both = { gained.text_both };
}
