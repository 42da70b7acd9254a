//! What is done with a line that is too wide.

ghost use Rattle.std.specs.Prelude.{◌≡◌, string_bytes, IfOk};
ghost use Rattle.tabled_width.specs.Limited.{limited};

use crate::{truncated, wrapped, wrapped_words};
use std::alloc::Global;
use tabled_border::OutOfMemory;

/// What is done with a line that takes more terminal columns than it may.
#[derive(Clone, Copy, Debug)]
pub enum Overflow<'a> {
    /// The line goes on in further rows, cut between its clusters.
    Wrap,
    /// The line goes on in further rows, cut at its spaces; a word that is wider than a row is cut between its clusters.
    WrapWords,
    /// The line is cut off, and this text follows it.
    Truncate(&'a str),
}

impl Overflow<'_> {
    /// Returns a text of which no line takes more than so many terminal columns, but for a cluster alone that is wider. Only memory can be
    /// refused.
    pub fn limited(&self, alloc: Global, text: &str, width: usize) -> Result<String, OutOfMemory>
        ensures { IfOk result (λ found. string_bytes found ≡ limited self.now width text.now) }
    {
        match self {
            Overflow::Wrap => wrapped(alloc, text, width),
            Overflow::WrapWords => wrapped_words(alloc, text, width),
            Overflow::Truncate(suffix) => truncated(alloc, text, width, suffix),
        }
    }
}
