//! Limits of texts by the names that users of the original know.

ghost use Rattle.std.specs.Prelude.{◌≡◌, true, false, [], string_bytes, if◌then◌else◌, IfOk};
ghost use Rattle.tabled_width.specs.CutOff.{shortened, truncated};
ghost use Rattle.tabled_width.specs.Limited.{overflow_of};
ghost use Rattle.tabled_width.specs.Rows.{wrapped, wrapped_words};

use crate::{Overflow, TextLimit};
use std::alloc::Global;
use tabled_border::OutOfMemory;

/// How many terminal columns the lines of a text may take.
#[derive(Clone, Copy, Debug, PartialEq, Eq)]
pub struct Width;

impl Width {
    /// Returns a line that is wider goes on in further rows, cut between its clusters.
    ///
    /// `Width::wrap(4).limited(alloc, "a long text")?` is `"a lo\nng t\next"`.
    pub fn wrap(width: usize) -> Wrap
        ensures width { result.width ≡ width }
        ensures keeps_words { result.keeps_words ≡ false }
    {
        Wrap {
            width,
            keeps_words: false,
        }
    }

    /// Returns a line that is wider is cut off, with nothing after it.
    ///
    /// `Width::truncate(6).suffix("..").limited(alloc, "a long text")?` is `"a lo.."`.
    pub fn truncate(width: usize) -> Truncate<'static>
        ensures width { result.width ≡ width }
        ensures suffix { result.suffix.now ≡ [] }
    {
        Truncate { width, suffix: "" }
    }
}

/// Lines that take more columns go on in further rows.
#[derive(Clone, Copy, Debug, PartialEq, Eq)]
pub struct Wrap {
    /// How many terminal columns a row may take.
    pub width: usize,
    /// Whether a line is cut at its spaces, where its words are not wider than a row.
    pub keeps_words: bool,
}

impl Wrap {
    /// Returns this limit with lines that are cut at their spaces.
    pub fn keep_words(self) -> Wrap
        ensures width { result.width ≡ self.width }
        ensures keeps_words { result.keeps_words ≡ true }
    {
        Wrap {
            width: self.width,
            keeps_words: true,
        }
    }

    /// Returns what is done with a line that takes more columns.
    pub fn overflow(&self) -> Overflow<'static>
        ensures { result ≡ overflow_of self.now.keeps_words }
    {
        if self.keeps_words {
            Overflow::WrapWords
        } else {
            Overflow::Wrap
        }
    }
}

/// Each line that is too wide is cut into rows.
impl TextLimit for Wrap {
    ghost limits = { λ wrap text. if wrap.keeps_words then wrapped_words wrap.width text else wrapped wrap.width text };

    fn limited(&self, alloc: Global, text: &str) -> Result<String, OutOfMemory> {
        let found = self.overflow().limited(alloc, text, self.width)?;
        Ok(found)
    }
}

/// Lines that take more columns are cut off, and a suffix follows them.
#[derive(Clone, Copy, Debug)]
pub struct Truncate<'a> {
    /// How many terminal columns a line may take, with the suffix.
    pub width: usize,
    /// What follows a line that is cut off; it is cut off itself where it does not fit alone.
    pub suffix: &'a str,
}

impl Truncate<'_> {
    /// Returns this limit with another suffix, the text that follows where something is cut off.
    pub fn suffix<'b>(self, suffix: &'b str) -> Truncate<'b>
        ensures width { result.width ≡ self.entry.width }
        ensures suffix { result.suffix.now ≡ suffix.now }
    {
        Truncate {
            width: self.width,
            suffix,
        }
    }
}

/// Each line that is too wide is cut off.
impl TextLimit for Truncate<'_> {
    ghost limits = { λ cut text. truncated cut.width cut.suffix.now text };

    fn limited(&self, alloc: Global, text: &str) -> Result<String, OutOfMemory> {
        let found = crate::truncated(alloc, text, self.width, self.suffix)?;
        Ok(found)
    }
}

/// How many lines a text may have.
#[derive(Clone, Copy, Debug, PartialEq, Eq)]
pub struct Height;

impl Height {
    /// Returns a text of more lines keeps its first ones, with nothing after them.
    ///
    /// `Height::limit(2).suffix("…").limited(alloc, "a\nb\nc")?` is `"a\nb…"`.
    pub fn limit(count: usize) -> HeightLimit<'static>
        ensures count { result.count ≡ count }
        ensures suffix { result.suffix.now ≡ [] }
    {
        HeightLimit { count, suffix: "" }
    }
}

/// Texts of more lines keep their first ones, and a suffix follows the last of these.
#[derive(Clone, Copy, Debug)]
pub struct HeightLimit<'a> {
    /// How many lines a text may have.
    pub count: usize,
    /// What follows the last line that stays of a longer text.
    pub suffix: &'a str,
}

impl HeightLimit<'_> {
    /// Returns this limit with another suffix, the text that follows where something is cut off.
    pub fn suffix<'b>(self, suffix: &'b str) -> HeightLimit<'b>
        ensures count { result.count ≡ self.entry.count }
        ensures suffix { result.suffix.now ≡ suffix.now }
    {
        HeightLimit {
            count: self.count,
            suffix,
        }
    }
}

/// Texts keep at most so many lines.
impl TextLimit for HeightLimit<'_> {
    ghost limits = { λ limit text. shortened limit.count limit.suffix.now text };

    fn limited(&self, alloc: Global, text: &str) -> Result<String, OutOfMemory> {
        let found = crate::shortened(alloc, text, self.count, self.suffix)?;
        Ok(found)
    }
}
