//! Words that are two in one, as two.

ghost use Rattle.std.specs.Prelude.{◌≡◌, ◌&&◌, ◌++◌, map, string_bytes, IfOk, OnOk};
ghost use Rattle.std.specs.List.{list_any, before_first, after_first};
ghost use Rattle.tabled_request.specs.Words.{after, is_before_value, parts, spread};
ghost use Rattle.tabled_request.specs.Options.{is_equals};
ghost use Rattle.tabled_request.specs.declared.spread.Next.TheVariants.{Any};

use crate::options::OptionName;
use std::alloc::{AllocError, Global};

/// What the next word is.
#[derive(Clone, Copy, Debug, PartialEq, Eq)]
pub enum Next {
    /// An option or a file.
    Any,
    /// The value of an option.
    Value { option: OptionName },
    /// A file, since two dashes ended the options.
    File,
}

impl Next {
    /// What the word after this one is.
    pub(crate) fn after(self, word: &str) -> Next
        ensures { result ≡ after self word.now }
    {
        match self {
            Next::Any if word == "--" => Next::File,
            Next::Any => match OptionName::from_name(word) {
                Some(option) if option.takes_value() => Next::Value { option },
                _ => Next::Any,
            },
            Next::Value { .. } => Next::Any,
            Next::File => Next::File,
        }
    }
}

/// Whether a byte is an equals sign.
fn has_equals(bytes: &[u8]) -> bool
    ensures { result ≡ list_any is_equals bytes.now }
{
    bytes.iter().any(|byte| *byte == b'=')
}

/// What stands before the first equals sign of a word, and what stands after it; without one the whole word, and nothing.
pub(crate) fn cut(word: &str) -> (&str, &str)
    ensures before { result.0.now ≡ before_first is_equals word.now }
    ensures after { result.1.now ≡ after_first is_equals word.now }
{
    match word.split_once('=') {
        Some(parts) => parts,
        None => (word, ""),
    }
}

/// Whether a word is the name of an option that takes a value.
fn is_before_value(word: &str) -> bool
    ensures { result ≡ is_before_value word.now }
{
    match OptionName::from_name(word) {
        Some(option) => option.takes_value() && option.name() == word,
        None => false,
    }
}

/// Whether a word is two in one: the name of an option that takes a value, and after an equals sign the value.
fn is_double(word: &str) -> bool
    ensures { result ≡ (list_any is_equals word.now && is_before_value (before_first is_equals word.now)) }
{
    has_equals(word.as_bytes()) && is_before_value(cut(word).0)
}

/// Puts a word after others, or the two that it is.
fn put_parts(words: &mut Vec<String>, next: Next, word: &str) -> Result<(), AllocError>
    ensures { OnOk result (map string_bytes words.new.items ≡ map string_bytes words.old.items ++ parts next word.now) }
{
    let alloc = *words.allocator();
    if next == Next::Any && is_double(word) {
        let (name, value) = cut(word);
        words.push(String::from_str(alloc, name)?)?;
        words.push(String::from_str(alloc, value)?)?;
        return Ok(());
    }
    words.push(String::from_str(alloc, word)?)?;
    Ok(())
}

/// Returns the words as if each `--x=y`, where `--x` is the name of an option that takes a value, stood as two, `--x` and `y`. What is itself
/// the value of an option stays as it is, and what comes after a word of two dashes.
pub fn spread_words(alloc: Global, words: &[String]) -> Result<Vec<String>, AllocError>
    ensures { IfOk result (λ all. map string_bytes all.items ≡ spread Any (map string_bytes words.now)) }
{
    let mut all = Vec::new(alloc);
    let mut next = Next::Any;
    for word in words {
        put_parts(&mut all, next, word.as_str())?;
        next = next.after(word.as_str());
    }
    Ok(all)
}
