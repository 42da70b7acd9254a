//! What is wrong with the words.

use crate::options::OptionName;

/// Why words ask for nothing. The first word that is wrong is named, counted from 0.
#[derive(Clone, Copy, Debug, PartialEq, Eq)]
pub enum WordsError {
    /// The word begins with a dash and names no option.
    UnknownOption { word: usize },
    /// The option takes a value, and no word comes after it.
    NoValue { option: OptionName },
    /// The word is no value of the option before it.
    BadValue { option: OptionName, word: usize },
    /// The word names a file, and another one before it did.
    SecondFile { word: usize },
}
