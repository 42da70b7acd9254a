//! Words, one after the other.

ghost use Rattle.std.specs.Prelude.{◌≡◌, ◌==◌, ◌&&◌, codes, not, map, option_map, slice_index, string_bytes};
ghost use Rattle.std.specs.Str.{bytes_eq};
ghost use Rattle.tabled_request.specs.Options.{entry_of};
ghost use Rattle.tabled_request.specs.declared.spread.Next.TheVariants.{Any};
ghost use Rattle.tabled_request.specs.Words.{at_end, request_of, with_file, with_option, with_word, word_at};

use crate::cells::are_cells;
use crate::columns::are_columns;
use crate::error::WordsError;
use crate::numerals::{from_one, number_of};
use crate::options::OptionName;
use crate::request::{Form, FrameColor, Request, Shows, When};
use crate::spread::Next;
use crate::values::{is_line, separator_named};

/// What the words so far ask for.
#[derive(Clone, Copy, Debug, PartialEq, Eq)]
pub struct Reading {
    /// What is asked for.
    pub request: Request,
    /// Whether one of them named a file, or standard input.
    pub has_file: bool,
}

/// The request with an option, by the word of that number: its value, or the option itself where it takes none. None where the word is no
/// value of it.
#[tactic(auto, unfolding(crate::specs::Options::entry_of))]
fn set(option: OptionName, n: usize, word: &str, request: Request) -> Option<Request>
    ensures { result ≡ (entry_of option).sets n word.now request }
{
    let mut request = request;
    match option {
        OptionName::Style => request.style = Some(n),
        OptionName::Separator => request.separator = Some(separator_named(word)?),
        OptionName::Csv => request.form = Some(Form::Csv),
        OptionName::Spaces => request.form = Some(Form::Spaces),
        OptionName::Header => request.has_header = true,
        OptionName::NoHeader => request.has_header = false,
        OptionName::Title if is_line(word) => request.title = Some(n),
        OptionName::Footer if is_line(word) => request.footer = Some(n),
        OptionName::Left if are_columns(word) => request.left = Some(n),
        OptionName::Center if are_columns(word) => request.center = Some(n),
        OptionName::Right if are_columns(word) => request.right = Some(n),
        OptionName::NoNumbers => request.finds_numbers = false,
        OptionName::Width => request.width = Some(from_one(number_of(word))?),
        OptionName::Wrap => request.cuts_off = false,
        OptionName::Truncate => request.cuts_off = true,
        OptionName::Terminal => request.fits_terminal = true,
        OptionName::Color => request.color = When::from_name(word)?,
        OptionName::Stripes => request.has_stripes = true,
        OptionName::FrameColor => request.frame_color = Some(FrameColor::from_name(word)?),
        OptionName::Outline if are_cells(word) => request.outline = Some(n),
        OptionName::Mark => request.mark = Some(n),
        OptionName::Fill => request.fills = true,
        OptionName::Columns if are_columns(word) => request.columns = Some(n),
        OptionName::Head => request.head = Some(number_of(word)?),
        OptionName::RowNumbers => request.has_row_numbers = true,
        OptionName::Raw => request.is_raw = true,
        OptionName::Help => request.shows = Shows::Help,
        OptionName::Version => request.shows = Shows::Version,
        OptionName::Styles => request.shows = Shows::Styles,
        _ => return None,
    }
    Some(request)
}

/// Whether a word begins with a dash and is no dash alone.
fn is_like_an_option(word: &str) -> bool
    ensures { result ≡ ((slice_index word.now 0 == 45) && not (bytes_eq word.now (codes "-"))) }
{
    word.as_bytes().first() == Some(&b'-') && word != "-"
}

impl Reading {
    /// An option, set by the word of that number.
    fn with_option(self, option: OptionName, n: usize, word: &str) -> Result<Reading, WordsError>
        ensures { result ≡ with_option option n word.now self }
    {
        match set(option, n, word, self.request) {
            Some(request) => Ok(Reading { request, ..self }),
            None => Err(WordsError::BadValue { option, word: n }),
        }
    }

    /// A word that names a file, or standard input.
    fn with_file(self, n: usize, word: &str) -> Result<Reading, WordsError>
        ensures { result ≡ with_file n word.now self }
    {
        if self.has_file {
            return Err(WordsError::SecondFile { word: n });
        }
        let mut request = self.request;
        if word != "-" {
            request.file = Some(n);
        }
        Ok(Reading {
            request,
            has_file: true,
        })
    }

    /// A word that may be an option.
    fn with_any(self, n: usize, word: &str) -> Result<Reading, WordsError>
        ensures { result ≡ with_word Any n word.now self }
    {
        match OptionName::from_name(word) {
            Some(option) if option.takes_value() => Ok(self),
            Some(option) => self.with_option(option, n, word),
            None if word == "--" => Ok(self),
            None if is_like_an_option(word) => Err(WordsError::UnknownOption { word: n }),
            None => self.with_file(n, word),
        }
    }

    /// The word of that number.
    fn with_word(self, next: Next, n: usize, word: &str) -> Result<Reading, WordsError>
        ensures { result ≡ with_word next n word.now self }
    {
        match next {
            Next::Any => self.with_any(n, word),
            Next::Value { option } => self.with_option(option, n, word),
            Next::File => self.with_file(n, word),
        }
    }
}

/// What is asked for at the end, where no value is missing.
fn at_end(next: Next, request: Request) -> Result<Request, WordsError>
    ensures { result ≡ at_end next request }
{
    match next {
        Next::Value { option } => Err(WordsError::NoValue { option }),
        _ => Ok(request),
    }
}

/// Returns what words ask for, where none is an option and its value in one. A word of two dashes ends the options, and a dash alone is
/// standard input, as if no file were named. Refused with the first word that is wrong: one that begins with a dash, is no dash alone and names
/// no option, one that is no value of the option before it, a second file, or an option at the end whose value is missing.
pub fn read_words(words: &[String]) -> Result<Request, WordsError>
    ensures { result ≡ request_of (map string_bytes words.now) }
{
    let mut next = Next::Any;
    let mut reading = Reading {
        request: Request::of_no_words(),
        has_file: false,
    };
    for (n, word) in words.iter().enumerate() {
        reading = reading.with_word(next, n, word.as_str())?;
        next = next.after(word.as_str());
    }
    at_end(next, reading.request)
}

/// Returns the word that an option names by its number, if it does.
pub fn word_at(words: &[String], number: Option<usize>) -> Option<&str>
    ensures { option_map (λ word. word.now) result ≡ word_at (map string_bytes words.now) number }
{
    match number {
        Some(number) => words.get(number).map(|word| word.as_str()),
        None => None,
    }
}
