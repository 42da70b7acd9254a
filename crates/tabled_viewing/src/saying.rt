//! What refusals say.

ghost use Rattle.std.specs.Prelude.{◌≡◌, [], map, slice_index_or, string_bytes, IfOk};
ghost use Rattle.std.specs.List.{slice_split};
ghost use Rattle.tabled_request.specs.Columns.{is_comma};
ghost use Rattle.tabled_viewing.specs.Said.{noted, out_of_memory, quoted, said, said_of_bad_value, said_of_cells, said_of_color, said_of_column, said_of_file, said_of_given, said_of_input, said_of_no_value, said_of_rows, said_of_second_file, said_of_unknown, said_of_width, said_of_words, values, word, write_failed};

use crate::error::ViewError;
use crate::notes::Notes;
use crate::told::told;
use std::alloc::Global;
use tabled_border::OutOfMemory;
use tabled_input::{INPUT_LIMIT, InputError};
use tabled_request::{GivenError, OptionName, WordsError};

/// The word of that number, the empty text past the last.
fn word(words: &[String], number: usize) -> &str
    ensures { result.now ≡ word (map string_bytes words.now) number }
{
    match words.get(number) {
        Some(word) => word.as_str(),
        None => "",
    }
}

/// A text on one line, between quotes.
fn quoted(alloc: Global, text: &str) -> Result<String, OutOfMemory>
    ensures { IfOk result (λ line. string_bytes line ≡ quoted text.now) }
{
    let text = told(alloc, text)?;
    Ok(format!(in alloc; "\"{text}\"")?)
}

/// What the value of an option may be.
#[tactic(auto, unfolding(crate::specs::Said::values))]
fn values(option: OptionName) -> &'static str
    ensures { result.now ≡ values option }
{
    match option {
        OptionName::Style => "the name of a style, which --styles shows",
        OptionName::Separator =>
            "one character of ASCII, or \\t or \\0, but no quote and no line end",
        OptionName::Title => "a text without a line feed",
        OptionName::Footer => "a text without a line feed",
        OptionName::Left => "headings, or numbers of columns from 1 on, as name,3-5",
        OptionName::Center => "headings, or numbers of columns from 1 on, as name,3-5",
        OptionName::Right => "headings, or numbers of columns from 1 on, as name,3-5",
        OptionName::Columns => "headings, or numbers of columns from 1 on, as name,3-5",
        OptionName::Head => "a number",
        OptionName::Width => "a number from 1 on",
        OptionName::Color => "auto, always or never",
        OptionName::FrameColor => "black, red, green, yellow, blue, magenta, cyan or white",
        OptionName::Outline => "rows and columns from 1 on, or * for all, as 2:3,4:*",
        OptionName::Mark => "the text of cells",
        _ => "nothing",
    }
}

/// What is said of a word that names no option, with the one that is near it.
fn said_of_unknown(alloc: Global, word: &str) -> Result<String, OutOfMemory>
    ensures { IfOk result (λ text. string_bytes text ≡ said_of_unknown word.now) }
{
    let given = told(alloc, word)?;
    match OptionName::near(word) {
        Some(option) => {
            let name = option.name();
            Ok(format!(in alloc; "{given} is no option (perhaps {name}; --help shows them)")?)
        }
        None => Ok(format!(in alloc; "{given} is no option (--help shows them)")?),
    }
}

/// What is said of an option without its value.
fn said_of_no_value(alloc: Global, option: OptionName) -> Result<String, OutOfMemory>
    ensures { IfOk result (λ text. string_bytes text ≡ said_of_no_value option) }
{
    let name = option.name();
    let value = values(option);
    Ok(format!(in alloc; "{name} has no value ({value})")?)
}

/// What is said of a word that is no value of the option before it.
fn said_of_bad_value(alloc: Global, word: &str, option: OptionName) -> Result<String, OutOfMemory>
    ensures { IfOk result (λ text. string_bytes text ≡ said_of_bad_value word.now option) }
{
    let given = quoted(alloc, word)?;
    let name = option.name();
    let value = values(option);
    Ok(format!(in alloc; "{given} is no value of {name} ({value})")?)
}

/// What is said of a second file.
fn said_of_second_file(alloc: Global, word: &str) -> Result<String, OutOfMemory>
    ensures { IfOk result (λ text. string_bytes text ≡ said_of_second_file word.now) }
{
    let given = quoted(alloc, word)?;
    Ok(format!(in alloc; "{given} is a second file (one file is read, or standard input)")?)
}

/// What is said of words.
fn said_of_words(
    alloc: Global,
    words: &[String],
    refusal: WordsError,
) -> Result<String, OutOfMemory>
    ensures { IfOk result (λ text. string_bytes text ≡ said_of_words (map string_bytes words.now) refusal) }
{
    match refusal {
        WordsError::UnknownOption { word: n } => said_of_unknown(alloc, word(words, n)),
        WordsError::NoValue { option } => said_of_no_value(alloc, option),
        WordsError::BadValue { option, word: n } => {
            said_of_bad_value(alloc, word(words, n), option)
        }
        WordsError::SecondFile { word: n } => said_of_second_file(alloc, word(words, n)),
    }
}

/// What is said where memory was refused.
fn out_of_memory(alloc: Global) -> Result<String, OutOfMemory>
    ensures { IfOk result (λ text. string_bytes text ≡ out_of_memory) }
{
    Ok(String::from_str(alloc, "memory was refused (give less of the input)")?)
}

/// What is said of words that can't be read.
fn said_of_given(alloc: Global, refusal: GivenError) -> Result<String, OutOfMemory>
    ensures { IfOk result (λ text. string_bytes text ≡ said_of_given refusal) }
{
    match refusal {
        GivenError::Unreadable { word } => {
            let word = word.saturating_add(1);
            Ok(format!(in alloc;
                "word {word} is not UTF-8, or has more than 4096 bytes (give a shorter text, or the file by < FILE)"
            )?)
        }
        GivenError::OutOfMemory => out_of_memory(alloc),
    }
}

/// What is said of an input.
fn said_of_input(alloc: Global, refusal: InputError) -> Result<String, OutOfMemory>
    ensures { IfOk result (λ text. string_bytes text ≡ said_of_input refusal) }
{
    match refusal {
        InputError::ReadFailed => {
            Ok(String::from_str(alloc, "the input can't be read (is it a file?)")?)
        }
        InputError::TooLong => {
            Ok(format!(in alloc; "the input has more than {INPUT_LIMIT} bytes (give less of it)")?)
        }
        InputError::NotUtf8 { line, byte } => {
            Ok(format!(in alloc;
                "line {line} is not UTF-8 at its byte {byte} (convert it, as by iconv -f LATIN1 -t UTF-8)"
            )?)
        }
        InputError::OpenQuote { line, row } => {
            Ok(format!(in alloc;
                "row {row} has a cell that begins with a quote on line {line}, which nothing ends (end it with a quote)"
            )?)
        }
        InputError::OutOfMemory => out_of_memory(alloc),
    }
}

/// What is said of rows of unlike length.
fn said_of_rows(
    alloc: Global,
    row: usize,
    cells: usize,
    columns: usize,
) -> Result<String, OutOfMemory>
    ensures { IfOk result (λ text. string_bytes text ≡ said_of_rows row cells columns) }
{
    let row = row.saturating_add(1);
    Ok(format!(in alloc;
        "row {row} has {cells} cells where row 1 has {columns} (--fill fills them)"
    )?)
}

/// What is said of rows that would have too many cells.
fn said_of_cells(alloc: Global, rows: usize, columns: usize) -> Result<String, OutOfMemory>
    ensures { IfOk result (λ text. string_bytes text ≡ said_of_cells rows columns) }
{
    Ok(format!(in alloc;
        "filled, {rows} rows of {columns} cells have more than {INPUT_LIMIT} together (give less of the input)"
    )?)
}

/// The part of that number of a word, between commas; the empty text past the last.
fn part(word: &str, number: usize) -> &str
    ensures { result.now ≡ slice_index_or (slice_split is_comma word.now) number [] }
{
    match word.split(',').nth(number) {
        Some(part) => part,
        None => "",
    }
}

/// What is said of a part of a word that names no column.
fn said_of_column(
    alloc: Global,
    word: &str,
    option: OptionName,
    number: usize,
) -> Result<String, OutOfMemory>
    ensures { IfOk result (λ text. string_bytes text ≡ said_of_column word.now option number) }
{
    let given = quoted(alloc, part(word, number))?;
    let name = option.name();
    Ok(format!(in alloc;
        "{given} of {name} is no column that is shown (give its heading, or its number)"
    )?)
}

/// What is said of a file that can't be opened.
fn said_of_file(alloc: Global, name: &str) -> Result<String, OutOfMemory>
    ensures { IfOk result (λ text. string_bytes text ≡ said_of_file name.now) }
{
    let name = quoted(alloc, name)?;
    Ok(format!(in alloc; "{name} can't be opened (name a file that is there and may be read)")?)
}

/// What is said where the output can't be written.
fn write_failed(alloc: Global) -> Result<String, OutOfMemory>
    ensures { IfOk result (λ text. string_bytes text ≡ write_failed) }
{
    Ok(String::from_str(
        alloc,
        "the output can't be written (is it closed, or full?)",
    )?)
}

/// Returns what a refusal says, in one line, over these words: what is wrong, and what helps.
pub fn said(alloc: Global, words: &[String], refusal: ViewError) -> Result<String, OutOfMemory>
    ensures { IfOk result (λ text. string_bytes text ≡ said (map string_bytes words.now) refusal) }
{
    match refusal {
        ViewError::Given { refusal } => said_of_given(alloc, refusal),
        ViewError::Words { refusal } => said_of_words(alloc, words, refusal),
        ViewError::OpenFailed { word: n } => said_of_file(alloc, word(words, n)),
        ViewError::Input { refusal } => said_of_input(alloc, refusal),
        ViewError::UnequalRows {
            row,
            cells,
            columns,
        } => said_of_rows(alloc, row, cells, columns),
        ViewError::TooManyCells { rows, columns } => said_of_cells(alloc, rows, columns),
        ViewError::UnknownColumn {
            option,
            word: n,
            part,
        } => said_of_column(alloc, word(words, n), option, part),
        ViewError::OutOfMemory => out_of_memory(alloc),
        ViewError::WriteFailed => write_failed(alloc),
    }
}

/// What is said beside a table that takes more columns than so many, where it was asked not to.
fn said_of_width(alloc: Global, too_wide: Option<usize>) -> Result<String, OutOfMemory>
    ensures { IfOk result (λ text. string_bytes text ≡ said_of_width too_wide) }
{
    match too_wide {
        Some(width) => Ok(format!(in alloc;
            "tabled_view: the table is wider than {width} columns (its columns can't be narrower; --columns chooses some)\n"
        )?),
        None => Ok(String::new(alloc)),
    }
}

/// What is said beside a table without the colors that were asked for.
fn said_of_color(lacks_color: bool) -> &'static str
    ensures { result.now ≡ said_of_color lacks_color }
{
    if lacks_color {
        "tabled_view: without color nothing is in color (--color always)\n"
    } else {
        ""
    }
}

/// Returns what is said beside a table that is shown, each on a line of its own: that it is wider than asked for, and that what was to be in
/// color is not.
pub fn noted(alloc: Global, notes: Notes) -> Result<String, OutOfMemory>
    ensures { IfOk result (λ text. string_bytes text ≡ noted notes) }
{
    let mut text = said_of_width(alloc, notes.too_wide)?;
    text.push_str(said_of_color(notes.lacks_color))?;
    Ok(text)
}
