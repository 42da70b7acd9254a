//! What the program says of itself.

ghost use Rattle.std.specs.Prelude.{◌≡◌, ◌==◌, if◌then◌else◌, [], ◌∷◌, ◌++◌, drop, flat_map, map, option_map, string_bytes, IfOk, OnOk};
ghost use Rattle.std.specs.List.{starts_with};
ghost use Rattle.tabled_configuration.specs.Colored as configuration;
ghost use Rattle.tabled_style.specs.Named.{ready_applied};
ghost use Rattle.tabled_text.specs.TextTable.{text_of};
ghost use Rattle.tabled_viewing.specs.Itself.{help_about, lines_about, sample, style_told, styles_told, told_of_itself};

use std::alloc::Global;
use tabled_border::OutOfMemory;
use tabled_request::{Request, Shows, word_at};
use tabled_style::ReadyStyle;
use tabled_text::TextTable;

/// Which version the program is.
const VERSION: &str = "tabled_view 0.1.0\n";

/// What the options are.
const HELP: &str = "\
usage: tabled_view [OPTIONS] [FILE]

Reads rows of cells from FILE, or from standard input where none is given or it is -, and writes them as a table.

What is read:
  -c, --csv               cells between commas, which may stand in quotes; so it is where the name of FILE ends in .csv
      --spaces            columns between blanks, as df, ps and ls print them
  -d, --separator C       cells between C, a character of ASCII, \\t or \\0; tabs, where nothing is said
      --fill              fill short rows with empty cells
      --header            the first row is a header; so it is, where nothing is said
      --no-header         the first row is as the others

What is shown:
      --columns COLUMNS   these columns in this order, by headings or numbers from 1 on, as name,3-5
  -n, --head N            the header, and the first N rows below it
      --row-numbers       the number of each row before it
  -s, --style NAME        the style; see --styles
  -t, --title TEXT        a text above the table
      --footer TEXT       a text below the table
  -l, --left COLUMNS      these columns at the left, by headings or numbers, as they are shown
      --center COLUMNS    these columns in the middle
  -r, --right COLUMNS     these columns at the right
      --no-numbers        columns of numbers stand as the others, and not at the right
  -o, --outline CELLS     an outline around these cells, by row and column from 1 on, as 2:3,4:* (* is all)
  -m, --mark TEXT         an outline around each cell that has this text

How it is written:
  -w, --width N           within N columns of the terminal
      --terminal          within as many columns as COLUMNS says, once the shell has said export COLUMNS
      --wrap              what is too wide goes on in further lines; so it is, where nothing is said
      --truncate          what is too wide is cut off
  -C, --color WHEN        auto, always or never; auto is on a terminal, unless NO_COLOR is set
      --stripes           in color, every other row has a background
      --frame-color NAME  in color, borders are black, red, green, yellow, blue, magenta, cyan or white
      --raw               leave control characters as they are

What else there is:
  -h, --help              show this; with the name of an option after it, as --help width, what that is
  -V, --version           show which version this is
      --styles            show the styles

A value is the next word, or stands after the name and =, as in --width=60. After -- each word is a file.

  tabled_view people.csv
  df -h | tabled_view --spaces --right Size,Used,Avail
  ps aux | tabled_view --spaces --columns USER,%CPU,COMMAND --head 5 --width 80
";

/// A small table.
fn sample(alloc: Global) -> Result<TextTable, OutOfMemory>
    ensures texts { IfOk result (λ table. table.texts ≡ sample) }
    ensures config { IfOk result (λ table. configuration.Shows [] table.config) }
{
    let rows: &[&[&str]] = &[&["name", "since"], &["C", "1972"], &["Lisp", "1960"]];
    match TextTable::new(alloc, rows) {
        Ok(table) => Ok(table),
        Err(_) => Err(OutOfMemory),
    }
}

/// A small table in a style.
fn sample_in(alloc: Global, style: ReadyStyle) -> Result<TextTable, OutOfMemory>
    ensures texts { IfOk result (λ table. table.texts ≡ sample) }
    ensures config { IfOk result (λ table. configuration.Shows (ready_applied style) table.config) }
{
    let mut table = sample(alloc)?;
    table.apply(style)?;
    Ok(table)
}

/// The text of the small table in a style.
fn sample_text(alloc: Global, style: ReadyStyle) -> Result<String, OutOfMemory>
    ensures { IfOk result (λ text. string_bytes text ≡ text_of (ready_applied style) sample) }
{
    let table = sample_in(alloc, style)?;
    table.to_text()
}

/// Puts a style after what was written: its name, and the small table in it.
fn put_style(text: &mut String, alloc: Global, style: ReadyStyle) -> Result<(), OutOfMemory>
    ensures { OnOk result (string_bytes text.new ≡ string_bytes text.old ++ style_told style) }
{
    let table = sample_text(alloc, style)?;
    text.push_str(style.name())?;
    text.push('\n')?;
    text.push_str(table.as_str())?;
    text.push('\n')?;
    text.push('\n')?;
    Ok(())
}

/// Some styles by name, each on a small table.
fn styles_of(alloc: Global, styles: &[ReadyStyle]) -> Result<String, OutOfMemory>
    ensures { IfOk result (λ text. string_bytes text ≡ flat_map style_told styles.now) }
{
    let mut text = String::new(alloc);
    for style in styles {
        put_style(&mut text, alloc, *style)?;
    }
    Ok(text)
}

/// All styles by name, each on a small table.
#[tactic(auto, unfolding(crate::specs::Itself::styles_told))]
fn styles(alloc: Global) -> Result<String, OutOfMemory>
    ensures { IfOk result (λ text. string_bytes text ≡ styles_told) }
{
    let all = ReadyStyle::all();
    styles_of(alloc, &all)
}

/// Whether what a line of the help has after six characters begins with the name of an option and a space.
fn is_about(line: &str, start: &str) -> bool
    ensures { result ≡ starts_with (λ a b. a == b) (drop 6 line.now) start.now }
{
    match line.as_bytes().get(6..) {
        Some(rest) => rest.starts_with(start.as_bytes()),
        None => b"".starts_with(start.as_bytes()),
    }
}

/// Puts a line of the help after others, if it is about the option.
fn put_line(text: &mut String, line: &str, start: &str) -> Result<(), OutOfMemory>
    ensures { OnOk result (string_bytes text.new ≡ string_bytes text.old ++ (if starts_with (λ a b. a == b) (drop 6 line.now) start.now then line.now ++ 10 ∷ [] else [])) }
{
    if is_about(line, start) {
        text.push_str(line)?;
        text.push('\n')?;
    }
    Ok(())
}

/// The lines of the help that are about an option.
#[tactic(auto, unfolding(crate::specs::Itself::lines_about))]
fn lines_about(alloc: Global, name: &str) -> Result<String, OutOfMemory>
    ensures { IfOk result (λ text. string_bytes text ≡ lines_about name.now) }
{
    let start = format!(in alloc; "--{name} ")?;
    let mut text = String::new(alloc);
    for line in HELP.lines() {
        put_line(&mut text, line, start.as_str())?;
    }
    Ok(text)
}

/// The lines of the help that are about an option, and all of it where there is none.
fn help_about(alloc: Global, name: Option<&str>) -> Result<String, OutOfMemory>
    ensures { IfOk result (λ text. string_bytes text ≡ help_about (option_map (λ name. name.now) name.entry)) }
{
    if let Some(name) = name {
        let text = lines_about(alloc, name)?;
        if !text.is_empty() {
            return Ok(text);
        }
    }
    Ok(String::from_str(alloc, HELP)?)
}

/// What the program says of itself.
pub(crate) fn told_of_itself(
    alloc: Global,
    request: Request,
    words: &[String],
) -> Result<String, OutOfMemory>
    ensures { IfOk result (λ text. string_bytes text ≡ told_of_itself request (map string_bytes words.now)) }
{
    match request.shows {
        Shows::Help => help_about(alloc, word_at(words, request.file)),
        Shows::Version => Ok(String::from_str(alloc, VERSION)?),
        Shows::Styles => styles(alloc),
        Shows::Table => Ok(String::new(alloc)),
    }
}
