//! What a request asks for, in the surroundings of the program.

ghost use Rattle.std.specs.Prelude.{◌≡◌, Ok, Err, None, Some, if◌then◌else◌, map, option_map, string_bytes, IfErr, IfOk};
ghost use Rattle.tabled_request.specs.Words.{request_of};
ghost use Rattle.tabled_request.specs.declared.error.WordsError.{WordsError as Wrong};
ghost use Rattle.tabled_style.specs.declared.ready_style.ReadyStyle.TheVariants as ready;
ghost use Rattle.tabled_viewing.specs.Asked.{cells_asked, cells_by, form_asked, form_named, is_about_itself, is_colored, lacks_color, names_csv, style_asked, style_by, width_asked};
ghost use Rattle.tabled_viewing.specs.Refusal.{unknown_style};
ghost use Rattle.tabled_viewing.specs.declared.error.ViewError.TheVariants as refusals;

use crate::error::ViewError;
use tabled_input::Cells;
use tabled_request::{
    Form, OptionName, Request, Shows, Surroundings, When, WordsError, read_words, word_at,
};
use tabled_style::ReadyStyle;

/// Returns what the words ask for. Refused with the first word that is wrong.
pub fn understood(words: &[String]) -> Result<Request, ViewError>
    ensures request { IfOk result (λ request. request_of (map string_bytes words.now) ≡ Ok request) }
    ensures refused { IfErr result (λ e. (refusal : Wrong) × (e ≡ refusals.Words refusal) × (request_of (map string_bytes words.now) ≡ Err refusal)) }
{
    let request = read_words(words)?;
    Ok(request)
}

/// Returns whether the program is asked about itself, and needs no input.
pub fn is_about_itself(request: Request) -> bool
    ensures { result ≡ is_about_itself request.shows }
{
    match request.shows {
        Shows::Table => false,
        Shows::Help => true,
        Shows::Version => true,
        Shows::Styles => true,
    }
}

/// Whether a file is CSV by its name, which ends in `.csv`, in large or small letters.
#[tactic(auto, unfolding(crate::specs::Asked::names_csv))]
fn names_csv(name: &str) -> bool
    ensures { result ≡ names_csv name.now }
{
    let bytes = name.as_bytes();
    let end = &bytes[bytes.len().saturating_sub(4)..];
    end.eq_ignore_ascii_case(b".csv")
}

/// How the cells of a file stand by its name.
fn form_named(name: Option<&str>) -> Option<Form>
    ensures { result ≡ form_named (option_map (λ name. name.now) name.entry) }
{
    match name {
        Some(name) if names_csv(name) => Some(Form::Csv),
        _ => None,
    }
}

/// How the cells of the input stand, where an option or the name of the file says it.
fn form_asked(request: Request, words: &[String]) -> Option<Form>
    ensures { result ≡ form_asked request (map string_bytes words.now) }
{
    let named = form_named(word_at(words, request.file));
    request.form.or(named)
}

/// How cells stand in a form, with a separator where one is given.
fn cells_by(form: Option<Form>, separator: Option<char>) -> Cells
    ensures { result ≡ cells_by form separator }
{
    match form {
        None => Cells::Separated(separator.unwrap_or('\t')),
        Some(Form::Csv) => Cells::Quoted(separator.unwrap_or(',')),
        Some(Form::Spaces) => Cells::Spaced,
    }
}

/// How the cells of the input stand: between tabs, in columns between blanks, or between commas where they may stand in quotes; another
/// separator may be given.
pub(crate) fn cells_asked(request: Request, words: &[String]) -> Cells
    ensures { result ≡ cells_asked request (map string_bytes words.now) }
{
    cells_by(form_asked(request, words), request.separator)
}

/// The style that is drawn where no word names one.
fn first_style(around: Surroundings) -> ReadyStyle
    ensures { result ≡ (if around.takes_utf8 then ready.Rounded else ready.Ascii) }
{
    if around.takes_utf8 {
        ReadyStyle::Rounded
    } else {
        ReadyStyle::Ascii
    }
}

/// The style that a word names, and where none does the one that the terminal can show.
fn style_by(name: Option<&str>, around: Surroundings) -> Option<ReadyStyle>
    ensures { result ≡ style_by (option_map (λ name. name.now) name.entry) around }
{
    match name {
        None => Some(first_style(around)),
        Some(name) => ReadyStyle::from_name(name),
    }
}

/// The style that is asked for. Refused where the word for it names none.
pub(crate) fn style_asked(
    request: Request,
    words: &[String],
    around: Surroundings,
) -> Result<ReadyStyle, ViewError>
    ensures style { IfOk result (λ style. style_asked request (map string_bytes words.now) around ≡ Some style) }
    ensures refused { IfErr result (λ e. (style_asked request (map string_bytes words.now) around ≡ None) × (e ≡ unknown_style request)) }
{
    match style_by(word_at(words, request.style), around) {
        Some(style) => Ok(style),
        None => Err(ViewError::Words {
            refusal: WordsError::BadValue {
                option: OptionName::Style,
                word: request.style.unwrap_or(0),
            },
        }),
    }
}

/// How many columns of the terminal the table may take, if that is limited.
pub(crate) fn width_asked(request: Request, around: Surroundings) -> Option<usize>
    ensures { result ≡ width_asked request around }
{
    let of_terminal = if request.fits_terminal {
        around.columns
    } else {
        None
    };
    request.width.or(of_terminal)
}

/// Whether there are colors: where it is left open, on a terminal alone, unless the surroundings forbid them.
pub(crate) fn is_colored(request: Request, around: Surroundings) -> bool
    ensures { result ≡ is_colored request around }
{
    match request.color {
        When::Always => true,
        When::Never => false,
        When::Auto => around.is_terminal && !around.forbids_color,
    }
}

/// Returns whether a color is asked for, of stripes or of borders, and there are no colors.
pub fn lacks_color(request: Request, around: Surroundings) -> bool
    ensures { result ≡ lacks_color request around }
{
    (request.has_stripes || request.frame_color.is_some()) && !is_colored(request, around)
}
