//! What the surroundings of the program say.

ghost use Rattle.std.specs.Prelude.{◌≡◌, option_copied};
ghost use Rattle.tabled_request.specs.Surroundings.{begins_with, begins_with_utf8, columns_told, is_told, names_utf8, or_else, takes_utf8, told};

use crate::numerals::{from_one, number_in};
use std::env::{Env, FillError};

/// How many bytes the value of a variable may have, to be read.
const VALUE_LIMIT: usize = 256;

/// What stands for a value that is longer. It is not empty, and neither a locale of UTF-8 nor a number.
const LONG_VALUE: &[u8] = b"?";

/// What the surroundings of the program say.
#[derive(Clone, Copy, Debug, PartialEq, Eq)]
pub struct Surroundings {
    /// Whether the terminal takes UTF-8.
    pub takes_utf8: bool,
    /// Whether colors are not wanted.
    pub forbids_color: bool,
    /// How many columns the terminal has, where that is told.
    pub columns: Option<usize>,
    /// Whether the output is a terminal.
    pub is_terminal: bool,
}

/// The values of the variables that are asked for, each None where it is not set.
#[derive(Clone, Copy)]
struct Variables<'a> {
    lc_all: Option<&'a [u8]>,
    lc_ctype: Option<&'a [u8]>,
    lang: Option<&'a [u8]>,
    no_color: Option<&'a [u8]>,
    columns: Option<&'a [u8]>,
}

/// Whether a variable is set and not empty.
fn is_told(value: Option<&[u8]>) -> bool
    ensures { result ≡ is_told (option_copied value.entry) }
{
    match value {
        Some([_, ..]) => true,
        _ => false,
    }
}

/// A value, or the other one where it is not set, or empty.
fn or_else<'a>(first: Option<&'a [u8]>, next: Option<&'a [u8]>) -> Option<&'a [u8]>
    ensures { option_copied result ≡ or_else (option_copied first.entry) (option_copied next.entry) }
{
    if is_told(first) { first } else { next }
}

/// Whether a text begins with a name, in large or small letters.
fn begins_with(text: &[u8], name: &[u8]) -> bool
    ensures { result ≡ begins_with text.now name.now }
{
    match text.get(..name.len()) {
        Some(first) => first.eq_ignore_ascii_case(name),
        None => false,
    }
}

/// Whether a text begins with the name of UTF-8, with a hyphen or without.
fn begins_with_utf8(text: &[u8]) -> bool
    ensures { result ≡ begins_with_utf8 text.now }
{
    begins_with(text, b"utf8") || begins_with(text, b"utf-8")
}

/// Whether the name of a locale has the name of UTF-8 in it.
fn names_utf8(locale: &[u8]) -> bool
    ensures { result ≡ names_utf8 locale.now }
{
    let mut rest = locale;
    while let [_, more @ ..] = rest {
        if begins_with_utf8(rest) {
            return true;
        }
        rest = more;
    }
    false
}

/// Whether the terminal takes UTF-8, by the name of its locale.
fn takes_utf8(locale: Option<&[u8]>) -> bool
    ensures { result ≡ takes_utf8 (option_copied locale.entry) }
{
    match locale {
        Some(locale) => names_utf8(locale),
        None => false,
    }
}

/// How many columns the terminal has: a number from 1 on.
fn columns_told(value: Option<&[u8]>) -> Option<usize>
    ensures { result ≡ columns_told (option_copied value.entry) }
{
    match value {
        Some(text) => from_one(number_in(text)),
        None => None,
    }
}

/// What variables say, and whether the output is a terminal.
fn told(variables: Variables<'_>, is_terminal: bool) -> Surroundings
    ensures { result ≡ told variables.entry is_terminal }
{
    let locale = or_else(
        variables.lc_all,
        or_else(variables.lc_ctype, variables.lang),
    );
    Surroundings {
        takes_utf8: takes_utf8(locale),
        forbids_color: is_told(variables.no_color),
        columns: columns_told(variables.columns),
        is_terminal,
    }
}

/// The value of a variable, which is put into the room, or None where it is not set.
fn value<'a, E: Env>(env: &E, name: &str, room: &'a mut [u8; VALUE_LIMIT]) -> Option<&'a [u8]> {
    match env.var(name, room) {
        Ok(length) => Some(&room[..length]),
        Err(FillError::TooLong) => Some(LONG_VALUE),
        Err(FillError::NotPresent) => None,
    }
}

/// Returns what the surroundings say. The terminal takes UTF-8 where the first of `LC_ALL`, `LC_CTYPE` and `LANG` that is set and not empty
/// has `utf8` or `utf-8` in it, in large or small letters; colors are not wanted where `NO_COLOR` is set and not empty; and it has as many
/// columns as the number in `COLUMNS` says, from 1 on. Of a value of more than 256 bytes it is known that it is not empty. Whether the output is
/// a terminal is known to the caller.
pub fn told_by<E: Env>(env: &E, is_terminal: bool) -> Surroundings
    ensures { result.is_terminal ≡ is_terminal }
{
    told(
        Variables {
            lc_all: value(env, "LC_ALL", &mut [0; VALUE_LIMIT]),
            lc_ctype: value(env, "LC_CTYPE", &mut [0; VALUE_LIMIT]),
            lang: value(env, "LANG", &mut [0; VALUE_LIMIT]),
            no_color: value(env, "NO_COLOR", &mut [0; VALUE_LIMIT]),
            columns: value(env, "COLUMNS", &mut [0; VALUE_LIMIT]),
        },
        is_terminal,
    )
}
