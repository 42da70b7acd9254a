//! The lines of a text, and what is trimmed of them.

ghost use Rattle.std.specs.Prelude.{◌≡◌, ◌<◌, ◌≤◌, [], ◌∷◌, reverse, take, drop, length, IfSome, MatchOption};
ghost use Rattle.tabled_width.specs.Texts.{pieces};
ghost use Rattle.tabled_cells.specs.Trimmed.{without_first, without_last, is_space, pieces_left};
ghost use Rattle.tabled_cells.specs.Trimmed as shown;

/// A line without the spaces at its start.
fn after_spaces(line: &str) -> &str
    ensures { result.now ≡ without_first is_space line.now }
{
    let mut rest = line;
    while let Some(more) = rest.strip_prefix(' ') {
        rest = more;
    }
    rest
}

/// A line without the spaces at its end.
fn before_spaces(line: &str) -> &str
    ensures { result.now ≡ without_last is_space line.now }
{
    let mut rest = line;
    while let Some(less) = rest.strip_suffix(' ') {
        rest = less;
    }
    rest
}

/// A line without the spaces at its ends, where these are trimmed.
pub(crate) fn line_trimmed(trims: bool, line: &str) -> &str
    ensures { result.now ≡ shown.line_trimmed trims line.now }
{
    if trims {
        before_spaces(after_spaces(line))
    } else {
        line
    }
}

/// Whether a line has nothing but spaces.
fn is_blank(line: &str) -> bool
    ensures { result ≡ shown.is_blank line.now }
{
    line.as_bytes().iter().all(|byte| *byte == b' ')
}

/// The first line of a text and what follows the line feed after it, if the text has one.
fn cut(text: &str) -> Option<(&str, &str)>
    ensures pieces { MatchOption result (pieces text.now ≡ text.now ∷ []) (λ parts. pieces text.now ≡ parts.0.now ∷ pieces parts.1.now) }
    ensures shorter { IfSome result (λ parts. length parts.1.now < length text.now) }
{
    text.split_once('\n')
}

/// Line `n` of what is left of a text, counted from 0, if there is one, and what is left below it.
#[tactic(auto, using(crate::proofs::Trimming::left_below, crate::proofs::Trimming::last_within))]
pub(crate) fn line_at(text: Option<&str>, n: usize) -> Option<(&str, Option<&str>)>
    ensures { MatchOption result (length (pieces_left text.entry) ≤ n) (λ found. drop n (pieces_left text.entry) ≡ found.0.now ∷ pieces_left found.1) }
{
    let mut rest = text?;
    for passed in 0..n {
        let Some((_, more)) = cut(rest) else {
            return None;
        };
        rest = more;
    }
    match cut(rest) {
        Some((line, more)) => Some((line, Some(more))),
        None => Some((rest, None)),
    }
}

/// How many lines a text has: one more than it has line feeds.
pub(crate) fn count_lines(text: &str) -> usize
    ensures { result ≡ length (pieces text.now) }
{
    text.as_bytes()
        .iter()
        .filter(|byte| **byte == b'\n')
        .count()
        + 1
}

/// A text from its first line that is not blank, if it has one.
pub(crate) fn from_first(text: &str) -> Option<&str>
    ensures { pieces_left result ≡ without_first shown.is_blank (pieces text.now) }
{
    let mut rest = text;
    while let Some((line, more)) = cut(rest) {
        if !is_blank(line) {
            return Some(rest);
        }
        rest = more;
    }
    if is_blank(rest) { None } else { Some(rest) }
}

/// How many lines a text has up to the last one that is not blank.
#[tactic(auto, using(crate::proofs::Trimming::left_below, crate::proofs::Trimming::taken_more, crate::proofs::Trimming::all_taken, crate::proofs::Trimming::last_kept))]
pub(crate) fn count_to_last(text: &str) -> usize
    ensures lines { take result (pieces text.now) ≡ without_last shown.is_blank (pieces text.now) }
    ensures within { result ≤ length (pieces text.now) }
{
    let (mut rest, mut passed, mut count) = (text, 0, 0);
    while let Some((line, more)) = cut(rest) {
        passed += 1;
        if !is_blank(line) {
            count = passed;
        }
        rest = more;
    }
    if is_blank(rest) { count } else { passed + 1 }
}
