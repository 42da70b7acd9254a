//! Writes a character and then another many times, as horizontal lines have a crossing and the edge after it.

ghost use Rattle.std.specs.Prelude.{◌≡◌, ◌++◌, List, ℕ, IfSome, OnErr, OnOk, string_bytes};
ghost use Rattle.std.specs.Char.{encode_utf8};
ghost use Rattle.tabled_width.specs.Texts.{times};

use crate::repeat::push_times;
use std::alloc::AllocError;

/// How many lines, or hyphens, the texts have after their first character.
const LINES: usize = 64;

const TOP_LEFT: &str = "┌────────────────────────────────────────────────────────────────";

const TOP: &str = "┬────────────────────────────────────────────────────────────────";

const LEFT: &str = "├────────────────────────────────────────────────────────────────";

const INNER: &str = "┼────────────────────────────────────────────────────────────────";

const BOTTOM_LEFT: &str = "└────────────────────────────────────────────────────────────────";

const BOTTOM: &str = "┴────────────────────────────────────────────────────────────────";

const ROUND_TOP_LEFT: &str = "╭────────────────────────────────────────────────────────────────";

const ROUND_BOTTOM_LEFT: &str = "╰────────────────────────────────────────────────────────────────";

const PLUS: &str = "+----------------------------------------------------------------";

const BAR: &str = "|----------------------------------------------------------------";

/// A text of a character and then `LINES` lines: of those that the lines of tables mostly cross in.
#[tactic(auto, using(crate::proofs::Tiles::bytes_3))]
fn lines_after(character: char) -> Option<&'static str>
    ensures { IfSome result (λ piece. piece.now ≡ encode_utf8 character ++ times 64 9472) }
{
    match character {
        '┌' => Some(TOP_LEFT),
        '┬' => Some(TOP),
        '├' => Some(LEFT),
        '┼' => Some(INNER),
        '└' => Some(BOTTOM_LEFT),
        '┴' => Some(BOTTOM),
        '╭' => Some(ROUND_TOP_LEFT),
        '╰' => Some(ROUND_BOTTOM_LEFT),
        _ => None,
    }
}

/// A text of a character and then `LINES` hyphens.
fn hyphens_after(character: char) -> Option<&'static str>
    ensures { IfSome result (λ piece. piece.now ≡ encode_utf8 character ++ times 64 45) }
{
    match character {
        '+' => Some(PLUS),
        '|' => Some(BAR),
        _ => None,
    }
}

/// A text of a character and then `LINES` times another, of those that the lines of tables are mostly drawn with.
fn stretch_of(character: char, edge: char) -> Option<&'static str>
    ensures { IfSome result (λ piece. piece.now ≡ encode_utf8 character ++ times 64 edge) }
{
    match edge {
        '─' => lines_after(character),
        '-' => hyphens_after(character),
        _ => None,
    }
}

/// Writes a character, and then another the given number of times, each by itself.
#[inline(never)]
fn push_parts(
    text: &mut String,
    character: char,
    count: usize,
    edge: char,
) -> Result<(), AllocError>
    ensures ok { OnOk result (string_bytes text.new ≡ string_bytes text.old ++ (encode_utf8 character ++ times count edge)) }
    ensures err { OnErr result ((some : List ℕ) × (string_bytes text.new ≡ string_bytes text.old ++ some)) }
{
    text.push(character)?;
    push_times(text, count, edge)
}

/// Writes a character, and then another the given number of times: at once, where that can be. Where memory is refused some of it may have
/// been written.
#[inline(always)]
#[tactic(auto, using(crate::proofs::TimesLemmas::start_of, crate::proofs::TimesLemmas::start_split))]
pub fn push_after(
    text: &mut String,
    character: char,
    count: usize,
    edge: char,
) -> Result<(), AllocError>
    ensures ok { OnOk result (string_bytes text.new ≡ string_bytes text.old ++ (encode_utf8 character ++ times count edge)) }
    ensures err { OnErr result ((some : List ℕ) × (string_bytes text.new ≡ string_bytes text.old ++ some)) }
{
    if let Some(piece) = stretch_of(character, edge)
        && count <= LINES
    {
        let left_out = (LINES - count) * edge.len_utf8();
        text.push_str(&piece[..piece.len() - left_out])?;
        return Ok(());
    }
    push_parts(text, character, count, edge)
}
