//! Writes a character many times.

ghost use Rattle.std.specs.Prelude.{◌≡◌, ◌<◌, ◌≤◌, ◌++◌, ℕ, IfSome, OnErr, OnOk, string_bytes};
ghost use Rattle.std.specs.Char.{encode_utf8};
ghost use Rattle.tabled_width.specs.Texts.{times};

use std::alloc::AllocError;

/// How many characters the texts have from which pieces of a character are taken.
const PIECE: usize = 64;

const SPACES: &str = "                                                                ";

const HYPHENS: &str = "----------------------------------------------------------------";

const LINES: &str = "────────────────────────────────────────────────────────────────";

const DOUBLE_LINES: &str = "════════════════════════════════════════════════════════════════";

/// How many characters of ASCII, which are a byte each, are written one by one before what was written is copied.
const FEW: usize = 16;

/// Returns a text of one character alone, 64 times: of those that tables are mostly drawn with.
#[tactic(auto, using(crate::proofs::Tiles::bytes_3))]
pub fn piece_of(character: char) -> Option<&'static str>
    ensures { IfSome result (λ piece. piece.now ≡ times 64 character) }
{
    match character {
        ' ' => Some(SPACES),
        '-' => Some(HYPHENS),
        '─' => Some(LINES),
        '═' => Some(DOUBLE_LINES),
        _ => None,
    }
}

/// Writes the given number of characters of a text that has this character alone.
#[tactic(auto, using(crate::proofs::TimesLemmas::part_of, crate::proofs::TimesLemmas::bytes_of_each, crate::proofs::TimesLemmas::part_split))]
fn push_part(
    text: &mut String,
    piece: &str,
    count: usize,
    _character: char,
) -> Result<(), AllocError>
    requires within { count ≤ 64 }
    requires piece { piece.now ≡ times 64 _character }
    ensures ok { OnOk result (string_bytes text.new ≡ string_bytes text.old ++ times count _character) }
    ensures err { OnErr result (string_bytes text.new ≡ string_bytes text.old) }
{
    let bytes = piece.len() / PIECE;
    text.push_str(&piece[..count * bytes])?;
    Ok(())
}

/// Writes a character the given number of times, as pieces of a text that has it alone.
fn push_pieces(
    text: &mut String,
    piece: &str,
    count: usize,
    character: char,
) -> Result<(), AllocError>
    requires { piece.now ≡ times 64 character }
    ensures ok { OnOk result (string_bytes text.new ≡ string_bytes text.old ++ times count character) }
    ensures err { OnErr result ((some : ℕ) × (string_bytes text.new ≡ string_bytes text.old ++ times some character)) }
{
    let mut left = count;
    while left > PIECE {
        push_part(text, piece, PIECE, character)?;
        left -= PIECE;
    }
    push_part(text, piece, left, character)?;
    Ok(())
}

/// Writes a character the given number of times, each by itself.
#[tactic(auto, using(crate::proofs::TimesLemmas::one_more))]
fn push_each(text: &mut String, count: usize, character: char) -> Result<(), AllocError>
    ensures ok { OnOk result (string_bytes text.new ≡ string_bytes text.old ++ times count character) }
    ensures err { OnErr result ((some : ℕ) × (string_bytes text.new ≡ string_bytes text.old ++ times some character)) }
{
    for _ in 0..count {
        text.push(character)?;
    }
    Ok(())
}

/// How many times a character that is wanted so often is written by itself, before what was written is copied.
fn first_ones(character: char, count: usize) -> usize
    ensures within { result ≤ count }
    ensures some { 0 < count → 0 < result }
{
    let few = if character.is_ascii() { FEW } else { 1 };
    few.min(count)
}

/// Writes a character the given number of times: the first ones, and then copies of what was written.
#[tactic(auto, using(crate::proofs::TimesLemmas::copies))]
fn push_copies(text: &mut String, count: usize, character: char) -> Result<(), AllocError>
    ensures ok { OnOk result (string_bytes text.new ≡ string_bytes text.old ++ times count character) }
    ensures err { OnErr result ((some : ℕ) × (string_bytes text.new ≡ string_bytes text.old ++ times some character)) }
{
    let mut written = first_ones(character, count);
    push_each(text, written, character)?;
    while written < count {
        let more = written.min(count - written);
        let start = text.len() - more * character.len_utf8();
        text.extend_from_within(start..)?;
        written += more;
    }
    Ok(())
}

/// Writes a character the given number of times.
fn push_many(text: &mut String, count: usize, character: char) -> Result<(), AllocError>
    ensures ok { OnOk result (string_bytes text.new ≡ string_bytes text.old ++ times count character) }
    ensures err { OnErr result ((some : ℕ) × (string_bytes text.new ≡ string_bytes text.old ++ times some character)) }
{
    match piece_of(character) {
        Some(piece) => push_pieces(text, piece, count, character),
        None => push_copies(text, count, character),
    }
}

/// Writes a character the given number of times: up to twice by itself, in line, and more often as copies. Where memory is refused it may
/// have been written fewer times.
#[inline(always)]
pub fn push_times(text: &mut String, count: usize, character: char) -> Result<(), AllocError>
    ensures ok { OnOk result (string_bytes text.new ≡ string_bytes text.old ++ times count character) }
    ensures err { OnErr result ((some : ℕ) × (string_bytes text.new ≡ string_bytes text.old ++ times some character)) }
{
    if count <= 2 {
        return push_each(text, count, character);
    }
    push_many(text, count, character)
}
