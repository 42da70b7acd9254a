//! Which characters of a line belong together.

ghost use Rattle.std.specs.Prelude.{◌≡◌, ◌<◌, ◌≤◌, [], ◌∷◌, ◌++◌, length, encode_utf8, chars, MatchOption, IfSome, ◌||◌, ◌&&◌, ◌==◌};
ghost use Rattle.tabled_width.specs.Clusters.{clusters, IsAfterCluster, is_indicator, is_skin_tone, takes_none};
ghost use Rattle.tabled_width.specs.Marks.{is_spacing_mark};
ghost use Rattle.tabled_width.specs.Texts.{begins_with};

use crate::marks::is_spacing_mark;
use unicode_width::UnicodeWidthChar;

/// Zero width joiner: what follows it stays with what precedes it.
const JOINER: char = '\u{200D}';

/// Variation selector 16, which asks for a colored picture of the character before it.
const EMOJI_SELECTOR: char = '\u{FE0F}';

/// The first character of a text and what follows it.
fn first_character(text: &str) -> Option<(char, &str)>
    ensures { MatchOption result ((chars text.now ≡ []) × (text.now ≡ []))
        (λ (character, rest). (chars text.now ≡ character ∷ chars rest.now) × (text.now ≡ encode_utf8 character ++ rest.now)
        × (length rest.now < length text.now)) }
{
    let mut characters = text.chars();
    match characters.next() {
        Some(character) => Some((character, characters.as_str())),
        None => None,
    }
}

/// Whether a text begins with U+FE0F, which can make what stands before it wider.
pub(crate) fn starts_with_selector(text: &str) -> bool
    ensures { result ≡ begins_with 0xFE0F (chars text.now) }
{
    match first_character(text) {
        Some((character, _)) => character == EMOJI_SELECTOR,
        None => false,
    }
}

/// Whether a character takes no columns of its own. A control character takes one.
fn takes_none(character: char) -> bool
    ensures { result ≡ takes_none character }
{
    character.width().unwrap_or(1) == 0
}

/// Whether a character is one of the five skin tones of emoji.
fn is_skin_tone(character: char) -> bool
    ensures { result ≡ is_skin_tone character }
{
    matches!(character, '\u{1F3FB}'..='\u{1F3FF}')
}

/// Whether a character is a regional indicator, of which two make a flag.
fn is_indicator(character: char) -> bool
    ensures { result ≡ is_indicator character }
{
    matches!(character, '\u{1F1E6}'..='\u{1F1FF}')
}

/// Whether a character belongs to the cluster before it, which ends with `last`.
fn belongs(is_half_flag: bool, last: char, character: char) -> bool
    ensures { result ≡ (takes_none character || is_skin_tone character || (last == 0x200D) || (is_half_flag && is_indicator character)
        || is_spacing_mark character) }
{
    takes_none(character)
        || is_skin_tone(character)
        || last == JOINER
        || (is_half_flag && is_indicator(character))
        || is_spacing_mark(character)
}

/// What follows the cluster of which a character is the first, where the rest of the line follows that character.
fn after_cluster(first: char, rest: &str) -> &str
    ensures cluster { IsAfterCluster first rest.now result.now }
    ensures short { length result.now ≤ length rest.now }
{
    let mut left = rest;
    let mut last = first;
    let mut is_half_flag = is_indicator(first);
    while let Some((character, more)) = first_character(left) {
        if !belongs(is_half_flag, last, character) {
            return left;
        }
        last = character;
        is_half_flag = false;
        left = more;
    }
    left
}

/// Returns the first cluster of a line and what follows it; `None` where the line is empty.
///
/// A cluster is a character with what belongs to it: characters that take no columns of their own, such as accents, variation
/// selectors and U+200D; spacing marks, as the vowel signs of Bengali, Devanagari and Tamil; the skin tone of an emoji; what follows
/// U+200D; and of a flag the second regional indicator. A character that belongs to another is a cluster by itself where no other
/// stands before it. A tab is a cluster of one column.
pub fn first_cluster(line: &str) -> Option<(&str, &str)>
    ensures clusters { MatchOption result (clusters line.now ≡ [])
        (λ parts. clusters line.now ≡ parts.0.now ∷ clusters parts.1.now) }
    ensures whole { MatchOption result (line.now ≡ []) (λ parts. line.now ≡ parts.0.now ++ parts.1.now) }
    ensures shorter { IfSome result (λ parts. length parts.1.now < length line.now) }
{
    let Some((first, rest)) = first_character(line) else {
        return None;
    };
    let end = line.len() - after_cluster(first, rest).len();
    Some((&line[..end], &line[end..]))
}
