//! Characters that surely take one column and join nothing.

ghost use Rattle.std.specs.Prelude.{◌≡◌, ◌&&◌, nat_lt, true, IsTrue};
ghost use Rattle.unicode_width.specs.Kind.{kind};
ghost use Rattle.tabled_width.specs.Narrow.{draws_plainly, is_ambiguous_kind, is_narrow};

use unicode_width::UnicodeWidthChar;

/// Whether a character above U+00A0 takes one column, and two in an East Asian context.
fn is_ambiguous(character: char) -> bool
    ensures { result ≡ (nat_lt 0xA0 character && is_ambiguous_kind (kind character)) }
{
    let width = character.width().unwrap_or(0);
    let width_cjk = character.width_cjk().unwrap_or(0);
    (character as u32 > 0xA0) & ((width == 1) & (width_cjk == 2))
}

/// Returns whether a character is surely narrow: a printable one of ASCII, one that draws boxes or blocks (U+2500 to U+259F), or one that
/// takes one column, and two in an East Asian context, such as `·` or `•`. Each of these takes one column and joins nothing that
/// stands before it, so a border of them keeps the text of a table a rectangle.
#[tactic(auto, using(crate::proofs::Ranges::soon_narrow))]
pub fn draws_plainly(character: char) -> bool
    ensures test { result ≡ draws_plainly character }
    ensures narrow { IsTrue result → is_narrow character ≡ true }
{
    let code = character as u32;
    let in_ascii = (code >= 0x20) & (code <= 0x7E);
    let draws_boxes = (code >= 0x2500) & (code <= 0x259F);
    if in_ascii | draws_boxes {
        return true;
    }
    is_ambiguous(character)
}
