//! Numbers in words.

ghost use Rattle.std.specs.Prelude.{◌≡◌, ◌≤◌, IfSome};
ghost use Rattle.tabled_request.specs.Numerals.{from_one, number_of, value_of};

use tabled_numbers::are_digits;

/// The greatest number that is told apart: a greater one counts as this one.
pub const MOST: usize = 999_999_999;

/// The number that digits write.
fn value_of(digits: &[u8]) -> usize
    ensures value { result ≡ value_of digits.now }
    ensures at_most { result ≤ MOST }
{
    let mut value = 0;
    for byte in digits {
        let digit = usize::from(byte.saturating_sub(b'0'));
        value = (value * 10 + digit).min(MOST);
    }
    value
}

/// The number that bytes write, if they are digits alone. A number of more than 999,999,999 counts as that.
#[tactic(auto, unfolding(crate::specs::Numerals::number_of))]
pub(crate) fn number_in(bytes: &[u8]) -> Option<usize>
    ensures value { result ≡ number_of bytes.now }
    ensures at_most { IfSome result (λ number. number ≤ MOST) }
{
    if !are_digits(bytes) {
        return None;
    }
    Some(value_of(bytes))
}

/// Returns the number that a word writes, if it is of digits alone. A number of more than 999,999,999 counts as that.
pub fn number_of(word: &str) -> Option<usize>
    ensures value { result ≡ number_of word.now }
    ensures at_most { IfSome result (λ number. number ≤ MOST) }
{
    number_in(word.as_bytes())
}

/// A number, if it is one from 1 on.
pub(crate) fn from_one(number: Option<usize>) -> Option<usize>
    ensures { result ≡ from_one number }
{
    match number {
        Some(number) if 1 <= number => Some(number),
        _ => None,
    }
}
