//! Numbers: a sign, an amount, an exponent and a percent sign.

ghost use Rattle.std.specs.Prelude.{◌≡◌, ◌+◌, ◌<◌, length, take, drop};
ghost use Rattle.std.specs.List.{list_all, position};
ghost use Rattle.tabled_numbers.specs.Numbers.{are_digits, is_amount, is_digit, is_exponent_letter, is_mark, is_number, is_point, is_pointed, is_scaled, is_whole, without_percent, without_sign};

/// The text without a sign at its start.
fn without_sign(text: &[u8]) -> &[u8]
    ensures { result.now ≡ without_sign text.now }
{
    match text {
        [b'+' | b'-', more @ ..] => more,
        _ => text,
    }
}

/// The text without a percent sign at its end.
fn without_percent(text: &[u8]) -> &[u8]
    ensures { result.now ≡ without_percent text.now }
{
    match text {
        [more @ .., b'%'] => more,
        _ => text,
    }
}

/// Whether the byte is a digit.
fn is_digit(byte: u8) -> bool
    ensures { result ≡ is_digit byte }
{
    48 <= byte && byte <= 57
}

/// Whether each byte of the text is a digit.
fn has_digits_alone(text: &[u8]) -> bool
    ensures { result ≡ list_all is_digit text.now }
{
    text.iter().all(|byte| is_digit(*byte))
}

/// Returns whether the text is of digits, at least one.
pub fn are_digits(text: &[u8]) -> bool
    ensures { result ≡ are_digits text.now }
{
    !text.is_empty() && has_digits_alone(text)
}

/// Where the first comma or low line stands.
fn mark_of(text: &[u8]) -> Option<usize>
    ensures { result ≡ position is_mark text.now }
{
    text.iter().position(|byte| *byte == b',' || *byte == b'_')
}

/// Where the first point stands.
fn point_of(text: &[u8]) -> Option<usize>
    ensures { result ≡ position is_point text.now }
{
    text.iter().position(|byte| *byte == b'.')
}

/// Where the first letter stands that may come before an exponent.
fn letter_of(text: &[u8]) -> Option<usize>
    ensures { result ≡ position is_exponent_letter text.now }
{
    text.iter().position(|byte| *byte == b'e' || *byte == b'E')
}

/// What stands before a byte of the text, and what stands after it.
fn cut(text: &[u8], place: usize) -> (&[u8], &[u8])
    requires { place < length text.now }
    ensures before { result.0.now ≡ take place text.now }
    ensures after { result.1.now ≡ drop (place + 1) text.now }
{
    (&text[..place], &text[place + 1..])
}

/// Whether the text is of digits, with one mark between two runs of them.
fn is_whole(text: &[u8]) -> bool
    ensures { result ≡ is_whole text.now }
{
    let mut rest = text;
    while let Some(mark) = mark_of(rest) {
        let (digits, more) = cut(rest, mark);
        if !are_digits(digits) {
            return false;
        }
        rest = more;
    }
    are_digits(rest)
}

/// Whether digits stand after a point, and nothing or a whole number before it.
fn is_pointed(whole: &[u8], fraction: &[u8]) -> bool
    ensures { result ≡ is_pointed whole.now fraction.now }
{
    (whole.is_empty() || is_whole(whole)) && are_digits(fraction)
}

/// Whether the text is a whole number, or digits after a point, before which a whole number may stand.
fn is_amount(text: &[u8]) -> bool
    ensures { result ≡ is_amount text.now }
{
    match point_of(text) {
        Some(point) => {
            let (whole, fraction) = cut(text, point);
            is_pointed(whole, fraction)
        }
        None => is_whole(text),
    }
}

/// Whether the text is an amount, after which an exponent may stand.
fn is_scaled(text: &[u8]) -> bool
    ensures { result ≡ is_scaled text.now }
{
    match letter_of(text) {
        Some(letter) => {
            let (amount, exponent) = cut(text, letter);
            is_amount(amount) && are_digits(without_sign(exponent))
        }
        None => is_amount(text),
    }
}

/// Returns whether a text is a number, as cells have them: a sign; digits, with one comma or low line between two of them, or a point and
/// digits, or both; an exponent after `e` or `E`, with a sign of its own; a percent sign. Sign, exponent and percent sign may be absent, and
/// no space stands anywhere.
///
/// So `7`, `-1,024.50`, `.5`, `1e-9` and `30%` are numbers, and `1.`, `1,,0`, `e9`, `0x1F` and `7 kg` are none.
pub fn is_number(text: &str) -> bool
    ensures { result ≡ is_number text.now }
{
    is_scaled(without_sign(without_percent(text.as_bytes())))
}
