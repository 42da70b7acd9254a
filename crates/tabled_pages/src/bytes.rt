//! The bytes that an input may have.

ghost use Rattle.std.specs.Prelude.{◌≡◌, true, false, IfErr, IfOk, OnErr, OnOk};
ghost use Rattle.std.specs.List.{list_all};
ghost use Rattle.tabled_pages.specs.Input.{is_allowed};

use crate::error::ShowError;

/// The byte between two cells of a row.
pub const TAB: u8 = b'\t';

/// The byte that ends a line.
pub const LINE_FEED: u8 = b'\n';

/// The first byte that a cell may have.
pub const FIRST_PRINTABLE: u8 = b' ';

/// The last byte that a cell may have.
pub const LAST_PRINTABLE: u8 = b'~';

/// Whether an input may have this byte.
fn is_allowed(b: u8) -> bool
    ensures { result ≡ is_allowed b }
{
    (FIRST_PRINTABLE..=LAST_PRINTABLE).contains(&b) || b == TAB || b == LINE_FEED
}

/// Whether an input may have each of these bytes.
fn are_allowed(input: &[u8]) -> bool
    ensures { result ≡ list_all is_allowed input.now }
{
    // no early end, so that several bytes are tested at once
    let mut all = true;
    for byte in input {
        all &= is_allowed(*byte);
    }
    all
}

/// Returns an input as a text. Refused where it has a byte that it may not have.
pub fn as_text(input: &[u8]) -> Result<&str, ShowError>
    ensures text { IfOk result (λ text. text.now ≡ input.now) }
    ensures allowed { OnOk result (list_all is_allowed input.now ≡ true) }
    ensures refused { OnErr result (list_all is_allowed input.now ≡ false) }
    ensures refusal { IfErr result (λ e. e ≡ ShowError.ByteOutOfRange) }
{
    if !are_allowed(input) {
        return Err(ShowError::ByteOutOfRange);
    }
    Ok(str::from_utf8(input).unwrap())
}
