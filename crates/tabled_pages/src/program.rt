//! The program without its surroundings.

ghost use Rattle.std.specs.Prelude.{◌≡◌, ◌≢◌, ◌↔◌, ◌≤◌, ◌+◌, ℕ, List, None, length, map, string_bytes, IsSome, IfSome, IfErr, OnOk, IsErrOf};
ghost use Rattle.std.specs.Io.KnownBytes.{Appends, Consumes, IsAtEnd, Keeps};
ghost use Rattle.tabled_pages.specs.Input.{fault_of};
ghost use Rattle.tabled_pages.specs.Page.{page};
ghost use Rattle.tabled_pages.specs.Refusal.{answer_of, exit_status};
ghost use Rattle.tabled_pages.specs.Style.{style_of};

use crate::error::ShowError;
use crate::page::write_page;
use crate::read::{INPUT_LIMIT, read_input};
use crate::styles::style_of;
use std::alloc::Global;
use std::io::{Read, Write};

/// Writes the table of what is read, in the style that the words after the program's name ask for.
/// At most one byte past the limit is read, and nothing is written before the input has been found good. How much was
/// written before a write failed
/// is left open.
pub fn run<R: Read, W: Write>(
    alloc: Global,
    words: &[String],
    input: &mut R,
    output: &mut W,
) -> Result<(), ShowError>
    // Over a reader and a writer that tell their bytes: the whole input was read, and exactly its page written.
    ensures whole { OnOk result (IsAtEnd (R.remaining input.new)) }
    ensures written { OnOk result (IfSome (R.remaining input.old) (λ bytes. IfSome (style_of (map string_bytes words.now))
        (λ style. Appends (W.contents output.old) (W.contents output.new) (page style bytes)))) }

    // No more was read than one byte past the limit.
    ensures at_most { (taken : List ℕ) × Consumes (R.remaining input.old) (R.remaining input.new) taken × (length taken ≤ INPUT_LIMIT + 1) }

    // When each refusal comes.
    ensures usage { IsErrOf result ShowError.Usage ↔ (style_of (map string_bytes words.now) ≡ None) }
    ensures fault { IsSome (style_of (map string_bytes words.now)) → exit_status result ≢ 1
        → IfSome (R.remaining input.old) (λ bytes. result ≡ answer_of (fault_of bytes)) }
    ensures write_failed { IsErrOf result ShowError.WriteFailed → IfSome (R.remaining input.old) (λ bytes. fault_of bytes ≡ None) }

    // What a refusal leaves.
    ensures unread { IsErrOf result ShowError.Usage → Keeps (R.remaining input.old) (R.remaining input.new) }
    ensures unwritten { IfErr result (λ e. e ≢ ShowError.WriteFailed → Keeps (W.contents output.old) (W.contents output.new)) }
{
    let Some(style) = style_of(words) else {
        return Err(ShowError::Usage);
    };
    let bytes = read_input(alloc, input)?;
    write_page(alloc, style, &bytes, output)
}
