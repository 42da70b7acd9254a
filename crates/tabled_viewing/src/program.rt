//! The program without its surroundings.

ghost use Rattle.std.specs.Prelude.{◌≡◌, ◌≢◌, ◌⊎◌, ◌≤◌, ◌+◌, ℕ, List, None, Some, true, false, length, map, string_bytes, IfErr, IfOk, IfSome, IsErrOf, OnOk};
ghost use Rattle.std.specs.Io.KnownBytes.{Appends, Consumes, IsAtEnd, Keeps};
ghost use Rattle.tabled_input.specs.declared.error.InputError.TheVariants as input_refusals;
ghost use Rattle.tabled_input.specs.declared.read.TheConstants.{INPUT_LIMIT};
ghost use Rattle.tabled_viewing.specs.Asked.{is_about_itself, style_asked};
ghost use Rattle.tabled_viewing.specs.Itself.{told_of_itself};
ghost use Rattle.tabled_viewing.specs.Refusal.{fault_of};
ghost use Rattle.tabled_viewing.specs.View.{IsView};
ghost use Rattle.tabled_viewing.specs.declared.error.ViewError.TheVariants as refusals;

use crate::asked::{cells_asked, is_about_itself, style_asked};
use crate::error::ViewError;
use crate::notes::Notes;
use crate::page::write_page;
use crate::texts::told_of_itself;
use std::alloc::Global;
use std::io::{Read, Write};
use tabled_input::Input;
use tabled_request::{Request, Surroundings};

/// Writes a text whole. How much was written before a write failed is left open.
fn write_text<W: Write>(output: &mut W, text: &str) -> Result<(), ViewError>
    ensures written { OnOk result (Appends (W.contents output.old) (W.contents output.new) text.now) }
    ensures refused { IfErr result (λ e. e ≡ refusals.WriteFailed) }
{
    match output.write_all(text.as_bytes()) {
        Ok(()) => Ok(()),
        Err(_) => Err(ViewError::WriteFailed),
    }
}

/// Writes the table of what is read, as the request asks for it. Nothing is written before all else was found good.
fn view<R: Read, W: Write>(
    alloc: Global,
    request: Request,
    words: &[String],
    around: Surroundings,
    input: &mut R,
    output: &mut W,
) -> Result<Notes, ViewError>
    ensures whole { OnOk result (IsAtEnd (R.remaining input.new)) }
    ensures written { IfOk result (λ notes. IfSome (R.remaining input.old) (λ bytes. (text : List ℕ)
        × IsView request (map string_bytes words.now) around bytes text notes × Appends (W.contents output.old) (W.contents output.new) text)) }
    ensures good { OnOk result (IfSome (R.remaining input.old) (λ bytes. fault_of request (map string_bytes words.now) around bytes ≡ None)) }
    ensures refused { IfErr result (λ e. (e ≡ refusals.OutOfMemory) ⊎ (e ≡ refusals.Input input_refusals.ReadFailed) ⊎ (e ≡ refusals.WriteFailed)
        ⊎ IfSome (R.remaining input.old) (λ bytes. fault_of request (map string_bytes words.now) around bytes ≡ Some e)) }
    ensures write_failed { IsErrOf result refusals.WriteFailed → IfSome (R.remaining input.old) (λ bytes. fault_of request (map string_bytes words.now) around bytes ≡ None) }
    ensures unread { style_asked request (map string_bytes words.now) around ≡ None → Keeps (R.remaining input.old) (R.remaining input.new) }
    ensures at_most { (taken : List ℕ) × Consumes (R.remaining input.old) (R.remaining input.new) taken × (length taken ≤ INPUT_LIMIT + 1) }
    ensures unwritten { IfErr result (λ e. e ≢ refusals.WriteFailed → Keeps (W.contents output.old) (W.contents output.new)) }
{
    let style = style_asked(request, words, around)?;
    let read = Input::read(alloc, cells_asked(request, words), input)?;
    let rows = read.rows(alloc)?;
    write_page(alloc, request, style, words, around, rows, output)
}

/// Writes what the program says of itself.
fn tell<W: Write>(
    alloc: Global,
    request: Request,
    words: &[String],
    output: &mut W,
) -> Result<(), ViewError>
    ensures written { OnOk result (Appends (W.contents output.old) (W.contents output.new) (told_of_itself request (map string_bytes words.now))) }
    ensures refused { IfErr result (λ e. (e ≡ refusals.OutOfMemory) ⊎ (e ≡ refusals.WriteFailed)) }
    ensures unwritten { IfErr result (λ e. e ≢ refusals.WriteFailed → Keeps (W.contents output.old) (W.contents output.new)) }
{
    let text = told_of_itself(alloc, request, words)?;
    write_text(output, text.as_str())
}

/// Writes what the request asks for: the table of what is read, or what the program says of itself; returns what is said beside it. At most one byte past the limit of
/// 268,435,456 bytes is read. Nothing is written before all else was found good; how much was written before a write failed is left open.
pub fn run<R: Read, W: Write>(
    alloc: Global,
    request: Request,
    words: &[String],
    around: Surroundings,
    input: &mut R,
    output: &mut W,
) -> Result<Notes, ViewError>
    // Over a reader and a writer that tell their bytes: the whole input was read, and exactly its page written.
    ensures whole { is_about_itself request.shows ≡ false → OnOk result (IsAtEnd (R.remaining input.new)) }
    ensures written { is_about_itself request.shows ≡ false → IfOk result (λ notes. IfSome (R.remaining input.old) (λ bytes. (text : List ℕ)
        × IsView request (map string_bytes words.now) around bytes text notes × Appends (W.contents output.old) (W.contents output.new) text)) }

    // Where the program is asked about itself, exactly what it says of itself was written.
    ensures told { is_about_itself request.shows ≡ true → OnOk result (Appends (W.contents output.old) (W.contents output.new) (told_of_itself request (map string_bytes words.now))) }
    ensures unasked { is_about_itself request.shows ≡ true → Keeps (R.remaining input.old) (R.remaining input.new) }

    // When each refusal comes.
    ensures good { is_about_itself request.shows ≡ false → OnOk result (IfSome (R.remaining input.old) (λ bytes. fault_of request (map string_bytes words.now) around bytes ≡ None)) }
    ensures refused { is_about_itself request.shows ≡ false → IfErr result (λ e. (e ≡ refusals.OutOfMemory) ⊎ (e ≡ refusals.Input input_refusals.ReadFailed) ⊎ (e ≡ refusals.WriteFailed)
        ⊎ IfSome (R.remaining input.old) (λ bytes. fault_of request (map string_bytes words.now) around bytes ≡ Some e)) }
    ensures untold { is_about_itself request.shows ≡ true → IfErr result (λ e. (e ≡ refusals.OutOfMemory) ⊎ (e ≡ refusals.WriteFailed)) }
    ensures write_failed { is_about_itself request.shows ≡ false → IsErrOf result refusals.WriteFailed
        → IfSome (R.remaining input.old) (λ bytes. fault_of request (map string_bytes words.now) around bytes ≡ None) }

    // What a refusal leaves.
    ensures unread { style_asked request (map string_bytes words.now) around ≡ None → Keeps (R.remaining input.old) (R.remaining input.new) }
    ensures at_most { (taken : List ℕ) × Consumes (R.remaining input.old) (R.remaining input.new) taken × (length taken ≤ INPUT_LIMIT + 1) }
    ensures unwritten { IfErr result (λ e. e ≢ refusals.WriteFailed → Keeps (W.contents output.old) (W.contents output.new)) }
{
    if is_about_itself(request) {
        tell(alloc, request, words, output)?;
        return Ok(Notes::none());
    }
    view(alloc, request, words, around, input, output)
}
