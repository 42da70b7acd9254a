//! The program that shows tables of any input.

ghost use Rattle.std.specs.Prelude.{◌≡◌, ◌≢◌, ◌⊎◌, ◌≤◌, ◌+◌, ◌++◌, ◌∷◌, [], ℕ, List, Ok, Err, None, Some, true, false, length, map, string_bytes, IfErr, IfOk, IfSome, IsErrOf, OnOk};
ghost use Rattle.std.specs.Io.KnownBytes.{Appends, Consumes, IsAtEnd, Keeps};
ghost use Rattle.std.specs.List.{All};
ghost use Rattle.std.specs.Str.{IsUtf8};
ghost use Rattle.tabled_clean.specs.Steering.{is_clean};
ghost use Rattle.tabled_painting.specs.Painted.{Painted, plain};
ghost use Rattle.tabled_painting.specs.PaintedTable.{colored_text};
ghost use Rattle.tabled_input.specs.declared.error.InputError.TheVariants as input_refusals;
ghost use Rattle.tabled_request.specs.Words.{request_of, spread};
ghost use Rattle.tabled_request.specs.declared.error.WordsError.{WordsError as Wrong};
ghost use Rattle.tabled_request.specs.declared.request.Request.{Request as Asked};
ghost use Rattle.tabled_request.specs.declared.spread.Next.TheVariants.{Any};
ghost use Rattle.tabled_request.specs.declared.surroundings.Surroundings.{Surroundings as Told};
ghost use Rattle.tabled_width.specs.Texts.{Table};
ghost use Rattle.tabled_style.specs.declared.ready_style.ReadyStyle.{ReadyStyle as Named};
ghost use Rattle.tabled_viewing.specs.Asked.{is_about_itself, is_colored, style_asked};
ghost use Rattle.tabled_viewing.specs.Itself.{told_of_itself};
ghost use Rattle.tabled_viewing.specs.Refusal.{fault_of, status_of};
ghost use Rattle.tabled_viewing.specs.Said.{noted, said};
ghost use Rattle.tabled_viewing.specs.declared.error.ViewError.{ViewError as Refusal};
ghost use Rattle.tabled_viewing.specs.Rows.{texts_shown};
ghost use Rattle.tabled_viewing.specs.View.{FitsWidth, IsPage, IsView};
ghost use Rattle.tabled_viewing.specs.declared.notes.Notes.{Notes as Said};
ghost use Rattle.tabled_viewing.specs.declared.error.ViewError.TheVariants as refusals;

use std::alloc::{AllocError, Global};
use std::io::{Read, Write};
use tabled_border::OutOfMemory;
use tabled_request::{Request, Surroundings, spread_words};
use tabled_viewing::{Notes, ViewError, run, said, understood};

/// Over a reader and a writer that tell their bytes, the program reads the whole input and writes exactly its view, the table of its
/// cells as the request asks for it; or it says the first fault that there is: the name of the style, then the input, then its rows and the
/// columns that words name, unless memory was refused, or reading or writing failed. It reads at most one byte past 268,435,456, and a refusal but that of a
/// failed write leaves the output as it was.
pub fn page_of_the_request<R: Read, W: Write>(
    alloc: Global,
    request: Request,
    words: &[String],
    around: Surroundings,
    input: &mut R,
    output: &mut W,
) -> Result<Notes, ViewError>
    ensures whole { is_about_itself request.shows ≡ false → OnOk result (IsAtEnd (R.remaining input.new)) }
    ensures written { is_about_itself request.shows ≡ false → IfOk result (λ notes. IfSome (R.remaining input.old) (λ bytes. (text : List ℕ)
        × IsView request (map string_bytes words.now) around bytes text notes × Appends (W.contents output.old) (W.contents output.new) text)) }
    ensures good { is_about_itself request.shows ≡ false → OnOk result (IfSome (R.remaining input.old) (λ bytes. fault_of request (map string_bytes words.now) around bytes ≡ None)) }
    ensures fault { is_about_itself request.shows ≡ false → IfErr result (λ e. (e ≡ refusals.OutOfMemory) ⊎ (e ≡ refusals.Input input_refusals.ReadFailed) ⊎ (e ≡ refusals.WriteFailed)
        ⊎ IfSome (R.remaining input.old) (λ bytes. fault_of request (map string_bytes words.now) around bytes ≡ Some e)) }
    ensures write_failed { is_about_itself request.shows ≡ false → IsErrOf result refusals.WriteFailed
        → IfSome (R.remaining input.old) (λ bytes. fault_of request (map string_bytes words.now) around bytes ≡ None) }
    ensures unread { style_asked request (map string_bytes words.now) around ≡ None → Keeps (R.remaining input.old) (R.remaining input.new) }
    ensures at_most { (taken : List ℕ) × Consumes (R.remaining input.old) (R.remaining input.new) taken × (length taken ≤ 268_435_456 + 1) }
    ensures unwritten { IfErr result (λ e. e ≢ refusals.WriteFailed → Keeps (W.contents output.old) (W.contents output.new)) }
{
    run(alloc, request, words, around, input, output)
}

/// No line of a page is wider than asked for, where its texts are of printable ASCII, nothing stands above or below its table, it has no
/// color, and its table can be so narrow.
pub fn no_line_is_wider()
    ensures { (request : Asked) (style : Named) (words : List (List ℕ)) (around : Told) (rows : Table) (text : List ℕ) (notes : Said)
        → IsPage request style words around rows text notes → FitsWidth request style words around rows (texts_shown request rows) text }
{}

/// Nothing in a page steers the terminal, whatever the input and the words say, where texts are not to be left as they are: no character of its
/// cells, of its title and its footer, or of what is drawn around them; in color, none but the texts of the colors.
pub fn page_steers_nothing()
    ensures plain { (request : Asked) (words : List (List ℕ)) (around : Told) (input text : List ℕ) (notes : Said) → request.is_raw ≡ false → is_colored request around ≡ false
        → All IsUtf8 words → IsUtf8 input → IsView request words around input text notes → is_clean text ≡ true }
    ensures colored { (request : Asked) (words : List (List ℕ)) (around : Told) (input text : List ℕ) (notes : Said) → request.is_raw ≡ false → is_colored request around ≡ true
        → All IsUtf8 words → IsUtf8 input → IsView request words around input text notes
        → (text ≡ []) ⊎ ((above : List ℕ) × (below : List ℕ) × (lines : List Painted) × (text ≡ above ++ (colored_text lines ++ 10 ∷ []) ++ below)
        × (is_clean above ≡ true) × All (λ line. is_clean (plain line) ≡ true) lines × (is_clean below ≡ true)) }
{}

/// Nothing that is said of a refusal, or beside a table, steers the terminal, whatever the words say.
pub fn nothing_said_steers()
    ensures refusals { (words : List (List ℕ)) (refusal : Refusal) → All IsUtf8 words → is_clean (said words refusal) ≡ true }
    ensures notes { (notes : Said) → is_clean (noted notes) ≡ true }
{}

/// Where the program is asked about itself it writes exactly what it says of itself, and reads nothing.
pub fn asked_about_itself<R: Read, W: Write>(
    alloc: Global,
    request: Request,
    words: &[String],
    around: Surroundings,
    input: &mut R,
    output: &mut W,
) -> Result<Notes, ViewError>
    requires { is_about_itself request.shows ≡ true }
    ensures told { OnOk result (Appends (W.contents output.old) (W.contents output.new) (told_of_itself request (map string_bytes words.now))) }
    ensures refused { IfErr result (λ e. (e ≡ refusals.OutOfMemory) ⊎ (e ≡ refusals.WriteFailed)) }
    ensures unread { Keeps (R.remaining input.old) (R.remaining input.new) }
{
    run(alloc, request, words, around, input, output)
}

/// Words are taken as if each `--x=y`, where `--x` is the name of an option that takes a value, stood as two.
pub fn words_stand_apart(alloc: Global, words: &[String]) -> Result<Vec<String>, AllocError>
    ensures { IfOk result (λ all. map string_bytes all.items ≡ spread Any (map string_bytes words.now)) }
{
    spread_words(alloc, words)
}

/// What words ask for is what they ask for one after the other; the first that is wrong is the refusal.
pub fn words_understood(words: &[String]) -> Result<Request, ViewError>
    ensures request { IfOk result (λ request. request_of (map string_bytes words.now) ≡ Ok request) }
    ensures refused { IfErr result (λ e. (refusal : Wrong) × (e ≡ refusals.Words refusal) × (request_of (map string_bytes words.now) ≡ Err refusal)) }
{
    understood(words)
}

/// Each refusal has its text.
pub fn text_of_a_refusal(
    alloc: Global,
    words: &[String],
    refusal: ViewError,
) -> Result<String, OutOfMemory>
    ensures { IfOk result (λ text. string_bytes text ≡ said (map string_bytes words.now) refusal) }
{
    said(alloc, words, refusal)
}

/// Each refusal has its status.
pub fn status_of_a_refusal(refusal: &ViewError) -> u8
    ensures { result ≡ status_of refusal.now }
{
    refusal.status()
}
