//! The program.

ghost use Rattle.std.specs.Prelude.{◌≡◌, ◌≢◌, ◌==◌, ◌↔◌, ◌≤◌, ◌+◌, ℕ, List, None, length, map, string_bytes, true, IsSome, IfSome, IfErr, OnOk, IsErrOf};
ghost use Rattle.std.specs.Io.KnownBytes.{Appends, Consumes, IsAtEnd, Keeps};
ghost use Rattle.std.specs.List.{list_all};
ghost use Rattle.tabled_object.specs.Entities.{below};
ghost use Rattle.tabled_width.specs.Texts.{width_of_text};
ghost use Rattle.tabled_painting.specs.Widths.{text_width};
ghost use Rattle.tabled_style.specs.declared.ready_style.ReadyStyle.{ReadyStyle as Named};
ghost use Rattle.tabled_measure.specs.Cells.{margin_set};
ghost use Rattle.tabled_text.specs.TextTable.{look_of};
ghost use Rattle.tabled_measure.specs.Sizes.{cell, column_count, column_widths, greatest, row_heights};
ghost use Rattle.tabled_pages.specs.Input.{fault_of, is_allowed, lines_of, rows_of};
ghost use Rattle.tabled_pages.specs.Page.{page};
ghost use Rattle.tabled_pages.specs.Refusal.{answer_of, exit_status};
ghost use Rattle.tabled_pages.specs.Style.{style_of, styled};
ghost use Rattle.tabled_pages.specs.declared.error.ShowError.{ShowError as Fault};

use std::alloc::Global;
use std::io::{Read, Write};
use tabled_pages::{ShowError, run};

/// Over a reader and a writer that tell their bytes, the program reads the whole input and writes exactly its page in the style
/// that its words name, or says which fault there is; it reads at most one byte past 16,777,216, and a refusal but that of a
/// failed write leaves the output as it was.
pub fn page_of_the_input<R: Read, W: Write>(
    alloc: Global,
    words: &[String],
    input: &mut R,
    output: &mut W,
) -> Result<(), ShowError>
    ensures whole { OnOk result (IsAtEnd (R.remaining input.new)) }
    ensures written { OnOk result (IfSome (R.remaining input.old) (λ bytes. IfSome (style_of (map string_bytes words.now))
        (λ style. Appends (W.contents output.old) (W.contents output.new) (page style bytes)))) }
    ensures at_most { (taken : List ℕ) × Consumes (R.remaining input.old) (R.remaining input.new) taken × (length taken ≤ 16_777_216 + 1) }
    ensures usage { IsErrOf result Fault.Usage ↔ (style_of (map string_bytes words.now) ≡ None) }
    ensures fault { IsSome (style_of (map string_bytes words.now)) → exit_status result ≢ 1
        → IfSome (R.remaining input.old) (λ bytes. result ≡ answer_of (fault_of bytes)) }
    ensures write_failed { IsErrOf result Fault.WriteFailed → IfSome (R.remaining input.old) (λ bytes. fault_of bytes ≡ None) }
    ensures unread { IsErrOf result Fault.Usage → Keeps (R.remaining input.old) (R.remaining input.new) }
    ensures unwritten { IfErr result (λ e. e ≢ Fault.WriteFailed → Keeps (W.contents output.old) (W.contents output.new)) }
{
    run(alloc, words, input, output)
}

/// Where an input has allowed bytes alone, each of its rows is one line high, and each column as wide as its longest cell with
/// a space on each side.
pub fn one_line_a_row()
    ensures heights { (input : List ℕ) → list_all is_allowed input ≡ true → row_heights (rows_of input) ≡ map (λ row. 1) (rows_of input) }
    ensures widths { (input : List ℕ) → list_all is_allowed input ≡ true
        → column_widths (rows_of input) ≡ map (λ col. greatest (map (λ row. length (cell row col) + 2) (rows_of input))) (below (column_count (rows_of input))) }
{}

/// Every page that the program writes is a rectangle: each of its lines, which end in line feeds, takes as many columns of the terminal as
/// the others.
pub fn page_is_a_rectangle()
    ensures { (style : Named) (input : List ℕ) → fault_of input ≡ None → let rows = rows_of input in
        list_all (λ line. width_of_text line == text_width (look_of (styled style) rows) (margin_set (styled style))) (lines_of (page style input)) ≡ true }
{}
