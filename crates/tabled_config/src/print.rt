//! Prints padded cells in their frame as plain text.

ghost use Rattle.std.specs.Prelude.{◌≡◌, ℕ, ◌≤◌, ◌<◌, ◌++◌, [], ◌∷◌, false, OnOk, OnErr, IfOk, MatchOption, IsOkUnless, List, length, map, string_bytes, slice_index_or};
ghost use Rattle.std.specs.List.{All, flat_map, join_with_byte};
ghost use Rattle.tabled_configuration.specs.Configuration.{ConfigEvent, Shows, all_writes};
ghost use Rattle.tabled_width.specs.Texts.{Appends, texts};
ghost use Rattle.tabled_places.specs.declared.site.Direction.TheVariants.{Vertical};
ghost use Rattle.tabled_printing.specs.Alike.{NoOffsetsAt};
ghost use Rattle.tabled_printing.specs.Pieces.{lent, first_piece, after_first_piece};
ghost use Rattle.tabled_printing.specs.Picture.{look, text_shown, side_shown, line_of_pieces, row_lines, line_if_drawn, text_lines, printed};
ghost use Rattle.tabled_config.specs.Refusal as refusal;
ghost use Rattle.tabled_printing.specs.Viewed.{frame_look};

use crate::PrintError;
use crate::refusals::first_refusal;
use std::alloc::{AllocError, Global};
use tabled_border::OutOfMemory;
use tabled_configuration::SpannedConfig;
use tabled_kept::Probes;
use tabled_object::Dimension;
use tabled_printing::{Frame, printed_as};

/// The piece of a text before its first line feed, and the text after that; without one the whole text, and nothing.
fn cut(text: &str) -> (&str, &str)
    ensures piece { result.0.now ≡ first_piece text.now }
    ensures rest { result.1.now ≡ after_first_piece text.now }
{
    match text.split_once('\n') {
        Some(parts) => parts,
        None => (text, ""),
    }
}

/// The texts of cells, lent.
fn whole_texts(alloc: Global, cells: &[String]) -> Result<Vec<&str>, OutOfMemory>
    ensures { IfOk result (λ rests. lent rests.items ≡ map string_bytes cells.now) }
{
    let mut rests = Vec::with_capacity(alloc, cells.len())?;
    for cell in cells {
        rests.push(cell.as_str())?;
    }
    Ok(rests)
}

/// Writes a horizontal line and a line feed, if the line is drawn.
#[tactic(auto, using(crate::proofs::TextLemmas::writing))]
fn push_line<D: Dimension>(
    text: &mut String,
    frame: &Frame<D>,
    row: usize,
) -> Result<(), OutOfMemory>
    requires { row ≤ frame.now.shape.0 }
    ensures { let view = frame_look D.width_of D.height_of frame.now in
        Appends result text.old text.new (flat_map (λ line. line ++ 10 ∷ []) (line_if_drawn view row)) }
{
    if frame.draws(row) {
        frame.put_line(row, text, &mut Probes::new())?;
        text.push('\n')?;
    }
    Ok(())
}

/// Writes the character of a vertical line at one line of text of a row, if the line is drawn.
fn push_side<D: Dimension>(
    text: &mut String,
    frame: &Frame<D>,
    row: usize,
    col: usize,
    at: usize,
    has_offsets: bool,
) -> Result<(), AllocError>
    requires row { row < frame.now.shape.0 }
    requires col { col ≤ frame.now.shape.1 }
    requires at { at < D.height_of frame.now.dims.now row }
    requires offsets { has_offsets ≡ false → NoOffsetsAt frame.now.cfg.now frame.now.with_colors Vertical row }
    ensures { let view = frame_look D.width_of D.height_of frame.now in
        Appends result text.old text.new (text_shown (side_shown view row at col)) }
{
    if let Some(mark) = frame.side(row, col, at, has_offsets) {
        text.push(printed_as(mark.shown))?;
    }
    Ok(())
}

/// Writes one line of text of a row, and takes the first piece off the rest of each cell's text.
#[tactic(auto, using(crate::proofs::TextLemmas::writing))]
fn push_pieces<D: Dimension>(
    text: &mut String,
    frame: &Frame<D>,
    row: usize,
    rests: &mut [&str],
    at: usize,
) -> Result<(), AllocError>
    requires rests { length rests.old ≡ frame.now.shape.1 }
    requires row { row < frame.now.shape.0 }
    requires at { at < D.height_of frame.now.dims.now row }
    ensures written { let view = frame_look D.width_of D.height_of frame.now in
        Appends result text.old text.new (line_of_pieces view row at (λ c. first_piece (slice_index_or (lent rests.old) c []))) }
    ensures rests { OnOk result ((c : ℕ) → slice_index_or (lent rests.new) c [] ≡ after_first_piece (slice_index_or (lent rests.old) c [])) }
{
    let (_, cols) = frame.shape;
    let has_offsets = frame.has_offsets_beside(row);
    for col in 0..cols {
        push_side(text, frame, row, col, at, has_offsets)?;
        let (piece, rest) = cut(rests[col]);
        text.push_str(piece)?;
        rests[col] = rest;
    }
    push_side(text, frame, row, cols, at, has_offsets)
}

/// Writes the lines of text of a row, each with a line feed.
#[tactic(auto, using(crate::proofs::TextLemmas::writing))]
fn push_row<D: Dimension>(
    text: &mut String,
    frame: &Frame<D>,
    row: usize,
    cells: &[String],
) -> Result<(), OutOfMemory>
    requires cells { length cells.now ≡ frame.now.shape.1 }
    requires row { row < frame.now.shape.0 }
    ensures { let view = frame_look D.width_of D.height_of frame.now in
        Appends result text.old text.new (flat_map (λ line. line ++ 10 ∷ []) (row_lines view row (map string_bytes cells.now))) }
{
    let mut rests = whole_texts(frame.cfg.allocator(), cells)?;
    for at in 0..frame.dims.get_height(row) {
        push_pieces(text, frame, row, &mut rests, at)?;
        text.push('\n')?;
    }
    Ok(())
}

/// Writes the lines of a table, each with a line feed.
#[tactic(auto, using(crate::proofs::TextLemmas::writing))]
fn push_table<D: Dimension>(
    text: &mut String,
    frame: &Frame<D>,
    rows: &[Vec<String>],
) -> Result<(), OutOfMemory>
    requires rows { length rows.now ≡ frame.now.shape.0 }
    requires cols { All (λ row. length row ≡ frame.now.shape.1) (texts rows.now) }
    ensures { let view = frame_look D.width_of D.height_of frame.now in
        Appends result text.old text.new (flat_map (λ line. line ++ 10 ∷ []) (text_lines view (texts rows.now))) }
{
    for (row, cells) in rows.iter().enumerate() {
        push_line(text, frame, row)?;
        push_row(text, frame, row, cells)?;
    }
    push_line(text, frame, rows.len())
}

/// Writes the lines of a table, each with a line feed. A table without rows or columns has none.
fn push_lines<D: Dimension>(
    text: &mut String,
    cfg: &SpannedConfig,
    dims: &D,
    shape: (usize, usize),
    rows: &[Vec<String>],
) -> Result<(), OutOfMemory>
    requires rows { length rows.now ≡ shape.0 }
    requires cols { All (λ row. length row ≡ shape.1) (texts rows.now) }
    ensures { Appends result text.old text.new (flat_map (λ line. line ++ 10 ∷ [])
        (text_lines (look (all_writes cfg.now) shape (D.width_of dims.now) (D.height_of dims.now)) (texts rows.now))) }
{
    if shape.0 == 0 || shape.1 == 0 {
        return Ok(());
    }
    let frame = Frame::new(cfg, dims, shape, false)?;
    push_table(text, &frame, rows)
}

/// Writes a table after the text that `out` has: `shape` is the number of its rows and of its columns.
/// Its lines are joined by single line feeds. Where it is refused `out` is as before.
#[tactic(auto, using(crate::proofs::FaultLemmas::no_faults, crate::proofs::FaultLemmas::right_columns))]
pub fn print_plain<D: Dimension>(
    out: &mut String,
    cfg: &SpannedConfig,
    dims: &D,
    shape: (usize, usize),
    cells: &[Vec<String>],
) -> Result<(), PrintError>
    ensures text { (es : List ConfigEvent) → Shows es cfg.now → OnOk result (string_bytes out.new ≡ string_bytes out.old ++ printed es shape (D.width_of dims.now) (D.height_of dims.now) (texts cells.now)) }
    ensures unchanged { OnErr result (string_bytes out.new ≡ string_bytes out.old) }
    ensures refusal { MatchOption (refusal.first_refusal cfg.now shape (D.width_of dims.now) (D.height_of dims.now) (texts cells.now)) (IsOkUnless result PrintError.OutOfMemory) (λ e. result ≡ Err e) }
{
    if let Some(fault) = first_refusal(cfg, dims, shape, cells) {
        return Err(fault);
    }
    let start = out.len();
    if push_lines(out, cfg, dims, shape, cells).is_err() {
        out.truncate(start);
        return Err(PrintError::OutOfMemory);
    }
    join_lines(out, start);
    Ok(())
}

/// Takes the last line feed off lines that each end in one, so that they are joined: those that stand in a text after its first
/// `start` bytes.
pub fn join_lines(text: &mut String, start: usize)
    ensures { (before : List ℕ) (lines : List (List ℕ)) → length before ≡ start → string_bytes text.old ≡ before ++ flat_map (λ line. line ++ 10 ∷ []) lines
        → string_bytes text.new ≡ before ++ join_with_byte 10 lines }
{
    if start < text.len() {
        let _feed = text.pop();
    }
}
