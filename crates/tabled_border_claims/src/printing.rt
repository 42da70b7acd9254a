//! The plain printer.

ghost use Rattle.std.specs.Prelude.{◌≡◌, ◌==◌, ◌+◌, ◌*◌, ◌<◌, ◌≤◌, ℕ, true, false, if◌then◌else◌, List, [], ◌∷◌, ◌++◌, length, map, Some, None, option_map, slice_get, slice_index_or, IfOk, OnOk, OnErr, IsOkUnless, MatchOption, MatchResult, string_bytes};
ghost use Rattle.std.specs.List.{flat_map, join_with_byte, list_all};
ghost use Rattle.std.specs.Str.{IsUtf8};
ghost use Rattle.tabled_places.specs.declared.place.LineOf.{LineOf as Line};
ghost use Rattle.tabled_places.specs.declared.place.Place.{Place as Spot};
ghost use Rattle.tabled_kept.specs.Probing.{IsRaised};
ghost use Rattle.tabled_configuration.specs.Configuration.{ConfigEvent, Shows, all_writes};
ghost use Rattle.tabled_printing.specs.Along.{along, is_empty};
ghost use Rattle.tabled_printing.specs.Alike.{IsBareLine, NoneForColumns};
ghost use Rattle.tabled_width.specs.Narrow.{stands_apart};
ghost use Rattle.tabled_printing.specs.Columns.{StandsStraight, WritesNarrow, table_width};
ghost use Rattle.tabled_printing.specs.LinePieces.{lines_met};
ghost use Rattle.tabled_printing.specs.Marks.{mark_of, marks_of, run_marks};
ghost use Rattle.tabled_printing.specs.Picture.{Look, look, text_marked, text_shown, mark_at, marks_along, marks, line_if_drawn, text_lines, printed};
ghost use Rattle.tabled_config.specs.Refusal.{first_refusal, table_faults};
ghost use Rattle.tabled_printing.specs.Sides.{side_at};
ghost use Rattle.tabled_border_claims.specs.TextOrder.{text_order, line_text, place_in};
ghost use Rattle.tabled_width.specs.Texts.{Table, pieces, texts, width_of_text};
ghost use Rattle.tabled_printing.specs.Viewed.{frame_look, with_colors_if};

use tabled_border::OutOfMemory;
use tabled_config::{PrintError, join_lines, print_plain};
use tabled_configuration::SpannedConfig;
use tabled_grid::LineOf;
use tabled_kept::{Meter, Probes};
use tabled_object::Dimension;
use tabled_printing::{Frame, Mark, RowSide, RowSides, Run, Sink, line_marks, line_runs};

/// The printer appends exactly the picture that the events draw around the cells. It returns the first fault there is, and
/// where there is none it is refused for memory alone; a refusal leaves the text as it was.
pub fn printed_or_refused<D: Dimension>(
    out: &mut String,
    cfg: &SpannedConfig,
    dims: &D,
    shape: (usize, usize),
    cells: &[Vec<String>],
) -> Result<(), PrintError>
    ensures text { (events : List ConfigEvent) → Shows events cfg.now
        → OnOk result (string_bytes out.new ≡ string_bytes out.old ++ printed events shape (D.width_of dims.now) (D.height_of dims.now) (texts cells.now)) }
    ensures unchanged { OnErr result (string_bytes out.new ≡ string_bytes out.old) }
    ensures refusal { MatchOption (first_refusal cfg.now shape (D.width_of dims.now) (D.height_of dims.now) (texts cells.now))
        (IsOkUnless result PrintError.OutOfMemory) (λ fault. result ≡ Err fault) }
{
    print_plain(out, cfg, dims, shape, cells)
}

/// The marks of a line are the character and the color of each place along it, in order, for every list of events that the
/// configuration shows, whether the line is drawn or not. They take at most twelve readings for each place and six for each line that
/// meets this one, whatever the type of the meter that counts them, and are refused for memory alone.
pub fn marks_of_a_line<'a, D: Dimension, M: Meter>(
    cfg: &'a SpannedConfig<M>,
    dims: &D,
    shape: (usize, usize),
    line: LineOf,
    probes: &mut M,
) -> Result<Vec<Mark<'a>>, OutOfMemory>
    ensures marks { (events : List ConfigEvent) → Shows events cfg.now
        → IfOk result (λ found. map mark_of found.items ≡ marks events shape (D.width_of dims.now) (D.height_of dims.now) line) }
    ensures readings { (events : List ConfigEvent) → Shows events cfg.now
        → IsRaised (12 * length (marks events shape (D.width_of dims.now) (D.height_of dims.now) line) + 6 * lines_met shape line) (M.made probes.old) (M.made probes.new) }
{
    line_marks(cfg, dims, shape, line, probes)
}

/// The runs of a line have the same marks, in as many readings.
pub fn runs_of_a_line<'a, D: Dimension, M: Meter>(
    cfg: &'a SpannedConfig<M>,
    dims: &D,
    shape: (usize, usize),
    line: LineOf,
    probes: &mut M,
) -> Result<Vec<Run<'a>>, OutOfMemory>
    ensures marks { (events : List ConfigEvent) → Shows events cfg.now
        → IfOk result (λ found. marks_of found.items ≡ marks events shape (D.width_of dims.now) (D.height_of dims.now) line) }
    ensures readings { (events : List ConfigEvent) → Shows events cfg.now
        → IsRaised (12 * length (marks events shape (D.width_of dims.now) (D.height_of dims.now) line) + 6 * lines_met shape line) (M.made probes.old) (M.made probes.new) }
{
    line_runs(cfg, dims, shape, line, probes)
}

/// A frame looks as the configuration's own writes have it, with its colors or without them.
pub fn frame_of_a_table<'a, 'b, D: Dimension>(
    cfg: &'a SpannedConfig,
    dims: &'b D,
    shape: (usize, usize),
    with_colors: bool,
) -> Result<Frame<'a, 'b, D>, OutOfMemory>
    requires { is_empty shape ≡ false }
    ensures looks { IfOk result (λ frame. frame_look D.width_of D.height_of frame ≡ with_colors_if with_colors (look (all_writes cfg.now) shape (D.width_of dims.now) (D.height_of dims.now))) }
{
    Frame::new(cfg, dims, shape, with_colors)
}

/// The marks of a horizontal line of a frame, put into whatever takes marks, and what a refusal leaves of that; where nothing is kept
/// for single places of the line and no vertical line is a custom one, in at most 45 readings, however long it is.
pub fn line_put_into_a_sink<'a, D: Dimension, S: Sink<'a>, M: Meter>(
    frame: &Frame<'a, '_, D, M>,
    row: usize,
    sink: &mut S,
    probes: &mut M,
) -> Result<(), S::Error>
    requires { row ≤ frame.now.shape.0 }
    ensures put { MatchResult result (λ _. S.puts (marks_along (frame_look D.width_of D.height_of frame.now) (Line.Horizontal row)) sink.old sink.new) (λ _. S.leaves sink.old sink.new) }
    ensures readings { IsRaised (12 * length (marks_along (frame_look D.width_of D.height_of frame.now) (Line.Horizontal row)) + 6 * (frame.now.shape.1 + 1) + 45) (M.made probes.old) (M.made probes.new) }
    ensures looked_up_once { IsBareLine frame.now.cfg.now frame.now.with_colors row → NoneForColumns frame.now.cfg.now frame.now.with_colors → IsRaised 45 (M.made probes.old) (M.made probes.new) }
{
    frame.put_line(row, sink, probes)
}

/// The marks of a run are put as the sink says, which a text, lists of marks and of runs, and a number do.
pub fn run_put_into_a_sink<'a, S: Sink<'a>>(sink: &mut S, run: Run<'a>) -> Result<(), S::Error>
    ensures put { MatchResult result (λ _. S.puts (run_marks run.entry) sink.old sink.new) (λ _. S.leaves sink.old sink.new) }
{
    sink.put(run)
}

/// A text takes the characters of a line, a list its marks, and a number how many these are.
pub fn characters_and_marks_of_a_line<'a, D: Dimension>(
    frame: &Frame<'a, '_, D>,
    row: usize,
    text: &mut String,
    marks: &mut Vec<Mark<'a>>,
) -> Result<usize, OutOfMemory>
    requires { row ≤ frame.now.shape.0 }
    ensures text { OnOk result (string_bytes text.new ≡ string_bytes text.old ++ text_marked (marks_along (frame_look D.width_of D.height_of frame.now) (Line.Horizontal row))) }
    ensures marks { OnOk result (map mark_of marks.new.items ≡ map mark_of marks.old.items ++ marks_along (frame_look D.width_of D.height_of frame.now) (Line.Horizontal row)) }
    ensures count { IfOk result (λ count. count ≡ length (marks_along (frame_look D.width_of D.height_of frame.now) (Line.Horizontal row))) }
{
    let mut count = 0usize;
    frame.put_line(row, text, &mut Probes::new())?;
    frame.put_line(row, marks, &mut Probes::new())?;
    frame.put_line(row, &mut count, &mut Probes::new())?;
    Ok(count)
}

/// Beside a line of text of a row a vertical line shows, if it is drawn, what its place there does; and a horizontal line is drawn as
/// the frame looks.
pub fn side_of_a_row<'a, D: Dimension>(
    frame: &Frame<'a, '_, D>,
    row: usize,
    col: usize,
    at: usize,
) -> (Option<Mark<'a>>, bool)
    requires row { row < frame.now.shape.0 }
    requires col { col ≤ frame.now.shape.1 }
    requires at { at < D.height_of frame.now.dims.now row }
    ensures side { option_map mark_of result.0 ≡ (if (frame_look D.width_of D.height_of frame.now).vertical col then Some (mark_at (frame_look D.width_of D.height_of frame.now) (Spot.Vertical row col at)) else None) }
    ensures drawn { result.1 ≡ (frame_look D.width_of D.height_of frame.now).horizontal row }
{
    let has_offsets = frame.has_offsets_beside(row);
    (frame.side(row, col, at, has_offsets), frame.draws(row))
}

/// What is kept for a vertical line.
pub fn kept_side<'a, 'b>(sides: &'b RowSides<'a>, col: usize) -> &'b Option<RowSide<'a>>
    requires { col ≤ sides.now.last }
    ensures kept { result.now ≡ side_at sides.now col }
{
    sides.at(col)
}

/// A table is as long as its horizontal lines have places, and as high as its vertical ones.
pub fn size_of_a_frame<D: Dimension>(frame: &Frame<D>) -> Result<(usize, usize), OutOfMemory>
    ensures columns { IfOk result (λ size. size.0 ≡ length (marks_along (frame_look D.width_of D.height_of frame.now) (Line.Horizontal 0))) }
    ensures lines { IfOk result (λ size. size.1 ≡ length (marks_along (frame_look D.width_of D.height_of frame.now) (Line.Vertical 0))) }
{
    Ok((frame.count_columns()?, frame.count_lines()?))
}

/// Lines that end in line feeds are joined by them.
pub fn lines_joined(text: &mut String, start: usize)
    ensures { (before : List ℕ) (lines : List (List ℕ)) → length before ≡ start → string_bytes text.old ≡ before ++ flat_map (λ line. line ++ 10 ∷ []) lines
        → string_bytes text.new ≡ before ++ join_with_byte 10 lines }
{
    join_lines(text, start);
}

/// A drawn horizontal line of the picture, which is the characters of its marks, is what the places along it show, with a space
/// for nothing.
pub fn line_of_its_marks()
    ensures { (view : Look) (row : ℕ) → line_if_drawn view row
        ≡ (if view.horizontal row then text_shown (map view.shown (along view.horizontal view.vertical view.shape view.widths view.heights (Line.Horizontal row))) ∷ [] else []) }
{}

/// A mark is that of the place of its number; and mark n of a vertical line stands in line n of the text: both are read in
/// one order, which says of each line of the text which horizontal line it is, or which line of the text of which row.
pub fn marks_in_order()
    ensures numbers { (view : Look) (line : Line) (n : ℕ)
        → slice_get (marks_along view line) n ≡ option_map (mark_at view) (slice_get (along view.horizontal view.vertical view.shape view.widths view.heights line) n) }
    ensures texts { (view : Look) (cells : Table) → is_empty view.shape ≡ false → text_lines view cells ≡ map (line_text view cells) (text_order view) }
    ensures marks { (view : Look) (col : ℕ) → is_empty view.shape ≡ false → col ≤ view.shape.1
        → marks_along view (Line.Vertical col) ≡ map (λ at. mark_at view (place_in col at)) (text_order view) }
{}

/// Where only narrow characters were written, the cells fit, and each line of a cell joins nothing that stands before it, the lines that
/// the plain printer joins are as wide as the table, and vertical lines stand straight; and where there are some, its text has no others.
pub fn plain_text_is_a_rectangle()
    ensures rectangle { (events : List ConfigEvent) (shape : ℕ × ℕ) (widths heights : ℕ → ℕ) (cells : Table) → is_empty shape ≡ false → WritesNarrow events
        → table_faults widths heights shape cells ≡ [] → ((r c : ℕ) → IsUtf8 (slice_index_or (slice_index_or cells r []) c []))
        → ((r c k : ℕ) → stands_apart (slice_index_or (pieces (slice_index_or (slice_index_or cells r []) c [])) k []) ≡ true)
        → list_all (λ line. width_of_text line == table_width (look events shape widths heights)) (text_lines (look events shape widths heights) cells) ≡ true }
    ensures straight { (events : List ConfigEvent) (shape : ℕ × ℕ) (widths heights : ℕ → ℕ) (cells : Table) → is_empty shape ≡ false → WritesNarrow events
        → table_faults widths heights shape cells ≡ [] → ((r c : ℕ) → IsUtf8 (slice_index_or (slice_index_or cells r []) c []))
        → ((r c k : ℕ) → stands_apart (slice_index_or (pieces (slice_index_or (slice_index_or cells r []) c [])) k []) ≡ true)
        → (c : ℕ) → c ≤ shape.1 → (look events shape widths heights).vertical c ≡ true → StandsStraight (look events shape widths heights) c (text_lines (look events shape widths heights) cells) }
    ensures lines { (events : List ConfigEvent) (shape : ℕ × ℕ) (widths heights : ℕ → ℕ) (cells : Table) → is_empty shape ≡ false → WritesNarrow events
        → table_faults widths heights shape cells ≡ [] → ((r c : ℕ) → IsUtf8 (slice_index_or (slice_index_or cells r []) c []))
        → ((r c k : ℕ) → stands_apart (slice_index_or (pieces (slice_index_or (slice_index_or cells r []) c [])) k []) ≡ true)
        → 0 < length (text_lines (look events shape widths heights) cells) → pieces (printed events shape widths heights cells) ≡ text_lines (look events shape widths heights) cells }
{}
