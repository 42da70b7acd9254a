//! How a text stands in its cell.

ghost use Rattle.std.specs.Prelude.{◌≡◌, ◌==◌, ◌<◌, ◌≤◌, ◌+◌, ◌-◌, ℕ, List, [], ◌∷◌, ◌++◌, false, if◌then◌else◌, nat_lt, map, length, replicate, slice_index_or, IfSome, MatchOption};
ghost use Rattle.std.specs.List.{All};
ghost use Rattle.std.specs.Str.{IsUtf8};
ghost use Rattle.tabled_settings.specs.declared.cell_settings.CellSettings.{CellSettings};
ghost use Rattle.tabled_settings.specs.CellSettings.{first_settings};
ghost use Rattle.tabled_width.specs.Texts.{pieces, width_of_text};
ghost use Rattle.tabled_cells.specs.Placements.{placement_at};
ghost use Rattle.tabled_cells.specs.Placed.{greatest};
ghost use Rattle.tabled_cells.specs.Trimmed.{lines_shown};
ghost use Rattle.tabled_painting.specs.CellLines.{Coloring, cell_line};
ghost use Rattle.tabled_painting.specs.Painted.{plain};

use tabled_cells::{Placement, ShownLines};
use tabled_configuration::SpannedConfig;
use tabled_object::Position;

/// A line of a text that is shown is that of it that its placement says, as it says.
pub fn line_of_a_text<'a>(how: &Placement, text: &'a str, n: usize) -> Option<&'a str>
    ensures there { MatchOption result (length (lines_shown how.now text.now) ≤ n) (λ line. n < length (lines_shown how.now text.now)) }
    ensures is { IfSome result (λ line. line.now ≡ slice_index_or (lines_shown how.now text.now) n []) }
{
    let mut lines = ShownLines::of(how, text);
    lines.line(n)
}

/// The placement of a cell's text is what is set for the cell.
pub fn placement_of_a_cell(cfg: &SpannedConfig, position: Position) -> Placement
    ensures set { result ≡ placement_at cfg.now.settings.cells position.row position.col }
{
    Placement::of(cfg, position)
}

/// Whatever is set for it, where its padding at the left is of spaces, each line of a cell is as wide as its column, where that leaves room
/// for its text; also after any text that stands before it, where it begins with a space. Whatever is set, no line has a line feed.
pub fn cells_always_fit()
    ensures wide { (settings : CellSettings) (row col : ℕ) (colors : Coloring) (width height : ℕ) (text : List ℕ) (line : ℕ) → let how = placement_at settings row col in IsUtf8 text → how.padding.left.fill ≡ 32
        → how.padding.left.size + greatest (map width_of_text (pieces text)) + how.padding.right.size ≤ width
        → width_of_text (plain (cell_line how colors width height (lines_shown how text) line)) ≡ width }
    ensures after_any_text { (settings : CellSettings) (row col : ℕ) (colors : Coloring) (width height : ℕ) (text : List ℕ) (line : ℕ) (front : List ℕ) → let how = placement_at settings row col in IsUtf8 front → IsUtf8 text
        → how.padding.left.fill ≡ 32 → 1 ≤ how.padding.left.size → how.padding.left.size + greatest (map width_of_text (pieces text)) + how.padding.right.size ≤ width
        → width_of_text (front ++ plain (cell_line how colors width height (lines_shown how text) line)) ≡ width_of_text front + width }
    ensures one_line { (settings : CellSettings) (row col : ℕ) (colors : Coloring) (width height : ℕ) (text : List ℕ) (line : ℕ) → let how = placement_at settings row col in
        All (λ byte. (byte == 10) ≡ false) (plain (cell_line how colors width height (lines_shown how text) line)) }
{}

/// Where nothing is set, the lines of a text stand at the left and at the top of its cell, with spaces beside and below them.
pub fn nothing_set_stands_left_and_top()
    ensures { (row col width height : ℕ) (colors : Coloring) (text : List ℕ) (line : ℕ) → let how = placement_at first_settings row col in
        plain (cell_line how colors width height (lines_shown how text) line)
        ≡ (if nat_lt line (length (pieces text)) then 32 ∷ slice_index_or (pieces text) line [] ++ replicate (width - 2 - width_of_text (slice_index_or (pieces text) line [])) 32 ++ 32 ∷ [] else replicate width 32) }
{}
