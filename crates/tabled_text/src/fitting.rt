//! How many terminal columns there are for the texts of a table.

ghost use Rattle.std.specs.Prelude.{◌≡◌, ◌<◌, ◌+◌, ◌-◌, List, map, min, if◌then◌else◌, IfOk};
ghost use Rattle.std.specs.List.{sum_by};
ghost use Rattle.tabled_object.specs.Entities.{below};
ghost use Rattle.tabled_configuration.specs.Configuration.{ConfigEvent, Shows, all_writes, characters_of};
ghost use Rattle.tabled_places.specs.Drawn.{drawn};
ghost use Rattle.tabled_places.specs.declared.place.LineOf.{LineOf as Line};
ghost use Rattle.tabled_width.specs.Texts.{Table};
ghost use Rattle.tabled_width.specs.Shares.{used};
ghost use Rattle.tabled_text.specs.Fitted.{frame_width, padding_across};
ghost use Rattle.tabled_text.specs.TextTable.{shape_of};

use std::alloc::{AllocError, Global};
use tabled_configuration::SpannedConfig;
use tabled_object::{Position, Shape};

/// How many columns a vertical line takes: one, if it is drawn.

fn line_width(cfg: &SpannedConfig, line: usize, cols: usize) -> usize
    ensures { result ≡ (if drawn (characters_of (all_writes cfg.now)) cols (Line.Vertical line) then 1 else 0) }
{
    if cfg.has_vertical(line, cols) { 1 } else { 0 }
}

/// What is left of a room beside the padding of a column, in a table of so many rows, where there are some.
#[tactic(auto, using(tabled_rooms::proofs::SizeLemmas::greatest_more), unfolding(crate::specs::Fitted::padding_across))]
fn beside_padding(cfg: &SpannedConfig, rows: usize, col: usize, room: usize) -> usize
    requires { 0 < rows }
    ensures { result ≡ room - padding_across cfg.now.settings.cells rows col }
{
    if cfg.has_no_padding() {
        return room.saturating_sub(2);
    }
    let mut left = room;
    for row in 0..rows {
        let padding = cfg.get_padding(Position { row, col });
        let between = room
            .saturating_sub(padding.left.size)
            .saturating_sub(padding.right.size);
        left = left.min(between);
    }
    left
}

/// What is left of a room where each column takes its padding, and that of the line before it.
#[tactic(auto, using(crate::proofs::ShareSums::sum_more))]
fn beside_columns(cfg: &SpannedConfig, rows: usize, cols: usize, room: usize) -> usize
    requires { 0 < rows }
    ensures { result ≡ room - sum_by (λ col. (if drawn (characters_of (all_writes cfg.now)) cols (Line.Vertical col) then 1 else 0) + padding_across cfg.now.settings.cells rows col) (below cols) }
{
    let mut left = room;
    for col in 0..cols {
        let beside_line = left.saturating_sub(line_width(cfg, col, cols));
        left = beside_padding(cfg, rows, col, beside_line);
    }
    left
}

/// What is left for the texts of a table that takes no more than so many columns, beside its margin, its vertical lines and the padding of
/// its cells.
pub(crate) fn room_for_texts(cfg: &SpannedConfig, shape: Shape, total: usize) -> usize
    ensures { (es : List ConfigEvent) (table : Table) → Shows es cfg.now → shape ≡ shape_of table → result ≡ total - frame_width es table }
{
    let Shape { rows, cols } = shape;
    if rows == 0 {
        return total;
    }
    if cols == 0 {
        return total;
    }
    let margin = cfg.get_margin();
    let between = total
        .saturating_sub(margin.left.size)
        .saturating_sub(margin.right.size);
    beside_columns(cfg, rows, cols, between).saturating_sub(line_width(cfg, cols, cols))
}

/// How many columns a table takes beside its texts, as far as they can be counted.
pub(crate) fn frame_width(cfg: &SpannedConfig, shape: Shape) -> usize
    ensures { (es : List ConfigEvent) (table : Table) → Shows es cfg.now → shape ≡ shape_of table → result ≡ min (frame_width es table) usize.MAX }
{
    usize::MAX.saturating_sub(room_for_texts(cfg, shape, usize::MAX))
}

/// How many columns the texts of columns of these widths take where each gets what it asks for up to the least share, as far as they can be
/// counted.
#[tactic(auto, using(crate::proofs::Frames::used_more))]
pub(crate) fn least_for_texts(widths: &[usize], least: usize) -> usize
    ensures { result ≡ min (used least (map (λ width. width - 2) widths.now)) usize.MAX }
{
    let mut taken: usize = 0;
    for width in widths {
        taken = taken.saturating_add(least.min(width.saturating_sub(2)));
    }
    taken
}

/// How many columns the texts of columns of these widths ask for.
pub(crate) fn texts_asked(alloc: Global, widths: &[usize]) -> Result<Vec<usize>, AllocError>
    ensures { IfOk result (λ asked. asked.items ≡ map (λ width. width - 2) widths.now) }
{
    widths
        .iter()
        .map(|width| width.saturating_sub(2))
        .collect(alloc)
}
