//! Whether nothing is kept for single places, or for single lines, so that what they show need not be looked up for each.

ghost use Rattle.std.specs.Prelude.{◌↔◌, IsTrue};
ghost use Rattle.tabled_kept.specs.Probing.{IsRaised};
ghost use Rattle.tabled_printing.specs.Alike.{HasNoEdges, NoneBeside, NoneForCells, NoneForColumns, NoneOnLine, NoOffsetsAt};

use tabled_configuration::SpannedConfig;
use tabled_grid::{Direction, Layers, LineOf, Place, Target};
use tabled_kept::{Meter, Probes};

/// Whether nothing is kept for an edge or a crossing by itself: no character and, where colors are wanted, no color.
pub(crate) fn has_none_for_cells(cfg: &SpannedConfig, with_colors: bool) -> bool
    ensures { IsTrue result ↔ NoneForCells cfg.now with_colors }
{
    let probes = &mut Probes::new();
    !cfg.characters().has_cells(probes) && (!with_colors || !cfg.colors().has_cells(probes))
}

/// Whether nothing is kept for an edge or a crossing of a line by itself: at most two readings.
pub(crate) fn has_none_on<M: Meter>(
    cfg: &SpannedConfig<M>,
    line: LineOf,
    with_colors: bool,
    probes: &mut M,
) -> bool
    ensures value { IsTrue result ↔ NoneOnLine cfg.now with_colors line }
    ensures probes { IsRaised 2 (M.made probes.old) (M.made probes.new) }
{
    !cfg.characters().has_cells_on(line, probes)
        && (!with_colors || !cfg.colors().has_cells_on(line, probes))
}

/// Whether a store keeps nothing for an edge of a vertical line beside one of the first `rows` rows. Each is looked at only where the store
/// keeps something for the line.
fn has_no_edges<T>(store: &Layers<T>, rows: usize, col: usize) -> bool
    ensures { IsTrue result ↔ HasNoEdges rows col store.now }
{
    if !store.has_cells_on(LineOf::Vertical(col), &mut Probes::new()) {
        return true;
    }
    for row in 0..rows {
        let edge = Target::Cell(Place::Vertical { row, col, at: 0 });
        if store.kept_at(edge).is_some() {
            return false;
        }
    }
    true
}

/// Whether nothing is kept for an edge of a vertical line beside one of the first `rows` rows by itself.
pub(crate) fn has_none_beside(
    cfg: &SpannedConfig,
    rows: usize,
    col: usize,
    with_colors: bool,
) -> bool
    ensures { IsTrue result ↔ NoneBeside cfg.now with_colors rows col }
{
    has_no_edges(cfg.characters(), rows, col)
        && (!with_colors || has_no_edges(cfg.colors(), rows, col))
}

/// Whether nothing is kept at an offset of an edge of that direction in a row: at most two readings.
pub(crate) fn has_no_offsets_at<M: Meter>(
    cfg: &SpannedConfig<M>,
    direction: Direction,
    row: usize,
    with_colors: bool,
    probes: &mut M,
) -> bool
    ensures value { IsTrue result ↔ NoOffsetsAt cfg.now with_colors direction row }
    ensures probes { IsRaised 2 (M.made probes.old) (M.made probes.new) }
{
    !cfg.characters().has_offsets_at(direction, row, probes)
        && (!with_colors || !cfg.colors().has_offsets_at(direction, row, probes))
}

/// Whether no custom vertical line stands at an index: none of characters and, where colors are wanted, none of colors.
pub(crate) fn has_none_for_columns(cfg: &SpannedConfig, with_colors: bool) -> bool
    ensures { IsTrue result ↔ NoneForColumns cfg.now with_colors }
{
    let probes = &mut Probes::new();
    !cfg.characters().has_vlines(probes) && (!with_colors || !cfg.colors().has_vlines(probes))
}
