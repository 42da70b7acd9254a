//! Which cells are bare: their texts are shown as they are.

ghost use Rattle.std.specs.Prelude.{IsTrue};
ghost use Rattle.tabled_cells.specs.Placements.{placement_at};
ghost use Rattle.tabled_painting.specs.BareCells.{IsBareCell};

use tabled_configuration::SpannedConfig;
use tabled_object::Position;

/// Whether the text of a cell is shown whole, between spaces, as no padding is set for it.
pub(crate) fn is_bare(cfg: &SpannedConfig, cell: Position) -> bool
    ensures { IsTrue result → IsBareCell (placement_at cfg.now.settings.cells cell.row cell.col) }
{
    if cfg.get_trim_horizontal(cell) || cfg.get_trim_vertical(cell) {
        return false;
    }
    cfg.get_justification(cell) == ' ' && cfg.has_first_padding(cell)
}
