//! Colors that are joined onto those of cells.

ghost use Rattle.std.specs.Prelude.{◌≡◌, OnOk, OnErr};
ghost use Rattle.tabled_object.specs.Entities.{cells_of};
ghost use Rattle.tabled_object.specs.declared.entity.Entity.TheVariants as cells;
ghost use Rattle.tabled_configuration.specs.Colored.{Changes};
ghost use Rattle.tabled_changes.specs.EntitiesColored.{entities_colored};
ghost use Rattle.tabled_colorization.specs.Joined.{cells_joined};

use tabled_border::OutOfMemory;
use tabled_changes::{CellOption, ColoredConfig, TableOption};
use tabled_colorization::JoinedColor;
use tabled_object::{Entity, ExactRecords, Records};

/// Each cell of an entity has the color that it had, and another one joined onto it, with its filling and its padding.
pub fn color_joined_onto_cells<R: Records + ExactRecords>(
    option: &JoinedColor,
    records: &mut R,
    cfg: &mut ColoredConfig,
    entity: Entity,
) -> Result<(), OutOfMemory>
    ensures ok { OnOk result (Changes (entities_colored (cells_joined option.now cfg.old.cell_colors (cells_of entity (R.row_count records.old) (R.column_count records.old)))) cfg.old cfg.new) }
    ensures err { OnErr result (cfg.new ≡ cfg.old) }
{
    option.change(records, cfg, entity)
}

/// Each cell of the table has the color that it had, and another one joined onto it, with its filling and its padding.
pub fn color_joined_onto_all_cells<R: Records + ExactRecords, D>(
    option: JoinedColor,
    records: &mut R,
    cfg: &mut ColoredConfig,
    dims: &mut D,
) -> Result<(), OutOfMemory>
    ensures ok { OnOk result (Changes (entities_colored (cells_joined option cfg.old.cell_colors (cells_of cells.Global (R.row_count records.old) (R.column_count records.old)))) cfg.old cfg.new) }
    ensures err { OnErr result (cfg.new ≡ cfg.old) }
{
    option.change(records, cfg, dims)
}
