//! An alignment as an option.

ghost use Rattle.std.specs.Prelude.{⊤};
ghost use Rattle.tabled_changes.specs.declared.resizing.Resizes.TheVariants as resizing;
ghost use Rattle.tabled_formatting.specs.Formatting.{alignment_set};
ghost use Rattle.tabled_formatting.specs.LeavesColors.{none_in_alignment_set};

use crate::Alignment;
use tabled_border::OutOfMemory;
use tabled_changes::{Resizes, SetCells};
use tabled_configuration::SpannedConfig;
use tabled_object::Entity;

impl SetCells for Alignment {
    ghost sets = { alignment_set };

    ghost resizes = { resizing.OnCells };

    ghost takes_no_memory = { λ alignment. ⊤ };

    ghost leaves_colors = { none_in_alignment_set };

    /// Sets where the texts of the cells of the entity stand in the direction of the alignment; the other direction stays as it
    /// is. Where memory is refused nothing changes; for all cells none is asked for.
    fn set_cells(&self, config: &mut SpannedConfig, entity: Entity) -> Result<(), OutOfMemory> {
        match *self {
            Alignment::Horizontal(alignment) => config.set_alignment_horizontal(entity, alignment),
            Alignment::Vertical(alignment) => config.set_alignment_vertical(entity, alignment),
        }
    }

    fn resizes() -> Resizes {
        Resizes::OnCells
    }
}
