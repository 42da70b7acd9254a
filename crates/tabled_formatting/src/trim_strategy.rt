//! Which empty parts of a text are dropped.

ghost use Rattle.std.specs.Prelude.{⊤};
ghost use Rattle.tabled_changes.specs.declared.resizing.Resizes.TheVariants as resizing;
ghost use Rattle.tabled_formatting.specs.Formatting.{trim_set};
ghost use Rattle.tabled_formatting.specs.LeavesColors.{none_in_trim_set};

use tabled_border::OutOfMemory;
use tabled_changes::{Resizes, SetCells};
use tabled_configuration::SpannedConfig;
use tabled_object::Entity;

/// What is dropped around a text before it is aligned: empty lines above and below it, spaces at its left and its right.
#[derive(Clone, Copy, Debug, PartialEq, Eq, PartialOrd, Ord)]
pub enum TrimStrategy {
    /// Empty lines are dropped. Whether spaces are stays as it was.
    Vertical,
    /// Spaces are dropped. Whether empty lines are stays as it was.
    Horizontal,
    /// Empty lines and spaces are dropped.
    Both,
    /// Neither are dropped.
    None,
}

impl SetCells for TrimStrategy {
    ghost sets = { trim_set };

    ghost resizes = { resizing.OnCells };

    ghost takes_no_memory = { λ trim. ⊤ };

    ghost leaves_colors = { none_in_trim_set };

    /// Sets it for the cells of the entity. Where memory is refused nothing changes; for all cells none is asked for.
    fn set_cells(&self, config: &mut SpannedConfig, entity: Entity) -> Result<(), OutOfMemory> {
        match self {
            TrimStrategy::Vertical => config.set_trim_vertical(entity, true),
            TrimStrategy::Horizontal => config.set_trim_horizontal(entity, true),
            TrimStrategy::Both => config.set_trims(entity, true, true),
            TrimStrategy::None => config.set_trims(entity, false, false),
        }
    }

    fn resizes() -> Resizes {
        Resizes::OnCells
    }
}
