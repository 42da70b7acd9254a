//! Whether the lines of a text are aligned as one.

ghost use Rattle.std.specs.Prelude.{◌≡◌, ⊤, refl};
ghost use Rattle.tabled_changes.specs.declared.resizing.Resizes.TheVariants as resizing;
ghost use Rattle.tabled_formatting.specs.Formatting.{strategy_set, each_line};

use tabled_border::OutOfMemory;
use tabled_changes::{Resizes, SetCells};
use tabled_configuration::SpannedConfig;
use tabled_object::Entity;

/// Whether the lines of a text in a cell are moved as one block, or each by itself. Here a text of two lines at the right of
/// its cell, per cell and per line:
///
/// ```text
///    one       one
///    three   three
/// ```
#[derive(Clone, Copy, Debug, PartialEq, Eq, PartialOrd, Ord)]
pub enum AlignmentStrategy {
    /// The lines of a text are moved as one block.
    PerCell,
    /// Each line is aligned by itself.
    PerLine,
}

impl AlignmentStrategy {
    /// Whether each line is aligned by itself.
    pub(crate) fn is_per_line(&self) -> bool
        ensures { result ≡ each_line self.now }
    {
        match self {
            AlignmentStrategy::PerCell => false,
            AlignmentStrategy::PerLine => true,
        }
    }
}

impl SetCells for AlignmentStrategy {
    ghost sets = { strategy_set };

    ghost resizes = { resizing.OnCells };

    ghost takes_no_memory = { λ strategy. ⊤ };

    ghost leaves_colors = { λ strategy entity. refl };

    /// Sets it for the cells of the entity. Where memory is refused nothing changes; for all cells none is asked for.
    fn set_cells(&self, config: &mut SpannedConfig, entity: Entity) -> Result<(), OutOfMemory> {
        config.set_line_alignment(entity, self.is_per_line())
    }

    fn resizes() -> Resizes {
        Resizes::OnCells
    }
}
