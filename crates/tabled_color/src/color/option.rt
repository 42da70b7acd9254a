//! A color as an option: the color of cells.

ghost use Rattle.std.specs.Prelude.{None};
ghost use Rattle.tabled_object.specs.declared.entity.Entity.TheVariants as cells;
ghost use Rattle.tabled_settings.specs.Setting.{write_of};
ghost use Rattle.tabled_configuration.specs.Colored.{by_cell_color};
ghost use Rattle.tabled_color.specs.Shade.{texts_of};

use crate::Color;
use tabled_border::{ANSIBuf, OutOfMemory};
use tabled_changes::{CellOption, ColoredConfig, TableOption};
use tabled_object::Entity;

impl<R> CellOption<R, ColoredConfig> for Color {
    ghost makes = { λ color records entity old. by_cell_color (write_of entity (texts_of color)) };

    ghost hinted = { λ color. None };

    /// Sets the color of the cells of the entity. Where memory is refused nothing changes.
    fn change(
        &self,
        _records: &mut R,
        cfg: &mut ColoredConfig,
        entity: Entity,
    ) -> Result<(), OutOfMemory> {
        let alloc = cfg.config().allocator();
        let color = ANSIBuf::new(alloc, self.get_prefix(), self.get_suffix())?;
        cfg.set_color(entity, color)
    }

    fn hint_change(&self) -> Option<Entity> {
        None
    }
}

impl<R, D> TableOption<R, ColoredConfig, D> for Color {
    ghost makes = { λ color records dims old. by_cell_color (write_of cells.Global (texts_of color)) };

    ghost hinted = { λ color. None };

    /// Sets the color of all cells. Where memory is refused nothing changes.
    fn change(
        self,
        _records: &mut R,
        cfg: &mut ColoredConfig,
        _dims: &mut D,
    ) -> Result<(), OutOfMemory> {
        let alloc = cfg.config().allocator();
        cfg.set_color(Entity::Global, self.into_ansi(alloc)?)
    }

    fn hint_change(&self) -> Option<Entity> {
        None
    }
}
