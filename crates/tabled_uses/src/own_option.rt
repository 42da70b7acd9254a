//! An option that a user of the library writes: the checker proves it without a line of proof.

ghost use Rattle.std.specs.Prelude.{None};
ghost use Rattle.tabled_places.specs.Calls.{default_set};
ghost use Rattle.tabled_configuration.specs.Configuration.{by_characters};

use crate::recipes::people;
use std::alloc::Global;
use tabled::TableError;
use tabled::grid::config::{ColoredConfig, OutOfMemory};
use tabled::settings::TableOption;
use tabled::settings::object::Entity;

/// Shows one character wherever no level above the default has something.
#[derive(Drop)]
pub struct Everywhere {
    /// The character.
    pub character: char,
}

impl<R, D> TableOption<R, ColoredConfig, D> for Everywhere {
    ghost makes = { λ option records dims old. by_characters (default_set option.character) };

    ghost hinted = { λ option. None };

    fn change(
        self,
        _records: &mut R,
        cfg: &mut ColoredConfig,
        _dims: &mut D,
    ) -> Result<(), OutOfMemory> {
        cfg.config_mut().set_border_default(self.character);
        Ok(())
    }

    fn hint_change(&self) -> Option<Entity> {
        None
    }
}

/// An option of one's own.
pub fn own_option(alloc: Global) -> Result<String, TableError> {
    let mut table = people(alloc)?;
    table.with(Everywhere { character: '*' })?;
    Ok(table.to_text()?)
}
