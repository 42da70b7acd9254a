//! Options that set something and read nothing: of a whole table, or of the cells of an entity.

ghost use Rattle.std.specs.Prelude.{◌≡◌, [], List, IsTrue, IsOk, OnOk, OnErr};
ghost use Rattle.tabled_object.specs.declared.entity.Entity.{Entity};
ghost use Rattle.tabled_settings.specs.Setting.{is_global};
ghost use Rattle.tabled_configuration.specs.Configuration.{ConfigEvent, Changes, cell_colors_of};
ghost use Rattle.tabled_configuration.specs.Colored as colored;
ghost use Rattle.tabled_changes.specs.Resizing.{hinted_on_cells, hinted_on_table};

use crate::{CellOption, ColoredConfig, Resizes, TableOption};
use tabled_border::OutOfMemory;
use tabled_configuration::SpannedConfig;
use tabled_object::Entity as Cells;

/// An option that sets something of a whole table, and reads neither the records nor what was set before. It is a [`TableOption`].
pub trait SetTable {
    ghost use Rattle.tabled_changes.specs.declared.resizing.Resizes.{Resizes};

    /// The events that it makes.
    ghost sets: { Self → List ConfigEvent };

    /// Where it is applied when a table has to find sizes anew.
    ghost resizes: { Resizes };

    /// When it surely takes no memory.
    ghost takes_no_memory: { Self → Type 0 };

    /// Sets it: the configuration changes by the option's events, and by nothing else. Where memory is refused it is as before.
    fn set_table(&self, config: &mut SpannedConfig) -> Result<(), OutOfMemory>
        ensures ok { OnOk result (Changes (sets self.now) config.old config.new) }
        ensures err { OnErr result (config.new ≡ config.old) }
        ensures always { takes_no_memory self.now → IsOk result };

    /// Where it is applied when a table has to find sizes anew.
    fn resizes() -> Resizes
        ensures { result ≡ resizes };

    /// The colors of cells stay.
    ghost leaves_colors: { (option : Self) → cell_colors_of (sets option) ≡ [] };
}

/// An option that sets something of the cells of an entity, and reads neither the records nor what was set before. It is a
/// [`CellOption`], and for all cells a [`TableOption`].
pub trait SetCells {
    ghost use Rattle.tabled_changes.specs.declared.resizing.Resizes.{Resizes};

    /// The events that it makes for the cells of an entity.
    ghost sets: { Self → Entity → List ConfigEvent };

    /// Where it is applied when a table has to find sizes anew.
    ghost resizes: { Resizes };

    /// When it surely takes no memory for all cells.
    ghost takes_no_memory: { Self → Type 0 };

    /// Sets it for the cells of the entity: the configuration changes by the option's events, and by nothing else. Where memory
    /// is refused it is as before.
    fn set_cells(&self, config: &mut SpannedConfig, entity: Cells) -> Result<(), OutOfMemory>
        ensures ok { OnOk result (Changes (sets self.now entity) config.old config.new) }
        ensures err { OnErr result (config.new ≡ config.old) }
        ensures always { IsTrue (is_global entity) → takes_no_memory self.now → IsOk result };

    /// Where it is applied when a table has to find sizes anew.
    fn resizes() -> Resizes
        ensures { result ≡ resizes };

    /// The colors of cells stay.
    ghost leaves_colors: { (option : Self) (entity : Entity) → cell_colors_of (sets option entity) ≡ [] };
}

/// What is set for the cells of an entity is set of a whole table where it is set for all cells.
impl<S: SetCells> SetTable for S {
    ghost use Rattle.tabled_object.specs.declared.entity.Entity.TheVariants.{Global};

    ghost sets = { λ option. S.sets option Global };

    ghost resizes = { S.resizes };

    ghost takes_no_memory = { S.takes_no_memory };

    ghost leaves_colors = { λ option. S.leaves_colors option Global };

    fn set_table(&self, config: &mut SpannedConfig) -> Result<(), OutOfMemory> {
        self.set_cells(config, Cells::Global)
    }

    fn resizes() -> Resizes {
        <S as SetCells>::resizes()
    }
}

impl<R, D, S> TableOption<R, ColoredConfig, D> for S
where
    S: SetTable + Drop,
{
    ghost makes = { λ option records dims old. S.sets option };

    ghost hinted = { λ option. hinted_on_table S.resizes };

    /// Sets it. Where memory is refused nothing changes; where the option takes none, the call returns Ok.
    fn change(
        self,
        _records: &mut R,
        cfg: &mut ColoredConfig,
        _dims: &mut D,
    ) -> Result<(), OutOfMemory>
        ensures ok { OnOk result (colored.Changes (S.sets self) cfg.old cfg.new) }
        ensures err { OnErr result (cfg.new ≡ cfg.old) }
        ensures always { S.takes_no_memory self → IsOk result }
        ensures records { _records.new ≡ _records.old }
        ensures sizes { _dims.new ≡ _dims.old }
    {
        self.set_table(cfg.config_mut())
    }

    fn hint_change(&self) -> Option<Cells> {
        S::resizes().on_table()
    }
}

impl<R, S: SetCells> CellOption<R, ColoredConfig> for S {
    ghost makes = { λ option records entity old. S.sets option entity };

    ghost hinted = { λ option. hinted_on_cells S.resizes };

    /// Sets it for the cells of the entity. Where memory is refused nothing changes; where the option takes none for all cells and it
    /// is set for these, the call returns Ok.
    fn change(
        &self,
        _records: &mut R,
        cfg: &mut ColoredConfig,
        entity: Cells,
    ) -> Result<(), OutOfMemory>
        ensures ok { OnOk result (colored.Changes (S.sets self.now entity) cfg.old cfg.new) }
        ensures err { OnErr result (cfg.new ≡ cfg.old) }
        ensures always { IsTrue (is_global entity) → S.takes_no_memory self.now → IsOk result }
        ensures records { _records.new ≡ _records.old }
    {
        self.set_cells(cfg.config_mut(), entity)
    }

    fn hint_change(&self) -> Option<Cells> {
        S::resizes().on_cells()
    }
}
