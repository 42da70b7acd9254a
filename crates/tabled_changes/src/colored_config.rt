//! The configuration that table options change.

ghost use Rattle.std.specs.Prelude.{◌≡◌};

mod coloring;

use crate::{BorderEvent, ColorMap, Colors, Configured, TableOption};
use std::alloc::Global;
use std::marker::Model;
use tabled_border::{ANSIBuf, Keep, OutOfMemory};
use tabled_configuration::SpannedConfig;
use tabled_grid::Borders;
use tabled_object::{Entity, Position};
use tabled_settings::EntityMap;

/// The configuration that table options change: that of the borders and of what is set for cells, and the colors of cells.
#[derive(Debug, Drop)]
pub struct ColoredConfig {
    config: SpannedConfig,
    colors: ColorMap,
}

impl Model for ColoredConfig {
    ghost use Rattle.tabled_configuration.specs.Colored.{Colored, colored_code};

    ghost Value = { Colored };

    ghost coded = { colored_code };

    ghost view = { λ cfg. record { spanned = cfg.config; cell_colors = cfg.colors } };
}

impl Configured for ColoredConfig {
    ghost use Rattle.tabled_configuration.specs.Colored.{Changes};
    ghost use Rattle.tabled_configuration.specs.ChangeLaws as laws;

    type Event = BorderEvent;

    ghost changes = { Changes };

    ghost none_change = { laws.none_change };

    ghost both_change = { laws.both_change };
}

impl ColoredConfig {
    ghost use Rattle.std.specs.Prelude.{None, Some, IsTrue, IsOk, OnOk, OnErr, option_copied, option_map};
    ghost use Rattle.std.specs.Borrow.{Lends, sem};
    ghost use Rattle.tabled_settings.specs.Setting.{write_of, removal_of, is_global};
    ghost use Rattle.tabled_settings.specs.Live.{value_at};
    ghost use Rattle.tabled_configuration.specs.Colored.{Changes, by_cell_color};
    ghost use Rattle.tabled_changes.specs.contracts.colored_config.ColoredConfig.{the_row};
    ghost use Rattle.tabled_configuration.specs.contracts.spanned_config.SpannedConfig.{the_row as spanned_row};
    ghost use Rattle.tabled_kept.specs.contracts.probes.Probes.{the_row as probes_row};

    /// Makes a configuration over the given one, without colors of cells.
    pub fn new(config: SpannedConfig) -> Self
        ensures { result ≡ record { spanned = config; cell_colors = None } }
    {
        ColoredConfig {
            config,
            colors: ColorMap::new(None),
        }
    }

    /// Makes a configuration over the given one, with these colors of cells.
    pub fn with_colors(config: SpannedConfig, colors: EntityMap<ANSIBuf>) -> Self
        ensures { result ≡ record { spanned = config; cell_colors = Some colors } }
    {
        ColoredConfig {
            config,
            colors: ColorMap::new(Some(colors)),
        }
    }

    /// Sets the color of the cells of an entity. Where memory is refused nothing changes; for all cells none is asked for.
    pub fn set_color(&mut self, entity: Entity, color: ANSIBuf) -> Result<(), OutOfMemory>
        ensures ok { OnOk result (Changes (by_cell_color (write_of entity color)) self.old self.new) }
        ensures err { OnErr result (self.new ≡ self.old) }
        ensures always { IsTrue (is_global entity) → IsOk result }
    {
        self.colors.insert(self.config.allocator(), entity, color)
    }

    /// Gives the cells of an entity the default color again. Where memory is refused nothing changes; for all cells, and
    /// before any color was set, none is asked for.
    pub fn remove_color(&mut self, entity: Entity) -> Result<(), OutOfMemory>
        ensures ok { OnOk result (Changes (by_cell_color (removal_of entity)) self.old self.new) }
        ensures err { OnErr result (self.new ≡ self.old) }
        ensures always { IsTrue (is_global entity) → IsOk result }
        ensures without_colors { self.old.cell_colors ≡ None → IsOk result }
    {
        self.colors.remove(entity)
    }

    /// Returns the color of a cell: none before a color was set or a map of colors given; then the one that was set last for the
    /// cell, or the map's default, which is the color without texts where the map was not given.
    pub fn get_color(&self, position: Position) -> Option<&ANSIBuf>
        ensures { option_copied result ≡ option_map (λ colors. value_at colors position) self.now.cell_colors }
    {
        self.colors.get_color(position)
    }

    /// Returns the colors of cells.
    pub fn get_colors(&self) -> &ColorMap
        ensures { result.now ≡ self.now.cell_colors }
    {
        &self.colors
    }

    /// Returns the configuration of the borders and of what is set for cells.
    pub fn config(&self) -> &SpannedConfig
        ensures { result.now ≡ self.now.spanned }
    {
        &self.config
    }

    /// Returns the configuration of the borders and of what is set for cells, to be changed. What is written there is this configuration's.
    pub fn config_mut(&mut self) -> &mut SpannedConfig
        ensures* writes_back { sem 𝓛 (Lends the_row (spanned_row probes_row) self.entry result (λ config. record self.old { spanned = config })) }
        ensures value { result.now ≡ self.old.spanned }
    {
        &mut self.config
    }

    /// Returns the configuration of the borders, given up by this one; the colors of cells are dropped.
    pub fn into_inner(self) -> SpannedConfig
        ensures { result ≡ self.spanned }
    {
        let ColoredConfig { config, colors: _ } = self;
        config
    }
}

impl<R, D> TableOption<R, ColoredConfig, D> for Borders<char> {
    ghost use Rattle.std.specs.Prelude.{Some, IsOk, []};
    ghost use Rattle.tabled_object.specs.declared.entity.Entity.TheVariants as cells;
    ghost use Rattle.tabled_configuration.specs.Configuration.{borders_replaced};
    ghost use Rattle.tabled_configuration.specs.Colored.{Changes};

    ghost makes = { λ borders records dims old. borders_replaced borders [] [] };

    ghost hinted = { λ borders. Some cells.Global };

    /// Erases every border character and color of every level, offsets too, and sets the class record: as a
    /// style without custom lines. It takes no memory and returns Ok.
    fn change(
        self,
        _records: &mut R,
        cfg: &mut ColoredConfig,
        _dims: &mut D,
    ) -> Result<(), OutOfMemory>
        ensures always { IsOk result }
        ensures ok { Changes (borders_replaced self [] []) cfg.old cfg.new }
        ensures records { _records.new ≡ _records.old }
        ensures sizes { _dims.new ≡ _dims.old }
    {
        cfg.config_mut().replace_borders(self, &[], &[])
    }

    fn hint_change(&self) -> Option<Entity> {
        Some(Entity::Global)
    }
}

/// The copy keeps `alloc` for the calls that need memory.
impl Keep for ColoredConfig {
    fn keep(&self, alloc: Global) -> Result<Self, OutOfMemory> {
        Ok(ColoredConfig {
            config: self.config.keep(alloc)?,
            colors: self.colors.keep(alloc)?,
        })
    }
}

/// Equality is that of both parts.
impl PartialEq for ColoredConfig {
    ghost use Rattle.tabled_configuration.specs.SameConfiguration.{same_colored, colored_per};

    ghost eq = { same_colored };

    ghost laws = { colored_per };

    fn eq(&self, other: &Self) -> bool {
        self.config == other.config && self.colors == other.colors
    }
}

impl Eq for ColoredConfig {
    ghost use Rattle.tabled_configuration.specs.SameConfiguration.{colored_equiv};

    ghost laws = { colored_equiv };
}

impl From<SpannedConfig> for ColoredConfig {
    ghost use Rattle.std.specs.Prelude.{None};

    ghost from_gives = { λ config result. result ≡ record { spanned = config; cell_colors = None } };

    fn from(config: SpannedConfig) -> Self {
        ColoredConfig::new(config)
    }
}
