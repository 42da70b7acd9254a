//! A theme as an option of a table.

ghost use Rattle.std.specs.Prelude.{◌≡◌, IfOk, OnOk, OnErr, Some};
ghost use Rattle.tabled_object.specs.declared.entity.Entity.TheVariants as cells;
ghost use Rattle.tabled_configuration.specs.Colored.{Changes};
ghost use Rattle.tabled_configuration.specs.Configuration as borders;
ghost use Rattle.tabled_theme.specs.Events.{as_style, style_applied, theme_applied};
ghost use Rattle.tabled_theme.specs.Lines.{lines_put};

use super::Theme;
use super::fields::texts;
use crate::line_map::LineMap;
use std::alloc::Global;
use tabled_border::OutOfMemory;
use tabled_changes::{ColoredConfig, TableOption};
use tabled_configuration::SpannedConfig;
use tabled_object::Entity;

impl<Data, Dims> TableOption<Data, ColoredConfig, Dims> for Theme {
    ghost makes = { λ theme records dims old. theme_applied theme };

    ghost hinted = { λ theme. Some cells.Global };

    /// Erases every border character and color of every level, offsets too; then puts the lines of the theme at their
    /// indices, those beneath and then those that were set, and sets the class record and the class colors.
    ///
    /// The theme of the style `rounded`, with line 1 set to `HorizontalLine::filled('=').into_inner()`:
    ///
    /// ```text
    /// ╭───┬───╮
    /// │ a │ b │
    /// =========
    /// │ c │ d │
    /// ╰───┴───╯
    /// ```
    fn change(
        self,
        _records: &mut Data,
        cfg: &mut ColoredConfig,
        _dims: &mut Dims,
    ) -> Result<(), OutOfMemory> {
        let colors = texts(cfg.config().allocator(), &self.colors)?;
        let config = cfg.config_mut();
        match self.replace_characters(config) {
            Ok(()) => {
                config.set_borders_color(colors);
                Ok(())
            }
            Err(refused) => {
                drop(colors);
                Err(refused)
            }
        }
    }

    fn hint_change(&self) -> Option<Entity> {
        Some(Entity::Global)
    }
}

impl Theme {
    /// Erases every border character and color, puts the lines and sets the class record, as a style does.
    fn replace_characters(&self, config: &mut SpannedConfig) -> Result<(), OutOfMemory>
        ensures ok { OnOk result (borders.Changes (style_applied (as_style self.now)) config.old config.new) }
        ensures err { OnErr result (config.new ≡ config.old) }
    {
        let alloc = config.allocator();
        let horizontals = listed(alloc, &self.set_horizontals, &self.horizontals_beneath)?;
        let verticals = listed(alloc, &self.set_verticals, &self.verticals_beneath)?;
        config.replace_borders(
            self.characters,
            horizontals.as_slice(),
            verticals.as_slice(),
        )
    }
}

/// The lines of two maps as they are put into a table.
fn listed<L: Copy>(
    alloc: Global,
    set: &LineMap<L>,
    beneath: &LineMap<L>,
) -> Result<Vec<(usize, L)>, OutOfMemory>
    ensures { IfOk result (λ list. list.items ≡ lines_put set.now beneath.now) }
{
    let mut list = Vec::new(alloc);
    beneath.push_to(&mut list)?;
    set.push_to(&mut list)?;
    Ok(list)
}
