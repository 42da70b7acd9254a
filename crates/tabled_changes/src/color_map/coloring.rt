//! Colors of texts, of fillings and of paddings, many entities at once.

ghost use Rattle.std.specs.Prelude.{◌≡◌, Some, unwrap_or, OnOk, OnErr};
ghost use Rattle.tabled_settings.specs.Live.{at_first, after_all};
ghost use Rattle.tabled_configuration.specs.CellColors.{no_color};

use super::ColorMap;
use tabled_border::{ANSIBuf, OutOfMemory};
use tabled_configuration::{SpannedConfig, apply_colors};
use tabled_object::Entity;
use tabled_settings::{EntityMap, Sides};

impl ColorMap {
    /// Makes the writes and removals of three lists: here, and in a configuration in the colors of fillings and in those of paddings.
    /// Where there is no map yet, one is made whose default is the color without texts. Where memory is refused nothing changes.
    pub(crate) fn apply_beside(
        &mut self,
        config: &mut SpannedConfig,
        texts: Vec<(Entity, Option<ANSIBuf>)>,
        fills: Vec<(Entity, Option<Option<ANSIBuf>>)>,
        paddings: Vec<(Entity, Option<Sides<Option<ANSIBuf>>>)>,
    ) -> Result<(), OutOfMemory>
        ensures ok { OnOk result (config.new ≡ record config.old {
          settings = record config.old.settings {
            cells = record config.old.settings.cells {
              justification_color = after_all config.old.settings.cells.justification_color fills.items;
              padding_color = after_all config.old.settings.cells.padding_color paddings.items;
            };
          };
        }) }
        ensures colors_ok { OnOk result (self.new ≡ Some (after_all (unwrap_or self.old (at_first no_color)) texts.items)) }
        ensures err { OnErr result (config.new ≡ config.old) }
        ensures colors_err { OnErr result (self.new ≡ self.old) }
    {
        match &mut self.map {
            Some(map) => apply_colors(config, map, texts, fills, paddings),
            None => {
                let alloc = config.allocator();
                let mut map = EntityMap::new(alloc, ANSIBuf::new(alloc, "", "")?);
                apply_colors(config, &mut map, texts, fills, paddings)?;
                self.map = Some(map);
                Ok(())
            }
        }
    }
}
