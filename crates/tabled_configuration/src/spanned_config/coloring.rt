//! Colors of texts, of fillings and of paddings, many entities at once.

ghost use Rattle.std.specs.Prelude.{◌≡◌, OnOk, OnErr};
ghost use Rattle.tabled_settings.specs.Live.{after_all};

use super::SpannedConfig;
use tabled_border::{ANSIBuf, OutOfMemory};
use tabled_object::Entity;
use tabled_settings::{EntityMap, Sides};

/// Makes the writes and removals of three lists: in the given colors of texts, in the colors of fillings of a configuration, and in
/// those of paddings. Where memory is refused nothing changes.
pub fn apply_colors(
    config: &mut SpannedConfig,
    colors: &mut EntityMap<ANSIBuf>,
    texts: Vec<(Entity, Option<ANSIBuf>)>,
    fills: Vec<(Entity, Option<Option<ANSIBuf>>)>,
    paddings: Vec<(Entity, Option<Sides<Option<ANSIBuf>>>)>,
) -> Result<(), OutOfMemory>
    ensures ok { OnOk result (config.new ≡ record config.old {
      settings = record config.old.settings {
        cells = record config.old.settings.cells {
          justification_color = after_all config.old.settings.cells.justification_color fills.items;
          padding_color = after_all config.old.settings.cells.padding_color paddings.items;
        };
      };
    }) }
    ensures colors_ok { OnOk result (colors.new ≡ after_all colors.old texts.items) }
    ensures err { OnErr result (config.new ≡ config.old) }
    ensures colors_err { OnErr result (colors.new ≡ colors.old) }
{
    let alloc = config.allocator();
    let cells = &mut config.settings.cells;
    colors.apply_three(
        alloc,
        texts,
        &mut cells.justification_color,
        fills,
        &mut cells.padding_color,
        paddings,
    )
}
