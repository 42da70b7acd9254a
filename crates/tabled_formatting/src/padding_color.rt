//! The color of the padding.

ghost use Rattle.std.specs.Prelude.{refl};
ghost use Rattle.tabled_changes.specs.declared.resizing.Resizes.TheVariants as resizing;
ghost use Rattle.tabled_formatting.specs.Formatting.{padding_set};

use crate::side_colors::{OfPadding, SideColors};
use crate::texts::side_texts;
use tabled_border::{AnsiText, OutOfMemory};
use tabled_changes::{Resizes, SetCells};
use tabled_configuration::SpannedConfig;
use tabled_object::Entity;

/// The color of the padding of cells on each side.
pub type PaddingColor<C> = SideColors<C, OfPadding>;

impl<C: AnsiText> SetCells for PaddingColor<C> {
    ghost sets = { padding_set C.prefix_text C.suffix_text };

    ghost resizes = { resizing.Always };

    ghost takes_no_memory = { λ given. ⊥ };

    ghost leaves_colors = { λ given entity. refl };

    /// Sets the color of the padding on each side for the cells of the entity. Where memory is refused nothing changes.
    fn set_cells(&self, config: &mut SpannedConfig, entity: Entity) -> Result<(), OutOfMemory> {
        let texts = side_texts(config.allocator(), &self.colors)?;
        config.set_padding_color(entity, texts)
    }

    fn resizes() -> Resizes {
        Resizes::Always
    }
}
