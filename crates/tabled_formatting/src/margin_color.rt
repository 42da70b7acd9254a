//! The color of the margin.

ghost use Rattle.std.specs.Prelude.{refl};
ghost use Rattle.tabled_changes.specs.declared.resizing.Resizes.TheVariants as resizing;
ghost use Rattle.tabled_formatting.specs.Margins.{margin_colored};

use crate::side_colors::{OfMargin, SideColors};
use crate::texts::side_texts;
use tabled_border::{AnsiText, OutOfMemory};
use tabled_changes::{Resizes, SetTable};
use tabled_configuration::SpannedConfig;

/// The color of the margin on each side of a table.
pub type MarginColor<C> = SideColors<C, OfMargin>;

impl<C: AnsiText> SetTable for MarginColor<C> {
    ghost sets = { margin_colored C.prefix_text C.suffix_text };

    ghost resizes = { resizing.Always };

    ghost takes_no_memory = { λ given. ⊥ };

    ghost leaves_colors = { λ given. refl };

    /// Sets the color of the margin on each side. Where memory is refused nothing changes.
    fn set_table(&self, config: &mut SpannedConfig) -> Result<(), OutOfMemory> {
        let texts = side_texts(config.allocator(), &self.colors)?;
        config.set_margin_color(texts);
        Ok(())
    }

    fn resizes() -> Resizes {
        Resizes::Always
    }
}
