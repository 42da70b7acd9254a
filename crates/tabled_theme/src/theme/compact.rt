//! A theme as an option on compact configurations.

ghost use Rattle.tabled_changes.specs.declared.resizing.Resizes.TheVariants as resizing;

use super::Theme;
use tabled_changes::{Resizes, SetCompact};
use tabled_compact::{CompactConfig, CompactMultilineConfig};

/// Sets the class record: lines and colors are left out.
impl SetCompact<CompactConfig> for Theme {
    ghost sets = { λ theme old. record old { borders = theme.characters } };

    ghost resizes = { resizing.Always };

    fn set_compact(&self, cfg: &mut CompactConfig) {
        *cfg = cfg.set_borders(self.characters);
    }

    fn resizes() -> Resizes {
        Resizes::Always
    }
}

/// Sets the class record: lines and colors are left out.
impl SetCompact<CompactMultilineConfig> for Theme {
    ghost sets = { λ theme old. record old { borders = theme.characters } };

    ghost resizes = { resizing.Always };

    fn set_compact(&self, cfg: &mut CompactMultilineConfig) {
        cfg.set_borders(self.characters);
    }

    fn resizes() -> Resizes {
        Resizes::Always
    }
}
