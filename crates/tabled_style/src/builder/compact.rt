//! A style as an option on compact configurations.

ghost use Rattle.tabled_changes.specs.declared.resizing.Resizes.TheVariants as resizing;

use super::Style;
use tabled_changes::{Resizes, SetCompact};
use tabled_compact::{CompactConfig, CompactMultilineConfig};

/// Sets the class record: custom lines are left out.
impl<T, B, L, R, H, V, const HN: usize, const VN: usize> SetCompact<CompactConfig>
    for Style<T, B, L, R, H, V, HN, VN> {
    ghost sets = { λ style old. record old { borders = style.borders } };

    ghost resizes = { resizing.Never };

    fn set_compact(&self, cfg: &mut CompactConfig) {
        *cfg = cfg.set_borders(self.borders);
    }

    fn resizes() -> Resizes {
        Resizes::Never
    }
}

/// Sets the class record: custom lines are left out.
impl<T, B, L, R, H, V, const HN: usize, const VN: usize> SetCompact<CompactMultilineConfig>
    for Style<T, B, L, R, H, V, HN, VN> {
    ghost sets = { λ style old. record old { borders = style.borders } };

    ghost resizes = { resizing.Never };

    fn set_compact(&self, cfg: &mut CompactMultilineConfig) {
        cfg.set_borders(self.borders);
    }

    fn resizes() -> Resizes {
        Resizes::Never
    }
}
