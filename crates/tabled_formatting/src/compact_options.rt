//! Options on compact configurations. None of them takes memory.

ghost use Rattle.tabled_changes.specs.declared.resizing.Resizes.TheVariants as resizing;
ghost use Rattle.tabled_formatting.specs.Formatting.{each_line};
ghost use Rattle.tabled_formatting.specs.Compact.{compact_aligned, multiline_aligned};

use crate::{Alignment, AlignmentStrategy, MarginColor, PaddingColor};
use tabled_border::ANSIStr;
use tabled_changes::{Resizes, SetCompact};
use tabled_compact::{CompactConfig, CompactMultilineConfig};

/// Sets an alignment between the left and the right side; one between the upper and the lower side changes nothing.
impl SetCompact<CompactConfig> for Alignment {
    ghost sets = { compact_aligned };

    ghost resizes = { resizing.Never };

    fn set_compact(&self, cfg: &mut CompactConfig) {
        if let Alignment::Horizontal(alignment) = *self {
            *cfg = cfg.set_alignment_horizontal(alignment);
        }
    }

    fn resizes() -> Resizes {
        Resizes::Never
    }
}

/// Sets the alignment of its own direction.
impl SetCompact<CompactMultilineConfig> for Alignment {
    ghost sets = { multiline_aligned };

    ghost resizes = { resizing.Never };

    fn set_compact(&self, cfg: &mut CompactMultilineConfig) {
        match *self {
            Alignment::Horizontal(alignment) => cfg.set_alignment_horizontal(alignment),
            Alignment::Vertical(alignment) => cfg.set_alignment_vertical(alignment),
        }
    }

    fn resizes() -> Resizes {
        Resizes::Never
    }
}

/// Sets whether each line is aligned by itself.
impl SetCompact<CompactMultilineConfig> for AlignmentStrategy {
    ghost sets = { λ strategy old. record old { formatting = record old.formatting { allow_lines_alignment = each_line strategy } } };

    ghost resizes = { resizing.Never };

    fn set_compact(&self, cfg: &mut CompactMultilineConfig) {
        let mut formatting = cfg.get_formatting();
        formatting.allow_lines_alignment = self.is_per_line();
        cfg.set_formatting(formatting);
    }

    fn resizes() -> Resizes {
        Resizes::Never
    }
}

/// Sets the color of the padding on each side.
impl SetCompact<CompactConfig> for PaddingColor<ANSIStr<'static>> {
    ghost sets = { λ given old. record old { padding_color = given } };

    ghost resizes = { resizing.Always };

    fn set_compact(&self, cfg: &mut CompactConfig) {
        *cfg = cfg.set_padding_color(self.colors);
    }

    fn resizes() -> Resizes {
        Resizes::Always
    }
}

/// Sets the color of the padding on each side.
impl SetCompact<CompactMultilineConfig> for PaddingColor<ANSIStr<'static>> {
    ghost sets = { λ given old. record old { padding_color = given } };

    ghost resizes = { resizing.Always };

    fn set_compact(&self, cfg: &mut CompactMultilineConfig) {
        cfg.set_padding_color(self.colors);
    }

    fn resizes() -> Resizes {
        Resizes::Always
    }
}

/// Sets the color of the margin on each side.
impl SetCompact<CompactConfig> for MarginColor<ANSIStr<'static>> {
    ghost sets = { λ given old. record old { margin_color = given } };

    ghost resizes = { resizing.Always };

    fn set_compact(&self, cfg: &mut CompactConfig) {
        *cfg = cfg.set_margin_color(self.colors);
    }

    fn resizes() -> Resizes {
        Resizes::Always
    }
}

/// Sets the color of the margin on each side.
impl SetCompact<CompactMultilineConfig> for MarginColor<ANSIStr<'static>> {
    ghost sets = { λ given old. record old { margin_color = given } };

    ghost resizes = { resizing.Always };

    fn set_compact(&self, cfg: &mut CompactMultilineConfig) {
        cfg.set_margin_color(self.colors);
    }

    fn resizes() -> Resizes {
        Resizes::Always
    }
}
