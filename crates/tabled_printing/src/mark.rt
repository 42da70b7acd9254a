//! What the places of a line show.

ghost use Rattle.std.specs.Prelude.{◌≡◌, ℕ, None};
ghost use Rattle.tabled_kept.specs.Probing.{IsRaised};
ghost use Rattle.tabled_configuration.specs.Configuration.{all_writes};
ghost use Rattle.tabled_printing.specs.Marks.{mark_of};
ghost use Rattle.tabled_printing.specs.Picture.{character, edge_size, look, mark_at};
ghost use Rattle.tabled_printing.specs.Beside as kept;
ghost use Rattle.tabled_printing.specs.Viewed.{with_colors_if};

use tabled_border::ANSIBuf;
use tabled_configuration::SpannedConfig;
use tabled_grid::Place;
use tabled_kept::Meter;

/// What one place shows: its character and its color, as far as it has them.
#[derive(Clone, Copy, Debug)]
pub struct Mark<'a> {
    /// The character; a place without one is printed as a space.
    pub shown: Option<char>,
    /// The color.
    pub color: Option<&'a ANSIBuf>,
}

impl Mark<'_> {
    /// A mark without a color.
    pub(crate) fn uncolored(shown: Option<char>) -> Self
        ensures { mark_of result ≡ (shown, None) }
    {
        Mark { shown, color: None }
    }
}

/// Returns the character that is printed for what a place shows, a space for nothing.
pub fn printed_as(shown: Option<char>) -> char
    ensures { result ≡ character shown }
{
    shown.unwrap_or(' ')
}

/// Places next to each other along a line that show the same.
#[derive(Clone, Copy, Debug)]
pub struct Run<'a> {
    /// What each of them shows.
    pub mark: Mark<'a>,
    /// How many they are.
    pub count: usize,
}

/// What a place shows, whose edge has `size` places, with its color if that is wanted: at most twelve readings.
pub(crate) fn mark_seen<'a, M: Meter>(
    cfg: &'a SpannedConfig<M>,
    shape: (usize, usize),
    place: Place,
    size: usize,
    with_colors: bool,
    probes: &mut M,
) -> Mark<'a>
    ensures mark { (widths heights : ℕ → ℕ) → size ≡ edge_size widths heights place
        → mark_of result ≡ mark_at (with_colors_if with_colors (look (all_writes cfg.now) shape widths heights)) place }
    ensures probes { IsRaised 12 (M.made probes.old) (M.made probes.new) }
{
    let shown = cfg.char_at(place, shape, size, probes);
    if !with_colors {
        return Mark::uncolored(shown);
    }
    Mark {
        shown,
        color: cfg.color_at(place, shape, size, probes),
    }
}

/// What is kept for a place without its offsets, with its color if that is wanted: at most ten readings.
pub(crate) fn plain_mark<'a, M: Meter>(
    cfg: &'a SpannedConfig<M>,
    shape: (usize, usize),
    place: Place,
    with_colors: bool,
    probes: &mut M,
) -> Mark<'a>
    ensures mark { mark_of result ≡ kept.plain_mark cfg.now with_colors shape place }
    ensures probes { IsRaised 10 (M.made probes.old) (M.made probes.new) }
{
    let shown = cfg.read_plain_char(place, shape, probes);
    if !with_colors {
        return Mark::uncolored(shown);
    }
    Mark {
        shown,
        color: cfg.read_plain_color(place, shape, probes),
    }
}
