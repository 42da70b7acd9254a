//! What one place shows, and whether a line is drawn. Each look-up is promised for every type of meters, so that none of its
//! readings can go uncounted: where it were written for one type of them alone, it would not be proved here.

ghost use Rattle.std.specs.Prelude.{◌≡◌, ◌↔◌, ℕ, [], ◌∷◌, map, IsTrue, option_copied};
ghost use Rattle.tabled_places.specs.declared.place.Place.{Place as At};
ghost use Rattle.tabled_places.specs.Drawn.{Drawn};
ghost use Rattle.tabled_kept.specs.Probing.{IsCounted, IsRaised};
ghost use Rattle.tabled_places.specs.Site.{level};
ghost use Rattle.tabled_places.specs.State.{state_at};
ghost use Rattle.tabled_places.specs.Value.{sites, value};

use tabled_border::ANSIBuf;
use tabled_configuration::SpannedConfig;
use tabled_grid::{LineOf, Place};
use tabled_kept::Meter;

/// The character of a place is the one that is kept at the strongest level, found in at most six readings.
pub fn character_of_a_place<M: Meter>(
    cfg: &SpannedConfig<M>,
    place: Place,
    shape: (usize, usize),
    size: usize,
    probes: &mut M,
) -> Option<char>
    ensures value { result ≡ value (state_at cfg.now.characters) shape size place }
    ensures six_readings { IsRaised 6 (M.made probes.old) (M.made probes.new) }
{
    cfg.char_at(place, shape, size, probes)
}

/// The color of a place is the one that is kept at the strongest level, found in at most six readings.
pub fn color_of_a_place<'a, M: Meter>(
    cfg: &'a SpannedConfig<M>,
    place: Place,
    shape: (usize, usize),
    size: usize,
    probes: &mut M,
) -> Option<&'a ANSIBuf>
    ensures value { option_copied result ≡ value (state_at cfg.now.colors) shape size place }
    ensures six_readings { IsRaised 6 (M.made probes.old) (M.made probes.new) }
{
    cfg.color_at(place, shape, size, probes)
}

/// A line, of the lines 0 to `count` of its direction, is drawn where something is kept that draws it, found in at most six
/// readings.
pub fn line_is_drawn<M: Meter>(
    cfg: &SpannedConfig<M>,
    line: LineOf,
    count: usize,
    probes: &mut M,
) -> bool
    ensures drawn { IsTrue result ↔ Drawn (state_at cfg.now.characters) count line }
    ensures six_readings { IsRaised 6 (M.made probes.old) (M.made probes.new) }
{
    cfg.draws(line, count, probes)
}

/// A reading raises the meter that is lent by one, up to its end.
pub fn reading_is_counted<M: Meter>(probes: &mut M)
    ensures counted { IsCounted (M.made probes.old) (M.made probes.new) }
    ensures raised { IsRaised 1 (M.made probes.old) (M.made probes.new) }
{
    probes.raise();
}

/// The sites of a place stand in the order of their levels, the strongest first: of an edge those of the offsets from its start
/// and from its end, of cells, of its custom line, of classes, and the default; of a crossing those of cells, of the horizontal
/// and of the vertical custom line, of classes, and the default.
pub fn sites_fall_by_level()
    ensures horizontal { (shape : ℕ × ℕ) (size r c k : ℕ) → map level (sites shape size (At.Horizontal r c k)) ≡ 6 ∷ 5 ∷ 4 ∷ 3 ∷ 1 ∷ 0 ∷ [] }
    ensures vertical { (shape : ℕ × ℕ) (size r c k : ℕ) → map level (sites shape size (At.Vertical r c k)) ≡ 6 ∷ 5 ∷ 4 ∷ 2 ∷ 1 ∷ 0 ∷ [] }
    ensures crossing { (shape : ℕ × ℕ) (size r c : ℕ) → map level (sites shape size (At.Cross r c)) ≡ 4 ∷ 3 ∷ 2 ∷ 1 ∷ 0 ∷ [] }
{}
