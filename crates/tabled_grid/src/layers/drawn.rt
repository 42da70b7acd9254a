//! Which lines are drawn.

ghost use Rattle.std.specs.Prelude.{◌≡◌, ◌↔◌, ◌<◌, ◌≤◌, false, IsTrue, None};
ghost use Rattle.std.specs.Ordering.{nat_cmp};
ghost use Rattle.tabled_places.specs.Drawn.{number};
ghost use Rattle.tabled_places.specs.Keys.{line_cmp};
ghost use Rattle.tabled_kept.specs.Probing.{IsCounted, IsRaised};
ghost use Rattle.tabled_grid.specs.Counted.{across_drawn, line_drawn};
ghost use Rattle.tabled_places.specs.State.{class_draws as class_drawn};
ghost use Rattle.tabled_kept.specs.Table.{table};

use super::Layers;
use crate::line_numbers::KeptNumbers;
use crate::{Borders, LineOf, Rank};
use tabled_kept::{CountedMap, Meter, One};

/// Written for every type of meters, as the other look-ups are.
impl<T, M: Meter> Layers<T, M> {
    ghost use Rattle.tabled_places.specs.Drawn.{Drawn};
    ghost use Rattle.tabled_places.specs.State.{state_at};

    /// Returns whether a line is drawn, of the lines 0 to `count` of its direction. At most six readings are made, and five where `count`
    /// is not 0.
    #[inline(always)]
    pub fn draws(&self, line: LineOf, count: usize, probes: &mut M) -> bool
        ensures drawn { IsTrue result ↔ Drawn (state_at self.now) count line }
        ensures probes { IsRaised 6 (M.made probes.old) (M.made probes.new) }
        ensures of_several { 0 < count → IsRaised 5 (M.made probes.old) (M.made probes.new) }
    {
        if line.number() > count {
            return false;
        }
        if self.default_value.read(probes).is_some() {
            return true;
        }
        if class_draws(&self.class_record, line, count, probes) {
            return true;
        }
        self.draws_above(line, count, probes)
    }

    /// Whether a line is drawn of which it is known that neither the default nor the class record draws it. Out of line, so that one that
    /// these draw is soon told.
    #[inline(never)]
    fn draws_above(&self, line: LineOf, count: usize, probes: &mut M) -> bool
        requires there { number line ≤ count }
        requires default { self.now.default_value ≡ None }
        requires class { class_drawn self.now.class_record count line ≡ false }
        ensures drawn { IsTrue result ↔ Drawn (state_at self.now) count line }
        ensures probes { IsRaised 4 (M.made probes.old) (M.made probes.new) }
        ensures of_several { 0 < count → IsRaised 3 (M.made probes.old) (M.made probes.new) }
    {
        let on_lines = &self.on_lines;
        match line {
            LineOf::Horizontal(_) => {
                let (own, across) = (&self.horizontal_lines, &self.vertical_numbers);
                is_drawn(own, across, on_lines, (line, count), probes)
            }
            LineOf::Vertical(_) => {
                let (own, across) = (&self.vertical_lines, &self.horizontal_numbers);
                is_drawn(own, across, on_lines, (line, count), probes)
            }
        }
    }
}

/// Whether the class record draws a line: one reading.
#[inline(always)]
fn class_draws<T, M: Meter>(
    class: &One<Borders<T>, M>,
    line: LineOf,
    count: usize,
    probes: &mut M,
) -> bool
    ensures drawn { result ≡ class_drawn class.now count line }
    ensures counted { IsCounted (M.made probes.old) (M.made probes.new) }
    ensures raised { IsRaised 1 (M.made probes.old) (M.made probes.new) }
{
    let class = class.read(probes);
    match line {
        LineOf::Horizontal(row) => {
            (row == 0 && class.has_top())
                || (row == count && class.has_bottom())
                || (0 < row && row < count && class.has_horizontal())
        }
        LineOf::Vertical(col) => {
            (col == 0 && class.has_left())
                || (col == count && class.has_right())
                || (0 < col && col < count && class.has_vertical())
        }
    }
}

/// Whether a line, of the lines 0 to `line.1` of its direction, is drawn by the custom line that stands there, by those that cross it,
/// or by the cells on it: at most four readings.
fn is_drawn<L, M: Meter>(
    own: &CountedMap<usize, L, M>,
    across: &KeptNumbers<M>,
    on_lines: &CountedMap<LineOf, u128, M>,
    line: (LineOf, usize),
    probes: &mut M,
) -> bool
    ensures drawn { result ≡ line_drawn (table nat_cmp own.now) across.now (table line_cmp on_lines.now) line.1 line.0 }
    ensures probes { IsRaised 4 (M.made probes.old) (M.made probes.new) }
    ensures of_several { 0 < line.1 → IsRaised 3 (M.made probes.old) (M.made probes.new) }
{
    let (line, count) = line;
    own.read(line.number(), probes).is_some()
        || is_drawn_across(across, line.number(), count, probes)
        || on_lines.read(line, probes).copied().unwrap_or(0) > 0
}

/// Whether custom lines draw a line that they cross, of the lines 0 to `count`: at most two readings, and one where that is not the only
/// line.
fn is_drawn_across<M: Meter>(
    numbers: &KeptNumbers<M>,
    line: usize,
    count: usize,
    probes: &mut M,
) -> bool
    ensures drawn { result ≡ across_drawn numbers.now count line }
    ensures probes { IsRaised 2 (M.made probes.old) (M.made probes.new) }
    ensures of_several { 0 < count → IsRaised 1 (M.made probes.old) (M.made probes.new) }
{
    (line == 0 && numbers.read(Rank::First, probes) > 0)
        || (line == count && numbers.read(Rank::Last, probes) > 0)
        || (0 < line && line < count && numbers.read(Rank::Inner, probes) > 0)
}
