//! Whether something is kept at a level of a store. Written for every type of meters, as the look-ups are.

ghost use Rattle.std.specs.Prelude.{◌≡◌, ◌↔◌, ℕ, None, IsFalse};
ghost use Rattle.std.specs.FinMap as map;
ghost use Rattle.tabled_object.specs.declared.offset.Offset.{Offset as End};
ghost use Rattle.tabled_places.specs.Keys.{edge_place_cmp};
ghost use Rattle.tabled_kept.specs.Table.{table};
ghost use Rattle.tabled_kept.specs.Probing.{IsCounted, IsRaised};
ghost use Rattle.tabled_places.specs.State.{edge_place, HasNoCells, HasNoCellsOn, HasNoOffsetsAt};

use super::Layers;
use crate::{Direction, LineOf, Offset};
use tabled_kept::{CountedMap, Meter};
use tabled_places::EdgePlace;

impl<T, M: Meter> Layers<T, M> {
    /// Returns whether something is kept at an offset of an edge of a vertical line, from its start or its end: one reading.
    pub fn has_vertical_offsets(&self, probes: &mut M) -> bool
        ensures value { IsFalse result ↔ (self.now.vertical_offsets ≡ map.empty) }
        ensures probes { IsRaised 1 (M.made probes.old) (M.made probes.new) }
    {
        !self.vertical_offsets.is_empty(probes)
    }

    /// Returns whether something is kept for an edge or a crossing by itself: one reading.
    pub fn has_cells(&self, probes: &mut M) -> bool
        ensures value { IsFalse result ↔ HasNoCells self.now }
        ensures probes { IsRaised 1 (M.made probes.old) (M.made probes.new) }
    {
        !self.cells.is_empty(probes)
    }

    /// Returns whether something is kept for an edge or a crossing of a line by itself: one reading.
    pub fn has_cells_on(&self, line: LineOf, probes: &mut M) -> bool
        ensures value { IsFalse result ↔ HasNoCellsOn line self.now }
        ensures probes { IsRaised 1 (M.made probes.old) (M.made probes.new) }
    {
        self.on_lines.read(line, probes).copied().unwrap_or(0) > 0
    }

    /// Returns whether something is kept at an offset of an edge of that direction in a row: on the horizontal line of that number, or beside
    /// that row of cells. One reading.
    pub fn has_offsets_at(&self, direction: Direction, row: usize, probes: &mut M) -> bool
        ensures value { IsFalse result ↔ HasNoOffsetsAt direction row self.now }
        ensures probes { IsRaised 1 (M.made probes.old) (M.made probes.new) }
    {
        match direction {
            Direction::Horizontal => has_row(&self.horizontal_offsets, row, probes),
            Direction::Vertical => has_row(&self.vertical_offsets, row, probes),
        }
    }

    /// Returns whether a custom vertical line stands at some index: one reading.
    pub fn has_vlines(&self, probes: &mut M) -> bool
        ensures value { IsFalse result ↔ (self.now.vertical_lines ≡ map.empty) }
        ensures probes { IsRaised 1 (M.made probes.old) (M.made probes.new) }
    {
        !self.vertical_lines.is_empty(probes)
    }
}

/// Whether something is kept at an offset of an edge in a row: one reading.
fn has_row<T, M: Meter>(offsets: &CountedMap<EdgePlace, T, M>, row: usize, probes: &mut M) -> bool
    ensures value { IsFalse result ↔ ((c : ℕ) (offset : End) → map.get (table edge_place_cmp offsets.now) (edge_place row c offset) ≡ None) }
    ensures counted { IsCounted (M.made probes.old) (M.made probes.new) }
    ensures raised { IsRaised 1 (M.made probes.old) (M.made probes.new) }
{
    let first = EdgePlace {
        row,
        col: 0,
        offset: Offset::Start(0),
    };
    match offsets.first_from(first, probes) {
        Some(place) => place.row == row,
        None => false,
    }
}
