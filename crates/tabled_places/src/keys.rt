//! The keys of what a store keeps: lines, edges and crossings, and the numbered places of edges. Small numbers have a slot.

use crate::{Direction, LineOf, Spot};
use tabled_keys::{Key, Slot};
use tabled_object::Offset;

/// The first number of a line, of an edge or of a crossing that has no slot.
const SLOTS_END: usize = 0x4000_0000;

impl Key for LineOf {
    ghost use Rattle.tabled_places.specs.Keys.{exact_lines};
    ghost use Rattle.tabled_places.specs.KeySlots.{slot_of_line, line_at, lines_back, lines_narrow};

    ghost slot_of = { slot_of_line };

    ghost key_at = { line_at };

    fn slot(self) -> Option<Slot> {
        let (row, col) = match self {
            LineOf::Horizontal(line) => (0, line),
            LineOf::Vertical(line) => (1, line),
        };
        if col < SLOTS_END {
            Some(Slot { row, col })
        } else {
            None
        }
    }

    ghost exact = { exact_lines };

    ghost back = { lines_back };

    ghost narrow = { lines_narrow };
}

impl Key for Spot {
    ghost use Rattle.tabled_places.specs.Keys.{exact_spots};
    ghost use Rattle.tabled_places.specs.KeySlots.{slot_of_spot, spot_at, spots_back, spots_narrow};

    ghost slot_of = { slot_of_spot };

    ghost key_at = { spot_at };

    fn slot(self) -> Option<Slot> {
        let (row, col, part) = match self {
            Spot::Edge(Direction::Horizontal, row, col) => (row, col, 0),
            Spot::Edge(Direction::Vertical, row, col) => (row, col, 1),
            Spot::Crossing(row, col) => (row, col, 2),
        };
        if row < SLOTS_END && col < SLOTS_END {
            Some(Slot {
                row,
                col: 3 * col + part,
            })
        } else {
            None
        }
    }

    ghost exact = { exact_spots };

    ghost back = { spots_back };

    ghost narrow = { spots_narrow };
}

/// One numbered place of an edge: the key of an offset.
#[derive(Clone, Copy, Debug, PartialEq, Eq, PartialOrd, Ord)]
pub struct EdgePlace {
    /// The row, or the horizontal line.
    pub row: usize,
    /// The column, or the vertical line.
    pub col: usize,
    /// The number of the place, and the end from which it is counted.
    pub offset: Offset,
}

/// Offsets have no slots.
impl Key for EdgePlace {
    ghost use Rattle.tabled_places.specs.Keys.{exact_edge_places};
    ghost use Rattle.tabled_places.specs.KeySlots.{no_slot, no_edge_place, no_slot_back, no_slot_narrow};

    ghost slot_of = { no_slot };

    ghost key_at = { no_edge_place };

    fn slot(self) -> Option<Slot> {
        None
    }

    ghost exact = { exact_edge_places };

    ghost back = { no_slot_back };

    ghost narrow = { no_slot_narrow };
}
