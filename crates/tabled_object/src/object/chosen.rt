//! Cells of a table that pass a test, one by one.

ghost use Rattle.std.specs.Prelude.{◌≡◌};
ghost use Rattle.std.specs.Iterator.{YieldsFirst, item_count};
ghost use Rattle.tabled_object.specs.Chosen.{passes};
ghost use Rattle.tabled_object.specs.Listing.{chosen, is_outermost};

use crate::object::covering::is_covered;
use crate::{Entity, EntityIterator, Position};
use std::collections::BTreeSet;
use std::marker::Model;

/// Whether a cell stands in the first or the last row or column, of so many.
fn is_outermost(rows: usize, cols: usize, cell: Position) -> bool
    ensures { result ≡ is_outermost rows cols cell }
{
    let Position { row, col } = cell;
    (row == 0 || row == rows.saturating_sub(1)) || (col == 0 || col == cols.saturating_sub(1))
}

/// Which cells are chosen.
#[derive(Debug, Drop)]
pub(crate) enum CellTest {
    /// Each cell.
    All,
    /// The outermost ones of so many rows and columns.
    Frame(usize, usize),
    /// Those that the first entities cover, and the others too.
    Intersection(BTreeSet<Entity>, BTreeSet<Entity>),
    /// Those that the first entities cover and the others do not.
    Difference(BTreeSet<Entity>, BTreeSet<Entity>),
}

impl CellTest {
    /// Whether a cell is chosen.
    fn passes(&self, cell: Position) -> bool
        ensures { result ≡ passes self.now cell }
    {
        match self {
            CellTest::All => true,
            CellTest::Frame(rows, cols) => is_outermost(*rows, *cols, cell),
            CellTest::Intersection(one, other) => is_covered(one, cell) && is_covered(other, cell),
            CellTest::Difference(kept, left_out) => {
                is_covered(kept, cell) && !is_covered(left_out, cell)
            }
        }
    }
}

/// Cells that an object lists one by one, in row order. In contracts it is the list of those that are left.
#[derive(Debug, Drop)]
pub struct CellIterator {
    /// The cells that have not been looked at.
    cells: EntityIterator,
    /// Which of them are listed.
    test: CellTest,
}

impl Model for CellIterator {
    ghost use Rattle.std.specs.Prelude.{List};
    ghost use Rattle.tabled_object.specs.declared.entity.Entity.{Entity};
    ghost use Rattle.tabled_object.specs.Chosen.{passes};
    ghost use Rattle.tabled_object.specs.Listing.{chosen};

    ghost Value = { List Entity };

    ghost view = { λ it. chosen (passes it.test) it.cells };
}

impl CellIterator {
    /// Those of some cells that pass a test.
    pub(crate) fn new(cells: EntityIterator, test: CellTest) -> Self
        ensures { result ≡ chosen (passes test) cells }
    {
        CellIterator { cells, test }
    }
}

impl Iterator for CellIterator {
    type Item = Entity;

    ghost next_gives = { YieldsFirst (λ rest. rest) };

    ghost remaining = { item_count (λ rest. rest) };

    fn next(&mut self) -> Option<Entity> {
        while let Some(cell) = self.cells.next() {
            if self.test.passes(cell) {
                return Some(Entity::Cell(cell.row, cell.col));
            }
        }
        None
    }
}
