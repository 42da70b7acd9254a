//! The outermost cells of a table as an object.

ghost use Rattle.std.specs.Prelude.{⊤};
ghost use Rattle.tabled_object.specs.Listing.{frame};

use crate::object::chosen::{CellIterator, CellTest};
use crate::{Combine, Entity, ExactRecords, Object, Records};
use std::alloc::Global;
use tabled_border::OutOfMemory;

/// The cells of the first and the last row and of the first and the last column: it lists them one by one, in row order, each once.
#[derive(Debug, Drop)]
pub struct Frame;

impl<R: Records + ExactRecords> Object<R> for Frame {
    type Iter = CellIterator;

    ghost listing = { λ _ rows cols. frame rows cols };

    ghost takes_no_memory = { λ _. ⊤ };

    fn cells(&self, _alloc: Global, records: &R) -> Result<Self::Iter, OutOfMemory> {
        let rows = records.count_rows();
        let cols = records.count_columns();
        let cells = Entity::Global.iter(rows, cols);
        Ok(CellIterator::new(cells, CellTest::Frame(rows, cols)))
    }
}

impl Combine for Frame {}
