//! The cells that two objects have in common.

ghost use Rattle.tabled_object.specs.Listing.{intersection};

use crate::object::chosen::{CellIterator, CellTest};
use crate::{Combine, Entity, ExactRecords, Object, Records};
use std::alloc::Global;
use tabled_border::OutOfMemory;

/// The cells that two objects have in common: it lists them one by one, in row order, each once.
///
/// Only what the two objects list takes memory. A cell of the table is looked up in it when it is its turn, so
/// the whole listing takes time for each cell, times the logarithm of what they list.
#[derive(Debug, Drop)]
pub struct Intersection<A, B> {
    /// The one object.
    pub left: A,
    /// The other object.
    pub right: B,
}

impl<R: Records + ExactRecords, A: Object<R>, B: Object<R>> Object<R> for Intersection<A, B> {
    type Iter = CellIterator;

    ghost listing = { λ both rows cols. intersection (A.listing both.left rows cols) (B.listing both.right rows cols) rows cols };

    fn cells(&self, alloc: Global, records: &R) -> Result<Self::Iter, OutOfMemory> {
        let left = self.left.cells(alloc, records)?.collect(alloc)?;
        let right = self.right.cells(alloc, records)?.collect(alloc)?;
        let cells = Entity::Global.iter(records.count_rows(), records.count_columns());
        Ok(CellIterator::new(cells, CellTest::Intersection(left, right)))
    }
}

impl<A, B> Combine for Intersection<A, B> {}
