//! The cells of one object without those of another.

ghost use Rattle.tabled_object.specs.Listing.{difference};

use crate::object::chosen::{CellIterator, CellTest};
use crate::{Combine, Entity, ExactRecords, Object, Records};
use std::alloc::Global;
use tabled_border::OutOfMemory;

/// The cells of one object without those of another: it lists them one by one, in row order.
///
/// Only what the two objects list takes memory. A cell of the table is looked up in it when it is its turn, so
/// the whole listing takes time for each cell, times the logarithm of what they list.
#[derive(Debug, Drop)]
pub struct Difference<A, B> {
    /// Whose cells are listed.
    pub kept: A,
    /// Whose cells are left out.
    pub left_out: B,
}

impl<R: Records + ExactRecords, A: Object<R>, B: Object<R>> Object<R> for Difference<A, B> {
    type Iter = CellIterator;

    ghost listing = { λ both rows cols. difference (A.listing both.kept rows cols) (B.listing both.left_out rows cols) rows cols };

    fn cells(&self, alloc: Global, records: &R) -> Result<Self::Iter, OutOfMemory> {
        let kept = self.kept.cells(alloc, records)?.collect(alloc)?;
        let left_out = self.left_out.cells(alloc, records)?.collect(alloc)?;
        let cells = Entity::Global.iter(records.count_rows(), records.count_columns());
        Ok(CellIterator::new(cells, CellTest::Difference(kept, left_out)))
    }
}

impl<A, B> Combine for Difference<A, B> {}
