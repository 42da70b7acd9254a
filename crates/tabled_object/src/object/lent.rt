//! Objects that are lent.

use crate::{Combine, ExactRecords, Object, Records};
use std::alloc::Global;
use tabled_border::OutOfMemory;

/// A lent object lists what the object itself lists.
impl<R: Records + ExactRecords, O: Object<R>> Object<R> for &O {
    type Iter = O::Iter;

    ghost listing = { λ object rows cols. O.listing object.now rows cols };

    ghost takes_no_memory = { λ object. O.takes_no_memory object.now };

    fn cells(&self, alloc: Global, records: &R) -> Result<Self::Iter, OutOfMemory> {
        let object: &O = *self;
        object.cells(alloc, records)
    }
}

impl<O: Combine> Combine for &O {}
