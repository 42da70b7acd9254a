//! Two objects as one.

ghost use Rattle.std.specs.Prelude.{◌≡◌, ◌++◌};

use crate::{Difference, Entity, ExactRecords, Intersection, Object, Records, SegmentAll};
use std::alloc::Global;
use std::iter::Chain;
use tabled_border::OutOfMemory;

/// How an object and another make one.
pub trait Combine: Sized {
    /// What this object lists, and then what the other one lists.
    final fn and<O>(self, other: O) -> Union<Self, O>
        ensures left { result.left ≡ self }
        ensures right { result.right ≡ other }
    {
        Union {
            left: self,
            right: other,
        }
    }

    /// The cells of the table that this object covers and the other one does not, in row order.
    final fn not<O>(self, other: O) -> Difference<Self, O>
        ensures kept { result.kept ≡ self }
        ensures left_out { result.left_out ≡ other }
    {
        Difference {
            kept: self,
            left_out: other,
        }
    }

    /// The cells of the table that this object and the other one both cover, in row order.
    final fn intersect<O>(self, other: O) -> Intersection<Self, O>
        ensures left { result.left ≡ self }
        ensures right { result.right ≡ other }
    {
        Intersection {
            left: self,
            right: other,
        }
    }

    /// The cells of the table that this object does not cover, in row order.
    final fn inverse(self) -> Difference<SegmentAll, Self>
        ensures { result.left_out ≡ self }
    {
        SegmentAll.not(self)
    }
}

/// Two objects, one after the other.
#[derive(Debug, Drop)]
pub struct Union<A, B> {
    /// What is listed first.
    pub left: A,
    /// What is listed then.
    pub right: B,
}

impl<R: Records + ExactRecords, A: Object<R>, B: Object<R>> Object<R> for Union<A, B> {
    type Iter = Chain<A::Iter, B::Iter>;

    ghost listing = { λ both rows cols. A.listing both.left rows cols ++ B.listing both.right rows cols };

    ghost takes_no_memory = { λ both. A.takes_no_memory both.left × B.takes_no_memory both.right };

    fn cells(&self, alloc: Global, records: &R) -> Result<Self::Iter, OutOfMemory> {
        let left = self.left.cells(alloc, records)?;
        Ok(left.chain(self.right.cells(alloc, records)?))
    }
}

impl<A, B> Combine for Union<A, B> {}
