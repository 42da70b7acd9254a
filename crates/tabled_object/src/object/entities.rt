//! Entities as objects, one and several: cells that are chosen while the program runs.

ghost use Rattle.std.specs.Prelude.{⊤};
ghost use Rattle.tabled_object.specs.Listing.{one_entity};

use crate::{Combine, Entity, ExactRecords, Object, Records};
use std::alloc::Global;
use std::array;
use std::iter::{self, Copied, Once};
use std::slice::Iter;
use std::vec::IntoIter;
use tabled_border::OutOfMemory;

/// An entity lists itself, also where the table has none of its cells.
impl<R: Records + ExactRecords> Object<R> for Entity {
    type Iter = Once<Entity>;

    ghost listing = { λ entity _ _. one_entity entity };

    ghost takes_no_memory = { λ _. ⊤ };

    fn cells(&self, _alloc: Global, _records: &R) -> Result<Self::Iter, OutOfMemory> {
        Ok(iter::once(*self))
    }
}

impl Combine for Entity {}

/// A slice of entities lists them in order, also those of which the table has no cells. A repeat is listed again.
impl<'a, R: Records + ExactRecords> Object<R> for &'a [Entity] {
    type Iter = Copied<Iter<'a, Entity>>;

    ghost listing = { λ entities _ _. entities.now };

    ghost takes_no_memory = { λ _. ⊤ };

    fn cells(&self, _alloc: Global, _records: &R) -> Result<Self::Iter, OutOfMemory> {
        Ok(self.iter().copied())
    }
}

impl<'a> Combine for &'a [Entity] {}

/// A list of entities lists them in order, also those of which the table has no cells. A repeat is listed again. The entities are
/// copied, which takes memory; a slice of them takes none.
impl<R: Records + ExactRecords> Object<R> for Vec<Entity> {
    type Iter = IntoIter<Entity>;

    ghost listing = { λ entities _ _. entities.items };

    fn cells(&self, alloc: Global, _records: &R) -> Result<Self::Iter, OutOfMemory> {
        let entities = Vec::from_slice(alloc, self)?;
        Ok(entities.into_iter())
    }
}

impl Combine for Vec<Entity> {}

/// An array of entities lists them in order, also those of which the table has no cells. A repeat is listed again.
impl<R: Records + ExactRecords, const N: usize> Object<R> for [Entity; N] {
    type Iter = array::IntoIter<Entity, N>;

    ghost listing = { λ entities _ _. entities };

    ghost takes_no_memory = { λ _. ⊤ };

    fn cells(&self, _alloc: Global, _records: &R) -> Result<Self::Iter, OutOfMemory> {
        let entities = *self;
        Ok(entities.into_iter())
    }
}

impl<const N: usize> Combine for [Entity; N] {}
