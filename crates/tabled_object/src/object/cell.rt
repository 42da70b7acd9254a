//! Single cells as objects.

ghost use Rattle.std.specs.Prelude.{⊤, ◌≡◌};
ghost use Rattle.tabled_object.specs.Listing.{one_cell};

use crate::{Combine, Entity, ExactRecords, Object, Position, Records};
use std::alloc::Global;
use std::iter::{self, Once};
use tabled_border::OutOfMemory;

/// One cell: it lists itself, also where the table has no such cell.
#[derive(Debug, Drop)]
pub struct Cell {
    /// The row of the cell, counted from 0.
    pub row: usize,
    /// The column of the cell, counted from 0.
    pub col: usize,
}

impl Cell {
    /// Makes the cell of that row and column.
    pub fn new(row: usize, col: usize) -> Self
        ensures row { result.row ≡ row }
        ensures col { result.col ≡ col }
    {
        Cell { row, col }
    }
}

impl<R: Records + ExactRecords> Object<R> for Cell {
    type Iter = Once<Entity>;

    ghost listing = { λ cell _ _. one_cell cell.row cell.col };

    ghost takes_no_memory = { λ _. ⊤ };

    fn cells(&self, _alloc: Global, _records: &R) -> Result<Self::Iter, OutOfMemory> {
        Ok(iter::once(Entity::Cell(self.row, self.col)))
    }
}

impl Combine for Cell {}

impl<R: Records + ExactRecords> Object<R> for Position {
    type Iter = Once<Entity>;

    ghost listing = { λ cell _ _. one_cell cell.row cell.col };

    ghost takes_no_memory = { λ _. ⊤ };

    fn cells(&self, _alloc: Global, _records: &R) -> Result<Self::Iter, OutOfMemory> {
        Ok(iter::once(Entity::Cell(self.row, self.col)))
    }
}

impl Combine for Position {}

impl<R: Records + ExactRecords> Object<R> for (usize, usize) {
    type Iter = Once<Entity>;

    ghost listing = { λ cell _ _. one_cell cell.0 cell.1 };

    ghost takes_no_memory = { λ _. ⊤ };

    fn cells(&self, _alloc: Global, _records: &R) -> Result<Self::Iter, OutOfMemory> {
        let (row, col) = *self;
        Ok(iter::once(Entity::Cell(row, col)))
    }
}

impl Combine for (usize, usize) {}
