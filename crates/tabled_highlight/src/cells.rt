//! The cells of a table that entities name, as a set.

ghost use Rattle.std.specs.Prelude.{◌≡◌, ◌||◌, [], ◌∷◌, IfOk, OnOk, IsTrue, false};
ghost use Rattle.tabled_object.specs.declared.position.Position.{Position as At};
ghost use Rattle.tabled_object.specs.Entities.{is_inside};
ghost use Rattle.tabled_object.specs.Listing.{covered, listed};
ghost use Rattle.tabled_highlight.specs.Around.{has};

use std::alloc::Global;
use std::collections::BTreeSet;
use tabled_border::OutOfMemory;
use tabled_object::{Entity, Position};

/// The cells of a table of `shape.0` rows and `shape.1` columns that entities name, each once, in row order.
pub(crate) fn cells_inside(
    alloc: Global,
    entities: &BTreeSet<Entity>,
    shape: (usize, usize),
) -> Result<BTreeSet<Position>, OutOfMemory>
    ensures { IfOk result (λ cells. (pos : At) → has cells.keys pos ≡ listed entities.now.keys shape.0 shape.1 pos) }
{
    let mut cells = BTreeSet::new(alloc);
    for entity in entities {
        add_cells(&mut cells, *entity, shape)?;
    }
    Ok(cells)
}

/// Adds the cells of an entity that lie in a table of `shape.0` rows and `shape.1` columns.
fn add_cells(
    cells: &mut BTreeSet<Position>,
    entity: Entity,
    shape: (usize, usize),
) -> Result<(), OutOfMemory>
    ensures { OnOk result ((pos : At) → has cells.new.keys pos ≡ (has cells.old.keys pos || listed (entity ∷ []) shape.0 shape.1 pos)) }
{
    if lies_outside(entity, shape) {
        return Ok(());
    }
    for pos in entity.iter(shape.0, shape.1) {
        if is_inside(pos, shape) {
            cells.insert(pos)?;
        }
    }
    Ok(())
}

/// Whether an entity is a row or a column outside a table of `shape.0` rows and `shape.1` columns, which names no cell of it.
fn lies_outside(entity: Entity, shape: (usize, usize)) -> bool
    ensures { IsTrue result → (pos : At) → listed (entity ∷ []) shape.0 shape.1 pos ≡ false }
{
    match entity {
        Entity::Row(row) => row >= shape.0,
        Entity::Column(col) => col >= shape.1,
        _ => false,
    }
}

/// Whether a cell lies in a table of `shape.0` rows and `shape.1` columns.
fn is_inside(pos: Position, shape: (usize, usize)) -> bool
    ensures { result ≡ is_inside shape.0 shape.1 pos }
{
    pos.row < shape.0 && pos.col < shape.1
}
