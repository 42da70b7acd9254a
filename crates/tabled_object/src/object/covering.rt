//! Which cells some entities cover.

ghost use Rattle.std.specs.Prelude.{◌≡◌, IfOk};
ghost use Rattle.tabled_object.specs.declared.position.Position.{Position as At};
ghost use Rattle.tabled_object.specs.Listing.{covered};

use crate::{Entity, ExactRecords, Object, Position, Records};
use std::alloc::Global;
use std::collections::BTreeSet;
use tabled_border::OutOfMemory;

/// Returns the entities that an object lists, each once. Memory may be refused for them.
pub fn listed_entities<R, O>(
    alloc: Global,
    records: &R,
    object: &O,
) -> Result<BTreeSet<Entity>, OutOfMemory>
where
    R: Records + ExactRecords,
    O: Object<R>,
    ensures { IfOk result (λ entities. (cell : At) → covered entities.keys cell
        ≡ covered (O.listing object.now (R.row_count records.now) (R.column_count records.now)) cell) }
{
    let entities = object.cells(alloc, records)?.collect(alloc)?;
    Ok(entities)
}

/// Returns whether an entity of the set covers the cell: four look-ups.
pub fn is_covered(entities: &BTreeSet<Entity>, cell: Position) -> bool
    ensures { result ≡ covered entities.now.keys cell }
{
    let Position { row, col } = cell;
    let covering = [
        Entity::Global,
        Entity::Column(col),
        Entity::Row(row),
        Entity::Cell(row, col),
    ];
    covering.iter().any(|entity| entities.contains(entity))
}
