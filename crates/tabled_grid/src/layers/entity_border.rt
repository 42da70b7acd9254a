//! The borders of many cells.

ghost use Rattle.std.specs.Prelude.{◌≡◌, ◌++◌, [], OnOk, OnErr, IfOk, IsOk, filter};
ghost use Rattle.tabled_object.specs.Entities.{cells_of, is_inside};
ghost use Rattle.tabled_places.specs.Calls.{borders_of, entity_border_set};
ghost use Rattle.tabled_places.specs.Writes.{writes_made};

use super::Layers;
use super::cell_border::writes_around;
use super::writes::Group;
use crate::{Border, Entity, EntityIterator, Keep, OutOfMemory, Position, Probes, Write};
use std::alloc::Global;

/// Returns the writes of a border around each cell that the entity names in a table of `shape.0` rows and `shape.1` columns, row by row: of
/// what two cells share the later one counts. Cells outside are passed over; without a cell inside no memory is asked for.
pub fn border_writes<T: Keep>(
    alloc: Global,
    entity: Entity,
    shape: (usize, usize),
    border: &Border<T>,
) -> Result<Vec<Write<T>>, OutOfMemory>
    ensures ok { IfOk result (λ writes. writes_made writes.items ≡ entity_border_set entity shape border.now) }
    ensures without_cells { filter (is_inside shape.0 shape.1) (cells_of entity shape.0 shape.1) ≡ [] → IsOk result }
{
    let mut writes = Vec::new(alloc);
    add_borders(&mut writes, entity.iter(shape.0, shape.1), shape, border)?;
    Ok(writes)
}

/// Adds the writes of a border around each of these cells that lies inside.
fn add_borders<T: Keep>(
    writes: &mut Vec<Write<T>>,
    cells: EntityIterator,
    shape: (usize, usize),
    border: &Border<T>,
) -> Result<(), OutOfMemory>
    ensures ok { OnOk result (writes_made writes.new.items ≡ writes_made writes.old.items ++ borders_of shape border.now cells) }
    ensures without_cells { filter (is_inside shape.0 shape.1) cells ≡ [] → IsOk result }
{
    for pos in cells {
        if is_inside(pos, shape) {
            let copy = border.keep(*writes.allocator())?;
            writes_around(pos, copy).add_to(writes)?;
        }
    }
    Ok(())
}

impl<T> Layers<T> {
    ghost use Rattle.tabled_places.specs.Event.{Changes};
    ghost use Rattle.tabled_places.specs.State.{state_at, HasNoCells};
    ghost use Rattle.tabled_places.specs.Calls.{border_set};

    /// Writes what the border gives at the cell level of the sides and corners of each cell that the entity names in a table of
    /// `shape.0` rows and `shape.1` columns, row by row: for what two cells share the later one counts. Cells outside are passed
    /// over. Where memory is refused nothing changes; without a cell inside none is asked for.
    pub fn set_entity_border(
        &mut self,
        entity: Entity,
        shape: (usize, usize),
        border: &Border<T>,
    ) -> Result<(), OutOfMemory>
    where
        T: Keep,
        ensures ok { OnOk result (Changes (entity_border_set entity shape border.now) (state_at self.old) (state_at self.new)) }
        ensures err { OnErr result (self.new ≡ self.old) }
        ensures without_cells { filter (is_inside shape.0 shape.1) (cells_of entity shape.0 shape.1) ≡ [] → IsOk result }
    {
        if self.cells.is_empty(&mut Probes::new()) {
            return self.write_first_borders(entity.iter(shape.0, shape.1), shape, border);
        }
        let writes = border_writes(self.alloc, entity, shape, border)?;
        self.write_all(writes)
    }

    /// Writes a border around each of these cells that lies inside, where nothing is kept at the cell level yet: so a
    /// refusal is taken back by an erasure of that level, and no list of writes is needed.
    fn write_first_borders(
        &mut self,
        cells: EntityIterator,
        shape: (usize, usize),
        border: &Border<T>,
    ) -> Result<(), OutOfMemory>
    where
        T: Keep,
        requires { HasNoCells self.old }
        ensures ok { OnOk result (Changes (borders_of shape border.now cells) (state_at self.old) (state_at self.new)) }
        ensures err { OnErr result (self.new ≡ self.old) }
        ensures without_cells { filter (is_inside shape.0 shape.1) cells ≡ [] → IsOk result }
    {
        for pos in cells {
            if is_inside(pos, shape) {
                let written = self.write_copy(pos, border);
                if written.is_err() {
                    self.erase_cells();
                    return written;
                }
            }
        }
        Ok(())
    }

    /// Writes a copy of a border around a cell.
    fn write_copy(&mut self, pos: Position, border: &Border<T>) -> Result<(), OutOfMemory>
    where
        T: Keep,
        ensures ok { OnOk result (Changes (border_set pos border.now) (state_at self.old) (state_at self.new)) }
        ensures err { OnErr result (self.new ≡ self.old) }
    {
        let copy = border.keep(self.alloc)?;
        self.set_border(pos, copy)
    }
}

/// Whether a cell lies in a table of `shape.0` rows and `shape.1` columns.
pub(super) fn is_inside(pos: Position, shape: (usize, usize)) -> bool
    ensures { result ≡ is_inside shape.0 shape.1 pos }
{
    pos.row < shape.0 && pos.col < shape.1
}
