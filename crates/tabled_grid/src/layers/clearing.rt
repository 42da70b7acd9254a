//! Erasures of many places of the cell level at once.

use super::Layers;
use super::entity_border::is_inside;
use crate::spots::{crossing_at, edge_at};
use crate::{Entity, EntityIterator, LineOf};

impl<T> Layers<T> {
    ghost use Rattle.tabled_places.specs.Event.{Changes};
    ghost use Rattle.tabled_places.specs.State.{state_at};
    ghost use Rattle.tabled_places.specs.Calls.{borders_erased, entity_border_erased, spots_erased, line_spots, frame_erased};

    /// Erases the cell level of the sides and corners of each cell that the entity names in a table of `shape.0` rows and `shape.1`
    /// columns, also of those that it shares with cells beside it. Cells outside are passed over.
    pub fn erase_entity_border(&mut self, entity: Entity, shape: (usize, usize))
    where
        T: Drop,
        ensures { Changes (entity_border_erased entity shape) (state_at self.old) (state_at self.new) }
    {
        self.erase_borders(entity.iter(shape.0, shape.1), shape);
    }

    /// Erases the border of each cell inside the shape.
    fn erase_borders(&mut self, cells: EntityIterator, shape: (usize, usize))
    where
        T: Drop,
        ensures { Changes (borders_erased shape cells) (state_at self.old) (state_at self.new) }
    {
        for pos in cells {
            if is_inside(pos, shape) {
                self.erase_border(pos);
            }
        }
    }

    /// Erases the cell level of the outer lines of a table of `shape.0` rows and `shape.1` columns: of the
    /// edges and crossings on horizontal lines 0 and `shape.0` and on vertical lines 0 and `shape.1`. A table
    /// without rows or without columns has none of them.
    pub fn erase_frame(&mut self, shape: (usize, usize))
    where
        T: Drop,
        ensures { Changes (frame_erased shape) (state_at self.old) (state_at self.new) }
    {
        let (rows, cols) = shape;
        if rows == 0 || cols == 0 {
            return;
        }
        self.erase_line(LineOf::Horizontal(0), cols);
        self.erase_line(LineOf::Horizontal(rows), cols);
        self.erase_line(LineOf::Vertical(0), rows);
        self.erase_line(LineOf::Vertical(cols), rows);
    }

    /// Erases a line that is the given number of columns or rows long.
    fn erase_line(&mut self, line: LineOf, length: usize)
    where
        T: Drop,
        ensures { Changes (spots_erased (line_spots line length)) (state_at self.old) (state_at self.new) }
    {
        for at in 0..length {
            self.erase_spot(edge_at(line, at));
            self.erase_spot(crossing_at(line, at));
        }
        self.erase_spot(crossing_at(line, length));
    }
}
