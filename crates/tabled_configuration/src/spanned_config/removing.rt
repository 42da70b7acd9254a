//! Borders of cells and of a whole table removed.

ghost use Rattle.std.specs.Prelude.{◌≡◌, ◌==◌, ◌||◌};
ghost use Rattle.tabled_configuration.specs.Configuration.{Changes};
ghost use Rattle.tabled_configuration.specs.Options.{entity_unbordered, inner_of, table_unbordered};

use super::SpannedConfig;
use tabled_grid::Borders;
use tabled_object::Entity;

impl SpannedConfig {
    /// Erases the cell characters of the sides and corners of each cell that the entity names in a table of `shape.0` rows and
    /// `shape.1` columns, also of those that it shares with cells beside it. Cells outside are passed over. It takes no memory.
    pub fn remove_entity_border(&mut self, entity: Entity, shape: (usize, usize))
        ensures { Changes (entity_unbordered shape entity) self.old self.new }
    {
        self.characters.erase_entity_border(entity, shape);
    }

    /// Removes the frame of a table of `shape.0` rows and `shape.1` columns: the class record keeps what lies
    /// inside, and the cell characters on the outer lines are erased. Custom lines, offset characters and
    /// colors stay. A table without rows or columns has no frame. It takes no memory.
    ///
    /// A table of the style `ascii` without its frame:
    ///
    /// ```text
    ///  a | b
    /// ---+---
    ///  c | d
    /// ```
    pub fn remove_frame(&mut self, shape: (usize, usize))
        ensures { Changes (table_unbordered shape self.old.characters.class_record) self.old self.new }
    {
        if is_empty(shape) {
            return;
        }
        let class = inner_of(self.characters.get_class());
        self.characters.set_class(class);
        self.characters.erase_frame(shape);
    }
}

/// A class record without its frame and the crossings on it.
fn inner_of(class: &Borders<char>) -> Borders<char>
    ensures { result ≡ inner_of class.now }
{
    Borders {
        horizontal: class.horizontal,
        vertical: class.vertical,
        intersection: class.intersection,
        ..Borders::empty()
    }
}

/// Whether a table has no rows or no columns.
fn is_empty(shape: (usize, usize)) -> bool
    ensures { result ≡ ((shape.0 == 0) || (shape.1 == 0)) }
{
    shape.0 == 0 || shape.1 == 0
}
