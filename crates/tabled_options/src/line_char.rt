//! One character on many edges.

ghost use Rattle.std.specs.Prelude.{◌≡◌, Some, IfOk, OnOk, OnErr, map, true, false, [], ◌∷◌, filter};
ghost use Rattle.tabled_object.specs.Entities.{cells_of};
ghost use Rattle.tabled_object.specs.declared.entity.Entity.TheVariants as cells;
ghost use Rattle.tabled_places.specs.Writes.{writes_made};
ghost use Rattle.tabled_configuration.specs.Colored.{Changes};
ghost use Rattle.tabled_options.specs.LineChar.{direction_of, has_edge, mark_written, line_char_events};

use crate::written::write_of;
use std::alloc::Global;
use std::marker::Model;
use tabled_border::OutOfMemory;
use tabled_changes::{CellOption, ColoredConfig};
use tabled_grid::{Offset, Place, Target, Write};
use tabled_object::{Entity, ExactRecords, Position, Records};

/// A character at one numbered place of edges: of the horizontal edges above the cells of an entity, or of the
/// vertical edges left of them.
///
/// `LineChar::horizontal(':', Offset::End(0))`, and `LineChar::vertical(':', Offset::Start(0))`, on row 1 of a table of the
/// style `ascii`:
///
/// ```text
/// +---+---+     +---+---+
/// | a | b |     | a | b |
/// +--:+--:+     +---+---+
/// | c | d |     : c : d |
/// +---+---+     +---+---+
/// ```
#[derive(Clone, Copy, Debug, PartialEq, Eq, PartialOrd, Ord)]
pub struct LineChar {
    c: char,
    offset: Offset,
    horizontal: bool,
}

impl Model for LineChar {
    ghost use Rattle.tabled_options.specs.LineChar.{EdgeChar};

    ghost Value = { EdgeChar };

    ghost view = { λ mark. record { character = mark.c; offset = mark.offset; horizontal = mark.horizontal } };

    ghost inverse = { λ mark. record { c = mark.character; offset = mark.offset; horizontal = mark.horizontal } };
}

impl LineChar {
    /// Makes the character at this place of horizontal edges.
    ///
    /// `LineChar::horizontal(':', Offset::Start(0))` on row 1, the line above it:
    ///
    /// ```text
    /// +:--+:--+
    /// ```
    pub fn horizontal(c: char, offset: Offset) -> Self
        ensures { result ≡ record { character = c; offset = offset; horizontal = true } }
    {
        LineChar {
            c,
            offset,
            horizontal: true,
        }
    }

    /// Makes the character at this place of vertical edges.
    ///
    /// `LineChar::vertical(':', Offset::Start(0))` on row 1, beside its cells:
    ///
    /// ```text
    /// : c : d |
    /// ```
    pub fn vertical(c: char, offset: Offset) -> Self
        ensures { result ≡ record { character = c; offset = offset; horizontal = false } }
    {
        LineChar {
            c,
            offset,
            horizontal: false,
        }
    }

    /// Whether a table of `shape.0` rows and `shape.1` columns has the edge of a position.
    fn has_edge(&self, pos: Position, shape: (usize, usize)) -> bool
        ensures { result ≡ has_edge (direction_of self.now) shape pos }
    {
        let (row, col) = (pos.row, pos.col);
        let first = if self.horizontal {
            Place::Horizontal { row, col, at: 0 }
        } else {
            Place::Vertical { row, col, at: 0 }
        };
        first.is_inside(shape, 1)
    }

    /// The write at the edge of a position.
    fn write_at(&self, pos: Position) -> Write<char>
        ensures { writes_made (result ∷ []) ≡ mark_written self.now pos ∷ [] }
    {
        if self.horizontal {
            write_of(Target::Horizontal(pos, self.offset), self.c)
        } else {
            write_of(Target::Vertical(pos, self.offset), self.c)
        }
    }

    /// The writes at the edges of an entity, row by row.
    fn writes(
        &self,
        alloc: Global,
        shape: (usize, usize),
        entity: Entity,
    ) -> Result<Vec<Write<char>>, OutOfMemory>
        ensures { IfOk result (λ writes. writes_made writes.items
            ≡ map (mark_written self.now) (filter (has_edge (direction_of self.now) shape) (cells_of entity shape.0 shape.1))) }
    {
        let mut writes = Vec::new(alloc);
        for pos in entity.iter(shape.0, shape.1) {
            if self.has_edge(pos, shape) {
                writes.push(self.write_at(pos))?;
            }
        }
        Ok(writes)
    }
}

impl<R: Records + ExactRecords> CellOption<R, ColoredConfig> for LineChar {
    ghost makes = { λ mark records entity old. line_char_events mark (R.row_count records, R.column_count records) entity };

    ghost hinted = { λ mark. Some cells.Global };

    /// Writes the character at the edge of each position of the entity, where the table has that edge: a row may be
    /// named that is the closing horizontal line, a column that is the closing vertical one.
    ///
    /// `LineChar::horizontal(':', Offset::Start(1))` on row 2 of a table of two rows, which names the closing line:
    ///
    /// ```text
    /// +---+---+
    /// | a | b |
    /// +---+---+
    /// | c | d |
    /// +-:-+-:-+
    /// ```
    fn change(
        &self,
        records: &mut R,
        cfg: &mut ColoredConfig,
        entity: Entity,
    ) -> Result<(), OutOfMemory>
        ensures ok { OnOk result (Changes (line_char_events self.now (R.row_count records.old, R.column_count records.old) entity) cfg.old cfg.new) }
        ensures err { OnErr result (cfg.new ≡ cfg.old) }
        ensures records { records.new ≡ records.old }
    {
        let shape = (records.count_rows(), records.count_columns());
        let config = cfg.config_mut();
        let alloc = config.allocator();
        let writes = self.writes(alloc, shape, entity)?;
        config.apply(writes, Vec::new(alloc))
    }

    fn hint_change(&self) -> Option<Entity> {
        Some(Entity::Global)
    }
}
