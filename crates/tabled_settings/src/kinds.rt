//! Which entities may have an event.

ghost use Rattle.std.specs.Prelude.{◌≡◌};

use tabled_object::{Entity, Position};

/// The numbers from a first to a last one; none where the first comes after the last.
#[derive(Clone, Copy, Debug)]
struct NumberRange {
    first: usize,
    last: usize,
}

impl NumberRange {
    ghost use Rattle.tabled_settings.specs.Kinds.{has_some, is_between, no_numbers, with_number};

    /// No numbers.
    const fn none() -> Self
        ensures { result ≡ no_numbers }
    {
        NumberRange {
            first: usize::MAX,
            last: 0,
        }
    }

    /// Whether a number is one of them.
    fn has(&self, number: usize) -> bool
        ensures { result ≡ is_between self.now number }
    {
        self.first <= number && number <= self.last
    }

    /// Whether there is one.
    fn has_some(&self) -> bool
        ensures { result ≡ has_some self.now }
    {
        self.first <= self.last
    }

    /// Takes a number and those between in.
    fn stretch(&mut self, number: usize)
        ensures { self.new ≡ with_number self.old number }
    {
        self.first = self.first.min(number);
        self.last = self.last.max(number);
    }
}

/// The entities that may have an event: the rows, the columns, and the rows of cells. One that is not marked has none, and is not looked
/// for. A mark stays until all events are taken away.
#[derive(Clone, Copy, Debug)]
pub(crate) struct EntityKinds {
    rows: NumberRange,
    columns: NumberRange,
    cells: NumberRange,
    /// The last column of the cells.
    last_column: usize,
}

impl EntityKinds {
    ghost use Rattle.tabled_settings.specs.Kinds.{no_kinds, is_marked, may_cover, may_vary, with_kind, with_kinds};

    /// None of them.
    pub(crate) const fn none() -> Self
        ensures { result ≡ no_kinds }
    {
        EntityKinds {
            rows: NumberRange::none(),
            columns: NumberRange::none(),
            cells: NumberRange::none(),
            last_column: 0,
        }
    }

    /// Whether an entity is one that is marked. That of all cells always is.
    pub(crate) fn has(&self, entity: Entity) -> bool
        ensures { result ≡ is_marked self.now entity }
    {
        match entity {
            Entity::Global => true,
            Entity::Column(col) => self.columns.has(col),
            Entity::Row(row) => self.rows.has(row),
            Entity::Cell(row, _) => self.cells.has(row),
        }
    }

    /// Whether an entity is marked that covers a cell, but for that of all cells.
    pub(crate) fn may_cover(&self, cell: Position) -> bool
        ensures { result ≡ may_cover self.now cell }
    {
        self.columns.has(cell.col) || self.rows.has(cell.row) || self.cells.has(cell.row)
    }

    /// Whether an entity is marked that covers some of the cells of a row and not all.
    pub(crate) fn may_vary(&self, row: usize) -> bool
        ensures { result ≡ may_vary self.now row }
    {
        self.columns.has_some() || self.cells.has(row)
    }

    /// A guess at where the event of an entity stands: options write those of rows, or of columns, mostly from the first one on, and those of
    /// cells row by row, as many in each. A wrong guess costs a comparison.
    pub(crate) fn guess(&self, entity: Entity) -> Option<usize> {
        match entity {
            Entity::Global => None,
            Entity::Column(col) => Some(col.saturating_sub(self.columns.first)),
            Entity::Row(row) => Some(row.saturating_sub(self.rows.first)),
            Entity::Cell(row, col) => {
                let columns = self.last_column.saturating_add(1);
                let before = row.saturating_sub(self.cells.first).saturating_mul(columns);
                Some(before.saturating_add(col))
            }
        }
    }

    /// Marks an entity.
    pub(crate) fn mark(&mut self, entity: Entity)
        ensures { self.new ≡ with_kind self.old entity }
    {
        match entity {
            Entity::Global => {}
            Entity::Column(col) => self.columns.stretch(col),
            Entity::Row(row) => self.rows.stretch(row),
            Entity::Cell(row, col) => {
                self.cells.stretch(row);
                self.last_column = self.last_column.max(col);
            }
        }
    }

    /// Marks the entities of a list of events.
    pub(crate) fn mark_each<T>(&mut self, events: &[(Entity, Option<T>)])
        ensures { self.new ≡ with_kinds self.old events.now }
    {
        for (entity, _) in events {
            self.mark(*entity);
        }
    }
}
