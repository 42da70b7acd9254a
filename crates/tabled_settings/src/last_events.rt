//! The last event of each entity, in the order of the events.

ghost use Rattle.std.specs.Prelude.{◌≡◌, ◌↔◌, ◌++◌, ◌∷◌, [], None, false, IsTrue, OnOk, OnErr, option_copied, option_map};
ghost use Rattle.std.specs.List.{last_or};
ghost use Rattle.std.specs.Cmp.Lexicographic.{pointwise};
ghost use Rattle.tabled_settings.specs.Setting.{covering};
ghost use Rattle.tabled_settings.specs.AlikeRows.{CoverAlike};
ghost use Rattle.tabled_settings.specs.Live.{without, has_event};
ghost use Rattle.tabled_settings.specs.Same.{same_event};

mod both;
mod lists;

use crate::kinds::EntityKinds;
use crate::places;
use crate::slots::{self, Slot};
use std::alloc::Global;
use std::collections::BTreeMap;
use std::marker::Model;
use tabled_border::{Keep, OutOfMemory};
use tabled_object::{Entity, Position};

/// The last event of each entity, in the order of these events. In contracts it is their list. After every call there are at most as
/// many holes as events.
#[derive(Debug, Drop)]
pub(crate) struct LastEvents<T> {
    /// The events in their order, with a hole where an entity had a later one.
    slots: Vec<Slot<T>>,
    /// In which slot the event of each entity stands; nothing while each stands at the likely place of its entity, as those of rows do that
    /// are put in order, and those of columns.
    places: BTreeMap<Entity, usize>,
    /// Of which entities there may be events.
    kinds: EntityKinds,
}

impl<T> Model for LastEvents<T> {
    ghost use Rattle.std.specs.Prelude.{List};
    ghost use Rattle.tabled_settings.specs.Setting.{EntityEvent};
    ghost use Rattle.tabled_settings.specs.Slots.{standing, IsHeld};
    ghost use Rattle.tabled_settings.specs.Kinds.{AreMarked};

    ghost Value = { List (EntityEvent T) };

    ghost view = { λ last. standing last.slots.items };

    ghost invariant = { λ last. IsHeld last.places last.slots.items × AreMarked last.kinds (standing last.slots.items) };
}

impl<T> LastEvents<T> {
    /// No events.
    pub(crate) fn new(alloc: Global) -> Self
        ensures { result ≡ [] }
    {
        LastEvents {
            slots: Vec::new(alloc),
            places: BTreeMap::new(alloc),
            kinds: EntityKinds::none(),
        }
    }

    /// Whether there is none.
    pub(crate) fn is_empty(&self) -> bool
        ensures { IsTrue result ↔ (self.now ≡ []) }
    {
        self.slots.is_empty()
    }

    /// Adds an event, in place of an earlier one of that entity. Where memory is refused nothing changes.
    pub(crate) fn put(
        &mut self,
        alloc: Global,
        entity: Entity,
        value: Option<T>,
    ) -> Result<(), OutOfMemory>
    where
        T: Drop,
        ensures ok { OnOk result (self.new ≡ without entity self.old ++ (entity, value) ∷ []) }
        ensures err { OnErr result (self.new ≡ self.old) }
    {
        self.slots.reserve(1)?;
        let before = places::note_next(alloc, &mut self.places, &self.slots, entity)?;
        self.kinds.mark(entity);
        slots::empty(&mut self.slots, before);
        self.slots.push_reserved(Some((entity, value)));
        slots::close_up(&mut self.slots, &mut self.places);
        Ok(())
    }

    /// The value of the last event that covers a cell, or none inside for a removal.
    #[inline(always)]
    pub(crate) fn last(&self, cell: Position) -> Option<&Option<T>>
        requires { has_event Entity.Global self.now ≡ false }
        ensures { option_copied result ≡ option_map (λ event. event.1) (last_or None (covering self.now cell)) }
    {
        if !self.kinds.may_cover(cell) {
            return None;
        }
        self.last_found(cell)
    }

    /// The value of the last event that covers a cell, looked for by each entity that does. Out of line, so that a cell of which there is
    /// no event is soon told.
    #[inline(never)]
    fn last_found(&self, cell: Position) -> Option<&Option<T>>
        requires { has_event Entity.Global self.now ≡ false }
        ensures { option_copied result ≡ option_map (λ event. event.1) (last_or None (covering self.now cell)) }
    {
        let Position { row, col } = cell;
        let (slots, places, kinds) = (self.slots.as_slice(), &self.places, &self.kinds);
        let of_row = slots::place_of(slots, places, kinds, Entity::Row(row));
        let of_column = slots::place_of(slots, places, kinds, Entity::Column(col));
        let of_cell = slots::place_of(slots, places, kinds, Entity::Cell(row, col));
        let place = slots::later(of_cell, slots::later(of_row, of_column));
        slots::value_at(slots, place)
    }

    /// Whether the same events are known to cover each cell of a row; where there is none, they do.
    pub(crate) fn is_row_alike(&self, row: usize) -> bool
        ensures alike { IsTrue result → CoverAlike self.now row }
        ensures none { self.now ≡ [] → IsTrue result }
    {
        self.is_empty() || !self.kinds.may_vary(row)
    }

    /// Whether both have the same events in the same order.
    pub(crate) fn is_same(&self, other: &Self) -> bool
    where
        T: PartialEq,
        ensures { result ≡ pointwise (same_event T.eq) self.now other.now }
    {
        slots::stand_alike(&self.slots, &other.slots)
    }
}

impl<T: Keep> Keep for LastEvents<T> {
    fn keep(&self, alloc: Global) -> Result<Self, OutOfMemory> {
        let mut copy = LastEvents::new(alloc);
        for slot in &self.slots {
            match slot {
                Some((entity, value)) => copy.put(alloc, *entity, value.keep(alloc)?)?,
                None => {}
            }
        }
        Ok(copy)
    }
}
