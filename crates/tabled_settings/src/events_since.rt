//! The events of an entity map since the last one of all cells: behind one reference, and nothing there until one is put.

ghost use Rattle.std.specs.Prelude.{◌≡◌, ◌↔◌, ◌++◌, ◌∷◌, [], None, false, IsTrue, IfOk, OnOk, OnErr, option_copied, option_map};
ghost use Rattle.std.specs.List.{last_or};
ghost use Rattle.std.specs.Cmp.Lexicographic.{pointwise};
ghost use Rattle.tabled_settings.specs.Setting.{covering};
ghost use Rattle.tabled_settings.specs.AlikeRows.{CoverAlike};
ghost use Rattle.tabled_settings.specs.Live.{without, has_event, put_each};
ghost use Rattle.tabled_settings.specs.Same.{same_event};

use crate::last_events::LastEvents;
use std::alloc::Global;
use std::fmt;
use std::marker::Model;
use tabled_border::{Keep, OutOfMemory};
use tabled_object::{Entity, Position};

/// The last event of each entity since the last event of all cells, in the order of these events. A new one takes no memory beside
/// itself. In contracts it is their list.
#[derive(Drop)]
pub(crate) struct EventsSince<T> {
    alloc: Global,
    /// The events, once one was to be put.
    events: Option<Box<LastEvents<T>>>,
}

/// Shows the events alone.
impl<T: fmt::Debug> fmt::Debug for EventsSince<T> {
    fn fmt<W: fmt::Write>(&self, f: &mut fmt::Formatter<W>) -> fmt::Result {
        self.events.fmt(f)
    }
}

impl<T> Model for EventsSince<T> {
    ghost use Rattle.std.specs.Prelude.{List, [], option_map, unwrap_or};
    ghost use Rattle.tabled_settings.specs.Setting.{EntityEvent};

    ghost Value = { List (EntityEvent T) };

    ghost view = { λ since. unwrap_or (option_map (λ events. events.value) since.events) [] };
}

impl<T> EventsSince<T> {
    ghost use Rattle.std.specs.Borrow.{LendsIfOk, sem};
    ghost use Rattle.tabled_settings.specs.contracts.events_since.EventsSince.{the_row};
    ghost use Rattle.tabled_settings.specs.contracts.last_events.LastEvents.{the_row as last_events_row};

    /// No events.
    pub(crate) fn new(alloc: Global) -> Self
        ensures { result ≡ [] }
    {
        EventsSince {
            alloc,
            events: None,
        }
    }

    /// Whether there is none.
    pub(crate) fn is_empty(&self) -> bool
        ensures { IsTrue result ↔ (self.now ≡ []) }
    {
        match &self.events {
            Some(events) => events.is_empty(),
            None => true,
        }
    }

    /// Takes all events away, and gives their memory back.
    pub(crate) fn clear(&mut self)
    where
        T: Drop,
        ensures { self.new ≡ [] }
    {
        self.events = None;
    }

    /// Adds an event, in place of an earlier one of that entity. Where memory is refused nothing changes.
    pub(crate) fn put(&mut self, entity: Entity, value: Option<T>) -> Result<(), OutOfMemory>
    where
        T: Drop,
        ensures ok { OnOk result (self.new ≡ without entity self.old ++ (entity, value) ∷ []) }
        ensures err { OnErr result (self.new ≡ self.old) }
    {
        let alloc = self.alloc;
        self.events_mut()?.put(alloc, entity, value)
    }

    /// Adds an event here and one of the same entity to other events. Where memory is refused neither changes.
    pub(crate) fn put_both<U>(
        &mut self,
        others: &mut EventsSince<U>,
        entity: Entity,
        value: Option<T>,
        other: Option<U>,
    ) -> Result<(), OutOfMemory>
    where
        T: Drop,
        U: Drop,
        ensures ok { OnOk result (self.new ≡ without entity self.old ++ (entity, value) ∷ []) }
        ensures others_ok { OnOk result (others.new ≡ without entity others.old ++ (entity, other) ∷ []) }
        ensures err { OnErr result (self.new ≡ self.old) }
        ensures others_err { OnErr result (others.new ≡ others.old) }
    {
        let alloc = self.alloc;
        let events = self.events_mut()?;
        events.put_both(alloc, others.events_mut()?, entity, value, other)
    }

    /// Adds the events of a list, in its order. Where memory is refused nothing changes.
    pub(crate) fn put_list(
        &mut self,
        alloc: Global,
        events: Vec<(Entity, Option<T>)>,
    ) -> Result<(), OutOfMemory>
    where
        T: Drop,
        ensures ok { OnOk result (self.new ≡ put_each self.old events.items) }
        ensures err { OnErr result (self.new ≡ self.old) }
    {
        self.events_mut()?.put_list(alloc, events)
    }

    /// Adds the events of a list here, and those of two other lists to others. Where memory is refused none of them changes.
    pub(crate) fn put_three_lists<U, V>(
        &mut self,
        alloc: Global,
        events: Vec<(Entity, Option<T>)>,
        seconds: &mut EventsSince<U>,
        second_events: Vec<(Entity, Option<U>)>,
        thirds: &mut EventsSince<V>,
        third_events: Vec<(Entity, Option<V>)>,
    ) -> Result<(), OutOfMemory>
    where
        T: Drop,
        U: Drop,
        V: Drop,
        ensures ok { OnOk result (self.new ≡ put_each self.old events.items) }
        ensures seconds_ok { OnOk result (seconds.new ≡ put_each seconds.old second_events.items) }
        ensures thirds_ok { OnOk result (thirds.new ≡ put_each thirds.old third_events.items) }
        ensures err { OnErr result (self.new ≡ self.old) }
        ensures seconds_err { OnErr result (seconds.new ≡ seconds.old) }
        ensures thirds_err { OnErr result (thirds.new ≡ thirds.old) }
    {
        let first = self.events_mut()?;
        let second = seconds.events_mut()?;
        let third = thirds.events_mut()?;
        first.put_three_lists(alloc, events, second, second_events, third, third_events)
    }

    /// The value of the last event that covers a cell, or none inside for a removal.
    #[inline(always)]
    pub(crate) fn last(&self, cell: Position) -> Option<&Option<T>>
        requires { has_event Entity.Global self.now ≡ false }
        ensures { option_copied result ≡ option_map (λ event. event.1) (last_or None (covering self.now cell)) }
    {
        match &self.events {
            Some(events) => events.last(cell),
            None => None,
        }
    }

    /// Whether the same events are known to cover each cell of a row; where there is none, they do.
    pub(crate) fn is_row_alike(&self, row: usize) -> bool
        ensures alike { IsTrue result → CoverAlike self.now row }
        ensures none { self.now ≡ [] → IsTrue result }
    {
        match &self.events {
            Some(events) => events.is_row_alike(row),
            None => true,
        }
    }

    /// Whether both have the same events in the same order.
    pub(crate) fn is_same(&self, other: &Self) -> bool
    where
        T: PartialEq,
        ensures { result ≡ pointwise (same_event T.eq) self.now other.now }
    {
        match (&self.events, &other.events) {
            (Some(events), Some(others)) => events.is_same(others),
            (Some(events), None) => events.is_empty(),
            (None, Some(others)) => others.is_empty(),
            (None, None) => true,
        }
    }

    /// The events, to be changed; made first where there are none yet. Where memory is refused nothing changes.
    fn events_mut(&mut self) -> Result<&mut LastEvents<T>, OutOfMemory>
    where
        T: Drop,
        ensures* writes_back { sem 𝓛 (LendsIfOk (the_row T.row) (last_events_row T.row) self.entry result (λ events. events) self.old) }
        ensures value { IfOk result (λ events. events.now ≡ self.old) }
    {
        let events = match self.events.take() {
            Some(events) => events,
            None => Box::new(self.alloc, LastEvents::new(self.alloc))?,
        };
        Ok(self.events.insert(events))
    }
}

impl<T: Keep> Keep for EventsSince<T> {
    fn keep(&self, alloc: Global) -> Result<Self, OutOfMemory> {
        let events = match &self.events {
            Some(events) => Some(Box::new(alloc, events.keep(alloc)?)?),
            None => None,
        };
        Ok(EventsSince { alloc, events })
    }
}
