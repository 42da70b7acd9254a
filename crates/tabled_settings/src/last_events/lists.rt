//! Lists of events, here and in others: all of them or none.

ghost use Rattle.std.specs.Prelude.{◌≡◌, ◌+◌, ◌≤◌, List, Option, length, vec_len, vec_capacity, IfOk, OnOk, OnErr};
ghost use Rattle.tabled_object.specs.declared.entity.Entity.{Entity as Which};
ghost use Rattle.tabled_settings.specs.Live.{put_each};
ghost use Rattle.tabled_settings.specs.Kinds.{AreMarked};
ghost use Rattle.tabled_settings.specs.Slots.{standing, IsHeld, IsNoted};

use super::LastEvents;
use crate::kinds::EntityKinds;
use crate::places;
use crate::slots::{self, Slot};
use std::alloc::Global;
use std::collections::BTreeMap;
use tabled_border::OutOfMemory;
use tabled_object::Entity;

/// The events of a list, which have room, and where the event of each one's entity stood before; nothing of that where they follow in order.
/// Where they will stand is noted.
#[derive(Drop)]
struct Noted<T> {
    events: Vec<(Entity, Option<T>)>,
    before: Vec<Option<usize>>,
    ghost as_many: { vec_len before ≤ vec_len events },
}

impl<T: Drop> Noted<T> {
    /// Makes room for the events of a list, and notes where they will stand. Where memory is refused each event has the place that it had.
    fn new(
        alloc: Global,
        slots: &mut Vec<Slot<T>>,
        places: &mut BTreeMap<Entity, usize>,
        events: Vec<(Entity, Option<T>)>,
    ) -> Result<Self, OutOfMemory>
        requires { IsHeld places.old slots.old.items }
        ensures same { slots.new.items ≡ slots.old.items }
        ensures events { IfOk result (λ noted. noted.events.items ≡ events.items) }
        ensures room { IfOk result (λ noted. vec_len slots.new + length noted.events.items ≤ vec_capacity slots.new) }
        ensures noted { IfOk result (λ noted. IsNoted places.new slots.new.items noted.events.items noted.before.items) }
        ensures err { OnErr result (IsHeld places.new slots.new.items) }
    {
        slots.reserve(events.len())?;
        let before = places::note_list(alloc, places, slots, &events)?;
        Ok(Noted { events, before })
    }

    /// Writes the events, each in place of an earlier one of its entity, and marks their kinds. It takes no memory.
    fn write(
        self,
        slots: &mut Vec<Slot<T>>,
        places: &mut BTreeMap<Entity, usize>,
        kinds: &mut EntityKinds,
    )
        requires room { vec_len slots.old + length self.events.items ≤ vec_capacity slots.old }
        requires noted { IsNoted places.old slots.old.items self.events.items self.before.items }
        requires marked { AreMarked kinds.old (standing slots.old.items) }
        ensures put { standing slots.new.items ≡ put_each (standing slots.old.items) self.events.items }
        ensures held { IsHeld places.new slots.new.items }
        ensures marked { AreMarked kinds.new (standing slots.new.items) }
    {
        let Noted { events, before } = self;
        kinds.mark_each(&events);
        slots::replace_by(slots, events, &before);
        slots::close_up(slots, places);
    }

    /// Takes back what was noted.
    fn take_back(&self, places: &mut BTreeMap<Entity, usize>)
        ensures { (slots : List (Option (Which × Option T))) → IsNoted places.old slots self.now.events.items self.now.before.items → IsHeld places.new slots }
    {
        places::take_back(places, &self.events, &self.before);
    }
}

impl<T> LastEvents<T> {
    /// Adds the events of a list in its order, each in place of an earlier one of its entity. Where memory is refused nothing
    /// changes.
    pub(crate) fn put_list(
        &mut self,
        alloc: Global,
        events: Vec<(Entity, Option<T>)>,
    ) -> Result<(), OutOfMemory>
    where
        T: Drop,
        ensures ok { OnOk result (self.new ≡ put_each self.old events.items) }
        ensures err { OnErr result (self.new ≡ self.old) }
    {
        let noted = Noted::new(alloc, &mut self.slots, &mut self.places, events)?;
        noted.write(&mut self.slots, &mut self.places, &mut self.kinds);
        Ok(())
    }

    /// Adds the events of a list here, and those of another list to others. Where memory is refused neither changes: what may be
    /// refused here comes first, and is taken back where the others refuse.
    pub(crate) fn put_two_lists<U>(
        &mut self,
        alloc: Global,
        events: Vec<(Entity, Option<T>)>,
        others: &mut LastEvents<U>,
        other_events: Vec<(Entity, Option<U>)>,
    ) -> Result<(), OutOfMemory>
    where
        T: Drop,
        U: Drop,
        ensures ok { OnOk result (self.new ≡ put_each self.old events.items) }
        ensures others_ok { OnOk result (others.new ≡ put_each others.old other_events.items) }
        ensures err { OnErr result (self.new ≡ self.old) }
        ensures others_err { OnErr result (others.new ≡ others.old) }
    {
        let noted = Noted::new(alloc, &mut self.slots, &mut self.places, events)?;
        if let Err(refused) = others.put_list(alloc, other_events) {
            noted.take_back(&mut self.places);
            return Err(refused);
        }
        noted.write(&mut self.slots, &mut self.places, &mut self.kinds);
        Ok(())
    }

    /// Adds the events of a list here, and those of two other lists to others. Where memory is refused none of them changes.
    pub(crate) fn put_three_lists<U, V>(
        &mut self,
        alloc: Global,
        events: Vec<(Entity, Option<T>)>,
        seconds: &mut LastEvents<U>,
        second_events: Vec<(Entity, Option<U>)>,
        thirds: &mut LastEvents<V>,
        third_events: Vec<(Entity, Option<V>)>,
    ) -> Result<(), OutOfMemory>
    where
        T: Drop,
        U: Drop,
        V: Drop,
        ensures ok { OnOk result (self.new ≡ put_each self.old events.items) }
        ensures seconds_ok { OnOk result (seconds.new ≡ put_each seconds.old second_events.items) }
        ensures thirds_ok { OnOk result (thirds.new ≡ put_each thirds.old third_events.items) }
        ensures err { OnErr result (self.new ≡ self.old) }
        ensures seconds_err { OnErr result (seconds.new ≡ seconds.old) }
        ensures thirds_err { OnErr result (thirds.new ≡ thirds.old) }
    {
        let noted = Noted::new(alloc, &mut self.slots, &mut self.places, events)?;
        if let Err(refused) = seconds.put_two_lists(alloc, second_events, thirds, third_events) {
            noted.take_back(&mut self.places);
            return Err(refused);
        }
        noted.write(&mut self.slots, &mut self.places, &mut self.kinds);
        Ok(())
    }
}
