//! Lists of writes and removals, in one map and in three.

ghost use Rattle.std.specs.Prelude.{◌≡◌, false, IsTrue, IfOk, OnOk, OnErr};
ghost use Rattle.tabled_object.specs.declared.entity.Entity.TheVariants.{Global as AllCells};
ghost use Rattle.tabled_settings.specs.Live.{after, after_all, has_event};

use super::EntityMap;
use std::alloc::Global;
use std::mem;
use tabled_border::{Keep, OutOfMemory};
use tabled_object::Entity;

impl<T> EntityMap<T> {
    /// Makes the writes and removals of a list, in its order: a value is written for an entity, and where there is none the entity's is
    /// removed. Where memory is refused nothing changes. It costs the list and not what the map held, unless an event is one of all cells.
    pub fn apply_list(
        &mut self,
        alloc: Global,
        events: Vec<(Entity, Option<T>)>,
    ) -> Result<(), OutOfMemory>
    where
        T: Keep + Drop,
        ensures ok { OnOk result (self.new ≡ after_all self.old events.items) }
        ensures err { OnErr result (self.new ≡ self.old) }
    {
        if !any_of_all(&events) {
            return self.put_list(alloc, events);
        }
        let changed = self.changed(alloc, events)?;
        drop(mem::replace(self, changed));
        Ok(())
    }

    /// Writes a list of events, none of which is one of all cells.
    fn put_list(
        &mut self,
        alloc: Global,
        events: Vec<(Entity, Option<T>)>,
    ) -> Result<(), OutOfMemory>
    where
        T: Drop,
        requires { has_event AllCells events.items ≡ false }
        ensures ok { OnOk result (self.new ≡ after_all self.old events.items) }
        ensures err { OnErr result (self.new ≡ self.old) }
    {
        self.since.put_list(alloc, events)?;
        Ok(())
    }

    /// Makes the writes and removals of a list here, in its order, and those of two other lists in two other maps: a value is
    /// written for an entity, and where there is none the entity's is removed. Where memory is refused none of the maps changes.
    /// It costs the lists and not what the maps held, unless an event is one of all cells.
    pub fn apply_three<U, V>(
        &mut self,
        alloc: Global,
        events: Vec<(Entity, Option<T>)>,
        second: &mut EntityMap<U>,
        second_events: Vec<(Entity, Option<U>)>,
        third: &mut EntityMap<V>,
        third_events: Vec<(Entity, Option<V>)>,
    ) -> Result<(), OutOfMemory>
    where
        T: Keep + Drop,
        U: Keep + Drop,
        V: Keep + Drop,
        ensures ok { OnOk result (self.new ≡ after_all self.old events.items) }
        ensures second_ok { OnOk result (second.new ≡ after_all second.old second_events.items) }
        ensures third_ok { OnOk result (third.new ≡ after_all third.old third_events.items) }
        ensures err { OnErr result (self.new ≡ self.old) }
        ensures second_err { OnErr result (second.new ≡ second.old) }
        ensures third_err { OnErr result (third.new ≡ third.old) }
    {
        if none_of_all(&events, &second_events, &third_events) {
            return self.put_three(alloc, events, second, second_events, third, third_events);
        }
        let first = self.changed(alloc, events)?;
        let (other, last) = changed_both(alloc, second, second_events, third, third_events)?;
        drop(mem::replace(self, first));
        drop(mem::replace(second, other));
        drop(mem::replace(third, last));
        Ok(())
    }

    /// Writes a list of events to three maps at once, none of which is one of all cells.
    fn put_three<U, V>(
        &mut self,
        alloc: Global,
        events: Vec<(Entity, Option<T>)>,
        second: &mut EntityMap<U>,
        second_events: Vec<(Entity, Option<U>)>,
        third: &mut EntityMap<V>,
        third_events: Vec<(Entity, Option<V>)>,
    ) -> Result<(), OutOfMemory>
    where
        T: Drop,
        U: Drop,
        V: Drop,
        requires first { has_event AllCells events.items ≡ false }
        requires second { has_event AllCells second_events.items ≡ false }
        requires third { has_event AllCells third_events.items ≡ false }
        ensures ok { OnOk result (self.new ≡ after_all self.old events.items) }
        ensures second_ok { OnOk result (second.new ≡ after_all second.old second_events.items) }
        ensures third_ok { OnOk result (third.new ≡ after_all third.old third_events.items) }
        ensures err { OnErr result (self.new ≡ self.old) }
        ensures second_err { OnErr result (second.new ≡ second.old) }
        ensures third_err { OnErr result (third.new ≡ third.old) }
    {
        let (seconds, thirds) = (&mut second.since, &mut third.since);
        let firsts = &mut self.since;
        firsts.put_three_lists(alloc, events, seconds, second_events, thirds, third_events)?;
        Ok(())
    }

    /// A copy in which the writes and removals of a list are made, in its order.
    fn changed(&self, alloc: Global, events: Vec<(Entity, Option<T>)>) -> Result<Self, OutOfMemory>
    where
        T: Keep + Drop,
        ensures { IfOk result (λ map. map ≡ after_all self.now events.items) }
    {
        let mut copy = self.keep(alloc)?;
        for (entity, value) in events {
            copy.put(entity, value)?;
        }
        Ok(copy)
    }

    /// Writes a value for the cells of an entity, or removes theirs where there is none.
    fn put(&mut self, entity: Entity, value: Option<T>) -> Result<(), OutOfMemory>
    where
        T: Drop,
        ensures ok { OnOk result (self.new ≡ after self.old (entity, value)) }
        ensures err { OnErr result (self.new ≡ self.old) }
    {
        match value {
            Some(value) => self.insert(entity, value),
            None => self.remove(entity),
        }
    }
}

/// Copies of two maps, in each of which the writes and removals of a list are made.
fn changed_both<T, U>(
    alloc: Global,
    map: &EntityMap<T>,
    events: Vec<(Entity, Option<T>)>,
    other: &EntityMap<U>,
    other_events: Vec<(Entity, Option<U>)>,
) -> Result<(EntityMap<T>, EntityMap<U>), OutOfMemory>
where
    T: Keep + Drop,
    U: Keep + Drop,
    ensures map { IfOk result (λ copies. copies.0 ≡ after_all map.now events.items) }
    ensures other { IfOk result (λ copies. copies.1 ≡ after_all other.now other_events.items) }
{
    let copy = map.changed(alloc, events)?;
    let other_copy = other.changed(alloc, other_events)?;
    Ok((copy, other_copy))
}

/// Whether no event of three lists is one of all cells.
fn none_of_all<T, U, V>(
    events: &[(Entity, Option<T>)],
    second_events: &[(Entity, Option<U>)],
    third_events: &[(Entity, Option<V>)],
) -> bool
    ensures first { IsTrue result → has_event AllCells events.now ≡ false }
    ensures second { IsTrue result → has_event AllCells second_events.now ≡ false }
    ensures third { IsTrue result → has_event AllCells third_events.now ≡ false }
{
    !any_of_all(events) && !any_of_all(second_events) && !any_of_all(third_events)
}

/// Whether an event is one of all cells.
fn any_of_all<T>(events: &[(Entity, Option<T>)]) -> bool
    ensures { result ≡ has_event AllCells events.now }
{
    events.iter().any(|event| event.0 == Entity::Global)
}
