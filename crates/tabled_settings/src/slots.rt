//! Slots of events: a vector with holes, and where each entity's event stands in it.

ghost use Rattle.std.specs.Prelude.{◌≡◌, ◌∷◌, ◌++◌, [], ◌<◌, ◌≤◌, ◌+◌, Some, is_some, MatchOption, map, length, vec_len, vec_capacity, option_copied, option_map};
ghost use Rattle.std.specs.BTreeMap.{get};
ghost use Rattle.std.specs.Cmp.Lexicographic.{pointwise};
ghost use Rattle.tabled_object.specs.declared.entity.Entity.{Entity as Which};
ghost use Rattle.tabled_settings.specs.Setting.{same_entity};
ghost use Rattle.tabled_settings.specs.Slots.{standing, passes, place, entity_cmp, IsOnce, HasPlaces, HasFewHoles, IsPlaced, likely_place, emptied, all_emptied, event_at, later_of};
ghost use Rattle.tabled_settings.specs.Kinds.{AreMarked};
ghost use Rattle.tabled_settings.specs.Same.{same_event};

use crate::kinds::EntityKinds;
use std::collections::BTreeMap;
use tabled_object::Entity;

/// The event of an entity: the value that is written for it, or none for a removal; or a hole.
pub(crate) type Slot<T> = Option<(Entity, Option<T>)>;

/// Empties a slot, if there is one to empty.
pub(crate) fn empty<T: Drop>(slots: &mut Vec<Slot<T>>, place: Option<usize>)
    ensures emptied { slots.new.items ≡ emptied place slots.old.items }
    ensures len { vec_len slots.new ≡ vec_len slots.old }
    ensures capacity { vec_capacity slots.new ≡ vec_capacity slots.old }
{
    if let Some(place) = place
        && place < slots.len()
    {
        slots[place] = None;
    }
}

/// Adds the events of a list at the end, and empties the slots where those that they replace stood.
pub(crate) fn replace_by<T: Drop>(
    slots: &mut Vec<Slot<T>>,
    events: Vec<(Entity, Option<T>)>,
    before: &[Option<usize>],
)
    requires { vec_len slots.old + length events.items ≤ vec_capacity slots.old }
    ensures { slots.new.items ≡ all_emptied before.now (slots.old.items ++ map Some events.items) }
{
    for event in events {
        slots.push_reserved(Some(event));
    }
    for place in before {
        empty(slots, *place);
    }
}

/// Closes the holes where they are more than half of the slots; events that stand in order leave none. Each time at least as many events
/// came since the last time as there are entities, so that a call takes a logarithm of these on the average.
pub(crate) fn close_up<T: Drop>(slots: &mut Vec<Slot<T>>, places: &mut BTreeMap<Entity, usize>)
    requires once { IsOnce same_entity (standing slots.old.items) }
    requires placed { IsPlaced places.old slots.old.items }
    ensures events { standing slots.new.items ≡ standing slots.old.items }
    ensures placed { IsPlaced places.new slots.new.items }
    ensures few_holes { HasFewHoles slots.new.items }
{
    if places.is_empty() {
        return;
    }
    if slots.len() > 2 * places.len() {
        slots.retain(|slot| slot.is_some());
        number(slots, places);
    }
}

/// Notes for each entity where its event stands. The entities are those that have a place already, so this takes no memory.
pub(crate) fn number<T>(slots: &[Slot<T>], places: &mut BTreeMap<Entity, usize>)
    requires { (entity : Which) → is_some (get entity_cmp places.old entity) ≡ is_some (place (same_entity entity) slots.now) }
    ensures { HasPlaces places.new slots.now }
{
    for (at, slot) in slots.iter().enumerate() {
        match slot {
            Some((entity, _)) => {
                let _ = places.insert(*entity, at);
            }
            None => {}
        }
    }
}

/// Where the event of an entity stands. It is not looked for where its kind has none, and searched for only where it is not at
/// its likely place. In line, where the kind is known.
#[inline(always)]
pub(crate) fn place_of<T>(
    slots: &[Slot<T>],
    places: &BTreeMap<Entity, usize>,
    kinds: &EntityKinds,
    entity: Entity,
) -> Option<usize>
    requires once { IsOnce same_entity (standing slots.now) }
    requires placed { IsPlaced places.now slots.now }
    requires marked { AreMarked kinds.now (standing slots.now) }
    ensures { result ≡ place (same_entity entity) slots.now }
{
    if !kinds.has(entity) {
        return None;
    }
    let likely = likely_place(entity);
    if stands_at(slots, likely, entity) {
        return likely;
    }
    let guess = kinds.guess(entity);
    if stands_at(slots, guess, entity) {
        return guess;
    }
    places.get(&entity).copied()
}

/// A guess at where the event of an entity stands: options write those of rows, or of columns, mostly in their order and before any
/// others. A wrong guess costs a comparison.
pub(crate) fn likely_place(entity: Entity) -> Option<usize>
    ensures { result ≡ likely_place entity }
{
    match entity {
        Entity::Row(row) => Some(row),
        Entity::Column(col) => Some(col),
        Entity::Global | Entity::Cell(_, _) => None,
    }
}

/// Whether the event of an entity stands at a place, if there is one.
fn stands_at<T>(slots: &[Slot<T>], place: Option<usize>, entity: Entity) -> bool
    ensures { result ≡ passes (same_entity entity) (event_at slots.now place) }
{
    let Some(place) = place else {
        return false;
    };
    match slots.get(place) {
        Some(Some((there, _))) => entity == *there,
        Some(None) => false,
        None => false,
    }
}

/// The later of two places, where there are such.
pub(crate) fn later(a: Option<usize>, b: Option<usize>) -> Option<usize>
    ensures { result ≡ later_of a b }
{
    match (a, b) {
        (Some(a), Some(b)) => Some(a.max(b)),
        (Some(a), None) => Some(a),
        (None, b) => b,
    }
}

/// The value of the event at a place, if there is one.
pub(crate) fn value_at<T>(slots: &[Slot<T>], place: Option<usize>) -> Option<&Option<T>>
    ensures { option_copied result ≡ option_map (λ event. event.1) (event_at slots.now place) }
{
    match slots.get(place?) {
        Some(Some((_, value))) => Some(value),
        Some(None) => None,
        None => None,
    }
}

/// The first event that stands in the slots, and the slots after it.
pub(crate) fn first_standing<T>(slots: &[Slot<T>]) -> Option<(&(Entity, Option<T>), &[Slot<T>])>
    ensures first { MatchOption result (standing slots.now ≡ [])
        (λ first. standing slots.now ≡ first.0.now ∷ standing first.1.now) }
    ensures shorter { MatchOption result (standing slots.now ≡ []) (λ first. length first.1.now < length slots.now) }
{
    let mut left = slots;
    while let Some((slot, rest)) = left.split_first() {
        if let Some(event) = slot {
            return Some((event, rest));
        }
        left = rest;
    }
    None
}

/// Whether the same events stand in both, in the same order.
pub(crate) fn stand_alike<T: PartialEq>(these: &[Slot<T>], those: &[Slot<T>]) -> bool
    ensures { result ≡ pointwise (same_event T.eq) (standing these.now) (standing those.now) }
{
    let mut left = these;
    let mut right = those;
    while let Some((event, rest)) = first_standing(left) {
        let Some((other, others)) = first_standing(right) else {
            return false;
        };
        if !is_same_event(event, other) {
            return false;
        }
        left = rest;
        right = others;
    }
    first_standing(right).is_none()
}

/// Whether two events are one of the same entity, with equal values or both removals.
fn is_same_event<T: PartialEq>(event: &(Entity, Option<T>), other: &(Entity, Option<T>)) -> bool
    ensures { result ≡ same_event T.eq event.now other.now }
{
    event.0 == other.0 && event.1 == other.1
}
