//! One event here and one in other events.

ghost use Rattle.std.specs.Prelude.{◌≡◌, ◌++◌, ◌∷◌, [], OnOk, OnErr};
ghost use Rattle.tabled_settings.specs.Live.{without};

use super::LastEvents;
use crate::{places, slots};
use std::alloc::Global;
use tabled_border::OutOfMemory;
use tabled_object::Entity;

impl<T> LastEvents<T> {
    /// Adds an event here and one of the same entity to other events. Where memory is refused neither changes: what may be
    /// refused here comes first, and is taken back where the others refuse.
    pub(crate) fn put_both<U>(
        &mut self,
        alloc: Global,
        others: &mut LastEvents<U>,
        entity: Entity,
        value: Option<T>,
        other: Option<U>,
    ) -> Result<(), OutOfMemory>
    where
        T: Drop,
        U: Drop,
        ensures ok { OnOk result (self.new ≡ without entity self.old ++ (entity, value) ∷ []) }
        ensures others_ok { OnOk result (others.new ≡ without entity others.old ++ (entity, other) ∷ []) }
        ensures err { OnErr result (self.new ≡ self.old) }
        ensures others_err { OnErr result (others.new ≡ others.old) }
    {
        self.slots.reserve(1)?;
        let before = places::note_next(alloc, &mut self.places, &self.slots, entity)?;
        if let Err(refused) = others.put(alloc, entity, other) {
            places::set_back(&mut self.places, entity, before);
            return Err(refused);
        }
        self.kinds.mark(entity);
        slots::empty(&mut self.slots, before);
        self.slots.push_reserved(Some((entity, value)));
        slots::close_up(&mut self.slots, &mut self.places);
        Ok(())
    }
}
