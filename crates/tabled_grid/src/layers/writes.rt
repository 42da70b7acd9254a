//! Many writes at once, whole or not at all.
//!
//! A list of writes is its own way back: once a write is made, its entry has what stood there before. So a refusal
//! walks back over the list, which takes no memory.

ghost use Rattle.tabled_places.specs.State.{edge_place};
ghost use Rattle.std.specs.Prelude.{◌≡◌, [], ◌∷◌, OnOk, OnErr, IfOk, IsTrue, option_map};

use super::Layers;
use crate::cells::{put_cell, take_cell};
use crate::{Offset, OutOfMemory, Position, Spot, Target, Write};
use tabled_places::EdgePlace;

/// Writes that are made together, whole or not at all, and what then puts them back.
pub(super) trait Group<T> {
    ghost use Rattle.tabled_places.specs.declared.event.Event.{Event};
    ghost use Rattle.tabled_places.specs.Event.{Changes};
    ghost use Rattle.tabled_places.specs.State.{State, state_at};
    ghost use Rattle.tabled_places.specs.Calls.{writes_anew};
    ghost use Rattle.tabled_places.specs.Writes.{writes_made, Stays};
    ghost use Rattle.std.specs.Prelude.{List, ◌++◌};

    /// The events of the writes, in their order.
    ghost events: { Self → List (Event T) };

    /// Once they are made, whether the group has what leads from the second store back to the first.
    ghost leads_back: { Self → State T → State T → Type 0 };

    /// Makes the writes; the group then has what stood there before. Where memory is refused the store is as it was.
    fn exchange(&mut self, store: &mut Layers<T>) -> Result<(), OutOfMemory>
        ensures ok { OnOk result (Changes (events self.old) (state_at store.old) (state_at store.new)) }
        ensures back { OnOk result (leads_back self.new store.old store.new) }
        ensures stays { OnOk result (Stays (state_at store.old) (state_at store.new)) }
        ensures err { OnErr result (store.new ≡ store.old) }
        ensures absent { OnErr result (IsTrue (writes_anew (state_at store.old) (events self.old))) };

    /// Puts back what the writes replaced, which takes no memory.
    fn put_back(&mut self, store: &mut Layers<T>)
        ensures { (before : State T) → leads_back self.old before store.old → store.new ≡ before };

    /// Adds the writes to a list.
    fn add_to(self, list: &mut Vec<Write<T>>) -> Result<(), OutOfMemory>
        ensures { OnOk result (writes_made list.new.items ≡ writes_made list.old.items ++ events self) };
}

/// One write; once made it has what stood there before, or no target where nothing was written.
impl<T: Drop> Group<T> for Write<T> {
    ghost use Rattle.tabled_places.specs.Writes.{writes_made, PutsBack};

    ghost events = { λ entry. writes_made (entry ∷ []) };

    ghost leads_back = { λ entry. PutsBack entry.target entry.value };

    fn exchange(&mut self, store: &mut Layers<T>) -> Result<(), OutOfMemory> {
        let Some(target) = self.target else {
            return Ok(());
        };
        let Some(value) = self.value.take() else {
            self.target = None;
            return Ok(());
        };
        self.value = store.replace(target, value)?;
        Ok(())
    }

    fn put_back(&mut self, store: &mut Layers<T>) {
        match self.target {
            Some(target) => store.put_back_at(target, self.value.take()),
            None => {}
        }
    }

    fn add_to(self, list: &mut Vec<Write<T>>) -> Result<(), OutOfMemory> {
        if self.target.is_some() {
            list.push(self)?;
        }
        Ok(())
    }
}

/// One group, and then another.
impl<T, A: Group<T>, B: Group<T> + Drop> Group<T> for (A, B) {
    ghost use Rattle.std.specs.Prelude.{◌++◌};
    ghost use Rattle.tabled_places.specs.State.{State};

    ghost events = { λ groups. A.events groups.0 ++ B.events groups.1 };

    ghost leads_back = { λ groups old new. (between : State T) × A.leads_back groups.0 old between × B.leads_back groups.1 between new };

    fn exchange(&mut self, store: &mut Layers<T>) -> Result<(), OutOfMemory> {
        self.0.exchange(store)?;
        match self.1.exchange(store) {
            Ok(()) => Ok(()),
            Err(refused) => {
                self.0.put_back(store);
                Err(refused)
            }
        }
    }

    fn put_back(&mut self, store: &mut Layers<T>) {
        let (first, second) = self;
        second.put_back(store);
        first.put_back(store);
    }

    fn add_to(self, list: &mut Vec<Write<T>>) -> Result<(), OutOfMemory> {
        self.0.add_to(list)?;
        self.1.add_to(list)
    }
}

/// A list of writes, in its order; they are put back from its end.
impl<T: Drop> Group<T> for Vec<Write<T>> {
    ghost use Rattle.tabled_places.specs.Writes.{writes_made, PutsBackAll};

    ghost events = { λ writes. writes_made writes.items };

    ghost leads_back = { λ writes. PutsBackAll writes.items };

    fn exchange(&mut self, store: &mut Layers<T>) -> Result<(), OutOfMemory> {
        let mut made = 0;
        while made < self.len() {
            match self[made].exchange(store) {
                Ok(()) => made += 1,
                Err(error) => {
                    self.truncate(made);
                    self.put_back(store);
                    return Err(error);
                }
            }
        }
        Ok(())
    }

    fn put_back(&mut self, store: &mut Layers<T>) {
        while let Some(mut entry) = self.pop() {
            entry.put_back(store);
        }
    }

    fn add_to(self, list: &mut Vec<Write<T>>) -> Result<(), OutOfMemory> {
        let mut writes = self;
        list.append(&mut writes)?;
        Ok(())
    }
}

impl<T> Layers<T> {
    ghost use Rattle.tabled_places.specs.declared.event.Written.TheVariants.{Sign as sign};
    ghost use Rattle.tabled_places.specs.declared.event.Event.TheVariants.{Write as write, Erase as erase};
    ghost use Rattle.tabled_places.specs.declared.event.Region.TheVariants.{One as one_site};
    ghost use Rattle.tabled_places.specs.Event.{Changes};
    ghost use Rattle.tabled_places.specs.declared.site.Site.TheVariants.{Cell as at_spot};
    ghost use Rattle.tabled_places.specs.State.{State, state_at};
    ghost use Rattle.tabled_places.specs.Calls.{writes_anew};
    ghost use Rattle.tabled_places.specs.Writes.{site_of, writes_made, PutsBackAt};

    /// Makes the writes of a list, in its order: of two at one site the later one counts. Where memory is refused
    /// nothing changes; where something stood at each of their sites, none is asked for.
    pub fn write_all(&mut self, writes: Vec<Write<T>>) -> Result<(), OutOfMemory>
    where
        T: Drop,
        ensures ok { OnOk result (Changes (writes_made writes.items) (state_at self.old) (state_at self.new)) }
        ensures err { OnErr result (self.new ≡ self.old) }
        ensures absent { OnErr result (IsTrue (writes_anew (state_at self.old) (writes_made writes.items))) }
    {
        let mut list = writes;
        list.exchange(self)
    }

    /// Puts back what stood at a target where something stands, which takes no memory.
    fn put_back_at(&mut self, target: Target, before: Option<T>)
    where
        T: Drop,
        ensures { (old : State T) → PutsBackAt (site_of target) before old self.old → self.new ≡ old }
    {
        match before {
            Some(value) => {
                let _ = self.put(target, value);
            }
            None => self.erase_at(target),
        }
    }

    /// Writes at a target.
    fn put(&mut self, target: Target, value: T) -> Result<(), OutOfMemory>
    where
        T: Drop,
        ensures ok { OnOk result (Changes (write (site_of target) (sign value) ∷ []) (state_at self.old) (state_at self.new)) }
        ensures err { OnErr result (self.new ≡ self.old) }
        ensures absent { OnErr result (state_at self.old (site_of target) ≡ None) }
    {
        self.replace(target, value)?;
        Ok(())
    }

    /// Writes at a target, and returns what was there before. Only where nothing was there can memory be refused.
    pub(super) fn replace(&mut self, target: Target, value: T) -> Result<Option<T>, OutOfMemory>
    where
        T: Drop,
        ensures before { IfOk result (λ before. option_map sign before ≡ state_at self.old (site_of target)) }
        ensures ok { OnOk result (Changes (write (site_of target) (sign value) ∷ []) (state_at self.old) (state_at self.new)) }
        ensures err { OnErr result (self.new ≡ self.old) }
        ensures absent { OnErr result (state_at self.old (site_of target) ≡ None) }
    {
        match target {
            Target::Cell(place) => {
                put_cell(&mut self.cells, &mut self.on_lines, place.spot(), value)
            }
            Target::Horizontal(pos, offset) => self
                .horizontal_offsets
                .insert(edge_place(pos, offset), value),
            Target::Vertical(pos, offset) => self
                .vertical_offsets
                .insert(edge_place(pos, offset), value),
        }
    }

    /// Erases what stands at a target, and nothing else.
    pub fn erase_at(&mut self, target: Target)
    where
        T: Drop,
        ensures { Changes (erase (one_site (site_of target)) ∷ []) (state_at self.old) (state_at self.new) }
    {
        match target {
            Target::Cell(place) => self.erase_spot(place.spot()),
            Target::Horizontal(pos, offset) => {
                self.horizontal_offsets.take(edge_place(pos, offset))
            }
            Target::Vertical(pos, offset) => self.vertical_offsets.take(edge_place(pos, offset)),
        }
    }

    /// Erases the cell level of an edge or a crossing.
    pub(super) fn erase_spot(&mut self, spot: Spot)
    where
        T: Drop,
        ensures { Changes (erase (one_site (at_spot spot)) ∷ []) (state_at self.old) (state_at self.new) }
    {
        take_cell(&mut self.cells, &mut self.on_lines, spot);
    }
}

/// The key of a numbered place of an edge.
fn edge_place(pos: Position, offset: Offset) -> EdgePlace
    ensures { result ≡ edge_place pos.row pos.col offset }
{
    let Position { row, col } = pos;
    EdgePlace { row, col, offset }
}

impl<A: Drop> Layers<A> {
    ghost use Rattle.tabled_places.specs.Event.{Changes};
    ghost use Rattle.tabled_places.specs.State.{state_at};
    ghost use Rattle.tabled_places.specs.Calls.{writes_anew};
    ghost use Rattle.tabled_places.specs.Writes.{writes_made};
    ghost use Rattle.std.specs.Prelude.{◌||◌};

    /// Makes the writes of two lists, one in this store and one in another, whole or not at all over both: where memory
    /// is refused neither changes; where something stood at each of their sites, none is asked for.
    pub fn write_both<B: Drop>(
        &mut self,
        writes: Vec<Write<A>>,
        other: &mut Layers<B>,
        others: Vec<Write<B>>,
    ) -> Result<(), OutOfMemory>
        ensures ok { OnOk result (Changes (writes_made writes.items) (state_at self.old) (state_at self.new)) }
        ensures others_ok { OnOk result (Changes (writes_made others.items) (state_at other.old) (state_at other.new)) }
        ensures err { OnErr result (self.new ≡ self.old) }
        ensures others_err { OnErr result (other.new ≡ other.old) }
        ensures absent { OnErr result (IsTrue (writes_anew (state_at self.old) (writes_made writes.items) || writes_anew (state_at other.old) (writes_made others.items))) }
    {
        let mut writes = writes;
        writes.exchange(self)?;
        match other.write_all(others) {
            Ok(()) => Ok(()),
            Err(error) => {
                writes.put_back(self);
                Err(error)
            }
        }
    }
}
