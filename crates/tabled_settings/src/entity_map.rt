//! A value for each cell, written and removed by entity.

ghost use Rattle.std.specs.Prelude.{◌≡◌, ◌↔◌, [], IsTrue, IsOk, OnOk, OnErr, unwrap_or};

mod both;
mod lists;

use crate::events_since::EventsSince;
use std::alloc::Global;
use std::marker::Model;
use tabled_border::{Keep, OutOfMemory};
use tabled_object::{Entity, Position};

/// A value for each cell: that of the last write or removal of an entity that covers it.
///
/// In contracts it is its default, the value of the last event of all cells, and the events since then that still
/// count, one for each entity, in their order.
#[derive(Debug, Drop)]
pub struct EntityMap<T> {
    default: T,
    /// What was written last for all cells, if it was not removed.
    global: Option<T>,
    since: EventsSince<T>,
}

impl<T> Model for EntityMap<T> {
    ghost use Rattle.std.specs.Prelude.{◌≡◌, false, unwrap_or};
    ghost use Rattle.tabled_object.specs.declared.entity.Entity.TheVariants.{Global as AllCells};
    ghost use Rattle.tabled_settings.specs.Live.{Live, has_event};

    ghost Value = { Live T };

    ghost view = { λ map. record { default = map.default; global = unwrap_or map.global map.default; since = map.since } };

    ghost invariant = { λ map. has_event AllCells map.since ≡ false };
}

impl<T> EntityMap<T> {
    ghost use Rattle.tabled_settings.specs.Setting.{write_of, removal_of, is_global};
    ghost use Rattle.tabled_settings.specs.AlikeRows.{IsRowAlike};
    ghost use Rattle.tabled_settings.specs.Live.{at_first, after, value_at};

    /// Makes a map in which every cell has the default.
    pub fn new(alloc: Global, default: T) -> Self
        ensures { result ≡ at_first default }
    {
        EntityMap {
            default,
            global: None,
            since: EventsSince::new(alloc),
        }
    }

    /// Writes a value for the cells of an entity. For all cells it takes no memory.
    pub fn insert(&mut self, entity: Entity, value: T) -> Result<(), OutOfMemory>
    where
        T: Drop,
        ensures ok { OnOk result (self.new ≡ after self.old (write_of entity value)) }
        ensures err { OnErr result (self.new ≡ self.old) }
        ensures always { IsTrue (is_global entity) → IsOk result }
    {
        match entity {
            Entity::Global => self.set_all(Some(value)),
            _ => self.since.put(entity, Some(value))?,
        }
        Ok(())
    }

    /// Gives the cells of an entity the default again. For all cells it takes no memory.
    pub fn remove(&mut self, entity: Entity) -> Result<(), OutOfMemory>
    where
        T: Drop,
        ensures ok { OnOk result (self.new ≡ after self.old (removal_of entity)) }
        ensures err { OnErr result (self.new ≡ self.old) }
        ensures always { IsTrue (is_global entity) → IsOk result }
    {
        match entity {
            Entity::Global => self.set_all(None),
            _ => self.since.put(entity, None)?,
        }
        Ok(())
    }

    /// Returns the value of a cell.
    #[inline(always)]
    pub fn get(&self, position: Position) -> &T
        ensures { result.now ≡ value_at self.now position }
    {
        match self.since.last(position) {
            Some(Some(value)) => value,
            Some(None) => &self.default,
            None => self.global(),
        }
    }

    /// Returns what was written last for all cells, or the default where that was removed or nothing was written. A cell has it
    /// unless an entity that covers the cell had an event since then.
    #[inline(always)]
    pub fn global(&self) -> &T
        ensures { result.now ≡ self.now.global }
    {
        match &self.global {
            Some(value) => value,
            None => &self.default,
        }
    }

    /// Returns whether no entity but `Global` had an event since the last one of `Global`.
    pub fn is_empty(&self) -> bool
        ensures { IsTrue result ↔ (self.now.since ≡ []) }
    {
        self.since.is_empty()
    }

    /// Returns whether each cell of a row is known to have the same value, whatever its column: where no entity but `Global` had an event
    /// since the last one of `Global`, or none but `Global` and rows, and cells of other rows. It takes as long for a large map as for a
    /// small one.
    pub fn is_row_alike(&self, row: usize) -> bool
        ensures alike { IsTrue result → IsRowAlike self.now row }
        ensures none { self.now.since ≡ [] → IsTrue result }
    {
        self.since.is_row_alike(row)
    }

    /// Writes or removes the value of all cells.
    fn set_all(&mut self, value: Option<T>)
    where
        T: Drop,
        ensures { self.new ≡ record { default = self.old.default; global = unwrap_or value self.old.default; since = [] } }
    {
        self.global = value;
        self.since.clear();
    }
}

impl<T: Keep> Keep for EntityMap<T> {
    fn keep(&self, alloc: Global) -> Result<Self, OutOfMemory> {
        Ok(EntityMap {
            default: self.default.keep(alloc)?,
            global: self.global.keep(alloc)?,
            since: self.since.keep(alloc)?,
        })
    }
}

impl<T: PartialEq> PartialEq for EntityMap<T> {
    ghost use Rattle.tabled_settings.specs.Same.{same_live};
    ghost use Rattle.tabled_settings.specs.SameLaws.{live_per};

    ghost eq = { same_live T.eq };

    ghost laws = { live_per T.laws };

    fn eq(&self, other: &Self) -> bool {
        self.default == other.default
            && self.global() == other.global()
            && self.since.is_same(&other.since)
    }
}

impl<T: Eq> Eq for EntityMap<T> {
    ghost use Rattle.tabled_settings.specs.SameLaws.{live_equiv};

    ghost laws = { live_equiv T.Eq.laws };
}
