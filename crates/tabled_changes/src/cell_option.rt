//! What can be done to cells of a table.

ghost use Rattle.std.specs.Prelude.{◌≡◌, ℕ, [], map, take, IsOk, OnOk, OnErr, List, Option};
ghost use Rattle.tabled_object.specs.declared.entity.Entity.{Entity};
ghost use Rattle.tabled_configuration.specs.Options.{MakesInTurn};

use crate::Configured;
use std::alloc::Global;
use tabled_border::OutOfMemory;
use tabled_object::{Entity as Cells, ExactRecords, Object, Records};

/// A change of some cells in a configuration `C`, which may read the records `R` of the table.
pub trait CellOption<R, C: Configured> {
    /// The events that the option makes for the cells of an entity, given the records and the configuration before.
    ghost makes: { Self → R → Entity → C → List C.Event };

    /// Which cells' sizes the change may touch.
    ghost hinted: { Self → Option Entity };

    /// Makes the change for the cells of the entity: the configuration changes by the option's events, and by nothing else.
    /// Where memory is refused it is as before.
    fn change(&self, records: &mut R, cfg: &mut C, entity: Cells) -> Result<(), OutOfMemory>
        ensures ok { OnOk result (C.changes (makes self.now records.old entity cfg.old) cfg.old cfg.new) }
        ensures err { OnErr result (cfg.new ≡ cfg.old) }
        ensures records { records.new ≡ records.old };

    /// The cells whose sizes a table has to find anew after the change, if any.
    fn hint_change(&self) -> Option<Cells>
        ensures { result ≡ hinted self.now };
}

/// Makes the option's change for each entity that the object lists, in its order, by the events that it makes of what stands before
/// it. Where memory is refused, the changes for the first ones of them may have been made, each whole. `alloc` gives the memory for
/// the listing, where that needs any; where it needs none and nothing is listed, the call returns Ok.
pub fn modify<R, C, O, P>(
    alloc: Global,
    records: &mut R,
    cfg: &mut C,
    object: &O,
    option: &P,
) -> Result<(), OutOfMemory>
where
    R: Records + ExactRecords,
    C: Configured,
    O: Object<R>,
    P: CellOption<R, C>,
    ensures ok { OnOk result ((made : List C.Event) × MakesInTurn C.changes
        (map (P.makes option.now records.old) (O.listing object.now (R.row_count records.old) (R.column_count records.old))) made cfg.old cfg.new) }
    ensures err { OnErr result ((count : ℕ) × (made : List C.Event) × MakesInTurn C.changes
        (map (P.makes option.now records.old) (take count (O.listing object.now (R.row_count records.old) (R.column_count records.old)))) made cfg.old cfg.new) }
    ensures without_entities { O.takes_no_memory object.now → O.listing object.now (R.row_count records.old) (R.column_count records.old) ≡ [] → IsOk result }
    ensures records { records.new ≡ records.old }
{
    for entity in object.cells(alloc, records)? {
        option.change(records, cfg, entity)?;
    }
    Ok(())
}
