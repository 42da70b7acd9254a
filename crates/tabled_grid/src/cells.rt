//! Values put at edges and crossings and taken from there, with the numbers of the lines on which they lie.

ghost use Rattle.std.specs.Prelude.{◌≡◌, ◌+◌, ◌<◌, ◌^◌, ◌&&◌, is_some, IsSome, IsTrue, OnOk, OnErr, IfOk, None};
ghost use Rattle.std.specs.FinMap as map;
ghost use Rattle.tabled_grid.specs.Count.{one_if};
ghost use Rattle.tabled_kept.specs.Table.{table};
ghost use Rattle.tabled_places.specs.Keys.{line_cmp, spot_cmp};
ghost use Rattle.tabled_grid.specs.Counted.{number_at};
ghost use Rattle.tabled_places.specs.Drawn.{lies_on};
ghost use Rattle.tabled_places.specs.declared.place.LineOf.{LineOf};

use crate::counter::{add, remove};
use crate::spots::{line_across, line_of};
use crate::{LineOf, OutOfMemory, Spot};
use tabled_kept::CountedMap;

/// Puts a value at a spot, and returns the one that stood there. Where memory is refused nothing changes, and nothing stood there.
pub(crate) fn put_cell<T: Drop>(
    values: &mut CountedMap<Spot, T>,
    numbers: &mut CountedMap<LineOf, u128>,
    spot: Spot,
    value: T,
) -> Result<Option<T>, OutOfMemory>
    requires { (line : LineOf) → number_at (table line_cmp numbers.old) line < 2 ^ 64 }
    ensures before { IfOk result (λ before. before ≡ map.get (table spot_cmp values.old) spot) }
    ensures ok { OnOk result (table spot_cmp values.new ≡ map.insert (table spot_cmp values.old) spot value) }
    ensures counted { OnOk result ((line : LineOf) → number_at (table line_cmp numbers.new) line + one_if (is_some (map.get (table spot_cmp values.old) spot) && lies_on line spot)
        ≡ number_at (table line_cmp numbers.old) line + one_if (lies_on line spot)) }
    ensures err { OnErr result (table spot_cmp values.new ≡ table spot_cmp values.old) }
    ensures err_counted { OnErr result ((line : LineOf) → number_at (table line_cmp numbers.new) line ≡ number_at (table line_cmp numbers.old) line) }
    ensures absent { OnErr result (map.get (table spot_cmp values.old) spot ≡ None) }
    ensures few { map.len (table spot_cmp values.new) < 2 ^ 64 }
{
    let before = values.insert(spot, value)?;
    if before.is_some() {
        return Ok(before);
    }
    if count(numbers, spot).is_err() {
        let _ = values.remove(spot);
        return Err(OutOfMemory);
    }
    Ok(before)
}

/// Takes the value of a spot, if there is one.
pub(crate) fn take_cell<T: Drop>(
    values: &mut CountedMap<Spot, T>,
    numbers: &mut CountedMap<LineOf, u128>,
    spot: Spot,
)
    requires { IsSome (map.get (table spot_cmp values.old) spot) → (line : LineOf) → IsTrue (lies_on line spot) → 0 < number_at (table line_cmp numbers.old) line }
    ensures taken { table spot_cmp values.new ≡ map.remove (table spot_cmp values.old) spot }
    ensures counted { (line : LineOf) → number_at (table line_cmp numbers.new) line + one_if (is_some (map.get (table spot_cmp values.old) spot) && lies_on line spot)
        ≡ number_at (table line_cmp numbers.old) line }
    ensures few { map.len (table spot_cmp values.new) < 2 ^ 64 }
{
    if values.remove(spot).is_some() {
        discount(numbers, spot);
    }
}

/// Counts one more on each line of a spot. Where memory is refused nothing changes.
fn count(numbers: &mut CountedMap<LineOf, u128>, spot: Spot) -> Result<(), OutOfMemory>
    requires { (line : LineOf) → number_at (table line_cmp numbers.old) line < 2 ^ 64 }
    ensures ok { OnOk result ((line : LineOf) → number_at (table line_cmp numbers.new) line ≡ number_at (table line_cmp numbers.old) line + one_if (lies_on line spot)) }
    ensures err { OnErr result ((line : LineOf) → number_at (table line_cmp numbers.new) line ≡ number_at (table line_cmp numbers.old) line) }
{
    let first = line_of(spot);
    add(numbers, first)?;
    let Some(second) = line_across(spot) else {
        return Ok(());
    };
    if add(numbers, second).is_err() {
        remove(numbers, first);
        return Err(OutOfMemory);
    }
    Ok(())
}

/// Counts one less on each line of a spot, which takes no memory.
fn discount(numbers: &mut CountedMap<LineOf, u128>, spot: Spot)
    requires { (line : LineOf) → IsTrue (lies_on line spot) → 0 < number_at (table line_cmp numbers.old) line }
    ensures { (line : LineOf) → number_at (table line_cmp numbers.new) line + one_if (lies_on line spot) ≡ number_at (table line_cmp numbers.old) line }
{
    remove(numbers, line_of(spot));
    if let Some(second) = line_across(spot) {
        remove(numbers, second);
    }
}
