//! How many cell sites are kept on each line.

ghost use Rattle.std.specs.Prelude.{◌≡◌, ◌+◌, ◌-◌, ◌<◌, ◌^◌, if◌then◌else◌, OnOk, OnErr};
ghost use Rattle.tabled_kept.specs.Table.{table};
ghost use Rattle.tabled_places.specs.Site.{same_line};
ghost use Rattle.tabled_places.specs.Keys.{line_cmp};
ghost use Rattle.tabled_grid.specs.Counted.{number_at};
ghost use Rattle.tabled_places.specs.declared.place.LineOf.{LineOf};

use crate::{LineOf, OutOfMemory, Probes};
use tabled_kept::CountedMap;

/// Counts one more on a line. Where memory is refused nothing changes, and the line had none.
pub(crate) fn add(numbers: &mut CountedMap<LineOf, u128>, line: LineOf) -> Result<(), OutOfMemory>
    requires { number_at (table line_cmp numbers.old) line < 2 ^ 64 }
    ensures ok { OnOk result ((other : LineOf) → number_at (table line_cmp numbers.new) other
        ≡ (if same_line line other then number_at (table line_cmp numbers.old) line + 1 else number_at (table line_cmp numbers.old) other)) }
    ensures err { OnErr result (numbers.new ≡ numbers.old) }
    ensures none { OnErr result (number_at (table line_cmp numbers.old) line ≡ 0) }
{
    if numbers.add_one(line) {
        return Ok(());
    }
    let number = numbers.read(line, &mut Probes::new()).copied().unwrap_or(0);
    numbers.insert(line, number + 1)?;
    Ok(())
}

/// Counts one less on a line, which takes no memory.
pub(crate) fn remove(numbers: &mut CountedMap<LineOf, u128>, line: LineOf)
    ensures { (other : LineOf) → number_at (table line_cmp numbers.new) other
        ≡ (if same_line line other then number_at (table line_cmp numbers.old) line - 1 else number_at (table line_cmp numbers.old) other) }
{
    let number = numbers.read(line, &mut Probes::new()).copied().unwrap_or(0);
    if number > 1 {
        let _ = numbers.insert(line, number - 1);
    } else {
        let _ = numbers.remove(line);
    }
}
