//! All borders replaced at once.

ghost use Rattle.std.specs.Prelude.{◌≡◌, [], ◌++◌, OnOk, OnErr, IfOk, IsOk};
ghost use Rattle.tabled_places.specs.Event as grid;
ghost use Rattle.tabled_places.specs.State.{state_at, class_record_set};
ghost use Rattle.tabled_configuration.specs.Configuration.{Changes, borders_replaced, horizontal_lines_put, vertical_lines_put};

use super::{SpannedConfig, erase_all};
use std::alloc::Global;
use tabled_border::OutOfMemory;
use tabled_grid::{Borders, HorizontalLine, Layers, VerticalLine};

impl SpannedConfig {
    /// Erases every border character and color of every level, offsets too; then puts each custom line at its index, in the order
    /// of the lists, and sets the class record. Where memory is refused nothing changes; without custom lines none is asked for.
    ///
    /// The class record of the style `psql` and vertical line 1 of `#`, in place of whatever was there. The line draws the top
    /// and the bottom too, as it has characters where it crosses them:
    ///
    /// ```text
    ///    #
    ///  a # b
    ///  c # d
    ///    #
    /// ```
    pub fn replace_borders(
        &mut self,
        class: Borders<char>,
        horizontals: &[(usize, HorizontalLine<char>)],
        verticals: &[(usize, VerticalLine<char>)],
    ) -> Result<(), OutOfMemory>
        ensures ok { OnOk result (Changes (borders_replaced class horizontals.now verticals.now) self.old self.new) }
        ensures err { OnErr result (self.new ≡ self.old) }
        ensures without_lines { horizontals.now ≡ [] → verticals.now ≡ [] → IsOk result }
    {
        let characters = store_of(self.allocator(), class, horizontals, verticals)?;
        self.characters = characters;
        erase_all(&mut self.colors);
        Ok(())
    }
}

/// A store of these custom lines and this class record.
fn store_of(
    alloc: Global,
    class: Borders<char>,
    horizontals: &[(usize, HorizontalLine<char>)],
    verticals: &[(usize, VerticalLine<char>)],
) -> Result<Layers<char>, OutOfMemory>
    ensures ok { IfOk result (λ store. grid.Shows (horizontal_lines_put horizontals.now ++ vertical_lines_put verticals.now ++ class_record_set class) (state_at store)) }
    ensures without_lines { horizontals.now ≡ [] → verticals.now ≡ [] → IsOk result }
{
    let mut store = Layers::new(alloc);
    put_horizontals(&mut store, horizontals)?;
    put_verticals(&mut store, verticals)?;
    store.set_class(class);
    Ok(store)
}

/// Puts each line at its index, in the order of the list.
fn put_horizontals(
    store: &mut Layers<char>,
    lines: &[(usize, HorizontalLine<char>)],
) -> Result<(), OutOfMemory>
    ensures ok { OnOk result (grid.Changes (horizontal_lines_put lines.now) (state_at store.old) (state_at store.new)) }
    ensures without_lines { lines.now ≡ [] → IsOk result }
{
    for line in lines {
        store.insert_hline(line.0, line.1)?;
    }
    Ok(())
}

/// Puts each line at its index, in the order of the list.
fn put_verticals(
    store: &mut Layers<char>,
    lines: &[(usize, VerticalLine<char>)],
) -> Result<(), OutOfMemory>
    ensures ok { OnOk result (grid.Changes (vertical_lines_put lines.now) (state_at store.old) (state_at store.new)) }
    ensures without_lines { lines.now ≡ [] → IsOk result }
{
    for line in lines {
        store.insert_vline(line.0, line.1)?;
    }
    Ok(())
}
