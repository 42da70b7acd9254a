//! Colors for the entities that an object lists.

ghost use Rattle.std.specs.Prelude.{◌≡◌, Some, IfOk};
ghost use Rattle.tabled_object.specs.declared.entity.Entity.TheVariants as cells;
ghost use Rattle.tabled_changes.specs.EntitiesColored.{entities_colored};
ghost use Rattle.tabled_colorization.specs.Turns.{exact_colorization};

use crate::turns::colored_exactly;
use std::alloc::Global;
use std::marker::Model;
use tabled_border::OutOfMemory;
use tabled_changes::{ColoredConfig, TableOption};
use tabled_color::Color;
use tabled_object::{Entity, ExactRecords, Object, Records};

/// Colors for the entities that an object lists, given in turn: each entity as a whole has one, and after the last color the
/// first one comes again. A later entity counts where it covers a cell of an earlier one.
///
/// Here x and y are given to row 1 and the cell (0, 0) of a table of two rows and two columns; the cell (0, 1) has no color:
///
/// ```text
/// y
/// x x
/// ```
#[derive(Debug, Drop)]
pub struct ExactColorization<O> {
    colors: Vec<Color>,
    target: O,
}

impl<O> Model for ExactColorization<O> {
    ghost use Rattle.std.specs.Coded.{codes};
    ghost use Rattle.tabled_colorization.specs.Turns.{Exactly};

    ghost Value = { Exactly O };

    ghost coded = { Prim.hlevel (codes, O.code) };

    ghost view = { λ given. record { colors = given.colors.items; target = given.target } };
}

impl<O> ExactColorization<O> {
    /// Makes an option that gives these colors in turn to what the object lists.
    pub(crate) fn new(colors: Vec<Color>, target: O) -> Self
        ensures { result ≡ record { colors = colors.items; target = target } }
    {
        ExactColorization { colors, target }
    }
}

impl<R, D, O> TableOption<R, ColoredConfig, D> for ExactColorization<O>
where
    R: Records + ExactRecords,
    O: Object<R> + Drop,
{
    ghost makes = { λ given records dims old. entities_colored (exact_colorization given.colors
        (O.listing given.target (R.row_count records) (R.column_count records))) };

    ghost hinted = { λ given. Some cells.Global };

    /// Colors the entities that the object lists, outside the table too. Without colors nothing changes, and no map of colors
    /// is made. Where memory is refused nothing changes either.
    fn change(
        self,
        records: &mut R,
        cfg: &mut ColoredConfig,
        _dims: &mut D,
    ) -> Result<(), OutOfMemory> {
        let alloc = cfg.config().allocator();
        let entities = listed(alloc, records, &self.target)?;
        let list = colored_exactly(alloc, &self.colors, &entities)?;
        cfg.color_entities(&list)
    }

    fn hint_change(&self) -> Option<Entity> {
        Some(Entity::Global)
    }
}

/// The entities that an object lists, in order.
fn listed<R, O>(alloc: Global, records: &R, target: &O) -> Result<Vec<Entity>, OutOfMemory>
where
    R: Records + ExactRecords,
    O: Object<R>,
    ensures { IfOk result (λ entities. entities.items ≡ O.listing target.now (R.row_count records.now) (R.column_count records.now)) }
{
    let entities = target.cells(alloc, records)?.collect(alloc)?;
    Ok(entities)
}
