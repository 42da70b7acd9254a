//! The option that joins the lines that meet at each crossing.

ghost use Rattle.std.specs.Prelude.{◌≡◌, map, IfOk, OnOk, OnErr, Some};
ghost use Rattle.tabled_object.specs.declared.entity.Entity.TheVariants as cells;
ghost use Rattle.tabled_places.specs.Writes.{writes_made};
ghost use Rattle.tabled_configuration.specs.Colored.{Changes};
ghost use Rattle.tabled_correction.specs.Correction.{crossing_written};
ghost use Rattle.tabled_correction.specs.Corners.{corners_of, joined_corner_events};

use crate::border_correction::push_all;
use crate::picture::Picture;
use tabled_border::OutOfMemory;
use tabled_changes::{ColoredConfig, TableOption};
use tabled_configuration::SpannedConfig;
use tabled_grid::Write;
use tabled_object::{Entity, ExactRecords, Records};

/// Gives each crossing of a table the box-drawing character whose arms are those of the edges that meet there: light, heavy or double
/// ones. It reads the edges as they show at that time, whatever wrote them, so it is applied last.
///
/// A table of the style `modern` in a frame of double lines, whose first cell spans two columns, before and after:
///
/// ```text
/// ╔═══┬═══┬═══╗  ╔═══════╤═══╗
/// ║ June  │   ║  ║ June  │   ║
/// ├───┼───┼───┤  ╟───┬───┼───╢
/// ║ 9 │ 1 │ 7 ║  ║ 9 │ 1 │ 7 ║
/// ╚═══┴═══┴═══╝  ╚═══╧═══╧═══╝
/// ```
///
/// An edge has no arm where a span hides it, or where it shows a space or nothing; its offset characters do not count, so a line goes on
/// under its title. A crossing stays as it is where it has these arms already, as a rounded corner may; where no character has them;
/// where it, or an edge beside it, shows a character without arms, as a letter or `+`; where fewer than two arms meet; and where it
/// shows nothing and no arms of both directions meet. Crossings of lines that are not drawn stay too, and so do colors.
#[derive(Debug, Drop)]
pub struct JoinedCorners {}

impl JoinedCorners {
    /// Makes the option, for the edges that show when it is applied.
    pub fn new() -> Self {
        JoinedCorners {}
    }
}

impl<R: Records + ExactRecords, D> TableOption<R, ColoredConfig, D> for JoinedCorners {
    ghost makes = { λ option records dims old. joined_corner_events (R.row_count records, R.column_count records) old.spanned };

    ghost hinted = { λ option. Some cells.Global };

    /// Writes the crossings that become other ones, at the cell level, in row order. Where memory is refused nothing changes.
    fn change(
        self,
        records: &mut R,
        cfg: &mut ColoredConfig,
        _dims: &mut D,
    ) -> Result<(), OutOfMemory>
        ensures ok { OnOk result (Changes (joined_corner_events (R.row_count records.old, R.column_count records.old) cfg.old.spanned) cfg.old cfg.new) }
        ensures err { OnErr result (cfg.new ≡ cfg.old) }
        ensures records { records.new ≡ records.old }
        ensures sizes { _dims.new ≡ _dims.old }
    {
        let shape = (records.count_rows(), records.count_columns());
        let config = cfg.config_mut();
        let writes = corners(config, shape)?;
        let alloc = config.allocator();
        config.apply(writes, Vec::new(alloc))
    }

    fn hint_change(&self) -> Option<Entity> {
        Some(Entity::Global)
    }
}

/// The writes of the crossings that become other ones.
fn corners(cfg: &SpannedConfig, shape: (usize, usize)) -> Result<Vec<Write<char>>, OutOfMemory>
    ensures { IfOk result (λ writes. writes_made writes.items ≡ map crossing_written (corners_of shape cfg.now)) }
{
    let alloc = cfg.allocator();
    let picture = Picture::new(cfg, shape)?;
    let mut crossings = Vec::new(alloc);
    picture.join_corners(&mut crossings)?;
    let mut writes = Vec::new(alloc);
    push_all(&mut writes, &crossings)?;
    Ok(writes)
}
