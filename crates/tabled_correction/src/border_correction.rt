//! The option that corrects borders where cells span.

ghost use Rattle.std.specs.Prelude.{◌≡◌, ◌++◌, map, IfOk, OnOk, OnErr, Some};
ghost use Rattle.tabled_object.specs.declared.entity.Entity.TheVariants as cells;
ghost use Rattle.tabled_places.specs.Writes.{writes_made};
ghost use Rattle.tabled_configuration.specs.Colored.{Changes};
ghost use Rattle.tabled_correction.specs.Correction.{spanned, corrected, crossing_written, correction_events};

use crate::picture::Picture;
use std::alloc::Global;
use tabled_border::OutOfMemory;
use tabled_changes::{ColoredConfig, TableOption};
use tabled_configuration::SpannedConfig;
use tabled_grid::{Place, Target, Write};
use tabled_object::{Entity, ExactRecords, Position, Records};

/// Corrects the crossings on the borders of cells that span several columns or several rows: each becomes the character
/// of the lines that still meet there.
///
/// In a table of three columns whose first cell spans all of them, before and after:
///
/// ```text
/// +---+---+---+  +-----------+
/// | June      |  | June      |
/// +---+---+---+  +---+---+---+
/// | 9 | 1 | 7 |  | 9 | 1 | 7 |
/// +---+---+---+  +---+---+---+
/// ```
#[derive(Debug, Drop)]
pub struct BorderCorrection {}

impl BorderCorrection {
    /// Makes the correction for the spans that are set when it is applied.
    pub fn span() -> Self {
        BorderCorrection {}
    }
}

impl<R: Records + ExactRecords, D> TableOption<R, ColoredConfig, D> for BorderCorrection {
    ghost makes = { λ option records dims old. correction_events (R.row_count records, R.column_count records) old.spanned };

    ghost hinted = { λ option. Some cells.Global };

    /// Writes the crossings that the spans of the configuration correct, at the cell level: first those of the column spans,
    /// then those of the row spans, then those beside cells that both spans of a cell cover. Each of these three steps is read
    /// off the picture that the one before left. Where memory is refused nothing changes.
    fn change(
        self,
        records: &mut R,
        cfg: &mut ColoredConfig,
        _dims: &mut D,
    ) -> Result<(), OutOfMemory>
        ensures ok { OnOk result (Changes (correction_events (R.row_count records.old, R.column_count records.old) cfg.old.spanned) cfg.old cfg.new) }
        ensures err { OnErr result (cfg.new ≡ cfg.old) }
        ensures records { records.new ≡ records.old }
        ensures sizes { _dims.new ≡ _dims.old }
    {
        let shape = (records.count_rows(), records.count_columns());
        let config = cfg.config_mut();
        let writes = corrections(config, shape)?;
        let alloc = config.allocator();
        config.apply(writes, Vec::new(alloc))
    }

    fn hint_change(&self) -> Option<Entity> {
        Some(Entity::Global)
    }
}

/// The writes of a correction, step by step.
fn corrections(cfg: &SpannedConfig, shape: (usize, usize)) -> Result<Vec<Write<char>>, OutOfMemory>
    ensures { IfOk result (λ writes. writes_made writes.items ≡ map crossing_written (corrected (spanned shape cfg.now))) }
{
    let alloc = cfg.allocator();
    let mut picture = Picture::new(cfg, shape)?;
    let mut by_columns = Vec::new(alloc);
    picture.correct_columns(&mut by_columns)?;
    picture.write(&by_columns)?;
    let mut by_rows = Vec::new(alloc);
    picture.correct_rows(&mut by_rows)?;
    picture.write(&by_rows)?;
    let mut inner = Vec::new(alloc);
    picture.correct_inner(&mut inner)?;
    in_a_row(alloc, &by_columns, &by_rows, &inner)
}

/// The writes of three lists of crossings, one after the other.
fn in_a_row(
    alloc: Global,
    first: &[(Position, char)],
    second: &[(Position, char)],
    third: &[(Position, char)],
) -> Result<Vec<Write<char>>, OutOfMemory>
    ensures { IfOk result (λ writes. writes_made writes.items ≡ map crossing_written (first.now ++ (second.now ++ third.now))) }
{
    let mut writes = Vec::new(alloc);
    push_all(&mut writes, first)?;
    push_all(&mut writes, second)?;
    push_all(&mut writes, third)?;
    Ok(writes)
}

/// Adds a write for each of some crossings.
pub(crate) fn push_all(
    writes: &mut Vec<Write<char>>,
    crossings: &[(Position, char)],
) -> Result<(), OutOfMemory>
    ensures { OnOk result (writes_made writes.new.items ≡ writes_made writes.old.items ++ map crossing_written crossings.now) }
{
    for (crossing, character) in crossings {
        let (row, col) = (crossing.row, crossing.col);
        writes.push(Write {
            target: Some(Target::Cell(Place::Cross { row, col })),
            value: Some(*character),
        })?;
    }
    Ok(())
}
