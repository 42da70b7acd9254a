//! Columns of numbers.

ghost use Rattle.std.specs.Prelude.{◌≡◌, drop, filter, map, IfOk, OnOk, OnErr};
ghost use Rattle.tabled_object.specs.Entities.{below};
ghost use Rattle.tabled_configuration.specs.Configuration.{Changes};
ghost use Rattle.tabled_numbers.specs.Columns.{is_numeric};
ghost use Rattle.tabled_cells.specs.TextsBy.{texts_by};
ghost use Rattle.tabled_measure.specs.Numeric.{at_right, to_the_right};

use std::alloc::{AllocError, Global};
use std::convert::AsStr;
use tabled_border::OutOfMemory;
use tabled_configuration::SpannedConfig;
use tabled_numbers::is_numeric;
use tabled_object::Entity;
use tabled_settings::AlignmentHorizontal;

/// The rows below the first ones.
#[tactic(auto, using(crate::proofs::NumericLemmas::below_headings))]
fn below_headings<T: AsStr>(rows: &[Vec<T>], headings: usize) -> &[Vec<T>]
    ensures { texts_by T.text result.now ≡ drop headings (texts_by T.text rows.now) }
{
    &rows[headings.min(rows.len())..]
}

/// The columns of numbers below the first rows, which are headings, of as many columns as are asked for.
pub fn numeric_columns<T: AsStr>(
    alloc: Global,
    rows: &[Vec<T>],
    headings: usize,
    count: usize,
) -> Result<Vec<usize>, AllocError>
    ensures { IfOk result (λ columns. columns.items ≡ filter (is_numeric (drop headings (texts_by T.text rows.now))) (below count)) }
{
    let rows = below_headings(rows, headings);
    (0..count)
        .filter(|col| is_numeric(rows, *col))
        .collect(alloc)
}

/// Where the texts of columns are to stand: at the right.
fn to_the_right(
    alloc: Global,
    columns: &[usize],
) -> Result<Vec<(Entity, Option<AlignmentHorizontal>)>, AllocError>
    ensures { IfOk result (λ list. list.items ≡ map to_the_right columns.now) }
{
    columns
        .iter()
        .map(|col| (Entity::Column(*col), Some(AlignmentHorizontal::Right)))
        .collect(alloc)
}

/// Sets the texts of columns at the right. Where memory is refused nothing changes.
pub fn set_at_right(cfg: &mut SpannedConfig, columns: &[usize]) -> Result<(), OutOfMemory>
    ensures ok { OnOk result (Changes (at_right columns.now) cfg.old cfg.new) }
    ensures err { OnErr result (cfg.new ≡ cfg.old) }
{
    let list = to_the_right(cfg.allocator(), columns)?;
    cfg.set_alignments_horizontal(list)
}
