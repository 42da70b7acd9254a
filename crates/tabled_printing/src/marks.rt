//! What the places along a line show, in order, as lists.

ghost use Rattle.std.specs.Prelude.{◌≡◌, ◌+◌, ◌*◌, List, IfOk, length, map};
ghost use Rattle.tabled_kept.specs.Probing.{IsRaised};
ghost use Rattle.tabled_configuration.specs.Configuration.{ConfigEvent, Shows, all_writes};
ghost use Rattle.tabled_printing.specs.LinePieces.{lines_met};
ghost use Rattle.tabled_printing.specs.Marks.{mark_of, marks_of};
ghost use Rattle.tabled_printing.specs.Picture.{marks};
ghost use Rattle.tabled_printing.specs.Sinks.{Put};

use crate::line_pieces::has_line;
use crate::sink::Sink;
use crate::walk::Walk;
use crate::{Mark, Run};
use tabled_border::OutOfMemory;
use tabled_configuration::SpannedConfig;
use tabled_grid::LineOf;
use tabled_kept::Meter;
use tabled_object::Dimension;

/// Puts the marks of a line, if the table has it.
fn put_line<'a, D: Dimension, S: Sink<'a>, M: Meter>(
    cfg: &'a SpannedConfig<M>,
    dims: &D,
    shape: (usize, usize),
    line: LineOf,
    sink: &mut S,
    probes: &mut M,
) -> Result<(), S::Error>
    ensures put { Put S.puts S.leaves result (marks (all_writes cfg.now) shape (D.width_of dims.now) (D.height_of dims.now) line) sink.old sink.new }
    ensures probes { IsRaised (12 * length (marks (all_writes cfg.now) shape (D.width_of dims.now) (D.height_of dims.now) line) + 6 * lines_met shape line) (M.made probes.old) (M.made probes.new) }
{
    if !has_line(shape, line) {
        return Ok(());
    }
    let walk = Walk {
        cfg,
        dims,
        shape,
        line,
        sides: None,
        with_colors: true,
    };
    walk.put_all(sink, probes)
}

/// Returns what each place along a line of a table shows, in order, whether the line is drawn or not: `shape` is the number of the
/// table's rows and of its columns. A line past the last one, and one of a table without rows or columns, has no places. At most
/// twelve readings are made for each place, and six for each line that meets this one, drawn or not, by a meter of any type; only memory
/// can be refused.
pub fn line_marks<'a, D: Dimension, M: Meter>(
    cfg: &'a SpannedConfig<M>,
    dims: &D,
    shape: (usize, usize),
    line: LineOf,
    probes: &mut M,
) -> Result<Vec<Mark<'a>>, OutOfMemory>
    ensures marks { (es : List ConfigEvent) → Shows es cfg.now → IfOk result (λ found. map mark_of found.items ≡ marks es shape (D.width_of dims.now) (D.height_of dims.now) line) }
    ensures probes { (es : List ConfigEvent) → Shows es cfg.now → IsRaised (12 * length (marks es shape (D.width_of dims.now) (D.height_of dims.now) line) + 6 * lines_met shape line) (M.made probes.old) (M.made probes.new) }
{
    let mut marks = Vec::new(cfg.allocator());
    put_line(cfg, dims, shape, line, &mut marks, probes)?;
    Ok(marks)
}

/// Returns the marks of a line as runs: an edge where no offset is kept is one run, which is looked up once, and else each place is one of
/// its own.
pub fn line_runs<'a, D: Dimension, M: Meter>(
    cfg: &'a SpannedConfig<M>,
    dims: &D,
    shape: (usize, usize),
    line: LineOf,
    probes: &mut M,
) -> Result<Vec<Run<'a>>, OutOfMemory>
    ensures marks { (es : List ConfigEvent) → Shows es cfg.now → IfOk result (λ found. marks_of found.items ≡ marks es shape (D.width_of dims.now) (D.height_of dims.now) line) }
    ensures probes { (es : List ConfigEvent) → Shows es cfg.now → IsRaised (12 * length (marks es shape (D.width_of dims.now) (D.height_of dims.now) line) + 6 * lines_met shape line) (M.made probes.old) (M.made probes.new) }
{
    let mut runs = Vec::new(cfg.allocator());
    put_line(cfg, dims, shape, line, &mut runs, probes)?;
    Ok(runs)
}
