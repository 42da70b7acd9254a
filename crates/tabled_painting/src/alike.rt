//! Which horizontal line stands for others.

ghost use Rattle.std.specs.Prelude.{◌<◌, IfSome, IsTrue};
ghost use Rattle.tabled_painting.specs.Between.{IsPlainLine};

use tabled_kept::Probes;
use tabled_object::FixedDimension;
use tabled_printing::Frame;

/// Whether a horizontal line looks as all of its rank do that are such lines: it is no custom one, and nothing is kept for a single place
/// of it.
pub(crate) fn is_plain_line(frame: &Frame<FixedDimension>, row: usize) -> bool
    ensures { IsTrue result → IsPlainLine frame.now.cfg.now frame.now.with_colors row }
{
    !frame.cfg.has_custom_line(row) && frame.is_bare_line(row, &mut Probes::new())
}

/// The first such line between two rows.
pub(crate) fn first_plain_line(frame: &Frame<FixedDimension>) -> Option<usize>
    ensures within { IfSome result (λ row. (0 < row) × (row < frame.now.shape.0)) }
    ensures plain { IfSome result (IsPlainLine frame.now.cfg.now frame.now.with_colors) }
{
    let (rows, _) = frame.shape;
    for row in 1..rows {
        if is_plain_line(frame, row) {
            return Some(row);
        }
    }
    None
}
