//! How large the columns and rows are of a table whose cells span.

ghost use Rattle.std.specs.Prelude.{◌≡◌, IfOk, length};
ghost use Rattle.tabled_configuration.specs.Configuration.{all_writes, characters_of};
ghost use Rattle.tabled_places.specs.Drawn.{drawn};
ghost use Rattle.tabled_places.specs.declared.place.LineOf.{LineOf as Line};
ghost use Rattle.tabled_rooms.specs.Sizes.{spanned_heights, spanned_widths};
ghost use Rattle.tabled_painting.specs.PaintedSpans.{columns_spanned, rows_spanned};

use crate::drawn::lines_drawn;
use crate::spans_of::SpansOf;
use tabled_border::OutOfMemory;
use tabled_configuration::SpannedConfig;
use tabled_grid::Direction;
use tabled_object::FixedDimension;
use tabled_rooms::{CellSizes, spanned_sizes};

/// Returns how wide each column of a table is, and how high each row: as wide as any cell asks that is shown in the column alone, and then
/// wider where cells that are shown over several columns have no room there, those over fewer columns first; rows likewise. Only memory can
/// be refused.
pub fn sizes_of_spanned<M: CellSizes>(
    cfg: &SpannedConfig,
    shape: (usize, usize),
    cells: &M,
) -> Result<FixedDimension, OutOfMemory>
    ensures widths { IfOk result (λ sizes. sizes.widths.items ≡ spanned_widths (columns_spanned cfg.now.settings) (rows_spanned cfg.now.settings) shape (M.width_at cells.now)
        (λ n. drawn (characters_of (all_writes cfg.now)) shape.1 (Line.Vertical n))) }
    ensures heights { IfOk result (λ sizes. sizes.heights.items ≡ spanned_heights (columns_spanned cfg.now.settings) (rows_spanned cfg.now.settings) shape (M.height_at cells.now)
        (λ n. drawn (characters_of (all_writes cfg.now)) shape.0 (Line.Horizontal n))) }
    ensures columns { IfOk result (λ sizes. length sizes.widths.items ≡ shape.1) }
    ensures rows { IfOk result (λ sizes. length sizes.heights.items ≡ shape.0) }
{
    let (rows, cols) = shape;
    let sides = lines_drawn(cfg, Direction::Vertical, cols)?;
    let lines = lines_drawn(cfg, Direction::Horizontal, rows)?;
    let spans = SpansOf { cfg };
    let (widths, heights) = spanned_sizes(cfg.allocator(), &spans, cells, shape, &sides, &lines)?;
    Ok(FixedDimension::new(widths, heights))
}
