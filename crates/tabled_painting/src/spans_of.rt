//! The spans of a configuration, cell by cell.

ghost use Rattle.std.specs.Prelude.{◌≡◌, ◌≤◌, max, unwrap_or};
ghost use Rattle.std.specs.FinMap.{get};
ghost use Rattle.tabled_kept.specs.Table.{table};
ghost use Rattle.tabled_layout.specs.Spans.{position_cmp};

use std::collections::BTreeMap;
use tabled_configuration::SpannedConfig;
use tabled_object::Position;
use tabled_rooms::CellSpans;

/// Over how many columns and rows the cells of a configuration span.
#[derive(Clone, Copy, Debug)]
pub(crate) struct SpansOf<'a> {
    pub(crate) cfg: &'a SpannedConfig,
}

impl CellSpans for SpansOf<'_> {
    ghost use Rattle.tabled_painting.specs.PaintedSpans.{columns_spanned, rows_spanned};

    ghost columns_at = { λ spans row col. columns_spanned spans.cfg.now.settings row col };

    ghost rows_at = { λ spans row col. rows_spanned spans.cfg.now.settings row col };

    fn may_span(&self, row: usize, count: usize) -> bool {
        self.cfg.has_span_in_row(row, count)
    }

    fn columns(&self, row: usize, col: usize) -> usize {
        span_at(self.cfg.get_column_spans(), Position::new(row, col))
    }

    fn rows(&self, row: usize, col: usize) -> usize {
        span_at(self.cfg.get_row_spans(), Position::new(row, col))
    }
}

/// Over how many columns or rows a cell spans: one where nothing is set for it.
fn span_at(spans: &BTreeMap<Position, usize>, position: Position) -> usize
    ensures value { result ≡ max (unwrap_or (get (table position_cmp spans.now.entries) position) 1) 1 }
    ensures some { 1 ≤ result }
{
    let count: usize = spans.get(&position).copied().unwrap_or(1);
    count.max(1)
}
