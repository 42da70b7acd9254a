//! Cells that span several columns or several rows.
//!
//! A span is kept for the position that is named, whether or not that lies inside the table. Padded cells are not printed
//! where any cell spans; tables of texts are.

ghost use Rattle.std.specs.Prelude.{◌≡◌, ◌<◌, ◌||◌, not, flat_map, IsOk, OnOk, OnErr};
ghost use Rattle.tabled_kept.specs.Table.{table};
ghost use Rattle.tabled_layout.specs.Spans.{position_cmp};
ghost use Rattle.tabled_layout.specs.Covering.{covered_by_column_span, covered_by_row_span, covered_by_both_spans, has_span};
ghost use Rattle.tabled_configuration.specs.Configuration.{Changes, by_column_span, by_row_span, has_no_spans};

use super::SpannedConfig;
use std::collections::BTreeMap;
use tabled_border::OutOfMemory;
use tabled_object::Position;

impl SpannedConfig {
    /// Sets over how many columns the cell at a position spans; fewer than two remove its span, which takes no memory.
    /// Where memory is refused nothing changes.
    pub fn set_column_span(&mut self, position: Position, columns: usize) -> Result<(), OutOfMemory>
        ensures ok { OnOk result (Changes (by_column_span (position, columns)) self.old self.new) }
        ensures err { OnErr result (self.new ≡ self.old) }
        ensures always { columns < 2 → IsOk result }
    {
        self.settings.column_spans.set(position, columns)
    }

    /// Sets over how many rows the cell at a position spans; fewer than two remove its span, which takes no memory.
    /// Where memory is refused nothing changes.
    pub fn set_row_span(&mut self, position: Position, rows: usize) -> Result<(), OutOfMemory>
        ensures ok { OnOk result (Changes (by_row_span (position, rows)) self.old self.new) }
        ensures err { OnErr result (self.new ≡ self.old) }
        ensures always { rows < 2 → IsOk result }
    {
        self.settings.row_spans.set(position, rows)
    }

    /// Sets over how many columns each of some cells spans; fewer than two remove their spans, which takes no memory. Where memory
    /// is refused nothing changes. It costs the cells, and not what the table keeps.
    pub fn set_column_spans(
        &mut self,
        cells: &[Position],
        columns: usize,
    ) -> Result<(), OutOfMemory>
        ensures ok { OnOk result (Changes (flat_map (λ cell. by_column_span (cell, columns)) cells.now) self.old self.new) }
        ensures err { OnErr result (self.new ≡ self.old) }
        ensures always { columns < 2 → IsOk result }
    {
        let alloc = self.allocator();
        self.settings.column_spans.set_all(alloc, cells, columns)
    }

    /// Sets over how many rows each of some cells spans; fewer than two remove their spans, which takes no memory. Where memory is
    /// refused nothing changes. It costs the cells, and not what the table keeps.
    pub fn set_row_spans(&mut self, cells: &[Position], rows: usize) -> Result<(), OutOfMemory>
        ensures ok { OnOk result (Changes (flat_map (λ cell. by_row_span (cell, rows)) cells.now) self.old self.new) }
        ensures err { OnErr result (self.new ≡ self.old) }
        ensures always { rows < 2 → IsOk result }
    {
        let alloc = self.allocator();
        self.settings.row_spans.set_all(alloc, cells, rows)
    }

    /// Returns the cells that span several columns, each with their number, in the order of their rows and then of their columns.
    pub fn get_column_spans(&self) -> &BTreeMap<Position, usize>
        ensures { table position_cmp result.now.entries ≡ self.now.settings.column_spans }
    {
        self.settings.column_spans.as_map()
    }

    /// Returns the cells that span several rows, each with their number, in the order of their rows and then of their columns.
    pub fn get_row_spans(&self) -> &BTreeMap<Position, usize>
        ensures { table position_cmp result.now.entries ≡ self.now.settings.row_spans }
    {
        self.settings.row_spans.as_map()
    }

    /// Returns whether a cell is covered by a column span: it stands in the row of a cell that spans several columns, at its right
    /// and within these. It is looked for among all column spans.
    pub fn is_cell_covered_by_column_span(&self, position: Position) -> bool
        ensures { result ≡ covered_by_column_span self.now.settings.column_spans position }
    {
        self.settings.column_spans.cover_in_row(position)
    }

    /// Returns whether a cell is covered by a row span: it stands in the column of a cell that spans several rows, below it and
    /// within these. It is looked for among all row spans.
    pub fn is_cell_covered_by_row_span(&self, position: Position) -> bool
        ensures { result ≡ covered_by_row_span self.now.settings.row_spans position }
    {
        self.settings.row_spans.cover_in_column(position)
    }

    /// Returns whether a cell is covered by both spans of one cell: it stands both below that and at its right, within its rows and
    /// within its columns. It is looked for among all column spans.
    pub fn is_cell_covered_by_both_spans(&self, position: Position) -> bool
        ensures { result ≡ covered_by_both_spans self.now.settings.column_spans self.now.settings.row_spans position }
    {
        self.settings
            .column_spans
            .cover_with(&self.settings.row_spans, position)
    }

    /// Returns whether one of the first `count` cells of a row spans several columns or several rows.
    pub fn has_span_in_row(&self, row: usize, count: usize) -> bool
        ensures { result ≡ (has_span self.now.settings.column_spans row count || has_span self.now.settings.row_spans row count) }
    {
        self.settings.column_spans.has_some(row, count)
            || self.settings.row_spans.has_some(row, count)
    }

    /// Returns whether any cell spans several columns or several rows.
    pub fn has_spans(&self) -> bool
        ensures { result ≡ not (has_no_spans self.now) }
    {
        !(self.settings.column_spans.is_empty() && self.settings.row_spans.is_empty())
    }
}
