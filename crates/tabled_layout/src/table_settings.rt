//! All that is set for a table beside its borders.

ghost use Rattle.std.specs.Prelude.{◌≡◌};
ghost use Rattle.tabled_layout.specs.TableSettings.{first_settings};

use crate::{Margin, Spans};
use std::alloc::Global;
use tabled_border::{Keep, OutOfMemory};
use tabled_settings::CellSettings;

/// What is set for the cells of a table by entity, its margin, and its spans.
#[derive(Debug, Drop, PartialEq, Eq)]
pub struct TableSettings {
    /// What is set for cells by entity.
    pub cells: CellSettings,
    /// The margin around the table.
    pub margin: Margin,
    /// Which cells span several columns.
    pub column_spans: Spans,
    /// Which cells span several rows.
    pub row_spans: Spans,
}

impl TableSettings {
    /// Nothing set for any cell, no margin, no spans.
    pub fn new(alloc: Global) -> Self
        ensures { result ≡ first_settings }
    {
        TableSettings {
            cells: CellSettings::new(alloc),
            margin: Margin::new(),
            column_spans: Spans::new(alloc),
            row_spans: Spans::new(alloc),
        }
    }
}

impl Keep for TableSettings {
    fn keep(&self, alloc: Global) -> Result<Self, OutOfMemory> {
        Ok(TableSettings {
            margin: self.margin.keep(alloc)?,
            column_spans: self.column_spans.keep(alloc)?,
            row_spans: self.row_spans.keep(alloc)?,
            cells: self.cells.keep(alloc)?,
        })
    }
}
