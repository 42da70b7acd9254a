//! The option that lets cells span several columns or rows.

ghost use Rattle.std.specs.Prelude.{◌≡◌, Some, true, false, filter, flat_map, IfOk, OnOk, OnErr};
ghost use Rattle.tabled_object.specs.Entities.{cells_of, is_inside};
ghost use Rattle.tabled_object.specs.declared.entity.Entity.TheVariants as every;
ghost use Rattle.tabled_configuration.specs.Configuration as borders;
ghost use Rattle.tabled_configuration.specs.Colored.{Changes};
ghost use Rattle.tabled_correction.specs.Span.{cell_spanned, span_events};

use std::alloc::Global;
use std::marker::Model;
use tabled_border::OutOfMemory;
use tabled_changes::{CellOption, ColoredConfig};
use tabled_configuration::SpannedConfig;
use tabled_object::{Entity, ExactRecords, Position, Records};

/// Lets each cell of an entity span several columns, or several rows, from its own on. What stands in the others is not shown, and the
/// cell has the room of all of them. Of cells that would overlap the one from further up is shown, else the one from further left.
///
/// `table.modify(Cell::new(0, 0), Span::column(2))?` and `table.modify(Cell::new(1, 0), Span::row(2))?` in a table of the style `ascii`:
///
/// ```text
/// +---+---+---+
/// | a     | c |
/// +---+---+---+
/// | d | e | f |
/// +   +---+---+
/// |   | h | i |
/// +---+---+---+
/// ```
///
/// `BorderCorrection` then takes the crossings away at which no line ends.
#[derive(Clone, Copy, Debug, PartialEq, Eq, PartialOrd, Ord)]
pub struct Span {
    is_columns: bool,
    count: usize,
}

impl Model for Span {
    ghost use Rattle.tabled_correction.specs.Span.{Reach};

    ghost Value = { Reach };

    ghost view = { λ span. record { is_columns = span.is_columns; count = span.count } };

    ghost inverse = { λ reach. record { is_columns = reach.is_columns; count = reach.count } };
}

impl Span {
    /// Over so many columns: fewer than two take a span of columns back, more than there are reach to the end of the row.
    pub const fn column(count: usize) -> Self
        ensures { result ≡ record { is_columns = true; count = count } }
    {
        Span {
            is_columns: true,
            count,
        }
    }

    /// Over so many rows: fewer than two take a span of rows back, more than there are reach to the end of the column.
    pub const fn row(count: usize) -> Self
        ensures { result ≡ record { is_columns = false; count = count } }
    {
        Span {
            is_columns: false,
            count,
        }
    }

    /// Lets all of some cells span, or none.
    fn set_all(&self, cfg: &mut SpannedConfig, cells: &[Position]) -> Result<(), OutOfMemory>
        ensures ok { OnOk result (borders.Changes (flat_map (cell_spanned self.now) cells.now) cfg.old cfg.new) }
        ensures err { OnErr result (cfg.new ≡ cfg.old) }
    {
        if self.is_columns {
            cfg.set_column_spans(cells, self.count)
        } else {
            cfg.set_row_spans(cells, self.count)
        }
    }
}

/// Whether a cell lies in a table.
fn is_inside(cell: Position, shape: (usize, usize)) -> bool
    ensures { result ≡ is_inside shape.0 shape.1 cell }
{
    cell.row < shape.0 && cell.col < shape.1
}

/// The cells of an entity that lie inside a table.
fn cells_inside(
    alloc: Global,
    entity: Entity,
    shape: (usize, usize),
) -> Result<Vec<Position>, OutOfMemory>
    ensures { IfOk result (λ cells. cells.items ≡ filter (is_inside shape.0 shape.1) (cells_of entity shape.0 shape.1)) }
{
    let mut cells = Vec::new(alloc);
    for cell in entity.iter(shape.0, shape.1) {
        if is_inside(cell, shape) {
            cells.push(cell)?;
        }
    }
    Ok(cells)
}

impl<R: Records + ExactRecords> CellOption<R, ColoredConfig> for Span {
    ghost makes = { λ span records entity old. span_events span (R.row_count records, R.column_count records) entity };

    ghost hinted = { λ span. Some every.Global };

    /// Sets over how many columns, or rows, each cell of the entity inside the table spans. Where memory is refused nothing changes.
    fn change(
        &self,
        records: &mut R,
        cfg: &mut ColoredConfig,
        entity: Entity,
    ) -> Result<(), OutOfMemory>
        ensures ok { OnOk result (Changes (span_events self.now (R.row_count records.old, R.column_count records.old) entity) cfg.old cfg.new) }
        ensures err { OnErr result (cfg.new ≡ cfg.old) }
        ensures records { records.new ≡ records.old }
    {
        let shape = (records.count_rows(), records.count_columns());
        let config = cfg.config_mut();
        let cells = cells_inside(config.allocator(), entity, shape)?;
        self.set_all(config, &cells)
    }

    fn hint_change(&self) -> Option<Entity> {
        Some(Entity::Global)
    }
}
