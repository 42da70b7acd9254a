//! A color that is joined onto the ones that cells have.

ghost use Rattle.std.specs.Prelude.{◌≡◌, None, IfOk};
ghost use Rattle.tabled_color.specs.Shade.{texts_of};
ghost use Rattle.tabled_changes.specs.EntitiesColored.{entities_colored};
ghost use Rattle.tabled_colorization.specs.Joined.{cells_joined, color_at, joined_texts};
ghost use Rattle.tabled_object.specs.Entities.{cells_of};
ghost use Rattle.tabled_object.specs.declared.entity.Entity.TheVariants as every;

use crate::turns::Colored;
use std::alloc::Global;
use std::marker::Model;
use tabled_border::{ANSIBuf, OutOfMemory};
use tabled_changes::{CellOption, ColoredConfig, TableOption};
use tabled_color::Color;
use tabled_object::{Entity, ExactRecords, Position, Records};

/// A color that is joined onto the one that each cell has, as [`Color::join`] joins two: a cell on a ground keeps it and is bold too, where
/// a later [`CellColor`](crate::CellColor) replaces the earlier one. The cell has it as a whole, as by a `CellColor`: its text, what fills
/// it and its padding have the color that its text had, and this one. A cell without a color has this one.
///
/// Here `z` is joined onto row 0 of a table whose columns are colored `x` and `y`:
///
/// ```text
/// xz yz
/// x  y
/// ```
#[derive(Debug, Drop)]
pub struct JoinedColor {
    color: Color,
}

impl Model for JoinedColor {
    ghost use Rattle.tabled_color.specs.Shade.{Shade};

    ghost Value = { Shade };

    ghost view = { λ given. given.color };
}

impl JoinedColor {
    /// Makes an option that joins this color onto those that cells have.
    pub fn new(color: Color) -> Self
        ensures { result ≡ color }
    {
        JoinedColor { color }
    }
}

impl<R: Records + ExactRecords> CellOption<R, ColoredConfig> for JoinedColor {
    ghost makes = { λ color records entity old. entities_colored (cells_joined color old.cell_colors (cells_of entity (R.row_count records) (R.column_count records))) };

    ghost hinted = { λ color. None };

    /// Joins the color onto that of each cell of the entity. Where memory is refused nothing changes.
    fn change(
        &self,
        records: &mut R,
        cfg: &mut ColoredConfig,
        entity: Entity,
    ) -> Result<(), OutOfMemory> {
        let shape = (records.count_rows(), records.count_columns());
        let list = joined_cells(cfg.config().allocator(), cfg, &self.color, entity, shape)?;
        cfg.color_entities(&list)
    }

    fn hint_change(&self) -> Option<Entity> {
        None
    }
}

impl<R: Records + ExactRecords, D> TableOption<R, ColoredConfig, D> for JoinedColor {
    ghost makes = { λ color records dims old. entities_colored (cells_joined color old.cell_colors (cells_of every.Global (R.row_count records) (R.column_count records))) };

    ghost hinted = { λ color. None };

    /// Joins the color onto that of each cell. Where memory is refused nothing changes.
    fn change(
        self,
        records: &mut R,
        cfg: &mut ColoredConfig,
        _dims: &mut D,
    ) -> Result<(), OutOfMemory> {
        let shape = (records.count_rows(), records.count_columns());
        let list = joined_cells(
            cfg.config().allocator(),
            cfg,
            &self.color,
            Entity::Global,
            shape,
        )?;
        cfg.color_entities(&list)
    }

    fn hint_change(&self) -> Option<Entity> {
        None
    }
}

/// The color that a cell has, as one of its own.
fn color_of(alloc: Global, cfg: &ColoredConfig, cell: Position) -> Result<Color, OutOfMemory>
    ensures { IfOk result (λ color. texts_of color ≡ color_at cfg.now.cell_colors cell) }
{
    match cfg.get_color(cell) {
        Some(color) => Color::new(alloc, color.get_prefix(), color.get_suffix()),
        None => Ok(Color::empty()),
    }
}

/// The color that a cell has, joined with another one.
fn joined_at(
    alloc: Global,
    cfg: &ColoredConfig,
    cell: Position,
    color: &Color,
) -> Result<ANSIBuf, OutOfMemory>
    ensures { IfOk result (λ texts. texts ≡ joined_texts (color_at cfg.now.cell_colors cell) color.now) }
{
    let both = color_of(alloc, cfg, cell)?.join(alloc, color)?;
    both.into_ansi(alloc)
}

/// The cells of an entity, each with its color joined with another one.
fn joined_cells(
    alloc: Global,
    cfg: &ColoredConfig,
    color: &Color,
    entity: Entity,
    shape: (usize, usize),
) -> Result<Colored, OutOfMemory>
    ensures { IfOk result (λ list. list.items ≡ cells_joined color.now cfg.now.cell_colors (cells_of entity shape.0 shape.1)) }
{
    let mut list = Vec::new(alloc);
    for cell in entity.iter(shape.0, shape.1) {
        let texts = joined_at(alloc, cfg, cell, color)?;
        list.push((Entity::Cell(cell.row, cell.col), texts))?;
    }
    Ok(list)
}
