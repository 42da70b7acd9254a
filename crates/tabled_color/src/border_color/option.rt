//! Colors of a border as an option: around cells, and around a whole table.

ghost use Rattle.std.specs.Prelude.{◌≡◌, ◌==◌, ◌||◌, ◌++◌, Some, None, if◌then◌else◌, OnOk, OnErr, IfOk, option_copied};
ghost use Rattle.tabled_object.specs.declared.entity.Entity.TheVariants as cells;
ghost use Rattle.tabled_settings.specs.Setting.{is_global};
ghost use Rattle.tabled_places.specs.Calls.{spot_of, edge_of, crossing_of};
ghost use Rattle.tabled_places.specs.Writes.{writes_made};
ghost use Rattle.tabled_configuration.specs.Configuration.{by_colors};
ghost use Rattle.tabled_configuration.specs.Configuration as borders;
ghost use Rattle.tabled_configuration.specs.Colored.{Changes};
ghost use Rattle.tabled_color.specs.BorderColors.{border_texts};
ghost use Rattle.tabled_color.specs.Coloring.{one_color, entity_colored, spot_colored, spot_cleared, line_colored, frame_colored, corners_cleared, table_colored};

use crate::BorderColor;
use std::alloc::Global;
use tabled_border::{ANSIBuf, Border, Keep, OutOfMemory};
use tabled_changes::{CellOption, ColoredConfig, TableOption};
use tabled_configuration::SpannedConfig;
use tabled_grid::{LineOf, Place, Target, Write, border_writes};
use tabled_object::{Entity, ExactRecords, Records};

impl<R: Records + ExactRecords> CellOption<R, ColoredConfig> for BorderColor {
    ghost makes = { λ border records entity old. entity_colored (border_texts border) (R.row_count records, R.column_count records) entity };

    ghost hinted = { λ border. Some cells.Global };

    /// Writes the given colors at the sides and corners of each cell of the entity that lies in the table, row by row: for
    /// what two cells share the later one counts. Where all cells get one color all around, it becomes the default
    /// color instead, and class colors and cells' colors are erased. Where memory is refused nothing changes.
    ///
    /// `BorderColor::filled(alloc, Color::FG_RED)?` on the cell (0, 0) of a table of the style `ascii`, with `r` for each
    /// place that is red:
    ///
    /// ```text
    /// rrrrr---+
    /// r a r b |
    /// rrrrr---+
    /// | c | d |
    /// +---+---+
    /// ```
    fn change(
        &self,
        records: &mut R,
        cfg: &mut ColoredConfig,
        entity: Entity,
    ) -> Result<(), OutOfMemory> {
        let shape = (records.count_rows(), records.count_columns());
        color_cells(cfg.config_mut(), entity, shape, self)
    }

    fn hint_change(&self) -> Option<Entity> {
        Some(Entity::Global)
    }
}

impl<R: Records + ExactRecords, D> TableOption<R, ColoredConfig, D> for BorderColor {
    ghost makes = { λ border records dims old. table_colored (border_texts border) (R.row_count records, R.column_count records) };

    ghost hinted = { λ border. Some cells.Global };

    /// Writes the given colors of the sides along the outer lines of the table, each at its edges and at the crossing after
    /// each of them, and then those of the corners at the outer corners; where no color is given for a corner, the cell color
    /// there is erased. Nothing else is written. A table without rows or columns has no outer lines. Where memory
    /// is refused nothing changes.
    ///
    /// `BorderColor::new().top(Color::FG_RED)` on a table of the style `ascii`, with `r` for each place that is red:
    ///
    /// ```text
    /// +rrrrrrr+
    /// | a | b |
    /// +---+---+
    /// | c | d |
    /// +---+---+
    /// ```
    fn change(
        self,
        records: &mut R,
        cfg: &mut ColoredConfig,
        _dims: &mut D,
    ) -> Result<(), OutOfMemory> {
        let shape = (records.count_rows(), records.count_columns());
        color_table(cfg.config_mut(), shape, &self)
    }

    fn hint_change(&self) -> Option<Entity> {
        Some(Entity::Global)
    }
}

/// Puts the colors of a border around the cells of an entity.
fn color_cells(
    config: &mut SpannedConfig,
    entity: Entity,
    shape: (usize, usize),
    border: &BorderColor,
) -> Result<(), OutOfMemory>
    ensures ok { OnOk result (borders.Changes (entity_colored (border_texts border.now) shape entity) config.old config.new) }
    ensures err { OnErr result (config.new ≡ config.old) }
{
    let colors = border.to_ansi(config.allocator())?;
    write_around_cells(config, entity, shape, &colors)
}

/// Puts the colors of a border around a table.
fn color_table(
    config: &mut SpannedConfig,
    shape: (usize, usize),
    border: &BorderColor,
) -> Result<(), OutOfMemory>
    ensures ok { OnOk result (borders.Changes (table_colored (border_texts border.now) shape) config.old config.new) }
    ensures err { OnErr result (config.new ≡ config.old) }
{
    let colors = border.to_ansi(config.allocator())?;
    write_around_table(config, shape, &colors)
}

/// Puts colors around the cells of an entity.
fn write_around_cells(
    config: &mut SpannedConfig,
    entity: Entity,
    shape: (usize, usize),
    colors: &Border<ANSIBuf>,
) -> Result<(), OutOfMemory>
    ensures ok { OnOk result (borders.Changes (entity_colored colors.now shape entity) config.old config.new) }
    ensures err { OnErr result (config.new ≡ config.old) }
{
    let alloc = config.allocator();
    match one_color_for(entity, colors) {
        Some(color) => {
            config.set_border_color_default(color.keep(alloc)?);
            Ok(())
        }
        None => {
            let writes = border_writes(alloc, entity, shape, colors)?;
            config.apply(Vec::new(alloc), writes)
        }
    }
}

/// The color that all places of a table get, where the entity is all cells and all sides and corners have that color.
fn one_color_for(entity: Entity, colors: &Border<ANSIBuf>) -> Option<&ANSIBuf>
    ensures { option_copied result ≡ (if is_global entity then one_color colors.now else None) }
{
    match entity {
        Entity::Global => one_color(colors),
        _ => None,
    }
}

/// The color of all sides and corners, if they have one and the same.
fn one_color(colors: &Border<ANSIBuf>) -> Option<&ANSIBuf>
    ensures { option_copied result ≡ one_color colors.now }
{
    if colors.is_same() {
        colors.top.as_ref()
    } else {
        None
    }
}

/// Puts colors around a table.
fn write_around_table(
    config: &mut SpannedConfig,
    shape: (usize, usize),
    colors: &Border<ANSIBuf>,
) -> Result<(), OutOfMemory>
    ensures ok { OnOk result (borders.Changes (table_colored colors.now shape) config.old config.new) }
    ensures err { OnErr result (config.new ≡ config.old) }
{
    if is_empty(shape) {
        return Ok(());
    }
    let writes = frame_writes(config.allocator(), shape, colors)?;
    config.apply(Vec::new(config.allocator()), writes)?;
    clear_corners(config, shape, colors);
    Ok(())
}

/// The writes along the outer lines and at the corners of a table.
fn frame_writes(
    alloc: Global,
    shape: (usize, usize),
    colors: &Border<ANSIBuf>,
) -> Result<Vec<Write<ANSIBuf>>, OutOfMemory>
    ensures { IfOk result (λ writes. writes_made writes.items ≡ frame_colored colors.now shape) }
{
    let (rows, cols) = shape;
    let mut writes = Vec::new(alloc);
    add_line(&mut writes, LineOf::Horizontal(0), cols, &colors.top)?;
    add_line(&mut writes, LineOf::Horizontal(rows), cols, &colors.bottom)?;
    add_line(&mut writes, LineOf::Vertical(0), rows, &colors.left)?;
    add_line(&mut writes, LineOf::Vertical(cols), rows, &colors.right)?;
    add_write(
        &mut writes,
        Place::Cross { row: 0, col: 0 },
        &colors.left_top_corner,
    )?;
    add_write(
        &mut writes,
        Place::Cross { row: 0, col: cols },
        &colors.right_top_corner,
    )?;
    add_write(
        &mut writes,
        Place::Cross { row: rows, col: 0 },
        &colors.left_bottom_corner,
    )?;
    add_write(
        &mut writes,
        Place::Cross {
            row: rows,
            col: cols,
        },
        &colors.right_bottom_corner,
    )?;
    Ok(writes)
}

/// Adds the writes of a color, if there is one, along a line of the given number of columns or rows.
fn add_line(
    writes: &mut Vec<Write<ANSIBuf>>,
    line: LineOf,
    length: usize,
    color: &Option<ANSIBuf>,
) -> Result<(), OutOfMemory>
    ensures { OnOk result (writes_made writes.new.items ≡ writes_made writes.old.items ++ line_colored line length color.now) }
{
    if color.is_none() {
        return Ok(());
    }
    for at in 0..length {
        add_write(writes, edge(line, at), color)?;
        add_write(writes, crossing(line, at + 1), color)?;
    }
    Ok(())
}

/// Adds the write of a color at the edge or the crossing of a place, if there is one.
fn add_write(
    writes: &mut Vec<Write<ANSIBuf>>,
    place: Place,
    color: &Option<ANSIBuf>,
) -> Result<(), OutOfMemory>
    ensures { OnOk result (writes_made writes.new.items ≡ writes_made writes.old.items ++ spot_colored (spot_of place) color.now) }
{
    let value = color.keep(*writes.allocator())?;
    writes.push(Write {
        target: Some(Target::Cell(place)),
        value,
    })?;
    Ok(())
}

/// Erases the cell colors of the outer corners for which no color is given.
fn clear_corners(config: &mut SpannedConfig, shape: (usize, usize), colors: &Border<ANSIBuf>)
    ensures { borders.Changes (by_colors (corners_cleared colors.now shape)) config.old config.new }
{
    let (rows, cols) = shape;
    clear_if_none(
        config,
        Place::Cross { row: 0, col: 0 },
        &colors.left_top_corner,
    );
    clear_if_none(
        config,
        Place::Cross { row: 0, col: cols },
        &colors.right_top_corner,
    );
    clear_if_none(
        config,
        Place::Cross { row: rows, col: 0 },
        &colors.left_bottom_corner,
    );
    clear_if_none(
        config,
        Place::Cross {
            row: rows,
            col: cols,
        },
        &colors.right_bottom_corner,
    );
}

/// Erases the cell color of a place, if no color is given for it.
fn clear_if_none(config: &mut SpannedConfig, place: Place, color: &Option<ANSIBuf>)
    ensures { borders.Changes (by_colors (spot_cleared (spot_of place) color.now)) config.old config.new }
{
    match color {
        Some(_) => {}
        None => config.erase_color(place),
    }
}

/// A place of the edge of a line over a column or beside a row.
fn edge(line: LineOf, at: usize) -> Place
    ensures { spot_of result ≡ edge_of line at }
{
    match line {
        LineOf::Horizontal(row) => Place::Horizontal {
            row,
            col: at,
            at: 0,
        },
        LineOf::Vertical(col) => Place::Vertical {
            row: at,
            col,
            at: 0,
        },
    }
}

/// The crossing of a line with a line of the other direction.
fn crossing(line: LineOf, at: usize) -> Place
    ensures { spot_of result ≡ crossing_of line at }
{
    match line {
        LineOf::Horizontal(row) => Place::Cross { row, col: at },
        LineOf::Vertical(col) => Place::Cross { row: at, col },
    }
}

/// Whether a table has no rows or no columns.
fn is_empty(shape: (usize, usize)) -> bool
    ensures { result ≡ ((shape.0 == 0) || (shape.1 == 0)) }
{
    shape.0 == 0 || shape.1 == 0
}
