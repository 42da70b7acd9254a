//! The entities of a pattern, each with its color.

ghost use Rattle.std.specs.Prelude.{◌≡◌, ◌+◌, ◌%◌, ◌^◌, ◌<◌, ◌++◌, map, length, slice_get, IfOk, OnOk, option_copied};
ghost use Rattle.tabled_object.specs.declared.entity.Entity.TheVariants as cells;
ghost use Rattle.tabled_object.specs.Entities.{below};
ghost use Rattle.tabled_colorization.specs.declared.pattern.Pattern.TheVariants as pattern;
ghost use Rattle.tabled_colorization.specs.Turns.{in_its_turn, in_turn, listing_in_turn, numbered, exact_colorization};
ghost use Rattle.tabled_color.specs.Shade.{texts_of};

use crate::pattern::Pattern;
use std::alloc::Global;
use tabled_border::{ANSIBuf, Keep, OutOfMemory};
use tabled_color::Color;
use tabled_object::Entity;

/// Entities, each with its color.
pub(crate) type Colored = Vec<(Entity, ANSIBuf)>;

/// The texts of colors, which all entities of one color share.
fn texts_of(alloc: Global, colors: &[Color]) -> Result<Vec<ANSIBuf>, OutOfMemory>
    ensures { IfOk result (λ texts. texts.items ≡ map texts_of colors.now) }
{
    let mut texts = Vec::with_capacity(alloc, colors.len())?;
    for color in colors {
        texts.push(ANSIBuf::new(alloc, color.get_prefix(), color.get_suffix())?)?;
    }
    Ok(texts)
}

/// The entities of a pattern in a table of the given numbers of rows and columns, each with its color.
pub(crate) fn colored_by(
    alloc: Global,
    pattern: Pattern,
    colors: &[Color],
    rows: usize,
    cols: usize,
) -> Result<Colored, OutOfMemory>
    ensures { IfOk result (λ list. list.items ≡ in_turn (map texts_of colors.now) (numbered pattern rows cols)) }
{
    let texts = texts_of(alloc, colors)?;
    in_turn(alloc, pattern, &texts, rows, cols)
}

/// The entities of a pattern in a table, each with its color, which is given by its texts.
fn in_turn(
    alloc: Global,
    pattern: Pattern,
    colors: &[ANSIBuf],
    rows: usize,
    cols: usize,
) -> Result<Colored, OutOfMemory>
    ensures { IfOk result (λ list. list.items ≡ in_turn colors.now (numbered pattern rows cols)) }
{
    match pattern {
        Pattern::Columns => columns(alloc, colors, cols),
        Pattern::Rows => rows_of(alloc, colors, rows),
        Pattern::ByRow => by_row(alloc, colors, rows, cols),
        Pattern::ByColumn => by_column(alloc, colors, rows, cols),
        Pattern::Chess => chess(alloc, colors, rows, cols),
    }
}

/// Each entity of a list with its color, counted from 0.
pub(crate) fn colored_exactly(
    alloc: Global,
    colors: &[Color],
    entities: &[Entity],
) -> Result<Colored, OutOfMemory>
    ensures { IfOk result (λ list. list.items ≡ exact_colorization colors.now entities.now) }
{
    let texts = texts_of(alloc, colors)?;
    listed(alloc, &texts, entities)
}

/// Each entity of a list with its color, counted from 0, where colors are given by their texts.
fn listed(alloc: Global, colors: &[ANSIBuf], entities: &[Entity]) -> Result<Colored, OutOfMemory>
    ensures { IfOk result (λ list. list.items ≡ listing_in_turn colors.now entities.now) }
{
    let mut list = Vec::new(alloc);
    for (number, entity) in entities.iter().enumerate() {
        add(&mut list, alloc, colors, *entity, number as u128)?;
    }
    Ok(list)
}

fn columns(alloc: Global, colors: &[ANSIBuf], cols: usize) -> Result<Colored, OutOfMemory>
    ensures { IfOk result (λ list. list.items ≡ in_turn colors.now (map (λ col. (cells.Column col, col)) (below cols))) }
{
    let mut list = Vec::new(alloc);
    for col in 0..cols {
        add(&mut list, alloc, colors, Entity::Column(col), col as u128)?;
    }
    Ok(list)
}

fn rows_of(alloc: Global, colors: &[ANSIBuf], rows: usize) -> Result<Colored, OutOfMemory>
    ensures { IfOk result (λ list. list.items ≡ in_turn colors.now (map (λ row. (cells.Row row, row)) (below rows))) }
{
    let mut list = Vec::new(alloc);
    for row in 0..rows {
        add(&mut list, alloc, colors, Entity::Row(row), row as u128)?;
    }
    Ok(list)
}

fn by_row(
    alloc: Global,
    colors: &[ANSIBuf],
    rows: usize,
    cols: usize,
) -> Result<Colored, OutOfMemory>
    ensures { IfOk result (λ list. list.items ≡ in_turn colors.now (numbered pattern.ByRow rows cols)) }
{
    let mut list = Vec::new(alloc);
    for row in 0..rows {
        add_row(
            &mut list,
            alloc,
            colors,
            row,
            cols,
            row as u128 * cols as u128,
        )?;
    }
    Ok(list)
}

fn by_column(
    alloc: Global,
    colors: &[ANSIBuf],
    rows: usize,
    cols: usize,
) -> Result<Colored, OutOfMemory>
    ensures { IfOk result (λ list. list.items ≡ in_turn colors.now (numbered pattern.ByColumn rows cols)) }
{
    let mut list = Vec::new(alloc);
    for col in 0..cols {
        add_column(
            &mut list,
            alloc,
            colors,
            col,
            rows,
            col as u128 * rows as u128,
        )?;
    }
    Ok(list)
}

fn chess(
    alloc: Global,
    colors: &[ANSIBuf],
    rows: usize,
    cols: usize,
) -> Result<Colored, OutOfMemory>
    ensures { IfOk result (λ list. list.items ≡ in_turn colors.now (numbered pattern.Chess rows cols)) }
{
    let mut list = Vec::new(alloc);
    for row in 0..rows {
        add_row(&mut list, alloc, colors, row, cols, row as u128)?;
    }
    Ok(list)
}

/// Adds the cells of a row, numbered from `first` on.
fn add_row(
    list: &mut Colored,
    alloc: Global,
    colors: &[ANSIBuf],
    row: usize,
    cols: usize,
    first: u128,
) -> Result<(), OutOfMemory>
    requires { first + cols < 2 ^ 128 }
    ensures { OnOk result (list.new.items ≡ list.old.items ++ in_turn colors.now (map (λ col. (cells.Cell row col, first + col)) (below cols))) }
{
    for col in 0..cols {
        add(
            list,
            alloc,
            colors,
            Entity::Cell(row, col),
            first + col as u128,
        )?;
    }
    Ok(())
}

/// Adds the cells of a column, numbered from `first` on.
fn add_column(
    list: &mut Colored,
    alloc: Global,
    colors: &[ANSIBuf],
    col: usize,
    rows: usize,
    first: u128,
) -> Result<(), OutOfMemory>
    requires { first + rows < 2 ^ 128 }
    ensures { OnOk result (list.new.items ≡ list.old.items ++ in_turn colors.now (map (λ row. (cells.Cell row col, first + row)) (below rows))) }
{
    for row in 0..rows {
        add(
            list,
            alloc,
            colors,
            Entity::Cell(row, col),
            first + row as u128,
        )?;
    }
    Ok(())
}

/// Adds an entity with the color of its number.
fn add(
    list: &mut Colored,
    alloc: Global,
    colors: &[ANSIBuf],
    entity: Entity,
    number: u128,
) -> Result<(), OutOfMemory>
    ensures { OnOk result (list.new.items ≡ list.old.items ++ in_its_turn colors.now (entity, number)) }
{
    match color_of(colors, number) {
        Some(color) => {
            list.push((entity, color.keep(alloc)?))?;
            Ok(())
        }
        None => Ok(()),
    }
}

/// The color of a number, where the colors are counted round and round.
fn color_of(colors: &[ANSIBuf], number: u128) -> Option<&ANSIBuf>
    ensures { option_copied result ≡ slice_get colors.now (number % length colors.now) }
{
    if colors.is_empty() {
        return None;
    }
    colors.get((number % colors.len() as u128) as usize)
}
