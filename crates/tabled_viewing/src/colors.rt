//! Where cells stand, and the colors of a table.

ghost use Rattle.std.specs.Prelude.{◌≡◌, ◌++◌, [], ◌∷◌, List, if◌then◌else◌, IfOk, OnOk};
ghost use Rattle.tabled_configuration.specs.Colored.{Changes, Shows};
ghost use Rattle.tabled_configuration.specs.Configuration.{ConfigEvent};
ghost use Rattle.tabled_color.specs.BorderColors.{full_border};
ghost use Rattle.tabled_colorization.specs.declared.pattern.Pattern.TheVariants as pattern;
ghost use Rattle.tabled_viewing.specs.Colors.{aligned, bold, colored, colored_if, aligned_column, emboldened, frame_colored, gray, plain, shade_of, striped};

use std::alloc::Global;
use std::convert::AsStr;
use tabled_border::OutOfMemory;
use tabled_color::{BorderColor, Color};
use tabled_colorization::Colorization;
use tabled_formatting::Alignment;
use tabled_object::{Columns, Rows, Segment};
use tabled_request::{ColumnSide, FrameColor, Request};
use tabled_text::Table;

/// Puts the cells of a column at a side; at the left they stand where nothing is set.
fn align_column<T: AsStr + Drop>(
    table: &mut Table<T>,
    col: usize,
    side: ColumnSide,
) -> Result<(), OutOfMemory>
    ensures config { OnOk result (Changes (aligned_column side col) table.old.config table.new.config) }
    ensures texts { table.new.texts ≡ table.old.texts }
{
    match side {
        ColumnSide::Left => Ok(()),
        ColumnSide::Center => table.apply_to(&Columns::one(col), &Alignment::center()),
        ColumnSide::Right => table.apply_to(&Columns::one(col), &Alignment::right()),
    }
}

/// Puts the cells of each column where they stand.
fn align<T: AsStr + Drop>(table: &mut Table<T>, sides: &[ColumnSide]) -> Result<(), OutOfMemory>
    ensures config { OnOk result (Changes (aligned 0 sides.now) table.old.config table.new.config) }
    ensures texts { table.new.texts ≡ table.old.texts }
{
    for col in 0..sides.len() {
        align_column(table, col, sides[col])?;
    }
    Ok(())
}

/// A color by its name.
fn shade_of(color: FrameColor) -> Color
    ensures { result ≡ shade_of color }
{
    match color {
        FrameColor::Black => Color::FG_BLACK,
        FrameColor::Red => Color::FG_RED,
        FrameColor::Green => Color::FG_GREEN,
        FrameColor::Yellow => Color::FG_YELLOW,
        FrameColor::Blue => Color::FG_BLUE,
        FrameColor::Magenta => Color::FG_MAGENTA,
        FrameColor::Cyan => Color::FG_CYAN,
        FrameColor::White => Color::FG_WHITE,
    }
}

/// A gray background.
fn gray() -> Color
    ensures { result ≡ gray }
{
    Color::BG_BRIGHT_BLACK
}

/// Bold characters.
fn bold() -> Color
    ensures { result ≡ bold }
{
    Color::BOLD
}

/// No color and a gray background, for rows in turn.
fn stripes(alloc: Global) -> Result<Colorization, OutOfMemory>
    ensures { IfOk result (λ given. given ≡ record { pattern = pattern.Rows; colors = plain ∷ gray ∷ [] }) }
{
    let mut colors = Vec::new(alloc);
    colors.push(Color::empty())?;
    colors.push(gray())?;
    Ok(Colorization::rows(colors))
}

/// Gives every other row a background, if that is wanted.
fn stripe<T: AsStr + Drop>(
    table: &mut Table<T>,
    alloc: Global,
    is_wanted: bool,
) -> Result<(), OutOfMemory>
    ensures config { OnOk result (Changes (if is_wanted then striped table.old.texts else []) table.old.config table.new.config) }
    ensures texts { table.new.texts ≡ table.old.texts }
{
    if !is_wanted {
        return Ok(());
    }
    let stripes = stripes(alloc)?;
    table.apply(stripes)
}

/// Makes the first row bold, if that is wanted.
fn embolden<T: AsStr + Drop>(table: &mut Table<T>, is_wanted: bool) -> Result<(), OutOfMemory>
    ensures config { OnOk result (Changes (if is_wanted then emboldened table.old.texts else []) table.old.config table.new.config) }
    ensures texts { table.new.texts ≡ table.old.texts }
{
    if !is_wanted {
        return Ok(());
    }
    let color = bold();
    table.apply_to(&Rows::first(), &color)
}

/// One color for all sides of a cell.
fn all_sides(alloc: Global, color: FrameColor) -> Result<BorderColor, OutOfMemory>
    ensures { let shade = shade_of color in IfOk result (λ border. border ≡ full_border shade shade shade shade shade shade shade shade) }
{
    BorderColor::filled(alloc, shade_of(color))
}

/// Colors all borders, where a color is given.
fn color_frame<T: AsStr + Drop>(
    table: &mut Table<T>,
    alloc: Global,
    color: Option<FrameColor>,
) -> Result<(), OutOfMemory>
    ensures config { OnOk result (Changes (frame_colored color table.old.texts) table.old.config table.new.config) }
    ensures texts { table.new.texts ≡ table.old.texts }
{
    let Some(color) = color else {
        return Ok(());
    };
    let border = all_sides(alloc, color)?;
    table.apply_to(&Segment::all(), &border)
}

/// Colors the table as the request says.
fn color<T: AsStr + Drop>(
    table: &mut Table<T>,
    alloc: Global,
    request: Request,
) -> Result<(), OutOfMemory>
    ensures config { OnOk result (Changes (colored request table.old.texts) table.old.config table.new.config) }
    ensures texts { table.new.texts ≡ table.old.texts }
{
    stripe(table, alloc, request.has_stripes)?;
    embolden(table, request.has_header)?;
    color_frame(table, alloc, request.frame_color)
}

/// Colors the table as the request says, if there are colors.
fn color_if<T: AsStr + Drop>(
    table: &mut Table<T>,
    alloc: Global,
    request: Request,
    is_colored: bool,
) -> Result<(), OutOfMemory>
    ensures config { OnOk result (Changes (colored_if is_colored request table.old.texts) table.old.config table.new.config) }
    ensures texts { table.new.texts ≡ table.old.texts }
{
    if !is_colored {
        return Ok(());
    }
    color(table, alloc, request)
}

/// Puts the cells of each column where they stand, and colors the table, if there are colors. Where memory is refused some of it may have
/// been done.
pub(crate) fn place_and_color<T: AsStr + Drop>(
    table: &mut Table<T>,
    alloc: Global,
    request: Request,
    sides: &[ColumnSide],
    is_colored: bool,
) -> Result<(), OutOfMemory>
    ensures config { (before : List ConfigEvent) → Shows before table.old.config
        → OnOk result (Shows ((before ++ aligned 0 sides.now) ++ colored_if is_colored request table.old.texts) table.new.config) }
    ensures texts { table.new.texts ≡ table.old.texts }
{
    align(table, sides)?;
    color_if(table, alloc, request, is_colored)
}
