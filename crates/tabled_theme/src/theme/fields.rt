//! Records changed in many fields.

ghost use Rattle.std.specs.Prelude.{◌≡◌, IfOk, OnOk, option_map};
ghost use Rattle.tabled_border.specs.Texts.{Texts};
ghost use Rattle.tabled_color.specs.Shade.{texts_of, owned_shade};
ghost use Rattle.tabled_theme.specs.Fields.{each_field, with_frame};
ghost use Rattle.tabled_theme.specs.Shown.{owned_colors};

use std::alloc::Global;
use std::mem;
use tabled_border::{ANSIBuf, Border, Keep, OutOfMemory};
use tabled_color::Color;
use tabled_grid::Borders;

/// Puts a value in place of what stood there, which is let go in one call.
pub(super) fn put<T: Drop>(slot: &mut Option<T>, value: Option<T>)
    ensures { slot.new ≡ value }
{
    drop(mem::replace(slot, value));
}

/// The record with this frame, which loses what the frame does not give.
pub(super) fn put_frame<T>(borders: Borders<T>, frame: Border<T>) -> Borders<T>
where
    T: Drop,
    ensures { result ≡ with_frame frame borders }
{
    Borders {
        top: frame.top,
        bottom: frame.bottom,
        left: frame.left,
        right: frame.right,
        top_left: frame.left_top_corner,
        bottom_left: frame.left_bottom_corner,
        top_right: frame.right_top_corner,
        bottom_right: frame.right_bottom_corner,
        ..borders
    }
}

/// Copies of the colors of a record.
pub(super) fn copied(
    alloc: Global,
    borders: &Borders<ANSIBuf>,
) -> Result<Borders<Color>, OutOfMemory>
    ensures { IfOk result (λ colors. colors ≡ owned_colors borders.now) }
{
    Ok(owned(borders.keep(alloc)?))
}

/// The colors of a record, each as it owns its texts.
fn owned(borders: Borders<ANSIBuf>) -> Borders<Color>
    ensures { result ≡ owned_colors borders }
{
    Borders {
        top: owned_color(borders.top),
        bottom: owned_color(borders.bottom),
        left: owned_color(borders.left),
        right: owned_color(borders.right),
        top_left: owned_color(borders.top_left),
        top_right: owned_color(borders.top_right),
        bottom_left: owned_color(borders.bottom_left),
        bottom_right: owned_color(borders.bottom_right),
        top_intersection: owned_color(borders.top_intersection),
        bottom_intersection: owned_color(borders.bottom_intersection),
        left_intersection: owned_color(borders.left_intersection),
        right_intersection: owned_color(borders.right_intersection),
        horizontal: owned_color(borders.horizontal),
        vertical: owned_color(borders.vertical),
        intersection: owned_color(borders.intersection),
    }
}

/// A color that owns its texts, where it is given.
fn owned_color(color: Option<ANSIBuf>) -> Option<Color>
    ensures { result ≡ option_map (λ (texts : Texts). owned_shade texts.prefix texts.suffix) color }
{
    match color {
        Some(color) => Some(Color::from(color)),
        None => None,
    }
}

/// Copies of the texts of the colors of a record.
pub(super) fn texts(alloc: Global, colors: &Borders<Color>) -> Result<Borders<ANSIBuf>, OutOfMemory>
    ensures { IfOk result (λ texts. texts ≡ each_field texts_of colors.now) }
{
    let mut texts = Borders::empty();
    match put_texts(alloc, &mut texts, colors) {
        Ok(()) => Ok(texts),
        Err(refused) => {
            drop(texts);
            Err(refused)
        }
    }
}

/// Puts copies of the texts of the colors of a record into another.
fn put_texts(
    alloc: Global,
    texts: &mut Borders<ANSIBuf>,
    colors: &Borders<Color>,
) -> Result<(), OutOfMemory>
    ensures { OnOk result (texts.new ≡ each_field texts_of colors.now) }
{
    put_text(alloc, &mut texts.top, &colors.top)?;
    put_text(alloc, &mut texts.bottom, &colors.bottom)?;
    put_text(alloc, &mut texts.left, &colors.left)?;
    put_text(alloc, &mut texts.right, &colors.right)?;
    put_text(alloc, &mut texts.top_left, &colors.top_left)?;
    put_text(alloc, &mut texts.top_right, &colors.top_right)?;
    put_text(alloc, &mut texts.bottom_left, &colors.bottom_left)?;
    put_text(alloc, &mut texts.bottom_right, &colors.bottom_right)?;
    put_text(alloc, &mut texts.top_intersection, &colors.top_intersection)?;
    put_text(
        alloc,
        &mut texts.bottom_intersection,
        &colors.bottom_intersection,
    )?;
    put_text(
        alloc,
        &mut texts.left_intersection,
        &colors.left_intersection,
    )?;
    put_text(
        alloc,
        &mut texts.right_intersection,
        &colors.right_intersection,
    )?;
    put_text(alloc, &mut texts.horizontal, &colors.horizontal)?;
    put_text(alloc, &mut texts.vertical, &colors.vertical)?;
    put_text(alloc, &mut texts.intersection, &colors.intersection)
}

/// Puts a copy of the texts of a color, where it is given.
fn put_text(
    alloc: Global,
    text: &mut Option<ANSIBuf>,
    color: &Option<Color>,
) -> Result<(), OutOfMemory>
    ensures { OnOk result (text.new ≡ option_map texts_of color.now) }
{
    let copy = match color {
        Some(color) => Some(ANSIBuf::new(alloc, color.get_prefix(), color.get_suffix())?),
        None => None,
    };
    put(text, copy);
    Ok(())
}
