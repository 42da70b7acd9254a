//! What a text writes where it takes places.

ghost use Rattle.std.specs.Prelude.{◌≡◌, [], ◌∷◌, IfOk, option_map, option_copied};
ghost use Rattle.tabled_places.specs.declared.event.Event.TheVariants.{Write as event};
ghost use Rattle.tabled_places.specs.declared.event.Written.TheVariants.{Sign as sign};
ghost use Rattle.tabled_places.specs.Writes.{site_of, writes_made};
ghost use Rattle.tabled_color.specs.Shade.{texts_of};
ghost use Rattle.tabled_options.specs.LineText.{written_site, characters_written, colors_written};
ghost use Rattle.tabled_options.specs.Laying.{looked};

use crate::table_line::TableLine;
use crate::written::write_of;
use std::alloc::Global;
use tabled_border::{ANSIBuf, OutOfMemory};
use tabled_color::Color;
use tabled_grid::{Offset, Place, Target, Write};
use tabled_object::{Dimension, Position};

/// Where a place takes what is written there: an edge at the place's number from the start, a crossing as a cell's.
fn target(place: Place) -> Target
    ensures { site_of result ≡ written_site place }
{
    match place {
        Place::Horizontal { row, col, at } => {
            Target::Horizontal(Position::new(row, col), Offset::Start(at))
        }
        Place::Vertical { row, col, at } => {
            Target::Vertical(Position::new(row, col), Offset::Start(at))
        }
        Place::Cross { .. } => Target::Cell(place),
    }
}

/// The write of a value where a place takes it.
fn write_at<T>(place: Place, value: T) -> Write<T>
    ensures { writes_made (result ∷ []) ≡ event (written_site place) (sign value) ∷ [] }
{
    write_of(target(place), value)
}

/// The writes of characters on the places that a text takes on a line. A crossing that shows none stays empty.
pub(crate) fn character_writes<D: Dimension>(
    alloc: Global,
    line: &TableLine<'_, D>,
    taken: &[(Place, char)],
) -> Result<Vec<Write<char>>, OutOfMemory>
    ensures { let view = looked D.width_of D.height_of line.now in
        IfOk result (λ writes. writes_made writes.items ≡ characters_written view.shown taken.now) }
{
    let mut writes = Vec::new(alloc);
    for (place, letter) in taken {
        if line.takes_character(*place) {
            writes.push(write_at(*place, *letter))?;
        }
    }
    Ok(writes)
}

/// The writes of a color on the places that a text takes.
pub(crate) fn color_writes(
    alloc: Global,
    color: Option<&Color>,
    taken: &[(Place, char)],
) -> Result<Vec<Write<ANSIBuf>>, OutOfMemory>
    ensures { IfOk result (λ writes. writes_made writes.items ≡ colors_written (option_map texts_of (option_copied color.entry)) taken.now) }
{
    let mut writes = Vec::new(alloc);
    let Some(color) = color else {
        return Ok(writes);
    };
    for (place, _) in taken {
        let copy = ANSIBuf::new(alloc, color.get_prefix(), color.get_suffix())?;
        writes.push(write_at(*place, copy))?;
    }
    Ok(writes)
}
