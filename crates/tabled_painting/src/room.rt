//! A cell that is shown in its room.

ghost use Rattle.std.specs.Prelude.{◌≡◌, ℕ, OnOk};
ghost use Rattle.tabled_painting.specs.InColor.{Paints};
ghost use Rattle.tabled_painting.specs.RoomLines.{begins, room_shown};

use crate::cell_lines::CellLines;
use crate::{Output, Painter};
use tabled_rooms::Host;

/// A cell that is shown over the columns and rows of its room.
#[derive(Clone, Copy, Debug)]
pub(crate) struct Room<'a> {
    /// The line of the table at which it begins, counted from the first line of text.
    pub(crate) first: usize,
    pub(crate) cell: CellLines<'a>,
}

/// Paints what a room shows in a line of the table, if there is a room.
pub(crate) fn paint_room<'a, O: Output>(
    painter: &mut Painter<'a, O>,
    room: &mut Option<Room<'a>>,
    line: usize,
) -> Result<(), O::Error>
    ensures painted { OnOk result (Paints O.gains (room_shown room.old line) painter.old painter.new) }
    ensures same { (at : ℕ) → room_shown room.new at ≡ room_shown room.old at }
{
    let Some(shown) = *room else {
        return Ok(());
    };
    let Room { first, mut cell } = shown;
    cell.paint_line(painter, line.saturating_sub(first))?;
    *room = Some(Room { first, cell });
    Ok(())
}

/// Whether a room begins in a column of a row, by its hosts, where some are kept.
pub(crate) fn begins_in(hosts: &[Host], col: usize) -> bool
    ensures { result ≡ begins hosts.now col }
{
    match hosts.get(col) {
        Some(host) => host.col == col,
        None => true,
    }
}
