//! The lines of a table, row by row, and of the rooms of cells that span several columns or rows.

ghost use Rattle.std.specs.Prelude.{◌≡◌, ◌≤◌, ◌<◌, ◌+◌, ◌-◌, ◌++◌, ◌==◌, ◌&&◌, ℕ, [], true, false, None, IsTrue, OnOk, length, map, option_copied, slice_index_or};
ghost use Rattle.std.specs.List.{All, flat_map};
ghost use Rattle.std.specs.declared.option.Option.{Option as Maybe};
ghost use Rattle.tabled_object.specs.Entities.{below};
ghost use Rattle.tabled_width.specs.Texts.{Table};
ghost use Rattle.tabled_rooms.specs.Rooms.{first_line, room_height};
ghost use Rattle.tabled_painting.specs.InColor.{Paints};
ghost use Rattle.tabled_painting.specs.Pages.{PaintsLines};
ghost use Rattle.tabled_painting.specs.RoomLines.{AreSpans, KeepsRooms, KeepsSpans, ShowTheSame, StandAlone, room_shown};
ghost use Rattle.tabled_rooms.specs.declared.host.Host.{Host as Kept};
ghost use Rattle.tabled_cells.specs.TextsBy.{texts_by};
ghost use Rattle.tabled_painting.specs.Viewed.{viewed};

use crate::page::Page;
use crate::room::{Room, paint_room};
use crate::spans_of::SpansOf;
use crate::table_lines::TableLines;
use crate::{Output, Painter};
use std::convert::AsStr;
use tabled_kept::Probes;
use tabled_object::{Dimension, Position};
use tabled_rooms::{Host, next_hosts, room_widths};

/// The lines of a table that has places, which are painted one after another. Of its spans nothing is kept where no cell has some.
#[derive(Drop)]
pub(crate) struct SpannedLines<'a, 'b, 'c> {
    /// The lines of the table over which no cell reaches, and its rows of cells that stand alone.
    pub(crate) lines: &'c TableLines<'a, 'b>,
    /// Which line begins each row, counted from the first line of text, and last one past the last row.
    pub(crate) firsts: &'c [usize],
    /// Which vertical lines are drawn.
    pub(crate) sides: &'c [bool],
}

impl<'a, 'b, 'c> SpannedLines<'a, 'b, 'c> {
    ghost use Rattle.tabled_rooms.specs.Holding.{AreAbove, AreHosts};
    ghost use Rattle.tabled_painting.specs.declared.room.Room.{Room as Begun};
    ghost use Rattle.tabled_painting.specs.PaintedTable.{Cells, painted_cell};
    ghost use Rattle.tabled_painting.specs.PaintedSpans.{spanned_across, spanned_if_drawn, spanned_lines, spanned_row};
    ghost use Rattle.tabled_painting.specs.RoomLines.{AreOpen, AreRooms, columns_of, crossed_by, room_cells, rows_of};

    /// How high the room of a cell is.
    fn height_of(&self, host: Host) -> usize
        requires spans { AreSpans self.now.lines.now self.now.firsts.now self.now.sides.now }
        requires row { host.row < self.now.lines.now.frame.shape.0 }
        requires bottom { host.bottom ≤ self.now.lines.now.frame.shape.0 }
        ensures { let view = viewed self.now.lines.now.frame in result ≡ room_height view.heights view.horizontal host.row host.bottom }
    {
        let frame = &self.lines.frame;
        let sizes = frame.dims;
        let last = host.bottom.saturating_sub(1);
        let high = sizes.get_height(last);
        let (before, first) = (self.firsts[last], self.firsts[host.row]);
        before.saturating_add(high).saturating_sub(first)
    }

    /// The room of a cell that is shown from its own place on.
    fn room_of(&self, host: Host, wide: usize, text: &'a str) -> Room<'a>
        requires spans { AreSpans self.now.lines.now self.now.firsts.now self.now.sides.now }
        requires row { host.row < self.now.lines.now.frame.shape.0 }
        requires bottom { host.bottom ≤ self.now.lines.now.frame.shape.0 }
        ensures { let lines = self.now.lines.now in let view = viewed lines.frame in
            (line : ℕ) → room_shown (Maybe.Some result) line ≡ painted_cell lines.frame.cfg.now.settings.cells lines.colors.now wide (room_height view.heights view.horizontal host.row host.bottom)
            text.now host.row host.col (line - first_line view.heights view.horizontal host.row) }
    {
        let position = Position::new(host.row, host.col);
        let size = (wide, self.height_of(host));
        let first = self.firsts[host.row];
        let cell = self.lines.cell_of(position, size, text);
        Room { first, cell }
    }

    /// Begins the room of the cell of a row and a column, if it is shown there.
    fn begin_room(
        &self,
        rooms: &mut [Option<Room<'a>>],
        place: (usize, usize),
        host: Host,
        wide: usize,
        text: &'a str,
    )
        requires spans { AreSpans self.now.lines.now self.now.firsts.now self.now.sides.now }
        requires col { place.1 < length rooms.old }
        requires row { host.row < self.now.lines.now.frame.shape.0 }
        requires bottom { host.bottom ≤ self.now.lines.now.frame.shape.0 }
        ensures begun { ((host.row == place.0) && (host.col == place.1)) ≡ true → (none : Maybe Begun) (line : ℕ) → let lines = self.now.lines.now in let view = viewed lines.frame in
            room_shown (slice_index_or rooms.new place.1 none) line ≡ painted_cell lines.frame.cfg.now.settings.cells lines.colors.now wide (room_height view.heights view.horizontal host.row host.bottom)
            text.now host.row host.col (line - first_line view.heights view.horizontal host.row) }
        ensures others { (c : ℕ) (none : Maybe Begun) → ((host.row == place.0) && (host.col == place.1) && (c == place.1)) ≡ false → slice_index_or rooms.new c none ≡ slice_index_or rooms.old c none }
        ensures count { length rooms.new ≡ length rooms.old }
    {
        if begins_at(host, place) {
            rooms[place.1] = Some(self.room_of(host, wide, text));
        }
    }

    /// Begins the rooms of the cells of a row that are shown from there on. `wides` is for their widths, whatever it had.
    fn begin_rooms<T: AsStr>(
        &self,
        rooms: &mut [Option<Room<'a>>],
        wides: &mut [usize],
        hosts: &[Host],
        row: usize,
        texts: &'a [T],
    )
        requires spans { AreSpans self.now.lines.now self.now.firsts.now self.now.sides.now }
        requires row { row < self.now.lines.now.frame.shape.0 }
        requires rooms { length rooms.old ≡ self.now.lines.now.frame.shape.1 }
        requires wides { length wides.old ≡ self.now.lines.now.frame.shape.1 }
        requires hosts { length hosts.now ≡ self.now.lines.now.frame.shape.1 }
        requires texts { length texts.now ≡ self.now.lines.now.frame.shape.1 }
        requires are { AreHosts (columns_of self.now.lines.now) (rows_of self.now.lines.now) self.now.lines.now.frame.shape row hosts.now }
        ensures rooms { (table : Table) → slice_index_or table row [] ≡ map T.text texts.now → let lines = self.now.lines.now in
            AreOpen (viewed lines.frame) (columns_of lines) (rows_of lines) (room_cells lines table) row rooms.old → AreRooms (viewed lines.frame) (columns_of lines) (rows_of lines) (room_cells lines table) row rooms.new }
        ensures rooms_count { length rooms.new ≡ length rooms.old }
        ensures wides_count { length wides.new ≡ length wides.old }
    {
        let frame = &self.lines.frame;
        let sizes = frame.dims;
        let widths = sizes.widths.as_slice();
        room_widths(wides, hosts, widths, self.sides);
        for (col, text) in texts.iter().enumerate() {
            self.begin_room(rooms, (row, col), hosts[col], wides[col], text.as_str());
        }
    }

    /// Paints the line above a row at a column: its crossing and its edge, or the room that reaches over it.
    fn paint_crossed<O: Output + Drop + 'a>(
        &self,
        painter: &mut Painter<'a, O>,
        place: (usize, usize),
        host: Host,
        room: &mut Option<Room<'a>>,
        line: usize,
    ) -> Result<(), O::Error>
        requires row { place.0 ≤ self.now.lines.now.frame.shape.0 }
        requires col { place.1 < self.now.lines.now.frame.shape.1 }
        ensures painted { OnOk result (Paints O.gains (crossed_by (viewed self.now.lines.now.frame) place.0 line place.1 host room.old) painter.old painter.new) }
        ensures same { OnOk result ((at : ℕ) → room_shown room.new at ≡ room_shown room.old at) }
    {
        let (row, col) = place;
        let frame = &self.lines.frame;
        if host.row == row {
            frame.put_line_piece(row, col, painter, &mut Probes::new())?;
            return Ok(());
        }
        if host.col != col {
            return Ok(());
        }
        frame.put_line_crossing(row, col, painter, &mut Probes::new())?;
        paint_room(painter, room, line)?;
        Ok(())
    }

    /// Paints the line above a row, over which rooms reach.
    fn paint_across<O: Output + Drop + 'a>(
        &self,
        painter: &mut Painter<'a, O>,
        hosts: &[Host],
        rooms: &mut [Option<Room<'a>>],
        row: usize,
    ) -> Result<(), O::Error>
        requires spans { AreSpans self.now.lines.now self.now.firsts.now self.now.sides.now }
        requires row { row < self.now.lines.now.frame.shape.0 }
        requires hosts { length hosts.now ≡ self.now.lines.now.frame.shape.1 }
        requires rooms { length rooms.old ≡ self.now.lines.now.frame.shape.1 }
        requires are { AreHosts (columns_of self.now.lines.now) (rows_of self.now.lines.now) self.now.lines.now.frame.shape row hosts.now }
        ensures painted { OnOk result ((cells : Cells) → let lines = self.now.lines.now in AreOpen (viewed lines.frame) (columns_of lines) (rows_of lines) cells row rooms.old
            → Paints O.gains (spanned_across (viewed lines.frame) (columns_of lines) (rows_of lines) cells row) painter.old painter.new) }
        ensures same { OnOk result (ShowTheSame rooms.old rooms.new) }
    {
        let (_, cols) = self.lines.frame.shape;
        let first = self.firsts[row];
        let line = first.saturating_sub(1);
        for col in 0..cols {
            self.paint_crossed(painter, (row, col), hosts[col], &mut rooms[col], line)?;
        }
        let frame = &self.lines.frame;
        frame.put_line_crossing(row, cols, painter, &mut Probes::new())?;
        Ok(())
    }

    /// Paints the line above a row, if it is drawn.
    fn paint_line<O: Output + Drop + 'a>(
        &self,
        page: &mut Page<'a, O>,
        hosts: &[Host],
        rooms: &mut [Option<Room<'a>>],
        row: usize,
    ) -> Result<(), O::Error>
        requires row { row < self.now.lines.now.frame.shape.0 }
        requires keeps { KeepsSpans self.now.lines.now self.now.firsts.now self.now.sides.now (length hosts.now) }
        requires rooms { KeepsRooms self.now.lines.now (length hosts.now) (length rooms.old) }
        requires are { AreHosts (columns_of self.now.lines.now) (rows_of self.now.lines.now) self.now.lines.now.frame.shape row hosts.now }
        requires ended { option_copied page.old.painter.color ≡ None }
        requires colors { page.old.painter.with_colors ≡ self.now.lines.now.frame.with_colors }
        ensures painted { OnOk result ((cells : Cells) → let lines = self.now.lines.now in AreOpen (viewed lines.frame) (columns_of lines) (rows_of lines) cells row rooms.old
            → PaintsLines O.gains (spanned_if_drawn (viewed lines.frame) (columns_of lines) (rows_of lines) cells row) page.old page.new) }
        ensures same { OnOk result (ShowTheSame rooms.old rooms.new) }
    {
        if all_begin_in(hosts, row) {
            self.lines.paint_line(page, row)?;
            return Ok(());
        }
        if !self.lines.frame.draws(row) {
            return Ok(());
        }
        page.begin_line()?;
        self.paint_across(&mut page.painter, hosts, rooms, row)?;
        page.end_line()?;
        Ok(())
    }

    /// Paints the lines of text of a row, and begins the rooms of the cells that are shown from there on. Where each of its cells is shown
    /// in its own place alone, the row is painted as it is without spans. `wides` is for what is measured, whatever it had.
    fn paint_shown<O: Output + Drop + 'a, T: AsStr>(
        &self,
        page: &mut Page<'a, O>,
        hosts: &[Host],
        wides: &mut [usize],
        rooms: &mut [Option<Room<'a>>],
        row: usize,
        texts: &'a [T],
    ) -> Result<(), O::Error>
        requires row { row < self.now.lines.now.frame.shape.0 }
        requires texts { length texts.now ≡ self.now.lines.now.frame.shape.1 }
        requires keeps { KeepsSpans self.now.lines.now self.now.firsts.now self.now.sides.now (length hosts.now) }
        requires wides { length wides.old ≡ length hosts.now }
        requires rooms { KeepsRooms self.now.lines.now (length hosts.now) (length rooms.old) }
        requires are { AreHosts (columns_of self.now.lines.now) (rows_of self.now.lines.now) self.now.lines.now.frame.shape row hosts.now }
        requires ended { option_copied page.old.painter.color ≡ None }
        requires colors { page.old.painter.with_colors ≡ self.now.lines.now.frame.with_colors }
        ensures painted { OnOk result ((table : Table) → slice_index_or table row [] ≡ map T.text texts.now → let lines = self.now.lines.now in
            AreOpen (viewed lines.frame) (columns_of lines) (rows_of lines) (room_cells lines table) row rooms.old → PaintsLines O.gains (spanned_row (viewed lines.frame) (columns_of lines) (rows_of lines) (room_cells lines table) row) page.old page.new) }
        ensures opened { OnOk result ((table : Table) → slice_index_or table row [] ≡ map T.text texts.now → let lines = self.now.lines.now in
            AreOpen (viewed lines.frame) (columns_of lines) (rows_of lines) (room_cells lines table) row rooms.old → row + 1 < lines.frame.shape.0
            → AreOpen (viewed lines.frame) (columns_of lines) (rows_of lines) (room_cells lines table) (row + 1) rooms.new) }
        ensures rooms_count { OnOk result (length rooms.new ≡ length rooms.old) }
        ensures wides_count { OnOk result (length wides.new ≡ length wides.old) }
    {
        if all_stand_alone(hosts, row) {
            self.lines.paint_row(page, rooms, row, texts)?;
            return Ok(());
        }
        self.begin_rooms(rooms, wides, hosts, row, texts);
        self.lines
            .paint_rooms(page, row, self.firsts[row], hosts, rooms)?;
        Ok(())
    }

    /// Paints the rows of a table, each with the line above it. `hosts`, `wides` and `rooms` are for what is shown in a row: at first
    /// nothing.
    fn paint_rows<O: Output + Drop + 'a, T: AsStr>(
        &self,
        page: &mut Page<'a, O>,
        hosts: &mut [Host],
        wides: &mut [usize],
        rooms: &mut [Option<Room<'a>>],
        rows: &'a [Vec<T>],
    ) -> Result<(), O::Error>
        requires rows { length rows.now ≡ self.now.lines.now.frame.shape.0 }
        requires cols { All (λ row. length row ≡ self.now.lines.now.frame.shape.1) (texts_by T.text rows.now) }
        requires keeps { KeepsSpans self.now.lines.now self.now.firsts.now self.now.sides.now (length hosts.old) }
        requires wides { length wides.old ≡ length hosts.old }
        requires rooms { KeepsRooms self.now.lines.now (length hosts.old) (length rooms.old) }
        requires above { AreAbove (columns_of self.now.lines.now) (rows_of self.now.lines.now) self.now.lines.now.frame.shape 0 hosts.old }
        requires ended { option_copied page.old.painter.color ≡ None }
        requires colors { page.old.painter.with_colors ≡ self.now.lines.now.frame.with_colors }
        ensures painted { OnOk result (let lines = self.now.lines.now in let view = viewed lines.frame in
            PaintsLines O.gains (flat_map (λ r. spanned_if_drawn view (columns_of lines) (rows_of lines) (room_cells lines (texts_by T.text rows.now)) r ++ spanned_row view (columns_of lines) (rows_of lines) (room_cells lines (texts_by T.text rows.now)) r) (below view.shape.0))
            page.old page.new) }
        ensures colors { OnOk result (page.new.painter.with_colors ≡ self.now.lines.now.frame.with_colors) }
    {
        let frame = &self.lines.frame;
        let spans = SpansOf { cfg: frame.cfg };
        for (row, texts) in rows.iter().enumerate() {
            next_hosts(hosts, &spans, row, frame.shape);
            self.paint_line(page, hosts, rooms, row)?;
            self.paint_shown(page, hosts, wides, rooms, row, texts)?;
        }
        Ok(())
    }

    /// Paints the lines of a table. `hosts`, `wides` and `rooms` are for what is shown in a row: at first nothing.
    pub(crate) fn paint<O: Output + Drop + 'a, T: AsStr>(
        &self,
        page: &mut Page<'a, O>,
        hosts: &mut [Host],
        wides: &mut [usize],
        rooms: &mut [Option<Room<'a>>],
        rows: &'a [Vec<T>],
    ) -> Result<(), O::Error>
        requires rows { length rows.now ≡ self.now.lines.now.frame.shape.0 }
        requires cols { All (λ row. length row ≡ self.now.lines.now.frame.shape.1) (texts_by T.text rows.now) }
        requires keeps { KeepsSpans self.now.lines.now self.now.firsts.now self.now.sides.now (length hosts.old) }
        requires wides { length wides.old ≡ length hosts.old }
        requires rooms { KeepsRooms self.now.lines.now (length hosts.old) (length rooms.old) }
        requires above { AreAbove (columns_of self.now.lines.now) (rows_of self.now.lines.now) self.now.lines.now.frame.shape 0 hosts.old }
        requires ended { option_copied page.old.painter.color ≡ None }
        requires colors { page.old.painter.with_colors ≡ self.now.lines.now.frame.with_colors }
        ensures { OnOk result (let lines = self.now.lines.now in
            PaintsLines O.gains (spanned_lines (viewed lines.frame) (columns_of lines) (rows_of lines) (room_cells lines (texts_by T.text rows.now))) page.old page.new) }
    {
        self.paint_rows(page, hosts, wides, rooms, rows)?;
        self.lines.paint_line(page, rows.len())?;
        Ok(())
    }
}

/// Whether a cell that is shown has its own place at a row and a column.
fn begins_at(host: Host, place: (usize, usize)) -> bool
    ensures { result ≡ ((host.row == place.0) && (host.col == place.1)) }
{
    host.row == place.0 && host.col == place.1
}

/// Whether each of these cells begins in a row.
fn all_begin_in(hosts: &[Host], row: usize) -> bool
    ensures all { IsTrue result → (c : ℕ) (none : Kept) → c < length hosts.now → (slice_index_or hosts.now c none).row ≡ row }
    ensures some { result ≡ false → 0 < length hosts.now }
{
    hosts.iter().all(|host| host.row == row)
}

/// Whether a cell that is shown is that of a row and a column, and ends with the row.
fn stands_alone(host: Host, row: usize, col: usize) -> bool
    ensures { IsTrue result → (host.row ≡ row) × (host.col ≡ col) × (host.bottom ≡ row + 1) }
{
    host.row == row && host.col == col && host.bottom.saturating_sub(row) == 1
}

/// Whether each of the cells of a row is shown in its own place alone.
fn all_stand_alone(hosts: &[Host], row: usize) -> bool
    ensures all { IsTrue result → StandAlone row hosts.now }
    ensures some { result ≡ false → 0 < length hosts.now }
{
    for (col, host) in hosts.iter().enumerate() {
        if !stands_alone(*host, row, col) {
            return false;
        }
    }
    true
}
