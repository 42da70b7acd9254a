//! The lines of a table: its horizontal lines, and its rows, cell by cell.

ghost use Rattle.std.specs.Prelude.{◌≡◌, ◌++◌, ◌<◌, ◌≤◌, ℕ, [], true, false, None, OnOk, IfOk, IfSome, IsTrue, length, map, option_copied, option_map, string_bytes, slice_index, slice_index_or};
ghost use Rattle.std.specs.Option.{ForSome};
ghost use Rattle.tabled_printing.specs.Along.{is_empty};
ghost use Rattle.tabled_printing.specs.Marks.{mark_of};
ghost use Rattle.tabled_printing.specs.Picture.{marks_along};
ghost use Rattle.tabled_places.specs.declared.place.LineOf.{LineOf as Line};
ghost use Rattle.tabled_painting.specs.InColor.{Paints};
ghost use Rattle.tabled_painting.specs.Pages.{PaintsLines, line_text};
ghost use Rattle.tabled_painting.specs.PaintedTable.{painted_marks, side_painted};
ghost use Rattle.tabled_painting.specs.Viewed as looks;
ghost use Rattle.tabled_painting.specs.Between.{IsBetweenRows};

use crate::alike::{first_plain_line, is_plain_line};
use crate::bare_cells::is_bare;
use crate::cell_lines::CellLines;
use crate::page::Page;
use crate::room::{Room, begins_in, paint_room};
use crate::{CellColors, Output, Painter};
use std::alloc::Global;
use std::convert::AsStr;
use tabled_border::{ANSIBuf, OutOfMemory};
use tabled_cells::Placement;
use tabled_changes::{ColorMap, ColoredConfig};
use tabled_kept::Probes;
use tabled_object::{Dimension, FixedDimension, Position};
use tabled_printing::{Frame, Mark};
use tabled_rooms::Host;
use tabled_width::is_printable;

/// How many bytes a character takes of those that lines are mostly drawn with.
const MOST_BYTES: usize = 3;

/// From how many rows on it pays to keep what stands between them.
const MANY_ROWS: usize = 3;

/// The lines of a table that has places, which are painted one after another.
#[derive(Drop)]
pub(crate) struct TableLines<'a, 'b> {
    pub(crate) frame: Frame<'a, 'b, FixedDimension>,
    /// The colors of cells.
    pub(crate) colors: &'a ColorMap,
    /// A horizontal line between two rows as it is written, where all of them look alike but those for which something is kept.
    between: Option<String>,
    ghost is_between: { ForSome between (λ text. IsBetweenRows frame (string_bytes text)) },
}

impl<'a, 'b> TableLines<'a, 'b> {
    ghost use Rattle.tabled_painting.specs.BareCells.{IsBareIn};
    ghost use Rattle.tabled_painting.specs.PaintedTable.{painted_between, painted_cell, painted_if_drawn};
    ghost use Rattle.tabled_places.specs.declared.site.Direction.TheVariants.{Vertical};
    ghost use Rattle.tabled_printing.specs.Alike.{NoOffsetsAt};
    ghost use Rattle.tabled_painting.specs.RoomLines.{AreRowCells, ShowTheSame, begun_piece, room_shown, rooms_between, rooms_row};
    ghost use Rattle.tabled_painting.specs.Rows.{line_of, row_cell, row_painted};
    ghost use Rattle.tabled_painting.specs.Viewed.{viewed};
    ghost use Rattle.tabled_painting.specs.declared.room.Room.{Room as Begun};
    ghost use Rattle.std.specs.declared.option.Option.{Option as Maybe};

    /// The lines of a table that has rows and columns. What repeats down the table is looked up here.
    pub(crate) fn new(
        cfg: &'a ColoredConfig,
        sizes: &'b FixedDimension,
        shape: (usize, usize),
        with_colors: bool,
    ) -> Result<Self, OutOfMemory>
        requires { is_empty shape ≡ false }
        ensures cfg { IfOk result (λ lines. lines.frame.cfg.now ≡ cfg.now.spanned) }
        ensures colors { IfOk result (λ lines. lines.colors.now ≡ cfg.now.cell_colors) }
        ensures sizes { IfOk result (λ lines. lines.frame.dims ≡ sizes.entry) }
        ensures shape { IfOk result (λ lines. lines.frame.shape ≡ shape) }
        ensures with_colors { IfOk result (λ lines. lines.frame.with_colors ≡ with_colors) }
    {
        let (config, colors) = (cfg.config(), cfg.get_colors());
        let frame = Frame::new(config, sizes, shape, with_colors)?;
        let between = line_between(config.allocator(), &frame)?;
        Ok(TableLines {
            frame,
            colors,
            between,
        })
    }

    /// A line between two rows as it was written before, if nothing is kept for it.
    fn whole_line(&self, row: usize) -> Option<&str>
        ensures { IfSome result (λ text. (0 < row) × (row < self.now.frame.shape.0) × (text.now ≡ line_text self.now.frame.with_colors (painted_marks (marks_along (viewed self.now.frame) (Line.Horizontal row))))) }
    {
        let line = self.between.as_ref()?;
        let is_between = 0 < row && row < self.frame.shape.0;
        if !is_between || !is_plain_line(&self.frame, row) {
            return None;
        }
        Some(line.as_str())
    }

    /// Paints a horizontal line, which is not past the last one, if the line is drawn.
    pub(crate) fn paint_line<O: Output + Drop + 'a>(
        &self,
        page: &mut Page<'a, O>,
        row: usize,
    ) -> Result<(), O::Error>
        requires within { row ≤ self.now.frame.shape.0 }
        requires ended { option_copied page.old.painter.color ≡ None }
        requires colors { page.old.painter.with_colors ≡ self.now.frame.with_colors }
        ensures { OnOk result (PaintsLines O.gains (painted_if_drawn (viewed self.now.frame) row) page.old page.new) }
    {
        if !self.frame.draws(row) {
            return Ok(());
        }
        if !page.has_sides()
            && let Some(line) = self.whole_line(row)
        {
            return page.push_line(line);
        }
        page.begin_line()?;
        self.frame
            .put_line(row, &mut page.painter, &mut Probes::new())?;
        page.end_line()?;
        Ok(())
    }

    /// A cell with the lines of a text, by what is set for its place and by the colors there, in a room of that width and height.
    pub(crate) fn cell_of(
        &self,
        position: Position,
        size: (usize, usize),
        text: &'a str,
    ) -> CellLines<'a>
        ensures { (at : ℕ) → line_of at result ≡ painted_cell self.now.frame.cfg.now.settings.cells self.now.colors.now size.0 size.1 text.now position.row position.col at }
    {
        let how = Placement::of(self.frame.cfg, position);
        let colors = CellColors::of(self.frame.cfg, self.colors, position);
        CellLines::of(how, colors, size, text)
    }

    /// A cell with the lines of a text in its own column and row.
    fn own_cell(&self, position: Position, text: &'a str) -> CellLines<'a>
        ensures { (at : ℕ) → line_of at result ≡ row_cell self.now position.row position.col text.now at }
    {
        let sizes = self.frame.dims;
        let size = (
            sizes.get_width(position.col),
            sizes.get_height(position.row),
        );
        self.cell_of(position, size, text)
    }

    /// The color of a bare cell and of the spaces beside its text, if all of these have the same: none where they have no color, or none is
    /// wanted. It may be known of the row: then no more is asked, for which this is in line.
    #[inline(always)]
    fn cell_color(
        &self,
        of_row: Option<Option<&'a ANSIBuf>>,
        cell: Position,
    ) -> Option<Option<&'a ANSIBuf>>
        requires { IfSome of_row (λ color. IsBareIn self.now.frame.with_colors self.now.frame.cfg.now.settings.cells self.now.colors.now cell.row cell.col (option_copied color)) }
        ensures { IfSome result (λ color. IsBareIn self.now.frame.with_colors self.now.frame.cfg.now.settings.cells self.now.colors.now cell.row cell.col (option_copied color)) }
    {
        if of_row.is_some() || !is_bare(self.frame.cfg, cell) {
            return of_row;
        }
        if !self.frame.with_colors {
            return Some(None);
        }
        CellColors::of(self.frame.cfg, self.colors, cell).one_color()
    }

    /// The color of all cells of a row, if there are several, which are known to be set alike.
    fn row_color(&self, row: usize) -> Option<Option<&'a ANSIBuf>>
        ensures { IfSome result (λ color. (c : ℕ) → IsBareIn self.now.frame.with_colors self.now.frame.cfg.now.settings.cells self.now.colors.now row c (option_copied color)) }
    {
        let (_, cols) = self.frame.shape;
        if cols > 1 && self.frame.cfg.is_row_alike(row) && self.colors.is_row_alike(row) {
            return self.cell_color(None, Position::new(row, 0));
        }
        None
    }

    /// Paints a cell of a row of one line, and then a side, if there is one. It may be known of the row that its cells are bare, in one
    /// color.
    fn paint_cell<O: Output>(
        &self,
        painter: &mut Painter<'a, O>,
        position: Position,
        text: &'a str,
        of_row: Option<Option<&'a ANSIBuf>>,
        side: Option<Mark<'a>>,
    ) -> Result<(), O::Error>
        requires colors { painter.old.with_colors ≡ self.now.frame.with_colors }
        requires low { slice_index self.now.frame.dims.now.heights.items position.row ≡ 1 }
        requires bare { IfSome of_row (λ color. IsBareIn self.now.frame.with_colors self.now.frame.cfg.now.settings.cells self.now.colors.now position.row position.col (option_copied color)) }
        ensures { OnOk result (Paints O.gains (row_cell self.now position.row position.col text.now 0 ++ side_painted (option_map mark_of side.entry)) painter.old painter.new) }
    {
        if is_printable(text)
            && let Some(color) = self.cell_color(of_row, position)
        {
            let alignment = self.frame.cfg.get_alignment_horizontal(position);
            let width = self.frame.dims.get_width(position.col);
            return painter.push_bare(color, alignment, width, text, side);
        }
        let mut cell = self.own_cell(position, text);
        cell.paint_line(painter, 0)?;
        painter.push_side(side)
    }

    /// Paints the line of text of a row that has one, cell by cell.
    fn paint_low<O: Output, T: AsStr>(
        &self,
        painter: &mut Painter<'a, O>,
        row: usize,
        texts: &'a [T],
    ) -> Result<(), O::Error>
        requires row { row < self.now.frame.shape.0 }
        requires low { slice_index self.now.frame.dims.now.heights.items row ≡ 1 }
        requires texts { length texts.now ≡ self.now.frame.shape.1 }
        requires colors { painter.old.with_colors ≡ self.now.frame.with_colors }
        ensures { OnOk result (Paints O.gains (painted_between (viewed self.now.frame) row 0 (λ c. row_cell self.now row c (slice_index_or (map T.text texts.now) c []) 0)) painter.old painter.new) }
    {
        let of_row = self.row_color(row);
        let has_offsets = self.frame.has_offsets_beside(row);
        painter.push_side(self.frame.side(row, 0, 0, has_offsets))?;
        for (col, text) in texts.iter().enumerate() {
            let side = self.frame.side(row, col + 1, 0, has_offsets);
            let position = Position::new(row, col);
            self.paint_cell(painter, position, text.as_str(), of_row, side)?;
        }
        Ok(())
    }

    /// Begins the cells of a row, each in its own room.
    fn begin_cells<T: AsStr>(&self, rooms: &mut [Option<Room<'a>>], row: usize, texts: &'a [T])
        requires { length rooms.old ≡ length texts.now }
        ensures cells { AreRowCells self.now row (map T.text texts.now) rooms.new }
        ensures count { length rooms.new ≡ length rooms.old }
    {
        for (col, text) in texts.iter().enumerate() {
            let cell = self.own_cell(Position::new(row, col), text.as_str());
            rooms[col] = Some(Room { first: 0, cell });
        }
    }

    /// Paints one line of text of a row at a column, if a room begins there: the side before it and the room.
    fn paint_begun<O: Output>(
        &self,
        painter: &mut Painter<'a, O>,
        place: (usize, usize, usize),
        begins: bool,
        room: &mut Option<Room<'a>>,
        line: usize,
        has_offsets: bool,
    ) -> Result<(), O::Error>
        requires row { place.0 < self.now.frame.shape.0 }
        requires at { place.1 < slice_index self.now.frame.dims.now.heights.items place.0 }
        requires col { place.2 ≤ self.now.frame.shape.1 }
        requires offsets { has_offsets ≡ false → NoOffsetsAt self.now.frame.cfg.now self.now.frame.with_colors Vertical place.0 }
        ensures painted { OnOk result (Paints O.gains (begun_piece (viewed self.now.frame) place.0 place.1 line place.2 begins room.old) painter.old painter.new) }
        ensures same { OnOk result ((at : ℕ) → room_shown room.new at ≡ room_shown room.old at) }
    {
        if !begins {
            return Ok(());
        }
        let (row, at, col) = place;
        painter.push_side(self.frame.side(row, col, at, has_offsets))?;
        paint_room(painter, room, line)?;
        Ok(())
    }

    /// Paints a line of text of a row, which is that line of the table, by its hosts, where some are kept, and its rooms.
    fn paint_between<O: Output>(
        &self,
        painter: &mut Painter<'a, O>,
        place: (usize, usize),
        line: usize,
        hosts: &[Host],
        rooms: &mut [Option<Room<'a>>],
    ) -> Result<(), O::Error>
        requires row { place.0 < self.now.frame.shape.0 }
        requires at { place.1 < slice_index self.now.frame.dims.now.heights.items place.0 }
        requires rooms { length rooms.old ≡ self.now.frame.shape.1 }
        ensures painted { OnOk result ((none : Maybe Begun) → Paints O.gains (rooms_between (viewed self.now.frame) place.0 place.1 line hosts.now rooms.old none) painter.old painter.new) }
        ensures same { OnOk result (ShowTheSame rooms.old rooms.new) }
    {
        let (row, at) = place;
        let (_, cols) = self.frame.shape;
        let has_offsets = self.frame.has_offsets_beside(row);
        for col in 0..cols {
            let begins = begins_in(hosts, col);
            self.paint_begun(
                painter,
                (row, at, col),
                begins,
                &mut rooms[col],
                line,
                has_offsets,
            )?;
        }
        painter.push_side(self.frame.side(row, cols, at, has_offsets))?;
        Ok(())
    }

    /// Paints the lines of text of a row, of which the first one is that line of the table, by its hosts, where some are kept, and its rooms.
    pub(crate) fn paint_rooms<O: Output + Drop + 'a>(
        &self,
        page: &mut Page<'a, O>,
        row: usize,
        first: usize,
        hosts: &[Host],
        rooms: &mut [Option<Room<'a>>],
    ) -> Result<(), O::Error>
        requires row { row < self.now.frame.shape.0 }
        requires rooms { length rooms.old ≡ self.now.frame.shape.1 }
        requires ended { option_copied page.old.painter.color ≡ None }
        ensures painted { OnOk result ((none : Maybe Begun) → PaintsLines O.gains (rooms_row (viewed self.now.frame) row first hosts.now rooms.old none) page.old page.new) }
        ensures same { OnOk result (ShowTheSame rooms.old rooms.new) }
    {
        let height = self.frame.dims.get_height(row);
        for at in 0..height {
            let line = first.saturating_add(at);
            page.begin_line()?;
            self.paint_between(&mut page.painter, (row, at), line, hosts, rooms)?;
            page.end_line()?;
        }
        Ok(())
    }

    /// Paints the lines of text of a row whose cells stand alone. `rooms` is for its cells, whatever it had; where the row is one line
    /// high none need be there.
    pub(crate) fn paint_row<O: Output + Drop + 'a, T: AsStr>(
        &self,
        page: &mut Page<'a, O>,
        rooms: &mut [Option<Room<'a>>],
        row: usize,
        texts: &'a [T],
    ) -> Result<(), O::Error>
        requires row { row < self.now.frame.shape.0 }
        requires texts { length texts.now ≡ self.now.frame.shape.1 }
        requires rooms { 0 < length rooms.old → length rooms.old ≡ self.now.frame.shape.1 }
        requires low { length rooms.old ≡ 0 → slice_index self.now.frame.dims.now.heights.items row ≡ 1 }
        requires ended { option_copied page.old.painter.color ≡ None }
        requires colors { page.old.painter.with_colors ≡ self.now.frame.with_colors }
        ensures painted { OnOk result (PaintsLines O.gains (row_painted self.now row (map T.text texts.now)) page.old page.new) }
        ensures count { OnOk result (length rooms.new ≡ length rooms.old) }
    {
        let height = self.frame.dims.get_height(row);
        if height == 1 {
            page.begin_line()?;
            self.paint_low(&mut page.painter, row, texts)?;
            page.end_line()?;
            return Ok(());
        }
        self.begin_cells(rooms, row, texts);
        self.paint_rooms(page, row, 0, &[], rooms)?;
        Ok(())
    }

    /// Whether each row is one line high.
    pub(crate) fn are_rows_low(&self) -> bool
        ensures { IsTrue result → (r : ℕ) → r < self.now.frame.shape.0 → slice_index self.now.frame.dims.now.heights.items r ≡ 1 }
    {
        let (rows, _) = self.frame.shape;
        for row in 0..rows {
            if self.frame.dims.get_height(row) != 1 {
                return false;
            }
        }
        true
    }

    /// How many bytes the lines of a table take at least, or nearly so: each column of a line is one or more. It saturates.
    pub(crate) fn least_bytes(&self) -> usize {
        let (rows, _) = self.frame.shape;
        let mut high = 0usize;
        for row in 0..rows {
            high = high.saturating_add(self.frame.dims.get_height(row));
        }
        let line = columns_of(&self.frame)
            .saturating_add(self.frame.side_bytes())
            .saturating_add(1);
        let between = match &self.between {
            Some(line) => line.len(),
            None => 0,
        };
        let between = between.saturating_mul(rows.saturating_add(1));
        line.saturating_mul(high).saturating_add(between)
    }
}

/// How many columns of a terminal the columns of a table take. It saturates.
fn columns_of(frame: &Frame<FixedDimension>) -> usize {
    let widths = frame.dims.widths.as_slice();
    widths
        .iter()
        .fold(0usize, |sum, width| sum.saturating_add(*width))
}

/// A horizontal line between two rows as it is written, where all of them but custom ones look alike, and one is drawn.
fn line_between(alloc: Global, frame: &Frame<FixedDimension>) -> Result<Option<String>, OutOfMemory>
    ensures { IfOk result (λ found. ForSome found (λ text. IsBetweenRows frame.now (string_bytes text))) }
{
    let (rows, _) = frame.shape;
    if rows < MANY_ROWS {
        return Ok(None);
    }
    match first_plain_line(frame) {
        Some(row) if frame.draws(row) => Ok(Some(line_written(alloc, frame, row)?)),
        _ => Ok(None),
    }
}

/// A horizontal line as it is written.
fn line_written(
    alloc: Global,
    frame: &Frame<FixedDimension>,
    row: usize,
) -> Result<String, OutOfMemory>
    requires { row ≤ frame.now.shape.0 }
    ensures { IfOk result (λ text. string_bytes text ≡ line_text frame.now.with_colors (painted_marks (marks_along (looks.viewed frame.now) (Line.Horizontal row)))) }
{
    let room = columns_of(frame).saturating_mul(MOST_BYTES);
    let text = String::with_capacity(alloc, room.saturating_add(frame.side_bytes()))?;
    let mut painter = Painter::new(text, frame.with_colors);
    frame.put_line(row, &mut painter, &mut Probes::new())?;
    painter.end_last()?;
    let Painter { out, .. } = painter;
    Ok(out)
}
