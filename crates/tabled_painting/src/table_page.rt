//! The text of a table with its colors and its margin.

ghost use Rattle.std.specs.Prelude.{◌≡◌, false, None, List, length, IfOk, OnOk, option_copied};
ghost use Rattle.std.specs.List.{All};
ghost use Rattle.tabled_painting.specs.Margin.{side_of, between_sides};
ghost use Rattle.tabled_painting.specs.Pages.{IsMarginOf, PaintsLines, Strips, counted_sides, text_of_lines};
ghost use Rattle.tabled_places.specs.declared.place.LineOf.{LineOf as Line};
ghost use Rattle.tabled_printing.specs.Along.{is_empty};
ghost use Rattle.tabled_printing.specs.Picture.{marks_along};
ghost use Rattle.tabled_width.specs.Texts.{Table};
ghost use Rattle.tabled_painting.specs.Painted.{Painted};
ghost use Rattle.tabled_painting.specs.PaintedSpans.{painted_by};
ghost use Rattle.tabled_painting.specs.RoomLines.{IsSpansOf, KeepsRooms};
ghost use Rattle.tabled_cells.specs.TextsBy.{texts_by};
ghost use Rattle.tabled_painting.specs.Viewed.{viewed};

use crate::page::Page;
use crate::room::Room;
use crate::spanned_lines::SpannedLines;
use crate::spans::Spans;
use crate::table_lines::TableLines;
use crate::{MarginSides, Output, Painter};
use std::convert::AsStr;
use tabled_border::OutOfMemory;
use tabled_changes::ColoredConfig;
use tabled_object::FixedDimension;
use tabled_printing::Frame;

/// How many lines a table has, where that matters: where nothing stands at its sides, any number does.
fn lines_high(frame: &Frame<FixedDimension>, margin: &MarginSides) -> Result<usize, OutOfMemory>
    ensures { IfOk result (λ high. (lines : List Painted) → length lines ≡ length (marks_along (viewed frame.now) (Line.Vertical 0))
        → counted_sides (side_of margin.now.left) (side_of margin.now.right) high 0 lines ≡ between_sides (side_of margin.now.left) (side_of margin.now.right) (length lines) 0 lines) }
{
    if margin.left.size == 0 && margin.right.size == 0 {
        return Ok(0);
    }
    let high = frame.count_lines()?;
    Ok(high)
}

/// How many columns a table is long with the sides of its margin, where that matters: where nothing stands above it and below it,
/// any number does. Refused where no number says it.
fn columns_long(frame: &Frame<FixedDimension>, margin: &MarginSides) -> Result<usize, OutOfMemory>
    ensures { IfOk result (λ long. Strips (viewed frame.now) margin.now long) }
{
    if margin.top.size == 0 && margin.bottom.size == 0 {
        return Ok(0);
    }
    let columns = frame.count_columns()?;
    let left = margin.left.size.checked_add(columns).ok_or(OutOfMemory)?;
    left.checked_add(margin.right.size).ok_or(OutOfMemory)
}

/// A place for what is shown in each column, if a row of the table asks for it.
fn rooms_for<'a>(
    lines: &TableLines<'a, '_>,
    spans: &Spans,
) -> Result<Vec<Option<Room<'a>>>, OutOfMemory>
    ensures { IfOk result (λ rooms. KeepsRooms lines.now (length spans.now.hosts.items) (length rooms.items)) }
{
    let alloc = lines.frame.cfg.allocator();
    if spans.hosts.is_empty() && lines.are_rows_low() {
        return Ok(Vec::new(alloc));
    }
    let (_, cols) = lines.frame.shape;
    let rooms = vec![in alloc; None; cols]?;
    Ok(rooms)
}

/// A table that has places, with all at hand that its lines ask for: it is printed without memory of its own.
#[derive(Drop)]
pub struct TablePage<'a, 'b> {
    pub(crate) lines: TableLines<'a, 'b>,
    /// Where rooms stand, if cells span several columns or rows.
    pub(crate) spans: Spans,
    pub(crate) margin: MarginSides<'a>,
    /// A place for what is shown in each column: none, where no cell spans and each row is one line high.
    pub(crate) rooms: Vec<Option<Room<'a>>>,
    /// How many lines the table has, where that matters.
    high: usize,
    /// How many columns it is long, where that matters.
    long: usize,
    ghost rooms_counted: { KeepsRooms lines (length spans.hosts.items) (length rooms.items) },
    ghost are_spans: { IsSpansOf lines spans },
    ghost is_margin: { IsMarginOf lines.frame.cfg.now.settings.margin margin },
    ghost highs: { (ls : List Painted) → length ls ≡ length (marks_along (viewed lines.frame) (Line.Vertical 0))
        → counted_sides (side_of margin.left) (side_of margin.right) high 0 ls ≡ between_sides (side_of margin.left) (side_of margin.right) (length ls) 0 ls },
    ghost longs: { Strips (viewed lines.frame) margin long },
}

impl<'a, 'b> TablePage<'a, 'b> {
    ghost use Rattle.tabled_painting.specs.TablePages.{lines_between, text_of_page};

    /// Makes the page of a table that has rows and columns, whose lines are painted in that order: in color, where the color changes along a
    /// line, the text that ends the last color is written and then the text that begins the next, and at the end of a line the text that ends
    /// its last color; where there is no color nothing is written. A cell that spans several columns or rows has the room of all of them.
    /// `sizes` are the widths of its columns and the heights of its rows, `shape` the numbers of its rows and of its columns. Only memory can
    /// be refused.
    pub fn new(
        cfg: &'a ColoredConfig,
        sizes: &'b FixedDimension,
        shape: (usize, usize),
        with_colors: bool,
    ) -> Result<Self, OutOfMemory>
        requires places { is_empty shape ≡ false }
        requires widths { length sizes.now.widths.items ≡ shape.1 }
        requires heights { length sizes.now.heights.items ≡ shape.0 }
        ensures text { IfOk result (λ page. (table : Table) → text_of_page page table ≡ text_of_lines with_colors (painted_by cfg.now shape sizes.now.widths.items sizes.now.heights.items table)) }
        ensures shape { IfOk result (λ page. page.lines.frame.shape ≡ shape) }
    {
        let lines = TableLines::new(cfg, sizes, shape, with_colors)?;
        let spans = Spans::new(&lines)?;
        let margin = MarginSides::of(lines.frame.cfg);
        let high = lines_high(&lines.frame, &margin)?;
        let long = columns_long(&lines.frame, &margin)?;
        let rooms = rooms_for(&lines, &spans)?;
        Ok(TablePage {
            lines,
            spans,
            margin,
            rooms,
            high,
            long,
        })
    }

    /// Returns how many bytes its text takes at least, or nearly so. It saturates.
    pub fn least_bytes(&self) -> usize {
        let margin = &self.margin;
        let sides = margin.left.size.saturating_add(margin.right.size);
        let strips = margin.top.size.saturating_add(margin.bottom.size);
        let beside = self.high.saturating_mul(sides);
        let around = self.long.saturating_mul(strips);
        self.lines
            .least_bytes()
            .saturating_add(beside)
            .saturating_add(around)
    }

    /// Writes the text of the table of these texts, whose lines are joined by single line feeds. Refused only by what it is written into.
    pub fn print<O: Output + Drop + 'a, T: AsStr>(
        self,
        out: O,
        rows: &'a [Vec<T>],
    ) -> Result<O, O::Error>
        requires rows { length rows.now ≡ self.lines.frame.shape.0 }
        requires cols { All (λ row. length row ≡ self.lines.frame.shape.1) (texts_by T.text rows.now) }
        ensures { IfOk result (λ new. O.gains (text_of_page self.entry (texts_by T.text rows.now)) out new) }
    {
        let margin = self.margin;
        let long = self.long;
        let mut painter = Painter::new(out, self.lines.frame.with_colors);
        margin.top.paint_strips(&mut painter, long)?;
        let mut page = Page {
            painter,
            left: margin.left,
            right: margin.right,
            high: self.high,
            number: 0,
        };
        self.paint(&mut page, rows)?;
        let Page { mut painter, .. } = page;
        margin.bottom.paint_strips(&mut painter, long)?;
        let Painter { out, .. } = painter;
        Ok(out)
    }

    /// Paints the lines between the upper and the lower side of the margin.
    fn paint<O: Output + Drop + 'a, T: AsStr>(
        self,
        page: &mut Page<'a, O>,
        rows: &'a [Vec<T>],
    ) -> Result<(), O::Error>
        requires rows { length rows.now ≡ self.lines.frame.shape.0 }
        requires cols { All (λ row. length row ≡ self.lines.frame.shape.1) (texts_by T.text rows.now) }
        requires ended { option_copied page.old.painter.color ≡ None }
        requires colors { page.old.painter.with_colors ≡ self.lines.frame.with_colors }
        ensures { OnOk result (PaintsLines O.gains (lines_between self.entry.lines (texts_by T.text rows.now)) page.old page.new) }
    {
        let TablePage {
            lines,
            spans,
            margin: _,
            mut rooms,
            high: _,
            long: _,
        } = self;
        let Spans {
            firsts,
            sides,
            mut hosts,
            mut wides,
        } = spans;
        let spanned = SpannedLines {
            lines: &lines,
            firsts: &firsts,
            sides: &sides,
        };
        spanned.paint(page, &mut hosts, &mut wides, &mut rooms, rows)
    }
}
