//! What is asked for beforehand of a table whose cells span several columns or rows.

ghost use Rattle.std.specs.Prelude.{◌≡◌, ◌+◌, ◌≤◌, false, IfOk, OnOk, length, slice_index, slice_index_or};
ghost use Rattle.std.specs.List.{range_with_len, sum_by};
ghost use Rattle.tabled_rooms.specs.Rooms.{one_if};
ghost use Rattle.tabled_painting.specs.Pages.{most};
ghost use Rattle.tabled_painting.specs.RoomLines.{IsSpansOf};

use crate::drawn::lines_drawn;
use crate::table_lines::TableLines;
use tabled_border::OutOfMemory;
use tabled_grid::Direction;
use tabled_rooms::{Host, first_lines, no_hosts};

/// Where rooms stand in a table, and a place for what is shown in a row of it: nothing, where no cell spans.
#[derive(Drop)]
pub(crate) struct Spans {
    /// Which line begins each row, counted from the first line of text, and last one past the last row.
    pub(crate) firsts: Vec<usize>,
    /// Which vertical lines are drawn.
    pub(crate) sides: Vec<bool>,
    /// The cell that is shown in each column: at first none.
    pub(crate) hosts: Vec<Host>,
    /// How wide the room is that begins in each column.
    pub(crate) wides: Vec<usize>,
}

impl Spans {
    /// The spans of a table of which each column has a width and each row a height. Refused where cells span and no number says how wide or
    /// how high it is.
    pub(crate) fn new(lines: &TableLines) -> Result<Self, OutOfMemory>
        requires widths { length lines.now.frame.dims.now.widths.items ≡ lines.now.frame.shape.1 }
        requires heights { length lines.now.frame.dims.now.heights.items ≡ lines.now.frame.shape.0 }
        ensures { IfOk result (IsSpansOf lines.now) }
    {
        if lines.frame.cfg.has_spans() {
            return Spans::of_rooms(lines);
        }
        let alloc = lines.frame.cfg.allocator();
        Ok(Spans {
            firsts: Vec::new(alloc),
            sides: Vec::new(alloc),
            hosts: Vec::new(alloc),
            wides: Vec::new(alloc),
        })
    }

    /// The spans of a table where cells span.
    fn of_rooms(lines: &TableLines) -> Result<Self, OutOfMemory>
        requires widths { length lines.now.frame.dims.now.widths.items ≡ lines.now.frame.shape.1 }
        requires heights { length lines.now.frame.dims.now.heights.items ≡ lines.now.frame.shape.0 }
        ensures { IfOk result (IsSpansOf lines.now) }
    {
        let frame = &lines.frame;
        let alloc = frame.cfg.allocator();
        let (rows, cols) = frame.shape;
        let drawn = lines_drawn(frame.cfg, Direction::Horizontal, rows)?;
        let firsts = first_lines(alloc, frame.dims.heights.as_slice(), &drawn)?;
        let sides = lines_drawn(frame.cfg, Direction::Vertical, cols)?;
        check_width(frame.dims.widths.as_slice(), &sides)?;
        let hosts = no_hosts(alloc, cols)?;
        let wides = vec![in alloc; 0usize; cols]?;
        Ok(Spans {
            firsts,
            sides,
            hosts,
            wides,
        })
    }
}

/// The sum of two numbers. Refused where no number says it.
fn sum_of(first: usize, second: usize) -> Result<usize, OutOfMemory>
    ensures { IfOk result (λ sum. sum ≡ first + second) }
{
    first.checked_add(second).ok_or(OutOfMemory)
}

/// Refuses a table of which no number says how wide it is.
fn check_width(widths: &[usize], sides: &[bool]) -> Result<(), OutOfMemory>
    requires { length widths.now ≤ length sides.now }
    ensures { OnOk result (sum_by (λ c. one_if (slice_index_or sides.now c false) + slice_index widths.now c) (range_with_len 0 (length widths.now)) ≤ most) }
{
    let mut total = 0usize;
    for col in 0..widths.len() {
        let line = usize::from(sides[col]);
        let wide = sum_of(line, widths[col])?;
        total = sum_of(total, wide)?;
    }
    Ok(())
}
