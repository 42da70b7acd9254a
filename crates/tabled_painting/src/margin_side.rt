//! One side of the margin.

ghost use Rattle.std.specs.Prelude.{◌≡◌, None, OnOk, option_copied, replicate};
ghost use Rattle.tabled_painting.specs.Margin.{side_of, side_at, strip};
ghost use Rattle.tabled_painting.specs.Margin as margin;
ghost use Rattle.tabled_painting.specs.InColor.{Paints};
ghost use Rattle.tabled_painting.specs.Pages.{PaintsWhole};

use crate::{Output, Painter};
use tabled_border::ANSIBuf;
use tabled_cells::fill_shown;
use tabled_grid::Offset;
use tabled_settings::Indent;

/// One side of a margin.
#[derive(Clone, Copy, Debug)]
pub(crate) struct MarginSide<'a> {
    /// How many columns or lines it is wide.
    pub(crate) size: usize,
    /// The character that is shown in it.
    pub(crate) fill: char,
    /// Where it begins or ends: spaces stand in the places that this leaves out.
    pub(crate) offset: Offset,
    /// The color of this side of the margin, if it has one.
    pub(crate) color: Option<&'a ANSIBuf>,
}

/// Whether an offset leaves number `n` of an extent out.
fn is_left_out(offset: Offset, extent: usize, n: usize) -> bool
    ensures { result ≡ margin.is_left_out offset extent n }
{
    match offset {
        Offset::Start(count) => n < count,
        Offset::End(count) => extent.saturating_sub(count) <= n,
    }
}

impl<'a> MarginSide<'a> {
    /// A side of that room, offset and color.
    pub(crate) fn new(indent: Indent, offset: Offset, color: &'a Option<ANSIBuf>) -> Self
        ensures { side_of result ≡ record { size = indent.size; fill = margin.fill_shown indent.fill; offset = offset; color = color.now } }
    {
        let Indent { size, fill } = indent;
        MarginSide {
            size,
            fill: fill_shown(fill),
            offset,
            color: color.as_ref(),
        }
    }

    /// Paints the given number of characters of the side at number `n` of its extent.
    #[tactic(auto, unfolding(crate::specs::Margin::side_at))]
    pub(crate) fn paint_at<O: Output>(
        &self,
        painter: &mut Painter<'a, O>,
        extent: usize,
        n: usize,
        count: usize,
    ) -> Result<(), O::Error>
        ensures { OnOk result (Paints O.gains (side_at (side_of self.now) extent n count) painter.old painter.new) }
    {
        if is_left_out(self.offset, extent, n) {
            painter.push_times(None, count, ' ')
        } else {
            painter.push_times(self.color, count, self.fill)
        }
    }

    /// Paints a line above or below the table, of the given number of columns.
    fn paint_strip<O: Output>(
        &self,
        painter: &mut Painter<'a, O>,
        long: usize,
    ) -> Result<(), O::Error>
        ensures { OnOk result (Paints O.gains (strip (side_of self.now) long) painter.old painter.new) }
    {
        for n in 0..long {
            self.paint_at(painter, long, n, 1)?;
        }
        Ok(())
    }

    /// Paints the lines above or below the table, each of the given number of columns.
    pub(crate) fn paint_strips<O: Output>(
        &self,
        painter: &mut Painter<'a, O>,
        long: usize,
    ) -> Result<(), O::Error>
        requires { option_copied painter.old.color ≡ None }
        ensures { OnOk result (PaintsWhole O.gains (replicate self.now.size (strip (side_of self.now) long)) painter.old painter.new) }
    {
        for _ in 0..self.size {
            painter.begin_line()?;
            self.paint_strip(painter, long)?;
            painter.end_last()?;
        }
        Ok(())
    }
}
