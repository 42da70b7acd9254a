//! The lines of a cell, as they are painted.

ghost use Rattle.std.specs.Prelude.{◌≡◌, ℕ, OnOk};
ghost use Rattle.tabled_cells.specs.Shown.{KnowsWidest};
ghost use Rattle.tabled_cells.specs.Trimmed.{lines_shown};
ghost use Rattle.tabled_painting.specs.InColor.{Paints};
ghost use Rattle.tabled_painting.specs.CellLines.{coloring_of, painted_line, cell_line};

use crate::{CellColors, Output, Painter};
use tabled_cells::{Placement, ShownLines, line_parts, lines_above};

/// A cell whose lines are painted one by one.
#[derive(Clone, Copy, Debug)]
pub(crate) struct CellLines<'a> {
    how: Placement,
    colors: CellColors<'a>,
    width: usize,
    height: usize,
    lines: ShownLines<'a>,
    ghost widest: { KnowsWidest how lines },
}

impl<'a> CellLines<'a> {
    ghost use Rattle.tabled_painting.specs.Rows.{line_of};

    /// A cell with the lines of a text that are shown, in a column and a row of that width and height.
    pub(crate) fn of(
        how: Placement,
        colors: CellColors<'a>,
        size: (usize, usize),
        text: &'a str,
    ) -> Self
        ensures { (at : ℕ) → line_of at result ≡ cell_line how (coloring_of colors.entry) size.0 size.1 (lines_shown how text.now) at }
    {
        let (width, height) = size;
        CellLines {
            how,
            colors,
            width,
            height,
            lines: ShownLines::of(&how, text),
        }
    }

    /// Paints a line of the text.
    #[tactic(auto, unfolding(crate::specs::CellLines::painted_line))]
    fn paint_text<O: Output>(
        &self,
        painter: &mut Painter<'a, O>,
        line: &str,
        aligned: usize,
    ) -> Result<(), O::Error>
        ensures { OnOk result (Paints O.gains (painted_line self.now.how (coloring_of self.now.colors) self.now.width aligned line.now) painter.old painter.new) }
    {
        let parts = line_parts(&self.how, self.width, aligned, line);
        let (padding, colors) = (&self.how.padding, self.colors);
        let (left, right) = (padding.left, padding.right);
        painter.push_times(colors.padding.left.as_ref(), left.size, left.fill)?;
        painter.push_times(colors.fill, parts.before, parts.fill)?;
        painter.push_str(colors.text, line)?;
        painter.push_times(colors.fill, parts.after, parts.fill)?;
        painter.push_times(colors.padding.right.as_ref(), right.size, right.fill)?;
        Ok(())
    }

    /// Paints line `n` of the cell. Lines that are painted in turn cost no more than their own length.
    pub(crate) fn paint_line<O: Output>(
        &mut self,
        painter: &mut Painter<'a, O>,
        n: usize,
    ) -> Result<(), O::Error>
        ensures painted { OnOk result (Paints O.gains (line_of n self.old) painter.old painter.new) }
        ensures same { (at : ℕ) → line_of at self.new ≡ line_of at self.old }
    {
        let (padding, colors) = (self.how.padding, self.colors.padding);
        let above = lines_above(&self.how, self.height, self.lines.len());
        if n < above {
            return painter.push_times(colors.top.as_ref(), self.width, padding.top.fill);
        }
        let Some(line) = self.lines.line(n - above) else {
            return painter.push_times(colors.bottom.as_ref(), self.width, padding.bottom.fill);
        };
        let aligned = self.lines.aligned(&self.how, line);
        self.paint_text(painter, line, aligned)
    }
}
