//! The lines of a table between the sides of its margin.

ghost use Rattle.std.specs.Prelude.{◌≡◌, ◌↔◌, [], ◌∷◌, None, IsFalse, OnOk, option_copied};
ghost use Rattle.tabled_painting.specs.Painted.{Painted};
ghost use Rattle.tabled_painting.specs.InColor.{Paints};
ghost use Rattle.tabled_painting.specs.Margin.{side_of, side_at};
ghost use Rattle.tabled_painting.specs.Pages.{BeginsLine, EndsLine, PaintsLines, SamePage, line_text};

use crate::{MarginSide, Output, Painter};

/// The lines of a table, which are painted one after another, each between the left and the right side of the margin.
#[derive(Drop)]
pub(crate) struct Page<'a, O> {
    pub(crate) painter: Painter<'a, O>,
    pub(crate) left: MarginSide<'a>,
    pub(crate) right: MarginSide<'a>,
    /// How many lines the table has.
    pub(crate) high: usize,
    /// How many of them were painted, as far as a number says it.
    pub(crate) number: usize,
}

impl<'a, O: Output> Page<'a, O> {
    /// Begins the next line with its left side.
    pub(crate) fn begin_line(&mut self) -> Result<(), O::Error>
        requires ended { option_copied self.old.painter.color ≡ None }
        ensures begun { OnOk result (BeginsLine O.gains (side_at (side_of self.old.left) self.old.high self.old.number self.old.left.size) self.old.painter self.new.painter) }
        ensures number { self.new.number ≡ self.old.number }
        ensures same { SamePage self.old self.new }
    {
        self.painter.begin_line()?;
        if self.left.size == 0 {
            return Ok(());
        }
        let left = self.left;
        left.paint_at(&mut self.painter, self.high, self.number, left.size)
    }

    /// Paints the right side of a line.
    fn paint_right(&mut self) -> Result<(), O::Error>
        ensures painted { OnOk result (Paints O.gains (side_at (side_of self.old.right) self.old.high self.old.number self.old.right.size) self.old.painter self.new.painter) }
        ensures number { self.new.number ≡ self.old.number }
        ensures same { SamePage self.old self.new }
    {
        if self.right.size == 0 {
            return Ok(());
        }
        let right = self.right;
        right.paint_at(&mut self.painter, self.high, self.number, right.size)
    }

    /// Whether something stands at the sides of lines.
    pub(crate) fn has_sides(&self) -> bool
        ensures { IsFalse result ↔ ((self.now.left.size ≡ 0) × (self.now.right.size ≡ 0)) }
    {
        self.left.size != 0 || self.right.size != 0
    }

    /// Writes the next line as it was written before, where nothing stands at its sides.
    pub(crate) fn push_line(&mut self, line: &str) -> Result<(), O::Error>
        requires left { self.old.left.size ≡ 0 }
        requires right { self.old.right.size ≡ 0 }
        requires ended { option_copied self.old.painter.color ≡ None }
        ensures { (painted : Painted) → line.now ≡ line_text self.old.painter.with_colors painted → OnOk result (PaintsLines O.gains (painted ∷ []) self.old self.new) }
    {
        self.painter.begin_line()?;
        self.painter.out.push_str(line)?;
        self.number = self.number.saturating_add(1);
        Ok(())
    }

    /// Paints the right side of a line, whatever of it was painted, and ends it.
    pub(crate) fn end_line(&mut self) -> Result<(), O::Error>
        ensures { OnOk result (EndsLine O.gains self.old self.new) }
    {
        self.paint_right()?;
        self.painter.end_last()?;
        self.number = self.number.saturating_add(1);
        Ok(())
    }
}
