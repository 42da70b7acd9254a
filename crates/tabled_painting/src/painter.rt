//! Writes painted lines.

ghost use Rattle.std.specs.Prelude.{◌≡◌, ◌++◌, ◌∷◌, true, false, None, OnOk, option_copied, option_map};
ghost use Rattle.tabled_printing.specs.Marks.{mark_of, run_marks};
ghost use Rattle.tabled_printing.specs.Sinks.{anything};
ghost use Rattle.tabled_cells.specs.Placed.{times};
ghost use Rattle.tabled_painting.specs.BareCells.{bare_text};
ghost use Rattle.tabled_painting.specs.Painted.{paint};
ghost use Rattle.tabled_painting.specs.PaintedTable.{painted_marks, side_painted};
ghost use Rattle.tabled_painting.specs.InColor.{Paints, between, feed_if, prefix_of, suffix_of, color_if};
ghost use Rattle.tabled_painting.specs.Put as put;

use crate::Output;
use tabled_border::ANSIBuf;
use tabled_cells::free_before;
use tabled_printing::{Mark, Run, Sink};
use tabled_settings::AlignmentHorizontal;

/// What painted lines are written into, one after another, and the color of what was written last.
#[derive(Drop)]
pub(crate) struct Painter<'a, O> {
    pub(crate) out: O,
    pub(crate) color: Option<&'a ANSIBuf>,
    pub(crate) with_colors: bool,
    /// Whether a line was begun.
    pub(crate) has_begun: bool,
}

/// A color, if colors are wanted.
fn color_if<'a>(with_colors: bool, color: Option<&'a ANSIBuf>) -> Option<&'a ANSIBuf>
    ensures { option_copied result ≡ color_if with_colors (option_copied color.entry) }
{
    if with_colors { color } else { None }
}

#[tactic(auto, using(crate::proofs::PainterLemmas::painting))]
impl<'a, O: Output> Painter<'a, O> {
    /// A painter that has written nothing. Without colors it writes the characters alone.
    pub(crate) fn new(out: O, with_colors: bool) -> Self
        ensures out { result.out ≡ out }
        ensures color { option_copied result.color ≡ None }
        ensures with_colors { result.with_colors ≡ with_colors }
        ensures begun { result.has_begun ≡ false }
    {
        Painter {
            out,
            color: None,
            with_colors,
            has_begun: false,
        }
    }

    /// Writes the text that ends the color of what was written last.
    fn end_color(&mut self) -> Result<(), O::Error>
        ensures text { OnOk result (O.gains (suffix_of (option_copied self.old.color)) self.old.out self.new.out) }
        ensures same_colors { self.new.with_colors ≡ self.old.with_colors }
        ensures same_begun { self.new.has_begun ≡ self.old.has_begun }
    {
        match self.color {
            Some(last) => self.out.push_str(last.get_suffix()),
            None => Ok(()),
        }
    }

    /// Writes the text that begins a color.
    fn begin_color(&mut self, color: Option<&'a ANSIBuf>) -> Result<(), O::Error>
        ensures text { OnOk result (O.gains (prefix_of (option_copied color.entry)) self.old.out self.new.out) }
        ensures same_colors { self.new.with_colors ≡ self.old.with_colors }
        ensures same_begun { self.new.has_begun ≡ self.old.has_begun }
    {
        match color {
            Some(next) => self.out.push_str(next.get_prefix()),
            None => Ok(()),
        }
    }

    /// Ends the color of what was written last, and begins that of what is written next, where they differ.
    #[tactic(auto, unfolding(crate::specs::InColor::between))]
    fn change_color(&mut self, color: Option<&'a ANSIBuf>) -> Result<(), O::Error>
        ensures text { OnOk result (O.gains (between (option_copied self.old.color) (option_copied color.entry)) self.old.out self.new.out) }
        ensures color { OnOk result (option_copied self.new.color ≡ option_copied color.entry) }
        ensures same_colors { self.new.with_colors ≡ self.old.with_colors }
        ensures same_begun { self.new.has_begun ≡ self.old.has_begun }
    {
        if self.color != color {
            self.end_color()?;
            self.begin_color(color)?;
        }
        self.color = color;
        Ok(())
    }

    /// Begins what is written next, which is colored if colors are wanted.
    #[inline(always)]
    #[tactic(auto, unfolding(crate::specs::InColor::between))]
    fn begin(&mut self, color: Option<&'a ANSIBuf>) -> Result<(), O::Error>
        ensures text { OnOk result (O.gains (between (option_copied self.old.color) (color_if self.old.with_colors (option_copied color.entry))) self.old.out self.new.out) }
        ensures color { OnOk result (option_copied self.new.color ≡ color_if self.old.with_colors (option_copied color.entry)) }
        ensures same_colors { self.new.with_colors ≡ self.old.with_colors }
        ensures same_begun { self.new.has_begun ≡ self.old.has_begun }
    {
        if color.is_none() && self.color.is_none() {
            return Ok(());
        }
        self.change_color(color_if(self.with_colors, color))
    }

    /// Ends the color of what was written last, if it has one.
    #[tactic(auto, unfolding(crate::specs::InColor::between))]
    pub(crate) fn end_last(&mut self) -> Result<(), O::Error>
        ensures text { OnOk result (O.gains (suffix_of (option_copied self.old.color)) self.old.out self.new.out) }
        ensures color { OnOk result (option_copied self.new.color ≡ None) }
        ensures same_colors { self.new.with_colors ≡ self.old.with_colors }
        ensures same_begun { self.new.has_begun ≡ self.old.has_begun }
    {
        if self.color.is_none() {
            return Ok(());
        }
        self.end_color()?;
        self.color = None;
        Ok(())
    }

    /// Writes a text in a color.
    pub(crate) fn push_str(
        &mut self,
        color: Option<&'a ANSIBuf>,
        text: &str,
    ) -> Result<(), O::Error>
        ensures { OnOk result (Paints O.gains (paint (option_copied color.entry) text.now) self.old self.new) }
    {
        if text.is_empty() {
            return Ok(());
        }
        self.begin(color)?;
        self.out.push_str(text)?;
        Ok(())
    }

    /// Writes a character the given number of times in a color.
    #[inline(always)]
    pub(crate) fn push_times(
        &mut self,
        color: Option<&'a ANSIBuf>,
        count: usize,
        character: char,
    ) -> Result<(), O::Error>
        ensures { OnOk result (Paints O.gains (paint (option_copied color.entry) (times count character)) self.old self.new) }
    {
        if count == 0 {
            return Ok(());
        }
        self.begin(color)?;
        self.out.push_times(count, character)?;
        Ok(())
    }

    /// Writes the character of a mark and then those of a run, each in its color.
    fn push_marks(&mut self, mark: Mark<'a>, run: Run<'a>) -> Result<(), O::Error>
        ensures { OnOk result (Paints O.gains (painted_marks (mark_of mark.entry ∷ run_marks run.entry)) self.old self.new) }
    {
        self.push_times(mark.color, 1, mark.shown.unwrap_or(' '))?;
        self.push_times(run.mark.color, run.count, run.mark.shown.unwrap_or(' '))
    }

    /// Writes the character of a mark and then those of a run at once, where nothing has a color.
    fn push_plain_marks(&mut self, mark: Mark<'a>, run: Run<'a>) -> Result<(), O::Error>
        requires before { option_copied self.old.color ≡ None }
        requires mark { option_copied mark.color ≡ None }
        requires run { option_copied run.mark.color ≡ None }
        ensures { OnOk result (Paints O.gains (painted_marks (mark_of mark.entry ∷ run_marks run.entry)) self.old self.new) }
    {
        let (crossing, edge) = (mark.shown.unwrap_or(' '), run.mark.shown.unwrap_or(' '));
        self.out.push_after(crossing, run.count, edge)?;
        Ok(())
    }

    /// Writes a text in a column between spaces, all in a color: at least one before it and one after it, and as many more as the column
    /// has room for, where its alignment wants them; and then a side, if there is one. The text takes as many terminal columns as it has
    /// bytes.
    pub(crate) fn push_bare(
        &mut self,
        color: Option<&'a ANSIBuf>,
        alignment: AlignmentHorizontal,
        width: usize,
        text: &str,
        side: Option<Mark<'a>>,
    ) -> Result<(), O::Error>
        ensures { OnOk result (Paints O.gains (paint (option_copied color.entry) (bare_text alignment width text.now) ++ side_painted (option_map mark_of side.entry)) self.old self.new) }
    {
        if text.is_empty() {
            self.push_times(color, width.max(2), ' ')?;
            return self.push_side(side);
        }
        let free = width.saturating_sub(2).saturating_sub(text.len());
        let before = free_before(alignment, free);
        self.begin(color)?;
        self.out.push_times(1 + before, ' ')?;
        self.out.push_str(text)?;
        self.out.push_times(free - before + 1, ' ')?;
        self.push_side(side)
    }

    /// Writes what a vertical line shows, if there is something.
    #[inline(always)]
    pub(crate) fn push_side(&mut self, side: Option<Mark<'a>>) -> Result<(), O::Error>
        ensures { OnOk result (Paints O.gains (side_painted (option_map mark_of side.entry)) self.old self.new) }
    {
        match side {
            Some(mark) => self.push_times(mark.color, 1, mark.shown.unwrap_or(' ')),
            None => Ok(()),
        }
    }

    /// Begins a line: behind a line that was begun, after a line feed.
    pub(crate) fn begin_line(&mut self) -> Result<(), O::Error>
        ensures text { OnOk result (O.gains (feed_if self.old.has_begun) self.old.out self.new.out) }
        ensures begun { OnOk result (self.new.has_begun ≡ true) }
        ensures color { self.new.color ≡ self.old.color }
        ensures same_colors { self.new.with_colors ≡ self.old.with_colors }
    {
        if self.has_begun {
            return self.out.push('\n');
        }
        self.has_begun = true;
        Ok(())
    }
}

/// A painter takes the characters in their colors.
impl<'a, O: Output + Drop + 'a> Sink<'a> for Painter<'a, O> {
    type Error = O::Error;

    ghost puts = { put.paints_marks O.gains };

    ghost leaves = { anything };

    #[inline(always)]
    fn put(&mut self, run: Run<'a>) -> Result<(), O::Error> {
        self.push_times(run.mark.color, run.count, run.mark.shown.unwrap_or(' '))?;
        Ok(())
    }

    #[inline(always)]
    fn put_after(&mut self, mark: Mark<'a>, run: Run<'a>) -> Result<(), O::Error> {
        if self.color.is_none() && mark.color.is_none() && run.mark.color.is_none() {
            self.push_plain_marks(mark, run)?;
        } else {
            self.push_marks(mark, run)?;
        }
        Ok(())
    }

    ghost puts_none = { put.marks_none O.gains O.gains_none };

    ghost puts_both = { put.marks_both O.gains O.gains_both };

    ghost leaves_after = { λ ms old between new put left. left };
}
