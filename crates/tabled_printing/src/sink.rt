//! What the marks of a line are put into: a text, a list of marks, a list of runs, or a number that counts them.

ghost use Rattle.std.specs.Prelude.{List, [], ◌∷◌, ◌++◌};
ghost use Rattle.tabled_printing.specs.Marks.{mark_of, run_marks};
ghost use Rattle.tabled_printing.specs.Picture.{Shown};
ghost use Rattle.tabled_printing.specs.Sinks.{Put};
ghost use Rattle.tabled_printing.specs.Sinks as gains;

use crate::mark::printed_as;
use crate::{Mark, Run};
use std::alloc::AllocError;
use tabled_border::OutOfMemory;
use tabled_width::{push_after, push_times};

/// What marks are put into, run by run.
pub trait Sink<'a> {
    /// Why no more can be put.
    type Error;

    /// Whether these marks, put in their order, make the one the other.
    ghost puts: { List Shown → Self → Self → Type 0 };

    /// Whether a refusal may leave the other of the one.
    ghost leaves: { Self → Self → Type 0 };

    /// Puts the marks of a run. Where it is refused some of them may have been put.
    fn put(&mut self, run: Run<'a>) -> Result<(), Self::Error>
        ensures { Put puts leaves result (run_marks run.entry) self.old self.new };

    /// Puts a mark, and then the marks of a run. Where it is refused some of them may have been put.
    fn put_after(&mut self, mark: Mark<'a>, run: Run<'a>) -> Result<(), Self::Error>
        ensures { Put puts leaves result (mark_of mark.entry ∷ run_marks run.entry) self.old self.new };

    /// No marks leave it as it is.
    ghost puts_none: { (sink : Self) → puts [] sink sink };

    /// Marks that are put in turn are put.
    ghost puts_both: { (ms ns : List Shown) (old between new : Self)
        → puts ms old between → puts ns between new → puts (ms ++ ns) old new };

    /// What a refusal leaves after some marks, it leaves of what was there before them.
    ghost leaves_after: { (ms : List Shown) (old between new : Self)
        → puts ms old between → leaves between new → leaves old new };
}

/// A text takes the characters, a space for none.
impl<'a> Sink<'a> for String {
    type Error = AllocError;

    ghost puts = { gains.text_gains };

    ghost leaves = { gains.text_kept };

    #[tactic(auto, using(crate::proofs::MarkLemmas::run_text))]
    fn put(&mut self, run: Run<'a>) -> Result<(), AllocError> {
        push_times(self, run.count, printed_as(run.mark.shown))?;
        Ok(())
    }

    #[tactic(auto, using(crate::proofs::MarkLemmas::run_text))]
    fn put_after(&mut self, mark: Mark<'a>, run: Run<'a>) -> Result<(), AllocError> {
        let (crossing, edge) = (printed_as(mark.shown), printed_as(run.mark.shown));
        push_after(self, crossing, run.count, edge)?;
        Ok(())
    }

    ghost puts_none = { gains.text_none };

    ghost puts_both = { gains.text_both };

    ghost leaves_after = { gains.text_kept_after };
}

/// A list of marks takes each of them.
impl<'a> Sink<'a> for Vec<Mark<'a>> {
    type Error = AllocError;

    ghost puts = { gains.marks_gained };

    ghost leaves = { gains.anything };

    fn put(&mut self, run: Run<'a>) -> Result<(), AllocError> {
        for _ in 0..run.count {
            self.push(run.mark)?;
        }
        Ok(())
    }

    fn put_after(&mut self, mark: Mark<'a>, run: Run<'a>) -> Result<(), AllocError> {
        self.push(mark)?;
        self.put(run)
    }

    ghost puts_none = { gains.marks_none };

    ghost puts_both = { gains.marks_both };

    ghost leaves_after = { λ ms old between new put left. left };
}

/// A list of runs takes the run.
impl<'a> Sink<'a> for Vec<Run<'a>> {
    type Error = AllocError;

    ghost puts = { gains.runs_gained };

    ghost leaves = { gains.anything };

    fn put(&mut self, run: Run<'a>) -> Result<(), AllocError> {
        self.push(run)?;
        Ok(())
    }

    fn put_after(&mut self, mark: Mark<'a>, run: Run<'a>) -> Result<(), AllocError> {
        self.push(Run { mark, count: 1 })?;
        self.put(run)
    }

    ghost puts_none = { gains.runs_none };

    ghost puts_both = { gains.runs_both };

    ghost leaves_after = { λ ms old between new put left. left };
}

/// A number counts them. Refused where no number says how many they are, which no memory holds.
impl<'a> Sink<'a> for usize {
    type Error = OutOfMemory;

    ghost puts = { gains.number_gains };

    ghost leaves = { gains.anything };

    #[tactic(auto, using(crate::proofs::MarkLemmas::run_count))]
    fn put(&mut self, run: Run<'a>) -> Result<(), OutOfMemory> {
        let Some(sum) = self.checked_add(run.count) else {
            return Err(OutOfMemory);
        };
        *self = sum;
        Ok(())
    }

    fn put_after(&mut self, mark: Mark<'a>, run: Run<'a>) -> Result<(), OutOfMemory> {
        self.put(Run { mark, count: 1 })?;
        self.put(run)
    }

    ghost puts_none = { gains.number_none };

    ghost puts_both = { gains.number_both };

    ghost leaves_after = { λ ms old between new put left. left };
}
