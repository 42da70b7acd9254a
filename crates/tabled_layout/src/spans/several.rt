//! Spans of several cells at once.

ghost use Rattle.std.specs.Prelude.{◌≡◌, ◌<◌, ◌≤◌, ℕ, List, Option, IsOk, OnOk, OnErr};
ghost use Rattle.tabled_layout.specs.Spans.{after_span, calls_for, spans_after};
ghost use Rattle.tabled_layout.specs.TakenBack.{put_back, taken_back};

use super::Spans;
use std::alloc::Global;
use tabled_border::OutOfMemory;
use tabled_object::Position;

impl Spans {
    /// Sets over how many columns, or rows, each of some cells spans; fewer than two remove their spans, which takes no memory.
    /// Where memory is refused nothing changes. It costs the cells, and not what was kept.
    pub fn set_all(
        &mut self,
        alloc: Global,
        cells: &[Position],
        count: usize,
    ) -> Result<(), OutOfMemory>
        ensures ok { OnOk result (self.new ≡ spans_after self.old (calls_for count cells.now)) }
        ensures err { OnErr result (self.new ≡ self.old) }
        ensures always { count < 2 → IsOk result }
    {
        if count < 2 {
            self.remove_each(cells);
            return Ok(());
        }
        let mut before = Vec::new(alloc);
        if self.insert_each(&mut before, cells, count).is_err() {
            self.take_back(before);
            return Err(OutOfMemory);
        }
        Ok(())
    }

    /// Removes the spans of some cells.
    fn remove_each(&mut self, cells: &[Position])
        ensures { (count : ℕ) → count < 2 → self.new ≡ spans_after self.old (calls_for count cells.now) }
    {
        for cell in cells {
            self.remove(*cell);
        }
    }

    /// Sets a span, and notes before it what there was.
    fn insert_noted(
        &mut self,
        before: &mut Vec<(Position, Option<usize>)>,
        cell: Position,
        count: usize,
    ) -> Result<(), OutOfMemory>
        requires { 2 ≤ count }
        ensures ok { OnOk result (self.new ≡ after_span self.old (cell, count)) }
        ensures back { taken_back self.new before.new.items ≡ taken_back self.old before.old.items }
    {
        before.push((cell, self.get(cell)))?;
        self.insert(cell, count)
    }

    /// Sets spans one after another, and notes before each what there was. Where memory is refused some may be set.
    fn insert_each(
        &mut self,
        before: &mut Vec<(Position, Option<usize>)>,
        cells: &[Position],
        count: usize,
    ) -> Result<(), OutOfMemory>
        requires { 2 ≤ count }
        ensures ok { OnOk result (self.new ≡ spans_after self.old (calls_for count cells.now)) }
        ensures back { taken_back self.new before.new.items ≡ taken_back self.old before.old.items }
    {
        for cell in cells {
            self.insert_noted(before, *cell, count)?;
        }
        Ok(())
    }

    /// Puts back what was noted for a cell: no span, or the one in whose place another stands.
    fn put_back(&mut self, cell: Position, noted: Option<usize>)
        ensures { self.new ≡ put_back self.old (cell, noted) }
    {
        match noted {
            None => self.remove(cell),
            Some(count) => {
                if self.get(cell).is_some() {
                    // for a cell that spans no memory is asked for
                    let _ = self.insert(cell, count);
                }
            }
        }
    }

    /// Puts back what was noted, from the last note to the first.
    fn take_back(&mut self, before: Vec<(Position, Option<usize>)>)
        ensures { self.new ≡ taken_back self.old before.items }
    {
        let mut notes = before;
        while let Some((cell, noted)) = notes.pop() {
            self.put_back(cell, noted);
        }
    }
}
