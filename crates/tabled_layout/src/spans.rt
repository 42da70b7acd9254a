//! Which cells span several columns, or several rows.

mod several;

ghost use Rattle.std.specs.Prelude.{◌≡◌, ◌<◌, ◌≤◌, ◌==◌, None, IsOk, OnOk, OnErr};
ghost use Rattle.std.specs.FinMap as map;
ghost use Rattle.std.specs.BTreeMap.{insert_entry};
ghost use Rattle.tabled_kept.specs.Table.{table};
ghost use Rattle.tabled_layout.specs.Spans.{position_cmp, after_span, ReachedFrom, spans_in_row};

use std::alloc::Global;
use std::collections::{BTreeMap, btree_map};
use std::fmt;
use std::marker::Model;
use tabled_border::{Keep, OutOfMemory};
use tabled_object::Position;

/// The spans of one direction: over how many columns, or rows, the cell at a position spans, where that is at least two.
pub struct Spans {
    spans: BTreeMap<Position, usize>,

    // no span has a greater count; it may be that of a span which is gone
    longest: usize,
}

/// Written out, so that letting them go is one call.
impl Drop for Spans {
    fn drop(self) {
        let Spans {
            spans: _,
            longest: _,
        } = self;
    }
}

/// Shows the spans alone, so that equal ones look alike.
impl fmt::Debug for Spans {
    fn fmt<W: fmt::Write>(&self, f: &mut fmt::Formatter<W>) -> fmt::Result {
        f.debug_struct("Spans").field("spans", &self.spans).finish()
    }
}

impl Model for Spans {
    ghost use Rattle.std.specs.Prelude.{ℕ};
    ghost use Rattle.std.specs.Coded.{codes};
    ghost use Rattle.std.specs.FinMap as map;
    ghost use Rattle.tabled_kept.specs.Table.{table};
    ghost use Rattle.tabled_layout.specs.Spans.{position_cmp, NoLonger};

    ghost Value = { map.FinMap position_cmp ℕ };

    ghost coded = { Prim.hlevel (codes, map.code) };

    ghost view = { λ kept. table position_cmp kept.spans.entries };

    ghost invariant = { λ kept. NoLonger kept.longest (table position_cmp kept.spans.entries) };
}

impl Spans {
    /// Makes spans of no cells.
    pub fn new(alloc: Global) -> Self
        ensures { result ≡ map.empty }
    {
        Spans {
            spans: BTreeMap::new(alloc),
            longest: 0,
        }
    }

    /// Sets over how many columns, or rows, the cell at a position spans; fewer than two remove its span, which takes no
    /// memory. Where memory is refused nothing changes.
    pub fn set(&mut self, position: Position, count: usize) -> Result<(), OutOfMemory>
        ensures ok { OnOk result (self.new ≡ after_span self.old (position, count)) }
        ensures err { OnErr result (self.new ≡ self.old) }
        ensures always { count < 2 → IsOk result }
    {
        if count < 2 {
            self.remove(position);
            return Ok(());
        }
        self.insert(position, count)
    }

    /// Over how many columns, or rows, the cell at a position spans, if that is several.
    pub fn get(&self, position: Position) -> Option<usize>
        ensures { result ≡ map.get self.now position }
    {
        self.spans.get(&position).copied()
    }

    /// Returns the spans, in the order of their rows and in each row of their columns.
    pub fn as_map(&self) -> &BTreeMap<Position, usize>
        ensures { table position_cmp result.now.entries ≡ self.now }
    {
        &self.spans
    }

    /// Returns whether no cell spans.
    pub fn is_empty(&self) -> bool
        ensures { result ≡ (map.len self.now == 0) }
    {
        self.spans.is_empty()
    }

    /// The first row, or column, from which a span can reach the given one.
    pub(crate) fn first_reaching(&self, given: usize) -> usize
        ensures at_most { result ≤ given }
        ensures reached { ReachedFrom result given self.now }
    {
        given.saturating_sub(self.longest.saturating_sub(1))
    }

    /// The spans of one row from a column on, up to another column and without it, in the order of their columns.
    pub(crate) fn in_row(
        &self,
        row: usize,
        first: usize,
        end: usize,
    ) -> btree_map::Range<'_, Position, usize>
        requires { first ≤ end }
        ensures { result ≡ spans_in_row self.now row first end }
    {
        self.spans
            .range(Position::new(row, first)..Position::new(row, end))
    }

    /// Sets a span. Where there is one already no memory is asked for.
    fn insert(&mut self, position: Position, count: usize) -> Result<(), OutOfMemory>
        ensures ok { OnOk result (self.new ≡ map.insert self.old position count) }
        ensures err { OnErr result (self.new ≡ self.old) }
        ensures absent { OnErr result (map.get self.old position ≡ None) }
    {
        self.spans.insert(position, count)?;
        self.longest = self.longest.max(count);
        Ok(())
    }

    /// Removes a span, if there is one.
    fn remove(&mut self, position: Position)
        ensures { self.new ≡ map.remove self.old position }
    {
        let _ = self.spans.remove(&position);
    }
}

impl Keep for Spans {
    fn keep(&self, alloc: Global) -> Result<Self, OutOfMemory> {
        let mut spans = BTreeMap::new(alloc);
        for (position, count) in &self.spans {
            put_copy(&mut spans, *position, *count)?;
        }
        Ok(Spans {
            spans,
            longest: self.longest,
        })
    }
}

/// Puts a span into a copy.
fn put_copy(
    spans: &mut BTreeMap<Position, usize>,
    position: Position,
    count: usize,
) -> Result<(), OutOfMemory>
    ensures { OnOk result (spans.new.entries ≡ insert_entry position_cmp spans.old.entries position count) }
{
    spans.insert(position, count)?;
    Ok(())
}

/// Two are equal that have the same positions, with the same counts.
impl PartialEq for Spans {
    ghost use Rattle.tabled_layout.specs.Same.{same_spans, spans_per};

    ghost eq = { same_spans };

    ghost laws = { spans_per };

    fn eq(&self, other: &Self) -> bool {
        // `len` tells the checker that the positions are in their order
        let _ = self.spans.len();
        let _ = other.spans.len();
        self.spans == other.spans
    }
}

impl Eq for Spans {
    ghost use Rattle.tabled_layout.specs.Same.{spans_equiv};

    ghost laws = { spans_equiv };
}
