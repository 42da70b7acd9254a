//! Custom lines of one direction, each under its index.

ghost use Rattle.std.specs.Prelude.{◌≡◌, [], IsOk, ◌++◌, OnOk, OnErr, IfOk, None, option_copied};
ghost use Rattle.std.specs.Ordering.{nat_cmp};
ghost use Rattle.std.specs.FinMap as map;
ghost use Rattle.std.specs.BTreeMap.{insert_entry};
ghost use Rattle.tabled_theme.specs.Lines.{last_under};

use std::alloc::Global;
use std::collections::BTreeMap;
use std::marker::Model;
use tabled_border::{Keep, OutOfMemory};

/// Custom lines of one direction, each under its index.
#[derive(Debug)]
pub(crate) struct LineMap<L> {
    lines: BTreeMap<usize, L>,
}

/// Written out, so that dropping the lines is one call.
impl<L: Drop> Drop for LineMap<L> {
    fn drop(self) {
        let LineMap { lines: _ } = self;
    }
}

impl<L> Model for LineMap<L> {
    ghost use Rattle.std.specs.Coded.{codes};
    ghost use Rattle.std.specs.FinMap as map;
    ghost use Rattle.std.specs.Ordering.{nat_cmp};
    ghost use Rattle.tabled_kept.specs.Table.{table};

    ghost Value = { map.FinMap nat_cmp L };

    ghost coded = { Prim.hlevel (codes, L.code, map.code) };

    ghost view = { λ kept. table nat_cmp kept.lines.entries };
}

impl<L> LineMap<L> {
    ghost use Rattle.tabled_kept.specs.Table.{table};

    /// No lines.
    pub(crate) fn new(alloc: Global) -> Self
        ensures { result ≡ map.empty }
    {
        LineMap {
            lines: BTreeMap::new(alloc),
        }
    }

    /// The lines of a map.
    pub(crate) fn of(lines: BTreeMap<usize, L>) -> Self
        ensures { result ≡ table nat_cmp lines.entries }
    {
        LineMap { lines }
    }

    /// The line at an index.
    pub(crate) fn get(&self, index: usize) -> Option<&L>
        ensures { option_copied result ≡ map.get self.now index }
    {
        self.lines.get(&index)
    }

    /// Puts a line at an index, in place of the one that stood there. Only where none did can memory be refused, and
    /// then nothing changes.
    pub(crate) fn insert(&mut self, index: usize, line: L) -> Result<(), OutOfMemory>
    where
        L: Drop,
        ensures ok { OnOk result (self.new ≡ map.insert self.old index line) }
        ensures err { OnErr result (self.new ≡ self.old) }
        ensures absent { OnErr result (map.get self.old index ≡ None) }
    {
        self.lines.insert(index, line)?;
        Ok(())
    }

    /// Drops all lines.
    pub(crate) fn clear(&mut self)
    where
        L: Drop,
        ensures { self.new ≡ map.empty }
    {
        self.lines.clear();
    }
}

impl<L: Copy + Drop> LineMap<L> {
    /// The lines of a list, the last one of each index.
    pub(crate) fn of_list(alloc: Global, list: &[(usize, L)]) -> Result<Self, OutOfMemory>
        ensures lines { IfOk result (λ lines. lines ≡ last_under list.now) }
        ensures without_lines { list.now ≡ [] → IsOk result }
    {
        let mut lines = LineMap::new(alloc);
        for line in list {
            lines.insert(line.0, line.1)?;
        }
        Ok(lines)
    }

    /// Adds each line with its index to a list.
    pub(crate) fn push_to(&self, list: &mut Vec<(usize, L)>) -> Result<(), OutOfMemory>
        ensures { OnOk result (list.new.items ≡ list.old.items ++ map.entries self.now) }
    {
        for (index, line) in &self.lines {
            list.push((*index, *line))?;
        }
        Ok(())
    }
}

/// Puts a copy of a line at an index.
fn put_copy<L: Keep>(
    lines: &mut BTreeMap<usize, L>,
    index: usize,
    line: &L,
    alloc: Global,
) -> Result<(), OutOfMemory>
    ensures { OnOk result (lines.new.entries ≡ insert_entry nat_cmp lines.old.entries index line.now) }
{
    lines.insert(index, line.keep(alloc)?)?;
    Ok(())
}

impl<L: Keep> Keep for LineMap<L> {
    fn keep(&self, alloc: Global) -> Result<Self, OutOfMemory> {
        let mut lines = BTreeMap::new(alloc);
        for (index, line) in &self.lines {
            put_copy(&mut lines, *index, line, alloc)?;
        }
        Ok(LineMap { lines })
    }
}

/// Two are equal that have the same indices, and under each an equal line.
impl<L: PartialEq> PartialEq for LineMap<L> {
    ghost use Rattle.tabled_theme.specs.Same.{same_lines, lines_per};

    ghost eq = { same_lines L.eq };

    ghost laws = { lines_per L.laws };

    fn eq(&self, other: &Self) -> bool {
        // `len` tells the checker that the indices are in their order
        let _ = self.lines.len();
        let _ = other.lines.len();
        self.lines == other.lines
    }
}

impl<L: Eq> Eq for LineMap<L> {
    ghost use Rattle.tabled_theme.specs.Same.{lines_equiv};

    ghost laws = { lines_equiv L.Eq.laws };
}
