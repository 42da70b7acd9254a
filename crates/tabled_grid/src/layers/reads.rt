//! How a store is read.

ghost use Rattle.std.specs.Prelude.{◌≡◌, ◌<◌, IfOk, option_copied, option_and_then};
ghost use Rattle.std.specs.Ordering.{nat_cmp};
ghost use Rattle.std.specs.FinMap as map;
ghost use Rattle.tabled_kept.specs.Table.{table};
ghost use Rattle.tabled_kept.specs.Probing.{IsCounted, IsRaised};
ghost use Rattle.tabled_places.specs.Reading.{direction_of};
ghost use Rattle.tabled_places.specs.declared.site.Direction.TheVariants.{Horizontal as horizontal, Vertical as vertical};
ghost use Rattle.tabled_places.specs.Site.{rank, class_value};
ghost use Rattle.tabled_places.specs.declared.site.Class.TheVariants.{Edges as edges, Crossings as crossings};
ghost use Rattle.tabled_places.specs.Drawn.{number};

use super::Layers;
use crate::custom_lines::CustomLine;
use crate::spots::edge_at;
use crate::{
    Borders, HorizontalLine, HorizontalLines, Keep, LineOf, Offset, OutOfMemory, Place, Probes,
    Rank, Spot, Target, VerticalLine, VerticalLines,
};
use std::collections::BTreeMap;
use tabled_kept::{CountedMap, Meter, One};
use tabled_places::{EdgePlace, crossing_of, edges_of, has_spot};

impl<T> Layers<T> {
    ghost use Rattle.tabled_places.specs.Value.{plain_value};
    ghost use Rattle.tabled_places.specs.State.{state_at};
    ghost use Rattle.tabled_places.specs.Writes.{kept_at};

    /// Returns the class record.
    pub fn get_class(&self) -> &Borders<T>
        ensures { result.now ≡ self.now.class_record }
    {
        self.class_record.get()
    }

    /// Returns the custom horizontal line that stands at an index, if one does.
    pub fn get_hline(&self, line: usize) -> Option<&HorizontalLine<T>>
        ensures { option_copied result ≡ map.get self.now.horizontal_lines line }
    {
        self.horizontal_lines.read(line, &mut Probes::new())
    }

    /// Returns the custom vertical line that stands at an index, if one does.
    pub fn get_vline(&self, line: usize) -> Option<&VerticalLine<T>>
        ensures { option_copied result ≡ map.get self.now.vertical_lines line }
    {
        self.vertical_lines.read(line, &mut Probes::new())
    }

    /// Returns the custom horizontal lines, each with the index at which it stands, in rising order. They are lent, so no
    /// memory is asked for.
    pub fn iter_hlines(&self) -> HorizontalLines<'_, T>
        ensures { result ≡ map.entries self.now.horizontal_lines }
    {
        self.horizontal_lines.iter()
    }

    /// Returns the custom vertical lines, each with the index at which it stands, in rising order. They are lent, so no
    /// memory is asked for.
    pub fn iter_vlines(&self) -> VerticalLines<'_, T>
        ensures { result ≡ map.entries self.now.vertical_lines }
    {
        self.vertical_lines.iter()
    }

    /// Returns the default, if one is set.
    pub fn get_default(&self) -> Option<&T>
        ensures { option_copied result ≡ self.now.default_value }
    {
        self.default_value.get().as_ref()
    }

    /// Returns what is kept at a target: at the cell level of a place, whose `at` is not read for an edge, or at a numbered
    /// place of an edge. What other levels keep there plays no part.
    pub fn kept_at(&self, target: Target) -> Option<&T>
        ensures { option_copied result ≡ kept_at self.now target }
    {
        let mut probes = Probes::new();
        match target {
            Target::Cell(place) => self.cells.read(place.spot(), &mut probes),
            Target::Horizontal(pos, offset) => {
                let line = LineOf::Horizontal(pos.row);
                self.offset_of(line, pos.col, offset, &mut probes)
            }
            Target::Vertical(pos, offset) => {
                let line = LineOf::Vertical(pos.col);
                self.offset_of(line, pos.row, offset, &mut probes)
            }
        }
    }

    /// Returns a copy of all custom horizontal lines, each under the index at which it stands. Its memory comes from
    /// the allocator that the store keeps.
    pub fn hlines(&self) -> Result<BTreeMap<usize, HorizontalLine<T>>, OutOfMemory>
    where
        T: Keep,
        ensures { IfOk result (λ lines. table nat_cmp lines.entries ≡ self.now.horizontal_lines) }
    {
        self.horizontal_lines.copy(self.alloc)
    }

    /// Returns a copy of all custom vertical lines, each under the index at which it stands. Its memory comes from
    /// the allocator that the store keeps.
    pub fn vlines(&self) -> Result<BTreeMap<usize, VerticalLine<T>>, OutOfMemory>
    where
        T: Keep,
        ensures { IfOk result (λ lines. table nat_cmp lines.entries ≡ self.now.vertical_lines) }
    {
        self.vertical_lines.copy(self.alloc)
    }

    /// Returns what an edge or a crossing shows without its offsets, in a table of `shape.0` rows and `shape.1`
    /// columns: what is kept at the highest level below them that has something there. `at` of an edge
    /// is not read, so an edge of length 0 has a value too. An edge or a crossing outside has nothing.
    pub fn plain_at(&self, place: Place, shape: (usize, usize)) -> Option<&T>
        ensures { option_copied result ≡ plain_value (state_at self.now) shape place }
    {
        self.read_plain(place, shape, &mut Probes::new())
    }
}

/// Look-ups, for every type of meters: they can make none, so each reading raises the one that is lent, and what is read without
/// one can't be called here.
impl<T, M: Meter> Layers<T, M> {
    ghost use Rattle.tabled_places.specs.Value.{value, plain_value};
    ghost use Rattle.tabled_places.specs.State.{state_at};
    ghost use Rattle.tabled_places.specs.Reading.{pick, main_of, offset_of, plain_edge, plain_crossing, edge_shown};

    /// Returns what shows at a place of a table of `shape.0` rows and `shape.1` columns: what is kept at the highest level that has
    /// something there. `size` is the width of a horizontal edge's column or the height of a vertical edge's row; for a crossing it
    /// is not read. A place outside the table has nothing. At most six readings are made.
    pub fn at(&self, place: Place, shape: (usize, usize), size: usize, probes: &mut M) -> Option<&T>
        ensures value { option_copied result ≡ value (state_at self.now) shape size place }
        ensures probes { IsRaised 6 (M.made probes.old) (M.made probes.new) }
    {
        if !place.is_inside(shape, size) {
            return None;
        }
        let (rows, cols) = shape;
        match place {
            Place::Horizontal { row, col, at } => {
                self.at_edge((LineOf::Horizontal(row), rows), col, (at, size), probes)
            }
            Place::Vertical { row, col, at } => {
                self.at_edge((LineOf::Vertical(col), cols), row, (at, size), probes)
            }
            Place::Cross { row, col } => self.plain_crossing(row, col, shape, probes),
        }
    }

    /// Returns what `plain_at` does, and counts its readings: at most five are made.
    pub fn read_plain(&self, place: Place, shape: (usize, usize), probes: &mut M) -> Option<&T>
        ensures value { option_copied result ≡ plain_value (state_at self.now) shape place }
        ensures probes { IsRaised 5 (M.made probes.old) (M.made probes.new) }
    {
        if !has_spot(place, shape) {
            return None;
        }
        let (rows, cols) = shape;
        match place {
            Place::Horizontal { row, col, .. } => {
                self.plain_edge((LineOf::Horizontal(row), rows), col, probes)
            }
            Place::Vertical { row, col, .. } => {
                self.plain_edge((LineOf::Vertical(col), cols), row, probes)
            }
            Place::Cross { row, col } => self.plain_crossing(row, col, shape, probes),
        }
    }

    /// What the edge of a line, of the lines 0 to `line.1` of its direction, shows at place `at.0` of its `at.1` places.
    fn at_edge(
        &self,
        line: (LineOf, usize),
        col: usize,
        at: (usize, usize),
        probes: &mut M,
    ) -> Option<&T>
        requires { at.0 < at.1 }
        ensures value { option_copied result ≡ edge_shown self.now line.0 line.1 col at.0 at.1 }
        ensures probes { IsRaised 6 (M.made probes.old) (M.made probes.new) }
    {
        let (number, size) = at;
        let start = self.offset_of(line.0, col, Offset::Start(number), probes);
        if start.is_some() {
            return start;
        }
        let end = self.offset_of(line.0, col, Offset::End(size - 1 - number), probes);
        if end.is_some() {
            return end;
        }
        self.plain_edge(line, col, probes)
    }

    /// What is kept at an offset of an edge of a line: one reading.
    fn offset_of(&self, line: LineOf, at: usize, offset: Offset, probes: &mut M) -> Option<&T>
        ensures value { option_copied result ≡ offset_of self.now line at offset }
        ensures raised { IsRaised 1 (M.made probes.old) (M.made probes.new) }
    {
        match line {
            LineOf::Horizontal(row) => self.horizontal_offsets.read(
                EdgePlace {
                    row,
                    col: at,
                    offset,
                },
                probes,
            ),
            LineOf::Vertical(col) => self.vertical_offsets.read(
                EdgePlace {
                    row: at,
                    col,
                    offset,
                },
                probes,
            ),
        }
    }

    /// What the edge of a line, of the lines 0 to `line.1` of its direction, shows without its offsets.
    fn plain_edge(&self, line: (LineOf, usize), at: usize, probes: &mut M) -> Option<&T>
        ensures value { option_copied result ≡ plain_edge self.now line.0 line.1 at }
        ensures probes { IsRaised 4 (M.made probes.old) (M.made probes.new) }
    {
        let cell = self.cells.read(edge_at(line.0, at), probes);
        if cell.is_some() {
            return cell;
        }
        let main = self.main_of(line.0, probes);
        if main.is_some() {
            return main;
        }
        self.class_edge(line, probes)
    }

    /// What the class record, or else the default, has for the edges of a line, of the lines 0 to `line.1` of its direction.
    #[inline(always)]
    fn class_edge(&self, line: (LineOf, usize), probes: &mut M) -> Option<&T>
        ensures value { option_copied result ≡ pick (class_value (edges (direction_of line.0) (rank line.1 (number line.0))) self.now.class_record) self.now.default_value }
        ensures probes { IsRaised 2 (M.made probes.old) (M.made probes.new) }
    {
        let class = class_edges(&self.class_record, line.0, line.1, probes);
        if class.is_some() {
            return class;
        }
        self.default_value.read(probes).as_ref()
    }

    /// What a custom line has for its edges: one reading.
    fn main_of(&self, line: LineOf, probes: &mut M) -> Option<&T>
        ensures value { option_copied result ≡ main_of self.now line }
        ensures raised { IsRaised 1 (M.made probes.old) (M.made probes.new) }
    {
        match line {
            LineOf::Horizontal(row) => match self.horizontal_lines.read(row, probes) {
                Some(custom) => custom.main.as_ref(),
                None => None,
            },
            LineOf::Vertical(col) => match self.vertical_lines.read(col, probes) {
                Some(custom) => custom.main.as_ref(),
                None => None,
            },
        }
    }

    /// What a crossing shows in a table of `shape.0` rows and `shape.1` columns.
    fn plain_crossing(
        &self,
        row: usize,
        col: usize,
        shape: (usize, usize),
        probes: &mut M,
    ) -> Option<&T>
        ensures value { option_copied result ≡ plain_crossing self.now shape.0 shape.1 row col }
        ensures probes { IsRaised 5 (M.made probes.old) (M.made probes.new) }
    {
        let cell = self.cells.read(Spot::Crossing(row, col), probes);
        if cell.is_some() {
            return cell;
        }
        let (rows, cols) = shape;
        let line = meeting(&self.horizontal_lines, row, Rank::of(col, cols), probes);
        if line.is_some() {
            return line;
        }
        let line = meeting(&self.vertical_lines, col, Rank::of(row, rows), probes);
        if line.is_some() {
            return line;
        }
        self.class_crossing(row, col, shape, probes)
    }

    /// What the class record, or else the default, has for a crossing.
    #[inline(always)]
    fn class_crossing(
        &self,
        row: usize,
        col: usize,
        shape: (usize, usize),
        probes: &mut M,
    ) -> Option<&T>
        ensures value { option_copied result ≡ pick (class_value (crossings (rank shape.0 row) (rank shape.1 col)) self.now.class_record) self.now.default_value }
        ensures probes { IsRaised 2 (M.made probes.old) (M.made probes.new) }
    {
        let class = class_crossing(&self.class_record, row, col, shape, probes);
        if class.is_some() {
            return class;
        }
        self.default_value.read(probes).as_ref()
    }
}

/// What a custom line has for its crossings with the lines of a rank: one reading.
fn meeting<'a, L: CustomLine, M: Meter>(
    lines: &'a CountedMap<usize, L, M>,
    line: usize,
    rank: Rank,
    probes: &mut M,
) -> Option<&'a L::Value>
    ensures value { option_copied result ≡ option_and_then (L.meeting rank) (map.get (table nat_cmp lines.now) line) }
    ensures counted { IsCounted (M.made probes.old) (M.made probes.new) }
    ensures raised { IsRaised 1 (M.made probes.old) (M.made probes.new) }
{
    match lines.read(line, probes) {
        Some(custom) => custom.meeting(rank),
        None => None,
    }
}

/// What the class record has for the edges of a line, of the lines 0 to `count` of its direction: one reading.
fn class_edges<'a, T, M: Meter>(
    class: &'a One<Borders<T>, M>,
    line: LineOf,
    count: usize,
    probes: &mut M,
) -> Option<&'a T>
    ensures value { option_copied result ≡ class_value (edges (direction_of line) (rank count (number line))) class.now }
    ensures counted { IsCounted (M.made probes.old) (M.made probes.new) }
    ensures raised { IsRaised 1 (M.made probes.old) (M.made probes.new) }
{
    edges_of(class.read(probes), line, count)
}

/// What the class record has for a crossing: one reading.
fn class_crossing<'a, T, M: Meter>(
    class: &'a One<Borders<T>, M>,
    row: usize,
    col: usize,
    shape: (usize, usize),
    probes: &mut M,
) -> Option<&'a T>
    ensures value { option_copied result ≡ class_value (crossings (rank shape.0 row) (rank shape.1 col)) class.now }
    ensures counted { IsCounted (M.made probes.old) (M.made probes.new) }
    ensures raised { IsRaised 1 (M.made probes.old) (M.made probes.new) }
{
    crossing_of(class.read(probes), row, col, shape)
}
