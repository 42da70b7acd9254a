//! The writes of an outline, found cell by cell.

ghost use Rattle.std.specs.Prelude.{◌≡◌, ◌||◌, ◌++◌, [], Some, IfOk, OnOk, option_copied, ◌∷◌};
ghost use Rattle.std.specs.Option.{option_or};
ghost use Rattle.tabled_places.specs.Calls.{spot_of};
ghost use Rattle.tabled_places.specs.Writes.{writes_made};
ghost use Rattle.tabled_highlight.specs.Outline as outline;
ghost use Rattle.tabled_highlight.specs.Highlighting.{drawn_with};
ghost use Rattle.tabled_highlight.specs.Around.{has, all_written, unless, neighbors, sides, corners, line_after, written_around};

use std::alloc::Global;
use std::collections::BTreeSet;
use tabled_border::{Border, Keep, OutOfMemory};
use tabled_grid::{Place, Target, Write};
use tabled_object::Position;

/// Which of the eight cells around a cell are in a set.
#[derive(Clone, Copy, Debug)]
struct Neighbors {
    above_left: bool,
    above: bool,
    above_right: bool,
    left: bool,
    right: bool,
    below_left: bool,
    below: bool,
    below_right: bool,
}

impl Neighbors {
    /// The cells of a set that stand beside a cell.
    fn of(cells: &BTreeSet<Position>, pos: Position) -> Self
        ensures { result ≡ neighbors (has cells.now.keys) pos.row (line_after pos.row) pos.col (line_after pos.col) }
    {
        let (row, col) = (pos.row, pos.col);
        let (below, right) = (line_after(row), line_after(col));
        Neighbors {
            above_left: has_upper_left(cells, row, col),
            above: has_upper_right(cells, row, col),
            above_right: has_upper_right(cells, row, right),
            left: has_lower_left(cells, row, col),
            right: has_lower_right(cells, row, right),
            below_left: has_lower_left(cells, below, col),
            below: has_lower_right(cells, below, col),
            below_right: has_lower_right(cells, below, right),
        }
    }

    /// Whether a cell before this one, in row order, shares its upper left corner.
    fn share_upper_left(&self) -> bool
        ensures { result ≡ (self.now.above_left || self.now.above || self.now.left) }
    {
        self.above_left || self.above || self.left
    }

    /// Whether a cell before this one, in row order, shares its upper right corner.
    fn share_upper_right(&self) -> bool
        ensures { result ≡ (self.now.above || self.now.above_right) }
    {
        self.above || self.above_right
    }
}

/// The line after line `n`. A cell of a table has a line after each of its own, so nothing is cut off there.
fn line_after(n: usize) -> usize
    ensures { result ≡ line_after n }
{
    n.saturating_add(1)
}

/// Whether the set has the upper left one of the cells around the crossing of two lines.
fn has_upper_left(cells: &BTreeSet<Position>, row: usize, col: usize) -> bool
    ensures { result ≡ outline.upper_left (has cells.now.keys) row col }
{
    row > 0 && has_lower_left(cells, row - 1, col)
}

/// Whether the set has the upper right one.
fn has_upper_right(cells: &BTreeSet<Position>, row: usize, col: usize) -> bool
    ensures { result ≡ outline.upper_right (has cells.now.keys) row col }
{
    row > 0 && has_lower_right(cells, row - 1, col)
}

/// Whether the set has the lower left one.
fn has_lower_left(cells: &BTreeSet<Position>, row: usize, col: usize) -> bool
    ensures { result ≡ outline.lower_left (has cells.now.keys) row col }
{
    col > 0 && has_lower_right(cells, row, col - 1)
}

/// Whether the set has the lower right one.
fn has_lower_right(cells: &BTreeSet<Position>, row: usize, col: usize) -> bool
    ensures { result ≡ outline.lower_right (has cells.now.keys) row col }
{
    cells.contains(&Position::new(row, col))
}

/// The writes of the outline of a set of cells, with what a border gives and what stands where two of them touch at a corner
/// alone, as far as there is any: each edge and each crossing is written once.
pub(crate) fn outline_writes<T: Keep>(
    alloc: Global,
    cells: &BTreeSet<Position>,
    border: Option<&Border<T>>,
    diagonal: Option<&T>,
) -> Result<Vec<Write<T>>, OutOfMemory>
    ensures { IfOk result (λ writes. writes_made writes.items
        ≡ written_around cells.now.keys (drawn_with (option_copied border.entry) (option_copied diagonal.entry))) }
{
    match (border, diagonal) {
        (Some(border), _) => writes_around(alloc, cells, border, diagonal),
        (None, Some(_)) => writes_around(alloc, cells, &Border::empty(), diagonal),
        (None, None) => Ok(Vec::new(alloc)),
    }
}

/// The writes of the outline of a set of cells by a border.
fn writes_around<T: Keep>(
    alloc: Global,
    cells: &BTreeSet<Position>,
    border: &Border<T>,
    diagonal: Option<&T>,
) -> Result<Vec<Write<T>>, OutOfMemory>
    ensures { IfOk result (λ writes. writes_made writes.items
        ≡ written_around cells.now.keys (Some (record { border = border.now; diagonal = option_copied diagonal.entry }))) }
{
    let mut writes = Vec::new(alloc);
    for pos in cells {
        let near = Neighbors::of(cells, *pos);
        add_sides(&mut writes, *pos, near, border)?;
        add_corners(&mut writes, *pos, near, border, diagonal)?;
    }
    Ok(writes)
}

/// Adds the sides of a cell of the set that has these neighbors.
fn add_sides<T: Keep>(
    writes: &mut Vec<Write<T>>,
    pos: Position,
    near: Neighbors,
    border: &Border<T>,
) -> Result<(), OutOfMemory>
    ensures { OnOk result (writes_made writes.new.items ≡ writes_made writes.old.items
        ++ all_written (sides border.now near pos.row (line_after pos.row) pos.col (line_after pos.col))) }
{
    let (row, col, at) = (pos.row, pos.col, 0);
    let above = Place::Horizontal { row, col, at };
    let below = Place::Horizontal {
        row: line_after(row),
        col,
        at,
    };
    let left = Place::Vertical { row, col, at };
    let right = Place::Vertical {
        row,
        col: line_after(col),
        at,
    };
    add(writes, above, across_value(border, near.above, true))?;
    add(writes, below, across_value(border, true, near.below))?;
    add(writes, left, down_value(border, near.left, true))?;
    add(writes, right, down_value(border, true, near.right))
}

/// Adds the corners of a cell of the set that has these neighbors: those which no cell before it, in row order, shares.
fn add_corners<T: Keep>(
    writes: &mut Vec<Write<T>>,
    pos: Position,
    near: Neighbors,
    border: &Border<T>,
    diagonal: Option<&T>,
) -> Result<(), OutOfMemory>
    ensures { OnOk result (writes_made writes.new.items ≡ writes_made writes.old.items
        ++ all_written (corners (record { border = border.now; diagonal = option_copied diagonal.entry }) near pos.row (line_after pos.row) pos.col (line_after pos.col))) }
{
    let (row, col) = (pos.row, pos.col);
    let (below, right) = (line_after(row), line_after(col));
    let left_top = crossing_value(border, diagonal, (false, false), (false, true));
    let right_top = crossing_value(border, diagonal, (false, false), (true, near.right));
    let lower = (near.below_left, near.below);
    let left_bottom = crossing_value(border, diagonal, (false, true), lower);
    let lower = (near.below, near.below_right);
    let right_bottom = crossing_value(border, diagonal, (true, near.right), lower);
    let at = Place::Cross { row, col };
    add_unless(near.share_upper_left(), writes, at, left_top)?;
    let at = Place::Cross { row, col: right };
    add_unless(near.share_upper_right(), writes, at, right_top)?;
    let at = Place::Cross { row: below, col };
    add_unless(near.left, writes, at, left_bottom)?;
    let (row, col) = (below, right);
    add(writes, Place::Cross { row, col }, right_bottom)
}

/// Adds a write, unless it is left out.
fn add_unless<T: Keep>(
    left_out: bool,
    writes: &mut Vec<Write<T>>,
    place: Place,
    value: Option<&T>,
) -> Result<(), OutOfMemory>
    ensures { OnOk result (writes_made writes.new.items ≡ writes_made writes.old.items
        ++ all_written ((spot_of place, unless left_out (option_copied value.entry)) ∷ [])) }
{
    if left_out {
        Ok(())
    } else {
        add(writes, place, value)
    }
}

/// Adds the write of a copy of a value, if there is one.
fn add<T: Keep>(
    writes: &mut Vec<Write<T>>,
    place: Place,
    value: Option<&T>,
) -> Result<(), OutOfMemory>
    ensures { OnOk result (writes_made writes.new.items ≡ writes_made writes.old.items
        ++ all_written ((spot_of place, option_copied value.entry) ∷ [])) }
{
    if let Some(value) = value {
        let copy = value.keep(*writes.allocator())?;
        writes.push(Write {
            target: Some(Target::Cell(place)),
            value: Some(copy),
        })?;
    }
    Ok(())
}

/// What stands at an edge of a horizontal line, by whether the cell above it and the cell below it are in the set.
fn across_value<T>(border: &Border<T>, above: bool, below: bool) -> Option<&T>
    ensures { option_copied result ≡ outline.across_value border.now above below }
{
    match (above, below) {
        (false, true) => border.top.as_ref(),
        (true, false) => border.bottom.as_ref(),
        (false, false) => None,
        (true, true) => None,
    }
}

/// What stands at an edge of a vertical line, by the cell on its left and the cell on its right.
fn down_value<T>(border: &Border<T>, left: bool, right: bool) -> Option<&T>
    ensures { option_copied result ≡ outline.down_value border.now left right }
{
    match (left, right) {
        (false, true) => border.left.as_ref(),
        (true, false) => border.right.as_ref(),
        (false, false) => None,
        (true, true) => None,
    }
}

/// What stands at a crossing, by the two cells above it, left and right, and the two below.
fn crossing_value<'a, T>(
    border: &'a Border<T>,
    diagonal: Option<&'a T>,
    upper: (bool, bool),
    lower: (bool, bool),
) -> Option<&'a T>
    ensures { option_copied result ≡ outline.crossing_value (record { border = border.now; diagonal = option_copied diagonal.entry }) upper lower }
{
    match (upper, lower) {
        ((false, false), (false, true)) => border.left_top_corner.as_ref(),
        ((false, false), (true, false)) => border.right_top_corner.as_ref(),
        ((false, true), (false, false)) => border.left_bottom_corner.as_ref(),
        ((true, false), (false, false)) => border.right_bottom_corner.as_ref(),
        ((false, false), (true, true)) => border.top.as_ref(),
        ((true, true), (false, false)) => border.bottom.as_ref(),
        ((false, true), (false, true)) => border.left.as_ref(),
        ((true, false), (true, false)) => border.right.as_ref(),
        ((true, false), (false, true)) => {
            at_touch(
                diagonal,
                &border.left_top_corner,
                &border.right_bottom_corner,
            )
        }
        ((false, true), (true, false)) => {
            at_touch(
                diagonal,
                &border.right_top_corner,
                &border.left_bottom_corner,
            )
        }
        ((false, true), (true, true)) => border.right_bottom_corner.as_ref(),
        ((true, false), (true, true)) => border.left_bottom_corner.as_ref(),
        ((true, true), (false, true)) => border.right_top_corner.as_ref(),
        ((true, true), (true, false)) => border.left_top_corner.as_ref(),
        ((false, false), (false, false)) => None,
        ((true, true), (true, true)) => None,
    }
}

/// What stands where two cells touch at a corner alone: what is given for that, and where it is missing the first of two
/// corners that is given.
fn at_touch<'a, T>(
    diagonal: Option<&'a T>,
    first: &'a Option<T>,
    second: &'a Option<T>,
) -> Option<&'a T>
    ensures { option_copied result ≡ option_or (option_copied diagonal.entry) (option_or first.now second.now) }
{
    match diagonal {
        Some(value) => Some(value),
        None => first_given(first, second),
    }
}

/// The first one of two values, and where it is missing the other one.
fn first_given<'a, T>(first: &'a Option<T>, second: &'a Option<T>) -> Option<&'a T>
    ensures { option_copied result ≡ option_or first.now second.now }
{
    match first {
        Some(value) => Some(value),
        None => second.as_ref(),
    }
}
