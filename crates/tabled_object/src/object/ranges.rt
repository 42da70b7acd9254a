//! Ranges of rows and of columns, one by one.

ghost use Rattle.std.specs.Prelude.{◌≡◌, ℕ, ◌+◌, ◌^◌, ◌<◌, ◌≤◌, ◌&&◌, nat_le, nat_lt, map};
ghost use Rattle.std.specs.Iterator.{YieldsFirst, item_count};
ghost use Rattle.std.specs.Range.Bound.{start_index, bound_map};
ghost use Rattle.tabled_object.specs.Ranges.{contains, is_from, is_up_to, line_of, numbers_on_step};

use crate::Entity;
use std::marker::Model;
use std::ops::Bound;

/// A bound of its own for one that is lent.
pub(crate) fn own_bound(bound: Bound<&usize>) -> Bound<usize>
    ensures { result ≡ bound_map (λ n. n.now) bound.entry }
{
    match bound {
        Bound::Included(&number) => Bound::Included(number),
        Bound::Excluded(&number) => Bound::Excluded(number),
        Bound::Unbounded => Bound::Unbounded,
    }
}

/// The first number of a range; the greatest number where it would be one more.
fn first_of(start: Bound<usize>) -> usize
    ensures from { (n : ℕ) → n + 1 < 2 ^ 64 → is_from start n ≡ nat_le result n }
    ensures index { result + 1 < 2 ^ 64 → result ≡ start_index start }
{
    match start {
        Bound::Included(first) => first,
        Bound::Excluded(before) => before.saturating_add(1),
        Bound::Unbounded => 0,
    }
}

/// The number past the last of a range; the greatest number where there is none, or where it would be one more.
fn end_of(end: Bound<usize>) -> usize
    ensures { (n : ℕ) → n + 1 < 2 ^ 64 → is_up_to end n ≡ nat_lt n result }
{
    match end {
        Bound::Included(last) => last.saturating_add(1),
        Bound::Excluded(end) => end,
        Bound::Unbounded => usize::MAX,
    }
}

/// The first of the numbers below a count that a range contains, and the number past the last of them.
pub(crate) fn ends_within(start: Bound<usize>, end: Bound<usize>, count: usize) -> (usize, usize)
    ensures in_order { result.0 ≤ result.1 }
    ensures within { result.1 ≤ count }
    ensures inside { (n : ℕ) → n < count → contains start end n ≡ (nat_le result.0 n && nat_lt n result.1) }
    ensures index { result.0 < result.1 → result.0 ≡ start_index start }
{
    let past = end_of(end).min(count);
    (first_of(start).min(past), past)
}

/// A row, or else a column.
fn line(is_row: bool, number: usize) -> Entity
    ensures { result ≡ line_of is_row number }
{
    if is_row {
        Entity::Row(number)
    } else {
        Entity::Column(number)
    }
}

/// Rows or columns of a range, one by one. In contracts it is the list of those that are left.
#[derive(Debug, Drop)]
pub struct RangeIterator {
    /// Whether they are rows, and else columns.
    are_rows: bool,
    /// The number of the next one, if it is below the end.
    next: usize,
    /// The number past the last one.
    end: usize,
    /// How far they are apart, at least 1.
    step: usize,
}

impl Model for RangeIterator {
    ghost use Rattle.std.specs.Prelude.{List, map, ◌<◌};
    ghost use Rattle.tabled_object.specs.declared.entity.Entity.{Entity};
    ghost use Rattle.tabled_object.specs.Ranges.{line_of, stepped};

    ghost Value = { List Entity };

    ghost view = { λ it. map (line_of it.are_rows) (stepped it.next it.step it.end) };

    ghost invariant = { λ it. 0 < it.step };
}

impl RangeIterator {
    /// Those of so many rows, or columns, that a range contains in steps.
    pub(crate) fn new(
        are_rows: bool,
        start: Bound<usize>,
        end: Bound<usize>,
        step: usize,
        count: usize,
    ) -> Self
        ensures { result ≡ map (line_of are_rows) (numbers_on_step start end step count) }
    {
        if step == 0 {
            return RangeIterator {
                are_rows,
                next: 0,
                end: 0,
                step: 1,
            };
        }
        let (next, end) = ends_within(start, end, count);
        RangeIterator {
            are_rows,
            next,
            end,
            step,
        }
    }
}

impl Iterator for RangeIterator {
    type Item = Entity;

    ghost next_gives = { YieldsFirst (λ rest. rest) };

    ghost remaining = { item_count (λ rest. rest) };

    fn next(&mut self) -> Option<Entity> {
        if self.next >= self.end {
            return None;
        }
        let number = self.next;
        self.next = number.saturating_add(self.step);
        Some(line(self.are_rows, number))
    }
}
