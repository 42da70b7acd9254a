//! How wide and how high rooms are, and which lines of a table begin its rows.

ghost use Rattle.std.specs.Prelude.{◌≡◌, ◌<◌, ◌≤◌, ◌+◌, ℕ, length, map, slice_index, slice_index_or, false, if◌then◌else◌, ◌==◌, ◌&&◌, nat_lt, min, IfOk, OnOk};
ghost use Rattle.std.specs.List.{range_with_len};
ghost use Rattle.tabled_rooms.specs.declared.host.Host.{Host as Kept};
ghost use Rattle.tabled_rooms.specs.Holding.{cell_of};
ghost use Rattle.tabled_rooms.specs.Rooms.{first_line, room_width, one_if};

use crate::Host;
use std::alloc::{AllocError, Global};

/// 1 where a line is drawn.
fn one_if(drawn: bool) -> usize
    ensures { result ≡ one_if drawn }
{
    if drawn { 1 } else { 0 }
}

/// 1 where a line is drawn that stands behind the first one.
pub(crate) fn one_behind(first: usize, line: usize, drawn: bool) -> usize
    ensures { result ≡ one_if (nat_lt first line && drawn) }
{
    if first < line { one_if(drawn) } else { 0 }
}

/// The sum of two numbers. Refused where no number says it: no memory holds so many characters.
pub(crate) fn sum_of(first: usize, second: usize) -> Result<usize, AllocError>
    ensures { IfOk result (λ sum. sum ≡ first + second) }
{
    first.checked_add(second).ok_or(AllocError)
}

/// Returns which line of a table begins each row, where the lines below the top line have the numbers from 0 on: first row 0, and last
/// one past the last row. Refused where no number says how high the table is.
pub fn first_lines(
    alloc: Global,
    heights: &[usize],
    drawn: &[bool],
) -> Result<Vec<usize>, AllocError>
    requires { length drawn.now ≡ length heights.now + 1 }
    ensures lines { IfOk result (λ lines. lines.items ≡ map (first_line (slice_index heights.now) (λ r. slice_index_or drawn.now r false)) (range_with_len 0 (length heights.now + 1))) }
    ensures within { IfOk result (λ lines. slice_index lines.items (length heights.now) ≤ 18446744073709551615) }
{
    let mut lines = Vec::new(alloc);
    let mut next = 0usize;
    lines.push(next)?;
    for row in 0..heights.len() {
        let high = sum_of(heights[row], one_if(drawn[row + 1]))?;
        next = sum_of(next, high)?;
        lines.push(next)?;
    }
    Ok(lines)
}

/// Adds to one of some numbers, if there is such a one.
pub(crate) fn add_at(numbers: &mut [usize], at: usize, more: usize) -> Result<(), AllocError>
    ensures count { length numbers.new ≡ length numbers.old }
    ensures added { OnOk result ((n : ℕ) → n < length numbers.old → slice_index numbers.new n ≡ slice_index numbers.old n + (if at == n then more else 0)) }
{
    if at < numbers.len() {
        numbers[at] = sum_of(numbers[at], more)?;
    }
    Ok(())
}

/// Adds to one of some numbers, if there is such a one: at most up to the greatest number.
fn raise_at(numbers: &mut [usize], at: usize, more: usize)
    ensures count { length numbers.new ≡ length numbers.old }
    ensures raised { (n : ℕ) → n < length numbers.old → slice_index numbers.new n ≡ min (slice_index numbers.old n + (if at == n then more else 0)) usize.MAX }
{
    if at < numbers.len() {
        numbers[at] = numbers[at].saturating_add(more);
    }
}

/// Finds how wide the room is that begins in each column of a row, by its hosts: 0 where none begins, and at most the greatest number.
pub fn room_widths(wides: &mut [usize], hosts: &[Host], widths: &[usize], drawn: &[bool])
    requires widths { length hosts.now ≤ length widths.now }
    requires drawn { length hosts.now ≤ length drawn.now }
    ensures count { length wides.new ≡ length wides.old }
    ensures wide { (first : ℕ) (none : Kept) → first < length wides.old
        → slice_index wides.new first ≡ min (room_width (slice_index widths.now) (λ c. slice_index_or drawn.now c false) (λ c. cell_of (slice_index_or hosts.now c none)) (length hosts.now) first) usize.MAX }
{
    for wide in wides.iter_mut() {
        *wide = 0;
    }
    for col in 0..hosts.len() {
        let first = hosts[col].col;
        let part = widths[col].saturating_add(one_behind(first, col, drawn[col]));
        raise_at(wides, first, part);
    }
}
