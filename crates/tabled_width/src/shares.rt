//! How columns that ask for more than there is share what there is.

ghost use Rattle.std.specs.Prelude.{◌≡◌, ℕ, ◌-◌, ◌≤◌, min, nat_le, sum, length, slice_index, if◌then◌else◌, IfOk, Some, None};
ghost use Rattle.tabled_width.specs.Shares.{used, IsCap, shared};

use std::alloc::Global;
use tabled_border::OutOfMemory;

/// What is left of the room if none of the columns takes more than the cap; `None` where they do not fit.
fn left_over(cap: usize, asked: &[usize], room: usize) -> Option<usize>
    ensures { result ≡ (if nat_le (used cap asked.now) room then Some (room - used cap asked.now) else None) }
{
    let mut left = room;
    for wanted in asked {
        let taken = cap.min(*wanted);
        if left < taken {
            return None;
        }
        left -= taken;
    }
    Some(left)
}

/// The greatest cap from `least` on with which the columns fit.
fn cap_of(asked: &[usize], room: usize, least: usize) -> usize
    ensures { IsCap least room asked.now result }
{
    let mut too_great = usize::MAX;
    if left_over(too_great, asked, room).is_some() {
        return too_great;
    }
    let mut cap = least;
    while too_great - cap > 1 {
        let middle = cap + (too_great - cap) / 2;
        if left_over(middle, asked, room).is_some() {
            cap = middle;
        } else {
            too_great = middle;
        }
    }
    cap
}

/// What each column gets up to a cap, and what is left over given one by one to the first columns that ask for more.
fn shared_out(
    alloc: Global,
    asked: &[usize],
    room: usize,
    least: usize,
) -> Result<Vec<usize>, OutOfMemory>
    ensures { IfOk result (λ shares. (cap : ℕ) × IsCap least room asked.now cap × (shares.items ≡ shared cap (room - used cap asked.now) asked.now)) }
{
    let cap = cap_of(asked, room, least);
    let mut left = left_over(cap, asked, room).unwrap_or(0);
    let mut shares = Vec::with_capacity(alloc, asked.len())?;
    for wanted in asked {
        if *wanted <= cap {
            shares.push(*wanted)?;
        } else {
            shares.push(cap + left.min(1))?;
            left = left.saturating_sub(1);
        }
    }
    Ok(shares)
}

/// Returns how many terminal columns each column of a table gets of the room that there is for all. Where not all get what they ask for,
/// each gets what it asks for up to a cap, the greatest for which there is room, and what is left over goes one by one to the first
/// columns that ask for more. Each gets `least` of them, or what it asks for, if that is less, even where there is no room for that.
///
/// `shares_of(alloc, &[3, 10, 20], 20, 1)?` is `[3, 9, 8]`, and with 9 and 4 in place of 20 and 1 it is `[3, 4, 4]`. Only memory can be
/// refused.
pub fn shares_of(
    alloc: Global,
    asked: &[usize],
    room: usize,
    least: usize,
) -> Result<Vec<usize>, OutOfMemory>
    ensures shares { IfOk result (λ shares. (cap : ℕ) × IsCap least room asked.now cap × (shares.items ≡ shared cap (room - used cap asked.now) asked.now)) }
    ensures count { IfOk result (λ shares. length shares.items ≡ length asked.now) }
    ensures asked { IfOk result (λ shares. sum shares.items ≤ sum asked.now) }
    ensures at_least { IfOk result (λ shares. (col : ℕ) → min least (slice_index asked.now col) ≤ slice_index shares.items col) }
    ensures fits { IfOk result (λ shares. used least asked.now ≤ room → sum shares.items ≤ room) }
{
    let shares = shared_out(alloc, asked, room, least)?;
    Ok(shares)
}
