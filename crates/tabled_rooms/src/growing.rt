//! Sizes that grow where what is shown over several of them asks for more.

ghost use Rattle.std.specs.Prelude.{◌≡◌, ℕ, ◌+◌, ◌-◌, ◌<◌, ◌≤◌, ◌==◌, ◌++◌, [], ◌∷◌, true, false, if◌then◌else◌, fold, map, length, slice_index, slice_index_or, IfOk, OnOk};
ghost use Rattle.std.specs.List.{range_with_len};
ghost use Rattle.tabled_rooms.specs.Growing.{is_over, size_part, room_over, share, grown_for, grown, over_count};

use crate::lines::{one_behind, sum_of};
use std::alloc::{AllocError, Global};

/// What is asked for over so many sizes, from number `first` on.
#[derive(Clone, Copy, Debug, PartialEq, Eq)]
pub struct Ask {
    /// The number of the first of the sizes.
    pub first: usize,
    /// Over how many it is asked.
    pub count: usize,
    /// How much is asked for.
    pub size: usize,
}

/// Whether something asks over some of so many sizes.
fn is_over(count: usize, ask: Ask) -> bool
    ensures { result ≡ is_over count ask }
{
    match ask.first.checked_add(ask.count) {
        Some(end) => 0 < ask.count && end <= count,
        None => false,
    }
}

/// How much room something has that asks over some sizes.
fn room_over(sizes: &[usize], drawn: &[bool], ask: Ask) -> Result<usize, AllocError>
    requires sizes { ask.first + ask.count ≤ length sizes.now }
    requires drawn { length sizes.now ≤ length drawn.now }
    ensures { IfOk result (λ room. room ≡ room_over sizes.now (λ n. slice_index_or drawn.now n false) ask) }
{
    let mut room = 0usize;
    for k in 0..ask.count {
        let n = ask.first + k;
        let part = sum_of(sizes[n], one_behind(ask.first, n, drawn[n]))?;
        room = sum_of(room, part)?;
    }
    Ok(room)
}

/// What a size gets of what is missing.
fn share_of(ask: Ask, missing: usize, n: usize) -> Result<usize, AllocError>
    requires several { 0 < ask.count }
    requires from { ask.first ≤ n }
    requires before { n < ask.first + ask.count }
    ensures { IfOk result (λ more. more ≡ share ask missing n) }
{
    let rest = if n == ask.first {
        missing % ask.count
    } else {
        0
    };
    sum_of(missing / ask.count, rest)
}

/// Spreads what is missing over the sizes over which something asks.
fn spread(sizes: &mut [usize], ask: Ask, missing: usize) -> Result<(), AllocError>
    requires several { 0 < ask.count }
    requires sizes { ask.first + ask.count ≤ length sizes.old }
    ensures { OnOk result (sizes.new ≡ map (λ n. slice_index sizes.old n + share ask missing n) (range_with_len 0 (length sizes.old))) }
{
    for k in 0..ask.count {
        let n = ask.first + k;
        sizes[n] = sum_of(sizes[n], share_of(ask, missing, n)?)?;
    }
    Ok(())
}

/// Makes sizes larger where something asks for more.
fn grow_for(sizes: &mut [usize], drawn: &[bool], ask: Ask) -> Result<(), AllocError>
    requires { length sizes.old ≤ length drawn.now }
    ensures { OnOk result (sizes.new ≡ grown_for (λ n. slice_index_or drawn.now n false) sizes.old ask) }
{
    if !is_over(sizes.len(), ask) {
        return Ok(());
    }
    let missing = ask.size.saturating_sub(room_over(sizes, drawn, ask)?);
    spread(sizes, ask, missing)
}

/// Makes sizes larger where some ask for more, one after another.
fn grow_for_each(sizes: &mut [usize], drawn: &[bool], asks: &[Ask]) -> Result<(), AllocError>
    requires { length sizes.old ≤ length drawn.now }
    ensures { OnOk result (sizes.new ≡ fold (grown_for (λ n. slice_index_or drawn.now n false)) sizes.old asks.now) }
{
    for ask in asks {
        grow_for(sizes, drawn, *ask)?;
    }
    Ok(())
}

/// Puts something that asks behind the others that ask over as many sizes.
fn put(lists: &mut [Vec<Ask>], ask: Ask) -> Result<(), AllocError>
    ensures count { length lists.new ≡ length lists.old }
    ensures put { OnOk result ((n : ℕ) → n < length lists.old → slice_index_or (map (λ list. list.items) lists.new) n []
        ≡ slice_index_or (map (λ list. list.items) lists.old) n [] ++ (if ask.count == n then ask ∷ [] else [])) }
{
    if ask.count < lists.len() {
        lists[ask.count].push(ask)?;
    }
    Ok(())
}

/// No lists, so many times.
fn no_lists(alloc: Global, limit: usize) -> Result<Vec<Vec<Ask>>, AllocError>
    ensures count { IfOk result (λ lists. length lists.items ≡ limit) }
    ensures none { IfOk result (λ lists. (n : ℕ) → n < limit → slice_index_or (map (λ list. list.items) lists.items) n [] ≡ []) }
{
    let mut lists = Vec::with_capacity(alloc, limit)?;
    for _ in 0..limit {
        lists.push(Vec::new(alloc))?;
    }
    Ok(lists)
}

/// The asks of some over as many sizes each, by how many these are.
fn by_count(alloc: Global, asks: &[Ask], limit: usize) -> Result<Vec<Vec<Ask>>, AllocError>
    ensures { IfOk result (λ lists. map (λ list. list.items) lists.items ≡ map (over_count asks.now) (range_with_len 0 limit)) }
{
    let mut lists = no_lists(alloc, limit)?;
    for ask in asks {
        put(&mut lists, *ask)?;
    }
    Ok(lists)
}

/// Makes sizes as large as some ask, where these are the lines before each that are drawn. Those that ask over fewer sizes come
/// first.
pub fn grow(
    alloc: Global,
    sizes: &mut [usize],
    drawn: &[bool],
    asks: &[Ask],
) -> Result<(), AllocError>
    requires { length sizes.old ≤ length drawn.now }
    ensures { OnOk result (sizes.new ≡ grown (λ n. slice_index_or drawn.now n false) sizes.old asks.now) }
{
    let lists = by_count(alloc, asks, sizes.len() + 1)?;
    for list in &lists {
        grow_for_each(sizes, drawn, list.as_slice())?;
    }
    Ok(())
}
