//! Copies of all values of a list, and of an ordered map.

ghost use Rattle.std.specs.Prelude.{◌≡◌, IfOk};
ghost use Rattle.std.specs.List.Sorted.{IsStrictlySortedBy};
ghost use Rattle.std.specs.Map.{keys_of};

use std::alloc::Global;
use std::collections::BTreeMap;
use tabled_border::{Keep, OutOfMemory};
use tabled_keys::Key;

/// Copies of all values, in their order, or of none.
pub(crate) fn copies<V: Keep>(values: &[V], alloc: Global) -> Result<Vec<V>, OutOfMemory>
    ensures { IfOk result (λ copies. copies.items ≡ values.now) }
{
    let mut copies = Vec::with_capacity(alloc, values.len())?;
    for value in values {
        copies.push(value.keep(alloc)?)?;
    }
    Ok(copies)
}

/// Copies of all entries of an ordered map, whose memory comes from `alloc`.
pub(crate) fn copy_of<K: Key, V: Keep>(
    entries: &BTreeMap<K, V>,
    alloc: Global,
) -> Result<BTreeMap<K, V>, OutOfMemory>
    ensures { IfOk result (λ copy. copy.entries ≡ entries.now.entries) }
{
    let mut copies = Vec::with_capacity(alloc, entries.len())?;
    for (key, value) in entries {
        copies.push((*key, value.keep(alloc)?))?;
    }
    map_of(copies, alloc)
}

/// The ordered map of entries in rising order, made at once and without a search. Its memory comes from `alloc`.
pub(crate) fn map_of<K: Key, V: Drop>(
    entries: Vec<(K, V)>,
    alloc: Global,
) -> Result<BTreeMap<K, V>, OutOfMemory>
    requires { IsStrictlySortedBy K.cmp (keys_of entries.items) }
    ensures { IfOk result (λ made. made.entries ≡ entries.items) }
{
    Ok(BTreeMap::from_iter(alloc, entries)?)
}
