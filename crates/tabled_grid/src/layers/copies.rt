//! A copy of a store.

ghost use Rattle.std.specs.Prelude.{◌≡◌, IfOk};

use super::Layers;
use crate::line_numbers::KeptNumbers;
use crate::{Borders, HorizontalLine, Keep, LineOf, OutOfMemory, Spot, VerticalLine};
use std::alloc::Global;
use tabled_kept::{CountedMap, One};
use tabled_places::EdgePlace;

/// What is kept under the index of a custom line.
type Lines<V> = CountedMap<usize, V>;

/// What is kept under an edge or a crossing.
type Cells<T> = CountedMap<Spot, T>;

/// What is kept under an edge and a number on it.
type Offsets<T> = CountedMap<EdgePlace, T>;

/// The copy keeps `alloc` for the calls that need memory. The pattern names each field, and the copies name their
/// types, so this does not compile over a store that has one field more, or a list in place of a value.
impl<T: Keep> Keep for Layers<T> {
    fn keep(&self, alloc: Global) -> Result<Self, OutOfMemory> {
        let Layers {
            alloc: _,
            default_value,
            class_record,
            vertical_lines,
            horizontal_lines,
            cells,
            horizontal_offsets,
            vertical_offsets,
            on_lines,
            vertical_numbers,
            horizontal_numbers,
        } = self;
        let lines: (Lines<VerticalLine<T>>, Lines<HorizontalLine<T>>) = keep_two(
            vertical_lines,
            horizontal_lines,
            alloc,
        )?;
        let cells: Cells<T> = cells.keep(alloc)?;
        let offsets: (Offsets<T>, Offsets<T>) = keep_two(
            horizontal_offsets,
            vertical_offsets,
            alloc,
        )?;
        let on_lines: CountedMap<LineOf, u128> = on_lines.keep(alloc)?;
        let below: (One<Option<T>>, One<Borders<T>>) = keep_two(
            default_value,
            class_record,
            alloc,
        )?;
        let numbers: (KeptNumbers, KeptNumbers) = keep_two(
            vertical_numbers,
            horizontal_numbers,
            alloc,
        )?;
        Ok(Layers {
            alloc,
            default_value: below.0,
            class_record: below.1,
            vertical_lines: lines.0,
            horizontal_lines: lines.1,
            cells,
            horizontal_offsets: offsets.0,
            vertical_offsets: offsets.1,
            on_lines,
            vertical_numbers: numbers.0,
            horizontal_numbers: numbers.1,
        })
    }
}

/// Copies of two values, or of neither.
fn keep_two<A: Keep, B: Keep>(first: &A, second: &B, alloc: Global) -> Result<(A, B), OutOfMemory>
    ensures { IfOk result (λ copies. copies ≡ (first.now, second.now)) }
{
    Ok((first.keep(alloc)?, second.keep(alloc)?))
}
