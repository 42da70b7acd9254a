//! Records that are filled up, and new ones.

ghost use Rattle.std.specs.Prelude.{◌≡◌, ◌<◌, [], IfOk, OnOk, map, max, replicate, length};
ghost use Rattle.tabled_cells.specs.TextsBy.{texts_by};
ghost use Rattle.tabled_width.specs.Texts.{texts};
ghost use Rattle.tabled_rows.specs.Rows.{HasRoom, filled_to};
ghost use Rattle.tabled_builder.specs.Records.{columns};

use std::alloc::Global;
use std::convert::AsStr;
use tabled_border::OutOfMemory;

/// Returns how many texts the longest of records has.
pub fn columns_of<T: AsStr>(records: &[Vec<T>]) -> usize
    ensures { result ≡ columns (texts_by T.text records.now) }
{
    records.iter().map(|record| record.len()).max().unwrap_or(0)
}

/// The given number of records without texts, each with room for texts up to a number of them, and for one more.
pub(crate) fn new_records(
    alloc: Global,
    count: usize,
    width: usize,
) -> Result<Vec<Vec<String>>, OutOfMemory>
    ensures texts { IfOk result (λ records. texts records.items ≡ replicate count []) }
    ensures room { IfOk result (λ records. HasRoom width records.items) }
{
    let mut records = Vec::with_capacity(alloc, count)?;
    for _ in 0..count {
        records.push(Vec::with_capacity(alloc, width.saturating_add(1))?)?;
    }
    Ok(records)
}
