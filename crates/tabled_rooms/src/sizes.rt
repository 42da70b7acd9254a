//! How wide the columns are and how high the rows of a table whose cells span.

ghost use Rattle.std.specs.Prelude.{◌≡◌, ◌<◌, ◌≤◌, ◌+◌, ◌++◌, ℕ, [], max, false, length, map, slice_index, slice_index_or, replicate, ◌-◌, IfOk, OnOk};
ghost use Rattle.std.specs.List.{flat_map};
ghost use Rattle.tabled_rooms.specs.declared.host.Host.{Host as Kept};
ghost use Rattle.tabled_rooms.specs.Holding.{cell_of, AreAbove};
ghost use Rattle.tabled_rooms.specs.Sizes as sizes;
ghost use Rattle.tabled_rooms.specs.Sizes.{below, greatest, is_shown, columns_taken, alone, over_several, own_width, own_height, spanned_widths, spanned_heights};

use crate::growing::{Ask, grow};
use crate::host::{Host, next_hosts, no_hosts};
use crate::lines::add_at;
use crate::{CellSizes, CellSpans};
use std::alloc::{AllocError, Global};

/// Whether a host is the cell of a place.
fn is_shown(host: Host, row: usize, col: usize) -> bool
    ensures { result ≡ is_shown (cell_of host) row col }
{
    host.row == row && host.col == col
}

/// Counts the columns of a row that show the cell that is shown from each column on.
fn count_columns(counts: &mut [usize], hosts: &[Host]) -> Result<(), AllocError>
    requires { length hosts.now ≡ length counts.old }
    ensures count { length counts.new ≡ length counts.old }
    ensures counted { OnOk result ((c : ℕ) (none : Kept) → c < length counts.old
        → slice_index counts.new c ≡ columns_taken (λ k. cell_of (slice_index_or hosts.now k none)) (length hosts.now) c) }
{
    for count in counts.iter_mut() {
        *count = 0;
    }
    for host in hosts {
        add_at(counts, host.col, 1)?;
    }
    Ok(())
}

/// How wide a column is with a cell more, if the cell is shown there, over so many columns: over several it asks for them together.
fn ask_width<M: CellSizes>(
    width: usize,
    asks: &mut Vec<Ask>,
    cells: &M,
    place: (usize, usize),
    shown: bool,
    count: usize,
) -> Result<usize, AllocError>
    ensures width { IfOk result (λ wider. wider ≡ max width (alone shown count (M.width_at cells.now place.0 place.1))) }
    ensures asks { OnOk result (asks.new.items ≡ asks.old.items ++ over_several shown place.1 count (M.width_at cells.now place.0 place.1)) }
{
    let (row, first) = place;
    if !shown {
        return Ok(width);
    }
    if count == 1 {
        return cells.wider(row, first, width);
    }
    let size = cells.width(row, first)?;
    asks.push(Ask { first, count, size })?;
    Ok(width)
}

/// How high a row is with a cell more, if the cell is shown there, over so many rows: over several it asks for them together.
fn ask_height<M: CellSizes>(
    height: usize,
    asks: &mut Vec<Ask>,
    cells: &M,
    place: (usize, usize),
    shown: bool,
    count: usize,
) -> Result<usize, AllocError>
    ensures height { IfOk result (λ higher. higher ≡ max height (alone shown count (M.height_at cells.now place.0 place.1))) }
    ensures asks { OnOk result (asks.new.items ≡ asks.old.items ++ over_several shown place.0 count (M.height_at cells.now place.0 place.1)) }
{
    let (first, col) = place;
    if !shown {
        return Ok(height);
    }
    let size = cells.height(first, col)?;
    if count == 1 {
        return Ok(height.max(size));
    }
    asks.push(Ask { first, count, size })?;
    Ok(height)
}

/// Makes the columns as wide as the cells of a row ask, and notes what these ask for over several columns.
fn ask_widths<M: CellSizes>(
    widths: &mut [usize],
    asks: &mut Vec<Ask>,
    hosts: &[Host],
    counts: &[usize],
    cells: &M,
    row: usize,
) -> Result<(), AllocError>
    requires hosts { length hosts.now ≡ length widths.old }
    requires counts { length counts.now ≡ length widths.old }
    ensures widths { OnOk result ((c : ℕ) (none : Kept) → c < length widths.old → slice_index widths.new c
        ≡ max (slice_index widths.old c) (alone (is_shown (cell_of (slice_index_or hosts.now c none)) row c) (slice_index counts.now c) (M.width_at cells.now row c))) }
    ensures asks { OnOk result ((none : Kept) → asks.new.items ≡ asks.old.items ++ flat_map (λ c. over_several (is_shown (cell_of (slice_index_or hosts.now c none)) row c) c (slice_index counts.now c) (M.width_at cells.now row c)) (below (length hosts.now))) }
{
    for col in 0..hosts.len() {
        let shown = is_shown(hosts[col], row, col);
        let wider = ask_width(widths[col], asks, cells, (row, col), shown, counts[col])?;
        widths[col] = wider;
    }
    Ok(())
}

/// How high a row is for the cells that are shown in it alone, and what its cells ask for over several rows.
fn ask_heights<M: CellSizes>(
    asks: &mut Vec<Ask>,
    hosts: &[Host],
    cells: &M,
    row: usize,
) -> Result<usize, AllocError>
    ensures height { IfOk result (λ height. (none : Kept) → height ≡ greatest (map (λ c. alone (is_shown (cell_of (slice_index_or hosts.now c none)) row c) ((slice_index_or hosts.now c none).bottom - row) (M.height_at cells.now row c)) (below (length hosts.now)))) }
    ensures asks { OnOk result ((none : Kept) → asks.new.items ≡ asks.old.items ++ flat_map (λ c. over_several (is_shown (cell_of (slice_index_or hosts.now c none)) row c) row ((slice_index_or hosts.now c none).bottom - row) (M.height_at cells.now row c)) (below (length hosts.now))) }
{
    let mut high: usize = 0;
    for col in 0..hosts.len() {
        let host = hosts[col];
        let shown = is_shown(host, row, col);
        let count = host.bottom.saturating_sub(row);
        let higher = ask_height(high, asks, cells, (row, col), shown, count)?;
        high = higher;
    }
    Ok(high)
}

/// Notes what the cells of all rows ask for. `hosts` and `counts` are room for those of a row.
fn ask_rows<S: CellSpans, M: CellSizes>(
    hosts: &mut [Host],
    counts: &mut [usize],
    widths: &mut [usize],
    heights: &mut [usize],
    over_columns: &mut Vec<Ask>,
    over_rows: &mut Vec<Ask>,
    spans: &S,
    cells: &M,
    shape: (usize, usize),
) -> Result<(), AllocError>
    requires hosts { length hosts.old ≡ shape.1 }
    requires counts { length counts.old ≡ shape.1 }
    requires widths { length widths.old ≡ shape.1 }
    requires above { AreAbove (S.columns_at spans.now) (S.rows_at spans.now) shape 0 hosts.old }
    requires no_width { (c : ℕ) → c < shape.1 → slice_index widths.old c ≡ 0 }
    requires heights { length heights.old ≡ shape.0 }
    requires no_columns { over_columns.old.items ≡ [] }
    requires no_rows { over_rows.old.items ≡ [] }
    ensures widths { OnOk result ((c : ℕ) → c < shape.1 → slice_index widths.new c ≡ own_width (S.columns_at spans.now) (S.rows_at spans.now) shape (M.width_at cells.now) c) }
    ensures columns { OnOk result (over_columns.new.items ≡ flat_map (sizes.over_columns (S.columns_at spans.now) (S.rows_at spans.now) shape (M.width_at cells.now)) (below shape.0)) }
    ensures heights { OnOk result ((r : ℕ) → r < shape.0 → slice_index heights.new r ≡ own_height (S.columns_at spans.now) (S.rows_at spans.now) shape (M.height_at cells.now) r) }
    ensures rows { OnOk result (over_rows.new.items ≡ flat_map (sizes.over_rows (S.columns_at spans.now) (S.rows_at spans.now) shape (M.height_at cells.now)) (below shape.0)) }
{
    let (rows, _) = shape;
    for row in 0..rows {
        next_hosts(hosts, spans, row, shape);
        count_columns(counts, hosts)?;
        ask_widths(widths, over_columns, hosts, counts, cells, row)?;
        let high = ask_heights(over_rows, hosts, cells, row)?;
        heights[row] = high;
    }
    Ok(())
}

/// Finds how wide each column is, and how high each row: these lists have a zero for each.
fn find_sizes<S: CellSpans, M: CellSizes>(
    alloc: Global,
    spans: &S,
    cells: &M,
    shape: (usize, usize),
    sides: &[bool],
    lines: &[bool],
    widths: &mut [usize],
    heights: &mut [usize],
) -> Result<(), AllocError>
    requires sides { shape.1 ≤ length sides.now }
    requires lines { shape.0 ≤ length lines.now }
    requires widths { length widths.old ≡ shape.1 }
    requires heights { length heights.old ≡ shape.0 }
    requires no_width { (c : ℕ) → c < shape.1 → slice_index widths.old c ≡ 0 }
    ensures widths { OnOk result (widths.new ≡ spanned_widths (S.columns_at spans.now) (S.rows_at spans.now) shape (M.width_at cells.now) (λ n. slice_index_or sides.now n false)) }
    ensures heights { OnOk result (heights.new ≡ spanned_heights (S.columns_at spans.now) (S.rows_at spans.now) shape (M.height_at cells.now) (λ n. slice_index_or lines.now n false)) }
{
    let (_, cols) = shape;
    let mut hosts = no_hosts(alloc, cols)?;
    let mut counts = vec![in alloc; 0usize; cols]?;
    let mut over_columns = Vec::new(alloc);
    let mut over_rows = Vec::new(alloc);
    ask_rows(
        &mut hosts,
        &mut counts,
        widths,
        heights,
        &mut over_columns,
        &mut over_rows,
        spans,
        cells,
        shape,
    )?;
    grow(alloc, widths, sides, &over_columns)?;
    grow(alloc, heights, lines, &over_rows)?;
    Ok(())
}

/// Returns how wide each column is, and how high each row, where these are the vertical and the horizontal lines that are drawn.
pub fn spanned_sizes<S: CellSpans, M: CellSizes>(
    alloc: Global,
    spans: &S,
    cells: &M,
    shape: (usize, usize),
    sides: &[bool],
    lines: &[bool],
) -> Result<(Vec<usize>, Vec<usize>), AllocError>
    requires sides { shape.1 ≤ length sides.now }
    requires lines { shape.0 ≤ length lines.now }
    ensures widths { IfOk result (λ sizes. sizes.0.items ≡ spanned_widths (S.columns_at spans.now) (S.rows_at spans.now) shape (M.width_at cells.now) (λ n. slice_index_or sides.now n false)) }
    ensures heights { IfOk result (λ sizes. sizes.1.items ≡ spanned_heights (S.columns_at spans.now) (S.rows_at spans.now) shape (M.height_at cells.now) (λ n. slice_index_or lines.now n false)) }
    ensures columns { IfOk result (λ sizes. length sizes.0.items ≡ shape.1) }
    ensures rows { IfOk result (λ sizes. length sizes.1.items ≡ shape.0) }
{
    let (rows, cols) = shape;
    let mut widths = vec![in alloc; 0usize; cols]?;
    let mut heights = vec![in alloc; 0usize; rows]?;
    find_sizes(
        alloc,
        spans,
        cells,
        shape,
        sides,
        lines,
        &mut widths,
        &mut heights,
    )?;
    Ok((widths, heights))
}
