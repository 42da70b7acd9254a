//! The cell that is shown at each place of a row.

ghost use Rattle.std.specs.Prelude.{◌≡◌, ◌<◌, ◌≤◌, ◌+◌, ◌==◌, ◌&&◌, nat_lt, min, false, length, replicate, Option, IfOk};
ghost use Rattle.tabled_rooms.specs.Hosts.{Cell, shown_from};
ghost use Rattle.tabled_rooms.specs.Holding.{held, Holds, IsOneCell, AreAbove, AreHosts};

use crate::CellSpans;
use std::alloc::{AllocError, Global};

/// A cell that is shown, and where what it takes ends: before which row and which column, as far as the table goes.
#[derive(Clone, Copy, Debug, PartialEq, Eq)]
pub struct Host {
    /// The row of the host, counted from 0.
    pub row: usize,
    /// The column of the host, counted from 0.
    pub col: usize,
    /// The row before which it ends.
    pub bottom: usize,
    /// The column before which it ends.
    pub right: usize,
}

/// None: it reaches nowhere.
const NONE: Host = Host {
    row: 0,
    col: 0,
    bottom: 0,
    right: 0,
};

/// Returns a row of no hosts, for so many columns: there is no row above the first one.
pub fn no_hosts(alloc: Global, cols: usize) -> Result<Vec<Host>, AllocError>
    ensures count { IfOk result (λ hosts. length hosts.items ≡ cols) }
    ensures none { IfOk result (λ hosts. hosts.items ≡ replicate cols NONE) }
{
    vec![in alloc; NONE; cols]
}

/// Makes the hosts of the row above those of a row, in as many columns as there are hosts. A cell asks for its spans only where it begins,
/// in a row in which one may span.
pub fn next_hosts<S: CellSpans>(hosts: &mut [Host], spans: &S, row: usize, shape: (usize, usize))
    requires row { row < shape.0 }
    requires count { length hosts.old ≤ shape.1 }
    requires above { AreAbove (S.columns_at spans.now) (S.rows_at spans.now) shape row hosts.old }
    ensures hosts { AreHosts (S.columns_at spans.now) (S.rows_at spans.now) shape row hosts.new }
{
    if hosts.is_empty() {
        return;
    }
    let may_span = spans.may_span(row, hosts.len());
    let mut left = NONE;
    for col in 0..hosts.len() {
        let above = hosts[col];
        left = host_at(above, left, spans, may_span, (row, col), shape);
        hosts[col] = left;
    }
}

/// The host of a place, by the one above and the one at its left, where it is known whether a cell of the row may span.
fn host_at<S: CellSpans>(
    above: Host,
    left: Host,
    spans: &S,
    may_span: bool,
    place: (usize, usize),
    shape: (usize, usize),
) -> Host
    requires row { place.0 < shape.0 }
    requires col { place.1 < shape.1 }
    requires alone { may_span ≡ false → IsOneCell (S.columns_at spans.now) (S.rows_at spans.now) place }
    ensures { (up beside : Option Cell) → Holds (S.columns_at spans.now) (S.rows_at spans.now) shape up above → Holds (S.columns_at spans.now) (S.rows_at spans.now) shape beside left
        → result ≡ held (S.columns_at spans.now) (S.rows_at spans.now) shape (shown_from (S.columns_at spans.now) (S.rows_at spans.now) up beside place.0 place.1) }
{
    let (row, col) = place;
    if row < above.bottom {
        return above;
    }
    if goes_on(left, row, col) {
        return left;
    }
    begun(spans, may_span, row, col, shape.0, shape.1)
}

/// Whether what is shown at the left begins in a row and reaches to a column.
fn goes_on(left: Host, row: usize, col: usize) -> bool
    ensures { result ≡ ((left.row == row) && nat_lt col left.right) }
{
    left.row == row && col < left.right
}

/// A cell that is shown from its own place on, in a table of so many rows and columns.
fn begun<S: CellSpans>(
    spans: &S,
    may_span: bool,
    row: usize,
    col: usize,
    rows: usize,
    cols: usize,
) -> Host
    requires { may_span ≡ false → IsOneCell (S.columns_at spans.now) (S.rows_at spans.now) (row, col) }
    ensures { result ≡ held (S.columns_at spans.now) (S.rows_at spans.now) (rows, cols) (row, col) }
{
    let (down, right) = if may_span {
        (spans.rows(row, col), spans.columns(row, col))
    } else {
        (1, 1)
    };
    Host {
        row,
        col,
        bottom: end_of(row, down, rows),
        right: end_of(col, right, cols),
    }
}

/// Where something ends that is so long, but no later than at a limit.
fn end_of(start: usize, count: usize, limit: usize) -> usize
    ensures { result ≡ min (start + count) limit }
{
    start.saturating_add(count).min(limit)
}
