//! Which cells spans cover.

ghost use Rattle.std.specs.Prelude.{◌≡◌};
ghost use Rattle.tabled_layout.specs.Covering.{within_columns, within_rows, within_its_rows, covered_by_column_span, covered_by_row_span, covered_by_both_spans, covered_from_row, has_span};

use crate::Spans;
use tabled_object::Position;

/// Whether a cell stands at the right of a position, within the given number of columns.
fn is_within_columns(position: Position, count: usize, cell: Position) -> bool
    ensures { result ≡ within_columns (position, count) cell }
{
    position.col < cell.col && cell.col - position.col < count
}

/// Whether a cell stands below a position, within the given number of rows.
fn is_within_rows(position: Position, count: usize, cell: Position) -> bool
    ensures { result ≡ within_rows (position, count) cell }
{
    position.row < cell.row && cell.row - position.row < count
}

impl Spans {
    /// Returns whether one of the first `count` cells of a row spans.
    pub fn has_some(&self, row: usize, count: usize) -> bool
        ensures { result ≡ has_span self.now row count }
    {
        self.in_row(row, 0, count).any(|_| true)
    }

    /// Whether, as spans of several columns, they cover a cell: it stands at the right of one in its row.
    pub fn cover_in_row(&self, cell: Position) -> bool
        ensures { result ≡ covered_by_column_span self.now cell }
    {
        let first = self.first_reaching(cell.col);
        let mut spans = self.in_row(cell.row, first, cell.col);
        spans.any(|(position, count)| is_within_columns(*position, *count, cell))
    }

    /// Whether, as spans of several rows, they cover a cell: it stands below one in its column. Looks up the rows from
    /// which one can reach it, or reads all spans, whichever are fewer.
    pub fn cover_in_column(&self, cell: Position) -> bool
        ensures { result ≡ covered_by_row_span self.now cell }
    {
        let mut rows = self.first_reaching(cell.row)..cell.row;
        if rows.len() < self.as_map().len() {
            return rows.any(|row| self.reach_below(Position::new(row, cell.col), cell));
        }
        self.one_covers_in_column(cell)
    }

    /// Whether, as spans of several columns, they cover a cell together with spans of several rows: it stands below and
    /// at the right of a position that has both, inside both. Looks into the rows from which one can reach it, or reads
    /// all spans, whichever are fewer.
    pub fn cover_with(&self, rows: &Spans, cell: Position) -> bool
        ensures { result ≡ covered_by_both_spans self.now rows.now cell }
    {
        let mut above = rows.first_reaching(cell.row)..cell.row;
        if above.len() < self.as_map().len() {
            return above.any(|row| self.cover_from_row(rows, row, cell));
        }
        self.one_covers_with(rows, cell)
    }

    /// What `cover_in_column` answers, by reading all spans.
    fn one_covers_in_column(&self, cell: Position) -> bool
        ensures { result ≡ covered_by_row_span self.now cell }
    {
        self.as_map().iter().any(|(position, count)| {
            cell.col == position.col && is_within_rows(*position, *count, cell)
        })
    }

    /// What `cover_with` answers, by reading all spans.
    fn one_covers_with(&self, rows: &Spans, cell: Position) -> bool
        ensures { result ≡ covered_by_both_spans self.now rows.now cell }
    {
        self.as_map().iter().any(|(position, count)| {
            is_within_columns(*position, *count, cell) && rows.reach_below(*position, cell)
        })
    }

    /// What `cover_with` answers of the positions of one row alone.
    fn cover_from_row(&self, rows: &Spans, row: usize, cell: Position) -> bool
        ensures { result ≡ covered_from_row self.now rows.now row cell }
    {
        let first = self.first_reaching(cell.col);
        self.in_row(row, first, cell.col).any(|(position, count)| {
            is_within_columns(*position, *count, cell) && rows.reach_below(*position, cell)
        })
    }

    /// Whether a cell stands below a position, within the rows that it spans, if it spans several.
    fn reach_below(&self, position: Position, cell: Position) -> bool
        ensures { result ≡ within_its_rows self.now position cell }
    {
        is_within_rows(position, self.get(position).unwrap_or(0), cell)
    }
}
