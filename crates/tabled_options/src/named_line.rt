//! Which line of a table an object names.

ghost use Rattle.std.specs.Prelude.{◌≡◌, ℕ, Option};
ghost use Rattle.tabled_places.specs.declared.place.LineOf.{LineOf};
ghost use Rattle.tabled_options.specs.NamedLine.{row_line, column_line, last_row_line, last_column_line, before_last};

use tabled_grid::LineOf as Line;
use tabled_object::{
    Column, FirstColumn, FirstRow, LastColumn, LastColumnOffset, LastRow, LastRowOffset, Row,
};

/// An object that names one line of a table: the horizontal line above one row, or the vertical line left of one column.
/// A row may be named, or a column, that is one past the last: it names the line that closes the table.
pub trait NamedLine {
    /// The line that the object names in a table of the given numbers of rows and columns, if there is one.
    ghost line_of: { Self → ℕ × ℕ → Option LineOf };

    /// The line that the object names in a table of `shape.0` rows and `shape.1` columns, if there is one.
    fn line(&self, shape: (usize, usize)) -> Option<Line>
        ensures { result ≡ line_of self.now shape };
}

impl NamedLine for Row {
    ghost line_of = { λ row shape. row_line row.index };

    fn line(&self, _shape: (usize, usize)) -> Option<Line> {
        Some(Line::Horizontal(self.index))
    }
}

impl NamedLine for FirstRow {
    ghost line_of = { λ row shape. row_line 0 };

    fn line(&self, _shape: (usize, usize)) -> Option<Line> {
        Some(Line::Horizontal(0))
    }
}

impl NamedLine for LastRow {
    ghost line_of = { λ row shape. last_row_line 0 shape };

    fn line(&self, shape: (usize, usize)) -> Option<Line> {
        before_last(shape.0, 0).map(Line::Horizontal)
    }
}

impl NamedLine for LastRowOffset {
    ghost line_of = { λ row shape. last_row_line row.offset shape };

    fn line(&self, shape: (usize, usize)) -> Option<Line> {
        before_last(shape.0, self.offset).map(Line::Horizontal)
    }
}

impl NamedLine for Column {
    ghost line_of = { λ column shape. column_line column.index };

    fn line(&self, _shape: (usize, usize)) -> Option<Line> {
        Some(Line::Vertical(self.index))
    }
}

impl NamedLine for FirstColumn {
    ghost line_of = { λ column shape. column_line 0 };

    fn line(&self, _shape: (usize, usize)) -> Option<Line> {
        Some(Line::Vertical(0))
    }
}

impl NamedLine for LastColumn {
    ghost line_of = { λ column shape. last_column_line 0 shape };

    fn line(&self, shape: (usize, usize)) -> Option<Line> {
        before_last(shape.1, 0).map(Line::Vertical)
    }
}

impl NamedLine for LastColumnOffset {
    ghost line_of = { λ column shape. last_column_line column.offset shape };

    fn line(&self, shape: (usize, usize)) -> Option<Line> {
        before_last(shape.1, self.offset).map(Line::Vertical)
    }
}

/// Of `count` numbers, counted from 0, the one that has `offset` of them after it, if there is one.
fn before_last(count: usize, offset: usize) -> Option<usize>
    ensures { result ≡ before_last count offset }
{
    count.checked_sub(1)?.checked_sub(offset)
}
