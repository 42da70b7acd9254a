//! The cells that an option speaks of.

ghost use Rattle.std.specs.Prelude.{◌≡◌, ◌+◌, ◌≤◌, ◌^◌};
ghost use Rattle.std.specs.Iterator.{YieldsFirst, item_count};
ghost use Rattle.std.specs.List.{range_with_len};
ghost use Rattle.tabled_object.specs.Entities.{cells_of, rectangle};

use crate::Position;
use std::marker::Model;

/// A set of cells, named by where they stand. Rows and columns are counted from 0.
#[derive(Clone, Copy, Debug, PartialEq, Eq, PartialOrd, Ord, Hash)]
pub enum Entity {
    /// Every cell.
    Global,
    /// The cells of one column.
    Column(usize),
    /// The cells of one row.
    Row(usize),
    /// One cell, by its row and its column.
    Cell(usize, usize),
}

impl Entity {
    /// Returns the cells of the entity in a table of the given numbers of rows and columns, in row order. A column, a row or a cell
    /// that is named outside the table is given all the same: its callers pass over what lies outside.
    pub fn iter(&self, count_rows: usize, count_cols: usize) -> EntityIterator
        ensures { result ≡ cells_of self.now count_rows count_cols }
    {
        // read first, so that the checker knows its numbers to fit
        let entity = *self;
        match entity {
            Entity::Global => EntityIterator::rectangle((0, count_rows), (0, count_cols)),
            Entity::Column(col) => EntityIterator::rectangle((0, count_rows), (col, 1)),
            Entity::Row(row) => EntityIterator::rectangle((row, 1), (0, count_cols)),
            Entity::Cell(row, col) => EntityIterator::rectangle((row, 1), (col, 1)),
        }
    }
}

/// The cells of an entity, one by one. In contracts it is the list of those that are left.
#[derive(Debug, Drop)]
pub struct EntityIterator {
    /// The row and the column of the next position, if this row has any left.
    row: usize,
    col: usize,
    /// How many columns this row has left.
    cols_left: usize,
    /// How many rows come after this one.
    rows_left: usize,
    /// The first column of each row, and how many columns each has.
    first_col: usize,
    cols: usize,
}

impl Model for EntityIterator {
    ghost use Rattle.std.specs.Prelude.{List, map, ◌+◌, ◌<◌, ◌≤◌, ◌^◌, ◌++◌};
    ghost use Rattle.std.specs.List.{range_with_len};
    ghost use Rattle.tabled_object.specs.declared.position.Position.{Position};
    ghost use Rattle.tabled_object.specs.Entities.{rectangle, position};

    ghost Value = { List Position };

    ghost view = { λ it. map (λ col. position it.row col) (range_with_len it.col it.cols_left)
        ++ rectangle (range_with_len (it.row + 1) it.rows_left) (range_with_len it.first_col it.cols) };

    ghost invariant = { λ it. (it.row + it.rows_left < 2 ^ 64) × (it.col + it.cols_left ≤ 2 ^ 64) × (it.first_col + it.cols ≤ 2 ^ 64)
        × (0 < it.rows_left → (0 < it.cols_left) × (0 < it.cols)) };
}

impl EntityIterator {
    /// The positions of the given numbers of rows and columns, each from a first one on.
    pub(crate) fn rectangle(rows: (usize, usize), cols: (usize, usize)) -> Self
        requires rows_fit { rows.0 + rows.1 ≤ 2 ^ 64 }
        requires cols_fit { cols.0 + cols.1 ≤ 2 ^ 64 }
        ensures { result ≡ rectangle (range_with_len rows.0 rows.1) (range_with_len cols.0 cols.1) }
    {
        let (row, row_count) = rows;
        let (col, col_count) = cols;
        if row_count == 0 || col_count == 0 {
            return EntityIterator {
                row: 0,
                col: 0,
                cols_left: 0,
                rows_left: 0,
                first_col: 0,
                cols: 0,
            };
        }
        EntityIterator {
            row,
            col,
            cols_left: col_count,
            rows_left: row_count - 1,
            first_col: col,
            cols: col_count,
        }
    }
}

impl Iterator for EntityIterator {
    type Item = Position;

    ghost next_gives = { YieldsFirst (λ rest. rest) };

    ghost remaining = { item_count (λ rest. rest) };

    fn next(&mut self) -> Option<Position> {
        if self.cols_left == 0 {
            return None;
        }
        let position = Position::new(self.row, self.col);
        self.cols_left -= 1;
        if self.cols_left > 0 {
            self.col += 1;
            return Some(position);
        }
        if self.rows_left > 0 {
            self.rows_left -= 1;
            self.row += 1;
            self.col = self.first_col;
            self.cols_left = self.cols;
        }
        Some(position)
    }
}
