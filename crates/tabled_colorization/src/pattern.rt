//! What is colored, and in which order.

/// What is colored, and in which order the colors are given.
#[derive(Clone, Copy, Debug, PartialEq, Eq)]
pub(crate) enum Pattern {
    /// Each column as a whole.
    Columns,
    /// Each row as a whole.
    Rows,
    /// Each cell, row by row.
    ByRow,
    /// Each cell, column by column.
    ByColumn,
    /// Each cell, by the sum of its row and its column.
    Chess,
}
