//! How many rows and columns a table has.

ghost use Rattle.std.specs.Prelude.{◌≡◌, ℕ};

/// A table whose columns are counted.
pub trait Records {
    /// How many columns the value has as it stands.
    ghost column_count: { Self → ℕ };

    /// How many columns there are.
    fn count_columns(&self) -> usize
        ensures { result ≡ column_count self.now };
}

/// A table whose rows are counted too.
pub trait ExactRecords {
    /// How many rows the value has as it stands.
    ghost row_count: { Self → ℕ };

    /// How many rows there are.
    fn count_rows(&self) -> usize
        ensures { result ≡ row_count self.now };
}

/// A number of rows and a number of columns, where the cells themselves are not needed.
#[derive(Clone, Copy, Debug, PartialEq, Eq, PartialOrd, Ord, Hash)]
pub struct Shape {
    /// How many rows there are.
    pub rows: usize,
    /// How many columns there are.
    pub cols: usize,
}

impl Records for Shape {
    ghost column_count = { λ shape. shape.cols };

    fn count_columns(&self) -> usize {
        self.cols
    }
}

impl ExactRecords for Shape {
    ghost row_count = { λ shape. shape.rows };

    fn count_rows(&self) -> usize {
        self.rows
    }
}

/// The number of rows, and then that of columns.
impl From<(usize, usize)> for Shape {
    ghost from_gives = { λ pair result. (result.rows ≡ pair.0) × (result.cols ≡ pair.1) };

    fn from(pair: (usize, usize)) -> Self {
        let (rows, cols) = pair;
        Shape { rows, cols }
    }
}

/// The number of rows, and then that of columns. A crate that uses it lists `tabled_object`.
impl From<Shape> for (usize, usize) {
    ghost from_gives = { λ shape result. (result.0 ≡ shape.rows) × (result.1 ≡ shape.cols) };

    fn from(shape: Shape) -> Self {
        (shape.rows, shape.cols)
    }
}
