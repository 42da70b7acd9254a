//! Columns that are set by what their texts are.

ghost use Rattle.std.specs.Prelude.{◌≡◌, OnOk, OnErr};
ghost use Rattle.tabled_configuration.specs.Colored.{Changes};
ghost use Rattle.tabled_measure.specs.Numeric.{at_right, numeric_columns};

use super::Table;
use std::convert::AsStr;
use tabled_border::OutOfMemory;
use tabled_measure::numeric::{numeric_columns, set_at_right};

impl<T: AsStr + Drop> Table<T> {
    /// Sets the texts of columns of numbers at the right: each cell of such a column below the first `headings` rows is a number, as
    /// `tabled_numbers::is_number` says, or says that there is none, as one that is empty, "-", "n/a", "null" or "nan", in large or small
    /// letters; and one of them at least is a number. Where memory is refused the table is as it was.
    ///
    /// `table.align_numbers(1)?`:
    ///
    /// ```text
    ///  name   age
    ///  Alice   30
    ///  Bob      7
    /// ```
    pub fn align_numbers(&mut self, headings: usize) -> Result<(), OutOfMemory>
        ensures config { OnOk result (Changes (at_right (numeric_columns headings self.old.texts)) self.old.config self.new.config) }
        ensures texts { self.new.texts ≡ self.old.texts }
        ensures sizes { self.new.sizes ≡ self.old.sizes }
        ensures err { OnErr result (self.new ≡ self.old) }
    {
        let alloc = self.config().config().allocator();
        let columns = numeric_columns(alloc, self.texts(), headings, self.shape().cols)?;
        set_at_right(self.config.config_mut(), &columns)
    }
}
