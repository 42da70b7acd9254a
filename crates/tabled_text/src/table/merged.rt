//! Neighbors with equal texts, which become one cell.

ghost use Rattle.std.specs.Prelude.{◌≡◌, ℕ, true, false, length, take, OnOk, OnErr};
ghost use Rattle.tabled_object.specs.Listing.{covered};
ghost use Rattle.tabled_configuration.specs.Colored.{Changes};
ghost use Rattle.tabled_measure.specs.Runs.{merged, runs};
ghost use Rattle.tabled_measure.specs.Sizes.{column_count};

use super::Table;
use std::convert::AsStr;
use tabled_border::OutOfMemory;
use tabled_measure::runs::{merge, runs};
use tabled_object::{Object, Shape, listed_entities};

impl<T: AsStr + Drop> Table<T> {
    /// Lets cells of an object that stand below one another and have the same text, byte by byte, become one cell: the first of each such
    /// run of two cells and more spans all of its rows. Empty cells have the same text too. The borders are corrected where `JoinedCorners` or
    /// `BorderCorrection` follows. The spans stand under the numbers of their cells, also where rows are put in later. Where memory is refused
    /// the first of these cells may span already.
    ///
    /// `table.merge_equal_rows(Columns::first())?` and then `table.with(JoinedCorners::new())?`, in the style `modern`:
    ///
    /// ```text
    /// ┌──────┬─────┐
    /// │ Oslo │ Jan │
    /// │      ├─────┤
    /// │      │ Jul │
    /// ├──────┼─────┤
    /// │ Rome │ Jul │
    /// └──────┴─────┘
    /// ```
    pub fn merge_equal_rows<O>(&mut self, object: O) -> Result<(), OutOfMemory>
    where
        O: Object<Shape> + Drop,
        ensures config { OnOk result (Changes (merged true (runs true (covered (O.listing object (length self.old.texts) (column_count self.old.texts))) self.old.texts)) self.old.config self.new.config) }
        ensures err { OnErr result ((count : ℕ) × Changes (merged true (take count (runs true (covered (O.listing object (length self.old.texts) (column_count self.old.texts))) self.old.texts))) self.old.config self.new.config) }
        ensures texts { self.new.texts ≡ self.old.texts }
        ensures sizes { self.new.sizes ≡ self.old.sizes }
    {
        self.merge_runs(true, &object)
    }

    /// Lets cells of an object that stand beside one another and have the same text become one cell, which spans their columns, as
    /// `merge_equal_rows` does with those below one another.
    ///
    /// `table.merge_equal_columns(Rows::first())?` and then `table.with(JoinedCorners::new())?`, in the style `modern`:
    ///
    /// ```text
    /// ┌───────────┬──────┐
    /// │ Oslo      │ Rome │
    /// ├─────┬─────┼──────┤
    /// │ Jan │ Jul │ Jan  │
    /// └─────┴─────┴──────┘
    /// ```
    pub fn merge_equal_columns<O>(&mut self, object: O) -> Result<(), OutOfMemory>
    where
        O: Object<Shape> + Drop,
        ensures config { OnOk result (Changes (merged false (runs false (covered (O.listing object (length self.old.texts) (column_count self.old.texts))) self.old.texts)) self.old.config self.new.config) }
        ensures err { OnErr result ((count : ℕ) × Changes (merged false (take count (runs false (covered (O.listing object (length self.old.texts) (column_count self.old.texts))) self.old.texts))) self.old.config self.new.config) }
        ensures texts { self.new.texts ≡ self.old.texts }
        ensures sizes { self.new.sizes ≡ self.old.sizes }
    {
        self.merge_runs(false, &object)
    }

    /// Lets each run of cells of an object become one cell, down or to the right.
    fn merge_runs<O>(&mut self, down: bool, object: &O) -> Result<(), OutOfMemory>
    where
        O: Object<Shape>,
        ensures config { OnOk result (Changes (merged down (runs down (covered (O.listing object.now (length self.old.texts) (column_count self.old.texts))) self.old.texts)) self.old.config self.new.config) }
        ensures err { OnErr result ((count : ℕ) × Changes (merged down (take count (runs down (covered (O.listing object.now (length self.old.texts) (column_count self.old.texts))) self.old.texts))) self.old.config self.new.config) }
        ensures texts { self.new.texts ≡ self.old.texts }
        ensures sizes { self.new.sizes ≡ self.old.sizes }
    {
        let alloc = self.config().config().allocator();
        let shape = self.shape();
        let entities = listed_entities(alloc, &shape, object)?;
        let found = runs(alloc, down, &entities, self.texts(), shape)?;
        merge(self.config.config_mut(), down, &found)
    }
}
