//! Texts of a table that are cleaned, whose tabs become spaces, or that are kept within a number of columns or lines.

ghost use Rattle.std.specs.Prelude.{◌≡◌, ◌≤◌, ◌-◌, true, List, length, max, OnOk, OnErr};
ghost use Rattle.tabled_configuration.specs.Configuration.{ConfigEvent, Shows};
ghost use Rattle.tabled_clean.specs.Steering.{cleaned};
ghost use Rattle.tabled_painting.specs.Widths.{text_width};
ghost use Rattle.tabled_width.specs.Tabs.{tabs_expanded};
ghost use Rattle.tabled_measure.specs.Cells.{margin_set, sets_no_spans};
ghost use Rattle.tabled_measure.specs.Changed.{CellsAreClean, cells_changed, each_text, texts_of_cells};
ghost use Rattle.tabled_text.specs.Fitted.{CanShare, IsFitted, frame_width, least_width};
ghost use Rattle.tabled_measure.specs.Sizes.{column_count};
ghost use Rattle.tabled_text.specs.TextTable.{look_printed};

use super::TextTable;
use std::mem;
use tabled_border::OutOfMemory;
use tabled_measure::changing::{
    Change, Cleaning, ExpandedTabs, LimitedCells, LimitedColumns, changed_rows,
};
use tabled_measure::measure::sizes_of;
use tabled_object::{Object, Shape, listed_entities};
use tabled_width::{Overflow, TextLimit};

impl TextTable {
    /// Cleans all texts of the table, so that nothing in them steers a terminal, as `tabled_clean::cleaned` says: a control character but
    /// the line feed, a character that sets a direction of writing, and a separator of lines or paragraphs are shown in place of being
    /// obeyed. The columns and rows are measured again. Where memory is refused the table is as it was.
    ///
    /// The cells `a`, ESC, `[31m` and `b`:
    ///
    /// ```text
    ///  a␛[31m  b
    /// ```
    pub fn clean(&mut self) -> Result<(), OutOfMemory>
        ensures texts { OnOk result (self.new.texts ≡ cells_changed (each_text cleaned) self.old.texts) }
        ensures clean { OnOk result (CellsAreClean self.new.texts) }
        ensures config { self.new.config ≡ self.old.config }
        ensures err { OnErr result (self.new ≡ self.old) }
    {
        if self.is_clean() {
            return Ok(());
        }
        self.change_texts(&Cleaning)
    }

    /// Puts spaces in the place of each tab of the texts: as many as there are columns of the terminal up to the next stop of its line,
    /// where a stop stands each `every` columns, as `tabled_width::tabs_expanded` says. At least one space stands for each tab; where
    /// `every` is 0, tabs are left out. A text is to be expanded before it is cleaned, since a cleaned one shows its tabs as `␉`. The
    /// columns are measured again. Where memory is refused the table is as it was.
    ///
    /// `table.expand_tabs(4)?`, where the first cell was `a`, a tab and `b`, and a second line `abc`, a tab and `d`:
    ///
    /// ```text
    ///  a   b  e
    ///  abc d
    /// ```
    pub fn expand_tabs(&mut self, every: usize) -> Result<(), OutOfMemory>
        ensures texts { OnOk result (self.new.texts ≡ cells_changed (each_text (tabs_expanded every)) self.old.texts) }
        ensures config { self.new.config ≡ self.old.config }
        ensures err { OnErr result (self.new ≡ self.old) }
    {
        self.change_texts(&ExpandedTabs { every })
    }

    /// Keeps the texts of the cells of an object within a number of columns or lines. The columns and rows are measured again, so an
    /// option that reads them, as a text on a line does, comes after it. What is set stays. Where memory is refused the table is as it
    /// was.
    ///
    /// `table.limit_cells(Columns::one(1), Width::wrap(9).keep_words())?`, where the second cell was `leaves in hot water`:
    ///
    /// ```text
    ///  tea  leaves in
    ///       hot water
    /// ```
    pub fn limit_cells<O, L>(&mut self, object: O, limit: L) -> Result<(), OutOfMemory>
    where
        O: Object<Shape> + Drop,
        L: TextLimit + Drop,
        ensures texts { OnOk result (self.new.texts ≡ cells_changed (texts_of_cells (O.listing object (length self.old.texts) (column_count self.old.texts)) (L.limits limit)) self.old.texts) }
        ensures config { self.new.config ≡ self.old.config }
        ensures err { OnErr result (self.new ≡ self.old) }
    {
        let alloc = self.config().config().allocator();
        let entities = listed_entities(alloc, &self.shape(), &object)?;
        self.change_texts(&LimitedCells {
            entities: &entities,
            limit: &limit,
        })
    }

    /// Keeps the texts of the cells so narrow that each line of the table takes no more than `total` columns of the terminal, with the
    /// padding of its cells, its vertical lines and its margin, where no cell spans several columns or rows. Columns that ask for little
    /// keep their width; the others share what is left, as `tabled_width::shares_of` says. An option that changes which lines are drawn,
    /// the margin or the padding comes before it; one that reads how wide columns are, as a text on a line does, after it. A column that
    /// asks for any keeps one, so a table of many columns may stay wider (`least_width(1)` tells), and so may one with a character of two
    /// columns where there is one: a total of 0 leaves each column one. Where memory is refused the table is as it was.
    ///
    /// `table.fit(19, Overflow::WrapWords)?`, where the second cell was `leaves in hot water`:
    ///
    /// ```text
    /// +-----+-----------+
    /// | tea | leaves in |
    /// |     | hot water |
    /// +-----+-----------+
    /// ```
    pub fn fit(&mut self, total: usize, how: Overflow<'_>) -> Result<(), OutOfMemory>
        ensures texts { (es : List ConfigEvent) → Shows es self.old.config.spanned → OnOk result (IsFitted how.entry 1 (total - frame_width es self.old.texts) self.old.texts self.new.texts) }
        ensures fits { (es : List ConfigEvent) → Shows es self.old.config.spanned → CanShare how.entry 1 (total - frame_width es self.old.texts) self.old.texts → least_width 1 es self.old.texts ≤ total
            → sets_no_spans es ≡ true → OnOk result (text_width (look_printed es self.new.texts) (margin_set es) ≤ total) }
        ensures config { self.new.config ≡ self.old.config }
        ensures err { OnErr result (self.new ≡ self.old) }
    {
        self.fit_with(total, 1, how)
    }

    /// Fits the table as `fit` does, where each column keeps at least `least` columns of the terminal for its texts, or what these ask for,
    /// if that is less; so the others share what is left of it. `least_width(least)` tells the least total that the table is then kept
    /// within. A `least` of 0 is one of 1.
    ///
    /// `table.fit_with(15, 6, Overflow::WrapWords)?`, where the cells were `green tea` and `leaves in hot water`:
    ///
    /// ```text
    /// +-------+--------+
    /// | green | leaves |
    /// | tea   | in hot |
    /// |       | water  |
    /// +-------+--------+
    /// ```
    pub fn fit_with(
        &mut self,
        total: usize,
        least: usize,
        how: Overflow<'_>,
    ) -> Result<(), OutOfMemory>
        ensures texts { (es : List ConfigEvent) → Shows es self.old.config.spanned → OnOk result (IsFitted how.entry (max least 1) (total - frame_width es self.old.texts) self.old.texts self.new.texts) }
        ensures fits { (es : List ConfigEvent) → Shows es self.old.config.spanned → CanShare how.entry (max least 1) (total - frame_width es self.old.texts) self.old.texts
            → least_width (max least 1) es self.old.texts ≤ total → sets_no_spans es ≡ true → OnOk result (text_width (look_printed es self.new.texts) (margin_set es) ≤ total) }
        ensures config { self.new.config ≡ self.old.config }
        ensures err { OnErr result (self.new ≡ self.old) }
    {
        let widths = self.shares(total, least)?;
        self.change_texts(&LimitedColumns {
            widths: &widths,
            how,
        })
    }

    /// Changes each text, and measures them again. Where memory is refused nothing changes.
    fn change_texts<C: Change>(&mut self, change: &C) -> Result<(), OutOfMemory>
        ensures texts { OnOk result (self.new.texts ≡ cells_changed (C.change change.now) self.old.texts) }
        ensures config { self.new.config ≡ self.old.config }
        ensures err { OnErr result (self.new ≡ self.old) }
    {
        let alloc = self.config().config().allocator();
        let cells = changed_rows(alloc, change, self.texts())?;
        let sizes = sizes_of(alloc, &cells)?;
        drop(mem::replace(&mut self.cells, cells));
        drop(mem::replace(&mut self.sizes, sizes));
        Ok(())
    }
}
