//! Tables of texts of their own, which are made of those of another one: cleaned, or kept within shares of a room.

ghost use Rattle.std.specs.Prelude.{◌≡◌, ◌≤◌, ◌-◌, true, List, max, IfOk};
ghost use Rattle.tabled_clean.specs.Steering.{cleaned};
ghost use Rattle.tabled_configuration.specs.Configuration.{ConfigEvent, Shows};
ghost use Rattle.tabled_painting.specs.Widths.{text_width};
ghost use Rattle.tabled_width.specs.Texts.{Table as Texts};
ghost use Rattle.tabled_width.specs.declared.limit.Overflow.{Overflow as How};
ghost use Rattle.tabled_measure.specs.Cells.{margin_set, sets_no_spans};
ghost use Rattle.tabled_measure.specs.Changed.{CellsAreClean, cells_changed, each_text, texts_of_columns};
ghost use Rattle.tabled_text.specs.Fitted.{CanShare, IsFitted, frame_width, least_width};
ghost use Rattle.tabled_text.specs.TextTable.{look_printed};

use super::Table;
use crate::TextTable;
use crate::fitting::{room_for_texts, texts_asked};
use std::convert::AsStr;
use std::mem;
use tabled_border::OutOfMemory;
use tabled_measure::changing::{Change, Cleaning, LimitedColumns, are_clean, changed_rows};
use tabled_width::{Overflow, shares_of};

impl<T: AsStr + Drop> Table<T> {
    /// Returns whether nothing in the texts steers a terminal, so that cleaning, after which nothing does, changes none of them.
    pub fn is_clean(&self) -> bool
        ensures stays { result ≡ true → cells_changed (each_text cleaned) self.now.texts ≡ self.now.texts }
        ensures clean { result ≡ true → CellsAreClean self.now.texts }
        ensures cleans { CellsAreClean (cells_changed (each_text cleaned) self.now.texts) }
    {
        are_clean(self.view().rows)
    }

    /// Returns this table with texts of its own, cleaned as `clean` does it: so a table whose texts are lent is cleaned without a copy of them.
    /// All that is set stays. Where memory is refused the table is gone.
    ///
    /// `table.cleaned()?` of a `LentTable` of the cells `a`, ESC, `[31m` and `b`:
    ///
    /// ```text
    ///  a␛[31m  b
    /// ```
    pub fn cleaned(self) -> Result<TextTable, OutOfMemory>
        ensures texts { IfOk result (λ table. table.texts ≡ cells_changed (each_text cleaned) self.texts) }
        ensures config { IfOk result (λ table. table.config ≡ self.config) }
    {
        self.changed(&Cleaning)
    }

    /// Returns this table with texts of its own, kept as narrow as `fit` keeps them: so a table whose texts are lent is fitted without a copy of
    /// them. All that is set stays. Where memory is refused the table is gone.
    ///
    /// `table.fitted(19, Overflow::WrapWords)?` of a `LentTable` in the style `ascii`, whose second cell was `leaves in hot water`:
    ///
    /// ```text
    /// +-----+-----------+
    /// | tea | leaves in |
    /// |     | hot water |
    /// +-----+-----------+
    /// ```
    pub fn fitted(self, total: usize, how: Overflow<'_>) -> Result<TextTable, OutOfMemory>
        ensures texts { (es : List ConfigEvent) → Shows es self.config.spanned → IfOk result (λ table. IsFitted how.entry 1 (total - frame_width es self.texts) self.texts table.texts) }
        ensures fits { (es : List ConfigEvent) → Shows es self.config.spanned → CanShare how.entry 1 (total - frame_width es self.texts) self.texts → least_width 1 es self.texts ≤ total
            → sets_no_spans es ≡ true → IfOk result (λ table. text_width (look_printed es table.texts) (margin_set es) ≤ total) }
        ensures config { IfOk result (λ table. table.config ≡ self.config) }
    {
        let widths = self.shares(total, 1)?;
        self.changed(&LimitedColumns {
            widths: &widths,
            how,
        })
    }

    /// This table with texts of its own, each changed.
    fn changed<C: Change>(self, change: &C) -> Result<TextTable, OutOfMemory>
        ensures texts { IfOk result (λ table. table.texts ≡ cells_changed (C.change change.now) self.texts) }
        ensures config { IfOk result (λ table. table.config ≡ self.config) }
    {
        let Table {
            cells,
            sizes,
            config,
        } = self;
        drop(sizes);
        let alloc = config.config().allocator();
        let changed = changed_rows(alloc, change, &cells)?;
        drop(cells);
        let mut table = TextTable::of_equal_rows(alloc, changed)?;
        drop(mem::replace(&mut table.config, config));
        Ok(table)
    }

    /// How many columns of the terminal the texts of each column get in a table of so many, where each gets at least so many, or what its
    /// texts ask for, if that is less.
    pub(crate) fn shares(&self, total: usize, least: usize) -> Result<Vec<usize>, OutOfMemory>
        ensures fitted { (es : List ConfigEvent) (how : How) (after : Texts) → Shows es self.now.config.spanned → IfOk result (λ widths.
            after ≡ cells_changed (texts_of_columns how widths.items) self.now.texts → IsFitted how (max least 1) (total - frame_width es self.now.texts) self.now.texts after) }
        ensures fits { (es : List ConfigEvent) (how : How) (after : Texts) → Shows es self.now.config.spanned → CanShare how (max least 1) (total - frame_width es self.now.texts) self.now.texts
            → least_width (max least 1) es self.now.texts ≤ total → sets_no_spans es ≡ true
            → IfOk result (λ widths. after ≡ cells_changed (texts_of_columns how widths.items) self.now.texts → text_width (look_printed es after) (margin_set es) ≤ total) }
    {
        let config = self.config().config();
        let alloc = config.allocator();
        let room = room_for_texts(config, self.shape(), total);
        let asked = texts_asked(alloc, &self.sizes.widths)?;
        let widths = shares_of(alloc, &asked, room, least.max(1))?;
        Ok(widths)
    }
}
