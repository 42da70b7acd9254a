//! Columns, cells and groups of rows that are found by their texts.

ghost use Rattle.std.specs.Prelude.{◌≡◌, ℕ, take, IfOk, OnOk, OnErr};
ghost use Rattle.tabled_configuration.specs.Colored.{Changes};
ghost use Rattle.tabled_configuration.specs.Configuration as borders;
ghost use Rattle.tabled_measure.specs.Found.{cells_with, columns_named, group_starts};
ghost use Rattle.tabled_text.specs.Groups.{lines_above};

use super::Table;
use std::convert::AsStr;
use tabled_border::OutOfMemory;
use tabled_configuration::SpannedConfig;
use tabled_grid::HorizontalLine;
use tabled_measure::found;
use tabled_object::Entity;

impl<T: AsStr + Drop> Table<T> {
    /// Returns the columns whose text in row 0 is this one, byte by byte, from the left: none, where no column has it. The list is an object,
    /// for `modify` and for outlines; it names columns by their numbers, so it does not follow when columns are put in or taken out.
    ///
    /// `let ages = table.columns_named("age")?;` and then `table.modify(ages, Alignment::right())?`:
    ///
    /// ```text
    ///  name   age
    ///  Alice   30
    ///  Bob      7
    /// ```
    pub fn columns_named(&self, name: &str) -> Result<Vec<Entity>, OutOfMemory>
        ensures { IfOk result (λ columns. columns.items ≡ columns_named name.now self.now.texts) }
    {
        let alloc = self.config().config().allocator();
        let columns = found::columns_named(alloc, self.texts(), name, self.shape().cols)?;
        Ok(columns)
    }

    /// Returns the cells whose text is this one, byte by byte, in row order: none, where no cell has it. The list is an object, as that of
    /// `columns_named` is.
    ///
    /// `let missing = table.cells_with("-")?;` and then `table.modify(missing, Alignment::center())?`:
    ///
    /// ```text
    ///  name   age
    ///  Alice  30
    ///  Bob     -
    /// ```
    pub fn cells_with(&self, text: &str) -> Result<Vec<Entity>, OutOfMemory>
        ensures { IfOk result (λ cells. cells.items ≡ cells_with text.now self.now.texts) }
    {
        let alloc = self.config().config().allocator();
        let cells = found::cells_with(alloc, self.texts(), text, self.shape())?;
        Ok(found::as_entities(alloc, &cells)?)
    }

    /// Puts a custom horizontal line above each row below the first `headings` whose text in a column is another than that of the row above,
    /// so between groups of rows; the first row below the headings gets none. Columns are counted from 0; one that the table does not have
    /// has equal texts. The lines stand under the numbers of their rows, as custom lines do. Where memory is refused the first of these lines
    /// may have been put.
    ///
    /// `table.line_between_groups(1, 0, HorizontalLine::new('=').intersection('*').into_inner())?`, after the style `psql`:
    ///
    /// ```text
    ///  city | name
    /// ------+-------
    ///  Oslo | Alice
    ///  Oslo | Bob
    /// ======*=======
    ///  Rome | Carol
    /// ```
    pub fn line_between_groups(
        &mut self,
        headings: usize,
        column: usize,
        line: HorizontalLine<char>,
    ) -> Result<(), OutOfMemory>
        ensures config { OnOk result (Changes (lines_above line (group_starts headings column self.old.texts)) self.old.config self.new.config) }
        ensures err { OnErr result ((count : ℕ) × Changes (lines_above line (take count (group_starts headings column self.old.texts))) self.old.config self.new.config) }
        ensures texts { self.new.texts ≡ self.old.texts }
        ensures sizes { self.new.sizes ≡ self.old.sizes }
    {
        let alloc = self.config().config().allocator();
        let count = self.shape().rows;
        let starts = found::group_starts(alloc, self.texts(), headings, column, count)?;
        put_lines(self.config.config_mut(), &starts, line)
    }
}

/// Puts a custom horizontal line above each of some rows. Where memory is refused the first of them may have it.
fn put_lines(
    cfg: &mut SpannedConfig,
    rows: &[usize],
    line: HorizontalLine<char>,
) -> Result<(), OutOfMemory>
    ensures ok { OnOk result (borders.Changes (lines_above line rows.now) cfg.old cfg.new) }
    ensures err { OnErr result ((count : ℕ) × borders.Changes (lines_above line (take count rows.now)) cfg.old cfg.new) }
{
    for row in rows {
        cfg.insert_horizontal_line(*row, line)?;
    }
    Ok(())
}
