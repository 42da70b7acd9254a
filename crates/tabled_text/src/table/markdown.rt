//! A table in markdown.

ghost use Rattle.std.specs.Prelude.{◌≡◌, ◌<◌, length, string_bytes, IfOk};
ghost use Rattle.tabled_markdown.specs.Reading.{read_rows, read_sides};
ghost use Rattle.tabled_markdown.specs.Table.{fitted_sides, markdown};
ghost use Rattle.tabled_measure.specs.Sizes.{column_count};

use super::Table;
use std::convert::AsStr;
use tabled_border::OutOfMemory;
use tabled_markdown::{Side, markdown};

impl<T: AsStr + Drop> Table<T> {
    /// Returns the texts of the table in markdown, as GitHub shows it: row 0 has the headings, and below it stands for each column where its
    /// texts stand; past the end of `sides` that is where the reader of the markdown has them. What markdown would take for something else is
    /// escaped, so that each cell is shown as its text, and read back as it. What is set for the table, as its style, takes no part; neither
    /// do spans. Without rows there is no text. Only memory can be refused.
    ///
    /// `table.to_markdown(&[Side::Plain, Side::Right])?` of the rows `name`, `in %` and `a|b`, `30`:
    ///
    /// ```markdown
    /// | name | in % |
    /// | --- | --: |
    /// | a\|b | 30 |
    /// ```
    pub fn to_markdown(&self, sides: &[Side]) -> Result<String, OutOfMemory>
        ensures text { IfOk result (λ text. string_bytes text ≡ markdown (column_count self.now.texts) sides.now self.now.texts) }
        ensures cells_read { IfOk result (λ text. read_rows (string_bytes text) ≡ self.now.texts) }
        ensures sides_read { 0 < length self.now.texts → IfOk result (λ text. read_sides (string_bytes text) ≡ fitted_sides (column_count self.now.texts) sides.now) }
    {
        let alloc = self.config().config().allocator();
        let text = markdown(alloc, &self.cells, sides, self.shape().cols)?;
        Ok(text)
    }
}
