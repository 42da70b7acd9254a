//! A table of texts as what `{}` prints, plain or in color.

ghost use Rattle.std.specs.Prelude.{◌≡◌, List, None};
ghost use Rattle.std.specs.Fmt.{DisplaysOnOk, DisplaysStyledOnOk, WritesOnOk};
ghost use Rattle.tabled_configuration.specs.Colored as colored;
ghost use Rattle.tabled_configuration.specs.Configuration.{ConfigEvent, Shows};
ghost use Rattle.tabled_painting.specs.PaintedTable.{colored_text};
ghost use Rattle.tabled_text.specs.TextTable.{text_of, painted};

use crate::Table;
use std::convert::AsStr;
use std::fmt;

/// The text of the table, so that `println!(rt; "{table}")?` prints it. Where `to_text` is refused nothing is written, and the
/// formatter's error is returned; one of its writer passes on.
impl<T: AsStr + Drop> fmt::Display for Table<T> {
    fn fmt<W: fmt::Write>(&self, f: &mut fmt::Formatter<W>) -> fmt::Result
        ensures text { (es : List ConfigEvent) → Shows es self.now.config.spanned → WritesOnOk W.write_str_gives f.old result (text_of es self.now.texts) f.new }
        ensures writes { DisplaysOnOk W.write_str_gives f.old result None f.new }
        ensures styled { DisplaysStyledOnOk W.write_str_gives f.old result None f.new }
    {
        let Ok(text) = self.to_text() else {
            return Err(fmt::Error);
        };
        f.write_str(text.as_str())
    }
}

/// A table that is lent, and displays itself in color: see `Table::in_color`.
#[derive(Drop)]
pub struct InColor<'a, T: AsStr + Drop = String> {
    /// The table.
    pub table: &'a Table<T>,
}

impl<T: AsStr + Drop> Table<T> {
    /// Returns the table as it displays itself in color, so that `println!(rt; "{}", table.in_color())?` prints what `to_ansi` gives.
    pub fn in_color(&self) -> InColor<'_, T>
        ensures { result.table ≡ self.entry }
    {
        InColor { table: self }
    }
}

/// The text of the table in color. Where `to_ansi` is refused nothing is written, and the formatter's error is returned; one of its
/// writer passes on.
impl<T: AsStr + Drop> fmt::Display for InColor<'_, T> {
    fn fmt<W: fmt::Write>(&self, f: &mut fmt::Formatter<W>) -> fmt::Result
        ensures text { (es : List ConfigEvent) → colored.Shows es self.now.table.now.config → WritesOnOk W.write_str_gives f.old result (colored_text (painted es self.now.table.now.texts)) f.new }
        ensures writes { DisplaysOnOk W.write_str_gives f.old result None f.new }
        ensures styled { DisplaysStyledOnOk W.write_str_gives f.old result None f.new }
    {
        let Ok(text) = self.table.to_ansi() else {
            return Err(fmt::Error);
        };
        f.write_str(text.as_str())
    }
}
