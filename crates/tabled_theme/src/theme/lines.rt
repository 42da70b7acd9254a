//! The custom lines of a theme.

ghost use Rattle.std.specs.Prelude.{◌≡◌, OnOk, OnErr, None, option_copied};
ghost use Rattle.std.specs.FinMap as map;
ghost use Rattle.std.specs.Ordering.{nat_cmp};
ghost use Rattle.tabled_kept.specs.Table.{table};
ghost use Rattle.tabled_theme.specs.Lines.{shown_line};
ghost use Rattle.tabled_theme.specs.Changing.{with_horizontals_set, with_verticals_set, without_horizontals, without_verticals};

use super::Theme;
use crate::line_map::LineMap;
use std::collections::BTreeMap;
use tabled_border::OutOfMemory;
use tabled_grid::{HorizontalLine, Rank, VerticalLine};

impl Theme {
    /// Replaces the horizontal lines that were set, each under its index. Those of a style stay beneath, and show where
    /// none is set.
    pub fn set_horizontal_lines(&mut self, lines: BTreeMap<usize, HorizontalLine<char>>)
        ensures { self.new ≡ with_horizontals_set (table nat_cmp lines.entries) self.old }
    {
        self.set_horizontals = LineMap::of(lines);
    }

    /// Replaces the vertical lines that were set, each under its index. Those of a style stay beneath, and show where none is set.
    pub fn set_vertical_lines(&mut self, lines: BTreeMap<usize, VerticalLine<char>>)
        ensures { self.new ≡ with_verticals_set (table nat_cmp lines.entries) self.old }
    {
        self.set_verticals = LineMap::of(lines);
    }

    /// Sets a horizontal line at an index, in place of one that was set there. Only where none was can memory be
    /// refused, and then nothing changes.
    ///
    /// `insert_horizontal_line(1, HorizontalLine::new(Some('='), Some('*'), Some('<'), Some('>')))?`:
    ///
    /// ```text
    /// +---+---+
    /// | a | b |
    /// <===*===>
    /// | c | d |
    /// +---+---+
    /// ```
    pub fn insert_horizontal_line(
        &mut self,
        index: usize,
        line: HorizontalLine<char>,
    ) -> Result<(), OutOfMemory>
        ensures ok { OnOk result (self.new ≡ with_horizontals_set (map.insert self.old.set.horizontals index line) self.old) }
        ensures err { OnErr result (self.new ≡ self.old) }
        ensures absent { OnErr result (map.get self.old.set.horizontals index ≡ None) }
    {
        self.set_horizontals.insert(index, line)
    }

    /// Sets a vertical line at an index, in place of one that was set there. Only where none was can memory be refused,
    /// and then nothing changes.
    ///
    /// `insert_vertical_line(1, VerticalLine::new(Some('#'), Some('*'), Some('v'), Some('^')))?`:
    ///
    /// ```text
    /// +---v---+
    /// | a # b |
    /// +---*---+
    /// | c # d |
    /// +---^---+
    /// ```
    pub fn insert_vertical_line(
        &mut self,
        index: usize,
        line: VerticalLine<char>,
    ) -> Result<(), OutOfMemory>
        ensures ok { OnOk result (self.new ≡ with_verticals_set (map.insert self.old.set.verticals index line) self.old) }
        ensures err { OnErr result (self.new ≡ self.old) }
        ensures absent { OnErr result (map.get self.old.set.verticals index ≡ None) }
    {
        self.set_verticals.insert(index, line)
    }

    /// Returns the horizontal line that shows at an index: the one that was set, else the one beneath.
    pub fn get_horizontal_line(&self, index: usize) -> Option<&HorizontalLine<char>>
        ensures { option_copied result ≡ shown_line self.now.set.horizontals self.now.beneath.horizontals index }
    {
        shown(&self.set_horizontals, &self.horizontals_beneath, index)
    }

    /// Returns the vertical line that shows at an index: the one that was set, else the one beneath.
    pub fn get_vertical_line(&self, index: usize) -> Option<&VerticalLine<char>>
        ensures { option_copied result ≡ shown_line self.now.set.verticals self.now.beneath.verticals index }
    {
        shown(&self.set_verticals, &self.verticals_beneath, index)
    }

    /// Drops the horizontal lines between rows: all custom ones, set and beneath, and those of the class record.
    ///
    /// `remove_horizontal_lines()`:
    ///
    /// ```text
    /// +---+---+
    /// | a | b |
    /// | c | d |
    /// +---+---+
    /// ```
    pub fn remove_horizontal_lines(&mut self)
        ensures { self.new ≡ without_horizontals self.old }
    {
        self.set_horizontals.clear();
        self.horizontals_beneath.clear();
        self.characters = self
            .characters
            .with_horizontal_line(Rank::Inner, HorizontalLine::empty());
    }

    /// Drops the vertical lines between columns: all custom ones, set and beneath, and those of the class record.
    ///
    /// `remove_vertical_lines()`:
    ///
    /// ```text
    /// +------+
    /// | a  b |
    /// +------+
    /// | c  d |
    /// +------+
    /// ```
    pub fn remove_vertical_lines(&mut self)
        ensures { self.new ≡ without_verticals self.old }
    {
        self.set_verticals.clear();
        self.verticals_beneath.clear();
        self.characters = self
            .characters
            .with_vertical_line(Rank::Inner, VerticalLine::empty());
    }
}

/// The line of two maps that shows at an index.
fn shown<'a, L>(set: &'a LineMap<L>, beneath: &'a LineMap<L>, index: usize) -> Option<&'a L>
    ensures { option_copied result ≡ shown_line set.now beneath.now index }
{
    set.get(index).or(beneath.get(index))
}
