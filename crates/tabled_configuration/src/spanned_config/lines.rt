//! Custom lines, which stand at one index in place of what the class record says there.

ghost use Rattle.std.specs.Prelude.{◌≡◌, None, OnOk, OnErr, IfOk, option_copied};
ghost use Rattle.std.specs.Ordering.{nat_cmp};
ghost use Rattle.std.specs.FinMap as map;
ghost use Rattle.tabled_kept.specs.Table.{table};
ghost use Rattle.tabled_places.specs.declared.site.Site.TheVariants.{Line as of_line};
ghost use Rattle.tabled_places.specs.declared.site.Part.TheVariants.{Mark as mark};
ghost use Rattle.tabled_places.specs.Calls.{line_set_horizontal, line_set_vertical, line_removed};
ghost use Rattle.tabled_places.specs.State.{state_at};
ghost use Rattle.tabled_places.specs.declared.place.LineOf.{LineOf as Line};
ghost use Rattle.tabled_configuration.specs.Configuration.{Changes, by_characters};

use super::SpannedConfig;
use std::collections::BTreeMap;
use tabled_border::OutOfMemory;
use tabled_grid::{HorizontalLine, HorizontalLines, VerticalLine, VerticalLines};

impl SpannedConfig {
    /// Puts a custom horizontal line at index `line`, in place of the one that stood there. Only a line at
    /// an index where none stood needs memory; where that is refused nothing changes.
    ///
    /// Line 1 of `=`, with `*` at crossings and `<` and `>` at its ends, in a table of the style `ascii`:
    ///
    /// ```text
    /// +---+---+
    /// | a | b |
    /// <===*===>
    /// | c | d |
    /// +---+---+
    /// ```
    pub fn insert_horizontal_line(
        &mut self,
        line: usize,
        fields: HorizontalLine<char>,
    ) -> Result<(), OutOfMemory>
        ensures ok { OnOk result (Changes (by_characters (line_set_horizontal line fields)) self.old self.new) }
        ensures err { OnErr result (self.new ≡ self.old) }
        ensures absent { OnErr result (state_at self.old.characters (of_line (Line.Horizontal line) mark) ≡ None) }
    {
        self.characters.insert_hline(line, fields)
    }

    /// Returns the custom horizontal line that stands at index `line`, if one does.
    pub fn get_horizontal_line(&self, line: usize) -> Option<&HorizontalLine<char>>
        ensures { option_copied result ≡ map.get self.now.characters.horizontal_lines line }
    {
        self.characters.get_hline(line)
    }

    /// Returns the custom horizontal lines, each with the index at which it stands, in rising order. They are lent, so no
    /// memory is asked for.
    pub fn horizontal_lines(&self) -> HorizontalLines<'_, char>
        ensures { result ≡ map.entries self.now.characters.horizontal_lines }
    {
        self.characters.iter_hlines()
    }

    /// Returns a copy of all custom horizontal lines, each under the index at which it stands.
    pub fn get_horizontal_lines(&self) -> Result<BTreeMap<usize, HorizontalLine<char>>, OutOfMemory>
        ensures { IfOk result (λ lines. table nat_cmp lines.entries ≡ self.now.characters.horizontal_lines) }
    {
        self.characters.hlines()
    }

    /// Removes the custom horizontal line at index `line`, if one stands there.
    ///
    /// Line 1 of the style `rounded` is a custom line. That table without it:
    ///
    /// ```text
    /// ╭───┬───╮
    /// │ a │ b │
    /// │ c │ d │
    /// ╰───┴───╯
    /// ```
    pub fn remove_horizontal_line(&mut self, line: usize)
        ensures { Changes (by_characters (line_removed (Line.Horizontal line))) self.old self.new }
    {
        self.characters.remove_hline(line);
    }

    /// Puts a custom vertical line at index `line`, in place of the one that stood there. Only a line at
    /// an index where none stood needs memory; where that is refused nothing changes.
    ///
    /// Line 1 of `#`, with `*` at crossings and `v` and `^` at its ends, in a table of the style `ascii`:
    ///
    /// ```text
    /// +---v---+
    /// | a # b |
    /// +---*---+
    /// | c # d |
    /// +---^---+
    /// ```
    pub fn insert_vertical_line(
        &mut self,
        line: usize,
        fields: VerticalLine<char>,
    ) -> Result<(), OutOfMemory>
        ensures ok { OnOk result (Changes (by_characters (line_set_vertical line fields)) self.old self.new) }
        ensures err { OnErr result (self.new ≡ self.old) }
        ensures absent { OnErr result (state_at self.old.characters (of_line (Line.Vertical line) mark) ≡ None) }
    {
        self.characters.insert_vline(line, fields)
    }

    /// Returns the custom vertical line that stands at index `line`, if one does.
    pub fn get_vertical_line(&self, line: usize) -> Option<&VerticalLine<char>>
        ensures { option_copied result ≡ map.get self.now.characters.vertical_lines line }
    {
        self.characters.get_vline(line)
    }

    /// Returns the custom vertical lines, each with the index at which it stands, in rising order. They are lent, so no
    /// memory is asked for.
    pub fn vertical_lines(&self) -> VerticalLines<'_, char>
        ensures { result ≡ map.entries self.now.characters.vertical_lines }
    {
        self.characters.iter_vlines()
    }

    /// Returns a copy of all custom vertical lines, each under the index at which it stands.
    pub fn get_vertical_lines(&self) -> Result<BTreeMap<usize, VerticalLine<char>>, OutOfMemory>
        ensures { IfOk result (λ lines. table nat_cmp lines.entries ≡ self.now.characters.vertical_lines) }
    {
        self.characters.vlines()
    }

    /// Removes the custom vertical line at index `line`, if one stands there.
    ///
    /// Line 1 of `#` in a table of the style `ascii`, before and after it is removed:
    ///
    /// ```text
    /// +---+---+     +---+---+
    /// | a # b |     | a | b |
    /// +---+---+     +---+---+
    /// | c # d |     | c | d |
    /// +---+---+     +---+---+
    /// ```
    pub fn remove_vertical_line(&mut self, line: usize)
        ensures { Changes (by_characters (line_removed (Line.Vertical line))) self.old self.new }
    {
        self.characters.remove_vline(line);
    }
}
