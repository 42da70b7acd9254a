//! A text on a line.

ghost use Rattle.std.specs.Prelude.{◌≡◌, None, Some, IfOk, OnOk, OnErr, chars, length};
ghost use Rattle.tabled_object.specs.declared.entity.Entity.TheVariants as cells;
ghost use Rattle.tabled_configuration.specs.Colored.{Changes};
ghost use Rattle.tabled_configuration.specs.Configuration.{all_writes, writes_applied};
ghost use Rattle.tabled_printing.specs.Picture.{look};
ghost use Rattle.tabled_clean.specs.Line.{on_one_line};
ghost use Rattle.tabled_options.specs.TextStart.{limited, width_of};
ghost use Rattle.tabled_options.specs.LineText.{places_taken, text_events};

mod writes;

use crate::named_line::NamedLine;
use crate::table_line::TableLine;
use crate::text_start::{TextSize, text_start, widest};
use std::alloc::Global;
use std::marker::Model;
use tabled_border::{ANSIBuf, OutOfMemory};
use tabled_changes::{ColoredConfig, TableOption};
use tabled_clean::cleaned_line;
use tabled_color::Color;
use tabled_configuration::SpannedConfig;
use tabled_formatting::Alignment;
use tabled_grid::{LineOf, Offset, Place, Write};
use tabled_object::{Dimension, Entity, ExactRecords, Records};
use writes::{character_writes, color_writes};

/// A text that is written on a line of a table, over its edges and crossings.
///
/// `Line` is an object that names one row or one column: the line above the row, or left of the column. The calls below show
/// the top line of this table of the style `ascii`, which has nine places. Here it has the text `ABC`, and the line left of
/// column 1 in the second table:
///
/// ```text
/// ABC-+---+     +---A---+
/// | a | b |     | a B b |
/// +---+---+     +---C---+
/// | c | d |     | c | d |
/// +---+---+     +---+---+
/// ```
#[derive(Debug, Drop)]
pub struct LineText<Line> {
    text: String,
    line: Line,
    alignment: Option<Alignment>,
    offset: Offset,
    color: Option<Color>,
    limit: Option<usize>,
}

impl<Line> Model for LineText<Line> {
    ghost use Rattle.std.specs.Prelude.{chars, string_bytes};
    ghost use Rattle.std.specs.Coded.{codes};
    ghost use Rattle.tabled_options.specs.LineText.{Lettering};

    ghost Value = { Lettering Line };

    ghost coded = { Prim.hlevel (codes, Line.code) };

    ghost view = { λ given. record {
      text = chars (string_bytes given.text);
      line = given.line;
      alignment = given.alignment;
      offset = given.offset;
      color = given.color;
      limit = given.limit;
    } };
}

impl<Line> LineText<Line> {
    ghost use Rattle.tabled_object.specs.declared.offset.Offset.TheVariants as offset;
    ghost use Rattle.tabled_options.specs.Laying.{looked};

    /// Makes the text at the start of the line that the object names. The text is copied.
    ///
    /// `LineText::new(alloc, "ABC", Rows::first())?`:
    ///
    /// ```text
    /// ABC-+---+
    /// ```
    pub fn new(alloc: Global, text: &str, line: Line) -> Result<Self, OutOfMemory>
    where
        Line: Drop,
        ensures { IfOk result (λ given. given ≡ record { text = chars text.now; line = line; alignment = None; offset = offset.Start 0; color = None; limit = None }) }
    {
        let text = String::from_str(alloc, text)?;
        Ok(LineText {
            text,
            line,
            alignment: None,
            offset: Offset::Start(0),
            color: None,
            limit: None,
        })
    }

    /// Sets where the text stands along the line. An alignment of the other direction counts as none.
    ///
    /// `align(Alignment::center())`, and `align(Alignment::right())`:
    ///
    /// ```text
    /// +--ABC--+
    /// +---+-ABC
    /// ```
    pub fn align(mut self, alignment: Alignment) -> Self
        ensures { result ≡ record self { alignment = Some alignment } }
    {
        self.alignment = Some(alignment);
        self
    }

    /// Sets by how many places the text is moved from where its alignment puts it. At the left, at the top and in the middle
    /// `Offset::Start(n)` moves it n places on, and `Offset::End(n)` n places back, at most to the first place. At the right
    /// and at the bottom `Offset::Start(n)` moves it n places back, and `Offset::End(n)` n places on. Without an alignment
    /// along the line the text begins at the place that the offset names.
    ///
    /// `offset(Offset::Start(2))`, `offset(Offset::End(3))`, and `align(Alignment::right()).offset(Offset::Start(1))`:
    ///
    /// ```text
    /// +-ABC---+
    /// +---+-ABC
    /// +---+ABC+
    /// ```
    pub fn offset(mut self, offset: Offset) -> Self
        ensures { result ≡ record self { offset = offset } }
    {
        self.offset = offset;
        self
    }

    /// Sets the color of the text: of each place that it takes, also of a crossing that stays empty.
    ///
    /// With `r` for each place that is colored red, and so for the three characters of the text, `color(Color::FG_RED)`:
    ///
    /// ```text
    /// rrr-+---+
    /// ```
    pub fn color(mut self, color: Color) -> Self
        ensures { result ≡ record self { color = Some color } }
    {
        self.color = Some(color);
        self
    }

    /// Sets how many characters of the text are written at most, from its first one on.
    ///
    /// The text `ABCDE` with `limit(2)`:
    ///
    /// ```text
    /// AB--+---+
    /// ```
    pub fn limit(mut self, n: usize) -> Self
        ensures { result ≡ record self { limit = Some n } }
    {
        self.limit = Some(n);
        self
    }

    /// Cleans the text, so that nothing in it steers a terminal or breaks the line that it is written on, as `tabled_clean::cleaned_line`
    /// says: a line feed is shown as `␊`. Memory may be refused for the copy.
    ///
    /// The text `A`, ESC, `C`:
    ///
    /// ```text
    /// A␛C-+---+
    /// ```
    pub fn clean(mut self, alloc: Global) -> Result<Self, OutOfMemory>
    where
        Line: Drop,
        ensures { IfOk result (λ given. given ≡ record self { text = on_one_line self.text }) }
    {
        let text = cleaned_line(alloc, self.text.as_str())?;
        self.text = text;
        Ok(self)
    }

    /// The characters of the text that count.
    fn letters(&self, alloc: Global) -> Result<Vec<char>, OutOfMemory>
        ensures { IfOk result (λ letters. letters.items ≡ limited self.now.limit self.now.text) }
    {
        let letters = self.text.chars();
        match self.limit {
            None => Ok(letters.collect(alloc)?),
            Some(limit) => Ok(letters.take(limit).collect(alloc)?),
        }
    }

    /// The places that the text takes on a line, each with its character.
    fn places_taken<D: Dimension>(
        &self,
        line: &TableLine<'_, D>,
    ) -> Result<Vec<(Place, char)>, OutOfMemory>
        ensures { let view = looked D.width_of D.height_of line.now in
            IfOk result (λ taken. taken.items ≡ places_taken self.now view (Some line.now.line)) }
    {
        let alloc = line.cfg.allocator();
        if !line.exists() {
            return Ok(Vec::new(alloc));
        }
        let letters = self.letters(alloc)?;
        let size = text_size(alloc, &letters)?;
        let total = line.total();
        match text_start(line.line, total, size, self.alignment, self.offset) {
            Some(start) => line.lay_from(alloc, start, total, &letters),
            None => Ok(Vec::new(alloc)),
        }
    }

    /// The writes of the text, of characters and of colors, on a line, if one is named.
    fn writes<D: Dimension>(
        &self,
        cfg: &SpannedConfig,
        dims: &D,
        shape: (usize, usize),
        line: Option<LineOf>,
    ) -> Result<(Vec<Write<char>>, Vec<Write<ANSIBuf>>), OutOfMemory>
        ensures { IfOk result (λ writes. writes_applied writes.0.items writes.1.items
            ≡ text_events self.now (look (all_writes cfg.now) shape (D.width_of dims.now) (D.height_of dims.now)) line) }
    {
        let alloc = cfg.allocator();
        let Some(line) = line else {
            return Ok((Vec::new(alloc), Vec::new(alloc)));
        };
        let line = TableLine {
            cfg,
            dims,
            shape,
            line,
        };
        let taken = self.places_taken(&line)?;
        let characters = character_writes(alloc, &line, &taken)?;
        let colors = color_writes(alloc, self.color.as_ref(), &taken)?;
        Ok((characters, colors))
    }
}

/// How large a text of these characters is.
fn text_size(alloc: Global, letters: &[char]) -> Result<TextSize, OutOfMemory>
    ensures width { IfOk result (λ size. size.width ≡ width_of letters.now) }
    ensures count { IfOk result (λ size. size.count ≡ length letters.now) }
{
    let text: String = letters.iter().copied().collect(alloc)?;
    Ok(TextSize {
        width: widest(text.as_str()),
        count: letters.len(),
    })
}

impl<R, D, Line> TableOption<R, ColoredConfig, D> for LineText<Line>
where
    R: Records + ExactRecords,
    D: Dimension,
    Line: NamedLine + Drop,
{
    ghost makes = { λ text records dims old. text_events text
        (look (all_writes old.spanned) (R.row_count records, R.column_count records) (D.width_of dims) (D.height_of dims))
        (Line.line_of text.line (R.row_count records, R.column_count records)) };

    ghost hinted = { λ text. Some cells.Global };

    /// Writes the text on the line that its object names, as the table looks before: at each place that a character takes,
    /// the character, at the number of the place from the start of its edge, or as a cell's where it is a crossing that
    /// shows one; and the color, where one is set. Nothing is written on a line past the one that closes the table, nor
    /// where the text begins past the last place. Where memory is refused nothing changes.
    ///
    /// `ABCDEFG` at the start of the top line, in a table whose class record has `top` `-` and `vertical` `|` alone. Nothing
    /// shows where the two cross, so the crossing stays empty and `D` is left out:
    ///
    /// ```text
    /// ABC EFG
    ///  a | b
    ///  c | d
    /// ```
    fn change(
        self,
        records: &mut R,
        cfg: &mut ColoredConfig,
        dims: &mut D,
    ) -> Result<(), OutOfMemory>
        ensures ok { OnOk result (Changes (text_events self
            (look (all_writes cfg.old.spanned) (R.row_count records.old, R.column_count records.old) (D.width_of dims.old) (D.height_of dims.old))
            (Line.line_of self.line (R.row_count records.old, R.column_count records.old))) cfg.old cfg.new) }
        ensures err { OnErr result (cfg.new ≡ cfg.old) }
        ensures records { records.new ≡ records.old }
        ensures sizes { dims.new ≡ dims.old }
    {
        let shape = (records.count_rows(), records.count_columns());
        let line = self.line.line(shape);
        let (characters, colors) = self.writes(cfg.config(), dims, shape, line)?;
        cfg.config_mut().apply(characters, colors)
    }

    fn hint_change(&self) -> Option<Entity> {
        Some(Entity::Global)
    }
}
