//! An outline around cells of a table.

ghost use Rattle.std.specs.Prelude.{◌≡◌, Some, None, IfOk, OnOk, OnErr, option_copied, option_map};
ghost use Rattle.tabled_places.specs.Writes.{writes_made};
ghost use Rattle.tabled_configuration.specs.Configuration as borders;
ghost use Rattle.tabled_configuration.specs.Colored.{Changes};
ghost use Rattle.tabled_color.specs.BorderColors.{full_border, border_texts};
ghost use Rattle.tabled_highlight.specs.Around.{written_around};
ghost use Rattle.tabled_highlight.specs.Highlighting.{drawn_with, highlight_events};

use crate::around::outline_writes;
use crate::cells::cells_inside;
use std::alloc::Global;
use std::collections::BTreeSet;
use std::marker::Model;
use tabled_border::{ANSIBuf, Border as GridBorder, OutOfMemory};
use tabled_changes::{ColoredConfig, TableOption};
use tabled_color::{BorderColor, Color};
use tabled_configuration::SpannedConfig;
use tabled_grid::Write;
use tabled_object::{Entity, ExactRecords, Object, Position, Records, listed_entities};
use tabled_style::Border;

/// An outline around the cells that an object names: characters and colors along the border of the whole set of them.
///
/// In which order the object lists the cells, and how often, plays no part. Here the cells (0, 0), (0, 1) and (1, 1) of a
/// table of two rows and two columns are outlined:
///
/// ```text
/// *********
/// * a   b *
/// *****   *
///   c * d *
///     *****
/// ```
#[derive(Debug, Drop)]
pub struct Highlight<O> {
    target: O,
    border: Option<GridBorder<char>>,
    diagonal: Option<char>,
    color: Option<BorderColor>,
}

impl<O> Model for Highlight<O> {
    ghost use Rattle.std.specs.Coded.{codes};
    ghost use Rattle.tabled_highlight.specs.Highlighting.{Highlighting};

    ghost Value = { Highlighting O };

    ghost coded = { Prim.hlevel (codes, O.code) };

    ghost view = { λ given. record { target = given.target; border = given.border; diagonal = given.diagonal; color = given.color } };
}

impl<O> Highlight<O> {
    /// Makes an outline around the cells that the object names, with neither characters nor colors yet: without them it changes nothing.
    pub fn new(target: O) -> Self
        ensures { result ≡ record { target = target; border = None; diagonal = None; color = None } }
    {
        Highlight {
            target,
            border: None,
            diagonal: None,
            color: None,
        }
    }

    /// Makes an outline of one character, on all sides and corners.
    ///
    /// ```text
    /// *****
    /// * a * b
    /// *****
    ///   c   d
    /// ```
    pub fn outline(target: O, c: char) -> Self
        ensures { result ≡ record { target = target; border = Some (full_border c c c c c c c c); diagonal = None; color = None } }
    {
        Highlight {
            target,
            border: Some(GridBorder::filled(c)),
            diagonal: None,
            color: None,
        }
    }

    /// Makes an outline of one color, on all sides and corners, which is copied for them. The characters stay as they are.
    /// Memory may be refused for the copies.
    ///
    /// The cells (0, 0), (0, 1) and (1, 1) of a table of the style `ascii`, with `r` for each place that has the color:
    ///
    /// ```text
    /// rrrrrrrrr
    /// r a | b r
    /// rrrrr---r
    /// | c r d r
    /// +---rrrrr
    /// ```
    pub fn colored(alloc: Global, target: O, color: Color) -> Result<Self, OutOfMemory>
    where
        O: Drop,
        ensures { IfOk result (λ given. given ≡ record { target = target; border = None; diagonal = None; color = Some (full_border color color color color color color color color) }) }
    {
        let color = BorderColor::filled(alloc, color)?;
        Ok(Highlight {
            target,
            border: None,
            diagonal: None,
            color: Some(color),
        })
    }

    /// Sets the characters of the sides and corners. What the border does not give is not written. Here it gives `^` as its
    /// upper side alone, around the cell (0, 1):
    ///
    /// ```text
    ///    ^^^
    ///  a  b
    ///  c  d
    /// ```
    pub fn border<T, B, L, R>(self, border: Border<T, B, L, R>) -> Self
        ensures { result ≡ record self { border = Some border } }
    {
        Highlight {
            target: self.target,
            border: Some(border.into_inner()),
            diagonal: self.diagonal,
            color: self.color,
        }
    }

    /// Sets the character of the crossings where two of the cells touch at a corner alone, the upper left and the lower right one
    /// or the upper right and the lower left one. It stands there in place of what the border gives, and also without a border;
    /// colors stay as they are. It takes no memory.
    ///
    /// `Highlight::outline((0, 0).and((1, 1)), '*').diagonal('X')`:
    ///
    /// ```text
    /// *****
    /// * a * b
    /// ****X****
    ///   c * d *
    ///     *****
    /// ```
    pub fn diagonal(mut self, c: char) -> Self
        ensures { result ≡ record self { diagonal = Some c } }
    {
        self.diagonal = Some(c);
        self
    }

    /// Sets the colors of the sides and corners. What is not given is not written.
    ///
    /// `BorderColor::new().top(Color::FG_RED)` around the cell (0, 1) of a table of the style `ascii`, with `r` for each place
    /// that is red:
    ///
    /// ```text
    /// +---+rrr+
    /// | a | b |
    /// +---+---+
    /// | c | d |
    /// +---+---+
    /// ```
    pub fn color(self, color: BorderColor) -> Self
        ensures { result ≡ record self { color = Some color } }
    {
        Highlight {
            target: self.target,
            border: self.border,
            diagonal: self.diagonal,
            color: Some(color),
        }
    }

    /// Writes the outline on a configuration.
    fn outline_on<R>(&self, records: &R, config: &mut SpannedConfig) -> Result<(), OutOfMemory>
    where
        R: Records + ExactRecords,
        O: Object<R>,
        ensures ok { OnOk result (borders.Changes (highlight_events (R.row_count records.now, R.column_count records.now)
            (O.listing self.now.target (R.row_count records.now) (R.column_count records.now)) self.now.border self.now.diagonal self.now.color) config.old config.new) }
        ensures err { OnErr result (config.new ≡ config.old) }
    {
        let shape = (records.count_rows(), records.count_columns());
        let entities = listed_entities(config.allocator(), records, &self.target)?;
        outline_cells(
            config,
            &entities,
            shape,
            self.border.as_ref(),
            self.diagonal.as_ref(),
            self.color.as_ref(),
        )
    }
}

impl<R, D, O> TableOption<R, ColoredConfig, D> for Highlight<O>
where
    R: Records + ExactRecords,
    O: Object<R> + Drop,
{
    ghost makes = { λ given records dims old. highlight_events (R.row_count records, R.column_count records)
        (O.listing given.target (R.row_count records) (R.column_count records)) given.border given.diagonal given.color };

    ghost hinted = { λ given. None };

    /// Writes the outline of the cells of the table that the object names: what the border and the colors give at each edge with
    /// exactly one of these cells beside it, and at the crossings where such edges meet; where two of the cells touch at a corner
    /// alone, the character that was set for that. Cells outside the table are passed over. Without border, diagonal and colors
    /// nothing changes. Where memory is refused nothing changes, neither characters nor colors.
    ///
    /// `Highlight::outline(Columns::one(0), '*')` on a table of the style `ascii`:
    ///
    /// ```text
    /// *****---+
    /// * a * b |
    /// *---*---+
    /// * c * d |
    /// *****---+
    /// ```
    fn change(
        self,
        records: &mut R,
        cfg: &mut ColoredConfig,
        _dims: &mut D,
    ) -> Result<(), OutOfMemory>
        ensures ok { OnOk result (Changes (highlight_events (R.row_count records.old, R.column_count records.old)
            (O.listing self.target (R.row_count records.old) (R.column_count records.old)) self.border self.diagonal self.color) cfg.old cfg.new) }
        ensures err { OnErr result (cfg.new ≡ cfg.old) }
        ensures records { records.new ≡ records.old }
        ensures sizes { _dims.new ≡ _dims.old }
    {
        self.outline_on(records, cfg.config_mut())
    }

    fn hint_change(&self) -> Option<Entity> {
        None
    }
}

/// Writes the outline of the cells of a table that entities name, with characters and with colors, where they are given.
fn outline_cells(
    config: &mut SpannedConfig,
    entities: &BTreeSet<Entity>,
    shape: (usize, usize),
    border: Option<&GridBorder<char>>,
    diagonal: Option<&char>,
    color: Option<&BorderColor>,
) -> Result<(), OutOfMemory>
    ensures ok { OnOk result (borders.Changes (highlight_events shape entities.now.keys (option_copied border.entry) (option_copied diagonal.entry) (option_copied color.entry)) config.old config.new) }
    ensures err { OnErr result (config.new ≡ config.old) }
{
    let alloc = config.allocator();
    let cells = cells_inside(alloc, entities, shape)?;
    let characters = outline_writes(alloc, &cells, border, diagonal)?;
    let colors = color_writes(alloc, &cells, color)?;
    config.apply(characters, colors)
}

/// The writes of the outline of a set of cells, with colors, if they are given.
fn color_writes(
    alloc: Global,
    cells: &BTreeSet<Position>,
    color: Option<&BorderColor>,
) -> Result<Vec<Write<ANSIBuf>>, OutOfMemory>
    ensures { IfOk result (λ writes. writes_made writes.items ≡ written_around cells.now.keys (drawn_with (option_map border_texts (option_copied color.entry)) None)) }
{
    match color {
        Some(color) => {
            let texts = color.to_ansi(alloc)?;
            let writes = outline_writes(alloc, cells, Some(&texts), None);
            drop(texts);
            writes
        }
        None => Ok(Vec::new(alloc)),
    }
}
