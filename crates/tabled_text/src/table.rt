//! A table of texts, which are its own or lent to it.

ghost use Rattle.std.specs.Prelude.{◌≡◌, [], length, slice_index_or, IfOk};
ghost use Rattle.tabled_configuration.specs.Colored.{Shows};
ghost use Rattle.tabled_cells.specs.TextsBy.{texts_by};
ghost use Rattle.tabled_text.specs.Refusal.{unequal as refusal_of};

mod changed;
mod columns;
mod copies;
mod found;
mod markdown;
mod merged;
mod printing;

use crate::TableError;
use crate::fitting::{frame_width, least_for_texts};
use std::alloc::Global;
use std::convert::AsStr;
use std::marker::Model;
use tabled_border::OutOfMemory;
use tabled_changes::{CellOption, ColoredConfig, TableOption, modify};
use tabled_configuration::SpannedConfig;
use tabled_measure::measure::{sizes_of, unequal_row};
use tabled_numbers::column_count;
use tabled_object::{FixedDimension, Object, Shape};

/// A table of texts with its sizes and its configuration: options draw its borders, and it prints itself.
///
/// Each column is as wide as its widest cell and two more columns of the terminal, for a space on each side of a cell; each
/// row is as high as its highest cell has lines. Where padding is set it counts in place of the spaces. Where cells span, the columns and
/// rows of each have room for it together. Indices are counted from 0.
///
/// Two rows of two cells after `with(Style::rounded())`, and after a further `modify(Cell::new(1, 0), Border::filled('#'))`:
///
/// ```text
/// ╭───┬───╮     ╭───┬───╮
/// │ a │ b │     │ a │ b │
/// ├───┼───┤     #####───┤
/// │ c │ d │     # c # d │
/// ╰───┴───╯     #####───╯
/// ```
///
/// A [`TextTable`](crate::TextTable) has texts of its own, which can be edited; a [`LentTable`](crate::LentTable) is lent its texts, and
/// copies none.
#[derive(Debug)]
pub struct Table<T: AsStr + Drop> {
    pub(crate) cells: Vec<Vec<T>>,
    pub(crate) sizes: FixedDimension,
    pub(crate) config: Box<ColoredConfig>,
}

/// Written out, so that dropping a table is one call wherever its life ends.
impl<T: AsStr + Drop> Drop for Table<T> {
    fn drop(self) {
        let Table {
            cells,
            sizes,
            config,
        } = self;
        drop(cells);
        drop(sizes);
        drop(config);
    }
}

impl<T: AsStr + Drop> Model for Table<T> {
    ghost use Rattle.std.specs.Prelude.{◌≡◌, None};
    ghost use Rattle.tabled_cells.specs.TextsBy.{texts_by};
    ghost use Rattle.tabled_measure.specs.Cells.{AreUtf8};
    ghost use Rattle.tabled_measure.specs.Sizes.{column_widths, row_heights, unequal_row};
    ghost use Rattle.tabled_text.specs.TextTable.{Drawing, drawing_code};

    ghost Value = { Drawing };

    ghost coded = { drawing_code };

    ghost view = { λ table. record { texts = texts_by T.text table.cells.items; sizes = table.sizes; config = table.config.value } };

    ghost invariant = { λ table.
        (unequal_row (texts_by T.text table.cells.items) ≡ None)
        × (table.sizes.widths.items ≡ column_widths (texts_by T.text table.cells.items))
        × (table.sizes.heights.items ≡ row_heights (texts_by T.text table.cells.items))
        × AreUtf8 (texts_by T.text table.cells.items) };
}

impl<T: AsStr + Drop> Table<T> {
    ghost use Rattle.std.specs.Prelude.{◌≡◌, ℕ, List, [], None, Err, map, max, min, length, take, IfOk, OnOk, OnErr, MatchOption, IsOkUnless};
    ghost use Rattle.std.specs.Borrow.{Lends, sem};
    ghost use Rattle.tabled_configuration.specs.Colored.{Shows, Changes};
    ghost use Rattle.tabled_configuration.specs.Configuration.{ConfigEvent};
    ghost use Rattle.tabled_configuration.specs.Configuration as borders;
    ghost use Rattle.tabled_object.specs.declared.dimension.FixedDimension.{FixedDimension};
    ghost use Rattle.tabled_configuration.specs.Options.{MakesInTurn};
    ghost use Rattle.tabled_cells.specs.TextsBy.{texts_by};
    ghost use Rattle.tabled_text.specs.Fitted.{least_width};
    ghost use Rattle.tabled_text.specs.Refusal.{unequal};
    ghost use Rattle.tabled_text.specs.declared.table_error.TableError.{TableError as Refusal};
    ghost use Rattle.tabled_measure.specs.Sizes.{column_count, column_widths, row_heights, unequal_row};
    ghost use Rattle.tabled_text.specs.TextTable.{AreRead, shape_of};
    ghost use Rattle.tabled_text.specs.contracts.table.Table.{the_row};
    ghost use Rattle.tabled_changes.specs.contracts.colored_config.ColoredConfig.{the_row as config_row};

    /// Makes a table of these rows of texts, which are taken as they are. Refused where a row has more or fewer cells than row 0, with the
    /// number of the first such row and both counts, or where memory is refused.
    ///
    /// `LentTable::from_rows(alloc, vec![in alloc; vec![in alloc; "a", "b"]?, vec![in alloc; "c", "d"]?]?)?` prints what
    /// `TextTable::new(alloc, &[&["a", "b"], &["c", "d"]])?` does.
    pub fn from_rows(alloc: Global, rows: Vec<Vec<T>>) -> Result<Self, TableError>
        ensures texts { IfOk result (λ table. table.texts ≡ texts_by T.text rows.items) }
        ensures config { IfOk result (λ table. Shows [] table.config) }
        ensures refusal { MatchOption (unequal_row (texts_by T.text rows.items)) (IsOkUnless result Refusal.OutOfMemory) (λ row. result ≡ Err (unequal (texts_by T.text rows.items) row)) }
    {
        if let Some(row) = unequal_row(&rows) {
            return Err(unequal(&rows, row));
        }
        let table = Table::of_equal_rows(alloc, rows)?;
        Ok(table)
    }

    /// A table of rows that have as many cells each.
    fn of_equal_rows(alloc: Global, rows: Vec<Vec<T>>) -> Result<Self, OutOfMemory>
        requires { unequal_row (texts_by T.text rows.items) ≡ None }
        ensures texts { IfOk result (λ table. table.texts ≡ texts_by T.text rows.items) }
        ensures config { IfOk result (λ table. Shows [] table.config) }
    {
        let sizes = sizes_of(alloc, &rows)?;
        Ok(Table {
            cells: rows,
            sizes,
            config: unset_config(alloc)?,
        })
    }

    /// Applies an option to the whole table, and lends the table for a further call. Where memory is refused the table is as it
    /// was, as after `apply`.
    ///
    /// `table.with(Style::rounded())?`:
    ///
    /// ```text
    /// ╭───┬───╮
    /// │ a │ b │
    /// ├───┼───┤
    /// │ c │ d │
    /// ╰───┴───╯
    /// ```
    pub fn with<P>(&mut self, option: P) -> Result<&mut Self, OutOfMemory>
    where
        P: TableOption<Shape, ColoredConfig, FixedDimension> + Drop,
        ensures config { IfOk result (λ table. (read : FixedDimension) × AreRead self.old read × Changes (P.makes option (shape_of self.old.texts) read self.old.config) self.old.config table.now.config) }
        ensures texts { IfOk result (λ table. table.now.texts ≡ self.old.texts) }
        ensures sizes { IfOk result (λ table. table.now.sizes ≡ self.old.sizes) }
        ensures same_reference { IfOk result (λ table. table.ghost_name ≡ self.entry.ghost_name) }
    {
        self.apply(option)?;
        Ok(self)
    }

    /// Applies an option to the cells of an object, and lends the table for a further call. Where memory is refused some cells
    /// may have been changed, as after `apply_to`.
    ///
    /// `table.with(Style::ascii())?.modify(Cell::new(0, 0), Border::filled('#'))?`:
    ///
    /// ```text
    /// #####---+
    /// # a # b |
    /// #####---+
    /// | c | d |
    /// +---+---+
    /// ```
    pub fn modify<O, P>(&mut self, object: O, option: P) -> Result<&mut Self, OutOfMemory>
    where
        O: Object<Shape> + Drop,
        P: CellOption<Shape, ColoredConfig> + Drop,
        ensures config { IfOk result (λ table. (made : List ConfigEvent) × MakesInTurn Changes (map (P.makes option (shape_of self.old.texts))
            (O.listing object (length self.old.texts) (column_count self.old.texts))) made self.old.config table.now.config) }
        ensures texts { IfOk result (λ table. table.now.texts ≡ self.old.texts) }
        ensures sizes { IfOk result (λ table. table.now.sizes ≡ self.old.sizes) }
        ensures same_reference { IfOk result (λ table. table.ghost_name ≡ self.entry.ghost_name) }
    {
        self.apply_to(&object, &option)?;
        Ok(self)
    }

    /// Applies an option to the whole table: its configuration changes by the option's events and by nothing else. An option that reads
    /// sizes, as a text on a line does, reads those with which the table would be printed now. Where memory is refused the table is as it
    /// was.
    pub fn apply<P>(&mut self, option: P) -> Result<(), OutOfMemory>
    where
        P: TableOption<Shape, ColoredConfig, FixedDimension> + Drop,
        ensures config { OnOk result ((read : FixedDimension) × AreRead self.old read × Changes (P.makes option (shape_of self.old.texts) read self.old.config) self.old.config self.new.config) }
        ensures texts { self.new.texts ≡ self.old.texts }
        ensures sizes { self.new.sizes ≡ self.old.sizes }
        ensures err { OnErr result (self.new ≡ self.old) }
    {
        let mut shape = self.shape();
        match self.view().other_sizes()? {
            Some(mut sizes) => option.change(&mut shape, &mut *self.config, &mut sizes),
            None => option.change(&mut shape, &mut *self.config, &mut self.sizes),
        }
    }

    /// Applies an option to the cells of each entity that an object lists, in turn. Where memory is refused the option may have
    /// been applied to the first ones of them, to each whole.
    pub fn apply_to<O, P>(&mut self, object: &O, option: &P) -> Result<(), OutOfMemory>
    where
        O: Object<Shape>,
        P: CellOption<Shape, ColoredConfig>,
        ensures config { OnOk result ((made : List ConfigEvent) × MakesInTurn Changes (map (P.makes option.now (shape_of self.old.texts))
            (O.listing object.now (length self.old.texts) (column_count self.old.texts))) made self.old.config self.new.config) }
        ensures err { OnErr result ((count : ℕ) × (made : List ConfigEvent) × MakesInTurn Changes (map (P.makes option.now (shape_of self.old.texts))
            (take count (O.listing object.now (length self.old.texts) (column_count self.old.texts)))) made self.old.config self.new.config) }
        ensures texts { self.new.texts ≡ self.old.texts }
        ensures sizes { self.new.sizes ≡ self.old.sizes }
    {
        let alloc = self.config().config().allocator();
        let mut shape = self.shape();
        modify(alloc, &mut shape, &mut *self.config, object, option)
    }

    /// Returns the configuration that options change.
    pub fn config(&self) -> &ColoredConfig
        ensures { result.now ≡ self.now.config }
    {
        &self.config
    }

    /// Returns the configuration, to be changed by its own calls.
    pub fn config_mut(&mut self) -> &mut ColoredConfig
        ensures* writes_back { sem 𝓛 (Lends (the_row T.row T.AsStr) config_row self.entry result (λ config. record self.old { config = config })) }
        ensures value { result.now ≡ self.old.config }
    {
        &mut *self.config
    }

    /// Returns how many rows and columns the table has.
    pub fn shape(&self) -> Shape
        ensures { result ≡ shape_of self.now.texts }
    {
        Shape {
            rows: self.cells.len(),
            cols: self.sizes.widths.len(),
        }
    }

    /// Returns how wide the columns are and how high the rows, with the spaces around cells, where no cell spans and no padding is set.
    pub fn sizes(&self) -> &FixedDimension
        ensures value { result.now ≡ self.now.sizes }
        ensures widths { result.now.widths.items ≡ column_widths self.now.texts }
        ensures heights { result.now.heights.items ≡ row_heights self.now.texts }
    {
        &self.sizes
    }

    /// Returns the texts of the cells, row by row, as they were given.
    pub fn texts(&self) -> &[Vec<T>]
        ensures { texts_by T.text result.now ≡ self.now.texts }
    {
        self.cells.as_slice()
    }

    /// Returns the texts of the cells, row by row, handed over.
    pub fn into_rows(self) -> Vec<Vec<T>>
        ensures { texts_by T.text result.items ≡ self.texts }
    {
        let Table {
            cells,
            sizes,
            config,
        } = self;
        drop(sizes);
        drop(config);
        cells
    }

    /// Returns the least total that `fit_with` keeps the table within, with this least width of a column, where each character takes one
    /// column of the terminal: what its padding, its vertical lines and its margin take, and for each column `least`, or what its texts ask
    /// for, if that is less. For `fit` that is `least_width(1)`, and so is `least_width(0)`. Where it can't be counted it is `usize::MAX`.
    pub fn least_width(&self, least: usize) -> usize
        ensures { (es : List ConfigEvent) → borders.Shows es self.now.config.spanned → result ≡ min (least_width (max least 1) es self.now.texts) usize.MAX }
    {
        let frame = frame_width(self.config().config(), self.shape());
        frame.saturating_add(least_for_texts(&self.sizes().widths, least.max(1)))
    }
}

/// A configuration in which nothing is set.
pub(crate) fn unset_config(alloc: Global) -> Result<Box<ColoredConfig>, OutOfMemory>
    ensures { IfOk result (λ config. Shows [] config.value) }
{
    // matched, since `?` would move what a refusal hands back, the configuration
    match Box::new(alloc, ColoredConfig::new(SpannedConfig::new(alloc))) {
        Ok(config) => Ok(config),
        Err(_) => Err(OutOfMemory),
    }
}

/// How many cells a row has; none, if there is no such row.
fn cells_of<T: AsStr>(rows: &[Vec<T>], row: usize) -> usize
    ensures { result ≡ length (slice_index_or (texts_by T.text rows.now) row []) }
{
    match rows.get(row) {
        Some(cells) => cells.len(),
        None => 0,
    }
}

/// The refusal of rows of which one has more or fewer cells than the first.
pub(crate) fn unequal<T: AsStr>(rows: &[Vec<T>], row: usize) -> TableError
    ensures { result ≡ refusal_of (texts_by T.text rows.now) row }
{
    TableError::UnequalRows {
        row,
        cells: cells_of(rows, row),
        columns: column_count(rows),
    }
}
