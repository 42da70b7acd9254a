//! Texts of a table in the place of others.

ghost use Rattle.std.specs.Prelude.{◌≡◌, ℕ, List, map, string_bytes, IfOk};
ghost use Rattle.std.specs.List.{list_all};
ghost use Rattle.tabled_cells.specs.TextsBy.{texts_by};
ghost use Rattle.tabled_clean.specs.Steering.{cleaned, is_clean};
ghost use Rattle.tabled_width.specs.Texts.{texts};
ghost use Rattle.tabled_width.specs.Tabs.{tabs_expanded};
ghost use Rattle.tabled_measure.specs.Changed.{row_changed, cells_changed, each_text, texts_of_cells, within, texts_of_columns};

use std::alloc::Global;
use std::collections::BTreeSet;
use std::convert::AsStr;
use tabled_border::OutOfMemory;
use tabled_clean::{cleaned, is_clean};
use tabled_object::{Entity, Position, is_covered};
use tabled_width::{Overflow, TextLimit, tabs_expanded};

/// What is made of the text of each cell.
pub trait Change {
    /// What is made of the text of the cell at a row and a column.
    ghost change: { Self → ℕ → ℕ → List ℕ → List ℕ };

    /// What is made of the text of the cell at a row and a column. Only memory can be refused.
    fn changed(
        &self,
        alloc: Global,
        row: usize,
        col: usize,
        text: &str,
    ) -> Result<String, OutOfMemory>
        ensures { IfOk result (λ found. string_bytes found ≡ change self.now row col text.now) };
}

/// Each text is cleaned.
#[derive(Drop)]
pub struct Cleaning;

impl Change for Cleaning {
    ghost change = { λ cleaning. each_text cleaned };

    fn changed(
        &self,
        alloc: Global,
        _row: usize,
        _col: usize,
        text: &str,
    ) -> Result<String, OutOfMemory> {
        cleaned(alloc, text)
    }
}

/// Spaces stand in the place of tabs.
#[derive(Drop)]
pub struct ExpandedTabs {
    pub every: usize,
}

impl Change for ExpandedTabs {
    ghost change = { λ tabs. each_text (tabs_expanded tabs.every) };

    fn changed(
        &self,
        alloc: Global,
        _row: usize,
        _col: usize,
        text: &str,
    ) -> Result<String, OutOfMemory> {
        tabs_expanded(alloc, text, self.every)
    }
}

/// The texts of the cells that entities cover are limited.
#[derive(Drop)]
pub struct LimitedCells<'a, L> {
    pub entities: &'a BTreeSet<Entity>,
    pub limit: &'a L,
}

impl<L: TextLimit> Change for LimitedCells<'_, L> {
    ghost change = { λ cells. texts_of_cells cells.entities.now.keys (L.limits cells.limit.now) };

    fn changed(
        &self,
        alloc: Global,
        row: usize,
        col: usize,
        text: &str,
    ) -> Result<String, OutOfMemory> {
        if is_covered(self.entities, Position::new(row, col)) {
            return self.limit.limited(alloc, text);
        }
        Ok(String::from_str(alloc, text)?)
    }
}

/// The texts of each column are kept within so many columns of the terminal.
#[derive(Drop)]
pub struct LimitedColumns<'a, 'b> {
    pub widths: &'a [usize],
    pub how: Overflow<'b>,
}

impl Change for LimitedColumns<'_, '_> {
    ghost change = { λ columns. texts_of_columns columns.how columns.widths.now };

    fn changed(
        &self,
        alloc: Global,
        _row: usize,
        col: usize,
        text: &str,
    ) -> Result<String, OutOfMemory> {
        match self.widths.get(col) {
            Some(width) => self.how.limited(alloc, text, *width),
            None => Ok(String::from_str(alloc, text)?),
        }
    }
}

/// Whether nothing in the cells of a row steers a terminal.
fn is_clean_row<T: AsStr>(cells: &[T]) -> bool
    ensures { result ≡ list_all (λ text. is_clean (T.text text)) cells.now }
{
    cells.iter().all(|text| is_clean(text.as_str()))
}

/// Whether nothing in the cells of rows steers a terminal.
pub fn are_clean<T: AsStr>(rows: &[Vec<T>]) -> bool
    ensures { result ≡ list_all (λ row. list_all (λ text. is_clean (T.text text)) row.items) rows.now }
{
    rows.iter().all(|cells| is_clean_row(cells))
}

/// The cells of a row, each changed.
#[tactic(auto, unfolding(crate::specs::Changed::row_changed))]
fn changed_row<T: AsStr, C: Change>(
    alloc: Global,
    change: &C,
    row: usize,
    cells: &[T],
) -> Result<Vec<String>, OutOfMemory>
    ensures { IfOk result (λ found. map string_bytes found.items ≡ row_changed (C.change change.now row) (map T.text cells.now)) }
{
    let mut found = Vec::with_capacity(alloc, cells.len())?;
    for (col, text) in cells.iter().enumerate() {
        found.push(change.changed(alloc, row, col, text.as_str())?)?;
    }
    Ok(found)
}

/// The cells of rows, each changed.
#[tactic(auto, unfolding(crate::specs::Changed::cells_changed))]
pub fn changed_rows<T: AsStr, C: Change>(
    alloc: Global,
    change: &C,
    rows: &[Vec<T>],
) -> Result<Vec<Vec<String>>, OutOfMemory>
    ensures { IfOk result (λ found. texts found.items ≡ cells_changed (C.change change.now) (texts_by T.text rows.now)) }
{
    let mut found = Vec::with_capacity(alloc, rows.len())?;
    for (row, cells) in rows.iter().enumerate() {
        found.push(changed_row(alloc, change, row, cells)?)?;
    }
    Ok(found)
}
