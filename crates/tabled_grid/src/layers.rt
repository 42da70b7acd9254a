//! The store of border characters or colors, level by level.

ghost use Rattle.std.specs.Prelude.{◌≡◌, [], ◌∷◌, IsSomeAnd, OnOk, OnErr, None};

mod cell_border;
mod clearing;
mod copies;
mod drawn;
mod entity_border;
mod equality;
mod levels;
mod reads;
mod writes;

use crate::custom_lines::{put_line, take_line};
use crate::line_numbers::{KeptNumbers, LineNumbers};
use crate::{
    Borders, HorizontalLine, LineOf, Offset, OutOfMemory, Place, Position, Probes, Spot, Target,
    VerticalLine,
};
pub use entity_border::border_writes;
use std::alloc::Global;
use std::marker::Model;
use tabled_kept::{CountedMap, One};
use tabled_places::EdgePlace;

/// What a table keeps for its border places, of one kind of value: characters, or colors.
///
/// Each call is a list of events, or reads what the events so far have left; `docs/DEFINITIONS.md` says
/// how. A call that needs memory and is refused leaves the store as it was.
///
/// The levels above one another: full stops as the default, a class record with the top `-` alone, horizontal line 1 of `=`,
/// the cell (0, 1) with the upper side `x`, and `o` at number 1 of an edge:
///
/// ```text
/// .-o-.xxx.
/// . a . b .
/// .===.===.
/// . c . d .
/// .........
/// ```
#[derive(Debug)]
pub struct Layers<T, M = Probes> {
    alloc: Global,
    default_value: One<Option<T>, M>,
    class_record: One<Borders<T>, M>,
    vertical_lines: CountedMap<usize, VerticalLine<T>, M>,
    horizontal_lines: CountedMap<usize, HorizontalLine<T>, M>,
    cells: CountedMap<Spot, T, M>,
    horizontal_offsets: CountedMap<EdgePlace, T, M>,
    vertical_offsets: CountedMap<EdgePlace, T, M>,
    on_lines: CountedMap<LineOf, u128, M>,
    vertical_numbers: KeptNumbers<M>,
    horizontal_numbers: KeptNumbers<M>,
}

/// Written out, so that dropping a store is one call wherever its life ends, and not one for each field.
impl<T: Drop, M> Drop for Layers<T, M> {
    fn drop(self) {
        let Layers {
            alloc: _,
            default_value: _,
            class_record: _,
            vertical_lines: _,
            horizontal_lines: _,
            cells: _,
            horizontal_offsets: _,
            vertical_offsets: _,
            on_lines: _,
            vertical_numbers: _,
            horizontal_numbers: _,
        } = self;
    }
}

impl<T, M> Model for Layers<T, M> {
    ghost use Rattle.tabled_places.specs.State.{State};
    ghost use Rattle.tabled_kept.specs.Table.{table};
    ghost use Rattle.tabled_places.specs.Keys.{line_cmp, spot_cmp, edge_place_cmp};
    ghost use Rattle.tabled_grid.specs.Counted.{CellsCounted, LinesCounted, vertical_draws, horizontal_draws};
    ghost use Rattle.std.specs.Ordering.{nat_cmp};
    ghost use Rattle.std.specs.Coded.{codes};
    ghost use Rattle.std.specs.FinMap as map;

    ghost Value = { State T };

    ghost coded = { Prim.hlevel (codes, T.code, map.code) };

    ghost view = { λ layers. record {
      default_value = layers.default_value;
      class_record = layers.class_record;
      vertical_lines = table nat_cmp layers.vertical_lines;
      horizontal_lines = table nat_cmp layers.horizontal_lines;
      cells = table spot_cmp layers.cells;
      horizontal_offsets = table edge_place_cmp layers.horizontal_offsets;
      vertical_offsets = table edge_place_cmp layers.vertical_offsets;
    } };

    ghost invariant = { λ layers.
        CellsCounted (table line_cmp layers.on_lines) (table spot_cmp layers.cells)
        × LinesCounted vertical_draws layers.vertical_numbers (table nat_cmp layers.vertical_lines)
        × LinesCounted horizontal_draws layers.horizontal_numbers (table nat_cmp layers.horizontal_lines) };
}

impl<T, M> Layers<T, M> {
    /// Returns the allocator that the store keeps.
    pub fn allocator(&self) -> Global {
        self.alloc
    }
}

impl<T> Layers<T> {
    ghost use Rattle.tabled_places.specs.declared.event.Event.TheVariants.{Erase as erase};
    ghost use Rattle.tabled_places.specs.declared.event.Region.TheVariants.{Level as level_sites};
    ghost use Rattle.tabled_places.specs.Event.{Shows, Changes};
    ghost use Rattle.tabled_places.specs.State.{state_at, class_record_set};
    ghost use Rattle.tabled_places.specs.declared.site.Direction.TheVariants.{Horizontal, Vertical};
    ghost use Rattle.tabled_places.specs.declared.site.Part.TheVariants.{Mark as mark};
    ghost use Rattle.tabled_places.specs.declared.site.Site.TheVariants.{Line as of_line, Cell as at_spot};
    ghost use Rattle.tabled_places.specs.Calls.{default_set, line_set_horizontal, line_set_vertical, line_removed, spot_of, cell_set, cell_erased, offset_site, offset_set, offsets_erased, lines_erased};
    ghost use Rattle.tabled_places.specs.declared.place.LineOf.{LineOf as Line};

    /// Makes a store in which nothing was written. It keeps the allocator for the calls that need memory.
    pub fn new(alloc: Global) -> Self
        ensures { Shows [] (state_at result) }
    {
        Layers {
            alloc,
            default_value: One::new(None),
            class_record: One::new(Borders::empty()),
            vertical_lines: CountedMap::new(alloc),
            horizontal_lines: CountedMap::new(alloc),
            cells: CountedMap::new(alloc),
            horizontal_offsets: CountedMap::new(alloc),
            vertical_offsets: CountedMap::new(alloc),
            on_lines: CountedMap::new(alloc),
            vertical_numbers: KeptNumbers::new(),
            horizontal_numbers: KeptNumbers::new(),
        }
    }

    /// Sets the default, the weakest level, which shows wherever no other has something.
    pub fn set_default(&mut self, value: T)
    where
        T: Drop,
        ensures { Changes (default_set value) (state_at self.old) (state_at self.new) }
    {
        drop(self.default_value.replace(Some(value)));
    }

    /// Erases the default.
    pub fn erase_default(&mut self)
    where
        T: Drop,
        ensures { Changes (erase (level_sites 0) ∷ []) (state_at self.old) (state_at self.new) }
    {
        drop(self.default_value.replace(None));
    }

    /// Sets the class record whole: what it had before is gone, also where the new record has nothing.
    pub fn set_class(&mut self, borders: Borders<T>)
    where
        T: Drop,
        ensures { Changes (class_record_set borders) (state_at self.old) (state_at self.new) }
    {
        drop(self.class_record.replace(borders));
    }

    /// Erases the class record. One with nothing is left as it is: a style is set in a new table with 80 instructions less by it.
    pub fn erase_class(&mut self)
    where
        T: Drop,
        ensures { Changes (erase (level_sites 1) ∷ []) (state_at self.old) (state_at self.new) }
    {
        if self.class_record.get().is_empty() {
            return;
        }
        drop(self.class_record.replace(Borders::empty()));
    }

    /// Puts a custom horizontal line at index `line`, in place of the one that stood there. Only where none
    /// stood there can memory be refused.
    pub fn insert_hline(
        &mut self,
        line: usize,
        fields: HorizontalLine<T>,
    ) -> Result<(), OutOfMemory>
    where
        T: Drop,
        ensures ok { OnOk result (Changes (line_set_horizontal line fields) (state_at self.old) (state_at self.new)) }
        ensures err { OnErr result (self.new ≡ self.old) }
        ensures absent { OnErr result (state_at self.old (of_line (Line.Horizontal line) mark) ≡ None) }
    {
        let lines = &mut self.horizontal_lines;
        put_line(lines, &mut self.horizontal_numbers, line, fields)
    }

    /// Removes the custom horizontal line at index `line`, if one stands there.
    pub fn remove_hline(&mut self, line: usize)
    where
        T: Drop,
        ensures { Changes (line_removed (Line.Horizontal line)) (state_at self.old) (state_at self.new) }
    {
        let lines = &mut self.horizontal_lines;
        take_line(lines, &mut self.horizontal_numbers, line);
    }

    /// Puts a custom vertical line at index `line`, in place of the one that stood there. Only where none
    /// stood there can memory be refused.
    pub fn insert_vline(&mut self, line: usize, fields: VerticalLine<T>) -> Result<(), OutOfMemory>
    where
        T: Drop,
        ensures ok { OnOk result (Changes (line_set_vertical line fields) (state_at self.old) (state_at self.new)) }
        ensures err { OnErr result (self.new ≡ self.old) }
        ensures absent { OnErr result (state_at self.old (of_line (Line.Vertical line) mark) ≡ None) }
    {
        let lines = &mut self.vertical_lines;
        put_line(lines, &mut self.vertical_numbers, line, fields)
    }

    /// Removes the custom vertical line at index `line`, if one stands there.
    pub fn remove_vline(&mut self, line: usize)
    where
        T: Drop,
        ensures { Changes (line_removed (Line.Vertical line)) (state_at self.old) (state_at self.new) }
    {
        let lines = &mut self.vertical_lines;
        take_line(lines, &mut self.vertical_numbers, line);
    }

    /// Erases all custom lines of both directions. The room of their tables stays.
    pub fn erase_lines(&mut self)
    where
        T: Drop,
        ensures { Changes lines_erased (state_at self.old) (state_at self.new) }
    {
        self.vertical_lines.clear();
        self.horizontal_lines.clear();
        self.vertical_numbers.set(LineNumbers::none());
        self.horizontal_numbers.set(LineNumbers::none());
    }

    /// Writes at the cell level of a place. An edge has one site there, for all its places: `at` is not
    /// read. Only where nothing was there can memory be refused.
    pub fn set_cell(&mut self, place: Place, value: T) -> Result<(), OutOfMemory>
    where
        T: Drop,
        ensures ok { OnOk result (Changes (cell_set place value) (state_at self.old) (state_at self.new)) }
        ensures err { OnErr result (self.new ≡ self.old) }
        ensures absent { OnErr result (state_at self.old (at_spot (spot_of place)) ≡ None) }
    {
        self.replace(Target::Cell(place), value)?;
        Ok(())
    }

    /// Erases the cell level of a place; for an edge `at` is not read.
    pub fn erase_cell(&mut self, place: Place)
    where
        T: Drop,
        ensures { Changes (cell_erased place) (state_at self.old) (state_at self.new) }
    {
        self.erase_spot(place.spot());
    }

    /// Erases the whole cell level. The room of its rows of slots stays, so what stood in one can be written again without a
    /// request for memory.
    pub fn erase_cells(&mut self)
    where
        T: Drop,
        ensures { Changes (erase (level_sites 4) ∷ []) (state_at self.old) (state_at self.new) }
    {
        self.cells.clear();
        self.on_lines.clear();
    }

    /// Writes at a numbered place of an edge, counted from its start or back from its end. `at` is not read; a crossing has no such
    /// place and is passed over. Only where nothing was there can memory be refused.
    pub fn set_offset(&mut self, place: Place, offset: Offset, value: T) -> Result<(), OutOfMemory>
    where
        T: Drop,
        ensures ok { OnOk result (Changes (offset_set place offset value) (state_at self.old) (state_at self.new)) }
        ensures err { OnErr result (self.new ≡ self.old) }
        ensures absent { OnErr result (IsSomeAnd (offset_site place offset) (λ site. state_at self.old site ≡ None)) }
    {
        let target = match place {
            Place::Horizontal { row, col, .. } => Target::Horizontal(Position { row, col }, offset),
            Place::Vertical { row, col, .. } => Target::Vertical(Position { row, col }, offset),
            Place::Cross { .. } => return Ok(()),
        };
        self.replace(target, value)?;
        Ok(())
    }

    /// Erases all offsets on the edges of horizontal lines.
    pub fn erase_horizontal_offsets(&mut self)
    where
        T: Drop,
        ensures { Changes (offsets_erased Horizontal) (state_at self.old) (state_at self.new) }
    {
        self.horizontal_offsets.clear();
    }

    /// Erases all offsets on the edges of vertical lines.
    pub fn erase_vertical_offsets(&mut self)
    where
        T: Drop,
        ensures { Changes (offsets_erased Vertical) (state_at self.old) (state_at self.new) }
    {
        self.vertical_offsets.clear();
    }
}
