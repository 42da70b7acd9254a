//! The store of borders, for every type of value.
#![tactic(auto, using(crate::proofs::Shown::shown_next, crate::proofs::Shown::shown_then))]

ghost use Rattle.std.specs.Prelude.{◌≡◌, ◌↔◌, ℕ, List, [], ◌∷◌, ◌++◌, IsTrue, Option, OnOk, OnErr, option_copied, ◌||◌, IsOk, None, IsSomeAnd};
ghost use Rattle.std.specs.Option.{option_eq};
ghost use Rattle.tabled_places.specs.declared.event.Event.{Event};
ghost use Rattle.tabled_places.specs.declared.event.Event.TheVariants.{Erase as erase};
ghost use Rattle.tabled_places.specs.declared.event.Region.TheVariants.{Level as level_sites, One as one_site};
ghost use Rattle.tabled_places.specs.declared.event.Written.{Written};
ghost use Rattle.tabled_places.specs.declared.place.LineOf.{LineOf as Line};
ghost use Rattle.tabled_places.specs.declared.place.Place.{Place as At};
ghost use Rattle.tabled_places.specs.declared.site.Direction.TheVariants.{Horizontal, Vertical};
ghost use Rattle.tabled_places.specs.declared.site.Site.{Site};
ghost use Rattle.tabled_places.specs.Calls.{default_set, line_set_horizontal, line_set_vertical, line_removed, lines_erased, cell_set, cell_erased, offset_set, offsets_erased, border_set, border_erased, entity_border_erased, entity_border_set, frame_erased, writes_anew, spot_of, offset_site};
ghost use Rattle.tabled_places.specs.Drawn.{Drawn, drawn};
ghost use Rattle.tabled_places.specs.Event.{replay, Shows, Changes};
ghost use Rattle.tabled_kept.specs.Probing.{IsRaised};
ghost use Rattle.tabled_grid.specs.Same.{same_written};
ghost use Rattle.tabled_places.specs.State.{State, class_record_set, state_at, writes_of};
ghost use Rattle.tabled_places.specs.Value.{value};
ghost use Rattle.std.specs.List.{filter};
ghost use Rattle.tabled_places.specs.Writes.{site_of, writes_made};
ghost use Rattle.tabled_object.specs.Entities.{cells_of, is_inside};
ghost use Rattle.tabled_places.specs.declared.site.Site.TheVariants.{Line as of_line, Cell as at_spot};
ghost use Rattle.tabled_places.specs.declared.site.Part.TheVariants.{Mark as mark};

use std::alloc::Global;
use tabled_border::{Border, Keep, OutOfMemory};
use tabled_grid::{
    Borders, HorizontalLine, Layers, LineOf, Offset, Place, Target, VerticalLine, Write,
};
use tabled_kept::Meter;
use tabled_object::{Entity, Position};

/// A new store shows that nothing happened.
pub fn new_store<T>(alloc: Global) -> Layers<T>
    ensures { Shows [] (state_at result) }
{
    Layers::new(alloc)
}

/// What shows at a place is the value that the events leave there, for every list of events that the store shows, found in at
/// most six readings.
pub fn value_of_a_place<'a, T, M: Meter>(
    store: &'a Layers<T, M>,
    place: Place,
    shape: (usize, usize),
    size: usize,
    probes: &mut M,
) -> Option<&'a T>
    ensures value { (events : List (Event T)) → Shows events (state_at store.now) → option_copied result ≡ value (replay events) shape size place }
    ensures six_readings { IsRaised 6 (M.made probes.old) (M.made probes.new) }
{
    store.at(place, shape, size, probes)
}

/// A line is drawn where the events draw it, for every list of events that the store shows, found in at most six readings.
pub fn line_is_drawn<T, M: Meter>(
    store: &Layers<T, M>,
    line: LineOf,
    count: usize,
    probes: &mut M,
) -> bool
    ensures drawn { (events : List (Event T)) → Shows events (state_at store.now) → IsTrue result ↔ IsTrue (drawn events count line) }
    ensures six_readings { IsRaised 6 (M.made probes.old) (M.made probes.new) }
{
    store.draws(line, count, probes)
}

/// A value written as the default.
pub fn default_written<T: Drop>(store: &mut Layers<T>, value: T)
    ensures { (before : List (Event T)) → Shows before (state_at store.old) → Shows (before ++ (default_set value)) (state_at store.new) }
{
    store.set_default(value);
}

/// The default erased.
pub fn default_erased<T: Drop>(store: &mut Layers<T>)
    ensures { (before : List (Event T)) → Shows before (state_at store.old) → Shows (before ++ (erase (level_sites 0) ∷ [])) (state_at store.new) }
{
    store.erase_default();
}

/// A class record set whole: what was there before is gone, also where the new one has nothing.
pub fn class_record_set<T: Drop>(store: &mut Layers<T>, borders: Borders<T>)
    ensures { (before : List (Event T)) → Shows before (state_at store.old) → Shows (before ++ (class_record_set borders)) (state_at store.new) }
{
    store.set_class(borders);
}

/// The class record erased.
pub fn class_record_erased<T: Drop>(store: &mut Layers<T>)
    ensures { (before : List (Event T)) → Shows before (state_at store.old) → Shows (before ++ (erase (level_sites 1) ∷ [])) (state_at store.new) }
{
    store.erase_class();
}

/// A custom horizontal line put at an index, in place of the one that stood there, where no memory is asked for.
pub fn horizontal_line_put<T: Drop>(
    store: &mut Layers<T>,
    index: usize,
    line: HorizontalLine<T>,
) -> Result<(), OutOfMemory>
    ensures shown { (before : List (Event T)) → Shows before (state_at store.old) → OnOk result (Shows (before ++ line_set_horizontal index line) (state_at store.new)) }
    ensures unchanged { OnErr result (store.new ≡ store.old) }
    ensures absent { OnErr result (state_at store.old (of_line (Line.Horizontal index) mark) ≡ None) }
{
    store.insert_hline(index, line)
}

/// The custom horizontal line of an index removed.
pub fn horizontal_line_removed<T: Drop>(store: &mut Layers<T>, index: usize)
    ensures { (before : List (Event T)) → Shows before (state_at store.old) → Shows (before ++ (line_removed (Line.Horizontal index))) (state_at store.new) }
{
    store.remove_hline(index);
}

/// A custom vertical line put at an index, in place of the one that stood there, where no memory is asked for.
pub fn vertical_line_put<T: Drop>(
    store: &mut Layers<T>,
    index: usize,
    line: VerticalLine<T>,
) -> Result<(), OutOfMemory>
    ensures shown { (before : List (Event T)) → Shows before (state_at store.old) → OnOk result (Shows (before ++ line_set_vertical index line) (state_at store.new)) }
    ensures unchanged { OnErr result (store.new ≡ store.old) }
    ensures absent { OnErr result (state_at store.old (of_line (Line.Vertical index) mark) ≡ None) }
{
    store.insert_vline(index, line)
}

/// The custom vertical line of an index removed.
pub fn vertical_line_removed<T: Drop>(store: &mut Layers<T>, index: usize)
    ensures { (before : List (Event T)) → Shows before (state_at store.old) → Shows (before ++ (line_removed (Line.Vertical index))) (state_at store.new) }
{
    store.remove_vline(index);
}

/// All custom lines removed.
pub fn lines_erased<T: Drop>(store: &mut Layers<T>)
    ensures { (before : List (Event T)) → Shows before (state_at store.old) → Shows (before ++ (lines_erased)) (state_at store.new) }
{
    store.erase_lines();
}

/// A value written for cells at the edge or the crossing of a place; where one stood there no memory is asked for.
pub fn cell_written<T: Drop>(
    store: &mut Layers<T>,
    place: Place,
    value: T,
) -> Result<(), OutOfMemory>
    ensures shown { (before : List (Event T)) → Shows before (state_at store.old) → OnOk result (Shows (before ++ cell_set place value) (state_at store.new)) }
    ensures unchanged { OnErr result (store.new ≡ store.old) }
    ensures absent { OnErr result (state_at store.old (at_spot (spot_of place)) ≡ None) }
{
    store.set_cell(place, value)
}

/// What cells have at the edge or the crossing of a place erased.
pub fn cell_erased<T: Drop>(store: &mut Layers<T>, place: Place)
    ensures { (before : List (Event T)) → Shows before (state_at store.old) → Shows (before ++ (cell_erased place)) (state_at store.new) }
{
    store.erase_cell(place);
}

/// All that cells have erased.
pub fn cells_erased<T: Drop>(store: &mut Layers<T>)
    ensures { (before : List (Event T)) → Shows before (state_at store.old) → Shows (before ++ (erase (level_sites 4) ∷ [])) (state_at store.new) }
{
    store.erase_cells();
}

/// A value written at a numbered place of an edge; where one stood there no memory is asked for.
pub fn offset_written<T: Drop>(
    store: &mut Layers<T>,
    place: Place,
    offset: Offset,
    value: T,
) -> Result<(), OutOfMemory>
    ensures shown { (before : List (Event T)) → Shows before (state_at store.old) → OnOk result (Shows (before ++ offset_set place offset value) (state_at store.new)) }
    ensures unchanged { OnErr result (store.new ≡ store.old) }
    ensures absent { OnErr result (IsSomeAnd (offset_site place offset) (λ site. state_at store.old site ≡ None)) }
{
    store.set_offset(place, offset, value)
}

/// All values at numbered places of horizontal edges erased.
pub fn horizontal_offsets_erased<T: Drop>(store: &mut Layers<T>)
    ensures { (before : List (Event T)) → Shows before (state_at store.old) → Shows (before ++ (offsets_erased Horizontal)) (state_at store.new) }
{
    store.erase_horizontal_offsets();
}

/// All values at numbered places of vertical edges erased.
pub fn vertical_offsets_erased<T: Drop>(store: &mut Layers<T>)
    ensures { (before : List (Event T)) → Shows before (state_at store.old) → Shows (before ++ (offsets_erased Vertical)) (state_at store.new) }
{
    store.erase_vertical_offsets();
}

/// What a border gives, written around a cell; where something stood at each of these places no memory is asked for.
pub fn border_written<T: Drop>(
    store: &mut Layers<T>,
    pos: Position,
    border: Border<T>,
) -> Result<(), OutOfMemory>
    ensures shown { (before : List (Event T)) → Shows before (state_at store.old) → OnOk result (Shows (before ++ border_set pos border) (state_at store.new)) }
    ensures unchanged { OnErr result (store.new ≡ store.old) }
    ensures absent { OnErr result (IsTrue (writes_anew (state_at store.old) (border_set pos border))) }
{
    store.set_border(pos, border)
}

/// What stands around a cell erased.
pub fn border_erased<T: Drop>(store: &mut Layers<T>, pos: Position)
    ensures { (before : List (Event T)) → Shows before (state_at store.old) → Shows (before ++ (border_erased pos)) (state_at store.new) }
{
    store.erase_border(pos);
}

/// Writes what the border gives at the cell level of the sides and corners of each cell that the entity names in a table of
/// `shape.0` rows and `shape.1` columns, row by row: for what two cells share the later one counts. Cells outside are passed
/// over. Where memory is refused nothing changes; without a cell inside none is asked for.
pub fn entity_border_written<T>(
    store: &mut Layers<T>,
    entity: Entity,
    shape: (usize, usize),
    border: &Border<T>,
) -> Result<(), OutOfMemory>
where
    T: Keep,
    ensures shown { (before : List (Event T)) → Shows before (state_at store.old) → OnOk result (Shows (before ++ (entity_border_set entity shape border.now)) (state_at store.new)) }
    ensures unchanged { OnErr result (store.new ≡ store.old) }
    ensures without_cells { filter (is_inside shape.0 shape.1) (cells_of entity shape.0 shape.1) ≡ [] → IsOk result }
{
    store.set_entity_border(entity, shape, border)
}

/// Erases the cell level of the sides and corners of each cell that the entity names in a table of `shape.0` rows and `shape.1`
/// columns, also of those that it shares with cells beside it. Cells outside are passed over.
pub fn entity_border_erased<T>(store: &mut Layers<T>, entity: Entity, shape: (usize, usize))
where
    T: Drop,
    ensures { (before : List (Event T)) → Shows before (state_at store.old) → Shows (before ++ (entity_border_erased entity shape)) (state_at store.new) }
{
    store.erase_entity_border(entity, shape);
}

/// Erases the cell level of the outer lines of a table of `shape.0` rows and `shape.1` columns: of the edges and crossings on
/// horizontal lines 0 and `shape.0` and on vertical lines 0 and `shape.1`. A table without rows or without columns has none of
/// them.
pub fn frame_erased<T>(store: &mut Layers<T>, shape: (usize, usize))
where
    T: Drop,
    ensures { (before : List (Event T)) → Shows before (state_at store.old) → Shows (before ++ (frame_erased shape)) (state_at store.new) }
{
    store.erase_frame(shape);
}

/// Makes the writes of a list, in its order: of two at one site the later one counts. Where memory is refused nothing changes;
/// where something stood at each of their sites, none is asked for.
pub fn writes_made<T>(store: &mut Layers<T>, writes: Vec<Write<T>>) -> Result<(), OutOfMemory>
where
    T: Drop,
    ensures shown { (before : List (Event T)) → Shows before (state_at store.old) → OnOk result (Shows (before ++ (writes_made writes.items)) (state_at store.new)) }
    ensures unchanged { OnErr result (store.new ≡ store.old) }
    ensures absent { OnErr result (IsTrue (writes_anew (state_at store.old) (writes_made writes.items))) }
{
    store.write_all(writes)
}

/// Makes the writes of two lists, one in this store and one in another, whole or not at all over both: where memory is refused
/// neither changes; where something stood at each of their sites, none is asked for.
pub fn writes_made_in_two_stores<T: Drop, U: Drop>(
    store: &mut Layers<T>,
    writes: Vec<Write<T>>,
    other: &mut Layers<U>,
    others: Vec<Write<U>>,
) -> Result<(), OutOfMemory>
    ensures shown { (before : List (Event T)) → Shows before (state_at store.old) → OnOk result (Shows (before ++ (writes_made writes.items)) (state_at store.new)) }
    ensures others_shown { (before : List (Event U)) → Shows before (state_at other.old) → OnOk result (Shows (before ++ writes_made others.items) (state_at other.new)) }
    ensures unchanged { OnErr result (store.new ≡ store.old) }
    ensures others_unchanged { OnErr result (other.new ≡ other.old) }
    ensures absent { OnErr result (IsTrue (writes_anew (state_at store.old) (writes_made writes.items) || writes_anew (state_at other.old) (writes_made others.items))) }
{
    store.write_both(writes, other, others)
}

/// Erases what stands at a target, and nothing else.
pub fn target_erased<T>(store: &mut Layers<T>, target: Target)
where
    T: Drop,
    ensures { (before : List (Event T)) → Shows before (state_at store.old) → Shows (before ++ (erase (one_site (site_of target)) ∷ [])) (state_at store.new) }
{
    store.erase_at(target);
}

/// A list of events that was shown before a change, followed by the events of the change, is shown after it.
pub fn shown_after_change<T>()
    ensures { (before es : List (Event T)) (old new : Site → Option (Written T))
        → Changes es old new → Shows before old → Shows (before ++ es) new }
{}

/// Two changes in a row are the change by the events of both.
pub fn changes_in_a_row<T>()
    ensures { (es fs : List (Event T)) (old between new : Site → Option (Written T))
        → Changes es old between → Changes fs between new → Changes (es ++ fs) old new }
{}

/// What the values of places and the drawn lines read off a store is what they read off any list of
/// events that it shows.
pub fn read_alike<T>()
    ensures values { (es : List (Event T)) (state : Site → Option (Written T)) (shape : ℕ × ℕ) (size : ℕ) (place : At)
        → Shows es state → value state shape size place ≡ value (replay es) shape size place }
    ensures lines { (es : List (Event T)) (state : Site → Option (Written T)) (count : ℕ) (line : Line)
        → Shows es state → Drawn state count line ↔ IsTrue (drawn es count line) }
{}

/// Whatever a store keeps, there is a list of events that it shows: the writes of all of it.
pub fn shows_its_writes<T>()
    ensures { (state : State T) → Shows (writes_of state) (state_at state) }
{}

/// Two stores are equal by `==` exactly where at every site both keep nothing, or what they keep is equal; and
/// where `==` of the values is true of equal values alone, exactly where they keep the same.
pub fn equal_where_same_is_kept<T: PartialEq>()
    ensures sites { (a b : State T) → IsTrue (⟦<Layers<T> as PartialEq>⟧.eq a b)
        ↔ ((site : Site) → IsTrue (option_eq (same_written T.eq) (state_at a site) (state_at b site))) }
    ensures exact { ((x y : T) → IsTrue (T.eq x y) ↔ (x ≡ y))
        → (a b : State T) → IsTrue (⟦<Layers<T> as PartialEq>⟧.eq a b) ↔ (a ≡ b) }
{}
