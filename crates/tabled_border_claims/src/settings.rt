//! What is set for cells, by entity.

ghost use Rattle.std.specs.Prelude.{◌≡◌, ◌+◌, ◌%◌, ◌==◌, ◌<◌, ◌++◌, ℕ, List, [], ◌∷◌, None, false, if◌then◌else◌, IsOk, IsTrue, OnOk, OnErr, ◌↔◌};
ghost use Rattle.std.specs.List.{filter_map};
ghost use Rattle.tabled_border.specs.Texts.{Texts};
ghost use Rattle.tabled_object.specs.declared.position.Position.{Position as At};
ghost use Rattle.tabled_object.specs.Entities.{position};
ghost use Rattle.tabled_settings.specs.declared.alignment.AlignmentHorizontal.{AlignmentHorizontal};
ghost use Rattle.tabled_settings.specs.declared.alignment.AlignmentVertical.{AlignmentVertical};
ghost use Rattle.tabled_settings.specs.declared.cell_settings.CellSettings.{CellSettings};
ghost use Rattle.tabled_settings.specs.CellSettings.{SettingEvent, settings_after, first_settings, settings_left, no_colors, alignment_horizontal_event, alignment_vertical_event, trim_horizontal_event, trim_vertical_event, line_alignment_event, justification_event, justification_color_event, padding_event, padding_color_event};
ghost use Rattle.tabled_settings.specs.Padding.{first_padding};
ghost use Rattle.tabled_settings.specs.Live.{after, after_all, at_first, value_at};
ghost use Rattle.tabled_settings.specs.AlikeRows.{IsRowAlike};
ghost use Rattle.tabled_settings.specs.Setting.{EntityEvent, is_global, removal_of, setting, write_of};
ghost use Rattle.tabled_changes.specs.EntitiesColored.{entities_colored, text_writes};
ghost use Rattle.tabled_color.specs.Shade.{Shade, texts_of};
ghost use Rattle.tabled_colorization.specs.declared.pattern.Pattern.{Pattern as Order};
ghost use Rattle.tabled_colorization.specs.declared.pattern.Pattern.TheVariants as pattern;
ghost use Rattle.tabled_colorization.specs.Turns.{colorization};

use std::alloc::Global;
use tabled_border::{Keep, OutOfMemory};
use tabled_object::{Entity, Position};
use tabled_settings::EntityMap;

/// A new map after no event: every cell has the default.
pub fn new_map<T>(alloc: Global, default: T) -> EntityMap<T>
    ensures { result ≡ after_all (at_first default) [] }
{
    EntityMap::new(alloc, default)
}

/// A value written for the cells of an entity; for all cells no memory is asked for.
pub fn written_for_an_entity<T: Drop>(
    map: &mut EntityMap<T>,
    entity: Entity,
    value: T,
) -> Result<(), OutOfMemory>
    ensures written { OnOk result (map.new ≡ after map.old (write_of entity value)) }
    ensures unchanged { OnErr result (map.new ≡ map.old) }
    ensures always { IsTrue (is_global entity) → IsOk result }
{
    map.insert(entity, value)
}

/// The value of the cells of an entity removed; for all cells no memory is asked for.
pub fn removed_for_an_entity<T: Drop>(
    map: &mut EntityMap<T>,
    entity: Entity,
) -> Result<(), OutOfMemory>
    ensures removed { OnOk result (map.new ≡ after map.old (removal_of entity)) }
    ensures unchanged { OnErr result (map.new ≡ map.old) }
    ensures always { IsTrue (is_global entity) → IsOk result }
{
    map.remove(entity)
}

/// The value of a cell after any list of events is that of the last one that covers it: a removal, and no event, gives the
/// default.
pub fn value_of_a_cell<T>(map: &EntityMap<T>, cell: Position) -> &T
    ensures { (default : T) (events : List (EntityEvent T)) → map.now ≡ after_all (at_first default) events
        → result.now ≡ setting events default cell }
{
    map.get(cell)
}

/// Writes a value for the cells of an entity here, and one in another map. Where memory is refused neither changes; for all cells
/// none is asked for.
pub fn written_in_two_maps<T, U>(
    map: &mut EntityMap<T>,
    other: &mut EntityMap<U>,
    entity: Entity,
    value: T,
    other_value: U,
) -> Result<(), OutOfMemory>
where
    T: Drop,
    U: Drop,
    ensures written { OnOk result (map.new ≡ after map.old (write_of entity value)) }
    ensures other_ok { OnOk result (other.new ≡ after other.old (write_of entity other_value)) }
    ensures unchanged { OnErr result (map.new ≡ map.old) }
    ensures other_err { OnErr result (other.new ≡ other.old) }
    ensures always { IsTrue (is_global entity) → IsOk result }
{
    map.insert_both(other, entity, value, other_value)
}

/// Makes the writes and removals of a list in its order, or, where memory is refused, none of them.
pub fn applied_to_a_map<T>(
    map: &mut EntityMap<T>,
    alloc: Global,
    events: Vec<(Entity, Option<T>)>,
) -> Result<(), OutOfMemory>
where
    T: Keep + Drop,
    ensures written { OnOk result (map.new ≡ after_all map.old events.items) }
    ensures unchanged { OnErr result (map.new ≡ map.old) }
{
    map.apply_list(alloc, events)
}

/// Makes the writes and removals of a list here, in its order, and those of two other lists in two other maps: a value is written
/// for an entity, and where there is none the entity's is removed. Where memory is refused none of the maps changes. It costs the
/// lists and not what the maps held, unless an event is one of all cells.
pub fn applied_to_three_maps<T, U, V>(
    map: &mut EntityMap<T>,
    alloc: Global,
    events: Vec<(Entity, Option<T>)>,
    second: &mut EntityMap<U>,
    second_events: Vec<(Entity, Option<U>)>,
    third: &mut EntityMap<V>,
    third_events: Vec<(Entity, Option<V>)>,
) -> Result<(), OutOfMemory>
where
    T: Keep + Drop,
    U: Keep + Drop,
    V: Keep + Drop,
    ensures written { OnOk result (map.new ≡ after_all map.old events.items) }
    ensures second_ok { OnOk result (second.new ≡ after_all second.old second_events.items) }
    ensures third_ok { OnOk result (third.new ≡ after_all third.old third_events.items) }
    ensures unchanged { OnErr result (map.new ≡ map.old) }
    ensures second_err { OnErr result (second.new ≡ second.old) }
    ensures third_err { OnErr result (third.new ≡ third.old) }
{
    map.apply_three(alloc, events, second, second_events, third, third_events)
}

/// What was written last for all cells, or the default where that was removed or nothing was written. A cell has it unless an
/// entity that covers the cell had an event since then.
pub fn value_of_all_cells<T>(map: &EntityMap<T>) -> &T
    ensures { result.now ≡ map.now.global }
{
    map.global()
}

/// Whether no entity but `Global` had an event since the last one of `Global`.
pub fn nothing_since_all_cells<T>(map: &EntityMap<T>) -> bool
    ensures { IsTrue result ↔ (map.now.since ≡ []) }
{
    map.is_empty()
}

/// Where each cell of a row is known to have the same value, one has that of any other; where no entity but `Global` had an event since the
/// last one of `Global`, it is known.
pub fn values_of_a_row_are_alike<T>(map: &EntityMap<T>, row: usize) -> bool
    ensures alike { IsTrue result → IsRowAlike map.now row }
    ensures none { map.now.since ≡ [] → IsTrue result }
{
    map.is_row_alike(row)
}

/// After any list of events an entity map has, for every cell, the value that the last event covering it gives.
pub fn value_is_the_setting<T>()
    ensures { (default : T) (events : List (EntityEvent T)) (cell : At)
        → value_at (after_all (at_first default) events) cell ≡ setting events default cell }
{}

/// After any list of events of several kinds each setting has, for every cell, the value that the last event of its own kind
/// covering the cell gives.
pub fn each_by_its_own_events()
    ensures alignment_horizontal { (events : List SettingEvent) (cell : At)
        → value_at (settings_after first_settings events).alignment_horizontal cell ≡ setting (filter_map alignment_horizontal_event events) AlignmentHorizontal.Left cell }
    ensures alignment_vertical { (events : List SettingEvent) (cell : At)
        → value_at (settings_after first_settings events).alignment_vertical cell ≡ setting (filter_map alignment_vertical_event events) AlignmentVertical.Top cell }
    ensures trim_horizontal { (events : List SettingEvent) (cell : At)
        → value_at (settings_after first_settings events).trim_horizontal cell ≡ setting (filter_map trim_horizontal_event events) false cell }
    ensures trim_vertical { (events : List SettingEvent) (cell : At)
        → value_at (settings_after first_settings events).trim_vertical cell ≡ setting (filter_map trim_vertical_event events) false cell }
    ensures line_alignment { (events : List SettingEvent) (cell : At)
        → value_at (settings_after first_settings events).line_alignment cell ≡ setting (filter_map line_alignment_event events) false cell }
    ensures justification { (events : List SettingEvent) (cell : At)
        → value_at (settings_after first_settings events).justification cell ≡ setting (filter_map justification_event events) 32 cell }
    ensures justification_color { (events : List SettingEvent) (cell : At)
        → value_at (settings_after first_settings events).justification_color cell ≡ setting (filter_map justification_color_event events) None cell }
    ensures padding { (events : List SettingEvent) (cell : At)
        → value_at (settings_after first_settings events).padding cell ≡ setting (filter_map padding_event events) first_padding cell }
    ensures padding_color { (events : List SettingEvent) (cell : At)
        → value_at (settings_after first_settings events).padding_color cell ≡ setting (filter_map padding_color_event events) no_colors cell }
{}

/// Two lists of events in a row are one list.
pub fn settings_in_a_row()
    ensures { (settings : CellSettings) (es fs : List SettingEvent)
        → settings_after settings (es ++ fs) ≡ settings_after (settings_after settings es) fs }
{}

/// After any list of events, the events that still count make the same settings.
pub fn as_by_what_is_left()
    ensures { (events : List SettingEvent)
        → settings_after first_settings (settings_left (settings_after first_settings events)) ≡ settings_after first_settings events }
{}

/// Without colors no pattern makes an event.
pub fn no_colors_no_change()
    ensures { (pattern : Order) (rows cols : ℕ) → entities_colored (colorization (record { pattern = pattern; colors = [] }) rows cols) ≡ [] }
{}

/// On a chess board a cell of the table has the first color where its row and its column add up to an even number, and else
/// the second one, whatever it had before.
pub fn chess_is_by_parity()
    ensures { (white black : Shade) (rows cols row col : ℕ) (before : Texts) → row < rows → col < cols
        → setting (text_writes (colorization (record { pattern = pattern.Chess; colors = white ∷ black ∷ [] }) rows cols)) before (position row col)
        ≡ texts_of (if (row + col) % 2 == 0 then white else black) }
{}
