//! The margin, spans, what is shown where cells span, and the correction of borders beside them.

ghost use Rattle.std.specs.Prelude.{◌≡◌, ◌≤◌, ◌<◌, ◌+◌, ◌==◌, ◌++◌, if◌then◌else◌, Bool, List, None, unwrap_or, ℕ, map, slice_index, true, OnOk, OnErr};
ghost use Rattle.std.specs.List.{filter_map, last_or, range_with_len, sum_by};
ghost use Rattle.tabled_object.specs.declared.position.Position.{Position as At};
ghost use Rattle.tabled_layout.specs.declared.table_settings.TableSettings.{TableSettings};
ghost use Rattle.tabled_layout.specs.Margin.{MarginEvent, margin_after, first_margin, size_event, offset_event, color_event};
ghost use Rattle.tabled_layout.specs.Spans.{SpanEvent, spans_after, span_of};
ghost use Rattle.tabled_layout.specs.TableSettings.{TableEvent, settings_after, first_settings, settings_left};
ghost use Rattle.tabled_places.specs.declared.event.Event.{Event};
ghost use Rattle.tabled_places.specs.declared.place.Place.{Place};
ghost use Rattle.tabled_places.specs.Event.{replay};
ghost use Rattle.tabled_places.specs.Value.{has_spot, plain_value};
ghost use Rattle.tabled_configuration.specs.Configuration.{Configuration, Changes};
ghost use Rattle.tabled_correction.specs.Correction.{Write, written_over, spanned, columns_corrected, rows_corrected, inner_corrected, crossing_written, crossings_written, correction_events};
ghost use Rattle.tabled_configuration.specs.Colored as colored;
ghost use Rattle.tabled_correction.specs.Span.{span_events};
ghost use Rattle.tabled_rooms.specs.Growing.{size_part};
ghost use Rattle.tabled_rooms.specs.Hosts.{Cell as Shown, Counts, IsAlone, Takes, host};
ghost use Rattle.tabled_rooms.specs.Rooms.{one_if, room_width};
ghost use Rattle.tabled_rooms.specs.Sizes.{below, is_own, row_count, spanned_heights, spanned_widths};
ghost use Rattle.std.specs.FinMap as map;

use tabled_border::OutOfMemory;
use tabled_changes::{CellOption, ColoredConfig};
use tabled_correction::Span;
use tabled_object::{Entity, ExactRecords, Records};

/// After any list of calls the span at a position is what the last call for that position left.
pub fn span_is_as_last_set()
    ensures { (events : List SpanEvent) (position : At)
        → map.get (spans_after map.empty events) position ≡ span_of events position }
{}

/// After any list of events each part of the margin is as it was set last, and as at first where it never was.
pub fn margin_is_as_last_set()
    ensures size { (events : List MarginEvent)
        → (margin_after first_margin events).size ≡ unwrap_or (last_or None (filter_map size_event events)) first_margin.size }
    ensures offset { (events : List MarginEvent)
        → (margin_after first_margin events).offset ≡ unwrap_or (last_or None (filter_map offset_event events)) first_margin.offset }
    ensures color { (events : List MarginEvent)
        → (margin_after first_margin events).color ≡ unwrap_or (last_or None (filter_map color_event events)) first_margin.color }
{}

/// Two lists of events in a row are one list.
pub fn settings_in_a_row()
    ensures { (settings : TableSettings) (es fs : List TableEvent)
        → settings_after settings (es ++ fs) ≡ settings_after (settings_after settings es) fs }
{}

/// After any list of events, the events that still count make the same settings.
pub fn as_by_what_is_left()
    ensures { (events : List TableEvent)
        → settings_after first_settings (settings_left (settings_after first_settings events)) ≡ settings_after first_settings events }
{}

/// What the picture of a table becomes when crossings are written is what the events show at each of its edges and crossings
/// once these writes follow them.
pub fn crossings_stand_where_written()
    ensures { (events : List (Event ℕ)) (writes : List Write) (shape : ℕ × ℕ) (place : Place) → has_spot shape place ≡ true
        → plain_value (replay (events ++ map crossing_written writes)) shape place ≡ written_over writes (plain_value (replay events) shape) place }
{}

/// The correction is three changes in a row: each of its steps reads exactly what the configuration shows when the writes of
/// the steps before it have been made.
pub fn each_step_reads_what_stands()
    ensures { (shape : ℕ × ℕ) (old between after : Configuration)
        → Changes (crossings_written (columns_corrected (spanned shape old))) old between
        → Changes (crossings_written (rows_corrected (spanned shape between))) between after
        → correction_events shape old ≡ crossings_written (columns_corrected (spanned shape old))
        ++ (crossings_written (rows_corrected (spanned shape between)) ++ crossings_written (inner_corrected (spanned shape after))) }
{}

/// The option lets each cell of an entity inside the table span so many columns, or rows, in row order, and does nothing else.
pub fn span_on_cells<R: Records + ExactRecords>(
    option: &Span,
    records: &mut R,
    cfg: &mut ColoredConfig,
    entity: Entity,
) -> Result<(), OutOfMemory>
    ensures made { OnOk result (colored.Changes (span_events option.now (R.row_count records.old, R.column_count records.old) entity) cfg.old cfg.new) }
    ensures unchanged { OnErr result (cfg.new ≡ cfg.old) }
{
    CellOption::change(option, records, cfg, entity)
}

/// Where no cell spans, each is shown at its own place.
pub fn cells_alone()
    ensures { (columns rows : Counts) → ((r c : ℕ) → columns r c ≤ 1) → ((r c : ℕ) → rows r c ≤ 1) → (r c : ℕ) → host columns rows r c ≡ (r, c) }
{}

/// What is shown at a place takes it, and is shown at its own place.
pub fn hosts_stand()
    ensures takes { (columns rows : Counts) → ((r c : ℕ) → 1 ≤ columns r c) → ((r c : ℕ) → 1 ≤ rows r c) → (r c : ℕ) → Takes columns rows (host columns rows r c) r c }
    ensures at_home { (columns rows : Counts) → (r c : ℕ) → host columns rows (host columns rows r c).0 (host columns rows r c).1 ≡ host columns rows r c }
{}

/// Each cell that is shown has the room that it asks for, over all columns and rows that it takes and the lines between them that are drawn.
pub fn shown_cells_have_room()
    ensures wide { (columns rows : Counts) → ((r c : ℕ) → 1 ≤ columns r c) → ((r c : ℕ) → 1 ≤ rows r c) → (shape : ℕ × ℕ) (asked : Counts) (vertical : ℕ → Bool) (r c : ℕ) → r < shape.0 → c < shape.1
        → is_own columns rows shape r c ≡ true → asked r c ≤ room_width (slice_index (spanned_widths columns rows shape asked vertical)) vertical (host columns rows r) shape.1 c }
    ensures high { (columns rows : Counts) → ((r c : ℕ) → 1 ≤ columns r c) → ((r c : ℕ) → 1 ≤ rows r c) → (shape : ℕ × ℕ) (asked : Counts) (horizontal : ℕ → Bool) (r c : ℕ) → r < shape.0 → c < shape.1
        → is_own columns rows shape r c ≡ true
        → asked r c ≤ sum_by (size_part (spanned_heights columns rows shape asked horizontal) horizontal r) (range_with_len r (row_count columns rows shape r c)) }
{}

/// What is shown along a row fills it: the rooms of the cells that are shown there, each with the line before it, take what the columns of
/// the row and the lines before these take.
pub fn rooms_fill_each_row()
    ensures { (columns rows : Counts) → ((r c : ℕ) → 1 ≤ columns r c) → ((r c : ℕ) → 1 ≤ rows r c) → (widths : ℕ → ℕ) (vertical : ℕ → Bool) (count r : ℕ)
        → sum_by (λ c. if (host columns rows r c).1 == c then one_if (vertical c) + room_width widths vertical (host columns rows r) count c else 0) (below count)
        ≡ sum_by (λ c. one_if (vertical c) + widths c) (below count) }
{}

/// A cell is shown wherever it spans, if no other cell spans over any of these places.
pub fn shown_where_it_spans()
    ensures { (columns rows : Counts) → ((r c : ℕ) → 1 ≤ columns r c) → ((r c : ℕ) → 1 ≤ rows r c) → (cell : Shown) → IsAlone columns rows cell
        → (r c : ℕ) → Takes columns rows cell r c → host columns rows r c ≡ cell }
{}
