//! Any list of options, and what stands after it.

ghost use Rattle.std.specs.Prelude.{◌≡◌, ◌↔◌, ℕ, List, [], ◌∷◌, ◌++◌, map, Some, None, option_map, option_copied, if◌then◌else◌, IsTrue, IsOkUnless, OnOk, OnErr, string_bytes};
ghost use Rattle.std.specs.List.{flat_map, list_any};
ghost use Rattle.tabled_border.specs.Texts.{Texts};
ghost use Rattle.tabled_object.specs.declared.entity.Entity.{Entity};
ghost use Rattle.tabled_object.specs.declared.position.Position.{Position as At};
ghost use Rattle.tabled_settings.specs.Live.{Live, value_at};
ghost use Rattle.tabled_settings.specs.Setting.{EntityEvent, is_write, setting};
ghost use Rattle.tabled_places.specs.declared.place.LineOf.{LineOf as Line};
ghost use Rattle.tabled_places.specs.declared.place.Place.{Place as Spot};
ghost use Rattle.tabled_places.specs.Drawn.{Drawn, drawn};
ghost use Rattle.tabled_places.specs.Event as grid;
ghost use Rattle.tabled_places.specs.Event.{replay};
ghost use Rattle.tabled_kept.specs.Probing.{IsRaised};
ghost use Rattle.tabled_places.specs.State.{state_at};
ghost use Rattle.tabled_places.specs.Value.{value};
ghost use Rattle.tabled_configuration.specs.CellColors.{changed, colors_after, given, no_color};
ghost use Rattle.tabled_configuration.specs.Colored.{Colored, Shows, Changes, all_writes};
ghost use Rattle.tabled_configuration.specs.Configuration as borders;
ghost use Rattle.tabled_configuration.specs.Configuration.{ConfigEvent, cell_colors_of, characters_of, colors_of, of_cell_colors, settings_of};
ghost use Rattle.tabled_config.specs.Headline.{HaveMade, line_count};
ghost use Rattle.tabled_configuration.specs.Options.{MakesInTurn};
ghost use Rattle.tabled_printing.specs.Picture.{edge_size, look, printed};
ghost use Rattle.tabled_config.specs.Refusal.{has_no_spans, table_faults};
ghost use Rattle.tabled_width.specs.Texts.{Table, texts};

use tabled_border::ANSIBuf;
use tabled_changes::{ColoredConfig, Configured};
use tabled_config::{PrintError, Seen, character_seen, color_seen, line_seen};
use tabled_configuration::SpannedConfig;
use tabled_grid::{LineOf, Place};
use tabled_kept::Meter;
use tabled_object::Dimension;

/// The headline. After any list of options on a table of one shape, each edge place and crossing has, found by at most six
/// readings, which `character_after_any_list`, `color_after_any_list` and `line_after_any_list` count, the character and the color of
/// the latest write, not erased since, of the highest level there; a line is drawn where these writes draw it; and where no spans are
/// set and the cells fit, the printer appends exactly that picture around the cells, or refuses for memory alone.
pub fn headline<'a, D: Dimension>(
    cfg: &'a ColoredConfig,
    dims: &D,
    shape: (usize, usize),
    cells: &[Vec<String>],
    place: Place,
    line: LineOf,
    out: &mut String,
) -> Seen<'a>
    ensures character { (options : List (Colored → List ConfigEvent)) (events : List ConfigEvent) → HaveMade options events cfg.now
        → result.character ≡ value (replay (characters_of events)) shape (edge_size (D.width_of dims.now) (D.height_of dims.now) place) place }
    ensures color { (options : List (Colored → List ConfigEvent)) (events : List ConfigEvent) → HaveMade options events cfg.now
        → option_copied result.color ≡ value (replay (colors_of events)) shape (edge_size (D.width_of dims.now) (D.height_of dims.now) place) place }
    ensures drawn { (options : List (Colored → List ConfigEvent)) (events : List ConfigEvent) → HaveMade options events cfg.now
        → result.is_drawn ≡ drawn (characters_of events) (line_count shape line) line }
    ensures text { (options : List (Colored → List ConfigEvent)) (events : List ConfigEvent) → HaveMade options events cfg.now
        → OnOk result.printed (string_bytes out.new ≡ string_bytes out.old ++ printed events shape (D.width_of dims.now) (D.height_of dims.now) (texts cells.now)) }
    ensures memory_alone { IsTrue (has_no_spans cfg.now.spanned) → table_faults (D.width_of dims.now) (D.height_of dims.now) shape (texts cells.now) ≡ []
        → IsOkUnless result.printed PrintError.OutOfMemory }
    ensures unchanged { OnErr result.printed (string_bytes out.new ≡ string_bytes out.old) }
{
    tabled_config::headline(cfg, dims, shape, cells, place, line, out)
}

/// The character of a place after any list of options, found by at most six readings, whatever the type of the meter that counts
/// them: so none of them can go uncounted.
pub fn character_after_any_list<M: Meter>(
    cfg: &SpannedConfig<M>,
    place: Place,
    shape: (usize, usize),
    size: usize,
    probes: &mut M,
) -> Option<char>
    ensures character { (options : List (Colored → List ConfigEvent)) (events : List ConfigEvent) (colored : Colored) → HaveMade options events colored → cfg.now ≡ colored.spanned
        → result ≡ value (replay (characters_of events)) shape size place }
    ensures six_readings { IsRaised 6 (M.made probes.old) (M.made probes.new) }
{
    character_seen(cfg, place, shape, size, probes)
}

/// The color of a place after any list of options, found by at most six readings, whatever the type of the meter that counts them.
pub fn color_after_any_list<'a, M: Meter>(
    cfg: &'a SpannedConfig<M>,
    place: Place,
    shape: (usize, usize),
    size: usize,
    probes: &mut M,
) -> Option<&'a ANSIBuf>
    ensures color { (options : List (Colored → List ConfigEvent)) (events : List ConfigEvent) (colored : Colored) → HaveMade options events colored → cfg.now ≡ colored.spanned
        → option_copied result ≡ value (replay (colors_of events)) shape size place }
    ensures six_readings { IsRaised 6 (M.made probes.old) (M.made probes.new) }
{
    color_seen(cfg, place, shape, size, probes)
}

/// Whether a line is drawn after any list of options, found by at most six readings, whatever the type of the meter that counts them.
pub fn line_after_any_list<M: Meter>(
    cfg: &SpannedConfig<M>,
    line: LineOf,
    count: usize,
    probes: &mut M,
) -> bool
    ensures drawn { (options : List (Colored → List ConfigEvent)) (events : List ConfigEvent) (colored : Colored) → HaveMade options events colored → cfg.now ≡ colored.spanned
        → result ≡ drawn (characters_of events) count line }
    ensures six_readings { IsRaised 6 (M.made probes.old) (M.made probes.new) }
{
    line_seen(cfg, line, count, probes)
}

/// How a table looks after a list of events is how it looks after the writes of all that is kept, wherever the events are shown:
/// so a text on a line, which is read off what is kept, lands by the events alone.
pub fn look_of_what_is_shown()
    ensures { (events : List ConfigEvent) (cfg : borders.Configuration) (shape : ℕ × ℕ) (widths heights : ℕ → ℕ)
        → borders.Shows events cfg → look (borders.all_writes cfg) shape widths heights ≡ look events shape widths heights }
{}

/// A list of events that was shown before a change, followed by the events of the change, is shown after it.
pub fn shown_after_change()
    ensures spanned { (before es : List ConfigEvent) (old new : borders.Configuration)
        → borders.Changes es old new → borders.Shows before old → borders.Shows (before ++ es) new }
    ensures colored { (before es : List ConfigEvent) (old new : Colored)
        → Changes es old new → Shows before old → Shows (before ++ es) new }
{}

/// A configuration of which nothing but its borders and settings was made shows what these show; one that was given colors
/// of cells shows that too, whatever colors were set before.
pub fn shows_when_new()
    ensures new { (es : List ConfigEvent) (config : borders.Configuration)
        → borders.Shows es config → cell_colors_of es ≡ [] → Shows es (record { spanned = config; cell_colors = None }) }
    ensures with_colors { (es : List ConfigEvent) (config : borders.Configuration) (colors : Live Texts)
        → borders.Shows es config → Shows (es ++ of_cell_colors (given colors) ∷ []) (record { spanned = config; cell_colors = Some colors }) }
{}

/// After any list of writes and removals by entity there are colors exactly where one of them was a write, and then the color of
/// each cell is that of the last one that covers it: a removal, and no event, gives the color without texts.
pub fn cell_colors_by_entity()
    ensures { (events : List (EntityEvent Texts)) (cell : At)
        → option_map (λ colors. value_at colors cell) (colors_after None (map changed events))
        ≡ (if list_any is_write events then Some (setting events no_color cell) else None) }
{}

/// Two changes in a row are the change by the events of both.
pub fn changes_in_a_row()
    ensures spanned { (es fs : List ConfigEvent) (old between new : borders.Configuration)
        → borders.Changes es old between → borders.Changes fs between new → borders.Changes (es ++ fs) old new }
    ensures colored { (es fs : List ConfigEvent) (old between new : Colored)
        → Changes es old between → Changes fs between new → Changes (es ++ fs) old new }
{}

/// Events that are made a second time in a row change nothing more of what is kept for borders; where none of them is of
/// settings, or of the colors of cells, nothing at all.
pub fn second_time_changes_nothing()
    ensures borders { (es : List ConfigEvent) (old between new : borders.Configuration)
        → borders.Changes es old between → borders.Changes es between new
        → (new.characters ≡ between.characters) × (new.colors ≡ between.colors) }
    ensures spanned { (es : List ConfigEvent) (old between new : borders.Configuration)
        → settings_of es ≡ [] → borders.Changes es old between → borders.Changes es between new → new ≡ between }
    ensures colored { (es : List ConfigEvent) (old between new : Colored)
        → settings_of es ≡ [] → cell_colors_of es ≡ [] → Changes es old between → Changes es between new → new ≡ between }
{}

/// Any list of steps, each of which may read what stands before it, is the change by the events of them all, in order; for
/// every kind of configuration. What options make stands in one list so, whatever their types.
pub fn steps_in_turn<C: Configured>()
    ensures none { (cfg : C) → MakesInTurn C.changes [] [] cfg cfg }
    ensures one_more { (steps : List (C → List C.Event)) (step : C → List C.Event) (made : List C.Event) (old between new : C)
        → MakesInTurn C.changes steps made old between → C.changes (step between) between new
        → MakesInTurn C.changes (steps ++ step ∷ []) (made ++ step between) old new }
    ensures all { (steps : List (C → List C.Event)) (made : List C.Event) (old new : C)
        → MakesInTurn C.changes steps made old new → C.changes made old new }
{}

/// After any list of steps, on a configuration that showed some list of events, it shows that list followed by the events
/// that the steps made; so each place has the character and the color that these leave, each line is drawn where these
/// draw it, and their text is the one that is printed.
pub fn any_list()
    ensures shows { (steps : List (Colored → List ConfigEvent)) (before made : List ConfigEvent) (old new : Colored)
        → MakesInTurn Changes steps made old new → Shows before old → Shows (before ++ made) new }
    ensures characters { (es : List ConfigEvent) (cfg : Colored) (shape : ℕ × ℕ) (size : ℕ) (place : Spot)
        → Shows es cfg → value (state_at cfg.spanned.characters) shape size place ≡ value (replay (characters_of es)) shape size place }
    ensures colors { (es : List ConfigEvent) (cfg : Colored) (shape : ℕ × ℕ) (size : ℕ) (place : Spot)
        → Shows es cfg → value (state_at cfg.spanned.colors) shape size place ≡ value (replay (colors_of es)) shape size place }
    ensures lines { (es : List ConfigEvent) (cfg : Colored) (count : ℕ) (line : Line)
        → Shows es cfg → Drawn (state_at cfg.spanned.characters) count line ↔ IsTrue (drawn (characters_of es) count line) }
    ensures text { (es fs : List ConfigEvent) (cfg : Colored) (shape : ℕ × ℕ) (widths heights : ℕ → ℕ) (cells : Table)
        → Shows es cfg → Shows fs cfg → printed es shape widths heights cells ≡ printed fs shape widths heights cells }
    ensures unread { (events : Entity → List ConfigEvent) (entities : List Entity) (made : List ConfigEvent) (old new : Colored)
        → MakesInTurn Changes (map (λ entity _. events entity) entities) made old new → made ≡ flat_map events entities }
{}

/// A configuration that shows some list of events shows the writes of all that it keeps; of characters and of colors, whatever
/// it keeps.
pub fn shows_its_writes()
    ensures characters { (cfg : borders.Configuration) → grid.Shows (characters_of (borders.all_writes cfg)) (state_at cfg.characters) }
    ensures colors { (cfg : borders.Configuration) → grid.Shows (colors_of (borders.all_writes cfg)) (state_at cfg.colors) }
    ensures spanned { (es : List ConfigEvent) (cfg : borders.Configuration) → borders.Shows es cfg → borders.Shows (borders.all_writes cfg) cfg }
    ensures colored { (es : List ConfigEvent) (cfg : Colored) → Shows es cfg → Shows (all_writes cfg) cfg }
{}

/// Two configurations are equal by `==` exactly where they keep the same.
pub fn equal_where_same_is_kept()
    ensures spanned { (a b : borders.Configuration) → IsTrue (⟦<SpannedConfig as PartialEq>⟧.eq a b) ↔ (a ≡ b) }
    ensures colored { (a b : Colored) → IsTrue (⟦<ColoredConfig as PartialEq>⟧.eq a b) ↔ (a ≡ b) }
{}
