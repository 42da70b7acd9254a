//! The headline of the library, as the contract of one call.

ghost use Rattle.std.specs.Prelude.{◌≡◌, ◌++◌, List, [], OnOk, OnErr, IsTrue, IsOkUnless, option_copied, string_bytes};
ghost use Rattle.tabled_places.specs.Event.{replay};
ghost use Rattle.tabled_kept.specs.Probing.{IsRaised};
ghost use Rattle.tabled_places.specs.Value.{value};
ghost use Rattle.tabled_places.specs.Drawn.{drawn};
ghost use Rattle.tabled_configuration.specs.Configuration.{ConfigEvent, characters_of, colors_of};
ghost use Rattle.tabled_configuration.specs.Colored.{Colored};
ghost use Rattle.tabled_config.specs.Headline.{HaveMade, line_count};
ghost use Rattle.tabled_printing.specs.Picture.{edge_size, printed};
ghost use Rattle.tabled_config.specs.Refusal.{has_no_spans, table_faults};
ghost use Rattle.tabled_width.specs.Texts.{texts};

use crate::{PrintError, print_plain};
use tabled_border::ANSIBuf;
use tabled_changes::ColoredConfig;
use tabled_configuration::SpannedConfig;
use tabled_grid::{LineOf, Place};
use tabled_kept::{Meter, Probes};
use tabled_object::Dimension;

/// What one place shows, whether one line is drawn, and how printing ended.
#[derive(Drop)]
pub struct Seen<'a> {
    /// The character of the place.
    pub character: Option<char>,
    /// The color of the place.
    pub color: Option<&'a ANSIBuf>,
    /// Whether the line is drawn.
    pub is_drawn: bool,
    /// Whether the table was printed.
    pub printed: Result<(), PrintError>,
}

/// Returns the character of a place after any list of options: that of the latest write, not erased since, of the highest level there,
/// found by at most six readings. `size` is how long the edge of the place is. It is written for every type of meters, so the
/// readings that it makes are counted by the one that is lent.
pub fn character_seen<M: Meter>(
    cfg: &SpannedConfig<M>,
    place: Place,
    shape: (usize, usize),
    size: usize,
    probes: &mut M,
) -> Option<char>
    ensures character { (options : List (Colored → List ConfigEvent)) (events : List ConfigEvent) (colored : Colored) → HaveMade options events colored → cfg.now ≡ colored.spanned
        → result ≡ value (replay (characters_of events)) shape size place }
    ensures six_readings { IsRaised 6 (M.made probes.old) (M.made probes.new) }
{
    cfg.char_at(place, shape, size, probes)
}

/// Returns the color of a place after any list of options, found by at most six readings.
pub fn color_seen<'a, M: Meter>(
    cfg: &'a SpannedConfig<M>,
    place: Place,
    shape: (usize, usize),
    size: usize,
    probes: &mut M,
) -> Option<&'a ANSIBuf>
    ensures color { (options : List (Colored → List ConfigEvent)) (events : List ConfigEvent) (colored : Colored) → HaveMade options events colored → cfg.now ≡ colored.spanned
        → option_copied result ≡ value (replay (colors_of events)) shape size place }
    ensures six_readings { IsRaised 6 (M.made probes.old) (M.made probes.new) }
{
    cfg.color_at(place, shape, size, probes)
}

/// Returns whether a line, of the lines 0 to `count` of its direction, is drawn after any list of options, found by at most six readings.
pub fn line_seen<M: Meter>(
    cfg: &SpannedConfig<M>,
    line: LineOf,
    count: usize,
    probes: &mut M,
) -> bool
    ensures drawn { (options : List (Colored → List ConfigEvent)) (events : List ConfigEvent) (colored : Colored) → HaveMade options events colored → cfg.now ≡ colored.spanned
        → result ≡ drawn (characters_of events) count line }
    ensures six_readings { IsRaised 6 (M.made probes.old) (M.made probes.new) }
{
    cfg.draws(line, count, probes)
}

/// Returns the headline. After any list of options on a table of one shape, each edge place and crossing has, found by at most six
/// readings, the character and the color of the latest write, not erased since, of the highest level there; a line is drawn
/// where these writes draw it; and where no spans are set and the cells fit, the printer appends exactly that picture around
/// the cells, or refuses for memory alone.
///
/// It looks up `place` and `line`, and prints the table after the text of `out`. Each of the three look-ups is a call of its own,
/// written for every type of meters, whose contract says the six readings: `character_seen`, `color_seen` and `line_seen`.
pub fn headline<'a, D: Dimension>(
    cfg: &'a ColoredConfig,
    dims: &D,
    shape: (usize, usize),
    cells: &[Vec<String>],
    place: Place,
    line: LineOf,
    out: &mut String,
) -> Seen<'a>
    ensures character { (options : List (Colored → List ConfigEvent)) (events : List ConfigEvent) → HaveMade options events cfg.now
        → result.character ≡ value (replay (characters_of events)) shape (edge_size (D.width_of dims.now) (D.height_of dims.now) place) place }
    ensures color { (options : List (Colored → List ConfigEvent)) (events : List ConfigEvent) → HaveMade options events cfg.now
        → option_copied result.color ≡ value (replay (colors_of events)) shape (edge_size (D.width_of dims.now) (D.height_of dims.now) place) place }
    ensures drawn { (options : List (Colored → List ConfigEvent)) (events : List ConfigEvent) → HaveMade options events cfg.now
        → result.is_drawn ≡ drawn (characters_of events) (line_count shape line) line }
    ensures text { (options : List (Colored → List ConfigEvent)) (events : List ConfigEvent) → HaveMade options events cfg.now
        → OnOk result.printed (string_bytes out.new ≡ string_bytes out.old ++ printed events shape (D.width_of dims.now) (D.height_of dims.now) (texts cells.now)) }
    ensures memory_alone { IsTrue (has_no_spans cfg.now.spanned) → table_faults (D.width_of dims.now) (D.height_of dims.now) shape (texts cells.now) ≡ []
        → IsOkUnless result.printed PrintError.OutOfMemory }
    ensures unchanged { OnErr result.printed (string_bytes out.new ≡ string_bytes out.old) }
{
    let config = cfg.config();
    let size = edge_size(dims, place);
    let count = line_count(shape, line);
    let probes = &mut Probes::new();
    Seen {
        character: character_seen(config, place, shape, size, probes),
        color: color_seen(config, place, shape, size, probes),
        is_drawn: line_seen(config, line, count, probes),
        printed: print_plain(out, config, dims, shape, cells),
    }
}

/// How long the edge of a place is: the width of its column, or the height of its row; a crossing has none.
pub(crate) fn edge_size<D: Dimension>(dims: &D, place: Place) -> usize
    ensures { result ≡ edge_size (D.width_of dims.now) (D.height_of dims.now) place }
{
    match place {
        Place::Horizontal { col, .. } => dims.get_width(col),
        Place::Vertical { row, .. } => dims.get_height(row),
        Place::Cross { .. } => 0,
    }
}

/// The number of the last line of a line's direction: how many rows, or columns, the table has.
fn line_count(shape: (usize, usize), line: LineOf) -> usize
    ensures { result ≡ line_count shape line }
{
    match line {
        LineOf::Horizontal(_) => shape.0,
        LineOf::Vertical(_) => shape.1,
    }
}
