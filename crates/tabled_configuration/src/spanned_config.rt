//! The configuration of a table's borders and of its cells.

ghost use Rattle.std.specs.Prelude.{◌≡◌, ◌↔◌, [], ◌∷◌, IsTrue};
ghost use Rattle.tabled_places.specs.Event as grid;
ghost use Rattle.tabled_places.specs.declared.event.Event.TheVariants.{Erase as erase};
ghost use Rattle.tabled_places.specs.declared.event.Region.TheVariants.{All as every_site};
ghost use Rattle.tabled_places.specs.State.{state_at};
ghost use Rattle.tabled_configuration.specs.Configuration.{all_but_offsets};

mod applying;
mod both;
mod cells;
mod coloring;
mod colors;
mod copies;
mod equality;
mod lines;
mod looking;
mod margin;
mod offsets;
mod plain;
mod removing;
mod replacing;
mod settings;
mod spans;

pub use coloring::apply_colors;
use std::alloc::Global;
use std::marker::Model;
use tabled_border::ANSIBuf;
use tabled_grid::{Borders, Layers, LineOf, Place, Target};
use tabled_kept::Probes;
use tabled_layout::TableSettings;

/// What a table keeps for its borders, and what is set for its cells, its margin and its spans. `M` is the type of the meters
/// with which its borders are read.
#[derive(Debug)]
pub struct SpannedConfig<M = Probes> {
    characters: Layers<char, M>,
    colors: Layers<ANSIBuf, M>,
    settings: TableSettings,
}

/// Written out, so that dropping a configuration is one call wherever its life ends.
impl<M> Drop for SpannedConfig<M> {
    fn drop(self) {
        let SpannedConfig {
            characters: _,
            colors: _,
            settings: _,
        } = self;
    }
}

impl<M> Model for SpannedConfig<M> {
    ghost use Rattle.tabled_configuration.specs.Configuration.{Configuration, configuration_code};

    ghost Value = { Configuration };

    ghost coded = { configuration_code };

    ghost view = { λ cfg. record { characters = cfg.characters; colors = cfg.colors; settings = cfg.settings } };
}

impl<M> SpannedConfig<M> {
    /// Returns the allocator that the configuration keeps.
    pub fn allocator(&self) -> Global {
        self.characters.allocator()
    }
}

impl SpannedConfig {
    ghost use Rattle.tabled_places.specs.declared.place.LineOf.{LineOf as Line};
    ghost use Rattle.tabled_places.specs.Drawn.{Drawn};
    ghost use Rattle.tabled_places.specs.Calls.{default_set, default_erased, cell_erased, spot_of};
    ghost use Rattle.std.specs.FinMap.{get};
    ghost use Rattle.tabled_configuration.specs.Configuration.{Shows, Changes, by_characters, borders_set, borders_removed};

    /// Makes a configuration in which nothing was set. It keeps the allocator for the calls that need memory.
    pub fn new(alloc: Global) -> Self
        ensures { Shows [] result }
    {
        SpannedConfig {
            characters: Layers::new(alloc),
            colors: Layers::new(alloc),
            settings: TableSettings::new(alloc),
        }
    }

    /// Sets the class record whole: what it had before is gone, also where the new record has nothing.
    ///
    /// A record with `top` and `bottom` `=` and `vertical` `|` alone. Nothing is set where they cross:
    ///
    /// ```text
    /// === ===
    ///  a | b
    ///  c | d
    /// === ===
    /// ```
    pub fn set_borders(&mut self, borders: Borders<char>)
        ensures { Changes (borders_set borders) self.old self.new }
    {
        self.characters.set_class(borders);
    }

    /// Returns the class record.
    pub fn get_borders(&self) -> &Borders<char>
        ensures { result.now ≡ self.now.characters.class_record }
    {
        self.characters.get_class()
    }

    /// Sets the default border character, the weakest level, which shows wherever no other has something.
    ///
    /// A full stop, where nothing else is set:
    ///
    /// ```text
    /// .........
    /// . a . b .
    /// .........
    /// . c . d .
    /// .........
    /// ```
    pub fn set_border_default(&mut self, character: char)
        ensures { Changes (by_characters (default_set character)) self.old self.new }
    {
        self.characters.set_default(character);
    }

    /// Returns the default border character, if one is set.
    pub fn get_border_default(&self) -> Option<char>
        ensures { result ≡ self.now.characters.default_value }
    {
        self.characters.get_default().copied()
    }

    /// Erases the default border character alone.
    ///
    /// In a table that had full stops as its default and has nothing else, no line is drawn any more:
    ///
    /// ```text
    ///  a  b
    ///  c  d
    /// ```
    pub fn remove_border_default(&mut self)
        ensures { Changes (by_characters default_erased) self.old self.new }
    {
        self.characters.erase_default();
    }

    /// Returns the character that is kept at the cell level of one edge or one crossing, whatever other levels have; for an
    /// edge `at` is not read.
    pub fn get_char(&self, place: Place) -> Option<char>
        ensures { result ≡ get self.now.characters.cells (spot_of place) }
    {
        self.characters.kept_at(Target::Cell(place)).copied()
    }

    /// Erases the cell character of one edge or one crossing; for an edge `at` is not read.
    ///
    /// In the style `ascii` the cell (0, 0) had a border of its own, of which the edge of line 1 over column 0 is erased:
    ///
    /// ```text
    /// #####---+
    /// # a # b |
    /// #---#---+
    /// | c | d |
    /// +---+---+
    /// ```
    pub fn erase_char(&mut self, place: Place)
        ensures { Changes (by_characters (cell_erased place)) self.old self.new }
    {
        self.characters.erase_cell(place);
    }

    /// Erases every border character, the offset characters aside.
    ///
    /// What is left of any table without offset characters:
    ///
    /// ```text
    ///  a  b
    ///  c  d
    /// ```
    pub fn remove_borders(&mut self)
        ensures { Changes borders_removed self.old self.new }
    {
        erase_below_offsets(&mut self.characters);
    }

    /// Returns whether horizontal line `line` is drawn in a table of `rows` rows.
    #[inline(always)]
    pub fn has_horizontal(&self, line: usize, rows: usize) -> bool
        ensures { IsTrue result ↔ Drawn (state_at self.now.characters) rows (Line.Horizontal line) }
    {
        let mut probes = Probes::new();
        self.characters
            .draws(LineOf::Horizontal(line), rows, &mut probes)
    }

    /// Returns whether vertical line `line` is drawn in a table of `cols` columns.
    pub fn has_vertical(&self, line: usize, cols: usize) -> bool
        ensures { IsTrue result ↔ Drawn (state_at self.now.characters) cols (Line.Vertical line) }
    {
        let mut probes = Probes::new();
        self.characters
            .draws(LineOf::Vertical(line), cols, &mut probes)
    }
}

/// Erases every level of a store but the offsets.
fn erase_below_offsets<T: Drop>(layers: &mut Layers<T>)
    ensures { grid.Changes all_but_offsets (state_at layers.old) (state_at layers.new) }
{
    layers.erase_default();
    layers.erase_class();
    layers.erase_lines();
    layers.erase_cells();
}

/// Erases every level of a store.
fn erase_all<T: Drop>(layers: &mut Layers<T>)
    ensures { grid.Changes (erase every_site ∷ []) (state_at layers.old) (state_at layers.new) }
{
    erase_below_offsets(layers);
    layers.erase_horizontal_offsets();
    layers.erase_vertical_offsets();
}
