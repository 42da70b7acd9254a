//! The colors of cells.

ghost use Rattle.std.specs.Prelude.{◌≡◌, ◌↔◌, Option, None, IsTrue, IsOk, OnOk, OnErr, option_copied, option_map};
ghost use Rattle.tabled_object.specs.declared.position.Position.{Position as At};
ghost use Rattle.tabled_settings.specs.Setting.{write_of, removal_of, is_global};
ghost use Rattle.tabled_settings.specs.Live.{value_at};
ghost use Rattle.tabled_configuration.specs.AlikeRows.{AreColorsAlike};
ghost use Rattle.tabled_configuration.specs.CellColors.{changed, colors_after_event, IsBare};

mod coloring;

use std::alloc::Global;
use std::marker::Model;
use tabled_border::{ANSIBuf, Keep, OutOfMemory};
use tabled_object::{Entity, Position};
use tabled_settings::EntityMap;

/// Colors of cells, as what draws a table asks for them.
pub trait Colors {
    /// What a color is.
    type Color;

    ghost color_of: { Self → At → Option Self.Color };

    ghost has_none: { Self → Type 0 };

    /// The color of a cell, if it has one.
    fn get_color(&self, position: Position) -> Option<&Self::Color>
        ensures { option_copied result ≡ color_of self.now position };

    /// Whether there is nothing to draw by them.
    fn is_empty(&self) -> bool
        ensures { IsTrue result ↔ has_none self.now };
}

/// The colors of cells by entity, if there ever were some.
///
/// In contracts it is the map of them, or none.
#[derive(Debug, Drop)]
pub struct ColorMap {
    map: Option<EntityMap<ANSIBuf>>,
}

impl Model for ColorMap {
    ghost use Rattle.std.specs.Prelude.{Option};
    ghost use Rattle.tabled_border.specs.Texts.{Texts};
    ghost use Rattle.tabled_settings.specs.Live.{Live};

    ghost Value = { Option (Live Texts) };

    ghost view = { λ colors. colors.map };
}

impl ColorMap {
    /// The colors of cells of a map, or none.
    pub(crate) fn new(map: Option<EntityMap<ANSIBuf>>) -> Self
        ensures { result ≡ map }
    {
        ColorMap { map }
    }

    /// Returns whether there never was a map: no color was written yet and none given. A removal of all colors leaves the map.
    pub fn is_empty(&self) -> bool
        ensures { IsTrue result ↔ (self.now ≡ None) }
    {
        self.map.is_none()
    }

    /// Returns whether each cell of a row is known to have the same color, whatever its column. It takes as long where many have one as where
    /// few do.
    pub fn is_row_alike(&self, row: usize) -> bool
        ensures alike { IsTrue result → AreColorsAlike self.now row }
        ensures none { self.now ≡ None → IsTrue result }
    {
        match &self.map {
            Some(map) => map.is_row_alike(row),
            None => true,
        }
    }

    /// Writes a color for the cells of an entity. Where there is no map yet, one is made whose default is the color
    /// without texts. Where memory is refused nothing changes; for all cells none is asked for.
    pub(crate) fn insert(
        &mut self,
        alloc: Global,
        entity: Entity,
        color: ANSIBuf,
    ) -> Result<(), OutOfMemory>
        ensures ok { OnOk result (self.new ≡ colors_after_event self.old (changed (write_of entity color))) }
        ensures err { OnErr result (self.new ≡ self.old) }
        ensures always { IsTrue (is_global entity) → IsOk result }
    {
        match &mut self.map {
            Some(map) => map.insert(entity, color),
            None => {
                let mut map = EntityMap::new(alloc, ANSIBuf::new(alloc, "", "")?);
                map.insert(entity, color)?;
                self.map = Some(map);
                Ok(())
            }
        }
    }

    /// Gives the cells of an entity the default again. Where memory is refused nothing changes; for all cells, and where
    /// there is no map, none is asked for.
    pub(crate) fn remove(&mut self, entity: Entity) -> Result<(), OutOfMemory>
        ensures ok { OnOk result (self.new ≡ colors_after_event self.old (changed (removal_of entity))) }
        ensures err { OnErr result (self.new ≡ self.old) }
        ensures always { IsTrue (is_global entity) → IsOk result }
        ensures without_map { self.old ≡ None → IsOk result }
    {
        match &mut self.map {
            Some(map) => map.remove(entity),
            None => Ok(()),
        }
    }
}

impl Colors for ColorMap {
    type Color = ANSIBuf;

    ghost color_of = { λ colors position. option_map (λ map. value_at map position) colors };

    ghost has_none = { IsBare };

    /// The color of a cell: none before there was a map, then the one that was written last for it, or the map's default.
    fn get_color(&self, position: Position) -> Option<&ANSIBuf> {
        match &self.map {
            Some(map) => Some(map.get(position)),
            None => None,
        }
    }

    /// Whether there is no map, or one in which nothing was written or removed but for all cells, and these have the
    /// color without texts.
    fn is_empty(&self) -> bool {
        match &self.map {
            Some(map) => map.is_empty() && map.global().is_empty(),
            None => true,
        }
    }
}

/// A copy of the colors.
impl Keep for ColorMap {
    fn keep(&self, alloc: Global) -> Result<Self, OutOfMemory> {
        Ok(ColorMap {
            map: self.map.keep(alloc)?,
        })
    }
}

/// Equality is that of the maps; one is equal to none only where there is none.
impl PartialEq for ColorMap {
    ghost use Rattle.tabled_configuration.specs.SameConfiguration.{same_colors, colors_per};

    ghost eq = { same_colors };

    ghost laws = { colors_per };

    fn eq(&self, other: &Self) -> bool {
        self.map == other.map
    }
}

impl Eq for ColorMap {
    ghost use Rattle.tabled_configuration.specs.SameConfiguration.{colors_equiv};

    ghost laws = { colors_equiv };
}
