//! One color for whole cells.

ghost use Rattle.std.specs.Prelude.{◌≡◌, ◌∷◌, [], None, IfOk};
ghost use Rattle.tabled_color.specs.Shade.{texts_of};
ghost use Rattle.tabled_changes.specs.EntitiesColored.{entities_colored};
ghost use Rattle.tabled_object.specs.declared.entity.Entity.TheVariants as cells;

use crate::turns::Colored;
use std::alloc::Global;
use std::marker::Model;
use tabled_border::{ANSIBuf, OutOfMemory};
use tabled_changes::{CellOption, ColoredConfig, TableOption};
use tabled_color::Color;
use tabled_object::Entity;

/// A color for whole cells: that of their texts, of the characters that fill them beside these, and of the padding on all sides, where a
/// [`Color`] is that of the texts alone. A later one replaces it. The borders stay as they are.
///
/// `table.modify(Rows::first(), CellColor::new(Color::BG_BLUE))?` gives the first row a blue ground from one vertical line to the next.
#[derive(Debug, Drop)]
pub struct CellColor {
    color: Color,
}

impl Model for CellColor {
    ghost use Rattle.tabled_color.specs.Shade.{Shade};

    ghost Value = { Shade };

    ghost view = { λ given. given.color };
}

impl CellColor {
    /// Makes an option that gives cells this color, and their padding and filling too.
    pub fn new(color: Color) -> Self
        ensures { result ≡ color }
    {
        CellColor { color }
    }
}

impl<R> CellOption<R, ColoredConfig> for CellColor {
    ghost makes = { λ color records entity old. entities_colored ((entity, texts_of color) ∷ []) };

    ghost hinted = { λ color. None };

    /// Colors the cells of the entity. Where memory is refused nothing changes.
    fn change(
        &self,
        _records: &mut R,
        cfg: &mut ColoredConfig,
        entity: Entity,
    ) -> Result<(), OutOfMemory> {
        let list = colored(cfg.config().allocator(), entity, &self.color)?;
        cfg.color_entities(&list)
    }

    fn hint_change(&self) -> Option<Entity> {
        None
    }
}

impl<R, D> TableOption<R, ColoredConfig, D> for CellColor {
    ghost makes = { λ color records dims old. entities_colored ((cells.Global, texts_of color) ∷ []) };

    ghost hinted = { λ color. None };

    /// Colors all cells. Where memory is refused nothing changes.
    fn change(
        self,
        _records: &mut R,
        cfg: &mut ColoredConfig,
        _dims: &mut D,
    ) -> Result<(), OutOfMemory> {
        let list = colored(cfg.config().allocator(), Entity::Global, &self.color)?;
        cfg.color_entities(&list)
    }

    fn hint_change(&self) -> Option<Entity> {
        None
    }
}

/// One entity with a color.
fn colored(alloc: Global, entity: Entity, color: &Color) -> Result<Colored, OutOfMemory>
    ensures { IfOk result (λ list. list.items ≡ (entity, texts_of color.now) ∷ []) }
{
    let texts = ANSIBuf::new(alloc, color.get_prefix(), color.get_suffix())?;
    let mut list = Vec::new(alloc);
    list.push((entity, texts))?;
    Ok(list)
}
