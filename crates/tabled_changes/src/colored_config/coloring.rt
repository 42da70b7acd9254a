//! Colors of whole cells, many entities at once.

ghost use Rattle.std.specs.Prelude.{◌≡◌, [], IfOk, OnOk, OnErr, IsOk};
ghost use Rattle.tabled_configuration.specs.Colored.{Changes};
ghost use Rattle.tabled_changes.specs.EntitiesColored.{all_around, entities_colored, fill_writes, padding_writes, text_writes};

use super::ColoredConfig;
use std::alloc::Global;
use tabled_border::{ANSIBuf, Keep, OutOfMemory};
use tabled_object::Entity;
use tabled_settings::Sides;

impl ColoredConfig {
    /// Sets a color for each entity of a list, in its order: the color of the texts of its cells, that of the characters
    /// that fill the cells beside them, and that of the padding on all sides. Where memory is refused nothing changes,
    /// however many of them were set; an empty list asks for none. It costs the list, and not what was set before, unless one
    /// of the entities is all cells.
    pub fn color_entities(&mut self, list: &[(Entity, ANSIBuf)]) -> Result<(), OutOfMemory>
        ensures ok { OnOk result (Changes (entities_colored list.now) self.old self.new) }
        ensures err { OnErr result (self.new ≡ self.old) }
        ensures empty { list.now ≡ [] → IsOk result }
    {
        if list.is_empty() {
            return Ok(());
        }
        let alloc = self.config.allocator();
        let texts = written_texts(alloc, list)?;
        let fills = written_fills(alloc, list)?;
        let paddings = written_paddings(alloc, list)?;
        self.colors
            .apply_beside(&mut self.config, texts, fills, paddings)?;
        Ok(())
    }
}

/// A write of its color for each entity of a list.
fn written_texts(
    alloc: Global,
    list: &[(Entity, ANSIBuf)],
) -> Result<Vec<(Entity, Option<ANSIBuf>)>, OutOfMemory>
    ensures { IfOk result (λ events. events.items ≡ text_writes list.now) }
{
    let mut events = Vec::new(alloc);
    for (entity, color) in list {
        events.push((*entity, Some(color.keep(alloc)?)))?;
    }
    Ok(events)
}

/// A write of its color for the filling of each entity of a list.
fn written_fills(
    alloc: Global,
    list: &[(Entity, ANSIBuf)],
) -> Result<Vec<(Entity, Option<Option<ANSIBuf>>)>, OutOfMemory>
    ensures { IfOk result (λ events. events.items ≡ fill_writes list.now) }
{
    let mut events = Vec::new(alloc);
    for (entity, color) in list {
        events.push((*entity, Some(Some(color.keep(alloc)?))))?;
    }
    Ok(events)
}

/// A write of its color for the padding of each entity of a list, on all sides.
fn written_paddings(
    alloc: Global,
    list: &[(Entity, ANSIBuf)],
) -> Result<Vec<(Entity, Option<Sides<Option<ANSIBuf>>>)>, OutOfMemory>
    ensures { IfOk result (λ events. events.items ≡ padding_writes list.now) }
{
    let mut events = Vec::new(alloc);
    for (entity, color) in list {
        events.push((*entity, Some(all_around(alloc, color)?)))?;
    }
    Ok(events)
}

/// A color on all sides.
fn all_around(alloc: Global, color: &ANSIBuf) -> Result<Sides<Option<ANSIBuf>>, OutOfMemory>
    ensures { IfOk result (λ sides. sides ≡ all_around color.now) }
{
    let left = color.keep(alloc)?;
    let right = color.keep(alloc)?;
    let top = color.keep(alloc)?;
    let bottom = color.keep(alloc)?;
    Ok(Sides::new(Some(left), Some(right), Some(top), Some(bottom)))
}
