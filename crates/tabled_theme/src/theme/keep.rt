//! A copy of a theme.

use super::Theme;
use std::alloc::Global;
use tabled_border::{Keep, OutOfMemory};

/// The copy keeps `alloc` for the lines that are put later.
impl Keep for Theme {
    fn keep(&self, alloc: Global) -> Result<Self, OutOfMemory> {
        let set_horizontals = self.set_horizontals.keep(alloc)?;
        let set_verticals = self.set_verticals.keep(alloc)?;
        let horizontals_beneath = self.horizontals_beneath.keep(alloc)?;
        let verticals_beneath = self.verticals_beneath.keep(alloc)?;
        Ok(Theme {
            characters: self.characters,
            colors: self.colors.keep(alloc)?,
            set_horizontals,
            set_verticals,
            horizontals_beneath,
            verticals_beneath,
        })
    }
}
