//! A copy of a configuration.

use super::SpannedConfig;
use std::alloc::Global;
use tabled_border::{Keep, OutOfMemory};

/// The copy keeps `alloc` for the calls that need memory.
impl Keep for SpannedConfig {
    fn keep(&self, alloc: Global) -> Result<Self, OutOfMemory> {
        Ok(SpannedConfig {
            characters: self.characters.keep(alloc)?,
            colors: self.colors.keep(alloc)?,
            settings: self.settings.keep(alloc)?,
        })
    }
}
