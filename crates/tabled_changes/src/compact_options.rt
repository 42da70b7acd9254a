//! Compact configurations as configurations that options change, and the options that set something on them.

ghost use Rattle.std.specs.Prelude.{◌≡◌, [], ◌∷◌, IsOk};
ghost use Rattle.tabled_changes.specs.Resizing.{hinted_on_table};
ghost use Rattle.tabled_changes.specs.declared.resizing.Resizes.TheVariants as resizing;

use crate::{Configured, Resizes, TableOption};
use tabled_border::OutOfMemory;
use tabled_compact::{CompactConfig, CompactMultilineConfig};
use tabled_grid::Borders;
use tabled_object::Entity;

/// What can happen to it: it becomes another record.
impl Configured for CompactConfig {
    ghost use Rattle.tabled_changes.specs.Compact.{Becomes, none_becomes, both_become};

    type Event = CompactConfig;

    ghost changes = { Becomes };

    ghost none_change = { none_becomes };

    ghost both_change = { both_become };
}

/// What can happen to it: it becomes another record.
impl Configured for CompactMultilineConfig {
    ghost use Rattle.tabled_changes.specs.Compact.{Becomes, none_becomes, both_become};

    type Event = CompactMultilineConfig;

    ghost changes = { Becomes };

    ghost none_change = { none_becomes };

    ghost both_change = { both_become };
}

/// An option that sets something on compact configurations `C`, and reads nothing. It is a [`TableOption`] that takes no memory.
pub trait SetCompact<C> {
    ghost use Rattle.tabled_changes.specs.declared.resizing.Resizes.{Resizes};

    /// What it makes of a configuration.
    ghost sets: { Self → C → C };

    /// Where it is applied when a table has to find sizes anew.
    ghost resizes: { Resizes };

    /// Sets it, and nothing else.
    fn set_compact(&self, cfg: &mut C)
        ensures { cfg.new ≡ sets self.now cfg.old };

    /// Where it is applied when a table has to find sizes anew.
    fn resizes() -> Resizes
        ensures { result ≡ resizes };
}

impl<R, D, S> TableOption<R, CompactConfig, D> for S
where
    S: SetCompact<CompactConfig> + Drop,
{
    ghost makes = { λ option records dims old. S.sets option old ∷ [] };

    ghost hinted = { λ option. hinted_on_table S.resizes };

    /// Sets it, and nothing else. It takes no memory and returns Ok.
    fn change(
        self,
        _records: &mut R,
        cfg: &mut CompactConfig,
        _dims: &mut D,
    ) -> Result<(), OutOfMemory>
        ensures always { IsOk result }
        ensures ok { cfg.new ≡ S.sets self cfg.old }
        ensures records { _records.new ≡ _records.old }
        ensures sizes { _dims.new ≡ _dims.old }
    {
        self.set_compact(cfg);
        Ok(())
    }

    fn hint_change(&self) -> Option<Entity> {
        S::resizes().on_table()
    }
}

impl<R, D, S> TableOption<R, CompactMultilineConfig, D> for S
where
    S: SetCompact<CompactMultilineConfig> + Drop,
{
    ghost makes = { λ option records dims old. S.sets option old ∷ [] };

    ghost hinted = { λ option. hinted_on_table S.resizes };

    /// Sets it, and nothing else. It takes no memory and returns Ok.
    fn change(
        self,
        _records: &mut R,
        cfg: &mut CompactMultilineConfig,
        _dims: &mut D,
    ) -> Result<(), OutOfMemory>
        ensures always { IsOk result }
        ensures ok { cfg.new ≡ S.sets self cfg.old }
        ensures records { _records.new ≡ _records.old }
        ensures sizes { _dims.new ≡ _dims.old }
    {
        self.set_compact(cfg);
        Ok(())
    }

    fn hint_change(&self) -> Option<Entity> {
        S::resizes().on_table()
    }
}

/// Sets the class record.
impl SetCompact<CompactConfig> for Borders<char> {
    ghost sets = { λ borders old. record old { borders = borders } };

    ghost resizes = { resizing.Always };

    fn set_compact(&self, cfg: &mut CompactConfig) {
        *cfg = cfg.set_borders(*self);
    }

    fn resizes() -> Resizes {
        Resizes::Always
    }
}

/// Sets the class record.
impl SetCompact<CompactMultilineConfig> for Borders<char> {
    ghost sets = { λ borders old. record old { borders = borders } };

    ghost resizes = { resizing.Always };

    fn set_compact(&self, cfg: &mut CompactMultilineConfig) {
        cfg.set_borders(*self);
    }

    fn resizes() -> Resizes {
        Resizes::Always
    }
}
