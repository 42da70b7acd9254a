//! What can be done to a configuration.

ghost use Rattle.std.specs.Prelude.{◌≡◌, OnOk, OnErr, List, Option};
ghost use Rattle.tabled_object.specs.declared.entity.Entity.{Entity};

use crate::Configured;
use tabled_border::OutOfMemory;
use tabled_object::Entity as Cells;

/// A change of a whole table's configuration `C`, which may read its records `R` and its sizes `D`.
pub trait TableOption<R, C: Configured, D> {
    /// The events that the option makes, given the records, the sizes and the configuration before.
    ghost makes: { Self → R → D → C → List C.Event };

    /// Which cells' sizes the change may touch.
    ghost hinted: { Self → Option Entity };

    /// Makes the change: the configuration changes by the option's events, and by nothing else. Where memory is refused it
    /// is as before.
    fn change(self, records: &mut R, cfg: &mut C, dims: &mut D) -> Result<(), OutOfMemory>
        ensures ok { OnOk result (C.changes (makes self records.old dims.old cfg.old) cfg.old cfg.new) }
        ensures err { OnErr result (cfg.new ≡ cfg.old) }
        ensures records { records.new ≡ records.old }
        ensures sizes { dims.new ≡ dims.old };

    /// The cells whose sizes a table has to find anew after the change, if any.
    fn hint_change(&self) -> Option<Cells>
        ensures { result ≡ hinted self.now };
}
