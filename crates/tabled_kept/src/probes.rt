//! The meter of look-ups.

ghost use Rattle.std.specs.Prelude.{◌≡◌, ℕ};

use crate::meter::Meter;

/// How many readings of a store were made: readings of a kept map, of a count, of the class record
/// or of the default. It saturates at `u64::MAX`.
#[derive(Debug, Drop)]
pub struct Probes {
    made: u64,
}

impl std::marker::Model for Probes {
    ghost Value = { ℕ };

    ghost view = { λ probes. probes.made };
}

impl Probes {
    /// Makes a meter that has counted no reading.
    pub fn new() -> Self
        ensures { result ≡ 0 }
    {
        Probes { made: 0 }
    }

    /// Returns how many readings were made, up to `u64::MAX`.
    pub fn count(&self) -> u64
        ensures { result ≡ self.now }
    {
        self.made
    }
}

impl Meter for Probes {
    ghost made = { λ probes. probes };

    #[tactic(auto, unfolding(crate::specs::Probing::IsCounted))]
    fn raise(&mut self) {
        self.made = self.made.saturating_add(1);
    }
}
