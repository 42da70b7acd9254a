//! The meter of look-ups.

ghost use Rattle.std.specs.Prelude.{ℕ};

use std::fmt::Debug;

/// What counts the readings of a store: readings of a kept map, of a count, of the class record or of the default. It
/// saturates at `u64::MAX`. What is kept is read with a meter of one type. A look-up that is written for every such type can
/// make none, so it raises the one that was handed in.
pub trait Meter: Debug + Drop {
    ghost use Rattle.tabled_kept.specs.Probing.{IsCounted, IsRaised};

    /// How many readings were counted.
    ghost made: { Self → ℕ };

    /// Counts one reading.
    fn raise(&mut self)
        ensures counted { IsCounted (made self.old) (made self.new) }
        ensures raised { IsRaised 1 (made self.old) (made self.new) };
}
