//! One number as the key of an ordered map.

ghost use Rattle.std.specs.Prelude.{◌≡◌, ◌≤◌};
ghost use Rattle.std.specs.Ordering.{nat_cmp};

use std::cmp::Ordering;
use std::marker::Model;
use tabled_keys::{Key, Slot};

/// A number as a key. Its order is that of numbers, and asks first whether the other is less: a search passes over the lesser
/// keys of a node one by one, which takes half the instructions that it takes with `usize`.
#[derive(Clone, Copy, Debug)]
pub(crate) struct Number {
    number: usize,
}

impl Model for Number {
    ghost use Rattle.std.specs.Prelude.{ℕ};

    ghost Value = { ℕ };

    ghost view = { λ key. key.number };

    ghost inverse = { λ number. record { number = number } };
}

impl Number {
    /// A number as a key.
    pub(crate) fn new(number: usize) -> Self
        ensures { result ≡ number }
    {
        Number { number }
    }
}

impl PartialEq for Number {
    ghost use Rattle.std.specs.Prelude.{nat_eq};
    ghost use Rattle.std.specs.Cmp.{nat_eq_equiv, partial_equiv_from_equiv};

    ghost eq = { nat_eq };

    ghost laws = { partial_equiv_from_equiv nat_eq_equiv };

    fn eq(&self, other: &Number) -> bool {
        self.number == other.number
    }
}

impl Eq for Number {
    ghost use Rattle.std.specs.Cmp.{nat_eq_equiv};

    ghost laws = { nat_eq_equiv };
}

impl PartialOrd for Number {
    ghost use Rattle.std.specs.Prelude.{Some};
    ghost use Rattle.std.specs.Ordering.{nat_cmp};
    ghost use Rattle.std.specs.Cmp.{unsigned_po};

    ghost partial_cmp = { λ x y. Some (nat_cmp x y) };

    ghost laws = { unsigned_po };

    fn partial_cmp(&self, other: &Number) -> Option<Ordering> {
        Some(self.cmp(other))
    }
}

impl Ord for Number {
    ghost use Rattle.std.specs.Ordering.{nat_cmp};
    ghost use Rattle.std.specs.Cmp.{nat_cmp_total};
    ghost use Rattle.tabled_kept.specs.KeyLaws.{numbers_as_partial, numbers_tied};

    ghost cmp = { nat_cmp };

    ghost total = { nat_cmp_total };

    ghost matches_partial_cmp = { numbers_as_partial };

    ghost matches_eq = { numbers_tied };

    fn cmp(&self, other: &Number) -> Ordering {
        if self.number > other.number {
            return Ordering::Greater;
        }
        not_greater(self.number, other.number)
    }
}

/// The order of a number and another that it is not greater than. Out of line, so that a search goes on from a lesser key by one
/// jump.
#[inline(never)]
fn not_greater(number: usize, other: usize) -> Ordering
    requires { number ≤ other }
    ensures { result ≡ nat_cmp number other }
{
    if number == other {
        Ordering::Equal
    } else {
        Ordering::Less
    }
}

/// Numbers have no slots.
impl Key for Number {
    ghost use Rattle.std.specs.FinMap as map;
    ghost use Rattle.tabled_keys.specs.Slots.{number_at_slot};
    ghost use Rattle.tabled_kept.specs.KeyLaws.{no_slot, no_slot_back, no_slot_narrow};

    ghost slot_of = { no_slot };

    ghost key_at = { number_at_slot };

    fn slot(self) -> Option<Slot> {
        None
    }

    ghost exact = { map.nat_cmp-IsAntisymmetric };

    ghost back = { no_slot_back };

    ghost narrow = { no_slot_narrow };
}
