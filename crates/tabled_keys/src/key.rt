//! The keys of kept maps, and the slots that some of them have.

ghost use Rattle.std.specs.Prelude.{◌≡◌, ◌<◌, ◌^◌, Option, Some};
ghost use Rattle.std.specs.FinMap as map;
ghost use Rattle.tabled_keys.specs.declared.key.Slot.{Slot as Place};
ghost use Rattle.tabled_keys.specs.Slots.{slot_of_number, number_at_slot};

/// A slot of a table. Both numbers are counted from 0.
#[derive(Clone, Copy, Debug, PartialEq, Eq, PartialOrd, Ord)]
pub struct Slot {
    /// The row of the table.
    pub row: usize,
    /// The slot of that row.
    pub col: usize,
}

/// A key of a kept map. A key with small numbers has a slot, and its value stands there; any other key stands in an ordered
/// map. The key alone decides.
pub trait Key: Ord + Copy + Drop {
    /// The slot of a key, if it has one.
    ghost slot_of: { Self → Option Place };

    /// The key whose slot this is.
    ghost key_at: { Place → Self };

    /// The slot of the key, if it has one.
    fn slot(self) -> Option<Slot>
        ensures { result ≡ slot_of self };

    /// Keys that compare alike are equal.
    ghost exact: { map.IsAntisymmetric Self.cmp };

    /// A slot tells its key.
    ghost back: { (key : Self) → (slot : Place) → slot_of key ≡ Some slot → key_at slot ≡ key };

    /// Slots have small numbers.
    ghost narrow: { (key : Self) → (slot : Place) → slot_of key ≡ Some slot → (slot.row < 2 ^ 30) × (slot.col < 2 ^ 32) };
}

impl Key for usize {
    ghost use Rattle.tabled_keys.specs.Slots.{numbers_back, numbers_narrow};

    ghost slot_of = { slot_of_number };

    ghost key_at = { number_at_slot };

    fn slot(self) -> Option<Slot> {
        if self < 256 {
            Some(Slot { row: 0, col: self })
        } else {
            None
        }
    }

    ghost exact = { map.nat_cmp-IsAntisymmetric };

    ghost back = { numbers_back };

    ghost narrow = { numbers_narrow };
}
