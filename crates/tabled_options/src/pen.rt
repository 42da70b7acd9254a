//! Characters laid on places, one after the other.

ghost use Rattle.std.specs.Prelude.{◌≡◌, [], ◌∷◌, OnOk, List, length, min};
ghost use Rattle.tabled_places.specs.declared.place.Place.{Place as Spot};

use tabled_border::OutOfMemory;
use tabled_grid::Place;

/// What is still to be laid, and where it was laid so far.
#[derive(Drop)]
pub(crate) struct Pen<'a> {
    /// The characters that are left.
    pub(crate) letters: &'a [char],
    /// How many places are passed over before the next character.
    pub(crate) skip: usize,
    /// The places that were taken, each with its character.
    pub(crate) taken: Vec<(Place, char)>,
}

impl Pen<'_> {
    ghost use Rattle.tabled_options.specs.Passing.{Passed};

    /// Goes past a place: passes over it, or lays the next character on it, if one is left.
    pub(crate) fn pass(&mut self, place: Place) -> Result<(), OutOfMemory>
        ensures { OnOk result (Passed (place ∷ []) self.old self.new) }
    {
        if self.skip > 0 {
            self.skip -= 1;
            return Ok(());
        }
        if let Some((letter, rest)) = self.letters.split_first() {
            self.taken.push((place, *letter))?;
            self.letters = rest;
        }
        Ok(())
    }

    /// Passes over as many of the given number of places as are still to be passed over, and returns how many these were.
    pub(crate) fn pass_over(&mut self, count: usize) -> usize
        ensures passed { (places : List Spot) → length places ≡ result → Passed places self.old self.new }
        ensures count { result ≡ min self.old.skip count }
    {
        let passed = self.skip.min(count);
        self.skip -= passed;
        passed
    }
}
