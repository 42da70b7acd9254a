//! Custom lines of one direction, put at their index and taken from there, with the numbers of those that draw what they cross.

ghost use Rattle.std.specs.Prelude.{◌≡◌, OnOk, OnErr, None};
ghost use Rattle.std.specs.Ordering.{nat_cmp};
ghost use Rattle.std.specs.FinMap as map;
ghost use Rattle.tabled_kept.specs.Table.{table};
ghost use Rattle.tabled_grid.specs.Counted.{LinesCounted};

use crate::line_numbers::{KeptNumbers, LineNumbers};
use crate::{HorizontalLine, OutOfMemory, Rank, VerticalLine};
use tabled_kept::{CountedMap, Numbered};

/// Custom horizontal lines, lent, each with the index at which it stands, in rising order.
pub type HorizontalLines<'a, T> = Numbered<'a, HorizontalLine<T>>;

/// Custom vertical lines, lent, each with the index at which it stands, in rising order.
pub type VerticalLines<'a, T> = Numbered<'a, VerticalLine<T>>;

/// A custom line of one direction.
pub(crate) trait CustomLine {
    ghost use Rattle.std.specs.Prelude.{◌≡◌, Bool, Option, option_copied};
    ghost use Rattle.tabled_places.specs.declared.place.Rank.{Rank};

    /// What stands along it.
    type Value;

    /// What it has for its crossings with the lines of a rank.
    ghost meeting: { Rank → Self → Option Self.Value };

    /// Whether it draws the lines of a rank that it crosses.
    ghost draws: { Rank → Self → Bool };

    fn meeting(&self, rank: Rank) -> Option<&Self::Value>
        ensures { option_copied result ≡ meeting rank self.now };

    fn draws(&self, rank: Rank) -> bool
        ensures { result ≡ draws rank self.now };
}

impl<T> CustomLine for HorizontalLine<T> {
    ghost use Rattle.tabled_places.specs.Site.{horizontal_meeting};
    ghost use Rattle.tabled_grid.specs.Counted.{horizontal_draws};

    type Value = T;

    ghost meeting = { horizontal_meeting };

    ghost draws = { horizontal_draws };

    fn meeting(&self, rank: Rank) -> Option<&T> {
        match rank {
            Rank::First => self.left.as_ref(),
            Rank::Inner => self.intersection.as_ref(),
            Rank::Last => self.right.as_ref(),
        }
    }

    fn draws(&self, rank: Rank) -> bool {
        self.meeting(rank).is_some()
    }
}

impl<T> CustomLine for VerticalLine<T> {
    ghost use Rattle.tabled_places.specs.Site.{vertical_meeting};
    ghost use Rattle.tabled_grid.specs.Counted.{vertical_draws};

    type Value = T;

    ghost meeting = { vertical_meeting };

    ghost draws = { vertical_draws };

    fn meeting(&self, rank: Rank) -> Option<&T> {
        match rank {
            Rank::First => self.top.as_ref(),
            Rank::Inner => self.intersection.as_ref(),
            Rank::Last => self.bottom.as_ref(),
        }
    }

    fn draws(&self, rank: Rank) -> bool {
        match rank {
            Rank::First => self.top.is_some(),
            Rank::Inner => false,
            Rank::Last => self.bottom.is_some(),
        }
    }
}

/// Puts a line at an index. Where memory is refused nothing changes, and none stood there.
pub(crate) fn put_line<L: CustomLine + Drop>(
    lines: &mut CountedMap<usize, L>,
    numbers: &mut KeptNumbers,
    index: usize,
    line: L,
) -> Result<(), OutOfMemory>
    requires { LinesCounted L.draws numbers.old (table nat_cmp lines.old) }
    ensures ok { OnOk result (table nat_cmp lines.new ≡ map.insert (table nat_cmp lines.old) index line) }
    ensures err { OnErr result (table nat_cmp lines.new ≡ table nat_cmp lines.old) }
    ensures absent { OnErr result (map.get (table nat_cmp lines.old) index ≡ None) }
    ensures counted { LinesCounted L.draws numbers.new (table nat_cmp lines.new) }
{
    let put = LineNumbers::of(Some(&line));
    let before = lines.insert(index, line)?;
    let taken = LineNumbers::of(before.as_ref());
    numbers.set(numbers.get().exchange(taken, put));
    Ok(())
}

/// Takes the line at an index, if one stands there.
pub(crate) fn take_line<L: CustomLine + Drop>(
    lines: &mut CountedMap<usize, L>,
    numbers: &mut KeptNumbers,
    index: usize,
)
    requires { LinesCounted L.draws numbers.old (table nat_cmp lines.old) }
    ensures taken { table nat_cmp lines.new ≡ map.remove (table nat_cmp lines.old) index }
    ensures counted { LinesCounted L.draws numbers.new (table nat_cmp lines.new) }
{
    let before = lines.remove(index);
    let taken = LineNumbers::of(before.as_ref());
    numbers.set(numbers.get().exchange(taken, LineNumbers::none()));
}
