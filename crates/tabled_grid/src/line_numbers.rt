//! The numbers of the custom lines that draw what they cross. A look-up stands neither here nor below, so it learns them by the
//! one reading alone.

ghost use Rattle.std.specs.Prelude.{◌≡◌, option_copied};
ghost use Rattle.tabled_grid.specs.Counted.{number_of};
ghost use Rattle.tabled_kept.specs.Probing.{IsCounted, IsRaised};

use crate::custom_lines::CustomLine;
use crate::{Keep, OutOfMemory, Probes, Rank};
use std::alloc::Global;
use std::marker::{Model, PhantomData};
use tabled_kept::Meter;

/// How many custom lines of one direction draw the first, the inner and the last of the lines that they cross.
#[derive(Clone, Copy, Debug)]
pub(crate) struct LineNumbers {
    first: u128,
    inner: u128,
    last: u128,
}

impl LineNumbers {
    ghost use Rattle.tabled_grid.specs.Counted.{numbers_of, exchanged};

    /// The numbers of no line.
    pub(crate) fn none() -> Self
        ensures { result ≡ record { first = 0; inner = 0; last = 0 } }
    {
        LineNumbers {
            first: 0,
            inner: 0,
            last: 0,
        }
    }

    /// The numbers of one line, or of none.
    pub(crate) fn of<L: CustomLine>(line: Option<&L>) -> Self
        ensures { result ≡ numbers_of L.draws (option_copied line.entry) }
    {
        match line {
            Some(line) => LineNumbers {
                first: u128::from(line.draws(Rank::First)),
                inner: u128::from(line.draws(Rank::Inner)),
                last: u128::from(line.draws(Rank::Last)),
            },
            None => LineNumbers::none(),
        }
    }

    /// The numbers without those of what was taken, and with those of what was put.
    pub(crate) fn exchange(self, taken: Self, put: Self) -> Self
        ensures { result ≡ exchanged self taken put }
    {
        LineNumbers {
            first: self
                .first
                .saturating_sub(taken.first)
                .saturating_add(put.first),
            inner: self
                .inner
                .saturating_sub(taken.inner)
                .saturating_add(put.inner),
            last: self
                .last
                .saturating_sub(taken.last)
                .saturating_add(put.last),
        }
    }
}

/// How many custom lines draw the lines of a rank, as a store keeps it: each of the three numbers is read by itself.
#[derive(Debug, Drop)]
pub(crate) struct KeptNumbers<M = Probes> {
    kept: LineNumbers,
    /// The type of the meters with which they are read.
    by: PhantomData<M>,
}

impl<M> Model for KeptNumbers<M> {
    ghost use Rattle.tabled_grid.specs.declared.line_numbers.LineNumbers.{LineNumbers as Numbers};

    ghost Value = { Numbers };

    ghost view = { λ numbers. numbers.kept };
}

/// The reading, for every type of meters.
impl<M: Meter> KeptNumbers<M> {
    /// How many draw the lines of a rank: one reading.
    pub(crate) fn read(&self, rank: Rank, probes: &mut M) -> u128
        ensures value { result ≡ number_of rank self.now }
        ensures counted { IsCounted (M.made probes.old) (M.made probes.new) }
        ensures raised { IsRaised 1 (M.made probes.old) (M.made probes.new) }
    {
        probes.raise();
        match rank {
            Rank::First => self.kept.first,
            Rank::Inner => self.kept.inner,
            Rank::Last => self.kept.last,
        }
    }
}

/// What is not counted, which stands where no look-up that is written for every type of meters can call it.
impl KeptNumbers {
    /// The numbers of no line, as a store keeps them.
    pub(crate) fn new() -> Self
        ensures { result ≡ record { first = 0; inner = 0; last = 0 } }
    {
        KeptNumbers {
            kept: LineNumbers::none(),
            by: PhantomData,
        }
    }

    /// The numbers, for who changes them.
    pub(crate) fn get(&self) -> LineNumbers
        ensures { result ≡ self.now }
    {
        self.kept
    }

    /// Keeps other numbers.
    pub(crate) fn set(&mut self, numbers: LineNumbers)
        ensures { self.new ≡ numbers }
    {
        self.kept = numbers;
    }
}

impl Keep for KeptNumbers {
    fn keep(&self, _alloc: Global) -> Result<Self, OutOfMemory> {
        // one field more, or other numbers, and this does not compile
        let KeptNumbers { kept, by } = self;
        let _: &PhantomData<Probes> = by;
        let LineNumbers { first, inner, last } = *kept;
        let (first, inner, last): (u128, u128, u128) = (first, inner, last);
        Ok(KeptNumbers {
            kept: LineNumbers { first, inner, last },
            by: PhantomData,
        })
    }
}
