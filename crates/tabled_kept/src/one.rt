//! One value that a store keeps.

ghost use Rattle.std.specs.Prelude.{◌≡◌};
ghost use Rattle.tabled_kept.specs.Probing.{IsCounted, IsRaised};

use crate::meter::Meter;
use crate::probes::Probes;
use std::alloc::Global;
use std::marker::{Model, PhantomData};
use std::mem;
use tabled_border::{Keep, OutOfMemory};

/// One value that is always there, as the class record and the default of a store are, with one way to read it, which is
/// counted. In contracts it is the value.
#[derive(Debug, Drop)]
pub struct One<V, M = Probes> {
    kept: V,
    /// The type of the meters with which it is read.
    by: PhantomData<M>,
}

impl<V, M> Model for One<V, M> {
    ghost use Rattle.std.specs.Coded.{codes};

    ghost Value = { V };

    ghost coded = { Prim.hlevel (codes, V.code) };

    ghost view = { λ one. one.kept };
}

/// The reading, for every type of meters.
impl<V, M: Meter> One<V, M> {
    /// Returns the value: one reading.
    pub fn read(&self, probes: &mut M) -> &V
        ensures value { result.now ≡ self.now }
        ensures counted { IsCounted (M.made probes.old) (M.made probes.new) }
        ensures raised { IsRaised 1 (M.made probes.old) (M.made probes.new) }
    {
        probes.raise();
        &self.kept
    }
}

/// What is not counted, which stands where no look-up that is written for every type of meters can call it.
impl<V> One<V> {
    /// Keeps a value.
    pub fn new(value: V) -> Self
        ensures { result ≡ value }
    {
        One {
            kept: value,
            by: PhantomData,
        }
    }

    /// Keeps another value, and returns the one that was there.
    pub fn replace(&mut self, value: V) -> V
        ensures before { result ≡ self.old }
        ensures kept { self.new ≡ value }
    {
        mem::replace(&mut self.kept, value)
    }

    /// Returns the value, for who reads it outside a look-up.
    pub fn get(&self) -> &V
        ensures { result.now ≡ self.now }
    {
        &self.kept
    }
}

impl<V: Keep> Keep for One<V> {
    fn keep(&self, alloc: Global) -> Result<Self, OutOfMemory> {
        // one field more, and this does not compile
        let One { kept, by } = self;
        let _: &PhantomData<Probes> = by;
        let kept: V = kept.keep(alloc)?;
        Ok(One {
            kept,
            by: PhantomData,
        })
    }
}
