//! Copies that may need memory.

ghost use Rattle.std.specs.Prelude.{◌≡◌, IfOk, IsOk};

use crate::{Border, OutOfMemory};
use std::alloc::Global;

/// A value that can be copied where memory allows.
///
/// The law of an `impl`: a copy equals its source.
pub trait Keep: Drop + Sized {
    /// A copy of the value, whose memory comes from `alloc`. Where it is refused, the value is as it was.
    fn keep(&self, alloc: Global) -> Result<Self, OutOfMemory>
        ensures { IfOk result (λ copy. copy ≡ self.now) };
}

impl Keep for char {
    /// A copy, which takes no memory.
    fn keep(&self, _alloc: Global) -> Result<Self, OutOfMemory>
        ensures copy { IfOk result (λ copy. copy ≡ self.now) }
        ensures always { IsOk result }
    {
        Ok(*self)
    }
}

impl Keep for bool {
    /// A copy, which takes no memory.
    fn keep(&self, _alloc: Global) -> Result<Self, OutOfMemory>
        ensures copy { IfOk result (λ copy. copy ≡ self.now) }
        ensures always { IsOk result }
    {
        Ok(*self)
    }
}

impl Keep for u128 {
    /// A copy, which takes no memory.
    fn keep(&self, _alloc: Global) -> Result<Self, OutOfMemory>
        ensures copy { IfOk result (λ copy. copy ≡ self.now) }
        ensures always { IsOk result }
    {
        Ok(*self)
    }
}

impl<T: Keep> Keep for Option<T> {
    fn keep(&self, alloc: Global) -> Result<Self, OutOfMemory> {
        match self {
            Some(value) => Ok(Some(value.keep(alloc)?)),
            None => Ok(None),
        }
    }
}

impl<T: Keep> Keep for Border<T> {
    fn keep(&self, alloc: Global) -> Result<Self, OutOfMemory> {
        Ok(Border {
            top: self.top.keep(alloc)?,
            bottom: self.bottom.keep(alloc)?,
            left: self.left.keep(alloc)?,
            right: self.right.keep(alloc)?,
            left_top_corner: self.left_top_corner.keep(alloc)?,
            left_bottom_corner: self.left_bottom_corner.keep(alloc)?,
            right_top_corner: self.right_top_corner.keep(alloc)?,
            right_bottom_corner: self.right_bottom_corner.keep(alloc)?,
        })
    }
}
