//! A value for each side of a cell or of a table.

ghost use Rattle.std.specs.Prelude.{◌≡◌, ⊤};

use std::alloc::{AllocError, Global};
use tabled_border::{Keep, OutOfMemory};

/// A value for each of the four sides.
#[derive(Copy, Debug, Drop, Default, PartialEq, Eq, PartialOrd, Ord, Hash)]
pub struct Sides<T> {
    /// The left side.
    pub left: T,
    /// The right side.
    pub right: T,
    /// The upper side.
    pub top: T,
    /// The lower side.
    pub bottom: T,
}

/// Values are copied where `T` is copied.
impl<T: Copy> Clone for Sides<T> {
    ghost is_clone = { λ value copy. copy ≡ value };

    ghost is_infallible = { λ _. ⊤ };

    fn clone(&self) -> Result<Self, AllocError> {
        Ok(*self)
    }
}

impl<T> Sides<T> {
    /// Makes the sides with these values.
    pub const fn new(left: T, right: T, top: T, bottom: T) -> Self
        ensures { result ≡ record { left = left; right = right; top = top; bottom = bottom } }
    {
        Sides {
            left,
            right,
            top,
            bottom,
        }
    }

    /// Makes the sides with one value on all of them.
    pub const fn filled(value: T) -> Self
    where
        T: Copy,
        ensures { result ≡ record { left = value; right = value; top = value; bottom = value } }
    {
        Sides::new(value, value, value, value)
    }
}

impl<T: Keep> Keep for Sides<T> {
    fn keep(&self, alloc: Global) -> Result<Self, OutOfMemory> {
        Ok(Sides {
            left: self.left.keep(alloc)?,
            right: self.right.keep(alloc)?,
            top: self.top.keep(alloc)?,
            bottom: self.bottom.keep(alloc)?,
        })
    }
}
