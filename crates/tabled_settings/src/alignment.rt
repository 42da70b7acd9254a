//! Where the text of a cell stands in it.

ghost use Rattle.std.specs.Prelude.{◌≡◌, IfOk, IsOk};

use std::alloc::Global;
use tabled_border::{Keep, OutOfMemory};

/// Where the text of a cell stands between its left and its right side.
#[derive(Clone, Copy, Debug, PartialEq, Eq, PartialOrd, Ord, Hash)]
pub enum AlignmentHorizontal {
    /// At the left side.
    Left,
    /// In the middle.
    Center,
    /// At the right side.
    Right,
}

/// Where the text of a cell stands between its upper and its lower side.
#[derive(Clone, Copy, Debug, PartialEq, Eq, PartialOrd, Ord, Hash)]
pub enum AlignmentVertical {
    /// At the upper side.
    Top,
    /// In the middle.
    Center,
    /// At the lower side.
    Bottom,
}

impl Keep for AlignmentHorizontal {
    /// A copy, which takes no memory.
    fn keep(&self, _alloc: Global) -> Result<Self, OutOfMemory>
        ensures copy { IfOk result (λ copy. copy ≡ self.now) }
        ensures always { IsOk result }
    {
        Ok(*self)
    }
}

impl Keep for AlignmentVertical {
    /// A copy, which takes no memory.
    fn keep(&self, _alloc: Global) -> Result<Self, OutOfMemory>
        ensures copy { IfOk result (λ copy. copy ≡ self.now) }
        ensures always { IsOk result }
    {
        Ok(*self)
    }
}
