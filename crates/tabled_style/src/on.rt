//! The marker of what a value has.

/// Stands for a part that is there. A part that is not there has the marker `()`.
#[derive(Clone, Copy, Debug, Default, PartialEq, Eq, PartialOrd, Ord, Hash)]
pub struct On;
