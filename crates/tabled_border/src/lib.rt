//! What can stand at a border: the border of one cell, the texts that switch a color on and off, and copies of
//! values that may need memory.
//!
//! `docs/DEFINITIONS.md` explains the words of the contracts. Users name these items by `tabled_grid`.
#![tactic(auto)]

mod ansi;
mod border;
mod keep;
mod memory;

pub use ansi::{ANSIBuf, ANSIFmt, ANSIStr, AnsiText};
pub use border::Border;
pub use keep::Keep;
pub use memory::OutOfMemory;
