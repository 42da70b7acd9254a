//! The cells of a table as they are printed: how a text stands in its column and its row.
//!
//! `docs/DEFINITIONS.md` explains the words of the contracts.
#![tactic(auto)]

mod filling;
mod placement;
mod shown_lines;
mod trim;

pub use filling::{LineParts, line_parts};
pub use placement::{Placement, fill_shown, free_before, lines_above};
pub use shown_lines::ShownLines;
