//! Which cell is shown at each place of a table whose cells span several columns or rows, and how wide and how high its room is.
//!
//! `docs/DEFINITIONS.md` explains the words of the contracts.
#![tactic(auto)]

mod cell_sizes;
mod cell_spans;
mod growing;
mod host;
mod lines;
mod sizes;

pub use cell_sizes::CellSizes;
pub use cell_spans::CellSpans;
pub use growing::{Ask, grow};
pub use host::{Host, next_hosts, no_hosts};
pub use lines::{first_lines, room_widths};
pub use sizes::spanned_sizes;
