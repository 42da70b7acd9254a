//! Records of border characters, the places and the sites where they stand, and what lists of writes leave there.
//!
//! A table has R rows and C columns. Its horizontal lines are numbered 0 to R, its vertical lines 0
//! to C; the lines R and C close the table. `docs/DEFINITIONS.md` explains the words of the contracts. Users name these items by
//! `tabled_grid`.
#![tactic(auto)]

mod borders;
mod event;
mod keep;
mod keys;
mod lines;
mod place;
mod site;
mod writes;

pub use borders::{Borders, crossing_of, edges_of};
pub use event::{Event, Region, Written};
pub use keys::EdgePlace;
pub use lines::{HorizontalLine, VerticalLine};
pub use place::{LineOf, Place, Rank, has_spot};
pub use site::{Class, Direction, Part, Site, Spot};
pub use writes::{Target, Write};
