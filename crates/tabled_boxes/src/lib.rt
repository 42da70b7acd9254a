//! Box-drawing characters by their arms: the character of a crossing, by the edges that meet there.
//!
//! `docs/DEFINITIONS.md` explains the words of the contracts.
#![tactic(auto)]

mod arms;
mod characters;
mod crossing;

pub use arms::{Arms, Weight};
pub use characters::{arms_of, join};
pub use crossing::{Edges, joined};
