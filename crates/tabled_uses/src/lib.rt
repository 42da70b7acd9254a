//! Uses of the library whose contracts are computed or proved: tables drawn by hand, by the definitions alone.
//!
//! `docs/DEFINITIONS.md` explains the words of the contracts.
#![tactic(auto)]

mod examples;
mod lettered;
pub mod options;
pub mod own_option;
pub mod recipes;
pub mod styles;
pub mod values;

pub use examples::{drawn_lines, lines_of_their_own, places_along_lines, places_and_levels};
pub use lettered::{
    marks_on_edges, texts_along_the_top, texts_on_other_lines, texts_over_crossings,
};
