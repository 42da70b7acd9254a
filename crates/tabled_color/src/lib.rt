//! Colors as values, and a color for each side and corner of a cell.
//!
//! `docs/DEFINITIONS.md` explains the words of the contracts.
#![tactic(auto)]

mod border_color;
mod color;
mod comparing;
mod constants;

pub use border_color::BorderColor;
pub use color::Color;
