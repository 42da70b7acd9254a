//! Colors given to the cells of a table in turn.
//!
//! `docs/DEFINITIONS.md` explains the words of the contracts.
#![tactic(auto)]

mod cell_color;
mod colorization;
mod exact;
mod joined;
mod pattern;
mod turns;

pub use cell_color::CellColor;
pub use colorization::Colorization;
pub use exact::ExactColorization;
pub use joined::JoinedColor;
