//! Themes: border characters, border colors and custom lines that are changed in place.
//!
//! `docs/DEFINITIONS.md` explains the words of the contracts.
#![tactic(auto)]

mod line_map;
mod theme;

pub use theme::Theme;
