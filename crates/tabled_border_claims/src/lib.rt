//! What this library promises of borders, options, styles, settings, colors and texts by themselves: each promise is the contract of a
//! function here, and its body is the calls that keep it. A law, which is about definitions alone, does nothing. What tables promise
//! stands in `tabled_claims`, which says more of claims, what programs do in `tabled_program_claims`.
#![tactic(auto)]

pub mod colors;
pub mod corners;
pub mod csv;
pub mod first_values;
pub mod formats;
pub mod joined_colors;
pub mod lists;
pub mod objects;
pub mod options;
pub mod orders;
pub mod outlines;
pub mod places;
pub mod printing;
pub mod settings;
pub mod spans;
pub mod store;
pub mod styles;
pub mod texts;
