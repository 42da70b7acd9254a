//! What a store keeps under keys: one value under each, in tables where the numbers of the key are small, and else in
//! ordered maps.
//!
//! `docs/DEFINITIONS.md` explains the words of the contracts. Users name [`Probes`] by `tabled_grid`.
#![tactic(auto)]

mod copies;
mod counted_map;
mod entries;
mod meter;
mod number;
mod numbered;
mod one;
mod probes;
mod sheet;
mod slots;
mod table;
mod tally;

pub use counted_map::CountedMap;
pub use meter::Meter;
pub use numbered::Numbered;
pub use one::One;
pub use probes::Probes;
pub use tabled_keys::{Key, Slot};
