//! The keys under which a store keeps values: those whose numbers are small have a slot.
//!
//! `docs/DEFINITIONS.md` explains the words of the contracts.
#![tactic(auto)]

mod key;

pub use key::{Key, Slot};
