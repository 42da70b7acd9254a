//! An option of every kind, applied in a row to a table, with the list of their events as the contract.
//!
//! `docs/DEFINITIONS.md` explains the words of the contracts.
#![tactic(auto)]

mod kinds;

pub use kinds::{
    BorderKinds, ColorKinds, Kinds, LineKinds, OtherBorders, OtherSettings, OtherTargets,
    TextKinds, every_border, every_color, every_first_target, every_kind, every_line,
    every_other_border, every_other_setting, every_other_target, every_text,
};
