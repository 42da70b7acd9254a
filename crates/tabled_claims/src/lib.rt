//! What this library promises: each promise is the contract of a function here, and its body is the call that keeps it, or the calls
//! that do so in a row. A law, which is about definitions alone, does nothing.
//!
//! What it is that options bring no character that steers is defined here (`specs/Clean.antt`); the other words of the contracts stand in
//! the `specs/` of the crates below, and `docs/DEFINITIONS.md` explains them. What one call gives or leaves its own contract says, and
//! `tools/contracts.lock` holds; a promise here says what several calls or definitions give together. It guards the clauses on which its
//! proof rests: were one of them to say less, it would no longer be proved.
#![tactic(auto)]

pub mod cells;
pub mod columns;
pub mod lent;
pub mod markdown;
pub mod painted;
pub mod steering;
pub mod tables;
pub mod worked;
