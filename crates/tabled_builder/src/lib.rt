//! Tables that are built record by record, and column by column.
//!
//! `docs/DEFINITIONS.md` explains the words of the contracts.
#![tactic(auto)]

mod builder;
mod records;

pub use builder::Builder;
pub use records::columns_of;
