//! A builder of tables.

pub use tabled_builder::Builder;
