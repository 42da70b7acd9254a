//! How many rows and columns a table has.

pub use tabled_object::{ExactRecords, Records, Shape};
