//! How wide the columns of a table are, and how high its rows.

pub use tabled_object::{Dimension, FixedDimension};
