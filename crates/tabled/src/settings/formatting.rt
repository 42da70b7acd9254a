//! How the texts of cells stand in them.

pub use tabled_formatting::{
    AlignmentStrategy, Justification, OfMargin, OfPadding, SideColors, TrimStrategy,
};
