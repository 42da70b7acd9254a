//! Options that set how the texts of cells stand in them, what fills the cells beside these, their padding, and the margin around a
//! table: its room, its color, and a shadow that falls there.
//!
//! `docs/DEFINITIONS.md` explains the words of the contracts.
#![tactic(auto)]

mod alignment;
mod alignment_strategy;
mod compact_options;
mod justification;
mod margin;
mod margin_color;
mod padding;
mod padding_color;
mod shadow;
mod side_colors;
mod texts;
mod trim_strategy;

pub use alignment::Alignment;
pub use alignment_strategy::AlignmentStrategy;
pub use justification::Justification;
pub use margin::Margin;
pub use margin_color::MarginColor;
pub use padding::Padding;
pub use padding_color::PaddingColor;
pub use shadow::Shadow;
pub use side_colors::{OfMargin, OfPadding, SideColors};
pub use trim_strategy::TrimStrategy;
