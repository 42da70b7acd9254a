//! Cells that span several columns or rows, the correction of border characters beside them, and corners that join the lines that meet.
//!
//! `docs/DEFINITIONS.md` explains the words of the contracts.
#![tactic(auto)]

mod border_correction;
mod corners;
mod covered;
mod interval;
mod joined_corners;
mod picture;
mod span;
mod steps;

pub use border_correction::BorderCorrection;
pub use joined_corners::JoinedCorners;
pub use span::Span;
