//! What the places of a line show, and how a printer walks along it.
//!
//! `docs/DEFINITIONS.md` explains the words of the contracts. Users name marks and runs by `tabled_config`, where the plain printer stands.
#![tactic(auto)]

mod alike;
mod frame;
mod line_parts;
mod line_pieces;
mod mark;
mod marks;
mod sides;
mod sink;
mod walk;

pub use frame::Frame;
pub use line_pieces::{crossing_line, crossing_of, edge_of, has_line, piece_size, pieces_of};
pub use mark::{Mark, Run, printed_as};
pub use marks::{line_marks, line_runs};
pub use sides::{RowSide, RowSides, SideMarks};
pub use sink::Sink;
