//! Options that write on the lines of a table: single characters, and texts.
//!
//! The outline around cells is written in `tabled_highlight`, cells that span, the correction of their borders and joined corners in
//! `tabled_correction`, colors in turn in `tabled_colorization`: these are passed on here. What is set for texts and of the margin stands
//! in `tabled_formatting` alone.
//!
//! `docs/DEFINITIONS.md` explains the words of the contracts.
#![tactic(auto)]

mod line_char;
mod line_text;
mod named_line;
mod pen;
mod table_line;
mod text_start;
mod written;

pub use line_char::LineChar;
pub use line_text::LineText;
pub use tabled_colorization::{CellColor, Colorization, ExactColorization, JoinedColor};
pub use tabled_correction::{BorderCorrection, JoinedCorners, Span};
pub use tabled_highlight::Highlight;
