//! The text of a table, plain or in color, with its margin: each line of it is painted, part by part, and written with the texts of the
//! colors or without them.
//!
//! `docs/DEFINITIONS.md` explains the words of the contracts.
#![tactic(auto)]

mod alike;
mod bare_cells;
mod cell_colors;
mod cell_lines;
mod drawn;
mod margin_side;
mod margin_sides;
mod output;
mod page;
mod painter;
mod room;
mod spanned_lines;
mod spanned_sizes;
mod spans;
mod spans_of;
mod table_lines;
mod table_page;

pub(crate) use cell_colors::CellColors;
pub(crate) use margin_side::MarginSide;
pub(crate) use margin_sides::MarginSides;
pub use output::Output;
pub(crate) use painter::Painter;
pub use spanned_sizes::sizes_of_spanned;
pub use table_page::TablePage;
