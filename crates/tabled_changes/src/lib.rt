//! The configuration that options change, with the colors of cells, and the traits by which options change it.
//!
//! `docs/DEFINITIONS.md` explains the words of the contracts. Users name these items by `tabled_config`.
#![tactic(auto)]

mod border_options;
mod cell_option;
mod color_map;
mod colored_config;
mod compact_options;
mod configured;
mod resizing;
mod setting;
mod table_option;

pub use cell_option::{CellOption, modify};
pub use color_map::{ColorMap, Colors};
pub use colored_config::ColoredConfig;
pub use compact_options::SetCompact;
pub use configured::{BorderEvent, Configured};
pub use resizing::Resizes;
pub use setting::{SetCells, SetTable};
pub use table_option::TableOption;
