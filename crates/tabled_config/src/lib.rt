//! The plain printer of padded cells in their frame, with the headline of the library, and the names by which users call
//! configurations: those stand in `tabled_configuration`, the ones that are plain records in `tabled_compact`, values by entity in
//! `tabled_settings`, and what a line shows in `tabled_printing`, which has what the printer is made of too.
//!
//! `docs/DEFINITIONS.md` explains the words of the contracts.
#![tactic(auto)]

mod print;
mod print_error;
mod refusals;
mod seen;

pub use print::{join_lines, print_plain};
pub use print_error::PrintError;
pub use seen::{Seen, character_seen, color_seen, headline, line_seen};
pub use tabled_changes::{
    BorderEvent, CellOption, ColorMap, ColoredConfig, Colors, Configured, TableOption, modify,
};
pub use tabled_compact::{CompactConfig, CompactMultilineConfig, Formatting};
pub use tabled_configuration::SpannedConfig;
pub use tabled_printing::{Mark, Run, line_marks, line_runs};
pub use tabled_settings::EntityMap;
pub use tabled_width::draws_plainly;
