//! What the program `tabled_view` does: it reads rows of cells, and writes them as a table as its words ask for.
//!
//! `docs/DEFINITIONS.md` explains the words of the contracts.
#![tactic(auto)]

mod asked;
mod captions;
mod colors;
mod drawing;
mod error;
mod notes;
mod outlines;
mod page;
mod program;
mod rows;
mod saying;
mod texts;
mod told;

pub use asked::{is_about_itself, lacks_color, understood};
pub use error::ViewError;
pub use notes::Notes;
pub use program::run;
pub use saying::{noted, said};
