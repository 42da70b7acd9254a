//! Styles, custom lines and cell borders, as values that are built call by call.
#![tactic(auto)]

mod border;
mod builder;
mod horizontal_line;
mod on;
mod ready_style;
mod vertical_line;

pub use border::{Border, EmptyBorder};
pub use builder::Style;
pub use horizontal_line::HorizontalLine;
pub use on::On;
pub use ready_style::{ReadyStyle, UnknownStyle};
pub use vertical_line::VerticalLine;
