//! Options, and the objects that they are applied to.

pub mod formatting;
pub mod object;
pub mod style;
pub mod themes;

pub use tabled_color::Color;
pub use tabled_colorization::{CellColor, JoinedColor};
pub use tabled_config::{CellOption, TableOption, modify};
pub use tabled_correction::Span;
pub use tabled_formatting::{
    Alignment, Justification, Margin, MarginColor, Padding, PaddingColor, Shadow,
};
pub use tabled_highlight::Highlight;
pub use tabled_style::{Border, Style};
pub use tabled_theme::Theme;
pub use tabled_width::{Height, Width};
