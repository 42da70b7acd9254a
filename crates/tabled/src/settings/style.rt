//! Styles, lines and borders, and what stands on lines.

pub use tabled_color::BorderColor;
pub use tabled_grid::Offset;
pub use tabled_options::{LineChar, LineText};
pub use tabled_style::{
    Border, EmptyBorder, HorizontalLine, On, ReadyStyle, Style, UnknownStyle, VerticalLine,
};
