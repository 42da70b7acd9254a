//! Themes, colors in turn, the correction of borders of cells that span, and corners that join the lines that meet.

pub use tabled_colorization::{Colorization, ExactColorization};
pub use tabled_correction::{BorderCorrection, JoinedCorners};
pub use tabled_theme::Theme;
