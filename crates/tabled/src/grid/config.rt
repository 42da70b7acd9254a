//! Configurations: what is kept of borders, colors and settings, and a plain printer of it.

pub use tabled_border::{Border, Keep, OutOfMemory};
pub use tabled_config::{
    ColorMap, ColoredConfig, Colors, CompactConfig, CompactMultilineConfig, Configured, Formatting,
    PrintError, SpannedConfig, draws_plainly, print_plain,
};
pub use tabled_grid::{Borders, HorizontalLine, Layers, LineOf, Offset, Place, VerticalLine};
pub use tabled_kept::Probes;
pub use tabled_object::{Entity, Position};
pub use tabled_settings::{AlignmentHorizontal, AlignmentVertical, EntityMap, Indent, Sides};
