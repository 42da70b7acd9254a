//! What the library promises of its tables as calls, and what a layer above it reads: the headline, the marks of a line, and the
//! store. The Rust crate has none of these.

pub use tabled_config::{
    BorderEvent, Configured, Mark, Run, Seen, character_seen, color_seen, headline, line_marks,
    line_runs, line_seen,
};
pub use tabled_grid::{
    Event, HorizontalLines, Layers, LineOf, Place, Region, Site, Target, VerticalLines, Written,
};
pub use tabled_kept::{Meter, Probes};
