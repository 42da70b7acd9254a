//! Tables in markdown, which GitHub shows as the very cells that they are made of. `Table::to_markdown` writes one.

pub use tabled_markdown::{Side, escaped, markdown};
