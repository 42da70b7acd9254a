//! The texts of colors.

pub use tabled_border::{ANSIBuf, ANSIFmt, ANSIStr, AnsiText};
