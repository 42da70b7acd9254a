//! Texts within so many columns of a terminal: wrapped, wrapped at spaces, or cut off; characters that take one column, and many of one.
//!
//! `docs/DEFINITIONS.md` explains the words of the contracts.
#![tactic(auto)]

mod builders;
mod clusters;
mod crossing;
mod cut_off;
mod height;
mod limit;
mod lines;
mod marks;
mod measure;
mod narrow;
mod repeat;
mod rows;
mod shares;
mod tabs;
mod text_limit;

pub use builders::{Height, HeightLimit, Truncate, Width, Wrap};
pub use clusters::first_cluster;
pub use crossing::push_after;
pub use cut_off::truncated;
pub use height::shortened;
pub use limit::Overflow;
pub use measure::{fits, is_printable, width_of};
pub use narrow::draws_plainly;
pub use repeat::{piece_of, push_times};
pub use rows::{wrapped, wrapped_words};
pub use shares::shares_of;
pub use tabs::tabs_expanded;
pub use text_limit::TextLimit;
