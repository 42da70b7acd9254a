//! Texts by themselves: cleaned of what steers a terminal, with spaces in the place of tabs, kept within a number of columns or lines, and
//! numbers among them.

pub use tabled_clean::{cleaned, cleaned_line, is_clean, steers};
pub use tabled_numbers::is_number;
pub use tabled_width::{
    Height, HeightLimit, Overflow, TextLimit, Truncate, Width, Wrap, first_cluster, fits,
    shortened, tabs_expanded, truncated, wrapped, wrapped_words,
};
