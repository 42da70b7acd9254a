//! Places of an edge, counted from one of its ends.

/// A place of an edge: number k counted from its start, or from its end. Numbers begin at 0.
///
/// An edge of width 3 with `x` at start 0 and `y` at end 0, between its two crossings:
///
/// ```text
/// +x-y+
/// ```
#[derive(Clone, Copy, Debug, PartialEq, Eq, PartialOrd, Ord, Hash)]
pub enum Offset {
    /// Counted from the left or upper end.
    Start(usize),
    /// Counted back from the right or lower end.
    End(usize),
}
