//! What happens to a store: a list of events decides what it shows.

use crate::{Direction, LineOf, Site};

/// What is kept at a site.
#[derive(Clone, Copy, Debug, PartialEq, Eq)]
pub enum Written<T> {
    /// A character, or a color.
    Sign(T),
    /// The mark that a custom line stands.
    Standing,
}

/// The sites that an erasure clears.
#[derive(Clone, Copy, Debug, PartialEq, Eq)]
pub enum Region {
    /// All sites.
    All,
    /// All sites of one level.
    Level(usize),
    /// The offsets on the edges of one direction.
    Offsets(Direction),
    /// All parts of one custom line.
    Line(LineOf),
    /// One site.
    One(Site),
}

/// A write, or an erasure.
#[derive(Clone, Copy, Debug, PartialEq, Eq)]
pub enum Event<T> {
    /// What is kept at a site from now on.
    Write(Site, Written<T>),
    /// Nothing is kept at the sites of the region from now on.
    Erase(Region),
}
