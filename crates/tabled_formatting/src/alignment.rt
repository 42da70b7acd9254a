//! Where something stands between two sides.

ghost use Rattle.std.specs.Prelude.{◌≡◌};
ghost use Rattle.tabled_settings.specs.declared.alignment.AlignmentHorizontal.TheVariants as horizontal;
ghost use Rattle.tabled_settings.specs.declared.alignment.AlignmentVertical.TheVariants as vertical;
ghost use Rattle.tabled_formatting.specs.Alignment.{horizontal_of, vertical_of};

mod option;

use tabled_settings::{AlignmentHorizontal, AlignmentVertical};

/// Where something stands between the left and the right side, or between the upper and the lower one.
#[derive(Clone, Copy, Debug, PartialEq, Eq, PartialOrd, Ord, Hash)]
pub enum Alignment {
    /// Between the left and the right side.
    Horizontal(AlignmentHorizontal),
    /// Between the upper and the lower side.
    Vertical(AlignmentVertical),
}

impl Alignment {
    /// At the left side.
    pub const fn left() -> Self
        ensures { result ≡ Alignment.Horizontal horizontal.Left }
    {
        Alignment::Horizontal(AlignmentHorizontal::Left)
    }

    /// At the right side.
    pub const fn right() -> Self
        ensures { result ≡ Alignment.Horizontal horizontal.Right }
    {
        Alignment::Horizontal(AlignmentHorizontal::Right)
    }

    /// In the middle between the left and the right side.
    pub const fn center() -> Self
        ensures { result ≡ Alignment.Horizontal horizontal.Center }
    {
        Alignment::Horizontal(AlignmentHorizontal::Center)
    }

    /// At the upper side.
    pub const fn top() -> Self
        ensures { result ≡ Alignment.Vertical vertical.Top }
    {
        Alignment::Vertical(AlignmentVertical::Top)
    }

    /// At the lower side.
    pub const fn bottom() -> Self
        ensures { result ≡ Alignment.Vertical vertical.Bottom }
    {
        Alignment::Vertical(AlignmentVertical::Bottom)
    }

    /// In the middle between the upper and the lower side.
    pub const fn center_vertical() -> Self
        ensures { result ≡ Alignment.Vertical vertical.Center }
    {
        Alignment::Vertical(AlignmentVertical::Center)
    }

    /// Returns the alignment between the left and the right side, if it is one.
    pub const fn as_horizontal(self) -> Option<AlignmentHorizontal>
        ensures { result ≡ horizontal_of self }
    {
        match self {
            Alignment::Horizontal(alignment) => Some(alignment),
            Alignment::Vertical(_) => None,
        }
    }

    /// Returns the alignment between the upper and the lower side, if it is one.
    pub const fn as_vertical(self) -> Option<AlignmentVertical>
        ensures { result ≡ vertical_of self }
    {
        match self {
            Alignment::Horizontal(_) => None,
            Alignment::Vertical(alignment) => Some(alignment),
        }
    }
}

impl From<AlignmentHorizontal> for Alignment {
    ghost use Rattle.tabled_formatting.specs.declared.alignment.Alignment.TheVariants as between;

    ghost from_gives = { λ alignment result. result ≡ between.Horizontal alignment };

    fn from(alignment: AlignmentHorizontal) -> Self {
        Alignment::Horizontal(alignment)
    }
}

impl From<AlignmentVertical> for Alignment {
    ghost use Rattle.tabled_formatting.specs.declared.alignment.Alignment.TheVariants as between;

    ghost from_gives = { λ alignment result. result ≡ between.Vertical alignment };

    fn from(alignment: AlignmentVertical) -> Self {
        Alignment::Vertical(alignment)
    }
}

/// Nothing for an alignment between the upper and the lower side.
impl From<Alignment> for Option<AlignmentHorizontal> {
    ghost from_gives = { λ alignment result. result ≡ horizontal_of alignment };

    fn from(alignment: Alignment) -> Self {
        alignment.as_horizontal()
    }
}

/// Nothing for an alignment between the left and the right side.
impl From<Alignment> for Option<AlignmentVertical> {
    ghost from_gives = { λ alignment result. result ≡ vertical_of alignment };

    fn from(alignment: Alignment) -> Self {
        alignment.as_vertical()
    }
}
