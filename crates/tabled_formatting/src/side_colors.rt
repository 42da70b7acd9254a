//! A color for each of four sides, of the padding of cells or of the margin of a table.

ghost use Rattle.std.specs.Prelude.{◌≡◌, IfOk, ⊤};

use std::alloc::{AllocError, Global};
use std::marker::{Model, PhantomData};
use tabled_border::{ANSIStr, Keep, OutOfMemory};
use tabled_settings::Sides;

/// Stands for the padding of cells.
#[derive(Clone, Copy, Debug, PartialEq, Eq, PartialOrd, Ord)]
pub struct OfPadding;

/// Stands for the margin of a table.
#[derive(Clone, Copy, Debug, PartialEq, Eq, PartialOrd, Ord)]
pub struct OfMargin;

/// A color on each side of what `Of` stands for: [`PaddingColor`](crate::PaddingColor) or [`MarginColor`](crate::MarginColor).
#[derive(Copy, Debug, Drop, PartialEq, Eq, PartialOrd, Ord)]
pub struct SideColors<C, Of> {
    pub(crate) colors: Sides<C>,
    of: PhantomData<Of>,
}

impl<C, Of> Model for SideColors<C, Of> {
    ghost use Rattle.std.specs.Coded.{codes};
    ghost use Rattle.tabled_settings.specs.declared.sides.Sides.{Sides as Four};

    ghost Value = { Four C };

    ghost coded = { Prim.hlevel (codes, C.code) };

    ghost view = { λ given. given.colors };

    ghost inverse = { λ colors. record { colors = colors; of = _ } };
}

/// Colors are copied where `C` is copied.
impl<C: Copy, Of: Copy> Clone for SideColors<C, Of> {
    ghost is_clone = { λ value copy. copy ≡ value };

    ghost is_infallible = { λ _. ⊤ };

    fn clone(&self) -> Result<Self, AllocError> {
        Ok(*self)
    }
}

impl<C, Of> SideColors<C, Of> {
    /// Makes an option of a color for each side.
    pub const fn new(left: C, right: C, top: C, bottom: C) -> Self
        ensures { result ≡ record { left = left; right = right; top = top; bottom = bottom } }
    {
        SideColors {
            colors: Sides::new(left, right, top, bottom),
            of: PhantomData,
        }
    }

    /// Makes an option of one color on all sides, which is copied for three of them. Memory may be refused for the copies.
    pub fn filled(alloc: Global, color: C) -> Result<Self, OutOfMemory>
    where
        C: Keep,
        ensures { IfOk result (λ given. given ≡ record { left = color; right = color; top = color; bottom = color }) }
    {
        let left = color.keep(alloc)?;
        let right = color.keep(alloc)?;
        let top = color.keep(alloc)?;
        Ok(SideColors::new(left, right, top, color))
    }
}

impl<Of> SideColors<ANSIStr<'static>, Of> {
    ghost use Rattle.tabled_border.specs.LentTexts.{lent_texts};
    ghost use Rattle.tabled_configuration.specs.CellColors.{no_color};

    /// Makes an option of the color without texts on all sides.
    pub const fn empty() -> Self
        ensures left { lent_texts result.left ≡ no_color }
        ensures right { lent_texts result.right ≡ no_color }
        ensures top { lent_texts result.top ≡ no_color }
        ensures bottom { lent_texts result.bottom ≡ no_color }
    {
        SideColors::new(
            ANSIStr::empty(),
            ANSIStr::empty(),
            ANSIStr::empty(),
            ANSIStr::empty(),
        )
    }
}

impl<C, Of> From<Sides<C>> for SideColors<C, Of> {
    ghost from_gives = { λ colors result. result ≡ colors };

    fn from(colors: Sides<C>) -> Self {
        SideColors {
            colors,
            of: PhantomData,
        }
    }
}

impl<C, Of> From<SideColors<C, Of>> for Sides<C> {
    ghost from_gives = { λ given result. result ≡ given };

    fn from(given: SideColors<C, Of>) -> Self {
        let SideColors { colors, of: _ } = given;
        colors
    }
}

impl<C: Keep, Of> Keep for SideColors<C, Of> {
    fn keep(&self, alloc: Global) -> Result<Self, OutOfMemory> {
        Ok(SideColors {
            colors: self.colors.keep(alloc)?,
            of: PhantomData,
        })
    }
}
