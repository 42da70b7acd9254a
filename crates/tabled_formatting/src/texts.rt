//! The texts of colors, copied.

ghost use Rattle.std.specs.Prelude.{◌≡◌, IfOk};
ghost use Rattle.tabled_formatting.specs.SideTexts.{texts_by, side_texts};

use std::alloc::Global;
use tabled_border::{ANSIBuf, AnsiText, OutOfMemory};
use tabled_settings::Sides;

/// The texts of a color, copied.
pub(crate) fn copied_texts<C: AnsiText>(alloc: Global, color: &C) -> Result<ANSIBuf, OutOfMemory>
    ensures { IfOk result (λ texts. texts ≡ texts_by C.prefix_text C.suffix_text color.now) }
{
    Ok(ANSIBuf::new(alloc, color.prefix(), color.suffix())?)
}

/// The texts of the color of each side, copied.
pub(crate) fn side_texts<C: AnsiText>(
    alloc: Global,
    colors: &Sides<C>,
) -> Result<Sides<Option<ANSIBuf>>, OutOfMemory>
    ensures { IfOk result (λ texts. texts ≡ side_texts C.prefix_text C.suffix_text colors.now) }
{
    let left = copied_texts(alloc, &colors.left)?;
    let right = copied_texts(alloc, &colors.right)?;
    let top = copied_texts(alloc, &colors.top)?;
    let bottom = copied_texts(alloc, &colors.bottom)?;
    Ok(Sides::new(Some(left), Some(right), Some(top), Some(bottom)))
}
