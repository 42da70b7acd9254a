//! What is set for the cells of a table, by entity.

ghost use Rattle.std.specs.Prelude.{◌≡◌, IfOk};
ghost use Rattle.tabled_settings.specs.CellSettings.{first_settings};
ghost use Rattle.tabled_settings.specs.Padding as padding;

use crate::{AlignmentHorizontal, AlignmentVertical, EntityMap, Indent, Sides};
use std::alloc::Global;
use tabled_border::{ANSIBuf, Keep, OutOfMemory};

/// One map for each kind of setting of cells.
#[derive(Debug, Drop, PartialEq, Eq)]
pub struct CellSettings {
    /// Where a text stands between the left and the right side.
    pub alignment_horizontal: EntityMap<AlignmentHorizontal>,
    /// Where a text stands between the upper and the lower side.
    pub alignment_vertical: EntityMap<AlignmentVertical>,
    /// Whether spaces at the left and the right of a text are dropped before it is aligned.
    pub trim_horizontal: EntityMap<bool>,
    /// Whether empty lines above and below a text are dropped before it is aligned.
    pub trim_vertical: EntityMap<bool>,
    /// Whether each line of a text is aligned by itself.
    pub line_alignment: EntityMap<bool>,
    /// The character that fills a cell beside its text.
    pub justification: EntityMap<char>,
    /// The color of these characters, if they have one.
    pub justification_color: EntityMap<Option<ANSIBuf>>,
    /// How many columns and lines of padding stand on each side between the border and the text, and what fills them.
    pub padding: EntityMap<Sides<Indent>>,
    /// The color of the padding on each side, if it has one.
    pub padding_color: EntityMap<Sides<Option<ANSIBuf>>>,
}

impl CellSettings {
    /// Every cell has its text at the left and at the top, nothing trimmed, all lines aligned as one, spaces beside it, one
    /// of them on each side as padding, and no colors.
    pub fn new(alloc: Global) -> Self
        ensures { result ≡ first_settings }
    {
        CellSettings {
            alignment_horizontal: EntityMap::new(alloc, AlignmentHorizontal::Left),
            alignment_vertical: EntityMap::new(alloc, AlignmentVertical::Top),
            trim_horizontal: EntityMap::new(alloc, false),
            trim_vertical: EntityMap::new(alloc, false),
            line_alignment: EntityMap::new(alloc, false),
            justification: EntityMap::new(alloc, ' '),
            justification_color: EntityMap::new(alloc, None),
            padding: EntityMap::new(alloc, first_padding()),
            padding_color: EntityMap::new(alloc, Sides::new(None, None, None, None)),
        }
    }
}

/// The padding of cells where nothing was set.
const fn first_padding() -> Sides<Indent>
    ensures { result ≡ padding.first_padding }
{
    let (column, nothing) = (Indent::new(1, ' '), Indent::new(0, ' '));
    Sides::new(column, column, nothing, nothing)
}

/// Where the texts of cells stand, and what is trimmed of them.
type TextPlaces = (
    EntityMap<AlignmentHorizontal>,
    EntityMap<AlignmentVertical>,
    EntityMap<bool>,
    EntityMap<bool>,
);

/// How lines are aligned, and what fills a cell beside its text, with its colors.
type TextSurroundings = (
    EntityMap<bool>,
    EntityMap<char>,
    EntityMap<Option<ANSIBuf>>,
    EntityMap<Sides<Indent>>,
    EntityMap<Sides<Option<ANSIBuf>>>,
);

impl CellSettings {
    /// Copies of the alignments and of what is trimmed.
    fn keep_text_places(&self, alloc: Global) -> Result<TextPlaces, OutOfMemory>
        ensures alignment_horizontal { IfOk result (λ copies. copies.0 ≡ self.now.alignment_horizontal) }
        ensures alignment_vertical { IfOk result (λ copies. copies.1 ≡ self.now.alignment_vertical) }
        ensures trim_horizontal { IfOk result (λ copies. copies.2 ≡ self.now.trim_horizontal) }
        ensures trim_vertical { IfOk result (λ copies. copies.3 ≡ self.now.trim_vertical) }
    {
        let (horizontal, vertical) = kept_both(
            alloc,
            &self.alignment_horizontal,
            &self.alignment_vertical,
        )?;
        let (trim_horizontal, trim_vertical) = kept_both(
            alloc,
            &self.trim_horizontal,
            &self.trim_vertical,
        )?;
        Ok((horizontal, vertical, trim_horizontal, trim_vertical))
    }

    /// Copies of how lines are aligned, of what fills a cell, and of the colors.
    fn keep_text_surroundings(&self, alloc: Global) -> Result<TextSurroundings, OutOfMemory>
        ensures line_alignment { IfOk result (λ copies. copies.0 ≡ self.now.line_alignment) }
        ensures justification { IfOk result (λ copies. copies.1 ≡ self.now.justification) }
        ensures justification_color { IfOk result (λ copies. copies.2 ≡ self.now.justification_color) }
        ensures padding { IfOk result (λ copies. copies.3 ≡ self.now.padding) }
        ensures padding_color { IfOk result (λ copies. copies.4 ≡ self.now.padding_color) }
    {
        let (lines, fill) = kept_both(alloc, &self.line_alignment, &self.justification)?;
        let (fill_color, padding) = kept_both(alloc, &self.justification_color, &self.padding)?;
        let padding_color = self.padding_color.keep(alloc)?;
        Ok((lines, fill, fill_color, padding, padding_color))
    }
}

/// Copies of two maps.
fn kept_both<T: Keep, U: Keep>(
    alloc: Global,
    map: &EntityMap<T>,
    other: &EntityMap<U>,
) -> Result<(EntityMap<T>, EntityMap<U>), OutOfMemory>
    ensures map { IfOk result (λ copies. copies.0 ≡ map.now) }
    ensures other { IfOk result (λ copies. copies.1 ≡ other.now) }
{
    let copy = map.keep(alloc)?;
    let other_copy = other.keep(alloc)?;
    Ok((copy, other_copy))
}

impl Keep for CellSettings {
    fn keep(&self, alloc: Global) -> Result<Self, OutOfMemory> {
        let (alignment_horizontal, alignment_vertical, trim_horizontal, trim_vertical) =
            self.keep_text_places(alloc)?;
        let (line_alignment, justification, justification_color, padding, padding_color) =
            self.keep_text_surroundings(alloc)?;
        Ok(CellSettings {
            alignment_horizontal,
            alignment_vertical,
            trim_horizontal,
            trim_vertical,
            line_alignment,
            justification,
            justification_color,
            padding,
            padding_color,
        })
    }
}
