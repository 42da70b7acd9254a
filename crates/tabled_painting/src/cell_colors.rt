//! The colors of a cell.

ghost use Rattle.std.specs.Prelude.{◌≡◌, IfSome, option_copied};
ghost use Rattle.tabled_painting.specs.CellLines.{text_color};

use tabled_border::ANSIBuf;
use tabled_changes::{ColorMap, Colors};
use tabled_configuration::SpannedConfig;
use tabled_object::Position;
use tabled_settings::Sides;

/// The colors of a cell, as far as it has them.
#[derive(Clone, Copy, Debug)]
pub(crate) struct CellColors<'a> {
    /// Of its text.
    pub(crate) text: Option<&'a ANSIBuf>,
    /// Of the characters that fill its lines beside the text.
    pub(crate) fill: Option<&'a ANSIBuf>,
    /// Of the spaces around these, on each side.
    pub(crate) padding: &'a Sides<Option<ANSIBuf>>,
}

impl<'a> CellColors<'a> {
    ghost use Rattle.tabled_painting.specs.BareCells.{IsInColor};
    ghost use Rattle.tabled_painting.specs.CellLines.{coloring_at, coloring_of};

    /// The colors that are set for a cell.
    #[tactic(auto, unfolding(crate::specs::CellLines::coloring_at))]
    pub(crate) fn of(cfg: &'a SpannedConfig, colors: &'a ColorMap, position: Position) -> Self
        ensures { coloring_of result ≡ coloring_at cfg.now.settings.cells colors.now position.row position.col }
    {
        CellColors {
            text: text_color(colors, position),
            fill: cfg.get_justification_color(position),
            padding: cfg.get_padding_color(position),
        }
    }

    /// The color of its text, if all that stands beside it has the same.
    pub(crate) fn one_color(&self) -> Option<Option<&'a ANSIBuf>>
        ensures { IfSome result (λ color. IsInColor (option_copied color) (coloring_of self.now)) }
    {
        let (color, padding) = (self.text, self.padding);
        if self.fill != color {
            return None;
        }
        if padding.left.as_ref() != color || padding.right.as_ref() != color {
            return None;
        }
        Some(color)
    }
}

/// The color of the text of a cell, if it has one with texts.
fn text_color(colors: &ColorMap, position: Position) -> Option<&ANSIBuf>
    ensures { option_copied result ≡ text_color colors.now position }
{
    let color = colors.get_color(position)?;
    if color.is_empty() { None } else { Some(color) }
}
