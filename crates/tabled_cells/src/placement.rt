//! How the text of a cell stands in it.

ghost use Rattle.std.specs.Prelude.{◌≡◌, ◌≤◌};
ghost use Rattle.tabled_cells.specs.Placed as parts;

use tabled_configuration::SpannedConfig;
use tabled_object::Position;
use tabled_settings::{AlignmentHorizontal, AlignmentVertical, Indent, Sides};
use tabled_width::draws_plainly;

/// How the text of a cell stands in it, and what fills the rest.
#[derive(Clone, Copy, Debug)]
pub struct Placement {
    /// Where the text stands between the left and the right side.
    pub alignment_horizontal: AlignmentHorizontal,
    /// Where it stands between the upper and the lower side.
    pub alignment_vertical: AlignmentVertical,
    /// Whether spaces at the ends of its lines are dropped.
    pub trim_horizontal: bool,
    /// Whether blank lines above and below the others are dropped.
    pub trim_vertical: bool,
    /// Whether each of its lines is aligned by itself, and not all of them as one.
    pub line_alignment: bool,
    /// The character that fills a line beside the text.
    pub justification: char,
    /// How much room is around its lines, and what is shown in it.
    pub padding: Sides<Indent>,
}

impl Placement {
    ghost use Rattle.tabled_cells.specs.Placements.{placement_at};

    /// Makes the placement of the text of a cell, by what is set for the cell.
    #[tactic(auto, unfolding(crate::specs::Placements::placement_at))]
    pub fn of(cfg: &SpannedConfig, position: Position) -> Self
        ensures { result ≡ placement_at cfg.now.settings.cells position.row position.col }
    {
        Placement {
            alignment_horizontal: cfg.get_alignment_horizontal(position),
            alignment_vertical: cfg.get_alignment_vertical(position),
            trim_horizontal: cfg.get_trim_horizontal(position),
            trim_vertical: cfg.get_trim_vertical(position),
            line_alignment: cfg.get_line_alignment(position),
            justification: cfg.get_justification(position),
            padding: padding_shown(cfg.get_padding(position)),
        }
    }
}

/// Returns how much of what is free in a line stands before the text.
pub fn free_before(alignment: AlignmentHorizontal, free: usize) -> usize
    ensures value { result ≡ parts.free_before alignment free }
    ensures within { result ≤ free }
{
    match alignment {
        AlignmentHorizontal::Left => 0,
        AlignmentHorizontal::Center => free / 2,
        AlignmentHorizontal::Right => free,
    }
}

/// How many of the free lines stand above the text.
fn free_above(alignment: AlignmentVertical, free: usize) -> usize
    ensures value { result ≡ parts.free_above alignment free }
    ensures within { result ≤ free }
{
    match alignment {
        AlignmentVertical::Top => 0,
        AlignmentVertical::Center => free / 2,
        AlignmentVertical::Bottom => free,
    }
}

/// Returns how many lines of a cell stand above its text, which has so many: those of its padding, and of the free ones what its alignment
/// says.
pub fn lines_above(how: &Placement, height: usize, count: usize) -> usize
    ensures { result ≡ parts.lines_above how.now height count }
{
    let padding = &how.padding;
    let free = height
        .saturating_sub(padding.top.size)
        .saturating_sub(padding.bottom.size)
        .saturating_sub(count);
    padding.top.size + free_above(how.alignment_vertical, free)
}

/// Returns what is shown of the character that fills a side: the character where it draws plainly, else a space.
pub fn fill_shown(character: char) -> char
    ensures { result ≡ parts.fill_shown character }
{
    if draws_plainly(character) {
        character
    } else {
        ' '
    }
}

/// A side of the padding as it is shown.
fn indent_shown(side: Indent) -> Indent
    ensures { result ≡ parts.indent_shown side }
{
    Indent::new(side.size, fill_shown(side.fill))
}

/// The padding as it is shown.
fn padding_shown(padding: &Sides<Indent>) -> Sides<Indent>
    ensures { result ≡ parts.padding_shown padding.now }
{
    Sides::new(
        indent_shown(padding.left),
        indent_shown(padding.right),
        indent_shown(padding.top),
        indent_shown(padding.bottom),
    )
}
