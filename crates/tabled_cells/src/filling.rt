//! A line of a cell: what stands beside its text.

ghost use Rattle.std.specs.Prelude.{◌≡◌, chars};
ghost use Rattle.tabled_width.specs.Texts.{begins_with};
ghost use Rattle.tabled_cells.specs.Placed as parts;

use crate::Placement;
use crate::placement::free_before;
use tabled_width::{draws_plainly, is_printable, width_of};

/// What stands beside the text of a line, between its padding.
#[derive(Clone, Copy, Debug)]
pub struct LineParts {
    /// How many characters stand before the text.
    pub before: usize,
    /// How many stand after it.
    pub after: usize,
    /// Which character these are.
    pub fill: char,
}

/// Whether a line begins with U+FE0F, which can make an emoji of what stands before it.
fn begins_with_selector(line: &str) -> bool
    ensures { result ≡ begins_with 0xFE0F (chars line.now) }
{
    match line.chars().next() {
        Some(character) => character == '\u{FE0F}',
        None => false,
    }
}

/// Whether a character draws plainly and joins nothing of a line beside it.
fn fills(character: char, line: &str) -> bool
    ensures { result ≡ parts.fills character line.now }
{
    if !draws_plainly(character) {
        return false;
    }
    if matches!(character, ' '..='~' | '\u{2500}'..='\u{259F}') {
        !begins_with_selector(line)
    } else {
        is_printable(line)
    }
}

/// The character that fills a line beside it: the one that is set, where it does, else a space.
fn fill_of(character: char, line: &str) -> char
    ensures { result ≡ parts.fill_of character line.now }
{
    if character != ' ' && fills(character, line) {
        character
    } else {
        ' '
    }
}

/// Returns how a line in a column is filled, where something as wide as `aligned` is aligned.
#[tactic(auto, unfolding(crate::specs::Placed::line_parts))]
pub fn line_parts(how: &Placement, width: usize, aligned: usize, line: &str) -> LineParts
    ensures { result ≡ parts.line_parts how.now width aligned line.now }
{
    let padding = &how.padding;
    let room = width
        .saturating_sub(padding.left.size)
        .saturating_sub(padding.right.size);
    let before = free_before(how.alignment_horizontal, room.saturating_sub(aligned));
    LineParts {
        before,
        after: room.saturating_sub(before).saturating_sub(width_of(line)),
        fill: fill_of(how.justification, line),
    }
}
