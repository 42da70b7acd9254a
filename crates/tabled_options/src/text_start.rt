//! Where a text begins on a line.

ghost use Rattle.std.specs.Prelude.{◌≡◌, option_and_then};
ghost use Rattle.tabled_options.specs.TextStart.{widest, middle, horizontal_offset, vertical_offset, aligned_offset, moved, moved_if_aligned, place_number};

use tabled_formatting::Alignment;
use tabled_grid::{LineOf, Offset};
use tabled_settings::{AlignmentHorizontal, AlignmentVertical};
use unicode_width::UnicodeWidthStr;

/// How large a text is: how many terminal columns it takes, and how many characters it has.
#[derive(Clone, Copy)]
pub(crate) struct TextSize {
    pub(crate) width: usize,
    pub(crate) count: usize,
}

/// How many terminal columns a text takes: as many as the widest of its pieces between line feeds.
pub(crate) fn widest(text: &str) -> usize
    ensures { result ≡ widest text.now }
{
    text.split('\n')
        .map(|piece| piece.width())
        .max()
        .unwrap_or(0)
}

/// Where something of the given width begins that stands in the middle of the given number of places.
fn middle(total: usize, width: usize) -> usize
    ensures { result ≡ middle total width }
{
    if width < total {
        total / 2 - width / 2
    } else {
        0
    }
}

/// The offset of a text of the given width on a horizontal line of the given number of places.
fn horizontal_offset(total: usize, width: usize, alignment: AlignmentHorizontal) -> Offset
    ensures { result ≡ horizontal_offset total width alignment }
{
    match alignment {
        AlignmentHorizontal::Left => Offset::Start(0),
        AlignmentHorizontal::Center => Offset::Start(middle(total, width)),
        AlignmentHorizontal::Right => Offset::End(width),
    }
}

/// The offset of a text of the given size on a vertical line of the given number of places.
fn vertical_offset(total: usize, size: TextSize, alignment: AlignmentVertical) -> Offset
    ensures { result ≡ vertical_offset total size.width size.count alignment }
{
    match alignment {
        AlignmentVertical::Top => Offset::Start(0),
        AlignmentVertical::Center => Offset::Start(middle(total, size.width)),
        AlignmentVertical::Bottom => Offset::End(size.count),
    }
}

/// The offset of an alignment, where it is one along the line.
fn aligned_offset(
    line: LineOf,
    total: usize,
    size: TextSize,
    alignment: Alignment,
) -> Option<Offset>
    ensures { result ≡ aligned_offset line total size.width size.count alignment }
{
    match line {
        LineOf::Horizontal(_) => {
            let alignment = alignment.as_horizontal()?;
            Some(horizontal_offset(total, size.width, alignment))
        }
        LineOf::Vertical(_) => {
            let alignment = alignment.as_vertical()?;
            Some(vertical_offset(total, size, alignment))
        }
    }
}

/// The number of the place at an offset, on a line of the given number of places. Past the last one there is none.
fn place_number(total: usize, offset: Offset) -> Option<usize>
    ensures { result ≡ place_number total offset }
{
    match offset {
        Offset::Start(n) => (n <= total).then_some(n),
        Offset::End(n) => total.checked_sub(n),
    }
}

/// The number of the place at an offset that is moved by another.
fn moved_number(total: usize, aligned: Offset, offset: Offset) -> Option<usize>
    ensures { result ≡ place_number total (moved aligned offset) }
{
    let moved = match (aligned, offset) {
        (Offset::Start(a), Offset::Start(b)) => Offset::Start(a.checked_add(b)?),
        (Offset::Start(a), Offset::End(b)) => Offset::Start(a.saturating_sub(b)),
        (Offset::End(a), Offset::Start(b)) => Offset::End(a.checked_add(b)?),
        (Offset::End(a), Offset::End(b)) => Offset::End(a.saturating_sub(b)),
    };
    place_number(total, moved)
}

/// The number of the place at which a text of the given size begins, on a line of the given number of places.
pub(crate) fn text_start(
    line: LineOf,
    total: usize,
    size: TextSize,
    alignment: Option<Alignment>,
    offset: Offset,
) -> Option<usize>
    ensures { result ≡ place_number total (moved_if_aligned (option_and_then (aligned_offset line total size.width size.count) alignment) offset) }
{
    let Some(alignment) = alignment else {
        return place_number(total, offset);
    };
    match aligned_offset(line, total, size, alignment) {
        Some(aligned) => moved_number(total, aligned, offset),
        None => place_number(total, offset),
    }
}
