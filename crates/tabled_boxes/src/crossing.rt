//! What becomes of a crossing, by the edges that meet there.

ghost use Rattle.std.specs.Prelude.{◌≡◌, ◌≢◌, ◌↔◌, IsTrue, ◌<◌, ◌≤◌, Some, true, false, is_some, option_and_then};
ghost use Rattle.tabled_boxes.specs.Arms.{arms_of, is_drawn};
ghost use Rattle.tabled_boxes.specs.Joined.{is_other, any_other, met, arm_count, may_change, joined_by, joined};

use crate::arms::{Arms, Weight};
use crate::characters::{arms_of, join};

/// The characters of the edges that meet at a crossing: the one above it, below it, at its left and at its right. Each is `None` where
/// nothing is drawn.
#[derive(Clone, Copy, Debug, Drop, PartialEq, Eq)]
pub struct Edges {
    pub above: Option<char>,
    pub below: Option<char>,
    pub left: Option<char>,
    pub right: Option<char>,
}

/// The arms of what is drawn, if it has some.
fn arms_drawn(drawn: Option<char>) -> Option<Arms>
    ensures { result ≡ option_and_then arms_of drawn }
{
    match drawn {
        Some(character) => arms_of(character),
        None => None,
    }
}

/// The arms with which edges reach their crossing.
fn meeting(edges: Edges) -> Arms
    ensures { result ≡ met edges }
{
    Arms {
        up: match arms_drawn(edges.above) {
            Some(arms) => arms.down,
            None => None,
        },
        down: match arms_drawn(edges.below) {
            Some(arms) => arms.up,
            None => None,
        },
        left: match arms_drawn(edges.left) {
            Some(arms) => arms.right,
            None => None,
        },
        right: match arms_drawn(edges.right) {
            Some(arms) => arms.left,
            None => None,
        },
    }
}

/// Whether an edge is of a character that has no arms and is no space.
fn is_other(edge: Option<char>) -> bool
    ensures { result ≡ is_other edge }
{
    match edge {
        Some(character) => character != ' ' && arms_of(character).is_none(),
        None => false,
    }
}

/// Whether one of the edges is.
fn any_other(edges: Edges) -> bool
    ensures { result ≡ any_other edges }
{
    is_other(edges.above) || is_other(edges.below) || is_other(edges.left) || is_other(edges.right)
}

/// How many arms there are.
fn count(arms: Arms) -> usize
    ensures { result ≡ arm_count arms }
{
    arms.up.is_some() as usize
        + arms.down.is_some() as usize
        + arms.left.is_some() as usize
        + arms.right.is_some() as usize
}

/// Whether a crossing may change at which these arms meet.
fn may_change(crossing: Option<char>, arms: Arms) -> bool
    ensures { result ≡ may_change crossing arms }
{
    match crossing {
        Some(character) => arms_of(character).is_some(),
        None => {
            (arms.up.is_some() || arms.down.is_some())
                && (arms.left.is_some() || arms.right.is_some())
        }
    }
}

/// Whether what is drawn has these arms.
fn has_arms(drawn: Option<char>, arms: Arms) -> bool
    ensures { IsTrue result ↔ (option_and_then arms_of drawn ≡ Some arms) }
{
    arms_drawn(drawn) == Some(arms)
}

/// What becomes of a crossing at which these arms meet.
fn joined_by(crossing: Option<char>, arms: Arms) -> Option<char>
    ensures { result ≡ joined_by crossing arms }
{
    if count(arms) < 2 || !may_change(crossing, arms) || has_arms(crossing, arms) {
        return crossing;
    }
    match join(arms) {
        Some(character) => Some(character),
        None => crossing,
    }
}

/// What becomes of a crossing, by its edges, where all of them may be joined.
fn joined_where(crossing: Option<char>, edges: Edges) -> Option<char>
    ensures { result ≡ joined crossing edges }
{
    if any_other(edges) {
        crossing
    } else {
        joined_by(crossing, meeting(edges))
    }
}

/// What becomes of a crossing where these edges meet: the character whose arms are those of the edges. It stays as it is
///
/// - where fewer than two edges have an arm there; an edge of a space has none, as one of which nothing is drawn;
/// - where it has these arms already, as a rounded corner may;
/// - where no character has them, as none is double at one side and heavy at another;
/// - where it has a character without arms, or one of the edges has, other than a space;
/// - where it has no character, and edges of one direction alone meet.
///
/// With `'─'` at both sides, `'║'` below and nothing above, `'┼'` becomes `'╥'`.
pub fn joined(crossing: Option<char>, edges: Edges) -> Option<char>
    ensures value { result ≡ joined crossing edges }
    ensures joins { any_other edges ≡ false → 2 ≤ arm_count (met edges) → may_change crossing (met edges) ≡ true → is_drawn (met edges) ≡ true
        → option_and_then arms_of result ≡ Some (met edges) }
    ensures few { arm_count (met edges) < 2 → result ≡ crossing }
    ensures untouched { may_change crossing (met edges) ≡ false → result ≡ crossing }
    ensures undrawn { is_drawn (met edges) ≡ false → result ≡ crossing }
    ensures beside_another { any_other edges ≡ true → result ≡ crossing }
    ensures stays { option_and_then arms_of crossing ≡ Some (met edges) → result ≡ crossing }
    ensures written { result ≢ crossing → option_and_then arms_of result ≡ Some (met edges) }
    ensures remains { is_some crossing ≡ true → is_some result ≡ true }
    ensures twice { joined result edges ≡ result }
{
    joined_where(crossing, edges)
}
