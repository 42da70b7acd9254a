//! The characters from U+2500 to U+257F, by their arms.

ghost use Rattle.std.specs.Prelude.{◌≡◌, ◌+◌, ◌*◌, ◌<◌, None, Some, is_some, slice_index_or};
ghost use Rattle.std.specs.Option.{IfSome};
ghost use Rattle.tabled_boxes.specs.Arms.{arms_of, join, is_drawn, weight_number};

use crate::arms::{Arms, Weight};

const LIGHT: Option<Weight> = Some(Weight::Light);

const HEAVY: Option<Weight> = Some(Weight::Heavy);

const DOUBLE: Option<Weight> = Some(Weight::Double);

macro_rules! arms_of_one {
    () => {
        None
    };
    ($up:ident $down:ident $left:ident $right:ident) => {
        Some(Arms {
            up: $up,
            down: $down,
            left: $left,
            right: $right,
        })
    };
}

macro_rules! arms_of_all {
    ($([$($arm:ident)*])*) => {
        [$(arms_of_one!($($arm)*)),*]
    };
}

macro_rules! character {
    (_) => {
        None
    };
    ($character:literal) => {
        Some($character)
    };
}

macro_rules! characters {
    ($($one:tt)*) => {
        [$(character!($one)),*]
    };
}

/// The first character of `ARMS`.
const FIRST: u32 = 0x2500;

/// The arms of 128 characters; diagonals have none.
static ARMS: [Option<Arms>; 128] = arms_of_all! {
    [None None LIGHT LIGHT] [None None HEAVY HEAVY] [LIGHT LIGHT None None] [HEAVY HEAVY None None]
    [None None LIGHT LIGHT] [None None HEAVY HEAVY] [LIGHT LIGHT None None] [HEAVY HEAVY None None]
    [None None LIGHT LIGHT] [None None HEAVY HEAVY] [LIGHT LIGHT None None] [HEAVY HEAVY None None]
    [None LIGHT None LIGHT] [None LIGHT None HEAVY] [None HEAVY None LIGHT] [None HEAVY None HEAVY]
    [None LIGHT LIGHT None] [None LIGHT HEAVY None] [None HEAVY LIGHT None] [None HEAVY HEAVY None]
    [LIGHT None None LIGHT] [LIGHT None None HEAVY] [HEAVY None None LIGHT] [HEAVY None None HEAVY]
    [LIGHT None LIGHT None] [LIGHT None HEAVY None] [HEAVY None LIGHT None] [HEAVY None HEAVY None]
    [LIGHT LIGHT None LIGHT] [LIGHT LIGHT None HEAVY] [HEAVY LIGHT None LIGHT] [LIGHT HEAVY None LIGHT]
    [HEAVY HEAVY None LIGHT] [HEAVY LIGHT None HEAVY] [LIGHT HEAVY None HEAVY] [HEAVY HEAVY None HEAVY]
    [LIGHT LIGHT LIGHT None] [LIGHT LIGHT HEAVY None] [HEAVY LIGHT LIGHT None] [LIGHT HEAVY LIGHT None]
    [HEAVY HEAVY LIGHT None] [HEAVY LIGHT HEAVY None] [LIGHT HEAVY HEAVY None] [HEAVY HEAVY HEAVY None]
    [None LIGHT LIGHT LIGHT] [None LIGHT HEAVY LIGHT] [None LIGHT LIGHT HEAVY] [None LIGHT HEAVY HEAVY]
    [None HEAVY LIGHT LIGHT] [None HEAVY HEAVY LIGHT] [None HEAVY LIGHT HEAVY] [None HEAVY HEAVY HEAVY]
    [LIGHT None LIGHT LIGHT] [LIGHT None HEAVY LIGHT] [LIGHT None LIGHT HEAVY] [LIGHT None HEAVY HEAVY]
    [HEAVY None LIGHT LIGHT] [HEAVY None HEAVY LIGHT] [HEAVY None LIGHT HEAVY] [HEAVY None HEAVY HEAVY]
    [LIGHT LIGHT LIGHT LIGHT] [LIGHT LIGHT HEAVY LIGHT] [LIGHT LIGHT LIGHT HEAVY] [LIGHT LIGHT HEAVY HEAVY]
    [HEAVY LIGHT LIGHT LIGHT] [LIGHT HEAVY LIGHT LIGHT] [HEAVY HEAVY LIGHT LIGHT] [HEAVY LIGHT HEAVY LIGHT]
    [HEAVY LIGHT LIGHT HEAVY] [LIGHT HEAVY HEAVY LIGHT] [LIGHT HEAVY LIGHT HEAVY] [HEAVY LIGHT HEAVY HEAVY]
    [LIGHT HEAVY HEAVY HEAVY] [HEAVY HEAVY HEAVY LIGHT] [HEAVY HEAVY LIGHT HEAVY] [HEAVY HEAVY HEAVY HEAVY]
    [None None LIGHT LIGHT] [None None HEAVY HEAVY] [LIGHT LIGHT None None] [HEAVY HEAVY None None]
    [None None DOUBLE DOUBLE] [DOUBLE DOUBLE None None] [None LIGHT None DOUBLE] [None DOUBLE None LIGHT]
    [None DOUBLE None DOUBLE] [None LIGHT DOUBLE None] [None DOUBLE LIGHT None] [None DOUBLE DOUBLE None]
    [LIGHT None None DOUBLE] [DOUBLE None None LIGHT] [DOUBLE None None DOUBLE] [LIGHT None DOUBLE None]
    [DOUBLE None LIGHT None] [DOUBLE None DOUBLE None] [LIGHT LIGHT None DOUBLE] [DOUBLE DOUBLE None LIGHT]
    [DOUBLE DOUBLE None DOUBLE] [LIGHT LIGHT DOUBLE None] [DOUBLE DOUBLE LIGHT None] [DOUBLE DOUBLE DOUBLE None]
    [None LIGHT DOUBLE DOUBLE] [None DOUBLE LIGHT LIGHT] [None DOUBLE DOUBLE DOUBLE] [LIGHT None DOUBLE DOUBLE]
    [DOUBLE None LIGHT LIGHT] [DOUBLE None DOUBLE DOUBLE] [LIGHT LIGHT DOUBLE DOUBLE] [DOUBLE DOUBLE LIGHT LIGHT]
    [DOUBLE DOUBLE DOUBLE DOUBLE] [None LIGHT None LIGHT] [None LIGHT LIGHT None] [LIGHT None LIGHT None]
    [LIGHT None None LIGHT] [] [] []
    [None None LIGHT None] [LIGHT None None None] [None None None LIGHT] [None LIGHT None None]
    [None None HEAVY None] [HEAVY None None None] [None None None HEAVY] [None HEAVY None None]
    [None None LIGHT HEAVY] [LIGHT HEAVY None None] [None None HEAVY LIGHT] [HEAVY LIGHT None None]
};

/// The characters by their arms: by the one up, the one down, the one at the left and the one at the right.
static JOINED: [Option<char>; 256] = characters! {
    _ '╶' '╺' _ '╴' '─' '╼' _ '╸' '╾' '━' _ _ _ _ '═'
    '╷' '┌' '┍' '╒' '┐' '┬' '┮' _ '┑' '┭' '┯' _ '╕' _ _ '╤'
    '╻' '┎' '┏' _ '┒' '┰' '┲' _ '┓' '┱' '┳' _ _ _ _ _
    _ '╓' _ '╔' '╖' '╥' _ _ _ _ _ _ '╗' _ _ '╦'
    '╵' '└' '┕' '╘' '┘' '┴' '┶' _ '┙' '┵' '┷' _ '╛' _ _ '╧'
    '│' '├' '┝' '╞' '┤' '┼' '┾' _ '┥' '┽' '┿' _ '╡' _ _ '╪'
    '╽' '┟' '┢' _ '┧' '╁' '╆' _ '┪' '╅' '╈' _ _ _ _ _
    _ _ _ _ _ _ _ _ _ _ _ _ _ _ _ _
    '╹' '┖' '┗' _ '┚' '┸' '┺' _ '┛' '┹' '┻' _ _ _ _ _
    '╿' '┞' '┡' _ '┦' '╀' '╄' _ '┩' '╃' '╇' _ _ _ _ _
    '┃' '┠' '┣' _ '┨' '╂' '╊' _ '┫' '╉' '╋' _ _ _ _ _
    _ _ _ _ _ _ _ _ _ _ _ _ _ _ _ _
    _ '╙' _ '╚' '╜' '╨' _ _ _ _ _ _ '╝' _ _ '╩'
    _ _ _ _ _ _ _ _ _ _ _ _ _ _ _ _
    _ _ _ _ _ _ _ _ _ _ _ _ _ _ _ _
    '║' '╟' _ '╠' '╢' '╫' _ _ _ _ _ _ '╣' _ _ '╬'
};

/// The arms of a character; none of one that draws no box.
pub fn arms_of(character: char) -> Option<Arms>
    ensures { result ≡ arms_of character }
{
    let code = character as u32;
    if code < FIRST || code >= FIRST + 128 {
        return None;
    }
    arms_at((code - FIRST) as usize)
}

fn arms_at(index: usize) -> Option<Arms>
    requires { index < 128 }
    ensures { result ≡ slice_index_or ARMS index None }
{
    ARMS[index]
}

fn weight_number(weight: Option<Weight>) -> usize
    ensures number { result ≡ weight_number weight }
    ensures bound { result < 4 }
{
    match weight {
        None => 0,
        Some(Weight::Light) => 1,
        Some(Weight::Heavy) => 2,
        Some(Weight::Double) => 3,
    }
}

/// The first character that has these arms.
pub fn join(arms: Arms) -> Option<char>
    ensures first { result ≡ join arms }
    ensures same_arms { IfSome result (λ c. arms_of c ≡ Some arms) }
    ensures drawn { is_some result ≡ is_drawn arms }
{
    let up = weight_number(arms.up);
    let down = weight_number(arms.down);
    let left = weight_number(arms.left);
    let right = weight_number(arms.right);
    joined_at(64 * up + 16 * down + 4 * left + right)
}

fn joined_at(index: usize) -> Option<char>
    requires { index < 256 }
    ensures { result ≡ slice_index_or JOINED index None }
{
    JOINED[index]
}
