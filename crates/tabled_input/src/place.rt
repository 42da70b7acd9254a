//! Where a byte of an input stands.

ghost use Rattle.std.specs.Prelude.{◌≡◌, ◌≤◌, length};
ghost use Rattle.tabled_input.specs.Input.{byte_after, line_after};

use crate::read::INPUT_LIMIT;

/// Returns where the byte after these stands: its line, and its number in the line, both counted from 1.
pub fn place_after(bytes: &[u8]) -> (usize, usize)
    requires { length bytes.now ≤ INPUT_LIMIT }
    ensures line { result.0 ≡ line_after bytes.now }
    ensures byte { result.1 ≡ byte_after bytes.now }
{
    let mut line = 1;
    let mut byte = 1;
    for each in bytes {
        if *each == b'\n' {
            line += 1;
            byte = 1;
        } else {
            byte += 1;
        }
    }
    (line, byte)
}
