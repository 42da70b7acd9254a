//! Texts of so many lines.

ghost use Rattle.std.specs.Prelude.{◌≡◌, string_bytes, IfOk};
ghost use Rattle.tabled_width.specs.CutOff as spec;

use crate::lines::cut_at;
use std::alloc::Global;
use tabled_border::OutOfMemory;

/// Returns a text of at most so many lines: one of more lines keeps its first ones, and the suffix follows the last of these. A text of no
/// more lines stays as it is; a count of 0 leaves nothing, not even the suffix.
///
/// The suffix can make its line wider: cut the text off afterwards, where a width is to be kept. A suffix with a line feed makes
/// more lines.
///
/// `shortened(alloc, "a\nb\nc", 2, "…")?` is `"a\nb…"`. Only memory can be refused.
pub fn shortened(
    alloc: Global,
    text: &str,
    count: usize,
    suffix: &str,
) -> Result<String, OutOfMemory>
    ensures { IfOk result (λ found. string_bytes found ≡ spec.shortened count suffix.now text.now) }
{
    let mut out = String::new(alloc);
    if count == 0 {
        return Ok(out);
    }
    let mut left = count;
    let mut rest = text;
    while let Some((line, more)) = cut_at(rest, '\n') {
        out.push_str(line)?;
        if left == 1 {
            out.push_str(suffix)?;
            return Ok(out);
        }
        out.push('\n')?;
        left -= 1;
        rest = more;
    }
    out.push_str(rest)?;
    Ok(out)
}
