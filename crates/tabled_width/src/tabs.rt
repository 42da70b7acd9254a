//! Spaces in the place of tabs.

ghost use Rattle.std.specs.Prelude.{◌≡◌, ◌==◌, ◌++◌, string_bytes, IfOk, OnOk};
ghost use Rattle.std.specs.List.{slice_split};
ghost use Rattle.tabled_width.specs.Tabs.{at_stops, spaces_to_stop};
ghost use Rattle.tabled_width.specs.Tabs as spec;

use crate::lines::cut_at;
use crate::measure::width_of;
use crate::rows::push_spaces;
use std::alloc::Global;
use tabled_border::OutOfMemory;

/// How many spaces follow a text that begins at a stop, up to the next one.
fn spaces_to_stop(every: usize, text: &str) -> usize
    ensures { result ≡ spaces_to_stop every text.now }
{
    if every == 0 {
        return 0;
    }
    every - width_of(text) % every
}

/// Writes a line with spaces in the place of its tabs.
fn push_at_stops(out: &mut String, every: usize, line: &str) -> Result<(), OutOfMemory>
    ensures { OnOk result (string_bytes out.new ≡ string_bytes out.old ++ at_stops every (slice_split (λ byte. byte == 9) line.now)) }
{
    let mut rest = line;
    while let Some((text, more)) = cut_at(rest, '\t') {
        out.push_str(text)?;
        push_spaces(out, spaces_to_stop(every, text))?;
        rest = more;
    }
    out.push_str(rest)?;
    Ok(())
}

/// Returns a text with spaces in the place of its tabs: as many as there are columns up to the next stop of the line, where the line begins
/// at a stop and a further one stands each `every` columns of the terminal, as `width_of` counts them. At least one space stands for each
/// tab; where `every` is 0 there are no stops, and tabs are left out.
///
/// `tabs_expanded(alloc, "a\tbc\td", 4)?` is `"a   bc  d"`. Only memory can be refused.
pub fn tabs_expanded(alloc: Global, text: &str, every: usize) -> Result<String, OutOfMemory>
    ensures { IfOk result (λ found. string_bytes found ≡ spec.tabs_expanded every text.now) }
{
    let mut out = String::with_capacity(alloc, text.len())?;
    let mut rest = text;
    while let Some((line, more)) = cut_at(rest, '\n') {
        push_at_stops(&mut out, every, line)?;
        out.push('\n')?;
        rest = more;
    }
    push_at_stops(&mut out, every, rest)?;
    Ok(out)
}
