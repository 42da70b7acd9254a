//! Lines that are cut off.

ghost use Rattle.std.specs.Prelude.{◌≡◌, ◌++◌, [], if◌then◌else◌, string_bytes, IfOk, OnOk};
ghost use Rattle.tabled_width.specs.Clusters.{clusters};
ghost use Rattle.tabled_width.specs.CutOff.{beginning, cut_off, suffix_shown};
ghost use Rattle.tabled_width.specs.CutOff as spec;
ghost use Rattle.tabled_width.specs.Texts.{fits};

use crate::clusters::{first_cluster, starts_with_selector};
use crate::lines::cut_at;
use crate::measure::{fits, is_printable, width_of};
use std::alloc::Global;
use tabled_border::OutOfMemory;

/// Puts a cluster on a row if it then fits with a suffix, and says whether it does.
fn take(row: &mut String, width: usize, cluster: &str, suffix: &str) -> Result<bool, OutOfMemory>
    ensures fits { IfOk result (λ took. took ≡ fits width ((string_bytes row.old ++ cluster.now) ++ suffix.now)) }
    ensures row { IfOk result (λ took. string_bytes row.new ≡ (if took then string_bytes row.old ++ cluster.now else string_bytes row.old)) }
{
    let without = row.len();
    row.push_str(cluster)?;
    let with = row.len();
    row.push_str(suffix)?;
    if fits(width, row.as_str()) {
        row.truncate(with);
        return Ok(true);
    }
    row.truncate(without);
    Ok(false)
}

/// Puts the first clusters of a line on an empty row, as many as fit with a suffix.
fn begin(row: &mut String, width: usize, suffix: &str, line: &str) -> Result<(), OutOfMemory>
    ensures { OnOk result (string_bytes row.new ≡ beginning width suffix.now [] (clusters line.now)) }
{
    row.clear();
    if is_printable(line) && !starts_with_selector(suffix) {
        let count = line.len().min(width.saturating_sub(width_of(suffix)));
        row.push_str(&line[..count])?;
        return Ok(());
    }
    let mut rest = line;
    while let Some((cluster, more)) = first_cluster(rest) {
        if !take(row, width, cluster, suffix)? {
            return Ok(());
        }
        rest = more;
    }
    Ok(())
}

/// The suffix, cut off itself where it does not fit alone.
fn suffix_shown(alloc: Global, width: usize, suffix: &str) -> Result<String, OutOfMemory>
    ensures { IfOk result (λ shown. string_bytes shown ≡ spec.suffix_shown width suffix.now) }
{
    let mut shown = String::new(alloc);
    if fits(width, suffix) {
        shown.push_str(suffix)?;
        return Ok(shown);
    }
    begin(&mut shown, width, "", suffix)?;
    Ok(shown)
}

/// Writes a line, cut off where it is too wide, so that it fits with the suffix that is shown.
fn push_cut_off(
    out: &mut String,
    row: &mut String,
    width: usize,
    suffix: &str,
    line: &str,
) -> Result<(), OutOfMemory>
    ensures { OnOk result (string_bytes out.new ≡ string_bytes out.old ++ cut_off width suffix.now line.now) }
{
    if fits(width, line) {
        out.push_str(line)?;
        return Ok(());
    }
    begin(row, width, suffix, line)?;
    out.push_str(row.as_str())?;
    out.push_str(suffix)?;
    Ok(())
}

/// Returns a text whose lines are cut off at so many terminal columns. A line that fits stays as it is; of another so many of its first
/// clusters stay as fit with the suffix, which follows them (`first_cluster` says what a cluster is).
///
/// Where the suffix does not fit alone, it is cut off itself in the same way, so that every line fits: a width of 0 leaves nothing
/// of a line that takes a column. A suffix with a line feed begins a new line after each line that is cut off.
///
/// `truncated(alloc, "a long text", 6, "..")?` is `"a lo.."`. Only memory can be refused.
pub fn truncated(
    alloc: Global,
    text: &str,
    width: usize,
    suffix: &str,
) -> Result<String, OutOfMemory>
    ensures { IfOk result (λ found. string_bytes found ≡ spec.truncated width suffix.now text.now) }
{
    let suffix = suffix_shown(alloc, width, suffix)?;
    let mut out = String::with_capacity(alloc, text.len())?;
    let mut row = String::new(alloc);
    let mut rest = text;
    while let Some((line, more)) = cut_at(rest, '\n') {
        push_cut_off(&mut out, &mut row, width, suffix.as_str(), line)?;
        out.push('\n')?;
        rest = more;
    }
    push_cut_off(&mut out, &mut row, width, suffix.as_str(), rest)?;
    Ok(out)
}
