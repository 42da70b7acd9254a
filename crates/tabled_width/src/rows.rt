//! Lines that are cut into rows.

ghost use Rattle.std.specs.Prelude.{◌≡◌, ℕ, ◌+◌, ◌<◌, ◌≤◌, ◌^◌, nat_le, ◌++◌, List, [], ◌∷◌, map, string_bytes, IfOk, OnOk, IsTrue, replicate};
ghost use Rattle.std.specs.List.{flat_map, join_with_byte, list_all};
ghost use Rattle.tabled_width.specs.Clusters.{clusters};
ghost use Rattle.tabled_width.specs.Rows.{Chunk, before, close, going_on, line_rows, parts_of, rows, words_from, word_rows};
ghost use Rattle.tabled_width.specs.Rows as spec;
ghost use Rattle.tabled_width.specs.Measured.{IsMeasured};
ghost use Rattle.tabled_width.specs.Texts.{is_printable, width_of_text};

use crate::clusters::first_cluster;
use crate::lines::cut_at;
use crate::measure::{fits, is_printable, width_of};
use std::alloc::Global;
use tabled_border::OutOfMemory;

/// Writes so many spaces, for which memory is asked at once.
pub(crate) fn push_spaces(row: &mut String, count: usize) -> Result<(), OutOfMemory>
    ensures { OnOk result (string_bytes row.new ≡ string_bytes row.old ++ replicate count 32) }
{
    row.reserve(count)?;
    for _ in 0..count {
        row.push(' ')?;
    }
    Ok(())
}

/// A row that is being filled, and how many columns its text takes.
#[derive(Drop)]
struct FilledRow {
    text: String,
    width: usize,
}

impl FilledRow {
    /// A row on which nothing stands.
    fn new(alloc: Global) -> FilledRow
        ensures text { string_bytes result.text ≡ [] }
        ensures width { result.width ≡ 0 }
    {
        FilledRow {
            text: String::new(alloc),
            width: 0,
        }
    }

    /// Takes everything off the row.
    fn clear(&mut self)
        ensures text { string_bytes self.new.text ≡ [] }
        ensures measured { IsMeasured self.new }
    {
        self.text.clear();
        self.width = 0;
    }
}

/// Ends the row, if something stands on it, and begins the next one with a part, which takes so many columns.
fn begin(out: &mut String, row: &mut FilledRow, part: &str, width: usize) -> Result<(), OutOfMemory>
    requires { width ≡ width_of_text part.now }
    ensures rows { (first : List ℕ) (more : List (List ℕ)) → OnOk result (string_bytes out.new ++ join_with_byte 10 (first ∷ more)
        ≡ string_bytes out.old ++ join_with_byte 10 (before (string_bytes row.old.text) (first ∷ more))) }
    ensures text { OnOk result (string_bytes row.new.text ≡ part.now) }
    ensures measured { OnOk result (IsMeasured row.new) }
{
    if !row.text.is_empty() {
        out.push_str(row.text.as_str())?;
        out.push('\n')?;
        row.text.clear();
    }
    row.text.push_str(part)?;
    row.width = width;
    Ok(())
}

/// Whether there is room for so many spaces and so many columns more beside those that are taken.
fn has_room(width: usize, taken: usize, gap: usize, asked: usize) -> bool
    ensures { result ≡ nat_le (taken + gap + asked) width }
{
    taken <= width && gap <= width - taken && asked <= width - taken - gap
}

/// Goes on with a part that has spaces before it: on the row if it then fits, else on the next. Widths add up at a space, so the row is not
/// measured again.
fn put_apart(
    out: &mut String,
    row: &mut FilledRow,
    width: usize,
    gap: usize,
    part: &str,
) -> Result<(), OutOfMemory>
    requires some { 0 < gap }
    requires measured { IsMeasured row.old }
    ensures rows { (parts : List Chunk) → OnOk result (going_on (string_bytes out.new) width (string_bytes row.new.text) parts
        ≡ going_on (string_bytes out.old) width (string_bytes row.old.text) (record { gap = gap; text = part.now } ∷ parts)) }
    ensures measured { OnOk result (IsMeasured row.new) }
{
    let asked = width_of(part);
    if !has_room(width, row.width, gap, asked) {
        begin(out, row, part, asked)?;
        return Ok(());
    }
    push_spaces(&mut row.text, gap)?;
    row.text.push_str(part)?;
    row.width += gap + asked;
    Ok(())
}

/// Goes on with a part that has no spaces before it: on the row if it then fits, else on the next. It may join the row, which is measured
/// again.
fn put_close(
    out: &mut String,
    row: &mut FilledRow,
    width: usize,
    part: &str,
) -> Result<(), OutOfMemory>
    ensures rows { (parts : List Chunk) → OnOk result (going_on (string_bytes out.new) width (string_bytes row.new.text) parts
        ≡ going_on (string_bytes out.old) width (string_bytes row.old.text) (close part.now ∷ parts)) }
    ensures measured { OnOk result (IsMeasured row.new) }
{
    let end = row.text.len();
    row.text.push_str(part)?;
    let taken = width_of(row.text.as_str());
    if taken <= width {
        row.width = taken;
        return Ok(());
    }
    row.text.truncate(end);
    begin(out, row, part, width_of(part))?;
    Ok(())
}

/// Goes on with a part that has so many spaces before it: on the row if it then fits, else on the next.
fn put(
    out: &mut String,
    row: &mut FilledRow,
    width: usize,
    gap: usize,
    part: &str,
) -> Result<(), OutOfMemory>
    requires { IsMeasured row.old }
    ensures rows { (parts : List Chunk) → OnOk result (going_on (string_bytes out.new) width (string_bytes row.new.text) parts
        ≡ going_on (string_bytes out.old) width (string_bytes row.old.text) (record { gap = gap; text = part.now } ∷ parts)) }
    ensures measured { OnOk result (IsMeasured row.new) }
{
    if gap == 0 {
        put_close(out, row, width, part)
    } else {
        put_apart(out, row, width, gap, part)
    }
}

/// Writes the rows of a line, which is cut between its clusters.
fn push_clusters(
    out: &mut String,
    row: &mut FilledRow,
    width: usize,
    line: &str,
) -> Result<(), OutOfMemory>
    ensures { OnOk result (string_bytes out.new ≡ string_bytes out.old ++ join_with_byte 10 (rows width [] (map close (clusters line.now)))) }
{
    row.clear();
    let mut rest = line;
    while let Some((cluster, more)) = first_cluster(rest) {
        put_close(out, row, width, cluster)?;
        rest = more;
    }
    out.push_str(row.text.as_str())?;
    Ok(())
}

/// Writes the rows of a line of printable ASCII, of which each byte is a cluster of one column.
fn push_printable(out: &mut String, width: usize, line: &str) -> Result<(), OutOfMemory>
    requires { IsTrue (list_all is_printable line.now) }
    ensures { OnOk result (string_bytes out.new ≡ string_bytes out.old ++ join_with_byte 10 (rows width [] (map close (clusters line.now)))) }
{
    let count = width.max(1);
    let mut rest = line;
    while count < rest.len() {
        out.push_str(&rest[..count])?;
        out.push('\n')?;
        rest = &rest[count..];
    }
    out.push_str(rest)?;
    Ok(())
}

/// Writes the rows of a line: itself if it fits, else its clusters in rows.
fn push_line(
    out: &mut String,
    row: &mut FilledRow,
    width: usize,
    line: &str,
) -> Result<(), OutOfMemory>
    ensures { OnOk result (string_bytes out.new ≡ string_bytes out.old ++ join_with_byte 10 (line_rows width line.now)) }
{
    if fits(width, line) {
        out.push_str(line)?;
        return Ok(());
    }
    if is_printable(line) {
        push_printable(out, width, line)?;
        return Ok(());
    }
    push_clusters(out, row, width, line)?;
    Ok(())
}

/// Goes on with a word that has so many spaces before it: whole if it fits alone, else cluster by cluster.
fn put_word(
    out: &mut String,
    row: &mut FilledRow,
    width: usize,
    gap: usize,
    word: &str,
) -> Result<(), OutOfMemory>
    requires { IsMeasured row.old }
    ensures rows { (parts : List Chunk) → OnOk result (going_on (string_bytes out.new) width (string_bytes row.new.text) parts
        ≡ going_on (string_bytes out.old) width (string_bytes row.old.text) (parts_of width (record { gap = gap; text = word.now }) ++ parts)) }
    ensures measured { OnOk result (IsMeasured row.new) }
{
    if fits(width, word) {
        put(out, row, width, gap, word)?;
        return Ok(());
    }
    let mut gap = gap;
    let mut rest = word;
    while let Some((cluster, more)) = first_cluster(rest) {
        put(out, row, width, gap, cluster)?;
        gap = 0;
        rest = more;
    }
    Ok(())
}

/// Goes on with a piece between spaces, and counts the spaces before the next.
fn put_piece(
    out: &mut String,
    row: &mut FilledRow,
    width: usize,
    gap: usize,
    piece: &str,
) -> Result<usize, OutOfMemory>
    requires few { gap < 2 ^ 63 }
    requires measured { IsMeasured row.old }
    ensures next { IfOk result (λ next. next ≤ gap + 1) }
    ensures rows { (more : List (List ℕ)) → IfOk result (λ next.
        going_on (string_bytes out.new) width (string_bytes row.new.text) (flat_map (parts_of width) (words_from next more))
        ≡ going_on (string_bytes out.old) width (string_bytes row.old.text) (flat_map (parts_of width) (words_from gap (piece.now ∷ more)))) }
    ensures measured { OnOk result (IsMeasured row.new) }
{
    if piece.is_empty() {
        return Ok(gap + 1);
    }
    put_word(out, row, width, gap, piece)?;
    Ok(1)
}

/// Writes the rows of a line, which is cut at its spaces.
fn push_words(
    out: &mut String,
    row: &mut FilledRow,
    width: usize,
    line: &str,
) -> Result<(), OutOfMemory>
    ensures { OnOk result (string_bytes out.new ≡ string_bytes out.old ++ join_with_byte 10 (word_rows width line.now)) }
{
    if fits(width, line) {
        out.push_str(line)?;
        return Ok(());
    }
    row.clear();
    let mut gap: usize = 0;
    let mut rest = line;
    while let Some((piece, more)) = cut_at(rest, ' ') {
        gap = put_piece(out, row, width, gap, piece)?;
        rest = more;
    }
    put_piece(out, row, width, gap, rest)?;
    out.push_str(row.text.as_str())?;
    Ok(())
}

/// Returns a text whose lines are cut into rows of at most so many terminal columns. A line that fits stays as it is. Another is cut
/// before each cluster with which its row would be too wide (`first_cluster` says what a cluster is); nothing is lost.
///
/// A cluster that is wider than a row stands on one alone, so a width of 0 gives one cluster a row, and only then is a row wider
/// than was asked. A width of `usize::MAX` leaves every text as it is. A tab takes one column. Accents alone take none, and make
/// one cluster.
///
/// `wrapped(alloc, "a long text", 4)?` is `"a lo\nng t\next"`. Only memory can be refused.
pub fn wrapped(alloc: Global, text: &str, width: usize) -> Result<String, OutOfMemory>
    ensures { IfOk result (λ found. string_bytes found ≡ spec.wrapped width text.now) }
{
    let mut out = String::with_capacity(alloc, text.len())?;
    let mut row = FilledRow::new(alloc);
    let mut rest = text;
    while let Some((line, more)) = cut_at(rest, '\n') {
        push_line(&mut out, &mut row, width, line)?;
        out.push('\n')?;
        rest = more;
    }
    push_line(&mut out, &mut row, width, rest)?;
    Ok(out)
}

/// Returns a text whose lines are cut into rows of at most so many terminal columns, at spaces. A line that fits stays as it is. In
/// another a row takes each word with the spaces before it, as long as it then fits; the word for which there is no room begins
/// the next row, and the spaces before it are left out, as are those after the last word. A word that is wider than a row is cut
/// as by `wrapped`, from the row on that there is.
///
/// Only U+0020 is a space here. A width of 0 gives one cluster a row.
///
/// `wrapped_words(alloc, "a long text", 6)?` is `"a long\ntext"`. Only memory can be refused.
pub fn wrapped_words(alloc: Global, text: &str, width: usize) -> Result<String, OutOfMemory>
    ensures { IfOk result (λ found. string_bytes found ≡ spec.wrapped_words width text.now) }
{
    let mut out = String::with_capacity(alloc, text.len())?;
    let mut row = FilledRow::new(alloc);
    let mut rest = text;
    while let Some((line, more)) = cut_at(rest, '\n') {
        push_words(&mut out, &mut row, width, line)?;
        out.push('\n')?;
        rest = more;
    }
    push_words(&mut out, &mut row, width, rest)?;
    Ok(out)
}
