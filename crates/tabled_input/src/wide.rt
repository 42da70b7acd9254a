//! Where lines are cut at runs of two blanks and more.

ghost use Rattle.std.specs.Prelude.{◌≡◌, [], map, slice_index_or, take, IfOk};
ghost use Rattle.std.specs.List.{list_all};
ghost use Rattle.tabled_input.specs.Spaced.{begin_at, is_blank, wide_count, wide_len, wide_places, word_lines};

use crate::blanks::{is_blank, is_blank_line};
use std::alloc::{AllocError, Global};

/// Whether a line begins with two blanks, or is one blank alone, or empty.
fn begins_gap(line: &[u8]) -> bool
    ensures { result ≡ list_all is_blank (take 2 line.now) }
{
    line.iter().take(2).all(|byte| is_blank(*byte))
}

/// Returns how many bytes of a line stand before two blanks, or before the blanks at its end.
#[tactic(auto, using(crate::proofs::WideCells::wide_at, crate::proofs::WideCells::ends_last))]
pub fn wide_len(line: &[u8]) -> usize
    ensures { result ≡ wide_len line.now }
{
    for at in 0..line.len() {
        if begins_gap(&line[at..]) {
            return at;
        }
    }
    line.len()
}

/// Whether a character is a space or a tabulator.
fn is_blank_char(character: char) -> bool
    ensures { result ≡ is_blank character }
{
    character == ' ' || character == '\t'
}

/// At which places of a line its wide cells begin: how many characters stand before each.
fn wide_places(alloc: Global, line: &str) -> Result<Vec<usize>, AllocError>
    ensures { IfOk result (λ places. places.items ≡ wide_places line.now) }
{
    let mut places = Vec::new(alloc);
    let mut after_blank = true;
    let mut after_gap = true;
    for (place, character) in line.chars().enumerate() {
        let is_blank = is_blank_char(character);
        if after_gap & !is_blank {
            places.push(place)?;
        }
        after_gap = after_blank & is_blank;
        after_blank = is_blank;
    }
    Ok(places)
}

/// At which places the wide cells of the first line begin that has words; none where there is no such line.
fn first_places(alloc: Global, text: &str) -> Result<Vec<usize>, AllocError>
    ensures { IfOk result (λ places. places.items ≡ slice_index_or (map wide_places (word_lines text.now)) 0 []) }
{
    match text.lines().find(|line| !is_blank_line(line)) {
        Some(line) => wide_places(alloc, line),
        None => Ok(Vec::new(alloc)),
    }
}

/// Whether the wide cells of each line begin at these places.
fn all_begin_at(alloc: Global, text: &str, places: &[usize]) -> Result<bool, AllocError>
    ensures { IfOk result (λ all. all ≡ list_all (begin_at places.now) (word_lines text.now)) }
{
    let mut all = true;
    for line in text.lines() {
        if all && !is_blank_line(line) {
            all = wide_places(alloc, line)?.as_slice() == places;
        }
    }
    Ok(all)
}

/// Returns how many wide cells each line has, where they begin at the places of the first line, and are two at least; else 0.
#[tactic(auto, unfolding(crate::specs::Spaced::wide_count))]
pub fn wide_count(alloc: Global, text: &str) -> Result<usize, AllocError>
    ensures { IfOk result (λ count. count ≡ wide_count (word_lines text.now)) }
{
    let places = first_places(alloc, text)?;
    if places.len() < 2 {
        return Ok(0);
    }
    if all_begin_at(alloc, text, &places)? {
        Ok(places.len())
    } else {
        Ok(0)
    }
}
