//! The lines of a text that are shown.

ghost use Rattle.std.specs.Prelude.{◌≡◌, ◌<◌, ◌≤◌, [], drop, length, map, IfSome, MatchOption, if◌then◌else◌, slice_index_or};
ghost use Rattle.tabled_width.specs.Texts.{pieces, width_of_text};
ghost use Rattle.tabled_cells.specs.Trimmed.{pieces_left};

use crate::Placement;
use crate::trim::{count_lines, count_to_last, from_first, line_at, line_trimmed};
use tabled_settings::AlignmentHorizontal;
use tabled_width::width_of;

/// The lines of a text that are shown, which are had one after another.
#[derive(Clone, Copy, Debug)]
pub struct ShownLines<'a> {
    /// Whether spaces at the ends of the lines are dropped.
    trims: bool,
    /// The text from its first line that is shown.
    text: &'a str,
    /// How many of its lines are shown.
    count: usize,
    /// How wide the widest is, where it is asked for.
    widest: usize,
    /// What of the text is left, if something is, and the number of its first line.
    rest: Option<&'a str>,
    next: usize,
    ghost within: { count ≤ length (pieces text.now) },
    ghost left: { pieces_left rest ≡ drop next (pieces text.now) },
}

impl<'a> ShownLines<'a> {
    ghost use Rattle.tabled_cells.specs.Placed.{greatest};
    ghost use Rattle.tabled_cells.specs.Trimmed.{first_lines, lines_shown};
    ghost use Rattle.tabled_cells.specs.Shown.{shown, KnowsWidest};

    /// Makes the lines of a text that are shown, of a cell that is placed so.
    pub fn of(how: &Placement, text: &'a str) -> Self
        ensures lines { shown result ≡ lines_shown how.now text.now }
        ensures widest { KnowsWidest how.now result }
    {
        let lines = ShownLines::placed(how, text);
        if how.line_alignment || how.alignment_horizontal == AlignmentHorizontal::Left {
            return lines;
        }
        lines.measured()
    }

    /// The lines of a text that are shown, before they are measured.
    #[tactic(auto, using(crate::proofs::Trimming::shown_trimmed, crate::proofs::Trimming::shown_whole))]
    fn placed(how: &Placement, text: &'a str) -> Self
        ensures { shown result ≡ lines_shown how.now text.now }
    {
        let trims = how.trim_horizontal;
        if !how.trim_vertical {
            return ShownLines::of_first(trims, text, count_lines(text));
        }
        match from_first(text) {
            Some(text) => ShownLines::of_first(trims, text, count_to_last(text)),
            None => ShownLines::of_first(trims, text, 0),
        }
    }

    /// So many of the first lines of a text.
    #[tactic(auto, unfolding(crate::specs::Shown::shown))]
    fn of_first(trims: bool, text: &'a str, count: usize) -> Self
        requires { count ≤ length (pieces text.now) }
        ensures { shown result ≡ first_lines trims count (pieces text.now) }
    {
        ShownLines {
            trims,
            text,
            count,
            widest: 0,
            rest: Some(text),
            next: 0,
        }
    }

    /// The lines of a text once it is known how wide the widest of them is.
    #[tactic(auto, unfolding(crate::specs::Shown::shown))]
    fn measured(self) -> Self
        ensures lines { shown result ≡ shown self.entry }
        ensures widest { result.widest ≡ greatest (map width_of_text (shown self.entry)) }
    {
        let mut lines = self;
        let mut widest = 0;
        for n in 0..self.count {
            if let Some(line) = lines.line(n) {
                widest = widest.max(width_of(line));
            }
        }
        lines.widest = widest;
        lines
    }

    /// Returns how many lines there are.
    #[tactic(auto, unfolding(crate::specs::Shown::shown))]
    pub fn len(&self) -> usize
        ensures { result ≡ length (shown self.now) }
    {
        self.count
    }

    /// What of the text begins with a line up to line `n`, if something does, and the number of that line.
    fn left_for(&self, n: usize) -> (Option<&'a str>, usize)
        ensures left { pieces_left result.0 ≡ drop result.1 (pieces self.now.text.now) }
        ensures before { result.1 ≤ n }
    {
        if self.next <= n {
            (self.rest, self.next)
        } else {
            (Some(self.text), 0)
        }
    }

    /// Line `n`, counted from 0, if there is one. Lines that are asked for in turn cost no more than their own length.
    #[tactic(auto, using(crate::proofs::Showing::shown_at, crate::proofs::Showing::line_found, crate::proofs::Showing::left_found), unfolding(crate::specs::Shown::shown))]
    pub fn line(&mut self, n: usize) -> Option<&'a str>
        ensures there { MatchOption result (length (shown self.old) ≤ n) (λ line. n < length (shown self.old)) }
        ensures is { IfSome result (λ line. line.now ≡ slice_index_or (shown self.old) n []) }
        ensures same { shown self.new ≡ shown self.old }
        ensures widest { self.new.widest ≡ self.old.widest }
    {
        if n >= self.count {
            return None;
        }
        let (text, first) = self.left_for(n);
        let (line, rest) = line_at(text, n - first)?;
        (self.rest, self.next) = (rest, n + 1);
        Some(line_trimmed(self.trims, line))
    }

    /// Returns how wide what is aligned is: a line by itself, or all lines as one.
    pub fn aligned(&self, how: &Placement, line: &str) -> usize
        ensures { result ≡ (if how.now.line_alignment then width_of_text line.now else self.now.widest) }
    {
        if how.line_alignment {
            width_of(line)
        } else {
            self.widest
        }
    }
}
