//! A line of a table, and a text laid along it.

ghost use Rattle.std.specs.Prelude.{◌≡◌, ◌-◌, ◌^◌, true, OnOk, IfOk, min, drop, length, zip};

use crate::pen::Pen;
use std::alloc::Global;
use tabled_border::OutOfMemory;
use tabled_configuration::SpannedConfig;
use tabled_grid::{LineOf, Place};
use tabled_kept::Probes;
use tabled_object::Dimension;
use tabled_printing::{crossing_line, crossing_of, edge_of, has_line, piece_size, pieces_of};

/// A line of a table, with what decides how it looks.
#[derive(Drop)]
pub(crate) struct TableLine<'a, D> {
    pub(crate) cfg: &'a SpannedConfig,
    pub(crate) dims: &'a D,
    pub(crate) shape: (usize, usize),
    pub(crate) line: LineOf,
}

impl<D: Dimension> TableLine<'_, D> {
    ghost use Rattle.tabled_options.specs.LineText.{takes_character, places_along};
    ghost use Rattle.tabled_printing.specs.LinePieces.{has_line, pieces_of, piece_size, crossed, crossing_places, edge_places, all_places};
    ghost use Rattle.tabled_options.specs.Laying.{looked};
    ghost use Rattle.tabled_options.specs.Passing.{Passed};

    /// Whether the table has places and the line is not past the one that closes it.
    pub(crate) fn exists(&self) -> bool
        ensures { result ≡ has_line self.now.shape self.now.line }
    {
        has_line(self.shape, self.line)
    }

    /// How many columns, or rows, the line is long.
    fn pieces(&self) -> usize
        ensures { result ≡ pieces_of self.now.shape self.now.line }
    {
        pieces_of(self.shape, self.line)
    }

    /// How many places its edge has at one of them.
    fn size(&self, n: usize) -> usize
        ensures { let view = looked D.width_of D.height_of self.now in result ≡ piece_size view.widths view.heights self.now.line n }
    {
        piece_size(self.dims, self.line, n)
    }

    /// Whether a line of the other direction is drawn, so that it crosses this one.
    fn is_crossed(&self, n: usize) -> bool
        ensures { let view = looked D.width_of D.height_of self.now in result ≡ crossed view.horizontal view.vertical self.now.line n }
    {
        let line = crossing_line(self.line, n);
        self.cfg.draws(line, self.pieces(), &mut Probes::new())
    }

    /// Whether a place takes a character that is written there: a crossing that shows none stays empty.
    pub(crate) fn takes_character(&self, place: Place) -> bool
        ensures { let view = looked D.width_of D.height_of self.now in result ≡ takes_character view.shown place }
    {
        match place {
            Place::Cross { .. } => {
                let mut probes = Probes::new();
                self.cfg
                    .char_at(place, self.shape, 0, &mut probes)
                    .is_some()
            }
            Place::Horizontal { .. } | Place::Vertical { .. } => true,
        }
    }

    /// How many places there are at a crossing: none where the other line is not drawn.
    fn crossing_count(&self, n: usize) -> usize
        ensures { let view = looked D.width_of D.height_of self.now in result ≡ length (crossing_places view self.now.line n) }
    {
        usize::from(self.is_crossed(n))
    }

    /// How many places the line has, as far as a number reaches.
    pub(crate) fn total(&self) -> usize
        ensures { let view = looked D.width_of D.height_of self.now in result ≡ min (2 ^ 64 - 1) (length (all_places view self.now.line)) }
    {
        let count = self.pieces();
        let mut total: usize = 0;
        for n in 0..count {
            let places = self.crossing_count(n).saturating_add(self.size(n));
            total = total.saturating_add(places);
        }
        total.saturating_add(self.crossing_count(count))
    }

    /// Goes past a crossing, if there is one.
    fn lay_crossing(&self, pen: &mut Pen<'_>, n: usize) -> Result<(), OutOfMemory>
        ensures { let view = looked D.width_of D.height_of self.now in
            OnOk result (Passed (crossing_places view self.now.line n) pen.old pen.new) }
    {
        if self.is_crossed(n) {
            pen.pass(crossing_of(self.line, n))?;
        }
        Ok(())
    }

    /// Goes past the places of an edge. As soon as no character is left, it is done.
    fn lay_edge(&self, pen: &mut Pen<'_>, n: usize) -> Result<(), OutOfMemory>
        ensures { let view = looked D.width_of D.height_of self.now in
            OnOk result (Passed (edge_places view self.now.line n) pen.old pen.new) }
    {
        let size = self.size(n);
        let passed = pen.pass_over(size);
        for at in passed..size {
            if pen.letters.is_empty() {
                return Ok(());
            }
            pen.pass(edge_of(self.line, n, at))?;
        }
        Ok(())
    }

    /// Goes past all places of the line.
    fn lay(&self, pen: &mut Pen<'_>) -> Result<(), OutOfMemory>
        ensures { let view = looked D.width_of D.height_of self.now in
            OnOk result (Passed (all_places view self.now.line) pen.old pen.new) }
    {
        let count = self.pieces();
        for n in 0..count {
            self.lay_crossing(pen, n)?;
            self.lay_edge(pen, n)?;
        }
        self.lay_crossing(pen, count)
    }

    /// The places that characters take from a start on, each with its character, on a line of `total` places.
    pub(crate) fn lay_from(
        &self,
        alloc: Global,
        start: usize,
        total: usize,
        letters: &[char],
    ) -> Result<Vec<(Place, char)>, OutOfMemory>
        requires exists { has_line self.now.shape self.now.line ≡ true }
        requires total { let view = looked D.width_of D.height_of self.now in total ≡ length (places_along view self.now.line) }
        ensures { let view = looked D.width_of D.height_of self.now in
            IfOk result (λ taken. taken.items ≡ zip (drop start (places_along view self.now.line)) letters.now) }
    {
        let room = letters.len().min(total.saturating_sub(start));
        let mut pen = Pen {
            letters: &letters[..room],
            skip: start,
            taken: Vec::new(alloc),
        };
        self.lay(&mut pen)?;
        Ok(pen.taken)
    }
}
