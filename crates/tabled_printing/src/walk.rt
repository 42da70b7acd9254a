//! A walk along a line that looks up what it passes: each crossing and each edge once, and an edge that may have offsets place by
//! place.

ghost use Rattle.std.specs.Prelude.{◌≡◌, ℕ, ◌+◌, ◌*◌, ◌≤◌, ◌<◌, true, false, IsFalse, is_some, length, map};
ghost use Rattle.std.specs.Option.{ForSome};
ghost use Rattle.tabled_kept.specs.Probing.{IsRaised};
ghost use Rattle.tabled_configuration.specs.Configuration.{all_writes};
ghost use Rattle.tabled_printing.specs.Alike.{NoOffsetsAlong};
ghost use Rattle.tabled_printing.specs.LinePieces.{has_line, pieces_of, piece_size, crossed_after, edge_of, crossing_places, edge_places, piece_places, all_places};
ghost use Rattle.tabled_printing.specs.Picture.{mark_at};
ghost use Rattle.tabled_printing.specs.Sides.{side_at};
ghost use Rattle.tabled_printing.specs.Sinks.{Put};

use crate::alike::has_no_offsets_at;
use crate::line_pieces::{crossing_line, crossing_of, edge_of, piece_size, pieces_of};
use crate::mark::{mark_seen, plain_mark};
use crate::sink::Sink;
use crate::{RowSides, Run};
use tabled_configuration::SpannedConfig;
use tabled_grid::{Direction, LineOf};
use tabled_kept::{Meter, Probes};
use tabled_object::Dimension;

/// A line of a table that is there, with what decides how it looks, and whether its colors are wanted.
#[derive(Drop)]
pub(crate) struct Walk<'a, 'b, 'c, D, M = Probes> {
    pub(crate) cfg: &'a SpannedConfig<M>,
    pub(crate) dims: &'b D,
    pub(crate) shape: (usize, usize),
    pub(crate) line: LineOf,
    /// Which of the lines that it meets are drawn, where that was looked up.
    pub(crate) sides: Option<&'c RowSides<'a>>,
    pub(crate) with_colors: bool,
    ghost is_there: { has_line shape line ≡ true },
    ghost sides_end: { ForSome sides (λ kept. kept.now.last ≡ pieces_of shape line) },
    ghost sides_drawn: { ForSome sides (λ kept. (n : ℕ) → n ≤ pieces_of shape line → is_some (side_at kept.now n) ≡ crossed_after (all_writes cfg.now) shape line n) },
}

impl<'a, D: Dimension, M: Meter> Walk<'a, '_, '_, D, M> {
    ghost use Rattle.tabled_printing.specs.Viewed.{walk_look};

    /// Whether line `n` of the other direction is drawn, so that it crosses this one: at most five readings.
    fn is_crossed(&self, n: usize, probes: &mut M) -> bool
        requires { n ≤ pieces_of self.now.shape self.now.line }
        ensures value { result ≡ crossed_after (all_writes self.now.cfg.now) self.now.shape self.now.line n }
        ensures probes { IsRaised 5 (M.made probes.old) (M.made probes.new) }
    {
        if let Some(sides) = self.sides {
            return sides.at(n).is_some();
        }
        let count = pieces_of(self.shape, self.line);
        self.cfg.draws(crossing_line(self.line, n), count, probes)
    }

    /// Whether a place of an edge may show something else than its edge: where an offset is kept on the line, if it is a horizontal one, or
    /// on some vertical line. At most two readings.
    #[tactic(auto, using(crate::proofs::AlikeLemmas::absent))]
    pub(crate) fn has_offsets(&self, probes: &mut M) -> bool
        ensures offsets { IsFalse result → NoOffsetsAlong self.now.cfg.now self.now.with_colors self.now.line }
        ensures probes { IsRaised 2 (M.made probes.old) (M.made probes.new) }
    {
        match self.line {
            LineOf::Horizontal(row) => {
                !has_no_offsets_at(
                    self.cfg,
                    Direction::Horizontal,
                    row,
                    self.with_colors,
                    probes,
                )
            }
            LineOf::Vertical(_) => {
                self.cfg.characters().has_vertical_offsets(probes)
                    || (self.with_colors && self.cfg.colors().has_vertical_offsets(probes))
            }
        }
    }

    /// Puts the mark of a crossing, if the other line is drawn.
    pub(crate) fn put_crossing<S: Sink<'a>>(
        &self,
        sink: &mut S,
        n: usize,
        probes: &mut M,
    ) -> Result<(), S::Error>
        requires within { n ≤ pieces_of self.now.shape self.now.line }
        ensures put { let view = walk_look D.width_of D.height_of self.now in
            Put S.puts S.leaves result (map (mark_at view) (crossing_places view self.now.line n)) sink.old sink.new }
        ensures probes { let view = walk_look D.width_of D.height_of self.now in
            IsRaised (12 * length (crossing_places view self.now.line n) + 5) (M.made probes.old) (M.made probes.new) }
    {
        if !self.is_crossed(n, probes) {
            return Ok(());
        }
        let place = crossing_of(self.line, n);
        let mark = plain_mark(self.cfg, self.shape, place, self.with_colors, probes);
        sink.put(Run { mark, count: 1 })
    }

    /// Puts the marks of the `size` places of an edge, each by itself.
    fn put_each_place<S: Sink<'a>>(
        &self,
        sink: &mut S,
        n: usize,
        size: usize,
        probes: &mut M,
    ) -> Result<(), S::Error>
        requires { size ≡ piece_size (D.width_of self.now.dims.now) (D.height_of self.now.dims.now) self.now.line n }
        ensures put { let view = walk_look D.width_of D.height_of self.now in
            Put S.puts S.leaves result (map (mark_at view) (edge_places view self.now.line n)) sink.old sink.new }
        ensures probes { IsRaised (12 * size) (M.made probes.old) (M.made probes.new) }
    {
        for at in 0..size {
            let place = edge_of(self.line, n, at);
            let mark = mark_seen(self.cfg, self.shape, place, size, self.with_colors, probes);
            sink.put(Run { mark, count: 1 })?;
        }
        Ok(())
    }

    /// Puts the marks of an edge all of whose places show the same, as no offset is kept.
    fn put_run<S: Sink<'a>>(
        &self,
        sink: &mut S,
        n: usize,
        size: usize,
        probes: &mut M,
    ) -> Result<(), S::Error>
        requires size { size ≡ piece_size (D.width_of self.now.dims.now) (D.height_of self.now.dims.now) self.now.line n }
        requires offsets { NoOffsetsAlong self.now.cfg.now self.now.with_colors self.now.line }
        ensures put { let view = walk_look D.width_of D.height_of self.now in
            Put S.puts S.leaves result (map (mark_at view) (edge_places view self.now.line n)) sink.old sink.new }
        ensures probes { IsRaised 10 (M.made probes.old) (M.made probes.new) }
    {
        let place = edge_of(self.line, n, 0);
        let mark = plain_mark(self.cfg, self.shape, place, self.with_colors, probes);
        sink.put(Run { mark, count: size })
    }

    /// Puts the marks of an edge, which is looked up if it has places.
    #[tactic(auto, using(crate::proofs::LineLemmas::edge_count))]
    fn put_edge<S: Sink<'a>>(
        &self,
        sink: &mut S,
        n: usize,
        has_offsets: bool,
        probes: &mut M,
    ) -> Result<(), S::Error>
        requires offsets { has_offsets ≡ false → NoOffsetsAlong self.now.cfg.now self.now.with_colors self.now.line }
        ensures put { let view = walk_look D.width_of D.height_of self.now in
            Put S.puts S.leaves result (map (mark_at view) (edge_places view self.now.line n)) sink.old sink.new }
        ensures probes { let view = walk_look D.width_of D.height_of self.now in
            IsRaised (12 * length (edge_places view self.now.line n)) (M.made probes.old) (M.made probes.new) }
    {
        let size = piece_size(self.dims, self.line, n);
        if size == 0 {
            return Ok(());
        }
        if has_offsets {
            return self.put_each_place(sink, n, size, probes);
        }
        self.put_run(sink, n, size, probes)
    }

    /// Puts the marks of a crossing and of the edge after it.
    pub(crate) fn put_piece<S: Sink<'a>>(
        &self,
        sink: &mut S,
        n: usize,
        has_offsets: bool,
        probes: &mut M,
    ) -> Result<(), S::Error>
        requires within { n < pieces_of self.now.shape self.now.line }
        requires offsets { has_offsets ≡ false → NoOffsetsAlong self.now.cfg.now self.now.with_colors self.now.line }
        ensures put { let view = walk_look D.width_of D.height_of self.now in
            Put S.puts S.leaves result (map (mark_at view) (piece_places view self.now.line n)) sink.old sink.new }
        ensures probes { let view = walk_look D.width_of D.height_of self.now in
            IsRaised (12 * length (piece_places view self.now.line n) + 5) (M.made probes.old) (M.made probes.new) }
    {
        self.put_crossing(sink, n, probes)?;
        self.put_edge(sink, n, has_offsets, probes)
    }

    /// Puts the marks of the line, run by run.
    #[tactic(auto, using(crate::proofs::LineLemmas::marks_closed, crate::proofs::LineLemmas::before_more_count, crate::proofs::LineLemmas::piece_fits, crate::proofs::LineLemmas::all_count, crate::proofs::LineLemmas::pieces_there))]
    pub(crate) fn put_all<S: Sink<'a>>(&self, sink: &mut S, probes: &mut M) -> Result<(), S::Error>
        ensures put { let view = walk_look D.width_of D.height_of self.now in
            Put S.puts S.leaves result (map (mark_at view) (all_places view self.now.line)) sink.old sink.new }
        ensures probes { let view = walk_look D.width_of D.height_of self.now in
            IsRaised (12 * length (all_places view self.now.line) + 6 * (pieces_of self.now.shape self.now.line + 1)) (M.made probes.old) (M.made probes.new) }
    {
        let count = pieces_of(self.shape, self.line);
        let has_offsets = self.has_offsets(probes);
        for n in 0..count {
            self.put_piece(sink, n, has_offsets, probes)?;
        }
        self.put_crossing(sink, count, probes)
    }
}
