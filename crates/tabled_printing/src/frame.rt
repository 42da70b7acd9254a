//! What stands around the cells of a table: its lines, and what its vertical lines show beside rows.

ghost use Rattle.std.specs.Prelude.{◌≡◌, ◌↔◌, ◌+◌, ◌*◌, ◌≤◌, ◌<◌, ◌++◌, true, false, IsTrue, IsFalse, IfOk, length, map, option_map};
ghost use Rattle.std.specs.Coded.{codes};
ghost use Rattle.std.specs.FinMap as finmap;
ghost use Rattle.tabled_places.specs.declared.place.LineOf.{LineOf as Line};
ghost use Rattle.tabled_places.specs.declared.place.Place.{Place as Spot};
ghost use Rattle.tabled_places.specs.declared.site.Direction.TheVariants.{Vertical};
ghost use Rattle.tabled_kept.specs.Probing.{IsRaised};
ghost use Rattle.tabled_object.specs.Entities.{below};
ghost use Rattle.tabled_printing.specs.Along.{is_empty};
ghost use Rattle.tabled_printing.specs.Alike.{IsBareLine, NoOffsetsAt, NoneForColumns};
ghost use Rattle.tabled_printing.specs.Marks.{mark_of};
ghost use Rattle.tabled_printing.specs.Picture.{mark_at, marks_along};
ghost use Rattle.tabled_printing.specs.Beside.{mark_beside, mark_if_drawn, plain_mark};
ghost use Rattle.tabled_printing.specs.Sides.{AreSides};
ghost use Rattle.tabled_printing.specs.Sinks.{Put};

use crate::alike::{has_no_offsets_at, has_none_for_cells, has_none_for_columns, has_none_on};
use crate::mark::{mark_seen, plain_mark};
use crate::sink::Sink;
use crate::walk::Walk;
use crate::{Mark, RowSides, Run};
use tabled_border::OutOfMemory;
use tabled_configuration::SpannedConfig;
use tabled_grid::{Direction, LineOf, Place};
use tabled_kept::{Meter, Probes};
use tabled_object::Dimension;

/// What a line shows whose edges look alike, and whose crossings do between the first one and the last one.
#[derive(Clone, Copy, Debug)]
struct Looks<'a> {
    edge: Mark<'a>,
    first: Mark<'a>,
    inner: Mark<'a>,
    last: Mark<'a>,
}

/// A table that has places, as its configuration and its sizes frame it. What repeats is looked up when it is made.
#[derive(Drop)]
pub struct Frame<'a, 'b, D, M = Probes> {
    /// The configuration.
    pub cfg: &'a SpannedConfig<M>,
    /// How wide the columns are and how high the rows.
    pub dims: &'b D,
    /// The number of rows and of columns.
    pub shape: (usize, usize),
    /// Whether colors are wanted.
    pub with_colors: bool,
    /// What vertical lines show beside rows.
    pub sides: RowSides<'a>,
    /// Whether no vertical line is a custom one.
    pub has_plain_columns: bool,
    ghost has_places: { is_empty shape ≡ false },
    ghost are_sides: { AreSides cfg.now with_colors shape sides } by { Prim.hlevel (codes, finmap.code) },
    ghost sides_end: { sides.last ≡ shape.1 },
    ghost plain_columns: { has_plain_columns ≡ true ↔ NoneForColumns cfg.now with_colors } by { Prim.hlevel (codes, finmap.code) },
}

impl<'a, 'b, D: Dimension> Frame<'a, 'b, D> {
    ghost use Rattle.tabled_printing.specs.Viewed.{frame_look};

    /// Makes the frame of a table that has rows and columns.
    pub fn new(
        cfg: &'a SpannedConfig,
        dims: &'b D,
        shape: (usize, usize),
        with_colors: bool,
    ) -> Result<Self, OutOfMemory>
        requires { is_empty shape ≡ false }
        ensures cfg { IfOk result (λ frame. frame.cfg ≡ cfg.entry) }
        ensures dims { IfOk result (λ frame. frame.dims ≡ dims.entry) }
        ensures shape { IfOk result (λ frame. frame.shape ≡ shape) }
        ensures with_colors { IfOk result (λ frame. frame.with_colors ≡ with_colors) }
    {
        let has_plain_columns = has_none_for_columns(cfg, with_colors);
        let by_rank = has_plain_columns && has_none_for_cells(cfg, with_colors);
        let sides = RowSides::of(cfg, shape, with_colors, by_rank)?;
        Ok(Frame {
            cfg,
            dims,
            shape,
            with_colors,
            sides,
            has_plain_columns,
        })
    }

    /// Returns whether a horizontal line is drawn.
    #[tactic(auto, using(crate::proofs::LookLemmas::kept_drawn))]
    pub fn draws(&self, row: usize) -> bool
        ensures { result ≡ (frame_look D.width_of D.height_of self.now).horizontal row }
    {
        let (rows, _) = self.shape;
        self.cfg.has_horizontal(row, rows)
    }

    /// What a vertical line shows at one line of text of a row, looked up there.
    fn side_seen(&self, row: usize, col: usize, at: usize) -> Mark<'a>
        ensures { mark_of result ≡ mark_at (frame_look D.width_of D.height_of self.now) (Spot.Vertical row col at) }
    {
        let place = Place::Vertical { row, col, at };
        let size = self.dims.get_height(row);
        let probes = &mut Probes::new();
        mark_seen(self.cfg, self.shape, place, size, self.with_colors, probes)
    }

    /// Returns whether something is kept at an offset of a vertical line beside a row.
    pub fn has_offsets_beside(&self, row: usize) -> bool
        ensures { IsFalse result ↔ NoOffsetsAt self.now.cfg.now self.now.with_colors Vertical row }
    {
        let probes = &mut Probes::new();
        !has_no_offsets_at(self.cfg, Direction::Vertical, row, self.with_colors, probes)
    }

    /// Returns what a vertical line shows at line `at` of the text of a row, if the line is drawn, where it is known whether the row has
    /// offsets.
    #[inline(always)]
    #[tactic(auto, using(crate::proofs::AlikeLemmas::side_drawn, crate::proofs::AlikeLemmas::drawn_mark, crate::proofs::AlikeLemmas::side_as_first))]
    pub fn side(&self, row: usize, col: usize, at: usize, has_offsets: bool) -> Option<Mark<'a>>
        requires row { row < self.now.shape.0 }
        requires col { col ≤ self.now.shape.1 }
        requires at { at < D.height_of self.now.dims.now row }
        requires offsets { has_offsets ≡ false → NoOffsetsAt self.now.cfg.now self.now.with_colors Vertical row }
        ensures { option_map mark_of result ≡ mark_beside (frame_look D.width_of D.height_of self.now) row at col }
    {
        let side = (*self.sides.at(col))?;
        if side.is_alike && !has_offsets {
            return Some(side.mark);
        }
        Some(self.side_seen(row, col, at))
    }

    /// Returns how many bytes the characters of the vertical lines take beside one line of text of the first row. It saturates.
    pub fn side_bytes(&self) -> usize {
        self.sides.bytes()
    }

    /// Returns how many columns the table is long with its lines. Refused where no number says it.
    pub fn count_columns(&self) -> Result<usize, OutOfMemory>
        ensures { IfOk result (λ count. count ≡ length (marks_along (frame_look D.width_of D.height_of self.now) (Line.Horizontal 0))) }
    {
        let mut count = 0usize;
        self.put_line(0, &mut count, &mut Probes::new())?;
        Ok(count)
    }

    /// Returns how many lines of text the table is high. Refused where no number says it.
    pub fn count_lines(&self) -> Result<usize, OutOfMemory>
        ensures { IfOk result (λ count. count ≡ length (marks_along (frame_look D.width_of D.height_of self.now) (Line.Vertical 0))) }
    {
        let walk = Walk {
            cfg: self.cfg,
            dims: self.dims,
            shape: self.shape,
            line: LineOf::Vertical(0),
            sides: None,
            with_colors: self.with_colors,
        };
        let mut count = 0usize;
        walk.put_all(&mut count, &mut Probes::new())?;
        Ok(count)
    }
}

/// What is looked up for every type of meters, each reading by the one that is lent.
impl<'a, 'b, D: Dimension, M: Meter> Frame<'a, 'b, D, M> {
    ghost use Rattle.tabled_printing.specs.Viewed.{frame_look};

    /// Returns whether nothing is kept for a single place of a horizontal line, so that its edges look alike: at most four readings.
    pub fn is_bare_line(&self, row: usize, probes: &mut M) -> bool
        ensures value { IsTrue result ↔ IsBareLine self.now.cfg.now self.now.with_colors row }
        ensures probes { IsRaised 4 (M.made probes.old) (M.made probes.new) }
    {
        let line = LineOf::Horizontal(row);
        has_none_on(self.cfg, line, self.with_colors, probes)
            && has_no_offsets_at(
                self.cfg,
                Direction::Horizontal,
                row,
                self.with_colors,
                probes,
            )
    }

    /// What a horizontal line shows whose edges look alike, and whose crossings do between the first one and the last one.
    fn looks(&self, row: usize, probes: &mut M) -> Looks<'a>
        ensures edge { mark_of result.edge ≡ plain_mark self.now.cfg.now self.now.with_colors self.now.shape (Spot.Horizontal row 0 0) }
        ensures first { mark_of result.first ≡ plain_mark self.now.cfg.now self.now.with_colors self.now.shape (Spot.Cross row 0) }
        ensures inner { mark_of result.inner ≡ plain_mark self.now.cfg.now self.now.with_colors self.now.shape (Spot.Cross row 1) }
        ensures last { mark_of result.last ≡ plain_mark self.now.cfg.now self.now.with_colors self.now.shape (Spot.Cross row self.now.shape.1) }
        ensures probes { IsRaised 40 (M.made probes.old) (M.made probes.new) }
    {
        let (_, last) = self.shape;
        Looks {
            edge: self.plain(Place::Horizontal { row, col: 0, at: 0 }, probes),
            first: self.plain(Place::Cross { row, col: 0 }, probes),
            inner: self.plain(Place::Cross { row, col: 1 }, probes),
            last: self.plain(Place::Cross { row, col: last }, probes),
        }
    }

    /// What is kept for a place without its offsets.
    fn plain(&self, place: Place, probes: &mut M) -> Mark<'a>
        ensures mark { mark_of result ≡ plain_mark self.now.cfg.now self.now.with_colors self.now.shape place }
        ensures probes { IsRaised 10 (M.made probes.old) (M.made probes.new) }
    {
        plain_mark(self.cfg, self.shape, place, self.with_colors, probes)
    }

    /// Puts a mark for the crossing with a vertical line, if that line is drawn.
    fn put_crossing<S: Sink<'a>>(
        &self,
        sink: &mut S,
        col: usize,
        mark: Mark<'a>,
    ) -> Result<(), S::Error>
        requires { col ≤ self.now.shape.1 }
        ensures { Put S.puts S.leaves result (mark_if_drawn (frame_look D.width_of D.height_of self.now) col (mark_of mark.entry)) sink.old sink.new }
    {
        if self.sides.at(col).is_none() {
            return Ok(());
        }
        sink.put(Run { mark, count: 1 })
    }

    /// Puts a mark for a crossing, if it is there, and another for each place of the edge after it.
    #[inline(always)]
    fn put_piece<S: Sink<'a>>(
        &self,
        sink: &mut S,
        col: usize,
        crossing: Mark<'a>,
        edge: Mark<'a>,
    ) -> Result<(), S::Error>
        requires { col ≤ self.now.shape.1 }
        ensures { let view = frame_look D.width_of D.height_of self.now in
            Put S.puts S.leaves result (mark_if_drawn view col (mark_of crossing.entry) ++ map (λ _. mark_of edge.entry) (below (view.widths col))) sink.old sink.new }
    {
        let count = self.dims.get_width(col);
        let run = Run { mark: edge, count };
        if self.sides.at(col).is_none() {
            return sink.put(run);
        }
        sink.put_after(crossing, run)
    }

    /// Puts the marks of a horizontal line of which four are looked up.
    fn put_alike<S: Sink<'a>>(
        &self,
        row: usize,
        sink: &mut S,
        probes: &mut M,
    ) -> Result<(), S::Error>
        requires row { row ≤ self.now.shape.0 }
        requires alike { IsBareLine self.now.cfg.now self.now.with_colors row }
        requires plain { self.now.has_plain_columns ≡ true }
        ensures put { Put S.puts S.leaves result (marks_along (frame_look D.width_of D.height_of self.now) (Line.Horizontal row)) sink.old sink.new }
        ensures probes { IsRaised 40 (M.made probes.old) (M.made probes.new) }
    {
        let (_, cols) = self.shape;
        let looks = self.looks(row, probes);
        let mut crossing = looks.first;
        for col in 0..cols {
            self.put_piece(sink, col, crossing, looks.edge)?;
            crossing = looks.inner;
        }
        self.put_crossing(sink, cols, looks.last)
    }

    /// Puts the marks of a horizontal line, drawn or not. At most twelve readings are made for each place, six for each
    /// vertical line and 45 for the line; where nothing is kept for single places of it and no vertical line is a custom one, 45
    /// in all. Refused only by the sink.
    pub fn put_line<S: Sink<'a>>(
        &self,
        row: usize,
        sink: &mut S,
        probes: &mut M,
    ) -> Result<(), S::Error>
        requires { row ≤ self.now.shape.0 }
        ensures put { Put S.puts S.leaves result (marks_along (frame_look D.width_of D.height_of self.now) (Line.Horizontal row)) sink.old sink.new }
        ensures probes { IsRaised (12 * length (marks_along (frame_look D.width_of D.height_of self.now) (Line.Horizontal row)) + 6 * (self.now.shape.1 + 1) + 45) (M.made probes.old) (M.made probes.new) }
        ensures looked_up_once { IsBareLine self.now.cfg.now self.now.with_colors row → NoneForColumns self.now.cfg.now self.now.with_colors → IsRaised 45 (M.made probes.old) (M.made probes.new) }
    {
        let is_bare = self.is_bare_line(row, probes);
        if is_bare && self.has_plain_columns {
            return self.put_alike(row, sink, probes);
        }
        let walk = Walk {
            cfg: self.cfg,
            dims: self.dims,
            shape: self.shape,
            line: LineOf::Horizontal(row),
            sides: Some(&self.sides),
            with_colors: self.with_colors,
        };
        walk.put_all(sink, probes)
    }
}
