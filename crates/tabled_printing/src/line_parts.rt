//! Parts of a horizontal line, for who puts something else in the place of others.

ghost use Rattle.std.specs.Prelude.{◌≤◌, ◌<◌, ◌+◌, ◌*◌, length, map};
ghost use Rattle.tabled_places.specs.declared.place.LineOf.{LineOf as Line};
ghost use Rattle.tabled_kept.specs.Probing.{IsRaised};
ghost use Rattle.tabled_printing.specs.LinePieces.{crossing_places, piece_places};
ghost use Rattle.tabled_printing.specs.Picture.{mark_at};
ghost use Rattle.tabled_printing.specs.Sinks.{Put};

use crate::Frame;
use crate::sink::Sink;
use crate::walk::Walk;
use tabled_grid::LineOf;
use tabled_kept::Meter;
use tabled_object::Dimension;

impl<'a, 'b, D: Dimension, M: Meter> Frame<'a, 'b, D, M> {
    ghost use Rattle.tabled_printing.specs.Viewed.{frame_look};

    /// Puts the mark of the crossing of a horizontal line, drawn or not, with a vertical one, if that is drawn: at most 17 readings.
    /// Refused only by the sink.
    pub fn put_line_crossing<S: Sink<'a>>(
        &self,
        row: usize,
        col: usize,
        sink: &mut S,
        probes: &mut M,
    ) -> Result<(), S::Error>
        requires row { row ≤ self.now.shape.0 }
        requires col { col ≤ self.now.shape.1 }
        ensures put { let view = frame_look D.width_of D.height_of self.now in
            Put S.puts S.leaves result (map (mark_at view) (crossing_places view (Line.Horizontal row) col)) sink.old sink.new }
        ensures probes { let view = frame_look D.width_of D.height_of self.now in
            IsRaised (12 * length (crossing_places view (Line.Horizontal row) col) + 5) (M.made probes.old) (M.made probes.new) }
    {
        let walk = Walk {
            cfg: self.cfg,
            dims: self.dims,
            shape: self.shape,
            line: LineOf::Horizontal(row),
            sides: Some(&self.sides),
            with_colors: self.with_colors,
        };
        walk.put_crossing(sink, col, probes)
    }

    /// Puts the marks of that crossing and of the places of the line over the column after it: at most twelve readings for each, and seven
    /// for both. Refused only by the sink.
    pub fn put_line_piece<S: Sink<'a>>(
        &self,
        row: usize,
        col: usize,
        sink: &mut S,
        probes: &mut M,
    ) -> Result<(), S::Error>
        requires row { row ≤ self.now.shape.0 }
        requires col { col < self.now.shape.1 }
        ensures put { let view = frame_look D.width_of D.height_of self.now in
            Put S.puts S.leaves result (map (mark_at view) (piece_places view (Line.Horizontal row) col)) sink.old sink.new }
        ensures probes { let view = frame_look D.width_of D.height_of self.now in
            IsRaised (12 * length (piece_places view (Line.Horizontal row) col) + 7) (M.made probes.old) (M.made probes.new) }
    {
        let walk = Walk {
            cfg: self.cfg,
            dims: self.dims,
            shape: self.shape,
            line: LineOf::Horizontal(row),
            sides: Some(&self.sides),
            with_colors: self.with_colors,
        };
        let has_offsets = walk.has_offsets(probes);
        walk.put_piece(sink, col, has_offsets, probes)
    }
}
