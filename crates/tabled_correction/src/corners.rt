//! Which crossings become what, by the edges that meet there.

ghost use Rattle.std.specs.Prelude.{◌≡◌, ◌++◌, ◌≤◌, OnOk};
ghost use Rattle.tabled_places.specs.declared.place.Place.{Place as Spot};
ghost use Rattle.tabled_object.specs.Entities.{position};
ghost use Rattle.tabled_correction.specs.Correction.{where_so};
ghost use Rattle.tabled_correction.specs.Corners as corners;
ghost use Rattle.tabled_correction.specs.Picture.{pictured};

use crate::picture::Picture;
use crate::steps::{Writes, add};
use tabled_border::OutOfMemory;
use tabled_boxes::{Edges, joined};
use tabled_grid::Place;
use tabled_object::Position;

impl Picture<'_> {
    /// Whether a span hides the edge at the left of a cell; one outside the table has none to hide.
    #[tactic(auto, unfolding(crate::specs::Corners::is_left_hidden))]
    fn is_left_hidden(&self, cell: Position) -> bool
        ensures { result ≡ corners.is_left_hidden (pictured self.now) cell }
    {
        self.has_cell(cell) && self.is_covered_in_row(cell)
    }

    /// Whether a span hides the edge above a cell.
    #[tactic(auto, unfolding(crate::specs::Corners::is_top_hidden))]
    fn is_top_hidden(&self, cell: Position) -> bool
        ensures { result ≡ corners.is_top_hidden (pictured self.now) cell }
    {
        self.has_cell(cell) && self.is_covered_in_column(cell)
    }

    /// What shows at the left of a cell, where no span hides it.
    #[tactic(auto, unfolding(crate::specs::Corners::left_edge))]
    fn left_edge(&self, row: usize, col: usize) -> Option<char>
        ensures { result ≡ corners.left_edge (pictured self.now) (position row col) }
    {
        if self.is_left_hidden(Position::new(row, col)) {
            None
        } else {
            self.shown(Place::Vertical { row, col, at: 0 })
        }
    }

    /// What shows above a cell, where no span hides it.
    #[tactic(auto, unfolding(crate::specs::Corners::top_edge))]
    fn top_edge(&self, row: usize, col: usize) -> Option<char>
        ensures { result ≡ corners.top_edge (pictured self.now) (position row col) }
    {
        if self.is_top_hidden(Position::new(row, col)) {
            None
        } else {
            self.shown(Place::Horizontal { row, col, at: 0 })
        }
    }

    /// What shows above a crossing.
    fn edge_above(&self, row: usize, col: usize) -> Option<char>
        ensures { result ≡ corners.edge_above (pictured self.now) row col }
    {
        if row == 0 {
            None
        } else {
            self.left_edge(row - 1, col)
        }
    }

    /// What shows at the left of a crossing.
    fn edge_at_left(&self, row: usize, col: usize) -> Option<char>
        ensures { result ≡ corners.edge_at_left (pictured self.now) row col }
    {
        if col == 0 {
            None
        } else {
            self.top_edge(row, col - 1)
        }
    }

    /// The edges that meet at a crossing.
    fn edges_at(&self, row: usize, col: usize) -> Edges
        ensures { result ≡ corners.edges_at (pictured self.now) row col }
    {
        Edges {
            above: self.edge_above(row, col),
            below: self.left_edge(row, col),
            left: self.edge_at_left(row, col),
            right: self.top_edge(row, col),
        }
    }

    /// Adds a crossing, where it becomes another one.
    #[tactic(auto, unfolding(crate::specs::Corners::became, crate::specs::Corners::corner_step))]
    fn join_corner(&self, writes: &mut Writes, row: usize, col: usize) -> Result<(), OutOfMemory>
        ensures { OnOk result (writes.new.items ≡ writes.old.items ++ corners.corner_step (pictured self.now) row col) }
    {
        let before = self.shown(Place::Cross { row, col });
        let after = joined(before, self.edges_at(row, col));
        if after == before {
            return Ok(());
        }
        add(writes, row, col, after)
    }

    /// Whether a vertical line is drawn.
    fn is_vertical_drawn(&self, col: usize) -> bool
        ensures { result ≡ corners.vertical_drawn self.now.shape self.now.cfg.now col }
    {
        self.cfg.has_vertical(col, self.shape.1)
    }

    /// Whether a horizontal line is drawn.
    fn is_horizontal_drawn(&self, row: usize) -> bool
        ensures { result ≡ corners.horizontal_drawn self.now.shape self.now.cfg.now row }
    {
        self.cfg.has_horizontal(row, self.shape.0)
    }

    /// Adds the crossing of a horizontal line with a vertical one, where that is drawn.
    fn join_on_line(&self, writes: &mut Writes, row: usize, col: usize) -> Result<(), OutOfMemory>
        ensures { OnOk result (writes.new.items ≡ writes.old.items ++ where_so (corners.vertical_drawn self.now.shape self.now.cfg.now col) (corners.corner_step (pictured self.now) row col)) }
    {
        if self.is_vertical_drawn(col) {
            self.join_corner(writes, row, col)?;
        }
        Ok(())
    }

    /// Adds the crossings of a horizontal line, where that is drawn.
    fn join_line(&self, writes: &mut Writes, row: usize) -> Result<(), OutOfMemory>
        ensures { OnOk result (writes.new.items ≡ writes.old.items ++ corners.line_joined (pictured self.now) (corners.horizontal_drawn self.now.shape self.now.cfg.now) (corners.vertical_drawn self.now.shape self.now.cfg.now) row) }
    {
        if !self.is_horizontal_drawn(row) {
            return Ok(());
        }
        let cols = self.shape.1;
        for col in 0..cols {
            self.join_on_line(writes, row, col)?;
        }
        self.join_on_line(writes, row, cols)
    }

    /// Adds the crossings that become others, in row order.
    pub(crate) fn join_corners(&self, writes: &mut Writes) -> Result<(), OutOfMemory>
        ensures { OnOk result (writes.new.items ≡ writes.old.items ++ corners.joined_corners (pictured self.now) (corners.horizontal_drawn self.now.shape self.now.cfg.now) (corners.vertical_drawn self.now.shape self.now.cfg.now)) }
    {
        let rows = self.shape.0;
        for row in 0..rows {
            self.join_line(writes, row)?;
        }
        self.join_line(writes, rows)
    }
}
