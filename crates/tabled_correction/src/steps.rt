//! The steps of a correction: each is read off one picture and says which crossings become what.

ghost use Rattle.std.specs.Prelude.{◌≡◌, ◌++◌, ◌+◌, ◌<◌, OnOk};
ghost use Rattle.tabled_places.specs.declared.place.Place.{Place as Spot};
ghost use Rattle.tabled_correction.specs.Correction as correction;
ghost use Rattle.tabled_correction.specs.Picture.{pictured};

use crate::picture::Picture;
use tabled_border::OutOfMemory;
use tabled_grid::Place;
use tabled_object::Position;

/// Characters for crossings, in the order in which they are written.
pub(crate) type Writes = Vec<(Position, char)>;

/// Adds a crossing, where there is a character for it.
pub(crate) fn add(
    writes: &mut Writes,
    row: usize,
    col: usize,
    character: Option<char>,
) -> Result<(), OutOfMemory>
    ensures { OnOk result (writes.new.items ≡ writes.old.items ++ correction.written_at row col character) }
{
    if let Some(character) = character {
        writes.push((Position::new(row, col), character))?;
    }
    Ok(())
}

/// What becomes of a crossing on a border of a column span.
#[tactic(auto, unfolding(crate::specs::Correction::border_crossing))]
fn border_crossing(
    is_beyond: bool,
    is_first: bool,
    both: Option<char>,
    beyond: Option<char>,
    first: Option<char>,
    edge: Option<char>,
) -> Option<char>
    ensures { result ≡ correction.border_crossing is_beyond is_first both beyond first edge }
{
    match (is_beyond, is_first) {
        (true, true) => both,
        (true, false) => beyond,
        (false, true) => first,
        (false, false) => edge,
    }
}

impl Picture<'_> {
    /// The crossings that the column spans correct.
    pub(crate) fn correct_columns(&self, writes: &mut Writes) -> Result<(), OutOfMemory>
        ensures { OnOk result (writes.new.items ≡ writes.old.items ++ correction.columns_corrected (pictured self.now)) }
    {
        for (position, count) in self.cfg.get_column_spans() {
            self.add_column_span(writes, *position, *count)?;
        }
        Ok(())
    }

    /// The crossings that one column span corrects, column by column, as far as the table goes.
    #[tactic(auto, unfolding(crate::specs::Correction::column_span_step))]
    fn add_column_span(
        &self,
        writes: &mut Writes,
        position: Position,
        count: usize,
    ) -> Result<(), OutOfMemory>
        ensures { OnOk result (writes.new.items ≡ writes.old.items ++ correction.column_span_step (pictured self.now) (position, count)) }
    {
        let (rows, cols) = self.shape;
        if position.row >= rows {
            return Ok(());
        }
        for k in 0..count.min(cols.saturating_sub(position.col)) {
            let cell = Position::new(position.row, position.col + k);
            self.add_column(writes, cell, k == 0)?;
        }
        Ok(())
    }

    /// The crossings above and below one column of a span; column 0 has none.
    #[tactic(auto, unfolding(crate::specs::Correction::column_step))]
    fn add_column(
        &self,
        writes: &mut Writes,
        cell: Position,
        is_first: bool,
    ) -> Result<(), OutOfMemory>
        requires row { cell.row < (pictured self.now).shape.0 }
        requires col { cell.col < (pictured self.now).shape.1 }
        ensures { OnOk result (writes.new.items ≡ writes.old.items ++ correction.column_step (pictured self.now) is_first cell) }
    {
        if cell.col == 0 {
            return Ok(());
        }
        self.add_above(writes, cell, is_first)?;
        self.add_below(writes, cell, is_first)
    }

    /// The one above a column of a span.
    #[tactic(auto, unfolding(crate::specs::Correction::at_edge))]
    fn add_above(
        &self,
        writes: &mut Writes,
        cell: Position,
        is_first: bool,
    ) -> Result<(), OutOfMemory>
        ensures { OnOk result (writes.new.items ≡ writes.old.items ++ correction.at_edge (pictured self.now) cell.row cell.col
            (correction.border_crossing (correction.left_above (pictured self.now) cell) is_first (pictured self.now).class.intersection (pictured self.now).class.bottom_intersection (pictured self.now).class.top_intersection ((pictured self.now).shown (Spot.Horizontal cell.row cell.col 0)))) }
    {
        let (row, col) = (cell.row, cell.col);
        let edge = self.shown(Place::Horizontal { row, col, at: 0 });
        if edge.is_none() || self.shown(Place::Cross { row, col }).is_none() {
            return Ok(());
        }
        let class = self.class();
        let becomes = border_crossing(
            self.has_left_above(cell),
            is_first,
            class.intersection,
            class.bottom_intersection,
            class.top_intersection,
            edge,
        );
        add(writes, row, col, becomes)
    }

    /// The one below a column of a span.
    #[tactic(auto, unfolding(crate::specs::Correction::at_edge))]
    fn add_below(
        &self,
        writes: &mut Writes,
        cell: Position,
        is_first: bool,
    ) -> Result<(), OutOfMemory>
        requires row { cell.row < (pictured self.now).shape.0 }
        requires col { cell.col < (pictured self.now).shape.1 }
        ensures { OnOk result (writes.new.items ≡ writes.old.items ++ correction.at_edge (pictured self.now) (cell.row + 1) cell.col
            (correction.border_crossing (correction.left_below (pictured self.now) cell) is_first (pictured self.now).class.intersection (pictured self.now).class.top_intersection (pictured self.now).class.bottom_intersection ((pictured self.now).shown (Spot.Horizontal (cell.row + 1) cell.col 0)))) }
    {
        let (row, col) = (cell.row + 1, cell.col);
        let edge = self.shown(Place::Horizontal { row, col, at: 0 });
        if edge.is_none() || self.shown(Place::Cross { row, col }).is_none() {
            return Ok(());
        }
        let class = self.class();
        let becomes = border_crossing(
            self.has_left_below(cell),
            is_first,
            class.intersection,
            class.top_intersection,
            class.bottom_intersection,
            edge,
        );
        add(writes, row, col, becomes)
    }

    /// The crossings that the row spans correct.
    pub(crate) fn correct_rows(&self, writes: &mut Writes) -> Result<(), OutOfMemory>
        ensures { OnOk result (writes.new.items ≡ writes.old.items ++ correction.rows_corrected (pictured self.now)) }
    {
        for (position, count) in self.cfg.get_row_spans() {
            self.add_row_span(writes, *position, *count)?;
        }
        Ok(())
    }

    /// The crossings that one row span corrects, row by row after its first, as far as the table goes.
    #[tactic(auto, unfolding(crate::specs::Correction::row_span_step))]
    fn add_row_span(
        &self,
        writes: &mut Writes,
        position: Position,
        count: usize,
    ) -> Result<(), OutOfMemory>
        ensures { OnOk result (writes.new.items ≡ writes.old.items ++ correction.row_span_step (pictured self.now) (position, count)) }
    {
        let (rows, cols) = self.shape;
        if position.col >= cols {
            return Ok(());
        }
        let further = rows.saturating_sub(position.row).saturating_sub(1);
        for k in 0..count.saturating_sub(1).min(further) {
            self.add_row(writes, Position::new(position.row + 1 + k, position.col))?;
        }
        Ok(())
    }

    /// The crossings at the left and the right of one row of a span.
    #[tactic(auto, unfolding(crate::specs::Correction::row_step))]
    fn add_row(&self, writes: &mut Writes, cell: Position) -> Result<(), OutOfMemory>
        requires row { cell.row < (pictured self.now).shape.0 }
        requires col { cell.col < (pictured self.now).shape.1 }
        ensures { OnOk result (writes.new.items ≡ writes.old.items ++ correction.row_step (pictured self.now) cell) }
    {
        let (row, col) = (cell.row, cell.col);
        let class = self.class();
        if self.shown(Place::Cross { row, col }).is_some() {
            let joins = self.has_top_at_left(cell);
            add(
                writes,
                row,
                col,
                if joins {
                    class.right_intersection
                } else {
                    class.vertical
                },
            )?;
        }
        if self.shown(Place::Cross { row, col: col + 1 }).is_some() {
            let joins = self.has_top_at_right(cell);
            add(
                writes,
                row,
                col + 1,
                if joins {
                    class.left_intersection
                } else {
                    class.vertical
                },
            )?;
        }
        Ok(())
    }

    /// The crossings beside the cells that both spans of a cell cover.
    pub(crate) fn correct_inner(&self, writes: &mut Writes) -> Result<(), OutOfMemory>
        ensures { OnOk result (writes.new.items ≡ writes.old.items ++ correction.inner_corrected (pictured self.now)) }
    {
        for cell in &self.covered.by_both {
            self.add_inner(writes, *cell)?;
        }
        Ok(())
    }

    /// The crossings beside a cell that both spans of another cover.
    #[tactic(auto, unfolding(crate::specs::Correction::inner_step))]
    pub(crate) fn add_inner(&self, writes: &mut Writes, cell: Position) -> Result<(), OutOfMemory>
        requires row { cell.row < (pictured self.now).shape.0 }
        requires col { cell.col < (pictured self.now).shape.1 }
        ensures { OnOk result (writes.new.items ≡ writes.old.items ++ correction.inner_step (pictured self.now) cell) }
    {
        let (row, col) = (cell.row, cell.col);
        let class = self.class();
        let above = self.has_left_above(cell);
        let right = self.has_top_at_right(cell);
        let below = self.has_left_below(cell);
        if above && !right {
            add(writes, row, col + 1, class.right_intersection)?;
        }
        if right && !above {
            add(writes, row, col + 1, class.left_intersection)?;
        }
        if below {
            add(writes, row + 1, col, class.top_intersection)?;
        }
        if !(above || right || below) {
            add(writes, row, col + 1, class.vertical)?;
            add(writes, row + 1, col, class.bottom)?;
        }
        Ok(())
    }
}
