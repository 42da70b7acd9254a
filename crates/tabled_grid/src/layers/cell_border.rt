//! The border of one cell: its sides and corners, written, erased and read together.

ghost use Rattle.std.specs.Prelude.{◌≡◌, [], ◌∷◌, OnOk, OnErr, IsTrue, option_copied, option_map, option_and_then};
ghost use Rattle.tabled_places.specs.Calls.{border_set};
ghost use Rattle.tabled_places.specs.Writes.{writes_made};
ghost use Rattle.tabled_places.specs.declared.writes.Target.{Target};
ghost use Rattle.tabled_places.specs.CellBorder.{next_line, side_horizontal, side_vertical, corner, border_places, border_shown};

use super::Layers;
use super::writes::Group;
use crate::{Border, OutOfMemory, Place, Position, Target, Write};

/// Four writes, as two groups.
type Four<T> = ((Write<T>, Write<T>), (Write<T>, Write<T>));

impl<T> Layers<T> {
    ghost use Rattle.tabled_places.specs.Event.{Changes};
    ghost use Rattle.tabled_places.specs.Value.{plain_value};
    ghost use Rattle.tabled_places.specs.State.{state_at};
    ghost use Rattle.tabled_places.specs.Calls.{writes_anew, border_erased, places_erased};

    /// Writes what the border gives at the cell level of a cell's sides and corners, whatever the shape of the table. What it does
    /// not give stays as it is, and past the last number of a line nothing is written. Where memory is refused nothing changes;
    /// where something stood at each of these places, none is asked for.
    pub fn set_border(&mut self, pos: Position, border: Border<T>) -> Result<(), OutOfMemory>
    where
        T: Drop,
        ensures ok { OnOk result (Changes (border_set pos border) (state_at self.old) (state_at self.new)) }
        ensures err { OnErr result (self.new ≡ self.old) }
        ensures absent { OnErr result (IsTrue (writes_anew (state_at self.old) (border_set pos border))) }
    {
        writes_around(pos, border).exchange(self)
    }

    /// Erases the cell level of the sides and the corners of a cell, also of those that it shares with the cells beside it.
    pub fn erase_border(&mut self, pos: Position)
    where
        T: Drop,
        ensures { Changes (border_erased pos) (state_at self.old) (state_at self.new) }
    {
        let places = places(pos);
        self.erase_place(places.top);
        self.erase_place(places.bottom);
        self.erase_place(places.left);
        self.erase_place(places.right);
        self.erase_place(places.left_top_corner);
        self.erase_place(places.left_bottom_corner);
        self.erase_place(places.right_top_corner);
        self.erase_place(places.right_bottom_corner);
    }

    /// Erases the cell level of a place, where there is one.
    fn erase_place(&mut self, place: Option<Place>)
    where
        T: Drop,
        ensures { Changes (places_erased (place ∷ [])) (state_at self.old) (state_at self.new) }
    {
        if let Some(place) = place {
            self.erase_cell(place);
        }
    }

    /// Returns what shows at the sides and the corners of a cell in a table of `shape.0` rows and `shape.1` columns,
    /// without the offsets: each as `plain_at` returns it. A cell outside has nothing.
    #[tactic(auto, unfolding(tabled_places::specs::CellBorder::border_shown))]
    pub fn get_border(&self, pos: Position, shape: (usize, usize)) -> Border<&T>
        ensures { record {
          top = option_copied result.top;
          bottom = option_copied result.bottom;
          left = option_copied result.left;
          right = option_copied result.right;
          left_top_corner = option_copied result.left_top_corner;
          left_bottom_corner = option_copied result.left_bottom_corner;
          right_top_corner = option_copied result.right_top_corner;
          right_bottom_corner = option_copied result.right_bottom_corner;
        } ≡ border_shown (state_at self.now) shape pos }
    {
        if pos.row >= shape.0 || pos.col >= shape.1 {
            return Border::empty();
        }
        let places = places(pos);
        Border {
            top: self.shown(places.top, shape),
            bottom: self.shown(places.bottom, shape),
            left: self.shown(places.left, shape),
            right: self.shown(places.right, shape),
            left_top_corner: self.shown(places.left_top_corner, shape),
            left_bottom_corner: self.shown(places.left_bottom_corner, shape),
            right_top_corner: self.shown(places.right_top_corner, shape),
            right_bottom_corner: self.shown(places.right_bottom_corner, shape),
        }
    }

    /// What shows at a place, where there is one.
    fn shown(&self, place: Option<Place>, shape: (usize, usize)) -> Option<&T>
        ensures { option_copied result ≡ option_and_then (plain_value (state_at self.now) shape) place }
    {
        self.plain_at(place?, shape)
    }
}

/// The writes of a border at the sides and the corners of a cell.
pub(super) fn writes_around<T>(pos: Position, border: Border<T>) -> (Four<T>, Four<T>)
    ensures { writes_made (result.0.0.0 ∷ result.0.0.1 ∷ result.0.1.0 ∷ result.0.1.1 ∷ result.1.0.0 ∷ result.1.0.1 ∷ result.1.1.0 ∷ result.1.1.1 ∷ [])
        ≡ border_set pos border }
{
    let places = places(pos);
    let sides = (
        (
            write_at(places.top, border.top),
            write_at(places.bottom, border.bottom),
        ),
        (
            write_at(places.left, border.left),
            write_at(places.right, border.right),
        ),
    );
    let corners = (
        (
            write_at(places.left_top_corner, border.left_top_corner),
            write_at(places.left_bottom_corner, border.left_bottom_corner),
        ),
        (
            write_at(places.right_top_corner, border.right_top_corner),
            write_at(places.right_bottom_corner, border.right_bottom_corner),
        ),
    );
    (sides, corners)
}

/// A write at the cell level of a place, where there is one.
fn write_at<T>(place: Option<Place>, value: Option<T>) -> Write<T>
    ensures { result ≡ record { target = option_map Target.Cell place; value = value } }
{
    Write {
        target: place.map(Target::Cell),
        value,
    }
}

/// The places of a cell's sides and corners. Past the last number of a line there are none.
fn places(pos: Position) -> Border<Place>
    ensures { result ≡ border_places pos }
{
    let Position { row, col } = pos;
    let below = next(row);
    let after = next(col);
    Border {
        top: horizontal(Some(row), col),
        bottom: horizontal(below, col),
        left: vertical(row, Some(col)),
        right: vertical(row, after),
        left_top_corner: cross(Some(row), Some(col)),
        left_bottom_corner: cross(below, Some(col)),
        right_top_corner: cross(Some(row), after),
        right_bottom_corner: cross(below, after),
    }
}

/// The number of the next line, where it has one.
fn next(line: usize) -> Option<usize>
    ensures { result ≡ next_line line }
{
    line.checked_add(1)
}

fn horizontal(row: Option<usize>, col: usize) -> Option<Place>
    ensures { result ≡ side_horizontal row col }
{
    let row = row?;
    Some(Place::Horizontal { row, col, at: 0 })
}

fn vertical(row: usize, col: Option<usize>) -> Option<Place>
    ensures { result ≡ side_vertical row col }
{
    let col = col?;
    Some(Place::Vertical { row, col, at: 0 })
}

fn cross(row: Option<usize>, col: Option<usize>) -> Option<Place>
    ensures { result ≡ corner row col }
{
    let row = row?;
    let col = col?;
    Some(Place::Cross { row, col })
}
