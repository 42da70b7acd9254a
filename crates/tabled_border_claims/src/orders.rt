//! The orders of values: by variants and by fields, as they stand in their types.

ghost use Rattle.std.specs.Prelude.{◌≡◌, ℕ};
ghost use Rattle.std.specs.Cmp.Lexicographic.{slice_cmp};
ghost use Rattle.std.specs.Ordering.{bool_cmp, nat_cmp, ordering_then};
ghost use Rattle.std.specs.declared.cmp.Ordering.TheVariants.{Less};
ghost use Rattle.tabled_border.specs.Texts.{Texts};
ghost use Rattle.tabled_border.specs.declared.border.Border.{Border as Eight};
ghost use Rattle.tabled_object.specs.declared.entity.Entity.TheVariants as cells;
ghost use Rattle.tabled_object.specs.declared.position.Position.{Position as At};
ghost use Rattle.tabled_object.specs.declared.records.Shape.{Shape as Counts};
ghost use Rattle.tabled_settings.specs.declared.alignment.AlignmentHorizontal.TheVariants as horizontally;
ghost use Rattle.tabled_settings.specs.declared.alignment.AlignmentVertical.TheVariants as vertically;
ghost use Rattle.tabled_settings.specs.declared.indent.Indent.{Indent as Filled};
ghost use Rattle.tabled_settings.specs.declared.sides.Sides.{Sides as Four};
ghost use Rattle.tabled_places.specs.declared.borders.Borders.{Borders as Fifteen};
ghost use Rattle.tabled_places.specs.declared.lines.HorizontalLine.{HorizontalLine as Horizontal};
ghost use Rattle.tabled_places.specs.declared.lines.VerticalLine.{VerticalLine as Vertical};
ghost use Rattle.tabled_object.specs.declared.offset.Offset.TheVariants as places;
ghost use Rattle.tabled_places.specs.declared.place.LineOf.TheVariants as lines;
ghost use Rattle.tabled_places.specs.declared.place.Place.TheVariants as spots;
ghost use Rattle.tabled_color.specs.Shade.{Shade};
ghost use Rattle.tabled_style.specs.Shown.{StyleShown};
ghost use Rattle.tabled_options.specs.LineChar.{EdgeChar};
ghost use Rattle.tabled_formatting.specs.declared.shadow.Shadow.{Shadow as Cast};
ghost use Rattle.tabled_formatting.specs.declared.alignment.Alignment.TheVariants as aligned;
ghost use Rattle.tabled_formatting.specs.declared.alignment_strategy.AlignmentStrategy.TheVariants as strategy;
ghost use Rattle.tabled_formatting.specs.declared.trim_strategy.TrimStrategy.TheVariants as trim;

use std::cmp::Ordering;
use tabled_border::{ANSIBuf, Border};
use tabled_color::{BorderColor, Color};
use tabled_formatting::{Alignment, AlignmentStrategy, PaddingColor, Shadow, TrimStrategy};
use tabled_grid::{Borders, HorizontalLine, LineOf, Offset, Place, VerticalLine};
use tabled_object::{Entity, Position, Shape};
use tabled_options::LineChar;
use tabled_settings::{AlignmentHorizontal, AlignmentVertical, Indent, Sides};
use tabled_style::{
    Border as StyleBorder, HorizontalLine as StyleHorizontal, Style, VerticalLine as StyleVertical,
};

/// Left, in the middle, right; up, in the middle, down; and what is horizontal before what is vertical.
pub fn alignments_in_order()
    ensures left_first { ⟦<AlignmentHorizontal as Ord>⟧.cmp horizontally.Left horizontally.Center ≡ Less }
    ensures right_last { ⟦<AlignmentHorizontal as Ord>⟧.cmp horizontally.Center horizontally.Right ≡ Less }
    ensures top_first { ⟦<AlignmentVertical as Ord>⟧.cmp vertically.Top vertically.Center ≡ Less }
    ensures bottom_last { ⟦<AlignmentVertical as Ord>⟧.cmp vertically.Center vertically.Bottom ≡ Less }
    ensures horizontal_first { ⟦<Alignment as Ord>⟧.cmp (aligned.Horizontal horizontally.Right) (aligned.Vertical vertically.Top) ≡ Less }
{}

/// Alignment cell by cell, then line by line; trim of lines, of both ends of them, of both, of nothing.
pub fn strategies_in_order()
    ensures by_cell_first { ⟦<AlignmentStrategy as Ord>⟧.cmp strategy.PerCell strategy.PerLine ≡ Less }
    ensures vertical_first { ⟦<TrimStrategy as Ord>⟧.cmp trim.Vertical trim.Horizontal ≡ Less }
    ensures both_next { ⟦<TrimStrategy as Ord>⟧.cmp trim.Horizontal trim.Both ≡ Less }
    ensures none_last { ⟦<TrimStrategy as Ord>⟧.cmp trim.Both trim.None ≡ Less }
{}

/// All cells, columns, rows, single cells; each by its numbers.
pub fn entities_in_order()
    ensures all_first { (col : ℕ) → ⟦<Entity as Ord>⟧.cmp cells.Global (cells.Column col) ≡ Less }
    ensures columns_next { (col row : ℕ) → ⟦<Entity as Ord>⟧.cmp (cells.Column col) (cells.Row row) ≡ Less }
    ensures rows_next { (row r c : ℕ) → ⟦<Entity as Ord>⟧.cmp (cells.Row row) (cells.Cell r c) ≡ Less }
    ensures by_column { (a b : ℕ) → ⟦<Entity as Ord>⟧.cmp (cells.Column a) (cells.Column b) ≡ nat_cmp a b }
    ensures by_row { (a b : ℕ) → ⟦<Entity as Ord>⟧.cmp (cells.Row a) (cells.Row b) ≡ nat_cmp a b }
    ensures by_cell { (r c s d : ℕ) → ⟦<Entity as Ord>⟧.cmp (cells.Cell r c) (cells.Cell s d) ≡ ordering_then (nat_cmp r s) (nat_cmp c d) }
{}

/// By rows, then by columns.
pub fn positions_and_shapes_in_order()
    ensures positions { (a b : At) → ⟦<Position as Ord>⟧.cmp a b ≡ ordering_then (nat_cmp a.row b.row) (nat_cmp a.col b.col) }
    ensures shapes { (a b : Counts) → ⟦<Shape as Ord>⟧.cmp a b ≡ ordering_then (nat_cmp a.rows b.rows) (nat_cmp a.cols b.cols) }
{}

/// Offsets from the start before those from the end, horizontal lines before vertical ones, and horizontal edges before vertical
/// ones and these before crossings; each by its numbers.
pub fn places_in_order()
    ensures start_first { (n m : ℕ) → ⟦<Offset as Ord>⟧.cmp (places.Start n) (places.End m) ≡ Less }
    ensures from_the_start { (n m : ℕ) → ⟦<Offset as Ord>⟧.cmp (places.Start n) (places.Start m) ≡ nat_cmp n m }
    ensures from_the_end { (n m : ℕ) → ⟦<Offset as Ord>⟧.cmp (places.End n) (places.End m) ≡ nat_cmp n m }
    ensures horizontal_first { (n m : ℕ) → ⟦<LineOf as Ord>⟧.cmp (lines.Horizontal n) (lines.Vertical m) ≡ Less }
    ensures by_line { (n m : ℕ) → ⟦<LineOf as Ord>⟧.cmp (lines.Horizontal n) (lines.Horizontal m) ≡ nat_cmp n m }
    ensures edges_across_first { (r c k s d l : ℕ) → ⟦<Place as Ord>⟧.cmp (spots.Horizontal r c k) (spots.Vertical s d l) ≡ Less }
    ensures crossings_last { (r c k s d : ℕ) → ⟦<Place as Ord>⟧.cmp (spots.Vertical r c k) (spots.Cross s d) ≡ Less }
    ensures by_edge { (r c k s d l : ℕ) → ⟦<Place as Ord>⟧.cmp (spots.Horizontal r c k) (spots.Horizontal s d l)
        ≡ ordering_then (nat_cmp r s) (ordering_then (nat_cmp c d) (nat_cmp k l)) }
    ensures by_crossing { (r c s d : ℕ) → ⟦<Place as Ord>⟧.cmp (spots.Cross r c) (spots.Cross s d) ≡ ordering_then (nat_cmp r s) (nat_cmp c d) }
{}

/// By the size, then by the character.
pub fn indents_in_order()
    ensures { (a b : Filled) → ⟦<Indent as Ord>⟧.cmp a b ≡ ordering_then (nat_cmp a.size b.size) (nat_cmp a.fill b.fill) }
{}

/// Left, right, top, bottom.
pub fn sides_in_order<T: Ord>()
    ensures { (a b : Four T) → ⟦<Sides<T> as Ord>⟧.cmp a b
        ≡ ordering_then (T.cmp a.left b.left) (ordering_then (T.cmp a.right b.right) (ordering_then (T.cmp a.top b.top) (T.cmp a.bottom b.bottom))) }
{}

/// The sides top, bottom, left, right, then the corners: the left ones first, upper before lower.
pub fn borders_in_order<T: Ord>()
    ensures { (a b : Eight T) → ⟦<Border<T> as Ord>⟧.cmp a b
        ≡ ordering_then (⟦<Option<T> as Ord>⟧.cmp a.top b.top) (ordering_then (⟦<Option<T> as Ord>⟧.cmp a.bottom b.bottom)
        (ordering_then (⟦<Option<T> as Ord>⟧.cmp a.left b.left) (ordering_then (⟦<Option<T> as Ord>⟧.cmp a.right b.right)
        (ordering_then (⟦<Option<T> as Ord>⟧.cmp a.left_top_corner b.left_top_corner) (ordering_then (⟦<Option<T> as Ord>⟧.cmp a.left_bottom_corner b.left_bottom_corner)
        (ordering_then (⟦<Option<T> as Ord>⟧.cmp a.right_top_corner b.right_top_corner) (⟦<Option<T> as Ord>⟧.cmp a.right_bottom_corner b.right_bottom_corner))))))) }
{}

/// The edges of a line, its crossings, and its two ends.
pub fn lines_in_order<T: Ord>()
    ensures horizontal { (a b : Horizontal T) → ⟦<HorizontalLine<T> as Ord>⟧.cmp a b
        ≡ ordering_then (⟦<Option<T> as Ord>⟧.cmp a.main b.main) (ordering_then (⟦<Option<T> as Ord>⟧.cmp a.intersection b.intersection)
        (ordering_then (⟦<Option<T> as Ord>⟧.cmp a.left b.left) (⟦<Option<T> as Ord>⟧.cmp a.right b.right))) }
    ensures vertical { (a b : Vertical T) → ⟦<VerticalLine<T> as Ord>⟧.cmp a b
        ≡ ordering_then (⟦<Option<T> as Ord>⟧.cmp a.main b.main) (ordering_then (⟦<Option<T> as Ord>⟧.cmp a.intersection b.intersection)
        (ordering_then (⟦<Option<T> as Ord>⟧.cmp a.top b.top) (⟦<Option<T> as Ord>⟧.cmp a.bottom b.bottom))) }
{}

/// A class record by the fifteen classes: the sides, the corners, the crossings on the sides, and what lies inside.
pub fn class_records_in_order<T: Ord>()
    ensures { (a b : Fifteen T) → ⟦<Borders<T> as Ord>⟧.cmp a b
        ≡ ordering_then (⟦<Option<T> as Ord>⟧.cmp a.top b.top) (ordering_then (⟦<Option<T> as Ord>⟧.cmp a.bottom b.bottom)
        (ordering_then (⟦<Option<T> as Ord>⟧.cmp a.left b.left) (ordering_then (⟦<Option<T> as Ord>⟧.cmp a.right b.right)
        (ordering_then (⟦<Option<T> as Ord>⟧.cmp a.top_left b.top_left) (ordering_then (⟦<Option<T> as Ord>⟧.cmp a.top_right b.top_right)
        (ordering_then (⟦<Option<T> as Ord>⟧.cmp a.bottom_left b.bottom_left) (ordering_then (⟦<Option<T> as Ord>⟧.cmp a.bottom_right b.bottom_right)
        (ordering_then (⟦<Option<T> as Ord>⟧.cmp a.top_intersection b.top_intersection) (ordering_then (⟦<Option<T> as Ord>⟧.cmp a.bottom_intersection b.bottom_intersection)
        (ordering_then (⟦<Option<T> as Ord>⟧.cmp a.left_intersection b.left_intersection) (ordering_then (⟦<Option<T> as Ord>⟧.cmp a.right_intersection b.right_intersection)
        (ordering_then (⟦<Option<T> as Ord>⟧.cmp a.horizontal b.horizontal) (ordering_then (⟦<Option<T> as Ord>⟧.cmp a.vertical b.vertical)
        (⟦<Option<T> as Ord>⟧.cmp a.intersection b.intersection)))))))))))))) }
{}

/// Texts of a color by the one before, then by the one after; colors by whether they are owned, the static ones first, and then by
/// their texts.
pub fn colors_in_order()
    ensures texts { (a b : Texts) → ⟦<ANSIBuf as Ord>⟧.cmp a b ≡ ordering_then (slice_cmp nat_cmp a.prefix b.prefix) (slice_cmp nat_cmp a.suffix b.suffix) }
    ensures colors { (a b : Shade) → ⟦<Color as Ord>⟧.cmp a b
        ≡ ordering_then (ordering_then (bool_cmp a.owned b.owned) (slice_cmp nat_cmp a.prefix b.prefix)) (slice_cmp nat_cmp a.suffix b.suffix) }
    ensures borders { (a b : Eight Shade) → ⟦<BorderColor as Ord>⟧.cmp a b ≡ ⟦<Border<Color> as Ord>⟧.cmp a b }
{}

/// Colors of a padding as the four sides have them; a shadow by its character, its size, its offset, the sides on which it falls, and
/// its color.
pub fn paddings_and_shadows_in_order<C: Ord>()
    ensures paddings { (a b : Four C) → ⟦<PaddingColor<C> as Ord>⟧.cmp a b ≡ ⟦<Sides<C> as Ord>⟧.cmp a b }
    ensures shadows { (a b : Cast) → ⟦<Shadow as Ord>⟧.cmp a b
        ≡ ordering_then (nat_cmp a.fill b.fill) (ordering_then (nat_cmp a.size b.size) (ordering_then (nat_cmp a.offset b.offset)
        (ordering_then (⟦<Sides<bool> as Ord>⟧.cmp a.direction b.direction) (⟦<Option<Color> as Ord>⟧.cmp a.color b.color)))) }
{}

/// A character on edges by itself, then by its offset, then those of vertical edges first.
pub fn line_characters_in_order()
    ensures { (a b : EdgeChar) → ⟦<LineChar as Ord>⟧.cmp a b
        ≡ ordering_then (nat_cmp a.character b.character) (ordering_then (⟦<Offset as Ord>⟧.cmp a.offset b.offset) (bool_cmp a.horizontal b.horizontal)) }
{}

/// Lines and borders of styles as those without markers, and styles by the class record, then by the horizontal and the vertical
/// custom lines, each by its index first.
pub fn styles_in_order<T, B, L, R, H, V, I, const HN: usize, const VN: usize>()
    ensures horizontal { (a b : Horizontal ℕ) → ⟦<StyleHorizontal<L, R, I> as Ord>⟧.cmp a b ≡ ⟦<HorizontalLine<char> as Ord>⟧.cmp a b }
    ensures vertical { (a b : Vertical ℕ) → ⟦<StyleVertical<T, B, I> as Ord>⟧.cmp a b ≡ ⟦<VerticalLine<char> as Ord>⟧.cmp a b }
    ensures border { (a b : Eight ℕ) → ⟦<StyleBorder<T, B, L, R> as Ord>⟧.cmp a b ≡ ⟦<Border<char> as Ord>⟧.cmp a b }
    ensures style { (a b : StyleShown) → ⟦<Style<T, B, L, R, H, V, HN, VN> as Ord>⟧.cmp a b
        ≡ ordering_then (⟦<Borders<char> as Ord>⟧.cmp a.borders b.borders)
        (ordering_then (slice_cmp (λ x y. ordering_then (nat_cmp x.0 y.0) (⟦<HorizontalLine<char> as Ord>⟧.cmp x.1 y.1)) a.horizontals b.horizontals)
        (slice_cmp (λ x y. ordering_then (nat_cmp x.0 y.0) (⟦<VerticalLine<char> as Ord>⟧.cmp x.1 y.1)) a.verticals b.verticals)) }
{}
