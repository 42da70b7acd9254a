//! Which cells an option is applied to.

ghost use Rattle.std.specs.Prelude.{◌≡◌, ◌↔◌, ℕ, List, ◌++◌, ◌&&◌, ◌||◌, not, nat_le, nat_lt, IfOk, IsOk, IsTrue, slice_index};
ghost use Rattle.std.specs.List.{Contains};
ghost use Rattle.tabled_object.specs.declared.entity.Entity.{Entity as Cells};
ghost use Rattle.tabled_object.specs.declared.position.Position.{Position as At};
ghost use Rattle.tabled_object.specs.Entities.{cells_of, covers, is_inside};
ghost use Rattle.tabled_object.specs.Listing.{Lists, all_cells, one_row, first_row, last_row, row_above_last, one_column, first_column, last_column, column_before_last, one_cell, one_entity, covered, listed, difference, frame, intersection, is_outermost};
ghost use Rattle.tabled_object.specs.Ranges.{contains, contains_step, rows_in, columns_in, cells_in, rows_on_step, columns_on_step};
ghost use Rattle.tabled_object.specs.declared.records.Shape.{Shape as Counts};
ghost use Rattle.std.specs.declared.ops.Bound.{Bound};

use std::alloc::Global;
use std::ops::RangeBounds;
use tabled_border::OutOfMemory;
use tabled_object::{
    Cell, Column, ColumnRange, ColumnStep, Columns, Combine, Difference, Dimension, Entity,
    EntityIterator, ExactRecords, FirstColumn, FirstRow, FixedDimension, Frame, Intersection,
    LastColumn, LastColumnOffset, LastRow, LastRowOffset, Object, Position, Records, Row, RowRange,
    RowStep, Rows, Segment, SegmentAll, SegmentRange, Shape, Union,
};

/// The listing of an object of any type ends, and is the list that the object states, a function of it and of the counts of rows
/// and columns; where the object takes no memory for it, it is never refused.
pub fn listing_of_any_object<R, O>(
    alloc: Global,
    records: &R,
    object: &O,
) -> Result<O::Iter, OutOfMemory>
where
    R: Records + ExactRecords,
    O: Object<R>,
    ensures listed { IfOk result (λ items. Lists O.Iter.can_next O.Iter.next_gives O.Iter.remaining items
        (O.listing object.now (R.row_count records.now) (R.column_count records.now))) }
    ensures always { O.takes_no_memory object.now → IsOk result }
{
    object.cells(alloc, records)
}

/// Rows list themselves, the first and the last one where there is a row, and the one the given number of rows before the last where there
/// are that many.
pub fn rows_are_listed<R: Records + ExactRecords>(
    row: &Row,
    first: &FirstRow,
    last: &LastRow,
    before_last: &LastRowOffset,
)
    ensures row { (rows cols : ℕ) → ⟦<Row as Object<R>>⟧.listing row.now rows cols ≡ one_row row.now.index }
    ensures first { (rows cols : ℕ) → ⟦<FirstRow as Object<R>>⟧.listing first.now rows cols ≡ first_row rows }
    ensures last { (rows cols : ℕ) → ⟦<LastRow as Object<R>>⟧.listing last.now rows cols ≡ last_row rows }
    ensures before_last { (rows cols : ℕ) → ⟦<LastRowOffset as Object<R>>⟧.listing before_last.now rows cols ≡ row_above_last before_last.now.offset rows }
{}

/// Columns list themselves, the first and the last one where there is a column, and the one the given number of columns before the last where
/// there are that many.
pub fn columns_are_listed<R: Records + ExactRecords>(
    column: &Column,
    first: &FirstColumn,
    last: &LastColumn,
    before_last: &LastColumnOffset,
)
    ensures column { (rows cols : ℕ) → ⟦<Column as Object<R>>⟧.listing column.now rows cols ≡ one_column column.now.index }
    ensures first { (rows cols : ℕ) → ⟦<FirstColumn as Object<R>>⟧.listing first.now rows cols ≡ first_column cols }
    ensures last { (rows cols : ℕ) → ⟦<LastColumn as Object<R>>⟧.listing last.now rows cols ≡ last_column cols }
    ensures before_last { (rows cols : ℕ) → ⟦<LastColumnOffset as Object<R>>⟧.listing before_last.now rows cols ≡ column_before_last before_last.now.offset cols }
{}

/// Ranges list the rows and columns of the table that they contain, or in steps; a segment of two lists the cells of both.
pub fn ranges_are_listed<R: Records + ExactRecords>(
    rows: &RowRange,
    columns: &ColumnRange,
    some_rows: &RowStep,
    some_columns: &ColumnStep,
    segment: &SegmentRange,
)
    ensures rows { (n m : ℕ) → ⟦<RowRange as Object<R>>⟧.listing rows.now n m ≡ rows_in rows.now.start rows.now.end n }
    ensures columns { (n m : ℕ) → ⟦<ColumnRange as Object<R>>⟧.listing columns.now n m ≡ columns_in columns.now.start columns.now.end m }
    ensures some_rows { (n m : ℕ) → ⟦<RowStep as Object<R>>⟧.listing some_rows.now n m ≡ rows_on_step some_rows.now.range.start some_rows.now.range.end some_rows.now.step n }
    ensures some_columns { (n m : ℕ) → ⟦<ColumnStep as Object<R>>⟧.listing some_columns.now n m ≡ columns_on_step some_columns.now.range.start some_columns.now.range.end some_columns.now.step m }
    ensures segment { (n m : ℕ) → ⟦<SegmentRange as Object<R>>⟧.listing segment.now n m
        ≡ cells_in segment.now.rows.start segment.now.rows.end segment.now.cols.start segment.now.cols.end n m }
    ensures rows_without_memory { ⟦<RowRange as Object<R>>⟧.takes_no_memory rows.now }
    ensures columns_without_memory { ⟦<ColumnRange as Object<R>>⟧.takes_no_memory columns.now }
    ensures some_rows_without_memory { ⟦<RowStep as Object<R>>⟧.takes_no_memory some_rows.now }
    ensures some_columns_without_memory { ⟦<ColumnStep as Object<R>>⟧.takes_no_memory some_columns.now }
    ensures segment_without_memory { ⟦<SegmentRange as Object<R>>⟧.takes_no_memory segment.now }
{}

/// A segment lists all cells, a cell, a position and an entity themselves; two objects list what the first and then what the
/// second lists, and a difference the cells inside the table that the first covers and the second does not, in row order.
pub fn other_objects_are_listed<R, A, B>(
    segment: &SegmentAll,
    cell: &Cell,
    position: &Position,
    entity: &Entity,
    both: &Union<A, B>,
    less: &Difference<A, B>,
)
where
    R: Records + ExactRecords,
    A: Object<R>,
    B: Object<R>,
    ensures segment { (rows cols : ℕ) → ⟦<SegmentAll as Object<R>>⟧.listing segment.now rows cols ≡ all_cells }
    ensures cell { (rows cols : ℕ) → ⟦<Cell as Object<R>>⟧.listing cell.now rows cols ≡ one_cell cell.now.row cell.now.col }
    ensures position { (rows cols : ℕ) → ⟦<Position as Object<R>>⟧.listing position.now rows cols ≡ one_cell position.now.row position.now.col }
    ensures entity { (rows cols : ℕ) → ⟦<Entity as Object<R>>⟧.listing entity.now rows cols ≡ one_entity entity.now }
    ensures union { (rows cols : ℕ) → ⟦<Union<A, B> as Object<R>>⟧.listing both.now rows cols ≡ A.listing both.now.left rows cols ++ B.listing both.now.right rows cols }
    ensures difference { (rows cols : ℕ) → ⟦<Difference<A, B> as Object<R>>⟧.listing less.now rows cols ≡ difference (A.listing less.now.kept rows cols) (B.listing less.now.left_out rows cols) rows cols }
{}

/// Of the cells inside a table, an entity names those that it covers.
pub fn entities_have_what_they_cover()
    ensures { (entity : Cells) (rows cols : ℕ) (cell : At) → IsTrue (is_inside rows cols cell)
        → Contains (cells_of entity rows cols) cell ↔ IsTrue (covers entity cell) }
{}

/// The set of cells that a listing covers does not depend on its order and repeats.
pub fn listed_without_order()
    ensures { (these those : List Cells) (rows cols : ℕ) (cell : At)
        → ((entity : Cells) → Contains these entity ↔ Contains those entity)
        → listed these rows cols cell ≡ listed those rows cols cell }
{}

/// Two listings in a row cover what either covers; a difference covers what the one covers and the other does not.
pub fn listed_by_two()
    ensures in_a_row { (these those : List Cells) (rows cols : ℕ) (cell : At)
        → listed (these ++ those) rows cols cell ≡ (listed these rows cols cell || listed those rows cols cell) }
    ensures without { (these those : List Cells) (rows cols : ℕ) (cell : At)
        → listed (difference these those rows cols) rows cols cell ≡ (listed these rows cols cell && not (listed those rows cols cell)) }
{}

/// Of the cells inside a table, a range of rows covers those whose row it contains, and no others; one of columns those whose column it
/// contains; in steps, of these each that is whole steps from its start; and a segment those whose row and column its ranges contain.
pub fn listed_by_ranges()
    ensures rows { (start end : Bound ℕ) (rows cols : ℕ) (cell : At)
        → listed (rows_in start end rows) rows cols cell ≡ (is_inside rows cols cell && contains start end cell.row) }
    ensures columns { (start end : Bound ℕ) (rows cols : ℕ) (cell : At)
        → listed (columns_in start end cols) rows cols cell ≡ (is_inside rows cols cell && contains start end cell.col) }
    ensures some_rows { (start end : Bound ℕ) (step rows cols : ℕ) (cell : At)
        → listed (rows_on_step start end step rows) rows cols cell ≡ (is_inside rows cols cell && contains_step start end step cell.row) }
    ensures some_columns { (start end : Bound ℕ) (step rows cols : ℕ) (cell : At)
        → listed (columns_on_step start end step cols) rows cols cell ≡ (is_inside rows cols cell && contains_step start end step cell.col) }
    ensures segment { (first_row last_row first_col last_col : Bound ℕ) (rows cols : ℕ) (cell : At)
        → listed (cells_in first_row last_row first_col last_col rows cols) rows cols cell
        ≡ (is_inside rows cols cell && (contains first_row last_row cell.row && contains first_col last_col cell.col)) }
{}

/// What two objects have in common covers each cell inside the table that both cover, the inverse of an object each cell inside that the
/// object does not cover, and a frame each outermost cell; none of them covers a cell outside.
pub fn covered_cell_by_cell()
    ensures both { (these those : List Cells) (rows cols : ℕ) (cell : At)
        → covered (intersection these those rows cols) cell ≡ (is_inside rows cols cell && (covered these cell && covered those cell)) }
    ensures inverse { (these : List Cells) (rows cols : ℕ) (cell : At)
        → covered (difference all_cells these rows cols) cell ≡ (is_inside rows cols cell && not (covered these cell)) }
    ensures outermost { (rows cols : ℕ) (cell : At) → covered (frame rows cols) cell ≡ (is_inside rows cols cell && is_outermost rows cols cell) }
{}

/// A pair of numbers, lent entities, a list and an array of entities list the cell that the pair names and the entities that stand
/// there; what is lent lists what it lends.
pub fn values_are_listed<'a, R, O, const N: usize>(
    pair: &(usize, usize),
    slice: &&'a [Entity],
    list: &Vec<Entity>,
    array: &[Entity; N],
    lent: &&'a O,
)
where
    R: Records + ExactRecords,
    O: Object<R>,
    ensures pair { (rows cols : ℕ) → ⟦<(usize, usize) as Object<R>>⟧.listing pair.now rows cols ≡ one_cell pair.now.0 pair.now.1 }
    ensures slice { (rows cols : ℕ) → ⟦<&'a [Entity] as Object<R>>⟧.listing slice.now rows cols ≡ slice.now.now }
    ensures list { (rows cols : ℕ) → ⟦<Vec<Entity> as Object<R>>⟧.listing list.now rows cols ≡ list.now.items }
    ensures array { (rows cols : ℕ) → ⟦<[Entity; N] as Object<R>>⟧.listing array.now rows cols ≡ array.now }
    ensures lent { (rows cols : ℕ) → ⟦<&'a O as Object<R>>⟧.listing lent.now rows cols ≡ O.listing lent.now.now rows cols }
{}

/// Rows, columns, cells, segments, pairs, entities, lent entities and arrays are listed without memory.
pub fn listed_without_memory<'a, R: Records + ExactRecords, const N: usize>(
    row: &Row,
    column: &Column,
    segment: &SegmentAll,
    cell: &Cell,
    position: &Position,
    pair: &(usize, usize),
    entity: &Entity,
    slice: &&'a [Entity],
    array: &[Entity; N],
)
    ensures row { ⟦<Row as Object<R>>⟧.takes_no_memory row.now }
    ensures column { ⟦<Column as Object<R>>⟧.takes_no_memory column.now }
    ensures segment { ⟦<SegmentAll as Object<R>>⟧.takes_no_memory segment.now }
    ensures cell { ⟦<Cell as Object<R>>⟧.takes_no_memory cell.now }
    ensures position { ⟦<Position as Object<R>>⟧.takes_no_memory position.now }
    ensures pair { ⟦<(usize, usize) as Object<R>>⟧.takes_no_memory pair.now }
    ensures entity { ⟦<Entity as Object<R>>⟧.takes_no_memory entity.now }
    ensures slice { ⟦<&'a [Entity] as Object<R>>⟧.takes_no_memory slice.now }
    ensures array { ⟦<[Entity; N] as Object<R>>⟧.takes_no_memory array.now }
{}

/// One row, and the row the given number of rows before the last one.
pub fn rows_named(index: usize, offset: usize) -> (Row, LastRowOffset)
    ensures one { result.0.index ≡ index }
    ensures before_last { result.1.offset ≡ offset }
{
    (Rows::one(index), Rows::last().offset(offset))
}

/// One column, and the column the given number of columns before the last one.
pub fn columns_named(index: usize, offset: usize) -> (Column, LastColumnOffset)
    ensures one { result.0.index ≡ index }
    ensures before_last { result.1.offset ≡ offset }
{
    (Columns::one(index), Columns::last().offset(offset))
}

/// The rows of a range in steps, the columns of another, and the cells of both.
pub fn ranges_named<B, C>(rows: B, step: usize, cols: C) -> (RowStep, ColumnStep)
where
    B: RangeBounds<usize>,
    C: RangeBounds<usize>,
    ensures first_row { B.has_bounds rows → result.0.range.start ≡ B.start_bound rows }
    ensures last_row { B.has_bounds rows → result.0.range.end ≡ B.end_bound rows }
    ensures first_column { C.has_bounds cols → result.1.range.start ≡ C.start_bound cols }
    ensures last_column { C.has_bounds cols → result.1.range.end ≡ C.end_bound cols }
    ensures row_steps { result.0.step ≡ step }
    ensures column_steps { result.1.step ≡ step }
{
    let SegmentRange { rows, cols } = Segment::new(rows, cols);
    (rows.step_by(step), cols.step_by(step))
}

/// The range `first..end` contains the numbers from the first one on that are below the end, and `first..=last` the last one too.
pub fn numbers_of_ranges(first: usize, end: usize) -> (RowRange, RowRange)
    ensures below { (n : ℕ) → contains result.0.start result.0.end n ≡ (nat_le first n && nat_lt n end) }
    ensures up_to { (n : ℕ) → contains result.1.start result.1.end n ≡ (nat_le first n && nat_le n end) }
{
    (Rows::new(first..end), Rows::new(first..=end))
}

/// One cell, and one position.
pub fn cells_named(row: usize, col: usize) -> (Cell, Position)
    ensures cell { result.0 ≡ record { row = row; col = col } }
    ensures position { result.1 ≡ record { row = row; col = col } }
{
    (Cell::new(row, col), Position::new(row, col))
}

/// Two objects list what they have in common, and the outermost cells are listed without memory.
pub fn cells_are_listed<R, A, B>(both: &Intersection<A, B>, outermost: &Frame)
where
    R: Records + ExactRecords,
    A: Object<R>,
    B: Object<R>,
    ensures both { (rows cols : ℕ) → ⟦<Intersection<A, B> as Object<R>>⟧.listing both.now rows cols
        ≡ intersection (A.listing both.now.left rows cols) (B.listing both.now.right rows cols) rows cols }
    ensures outermost { (rows cols : ℕ) → ⟦<Frame as Object<R>>⟧.listing outermost.now rows cols ≡ frame rows cols }
    ensures without_memory { ⟦<Frame as Object<R>>⟧.takes_no_memory outermost.now }
{}

/// What two objects have in common, and the cells that an object does not cover, which are all without its own.
pub fn objects_in_common<A: Combine, B, O: Combine>(
    left: A,
    right: B,
    object: O,
) -> (Intersection<A, B>, Difference<SegmentAll, O>)
    ensures left { result.0.left ≡ left }
    ensures right { result.0.right ≡ right }
    ensures left_out { result.1.left_out ≡ object }
{
    (left.intersect(right), object.inverse())
}

/// The rows and the columns that are so many before the last one, by a minus sign.
pub fn counted_back(rows: usize, columns: usize) -> (LastRowOffset, LastColumnOffset)
    ensures row { result.0.offset ≡ rows }
    ensures column { result.1.offset ≡ columns }
{
    (Rows::last() - rows, Columns::last() - columns)
}

/// Two objects as one, and one without another.
pub fn objects_combined<A: Combine, B: Combine, O, P>(
    first: A,
    second: O,
    kept: B,
    left_out: P,
) -> (Union<A, O>, Difference<B, P>)
    ensures left { result.0.left ≡ first }
    ensures right { result.0.right ≡ second }
    ensures kept { result.1.kept ≡ kept }
    ensures left_out { result.1.left_out ≡ left_out }
{
    (first.and(second), kept.not(left_out))
}

/// The cells of an entity in a table, row by row.
pub fn cells_of_an_entity(entity: &Entity, rows: usize, cols: usize) -> EntityIterator
    ensures { result ≡ cells_of entity.now rows cols }
{
    entity.iter(rows, cols)
}

/// Positions, and shapes, are converted from and to pairs of numbers.
pub fn pairs_converted()
    ensures position { (pair : ℕ × ℕ) (position : At) → ⟦<Position as From<(usize, usize)>>⟧.from_gives pair position → (position.row ≡ pair.0) × (position.col ≡ pair.1) }
    ensures pair { (position : At) (pair : ℕ × ℕ) → ⟦<(usize, usize) as From<Position>>⟧.from_gives position pair → (pair.0 ≡ position.row) × (pair.1 ≡ position.col) }
    ensures shape { (pair : ℕ × ℕ) (shape : Counts) → ⟦<Shape as From<(usize, usize)>>⟧.from_gives pair shape → (shape.rows ≡ pair.0) × (shape.cols ≡ pair.1) }
    ensures counts { (shape : Counts) (pair : ℕ × ℕ) → ⟦<(usize, usize) as From<Shape>>⟧.from_gives shape pair → (pair.0 ≡ shape.rows) × (pair.1 ≡ shape.cols) }
{}

/// The counts of rows and columns of records, of any type, are those that it states; of a shape they are its fields.
pub fn counts_of_records<R: Records + ExactRecords>(records: &R) -> (usize, usize)
    ensures rows { result.0 ≡ R.row_count records.now }
    ensures columns { result.1 ≡ R.column_count records.now }
    ensures rows_of_a_shape { (shape : Counts) → ⟦<Shape as ExactRecords>⟧.row_count shape ≡ shape.rows }
    ensures columns_of_a_shape { (shape : Counts) → ⟦<Shape as Records>⟧.column_count shape ≡ shape.cols }
{
    (records.count_rows(), records.count_columns())
}

/// The sizes of columns and rows, of any type, are those that it states.
pub fn sizes_of_a_table<D: Dimension>(dims: &D, col: usize, row: usize) -> (usize, usize)
    ensures width { result.0 ≡ D.width_of dims.now col }
    ensures height { result.1 ≡ D.height_of dims.now row }
{
    (dims.get_width(col), dims.get_height(row))
}

/// Lists of widths and heights as sizes: that of each column and row that the lists have, and 0 past their ends.
pub fn listed_sizes(widths: Vec<usize>, heights: Vec<usize>) -> FixedDimension
    ensures widths { result.widths ≡ widths }
    ensures heights { result.heights ≡ heights }
    ensures width { (col : ℕ) → ⟦<FixedDimension as Dimension>⟧.width_of result col ≡ slice_index widths.items col }
    ensures height { (row : ℕ) → ⟦<FixedDimension as Dimension>⟧.height_of result row ≡ slice_index heights.items row }
{
    FixedDimension::new(widths, heights)
}
