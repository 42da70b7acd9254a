//! The definitions computed on tables that were drawn by hand. Nothing here runs: each clause is an
//! equation between the text that the definitions give a table of `specs/Examples.antt` and the text
//! that the table must have.

ghost use Rattle.std.specs.Prelude.{◌≡◌, [], ◌∷◌, codes};
ghost use Rattle.tabled_uses.specs.Examples as table;
ghost use Rattle.tabled_uses.specs.Examples.{text_of, as_lines, places_of};
ghost use Rattle.tabled_places.specs.declared.place.LineOf.{LineOf};
ghost use Rattle.tabled_places.specs.declared.place.Place.{Place};

/// A place has the character of the highest level that has one there; a drawn line shows a space where none is.
pub fn places_and_levels()
    ensures whole_frame { text_of table.whole_frame ≡ as_lines (
        codes "+---+----+" ∷
        codes "| a | b  |" ∷
        codes "+---+----+" ∷
        codes "| 1 | 22 |" ∷
        codes "+---+----+" ∷ []) }
    ensures no_rows { text_of table.no_rows ≡ [] }
    ensures one_empty_cell { text_of table.one_empty_cell ≡ as_lines (codes "+--+" ∷ codes "|  |" ∷ codes "+--+" ∷ []) }
    ensures cells_of_three { text_of table.cells_of_three ≡ as_lines (
        codes "    51116" ∷
        codes "  a 3 b 4" ∷
        codes "51118   4" ∷
        codes "3 c   d 4" ∷
        codes "722222228" ∷ []) }
    ensures offsets_from_start { text_of table.offsets_from_start ≡ as_lines (
        codes "+----TABLE----+" ∷
        codes "| &str        |" ∷
        codes "+-------------+" ∷
        codes "| Hello World |" ∷
        codes "+-------------+" ∷ []) }
    ensures whole_line { text_of table.whole_line ≡ as_lines (
        codes "ABCDEFGHIJKLMNO" ∷
        codes "| &str        |" ∷
        codes "+-------------+" ∷
        codes "| Hello World |" ∷
        codes "+-------------+" ∷ []) }
    ensures empty_crossing { text_of table.empty_crossing ≡ as_lines (codes "ABC EFG" ∷ codes " a | b " ∷ []) }
    ensures start_before_end { text_of table.start_before_end ≡ as_lines (
        codes "+--s+" ∷
        codes "| a |" ∷
        codes "+---+" ∷ []) }
    ensures end_then_start { text_of table.end_then_start ≡ as_lines (
        codes "+--s+" ∷
        codes "| a |" ∷
        codes "+---+" ∷ []) }
    ensures cell_over_class { text_of table.cell_over_class ≡ as_lines (
        codes "#xxx#" ∷
        codes "# a #" ∷
        codes "#####" ∷ []) }
{}

/// A custom line outranks the class record, a horizontal one also a vertical one, and takes nothing from the line that it replaces.
pub fn lines_of_their_own()
    ensures markdown_offsets { text_of table.markdown_offsets ≡ as_lines (
        codes "| &str        |" ∷
        codes "|:-----------:|" ∷
        codes "# Hello World #" ∷ []) }
    ensures vertical_line { text_of table.vertical_line ≡ as_lines (
        codes "=======╠=====" ∷
        codes " &str  ═ i32 " ∷
        codes "======= =====" ∷
        codes " Hello ═ 0   " ∷
        codes " Hello ═ 1   " ∷
        codes " Hello ═ 2   " ∷
        codes "=======╣=====" ∷ []) }
    ensures horizontal_line { text_of table.horizontal_line ≡ as_lines (
        codes " ======= ===== " ∷
        codes "  &str    i32  " ∷
        codes "╠═══════╬═════╣" ∷
        codes "  Hello   0    " ∷
        codes "  Hello   1    " ∷
        codes "  Hello   2    " ∷
        codes " ======= ===== " ∷ []) }
    ensures line_replaced { text_of table.line_replaced ≡ as_lines (
        codes "+---+" ∷
        codes "| a |" ∷
        codes "+===+" ∷
        codes "| b |" ∷
        codes "+---+" ∷ []) }
    ensures inner_intersection { text_of table.inner_intersection ≡ as_lines (codes " a | b " ∷ codes " c | d " ∷ []) }
    ensures closing_line { text_of table.closing_line ≡ as_lines (codes " a " ∷ codes "---" ∷ []) }
{}

/// A line is drawn by what is kept, and by nothing that was erased.
pub fn drawn_lines()
    ensures down_both_sides { text_of table.down_both_sides ≡ as_lines (
        codes "T-------------T" ∷
        codes "A &str        A" ∷
        codes "B-------------B" ∷
        codes "L Hello World L" ∷
        codes "E-------------E" ∷ []) }
    ensures all_cleared { text_of table.all_cleared ≡ as_lines (codes " a " ∷ []) }
    ensures boxed_cell { text_of table.boxed_cell ≡ as_lines (
        codes "┌───────┐" ∷
        codes "│ &str  │" ∷
        codes "└───────┘" ∷
        codes "  Hello  " ∷
        codes "  2022   " ∷ []) }
    ensures corner_alone { text_of table.corner_alone ≡ as_lines (codes "  a " ∷ codes "#   " ∷ codes "  b " ∷ []) }
    ensures corner_erased { text_of table.corner_erased ≡ as_lines (codes " a " ∷ codes " b " ∷ []) }
    ensures default_alone { text_of table.default_alone ≡ as_lines (
        codes "*****" ∷
        codes "* a *" ∷
        codes "*****" ∷ []) }
{}

/// The places along a line are its crossings with the drawn lines of the other direction, and its edges between.
/// A line past the last one has none.
pub fn places_along_lines()
    ensures two_heights { text_of table.two_heights ≡ as_lines (
        codes "--- ---" ∷
        codes " a | b " ∷
        codes " c | d " ∷
        codes " e | f " ∷
        codes "--- ---" ∷ []) }
    ensures drawn_line { places_of table.two_heights (LineOf.Vertical 1) ≡
        Place.Cross 0 1 ∷
        Place.Vertical 0 1 0 ∷
        Place.Vertical 1 1 0 ∷
        Place.Vertical 1 1 1 ∷
        Place.Cross 2 1 ∷ [] }
    ensures past_the_closing_line { places_of table.two_heights (LineOf.Vertical 3) ≡ [] }
    ensures below_the_closing_line { places_of table.two_heights (LineOf.Horizontal 3) ≡ [] }
    ensures no_rows { places_of table.no_rows (LineOf.Vertical 0) ≡ [] }
{}
