//! Texts and characters on lines, computed on tables that were drawn by hand. Nothing here runs: each clause is an
//! equation between what the definitions give a table of `specs/Lettered.antt` and what it must have.

ghost use Rattle.std.specs.Prelude.{◌≡◌, [], ◌∷◌, codes};
ghost use Rattle.tabled_object.specs.declared.offset.Offset.{Offset};
ghost use Rattle.tabled_places.specs.declared.site.Direction.TheVariants.{Horizontal};
ghost use Rattle.tabled_places.specs.declared.site.Spot.TheVariants.{Crossing};
ghost use Rattle.tabled_places.specs.declared.site.Site.TheVariants.{Cell as at_spot, Offset as at_offset};
ghost use Rattle.tabled_places.specs.declared.event.Event.TheVariants.{Write as write};
ghost use Rattle.tabled_places.specs.declared.event.Written.TheVariants.{Sign as sign};
ghost use Rattle.tabled_uses.specs.Examples.{text_of, as_lines};
ghost use Rattle.tabled_uses.specs.Lettered as table;

/// A text stands where its alignment and its offset put it, and ends with its line.
pub fn texts_along_the_top()
    ensures centered { text_of table.centered ≡ as_lines (
        codes "+----TABLE----+" ∷
        codes "| &str        |" ∷
        codes "+-------------+" ∷
        codes "| Hello World |" ∷
        codes "+-------------+" ∷ []) }
    ensures centered_far { text_of table.centered_far ≡ as_lines (
        codes "+-------------+" ∷
        codes "| &str        |" ∷
        codes "+-------------+" ∷
        codes "| Hello World |" ∷
        codes "+-------------+" ∷ []) }
    ensures from_the_third { text_of table.from_the_third ≡ as_lines (
        codes "+--TABLE------+" ∷
        codes "| &str        |" ∷
        codes "+-------------+" ∷
        codes "| Hello World |" ∷
        codes "+-------------+" ∷ []) }
    ensures limited_to_three { text_of table.limited_to_three ≡ as_lines (
        codes "+-.-----------+" ∷
        codes "| &str        |" ∷
        codes "+-------------+" ∷
        codes "| Hello World |" ∷
        codes "+-------------+" ∷ []) }
    ensures too_long_at_the_right { text_of table.too_long_at_the_right ≡ as_lines (
        codes "+-------------+" ∷
        codes "| &str        |" ∷
        codes "+-------------+" ∷
        codes "| Hello World |" ∷
        codes "+-------------+" ∷ []) }
    ensures too_long_at_the_left { text_of table.too_long_at_the_left ≡ as_lines (
        codes "ABCDEFGHIJKLMNO" ∷
        codes "| &str        |" ∷
        codes "+-------------+" ∷
        codes "| Hello World |" ∷
        codes "+-------------+" ∷ []) }
    ensures right_and_moved { text_of table.right_and_moved ≡ as_lines (
        codes "+------------TA" ∷
        codes "| &str        |" ∷
        codes "+-------------+" ∷
        codes "| Hello World |" ∷
        codes "+-------------+" ∷ []) }
{}

/// A text stands on the closing line and on none past it, and on vertical lines from top to bottom.
pub fn texts_on_other_lines()
    ensures on_the_closing_line { text_of table.on_the_closing_line ≡ as_lines (
        codes "+-------------+" ∷
        codes "| &str        |" ∷
        codes "+-------------+" ∷
        codes "| Hello World |" ∷
        codes "TABLE---------+" ∷ []) }
    ensures past_the_closing_line { text_of table.past_the_closing_line ≡ as_lines (
        codes "+-------------+" ∷
        codes "| &str        |" ∷
        codes "+-------------+" ∷
        codes "| Hello World |" ∷
        codes "+-------------+" ∷ []) }
    ensures both_sides { text_of table.both_sides ≡ as_lines (
        codes "T-------------T" ∷
        codes "A &str        A" ∷
        codes "B-------------B" ∷
        codes "L Hello World L" ∷
        codes "E-------------E" ∷ []) }
    ensures at_the_bottom { text_of table.at_the_bottom ≡ as_lines (
        codes "+-------------+" ∷
        codes "| &str        |" ∷
        codes "+-------------+" ∷
        codes "A Hello World |" ∷
        codes "B-------------+" ∷ []) }
{}

/// A crossing that shows nothing uses up its character and stays empty, but takes the color; one that shows something
/// becomes a cell's, which draws the lines through it. Characters on edges draw none.
pub fn texts_over_crossings()
    ensures over_nothing { text_of table.over_nothing ≡ as_lines (codes "ABC EFG" ∷ codes " a | b " ∷ []) }
    ensures colors_over_nothing { table.colors_over_nothing ≡
        write (at_offset Horizontal 0 0 (Offset.Start 2)) (sign (record { prefix = codes "b"; suffix = codes "e" })) ∷
        write (at_spot (Crossing 0 1)) (sign (record { prefix = codes "b"; suffix = codes "e" })) ∷
        write (at_offset Horizontal 0 1 (Offset.Start 0)) (sign (record { prefix = codes "b"; suffix = codes "e" })) ∷ [] }
    ensures over_a_crossing { text_of table.over_a_crossing ≡ as_lines (codes " a | b " ∷ codes "ABCDEFG" ∷ codes " c | d " ∷ []) }
    ensures over_it_again { text_of table.over_it_again ≡ as_lines (codes " a | b " ∷ codes "xyzDEFG" ∷ codes " c | d " ∷ []) }
    ensures on_a_drawn_line { text_of table.on_a_drawn_line ≡ as_lines (codes " &str  " ∷ codes "Santa--" ∷ codes " Hello " ∷ codes " 2022  " ∷ []) }
    ensures on_a_line_not_drawn { text_of table.on_a_line_not_drawn ≡ as_lines (codes " &str  " ∷ codes "-------" ∷ codes " Hello " ∷ codes " 2022  " ∷ []) }
{}

/// A character stands on the edge of each position that has one, on closing lines too.
pub fn marks_on_edges()
    ensures marks { text_of table.marks ≡ as_lines (
        codes "| &str        |" ∷
        codes "|:-----------:|" ∷
        codes "# Hello World #" ∷ []) }
    ensures marks_on_closing_lines { text_of table.marks_on_closing_lines ≡ as_lines (
        codes "+-------------+" ∷
        codes "| &str        #" ∷
        codes "+-------------+" ∷
        codes "| Hello World #" ∷
        codes "+-:-----------+" ∷ []) }
{}
