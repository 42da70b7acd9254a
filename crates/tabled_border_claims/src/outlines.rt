//! Outlines.

ghost use Rattle.std.specs.Prelude.{◌≡◌, ◌↔◌, ℕ, ◌==◌, ◌||◌, List, length, true, false, Option, is_some, option_map, IsTrue};
ghost use Rattle.std.specs.List.{Contains, IsDistinct};
ghost use Rattle.tabled_border.specs.declared.border.Border.{Border};
ghost use Rattle.tabled_object.specs.declared.position.Position.{Position as At};
ghost use Rattle.tabled_object.specs.declared.entity.Entity.{Entity};
ghost use Rattle.tabled_object.specs.Listing.{listed};
ghost use Rattle.tabled_places.specs.declared.site.Direction.TheVariants.{Horizontal, Vertical};
ghost use Rattle.tabled_places.specs.declared.site.Spot.{Spot};
ghost use Rattle.tabled_places.specs.declared.site.Spot.TheVariants.{Edge};
ghost use Rattle.tabled_places.specs.declared.site.Site.{Site};
ghost use Rattle.tabled_places.specs.declared.site.Site.TheVariants.{Cell as at_spot};
ghost use Rattle.tabled_places.specs.declared.event.Written.TheVariants.{Sign as sign};
ghost use Rattle.tabled_places.specs.Drawn.{written};
ghost use Rattle.tabled_places.specs.Event.{covered, replay};
ghost use Rattle.tabled_places.specs.Site.{same_site};
ghost use Rattle.tabled_color.specs.Shade.{Shade};
ghost use Rattle.tabled_highlight.specs.Outline.{Outlining, CellSet, upper_right, lower_left, lower_right, outline_value, outline, IsSpotOf};
ghost use Rattle.tabled_highlight.specs.Meeting.{parting_edges};
ghost use Rattle.tabled_highlight.specs.Highlighting.{highlight_events};

/// The outline depends on the set of cells alone: not on the order of a listing, nor on its repeats.
pub fn outline_without_order()
    ensures same_cells { (these those : List Entity) (rows cols : ℕ) (border : Option (Border ℕ)) (diagonal : Option ℕ) (color : Option (Border Shade))
        → ((cell : At) → listed these rows cols cell ≡ listed those rows cols cell)
        → highlight_events (rows, cols) these border diagonal color ≡ highlight_events (rows, cols) those border diagonal color }
    ensures same_entities { (these those : List Entity) (rows cols : ℕ) (border : Option (Border ℕ)) (diagonal : Option ℕ) (color : Option (Border Shade))
        → ((entity : Entity) → Contains these entity ↔ Contains those entity)
        → highlight_events (rows, cols) these border diagonal color ≡ highlight_events (rows, cols) those border diagonal color }
{}

/// What the outline has at an edge or a crossing is the one entry of its table, and it has nothing elsewhere; it writes each
/// site at most once.
pub fn outline_is_its_table<T>()
    ensures covered { (entities : List Entity) (rows cols : ℕ) (given : Outlining T) (spot : Spot)
        → covered (outline (rows, cols) (listed entities rows cols) given) (at_spot spot)
        ≡ is_some (outline_value (listed entities rows cols) given spot) }
    ensures kept { (entities : List Entity) (rows cols : ℕ) (given : Outlining T) (spot : Spot)
        → replay (outline (rows, cols) (listed entities rows cols) given) (at_spot spot)
        ≡ option_map sign (outline_value (listed entities rows cols) given spot) }
    ensures inside { (entities : List Entity) (rows cols : ℕ) (given : Outlining T) (site : Site)
        → IsTrue (covered (outline (rows, cols) (listed entities rows cols) given) site) → IsSpotOf (rows, cols) site }
    ensures once { (entities : List Entity) (rows cols : ℕ) (given : Outlining T)
        → IsDistinct same_site (written (outline (rows, cols) (listed entities rows cols) given)) }
{}

/// An edge between two cells of the set, or between two that are not in it, has no event; cells outside the table are not in
/// it.
pub fn no_outline_between_alike<T>()
    ensures across { (entities : List Entity) (rows cols r c : ℕ) (given : Outlining T)
        → upper_right (listed entities rows cols) r c ≡ lower_right (listed entities rows cols) r c
        → covered (outline (rows, cols) (listed entities rows cols) given) (at_spot (Edge Horizontal r c)) ≡ false }
    ensures down { (entities : List Entity) (rows cols r c : ℕ) (given : Outlining T)
        → lower_left (listed entities rows cols) r c ≡ lower_right (listed entities rows cols) r c
        → covered (outline (rows, cols) (listed entities rows cols) given) (at_spot (Edge Vertical r c)) ≡ false }
{}

/// At every crossing no, two or four edges meet that have exactly one cell of the set beside them.
pub fn even_edges_meet()
    ensures { (cells : CellSet) (r c : ℕ) → let parting = length (parting_edges cells r c) in
        ((parting == 0) || ((parting == 2) || (parting == 4))) ≡ true }
{}
