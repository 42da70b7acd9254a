//! Corners that join the lines that meet: what each crossing shows then, and that no line comes or goes by it.

ghost use Rattle.std.specs.Prelude.{◌≡◌, ◌≢◌, ◌↔◌, ℕ, Some, List, [], option_and_then, OnOk, OnErr};
ghost use Rattle.tabled_boxes.specs.Arms.{arms_of};
ghost use Rattle.tabled_boxes.specs.Joined.{met};
ghost use Rattle.tabled_places.specs.declared.place.LineOf.{LineOf as Line};
ghost use Rattle.tabled_places.specs.declared.place.Place.{Place};
ghost use Rattle.tabled_places.specs.Drawn.{Drawn};
ghost use Rattle.tabled_places.specs.State.{state_at};
ghost use Rattle.tabled_places.specs.Value.{plain_value};
ghost use Rattle.tabled_configuration.specs.Colored as colored;
ghost use Rattle.tabled_configuration.specs.Configuration.{Configuration, Changes};
ghost use Rattle.tabled_correction.specs.Correction.{spanned};
ghost use Rattle.tabled_correction.specs.Corners.{became, edges_at, joined_corner_events};

use tabled_border::OutOfMemory;
use tabled_changes::{ColoredConfig, TableOption};
use tabled_correction::JoinedCorners;
use tabled_object::{ExactRecords, Records};

/// The option writes the crossings that become others, and does nothing else.
pub fn joined_corners_on_a_table<R, D>(
    option: JoinedCorners,
    records: &mut R,
    cfg: &mut ColoredConfig,
    dims: &mut D,
) -> Result<(), OutOfMemory>
where
    R: Records + ExactRecords,
    ensures made { OnOk result (colored.Changes (joined_corner_events (R.row_count records.old, R.column_count records.old) cfg.old.spanned) cfg.old cfg.new) }
    ensures unchanged { OnErr result (cfg.new ≡ cfg.old) }
{
    option.change(records, cfg, dims)
}

/// Where two drawn lines cross, each crossing shows what it becomes by the edges beside it, and every edge shows what it did.
pub fn crossings_are_joined()
    ensures crossing { (shape : ℕ × ℕ) (old new : Configuration) → Changes (joined_corner_events shape old) old new
        → (r c : ℕ) → Drawn (state_at old.characters) shape.0 (Line.Horizontal r) → Drawn (state_at old.characters) shape.1 (Line.Vertical c)
        → plain_value (state_at new.characters) shape (Place.Cross r c) ≡ became (spanned shape old) r c }
    ensures horizontal_edge { (shape : ℕ × ℕ) (old new : Configuration) → Changes (joined_corner_events shape old) old new
        → (r c k : ℕ) → plain_value (state_at new.characters) shape (Place.Horizontal r c k) ≡ plain_value (state_at old.characters) shape (Place.Horizontal r c k) }
    ensures vertical_edge { (shape : ℕ × ℕ) (old new : Configuration) → Changes (joined_corner_events shape old) old new
        → (r c k : ℕ) → plain_value (state_at new.characters) shape (Place.Vertical r c k) ≡ plain_value (state_at old.characters) shape (Place.Vertical r c k) }
{}

/// What a crossing becomes, where that is another character, has the arms of the edges beside it: each arm is that of its edge.
pub fn arms_are_those_of_the_edges()
    ensures { (shape : ℕ × ℕ) (cfg : Configuration) (r c : ℕ)
        → became (spanned shape cfg) r c ≢ plain_value (state_at cfg.characters) shape (Place.Cross r c)
        → option_and_then arms_of (became (spanned shape cfg) r c) ≡ Some (met (edges_at (spanned shape cfg) r c)) }
{}

/// A line is drawn after it exactly where it was before.
pub fn no_line_comes_or_goes()
    ensures horizontal { (shape : ℕ × ℕ) (old new : Configuration) → Changes (joined_corner_events shape old) old new
        → (n : ℕ) → Drawn (state_at new.characters) shape.0 (Line.Horizontal n) ↔ Drawn (state_at old.characters) shape.0 (Line.Horizontal n) }
    ensures vertical { (shape : ℕ × ℕ) (old new : Configuration) → Changes (joined_corner_events shape old) old new
        → (n : ℕ) → Drawn (state_at new.characters) shape.1 (Line.Vertical n) ↔ Drawn (state_at old.characters) shape.1 (Line.Vertical n) }
{}

/// Once is enough: there is nothing to join after it.
pub fn corners_stay_joined()
    ensures { (shape : ℕ × ℕ) (old new : Configuration) → Changes (joined_corner_events shape old) old new → joined_corner_events shape new ≡ [] }
{}

/// A table is left as it is where each crossing of two drawn lines has the arms of the edges beside it.
pub fn corners_that_fit_stay()
    ensures { (shape : ℕ × ℕ) (cfg : Configuration)
        → ((r c : ℕ) → Drawn (state_at cfg.characters) shape.0 (Line.Horizontal r) → Drawn (state_at cfg.characters) shape.1 (Line.Vertical c)
        → option_and_then arms_of (plain_value (state_at cfg.characters) shape (Place.Cross r c)) ≡ Some (met (edges_at (spanned shape cfg) r c)))
        → joined_corner_events shape cfg ≡ [] }
{}
