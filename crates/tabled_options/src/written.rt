//! One write of many.

ghost use Rattle.std.specs.Prelude.{◌≡◌, [], ◌∷◌};
ghost use Rattle.tabled_places.specs.declared.event.Event.TheVariants.{Write as event};
ghost use Rattle.tabled_places.specs.declared.event.Written.TheVariants.{Sign as sign};
ghost use Rattle.tabled_places.specs.Writes.{site_of, writes_made};

use tabled_grid::{Target, Write};

/// The write of a value at a target.
#[tactic(auto, unfolding(tabled_places::specs::Writes::writes_made))]
pub(crate) fn write_of<T>(target: Target, value: T) -> Write<T>
    ensures { writes_made (result ∷ []) ≡ event (site_of target) (sign value) ∷ [] }
{
    Write {
        target: Some(target),
        value: Some(value),
    }
}
