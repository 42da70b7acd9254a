//! Whether an option that sets something may change the sizes of cells.

ghost use Rattle.std.specs.Prelude.{◌≡◌};
ghost use Rattle.tabled_changes.specs.Resizing.{hinted_on_cells, hinted_on_table};

use tabled_object::Entity;

/// Where an option is applied when a table has to find the sizes of its cells anew after it.
#[derive(Clone, Copy, Debug, PartialEq, Eq)]
pub enum Resizes {
    /// Nowhere: sizes stay.
    Never,
    /// On the cells of an object, and not on a whole table.
    OnCells,
    /// On either.
    Always,
}

impl Resizes {
    /// The cells whose sizes are found anew after the option on the cells of an object.
    pub(crate) fn on_cells(self) -> Option<Entity>
        ensures { result ≡ hinted_on_cells self }
    {
        match self {
            Resizes::Never => None,
            Resizes::OnCells | Resizes::Always => Some(Entity::Global),
        }
    }

    /// The cells whose sizes are found anew after the option on a whole table.
    pub(crate) fn on_table(self) -> Option<Entity>
        ensures { result ≡ hinted_on_table self }
    {
        match self {
            Resizes::Never | Resizes::OnCells => None,
            Resizes::Always => Some(Entity::Global),
        }
    }
}
