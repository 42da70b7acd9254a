//! When two stores are equal.

ghost use Rattle.std.specs.Prelude.{◌≡◌};
ghost use Rattle.tabled_grid.specs.Same.{same_below, same_lines, same_cells, same_state};

use super::Layers;

/// Equality compares what is kept, level by level, and nothing else: not the allocator, and not the
/// numbers by which drawn lines are found.
impl<T: PartialEq> PartialEq for Layers<T> {
    ghost use Rattle.tabled_grid.specs.SameLaws.{state_per};

    ghost eq = { same_state T.eq };

    ghost laws = { state_per T.laws };

    #[tactic(auto, unfolding(crate::specs::Same::same_state))]
    fn eq(&self, other: &Self) -> bool {
        self.is_same_below(other) && self.has_same_lines(other) && self.has_same_cells(other)
    }
}

impl<T: Eq> Eq for Layers<T> {
    ghost use Rattle.tabled_grid.specs.SameLaws.{state_equiv};

    ghost laws = { state_equiv T.Eq.laws };
}

impl<T: PartialEq> Layers<T> {
    /// Whether the defaults and the class records are equal.
    #[tactic(auto, unfolding(crate::specs::Same::same_below))]
    fn is_same_below(&self, other: &Self) -> bool
        ensures { result ≡ same_below T.eq self.now other.now }
    {
        *self.default_value.get() == *other.default_value.get()
            && *self.class_record.get() == *other.class_record.get()
    }

    /// Whether the custom lines are equal.
    #[tactic(auto, unfolding(crate::specs::Same::same_lines))]
    fn has_same_lines(&self, other: &Self) -> bool
        ensures { result ≡ same_lines T.eq self.now other.now }
    {
        self.vertical_lines.is_same(&other.vertical_lines)
            && self.horizontal_lines.is_same(&other.horizontal_lines)
    }

    /// Whether the cells and the offsets are equal.
    #[tactic(auto, unfolding(crate::specs::Same::same_cells))]
    fn has_same_cells(&self, other: &Self) -> bool
        ensures { result ≡ same_cells T.eq self.now other.now }
    {
        self.cells.is_same(&other.cells)
            && self.horizontal_offsets.is_same(&other.horizontal_offsets)
            && self.vertical_offsets.is_same(&other.vertical_offsets)
    }
}
