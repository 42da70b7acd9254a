//! A style as an option of a table.

ghost use Rattle.std.specs.Prelude.{◌≡◌, [], None, IsOk, OnOk, OnErr};
ghost use Rattle.tabled_configuration.specs.Colored.{Changes};
ghost use Rattle.tabled_configuration.specs.Configuration.{borders_replaced};

use super::Style;
use tabled_border::OutOfMemory;
use tabled_changes::{ColoredConfig, TableOption};
use tabled_object::Entity;

impl<T, B, L, R, H, V, const HN: usize, const VN: usize, Data, Dims> TableOption<
    Data,
    ColoredConfig,
    Dims,
> for Style<T, B, L, R, H, V, HN, VN> {
    ghost makes = { λ style records dims old. borders_replaced style.borders style.horizontals style.verticals };

    ghost hinted = { λ style. None };

    /// Erases every border character and color of every level, offsets too; then puts the custom lines at their
    /// indices, in their order, and sets the class record. Without custom lines it takes no memory and returns Ok.
    ///
    /// `Style::rounded()` on a table of two rows and two columns, whatever its borders were:
    ///
    /// ```text
    /// ╭───┬───╮
    /// │ a │ b │
    /// ├───┼───┤
    /// │ c │ d │
    /// ╰───┴───╯
    /// ```
    fn change(
        self,
        _records: &mut Data,
        cfg: &mut ColoredConfig,
        _dims: &mut Dims,
    ) -> Result<(), OutOfMemory>
        ensures ok { OnOk result (Changes (borders_replaced self.borders self.horizontals self.verticals) cfg.old cfg.new) }
        ensures err { OnErr result (cfg.new ≡ cfg.old) }
        ensures without_lines { self.horizontals ≡ [] → self.verticals ≡ [] → IsOk result }
        ensures records { _records.new ≡ _records.old }
        ensures sizes { _dims.new ≡ _dims.old }
    {
        cfg.config_mut().replace_borders(
            self.borders,
            self.horizontals.as_slice(),
            self.verticals.as_slice(),
        )
    }

    fn hint_change(&self) -> Option<Entity> {
        None
    }
}
