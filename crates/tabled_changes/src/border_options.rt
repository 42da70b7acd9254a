//! The border of a cell as an option: around cells, and around a whole table.

ghost use Rattle.std.specs.Prelude.{◌≡◌, [], Some, IsOk, OnOk, OnErr, if◌then◌else◌, filter};
ghost use Rattle.tabled_object.specs.Entities.{cells_of, is_inside};
ghost use Rattle.tabled_object.specs.declared.entity.Entity.TheVariants as cells;
ghost use Rattle.tabled_configuration.specs.Colored.{Changes};
ghost use Rattle.tabled_configuration.specs.Options.{entity_bordered, framed, table_bordered};

use crate::{CellOption, ColoredConfig, TableOption};
use tabled_border::{Border, OutOfMemory};
use tabled_grid::Borders;
use tabled_object::{Entity, ExactRecords, Records};

impl<R: Records + ExactRecords> CellOption<R, ColoredConfig> for Border<char> {
    ghost makes = { λ border records entity old. entity_bordered border (R.row_count records, R.column_count records) entity };

    ghost hinted = { λ border. Some cells.Global };

    /// Writes the given sides and corners of each cell of the entity that lies in the table, row by row: for what two cells share
    /// the later one counts. What is not given stays as it is. Without a cell inside it takes no memory and returns Ok.
    ///
    /// A border of `#` on the cell (0, 0) of a table of the style `ascii`:
    ///
    /// ```text
    /// #####---+
    /// # a # b |
    /// #####---+
    /// | c | d |
    /// +---+---+
    /// ```
    fn change(
        &self,
        records: &mut R,
        cfg: &mut ColoredConfig,
        entity: Entity,
    ) -> Result<(), OutOfMemory>
        ensures ok { OnOk result (Changes (entity_bordered self.now (R.row_count records.old, R.column_count records.old) entity) cfg.old cfg.new) }
        ensures err { OnErr result (cfg.new ≡ cfg.old) }
        ensures without_cells { filter (is_inside (R.row_count records.old) (R.column_count records.old)) (cells_of entity (R.row_count records.old) (R.column_count records.old)) ≡ [] → IsOk result }
        ensures records { records.new ≡ records.old }
    {
        let shape = (records.count_rows(), records.count_columns());
        cfg.config_mut().set_entity_border(entity, shape, self)
    }

    fn hint_change(&self) -> Option<Entity> {
        Some(Entity::Global)
    }
}

impl<R, D> TableOption<R, ColoredConfig, D> for Border<char> {
    ghost makes = { λ border records dims old. table_bordered border old.spanned.characters.class_record };

    ghost hinted = { λ border. Some cells.Global };

    /// Sets the frame of the class record to this border; what the border does not give the frame loses. Where the record has
    /// something between the columns, the crossings on the outer horizontal lines become as these lines, and
    /// where it has something between the rows, those on the outer vertical lines. What is kept for cells,
    /// custom lines and offsets stays. It takes no memory and returns Ok.
    ///
    /// A border of `#` on a table of the style `ascii`:
    ///
    /// ```text
    /// #########
    /// # a | b #
    /// #---+---#
    /// # c | d #
    /// #########
    /// ```
    #[tactic(auto, unfolding(tabled_configuration::specs::Options::table_bordered))]
    fn change(
        self,
        _records: &mut R,
        cfg: &mut ColoredConfig,
        _dims: &mut D,
    ) -> Result<(), OutOfMemory>
        ensures always { IsOk result }
        ensures ok { Changes (table_bordered self cfg.old.spanned.characters.class_record) cfg.old cfg.new }
        ensures records { _records.new ≡ _records.old }
        ensures sizes { _dims.new ≡ _dims.old }
    {
        let class = framed(self, cfg.config().get_borders());
        cfg.config_mut().set_borders(class);
        Ok(())
    }

    fn hint_change(&self) -> Option<Entity> {
        Some(Entity::Global)
    }
}

/// A class record with its frame as the border has it.
fn framed(border: Border<char>, class: &Borders<char>) -> Borders<char>
    ensures { result ≡ framed border class.now }
{
    let between_columns = class.has_vertical();
    let between_rows = class.has_horizontal();
    Borders {
        top: border.top,
        bottom: border.bottom,
        left: border.left,
        right: border.right,
        top_left: border.left_top_corner,
        top_right: border.right_top_corner,
        bottom_left: border.left_bottom_corner,
        bottom_right: border.right_bottom_corner,
        top_intersection: chosen(between_columns, border.top, class.top_intersection),
        bottom_intersection: chosen(between_columns, border.bottom, class.bottom_intersection),
        left_intersection: chosen(between_rows, border.left, class.left_intersection),
        right_intersection: chosen(between_rows, border.right, class.right_intersection),
        horizontal: class.horizontal,
        vertical: class.vertical,
        intersection: class.intersection,
    }
}

/// The one character or the other.
fn chosen(first: bool, one: Option<char>, other: Option<char>) -> Option<char>
    ensures { result ≡ (if first then one else other) }
{
    if first { one } else { other }
}
