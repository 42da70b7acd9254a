//! The border of a cell as an option: around cells, and around a whole table.

ghost use Rattle.std.specs.Prelude.{◌≡◌, [], Some, IsOk, OnOk, OnErr, filter};
ghost use Rattle.tabled_object.specs.Entities.{cells_of, is_inside};
ghost use Rattle.tabled_object.specs.declared.entity.Entity.TheVariants as cells;
ghost use Rattle.tabled_configuration.specs.Colored.{Changes};
ghost use Rattle.tabled_configuration.specs.Options.{entity_bordered, table_bordered, entity_unbordered, table_unbordered};

use super::{Border, EmptyBorder};
use tabled_border::OutOfMemory;
use tabled_changes::{CellOption, ColoredConfig, TableOption};
use tabled_object::{Entity, ExactRecords, Records};

impl<T, B, L, R, Data: Records + ExactRecords> CellOption<Data, ColoredConfig>
    for Border<T, B, L, R> {
    ghost makes = { λ border records entity old. entity_bordered border (Data.row_count records, Data.column_count records) entity };

    ghost hinted = { λ border. Some cells.Global };

    /// Writes the given sides and corners of each cell of the entity that lies in the table, row by row: for what two cells share
    /// the later one counts. What is not given stays as it is. Without a cell inside it takes no memory and returns Ok.
    ///
    /// `Border::filled('#')` on the cell (0, 0), in a table of the style `ascii`:
    ///
    /// ```text
    /// #####---+
    /// # a # b |
    /// #####---+
    /// | c | d |
    /// +---+---+
    /// ```
    fn change(
        &self,
        records: &mut Data,
        cfg: &mut ColoredConfig,
        entity: Entity,
    ) -> Result<(), OutOfMemory>
        ensures ok { OnOk result (Changes (entity_bordered self.now (Data.row_count records.old, Data.column_count records.old) entity) cfg.old cfg.new) }
        ensures err { OnErr result (cfg.new ≡ cfg.old) }
        ensures without_cells { filter (is_inside (Data.row_count records.old) (Data.column_count records.old)) (cells_of entity (Data.row_count records.old) (Data.column_count records.old)) ≡ [] → IsOk result }
        ensures records { records.new ≡ records.old }
    {
        CellOption::change(&self.border, records, cfg, entity)
    }

    fn hint_change(&self) -> Option<Entity> {
        Some(Entity::Global)
    }
}

impl<T, B, L, R, Data, Dims> TableOption<Data, ColoredConfig, Dims> for Border<T, B, L, R> {
    ghost makes = { λ border records dims old. table_bordered border old.spanned.characters.class_record };

    ghost hinted = { λ border. Some cells.Global };

    /// Sets the frame of the class record to this border; what the border does not give the frame loses. Where the record
    /// has something between the columns, the crossings on the outer horizontal lines become as these lines, and where it has
    /// something between the rows, those on the outer vertical lines. What is kept for cells, custom lines and
    /// offsets stays. It takes no memory and returns Ok.
    ///
    /// `Border::filled('#')` on a table of the style `ascii`:
    ///
    /// ```text
    /// #########
    /// # a | b #
    /// #---+---#
    /// # c | d #
    /// #########
    /// ```
    fn change(
        self,
        records: &mut Data,
        cfg: &mut ColoredConfig,
        dims: &mut Dims,
    ) -> Result<(), OutOfMemory>
        ensures always { IsOk result }
        ensures ok { Changes (table_bordered self cfg.old.spanned.characters.class_record) cfg.old cfg.new }
        ensures records { records.new ≡ records.old }
        ensures sizes { dims.new ≡ dims.old }
    {
        TableOption::change(self.border, records, cfg, dims)
    }

    fn hint_change(&self) -> Option<Entity> {
        Some(Entity::Global)
    }
}

impl<Data: Records + ExactRecords> CellOption<Data, ColoredConfig> for EmptyBorder {
    ghost makes = { λ border records entity old. entity_unbordered (Data.row_count records, Data.column_count records) entity };

    ghost hinted = { λ border. Some cells.Global };

    /// Erases the cell characters of the sides and corners of each cell of the entity that lies in the table, also
    /// of those that it shares with cells beside it. It takes no memory and returns Ok.
    ///
    /// A cell with a border of its own, in a table of the style `ascii`, before and after:
    ///
    /// ```text
    /// #####---+      +---+---+
    /// # a # b |      | a | b |
    /// #####---+      +---+---+
    /// | c | d |      | c | d |
    /// +---+---+      +---+---+
    /// ```
    fn change(
        &self,
        records: &mut Data,
        cfg: &mut ColoredConfig,
        entity: Entity,
    ) -> Result<(), OutOfMemory>
        ensures always { IsOk result }
        ensures ok { Changes (entity_unbordered (Data.row_count records.old, Data.column_count records.old) entity) cfg.old cfg.new }
        ensures records { records.new ≡ records.old }
    {
        let shape = (records.count_rows(), records.count_columns());
        cfg.config_mut().remove_entity_border(entity, shape);
        Ok(())
    }

    fn hint_change(&self) -> Option<Entity> {
        Some(Entity::Global)
    }
}

impl<Data: Records + ExactRecords, Dims> TableOption<Data, ColoredConfig, Dims> for EmptyBorder {
    ghost makes = { λ border records dims old. table_unbordered (Data.row_count records, Data.column_count records) old.spanned.characters.class_record };

    ghost hinted = { λ border. Some cells.Global };

    /// Removes the frame of the table: the class record keeps what lies inside, and the cell characters on the outer
    /// lines are erased. Custom lines, offset characters and colors stay. A table without rows or columns has no
    /// frame. It takes no memory and returns Ok.
    ///
    /// On a table of the style `ascii`:
    ///
    /// ```text
    ///  a | b
    /// ---+---
    ///  c | d
    /// ```
    fn change(
        self,
        records: &mut Data,
        cfg: &mut ColoredConfig,
        dims: &mut Dims,
    ) -> Result<(), OutOfMemory>
        ensures always { IsOk result }
        ensures ok { Changes (table_unbordered (Data.row_count records.old, Data.column_count records.old) cfg.old.spanned.characters.class_record) cfg.old cfg.new }
        ensures records { records.new ≡ records.old }
        ensures sizes { dims.new ≡ dims.old }
    {
        let shape = (records.count_rows(), records.count_columns());
        cfg.config_mut().remove_frame(shape);
        Ok(())
    }

    fn hint_change(&self) -> Option<Entity> {
        Some(Entity::Global)
    }
}
