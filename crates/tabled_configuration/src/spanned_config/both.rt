//! Several settings of cells at once.

ghost use Rattle.std.specs.Prelude.{◌≡◌, ◌++◌, IsTrue, IsOk, OnOk, OnErr};
ghost use Rattle.tabled_configuration.specs.EntitiesAligned.{entities_aligned};
ghost use Rattle.tabled_settings.specs.Setting.{write_of, is_global};
ghost use Rattle.tabled_settings.specs.CellSettings.{of_trim_horizontal, of_trim_vertical, of_justification, of_justification_color};
ghost use Rattle.tabled_configuration.specs.Configuration.{Changes, by_setting};

use super::SpannedConfig;
use tabled_border::{ANSIBuf, OutOfMemory};
use tabled_object::Entity;
use tabled_settings::AlignmentHorizontal;

impl SpannedConfig {
    /// Sets for each entity of a list, in its order, where the texts of its cells stand between the left and the right side; an entity
    /// with nothing has them at the left again. Where memory is refused nothing changes.
    pub fn set_alignments_horizontal(
        &mut self,
        list: Vec<(Entity, Option<AlignmentHorizontal>)>,
    ) -> Result<(), OutOfMemory>
        ensures ok { OnOk result (Changes (entities_aligned list.items) self.old self.new) }
        ensures err { OnErr result (self.new ≡ self.old) }
    {
        let alloc = self.allocator();
        self.settings
            .cells
            .alignment_horizontal
            .apply_list(alloc, list)?;
        Ok(())
    }

    /// Sets both trims of the cells of an entity: whether spaces at the left and the right of their texts, and whether empty
    /// lines above and below them, are dropped. Where memory is refused neither changes; for all cells none is asked for.
    pub fn set_trims(
        &mut self,
        entity: Entity,
        horizontal: bool,
        vertical: bool,
    ) -> Result<(), OutOfMemory>
        ensures ok { OnOk result (Changes (by_setting (of_trim_horizontal (write_of entity horizontal)) ++ by_setting (of_trim_vertical (write_of entity vertical))) self.old self.new) }
        ensures err { OnErr result (self.new ≡ self.old) }
        ensures always { IsTrue (is_global entity) → IsOk result }
    {
        let settings = &mut self.settings.cells;
        settings
            .trim_horizontal
            .insert_both(&mut settings.trim_vertical, entity, horizontal, vertical)
    }

    /// Sets the character that fills the cells of an entity beside their texts, and its color, or none. Where memory is refused
    /// neither changes; for all cells none is asked for.
    pub fn set_colored_justification(
        &mut self,
        entity: Entity,
        character: char,
        color: Option<ANSIBuf>,
    ) -> Result<(), OutOfMemory>
        ensures ok { OnOk result (Changes (by_setting (of_justification (write_of entity character)) ++ by_setting (of_justification_color (write_of entity color))) self.old self.new) }
        ensures err { OnErr result (self.new ≡ self.old) }
        ensures always { IsTrue (is_global entity) → IsOk result }
    {
        let settings = &mut self.settings.cells;
        settings.justification.insert_both(
            &mut settings.justification_color,
            entity,
            character,
            color,
        )
    }
}
