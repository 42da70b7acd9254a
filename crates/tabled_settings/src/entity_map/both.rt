//! One write in each of two maps.

ghost use Rattle.std.specs.Prelude.{◌≡◌, IsTrue, IsOk, OnOk, OnErr};
ghost use Rattle.tabled_settings.specs.Setting.{write_of, is_global};
ghost use Rattle.tabled_settings.specs.Live.{after};

use super::EntityMap;
use tabled_border::OutOfMemory;
use tabled_object::Entity;

impl<T> EntityMap<T> {
    /// Writes a value for the cells of an entity here, and one in another map. Where memory is refused neither changes; for all
    /// cells none is asked for.
    pub fn insert_both<U>(
        &mut self,
        other: &mut EntityMap<U>,
        entity: Entity,
        value: T,
        other_value: U,
    ) -> Result<(), OutOfMemory>
    where
        T: Drop,
        U: Drop,
        ensures ok { OnOk result (self.new ≡ after self.old (write_of entity value)) }
        ensures other_ok { OnOk result (other.new ≡ after other.old (write_of entity other_value)) }
        ensures err { OnErr result (self.new ≡ self.old) }
        ensures other_err { OnErr result (other.new ≡ other.old) }
        ensures always { IsTrue (is_global entity) → IsOk result }
    {
        match entity {
            Entity::Global => {
                self.set_all(Some(value));
                other.set_all(Some(other_value));
            }
            _ => {
                self.since
                    .put_both(&mut other.since, entity, Some(value), Some(other_value))?;
            }
        }
        Ok(())
    }
}
