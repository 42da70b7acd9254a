//! What fills a cell beside its text.

ghost use Rattle.std.specs.Prelude.{◌≡◌, refl, Some, None, IfOk, option_map, option_copied};
ghost use Rattle.tabled_changes.specs.declared.resizing.Resizes.TheVariants as resizing;
ghost use Rattle.tabled_color.specs.Shade.{texts_of};
ghost use Rattle.tabled_formatting.specs.Formatting.{justification_set};

use std::alloc::Global;
use std::marker::Model;
use tabled_border::{ANSIBuf, Keep, OutOfMemory};
use tabled_changes::{Resizes, SetCells};
use tabled_color::Color;
use tabled_configuration::SpannedConfig;
use tabled_object::Entity;

/// The character that fills cells beside their texts, and its color. Here it is `#`:
///
/// ```text
/// one##
/// three
/// ```
#[derive(Debug, Drop)]
pub struct Justification {
    c: Option<char>,
    color: Option<Color>,
}

impl Model for Justification {
    ghost use Rattle.tabled_formatting.specs.Formatting.{Justifying};

    ghost Value = { Justifying };

    ghost view = { λ given. record { character = given.c; color = given.color } };
}

impl Justification {
    /// Makes a filling of this character, without a color.
    pub fn new(c: char) -> Self
        ensures { result ≡ record { character = Some c; color = None } }
    {
        Justification {
            c: Some(c),
            color: None,
        }
    }

    /// Makes a filling of this character, in a color.
    pub fn colored(c: char, color: Color) -> Self
        ensures { result ≡ record { character = Some c; color = Some color } }
    {
        Justification {
            c: Some(c),
            color: Some(color),
        }
    }

    /// Returns the filling in a color, with its character.
    pub fn color(self, color: Color) -> Self
        ensures { result ≡ record self { color = Some color } }
    {
        Justification {
            c: self.c,
            color: Some(color),
        }
    }
}

/// The texts of a color, copied, if there is one.
fn optional_texts(alloc: Global, color: Option<&Color>) -> Result<Option<ANSIBuf>, OutOfMemory>
    ensures { IfOk result (λ texts. texts ≡ option_map texts_of (option_copied color.entry)) }
{
    match color {
        Some(color) => Ok(Some(ANSIBuf::new(alloc, color.get_prefix(), color.get_suffix())?)),
        None => Ok(None),
    }
}

/// A space, without a color.
impl Default for Justification {
    ghost is_default = { λ given. given ≡ record { character = None; color = None } };

    fn default() -> Self {
        Justification {
            c: None,
            color: None,
        }
    }
}

impl Keep for Justification {
    fn keep(&self, alloc: Global) -> Result<Self, OutOfMemory> {
        Ok(Justification {
            c: self.c,
            color: self.color.keep(alloc)?,
        })
    }
}

impl SetCells for Justification {
    ghost sets = { justification_set };

    ghost resizes = { resizing.Never };

    ghost takes_no_memory = { λ given. ⊥ };

    ghost leaves_colors = { λ given entity. refl };

    /// Sets the character and the color for the cells of the entity: a space where no character is given, and no color where
    /// none is given. Where memory is refused neither changes.
    fn set_cells(&self, config: &mut SpannedConfig, entity: Entity) -> Result<(), OutOfMemory> {
        let color = optional_texts(config.allocator(), self.color.as_ref())?;
        config.set_colored_justification(entity, self.c.unwrap_or(' '), color)
    }

    fn resizes() -> Resizes {
        Resizes::Never
    }
}
