//! Colors for all cells of a table, by a pattern.

ghost use Rattle.std.specs.Prelude.{◌≡◌, ◌∷◌, [], Some, IfOk};
ghost use Rattle.tabled_object.specs.declared.entity.Entity.TheVariants as cells;
ghost use Rattle.tabled_changes.specs.EntitiesColored.{entities_colored};
ghost use Rattle.tabled_colorization.specs.declared.pattern.Pattern.TheVariants as pattern;
ghost use Rattle.tabled_colorization.specs.Turns.{colorization};

use crate::ExactColorization;
use crate::pattern::Pattern;
use crate::turns::colored_by;
use std::alloc::Global;
use std::marker::Model;
use tabled_border::{Keep, OutOfMemory};
use tabled_changes::{ColoredConfig, TableOption};
use tabled_color::Color;
use tabled_object::{Entity, ExactRecords, Records};

/// Colors for the cells of a table, given in turn: after the last color the first one comes again.
///
/// A color is that of the texts, of the characters that fill a cell beside its text, and of the padding on all sides. The
/// borders stay as they are. Here are x, y and z on two rows of two columns, by columns, by rows, by column and by row:
///
/// ```text
/// x y   x x   x z   x y
/// x y   y y   y x   z x
/// ```
#[derive(Debug, Drop)]
pub struct Colorization {
    pattern: Pattern,
    colors: Vec<Color>,
}

impl Model for Colorization {
    ghost use Rattle.tabled_colorization.specs.Turns.{Colorizing};

    ghost Value = { Colorizing };

    ghost view = { λ given. record { pattern = given.pattern; colors = given.colors.items } };
}

impl Colorization {
    /// Two colors in turn along each row and each column: a cell whose row and column add up to an even number has the
    /// first one. Memory may be refused for the list of them.
    ///
    /// ```text
    /// x y x
    /// y x y
    /// ```
    pub fn chess(alloc: Global, white: Color, black: Color) -> Result<Self, OutOfMemory>
        ensures { IfOk result (λ given. given ≡ record { pattern = pattern.Chess; colors = white ∷ black ∷ [] }) }
    {
        let mut colors = Vec::new(alloc);
        colors.push(white)?;
        colors.push(black)?;
        Ok(Colorization {
            pattern: Pattern::Chess,
            colors,
        })
    }

    /// Makes a color for each row.
    pub fn rows(colors: Vec<Color>) -> Self
        ensures { result ≡ record { pattern = pattern.Rows; colors = colors.items } }
    {
        Colorization {
            pattern: Pattern::Rows,
            colors,
        }
    }

    /// Makes a color for each column.
    pub fn columns(colors: Vec<Color>) -> Self
        ensures { result ≡ record { pattern = pattern.Columns; colors = colors.items } }
    {
        Colorization {
            pattern: Pattern::Columns,
            colors,
        }
    }

    /// Makes a color for each cell, row by row: the first cell of a row goes on where the last one of the row above stopped.
    pub fn by_row(colors: Vec<Color>) -> Self
        ensures { result ≡ record { pattern = pattern.ByRow; colors = colors.items } }
    {
        Colorization {
            pattern: Pattern::ByRow,
            colors,
        }
    }

    /// Makes a color for each cell, column by column: the first cell of a column goes on where the last one of the column at its
    /// left stopped.
    pub fn by_column(colors: Vec<Color>) -> Self
        ensures { result ≡ record { pattern = pattern.ByColumn; colors = colors.items } }
    {
        Colorization {
            pattern: Pattern::ByColumn,
            colors,
        }
    }

    /// Returns a color for each entity that an object lists, in the order of its listing.
    pub fn exact<O>(colors: Vec<Color>, target: O) -> ExactColorization<O>
        ensures { result ≡ record { colors = colors.items; target = target } }
    {
        ExactColorization::new(colors, target)
    }
}

impl<R, D> TableOption<R, ColoredConfig, D> for Colorization
where
    R: Records + ExactRecords,
{
    ghost makes = { λ given records dims old. entities_colored (colorization given (R.row_count records) (R.column_count records)) };

    ghost hinted = { λ given. Some cells.Global };

    /// Colors the cells of the table by the pattern. Without colors nothing changes, and no map of colors is made. Where
    /// memory is refused nothing changes either.
    fn change(
        self,
        records: &mut R,
        cfg: &mut ColoredConfig,
        _dims: &mut D,
    ) -> Result<(), OutOfMemory> {
        let (rows, cols) = (records.count_rows(), records.count_columns());
        let alloc = cfg.config().allocator();
        let list = colored_by(alloc, self.pattern, &self.colors, rows, cols)?;
        cfg.color_entities(&list)
    }

    fn hint_change(&self) -> Option<Entity> {
        Some(Entity::Global)
    }
}

impl Keep for Colorization {
    fn keep(&self, alloc: Global) -> Result<Self, OutOfMemory> {
        let mut colors = Vec::new(alloc);
        for color in &self.colors {
            colors.push(color.keep(alloc)?)?;
        }
        Ok(Colorization {
            pattern: self.pattern,
            colors,
        })
    }
}

/// Two are equal that have the same pattern, and equal colors in the same order.
impl PartialEq for Colorization {
    ghost use Rattle.tabled_colorization.specs.Same.{same_colorization, colorization_per};

    ghost eq = { same_colorization };

    ghost laws = { colorization_per };

    fn eq(&self, other: &Self) -> bool {
        self.pattern == other.pattern && self.colors == other.colors
    }
}

impl Eq for Colorization {
    ghost use Rattle.tabled_colorization.specs.Same.{colorization_equiv};

    ghost laws = { colorization_equiv };
}
