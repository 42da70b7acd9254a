//! What is said beside a table that is shown.

ghost use Rattle.std.specs.Prelude.{◌≡◌, if◌then◌else◌, List, None, Some};
ghost use Rattle.tabled_configuration.specs.Configuration as borders;
ghost use Rattle.tabled_configuration.specs.Configuration.{ConfigEvent};
ghost use Rattle.tabled_viewing.specs.Notes.{no_notes, notes_of, width_missed};

use crate::asked::{lacks_color, width_asked};
use std::convert::AsStr;
use tabled_request::{Request, Surroundings};
use tabled_text::Table;

/// What is said beside a table that is shown.
#[derive(Clone, Copy, Debug, PartialEq, Eq)]
pub struct Notes {
    /// How many columns of the terminal the table was to take at most, where it takes more.
    pub too_wide: Option<usize>,
    /// Whether a color was asked for, and there are none.
    pub lacks_color: bool,
}

impl Notes {
    /// Returns that nothing is said.
    pub fn none() -> Notes
        ensures { result ≡ no_notes }
    {
        Notes {
            too_wide: None,
            lacks_color: false,
        }
    }
}

/// A number of columns, if it was missed.
fn width_if(is_missed: bool, width: usize) -> Option<usize>
    ensures { result ≡ (if is_missed then Some width else None) }
{
    if is_missed { Some(width) } else { None }
}

/// The number of columns that a table was to stay within, where it takes more.
fn width_missed<T: AsStr + Drop>(table: &Table<T>, width: Option<usize>) -> Option<usize>
    ensures { (events : List ConfigEvent) → borders.Shows events table.now.config.spanned → result ≡ width_missed width events table.now.texts }
{
    match width {
        Some(width) => width_if(width < table.least_width(usize::MAX), width),
        None => None,
    }
}

/// What is said beside a table whose borders are drawn.
pub(crate) fn notes_of<T: AsStr + Drop>(
    table: &Table<T>,
    request: Request,
    around: Surroundings,
) -> Notes
    ensures { (events : List ConfigEvent) → borders.Shows events table.now.config.spanned → result ≡ notes_of request around events table.now.texts }
{
    Notes {
        too_wide: width_missed(table, width_asked(request, around)),
        lacks_color: lacks_color(request, around),
    }
}
