//! The promises at work: what two options show where four cells meet, a table that is a rectangle, and one of texts from outside.

ghost use Rattle.std.specs.Prelude.{◌≡◌, ℕ, List, [], ◌∷◌, ◌++◌, Some, None, true, IfOk, OnOk, string_bytes};
ghost use Rattle.tabled_clean.specs.Steering.{is_clean};
ghost use Rattle.tabled_border.specs.declared.border.Border.{Border as Around};
ghost use Rattle.tabled_object.specs.declared.entity.Entity.TheVariants.{Cell};
ghost use Rattle.tabled_places.specs.declared.place.Place.TheVariants.{Cross};
ghost use Rattle.tabled_places.specs.Event.{replay};
ghost use Rattle.tabled_places.specs.Value.{value};
ghost use Rattle.tabled_configuration.specs.Colored.{Colored, Changes};
ghost use Rattle.tabled_configuration.specs.Configuration.{ConfigEvent, borders_replaced, characters_of};
ghost use Rattle.tabled_width.specs.Narrow.{IsRectangle};
ghost use Rattle.tabled_config.specs.Headline.{HaveMade};
ghost use Rattle.tabled_configuration.specs.Options.{MakesInTurn, entity_bordered};
ghost use Rattle.tabled_style.specs.Ready.{ascii};
ghost use Rattle.tabled_claims.specs.Clean.{ShowsPlainly};

use std::alloc::Global;
use tabled_border::{Border, OutOfMemory};
use tabled_border_claims::lists::headline;
use tabled_changes::{CellOption, ColoredConfig, TableOption};
use tabled_configuration::SpannedConfig;
use tabled_grid::{LineOf, Place};
use tabled_highlight::Highlight;
use tabled_object::{Entity, FirstRow, FixedDimension, Shape};
use tabled_options::LineText;
use tabled_style::Style;
use tabled_text::{TableError, TextTable};

/// Two options on a table of two rows and two columns: the style `ascii`, and then a `#` at the upper left corner of the last
/// cell. Where the four cells meet the table shows that `#`, and not the `+` of the style.
///
/// ```text
/// +---+---+
/// | a | b |
/// +---#---+
/// | c | d |
/// +---+---+
/// ```
pub fn corner_over_a_style(alloc: Global) -> Result<Option<char>, OutOfMemory>
    ensures { IfOk result (λ shown. shown ≡ Some 35) }
{
    let mut cfg = ColoredConfig::new(SpannedConfig::new(alloc));
    let applied = style_with_a_corner(alloc, &mut cfg);
    let shown = shown_in_the_middle(alloc, &cfg);
    drop(cfg);
    applied?;
    Ok(shown)
}

/// Applies the two options.
fn style_with_a_corner(alloc: Global, cfg: &mut ColoredConfig) -> Result<(), OutOfMemory>
    ensures { let corner : Around ℕ = record { top = None; bottom = None; left = None; right = None; left_top_corner = Some 35; left_bottom_corner = None; right_top_corner = None; right_bottom_corner = None } in
        OnOk result (MakesInTurn Changes
        ((λ (before : Colored). borders_replaced ascii.borders ascii.horizontals ascii.verticals) ∷ (λ (before : Colored). entity_bordered corner (2, 2) (Cell 1 1)) ∷ [])
        (borders_replaced ascii.borders ascii.horizontals ascii.verticals ++ (entity_bordered corner (2, 2) (Cell 1 1) ++ [])) cfg.old cfg.new) }
{
    let mut shape = Shape { rows: 2, cols: 2 };
    Style::ascii().change(&mut shape, cfg, &mut 0)?;
    let corner = Border {
        left_top_corner: Some('#'),
        ..Border::empty()
    };
    CellOption::change(&corner, &mut shape, cfg, Entity::Cell(1, 1))
}

/// What the table shows where its four cells meet.
fn shown_in_the_middle(alloc: Global, cfg: &ColoredConfig) -> Option<char>
    ensures { (options : List (Colored → List ConfigEvent)) (events : List ConfigEvent) → HaveMade options events cfg.now
        → result ≡ value (replay (characters_of events)) (2, 2) 0 (Cross 1 1) }
{
    let sizes = FixedDimension::new(Vec::new(alloc), Vec::new(alloc));
    let mut out = String::new(alloc);
    let place = Place::Cross { row: 1, col: 1 };
    let line = LineOf::Horizontal(1);
    headline(cfg, &sizes, (2, 2), &[], place, line, &mut out).character
}

/// Rows of texts in a rounded frame, with a title on its first line and an outline around the first row: whatever the cells say, each line
/// of the text takes as many columns of the terminal as the others.
///
/// ```text
/// Prices###
/// # a │ b #
/// #########
/// │ c │ d │
/// ╰───┴───╯
/// ```
pub fn framed_with_a_title(alloc: Global, rows: Vec<Vec<String>>) -> Result<String, TableError>
    ensures { IfOk result (λ text. (width : ℕ) × IsRectangle width (string_bytes text)) }
{
    let mut table = in_a_rounded_frame(alloc, rows)?;
    outlined(&mut table)?;
    entitled(alloc, &mut table)?;
    let text = table.to_text()?;
    Ok(text)
}

/// Rows of texts from outside, cleaned, in a rounded frame with a title on its first line: whatever the texts say, each line of the printed
/// text takes as many columns of the terminal as the others, and nothing in it steers the terminal.
///
/// ```text
/// Prices──╮
/// │ a │ b │
/// ├───┼───┤
/// │ c │ d │
/// ╰───┴───╯
/// ```
pub fn texts_from_outside(alloc: Global, rows: Vec<Vec<String>>) -> Result<String, TableError>
    ensures rectangle { IfOk result (λ text. (width : ℕ) × IsRectangle width (string_bytes text)) }
    ensures clean { IfOk result (λ text. is_clean (string_bytes text) ≡ true) }
{
    let mut table = in_a_rounded_frame(alloc, rows)?;
    table.clean()?;
    entitled(alloc, &mut table)?;
    let text = table.to_text()?;
    Ok(text)
}

/// A table of these rows in a rounded frame.
fn in_a_rounded_frame(alloc: Global, rows: Vec<Vec<String>>) -> Result<TextTable, TableError>
    ensures { IfOk result (λ table. ShowsPlainly table.config.spanned) }
{
    let mut table = TextTable::from_rows(alloc, rows)?;
    table.apply(Style::rounded())?;
    Ok(table)
}

/// Outlines the first row of a table.
fn outlined(table: &mut TextTable) -> Result<(), OutOfMemory>
    requires { ShowsPlainly table.old.config.spanned }
    ensures { OnOk result (ShowsPlainly table.new.config.spanned) }
{
    table.apply(Highlight::outline(FirstRow, '#'))
}

/// Writes a title on the first line of a table.
fn entitled(alloc: Global, table: &mut TextTable) -> Result<(), OutOfMemory>
    requires { ShowsPlainly table.old.config.spanned }
    ensures shown { OnOk result (ShowsPlainly table.new.config.spanned) }
    ensures texts { table.new.texts ≡ table.old.texts }
{
    let title = LineText::new(alloc, "Prices", FirstRow)?;
    table.apply(title)
}
