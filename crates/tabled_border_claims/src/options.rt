//! How any option changes a configuration, and what each option of this library makes.

ghost use Rattle.std.specs.Prelude.{◌≡◌, ◌∷◌, ◌++◌, ℕ, List, [], map, take, IsOk, OnOk, OnErr};
ghost use Rattle.tabled_object.specs.declared.entity.Entity.TheVariants as cells;
ghost use Rattle.tabled_settings.specs.Setting.{write_of};
ghost use Rattle.tabled_configuration.specs.Colored.{Shows, Changes, by_cell_color};
ghost use Rattle.tabled_configuration.specs.Configuration.{ConfigEvent, all_writes, borders_replaced};
ghost use Rattle.tabled_changes.specs.EntitiesColored.{entities_colored};
ghost use Rattle.tabled_configuration.specs.Options.{MakesInTurn, entity_bordered, entity_unbordered, table_bordered, table_unbordered};
ghost use Rattle.tabled_printing.specs.Picture.{look};
ghost use Rattle.tabled_color.specs.BorderColors.{border_texts};
ghost use Rattle.tabled_color.specs.Coloring.{entity_colored, table_colored};
ghost use Rattle.tabled_color.specs.Shade.{texts_of};
ghost use Rattle.tabled_style.specs.Named.{ready_applied, shown};
ghost use Rattle.tabled_theme.specs.Events.{theme_applied};
ghost use Rattle.tabled_highlight.specs.Highlighting.{highlight_events};
ghost use Rattle.tabled_colorization.specs.Turns.{colorization, exact_colorization};
ghost use Rattle.tabled_correction.specs.Correction.{correction_events};
ghost use Rattle.tabled_options.specs.LineChar.{line_char_events};
ghost use Rattle.tabled_options.specs.LineText.{text_events};
ghost use Rattle.tabled_options.specs.NamedLine.{column_line, last_column_line, last_row_line, row_line};
ghost use Rattle.std.specs.List.{filter};
ghost use Rattle.tabled_object.specs.Entities.{cells_of, is_inside};

use std::alloc::Global;
use tabled_border::{Border as GridBorder, OutOfMemory};
use tabled_changes::{CellOption, ColoredConfig, TableOption, modify};
use tabled_color::{BorderColor, Color};
use tabled_colorization::{CellColor, Colorization, ExactColorization};
use tabled_correction::BorderCorrection;
use tabled_grid::Borders;
use tabled_highlight::Highlight;
use tabled_object::{
    Column, Dimension, Entity, ExactRecords, FirstColumn, FirstRow, LastColumn, LastColumnOffset,
    LastRow, LastRowOffset, Object, Records, Row,
};
use tabled_options::{LineChar, LineText};
use tabled_style::{Border, EmptyBorder, ReadyStyle, Style};
use tabled_theme::Theme;

/// An option of any type, also of one's own: for every list of events that was shown before it, that list followed by the
/// option's events is shown after it. A refusal changes nothing; records and sizes stay.
pub fn any_option<P, R, D>(
    option: P,
    records: &mut R,
    cfg: &mut ColoredConfig,
    dims: &mut D,
) -> Result<(), OutOfMemory>
where
    P: TableOption<R, ColoredConfig, D>,
    ensures shown { (before : List ConfigEvent) → Shows before cfg.old → OnOk result (Shows (before ++ P.makes option records.old dims.old cfg.old) cfg.new) }
    ensures unchanged { OnErr result (cfg.new ≡ cfg.old) }
    ensures records { records.new ≡ records.old }
    ensures sizes { dims.new ≡ dims.old }
{
    option.change(records, cfg, dims)
}

/// An option of any type on the cells of an entity does what `any_option` says of it on a table; the records stay.
pub fn any_option_on_an_entity<P, R>(
    option: &P,
    records: &mut R,
    cfg: &mut ColoredConfig,
    entity: Entity,
) -> Result<(), OutOfMemory>
where
    P: CellOption<R, ColoredConfig>,
    ensures shown { (before : List ConfigEvent) → Shows before cfg.old → OnOk result (Shows (before ++ P.makes option.now records.old entity cfg.old) cfg.new) }
    ensures unchanged { OnErr result (cfg.new ≡ cfg.old) }
    ensures records { records.new ≡ records.old }
{
    option.change(records, cfg, entity)
}

/// An option of any type on the entities that an object lists, in turn; a refusal leaves the changes of the first of them, each whole.
pub fn any_option_on_an_object<R, O, P>(
    alloc: Global,
    records: &mut R,
    cfg: &mut ColoredConfig,
    object: &O,
    option: &P,
) -> Result<(), OutOfMemory>
where
    R: Records + ExactRecords,
    O: Object<R>,
    P: CellOption<R, ColoredConfig>,
    ensures in_turn { OnOk result ((made : List ConfigEvent) × MakesInTurn Changes
        (map (P.makes option.now records.old) (O.listing object.now (R.row_count records.old) (R.column_count records.old))) made cfg.old cfg.new) }
    ensures beginning { OnErr result ((count : ℕ) × (made : List ConfigEvent) × MakesInTurn Changes
        (map (P.makes option.now records.old) (take count (O.listing object.now (R.row_count records.old) (R.column_count records.old)))) made cfg.old cfg.new) }
    ensures records { records.new ≡ records.old }
{
    modify(alloc, records, cfg, object, option)
}

/// A style: all borders and their colors are erased, the custom lines put, the class record set; without lines no memory is asked for.
pub fn style_on_a_table<T, B, L, Right, H, V, const HN: usize, const VN: usize, R, D>(
    option: Style<T, B, L, Right, H, V, HN, VN>,
    records: &mut R,
    cfg: &mut ColoredConfig,
    dims: &mut D,
) -> Result<(), OutOfMemory>
    ensures changed { OnOk result (Changes (borders_replaced option.borders option.horizontals option.verticals) cfg.old cfg.new) }
    ensures without_lines { option.horizontals ≡ [] → option.verticals ≡ [] → IsOk result }
{
    option.change(records, cfg, dims)
}

/// A style that is chosen while the program runs: what the style of its name makes.
pub fn ready_style_on_a_table<R, D>(
    option: ReadyStyle,
    records: &mut R,
    cfg: &mut ColoredConfig,
    dims: &mut D,
) -> Result<(), OutOfMemory>
    ensures changed { OnOk result (Changes (ready_applied option) cfg.old cfg.new) }
    ensures without_lines { (shown option).horizontals ≡ [] → IsOk result }
{
    option.change(records, cfg, dims)
}

/// A theme: what its style makes, and then its class colors.
pub fn theme_on_a_table<R, D>(
    option: Theme,
    records: &mut R,
    cfg: &mut ColoredConfig,
    dims: &mut D,
) -> Result<(), OutOfMemory>
    ensures { OnOk result (Changes (theme_applied option) cfg.old cfg.new) }
{
    option.change(records, cfg, dims)
}

/// A class record: what a style without custom lines makes, and no memory is asked for.
pub fn class_record_on_a_table<R, D>(
    option: Borders<char>,
    records: &mut R,
    cfg: &mut ColoredConfig,
    dims: &mut D,
) -> Result<(), OutOfMemory>
    ensures changed { OnOk result (Changes (borders_replaced option [] []) cfg.old cfg.new) }
    ensures always { IsOk result }
{
    option.change(records, cfg, dims)
}

/// A border around a table, fitted to its class record; no memory is asked for.
pub fn frame_on_a_table<T, B, L, Right, R, D>(
    option: Border<T, B, L, Right>,
    records: &mut R,
    cfg: &mut ColoredConfig,
    dims: &mut D,
) -> Result<(), OutOfMemory>
    ensures changed { OnOk result (Changes (table_bordered option cfg.old.spanned.characters.class_record) cfg.old cfg.new) }
    ensures always { IsOk result }
{
    option.change(records, cfg, dims)
}

/// A border without markers around a table, fitted to its class record; no memory is asked for.
pub fn grid_border_on_a_table<R, D>(
    option: GridBorder<char>,
    records: &mut R,
    cfg: &mut ColoredConfig,
    dims: &mut D,
) -> Result<(), OutOfMemory>
    ensures changed { OnOk result (Changes (table_bordered option cfg.old.spanned.characters.class_record) cfg.old cfg.new) }
    ensures always { IsOk result }
{
    option.change(records, cfg, dims)
}

/// A table without its frame; no memory is asked for.
pub fn no_frame_on_a_table<R, D>(
    option: EmptyBorder,
    records: &mut R,
    cfg: &mut ColoredConfig,
    dims: &mut D,
) -> Result<(), OutOfMemory>
where
    R: Records + ExactRecords,
    ensures changed { OnOk result (Changes (table_unbordered (R.row_count records.old, R.column_count records.old) cfg.old.spanned.characters.class_record) cfg.old cfg.new) }
    ensures always { IsOk result }
{
    option.change(records, cfg, dims)
}

/// A border around each cell of an entity that lies in the table.
pub fn border_on_cells<T, B, L, Right, R>(
    option: &Border<T, B, L, Right>,
    records: &mut R,
    cfg: &mut ColoredConfig,
    entity: Entity,
) -> Result<(), OutOfMemory>
where
    R: Records + ExactRecords,
    ensures changed { OnOk result (Changes (entity_bordered option.now (R.row_count records.old, R.column_count records.old) entity) cfg.old cfg.new) }
    ensures without_cells { filter (is_inside (R.row_count records.old) (R.column_count records.old)) (cells_of entity (R.row_count records.old) (R.column_count records.old)) ≡ [] → IsOk result }
{
    option.change(records, cfg, entity)
}

/// A border without markers around each cell of an entity that lies in the table.
pub fn grid_border_on_cells<R>(
    option: &GridBorder<char>,
    records: &mut R,
    cfg: &mut ColoredConfig,
    entity: Entity,
) -> Result<(), OutOfMemory>
where
    R: Records + ExactRecords,
    ensures changed { OnOk result (Changes (entity_bordered option.now (R.row_count records.old, R.column_count records.old) entity) cfg.old cfg.new) }
    ensures without_cells { filter (is_inside (R.row_count records.old) (R.column_count records.old)) (cells_of entity (R.row_count records.old) (R.column_count records.old)) ≡ [] → IsOk result }
{
    option.change(records, cfg, entity)
}

/// The cells of an entity without their borders; no memory is asked for.
pub fn no_border_on_cells<R>(
    option: &EmptyBorder,
    records: &mut R,
    cfg: &mut ColoredConfig,
    entity: Entity,
) -> Result<(), OutOfMemory>
where
    R: Records + ExactRecords,
    ensures changed { OnOk result (Changes (entity_unbordered (R.row_count records.old, R.column_count records.old) entity) cfg.old cfg.new) }
    ensures always { IsOk result }
{
    option.change(records, cfg, entity)
}

/// A text on the line above a row, read off the table as it looks before; also on the closing line, which the number of rows names.
pub fn text_above_a_row<R, D>(
    option: LineText<Row>,
    records: &mut R,
    cfg: &mut ColoredConfig,
    dims: &mut D,
) -> Result<(), OutOfMemory>
where
    R: Records + ExactRecords,
    D: Dimension,
    ensures { OnOk result (Changes (text_events option (look (all_writes cfg.old.spanned) (R.row_count records.old, R.column_count records.old) (D.width_of dims.old) (D.height_of dims.old)) (row_line option.line.index)) cfg.old cfg.new) }
{
    option.change(records, cfg, dims)
}

/// A text on the first line of a table.
pub fn text_above_the_first_row<R, D>(
    option: LineText<FirstRow>,
    records: &mut R,
    cfg: &mut ColoredConfig,
    dims: &mut D,
) -> Result<(), OutOfMemory>
where
    R: Records + ExactRecords,
    D: Dimension,
    ensures { OnOk result (Changes (text_events option (look (all_writes cfg.old.spanned) (R.row_count records.old, R.column_count records.old) (D.width_of dims.old) (D.height_of dims.old)) (row_line 0)) cfg.old cfg.new) }
{
    option.change(records, cfg, dims)
}

/// A text on the line above the last row.
pub fn text_above_the_last_row<R, D>(
    option: LineText<LastRow>,
    records: &mut R,
    cfg: &mut ColoredConfig,
    dims: &mut D,
) -> Result<(), OutOfMemory>
where
    R: Records + ExactRecords,
    D: Dimension,
    ensures { OnOk result (Changes (text_events option (look (all_writes cfg.old.spanned) (R.row_count records.old, R.column_count records.old) (D.width_of dims.old) (D.height_of dims.old)) (last_row_line 0 (R.row_count records.old, R.column_count records.old))) cfg.old cfg.new) }
{
    option.change(records, cfg, dims)
}

/// A text on the line above the row the given number of rows before the last one.
pub fn text_above_a_row_before_the_last<R, D>(
    option: LineText<LastRowOffset>,
    records: &mut R,
    cfg: &mut ColoredConfig,
    dims: &mut D,
) -> Result<(), OutOfMemory>
where
    R: Records + ExactRecords,
    D: Dimension,
    ensures { OnOk result (Changes (text_events option (look (all_writes cfg.old.spanned) (R.row_count records.old, R.column_count records.old) (D.width_of dims.old) (D.height_of dims.old)) (last_row_line option.line.offset (R.row_count records.old, R.column_count records.old))) cfg.old cfg.new) }
{
    option.change(records, cfg, dims)
}

/// A text on the line left of a column; also on the line that closes the table, which the number of its columns names.
pub fn text_left_of_a_column<R, D>(
    option: LineText<Column>,
    records: &mut R,
    cfg: &mut ColoredConfig,
    dims: &mut D,
) -> Result<(), OutOfMemory>
where
    R: Records + ExactRecords,
    D: Dimension,
    ensures { OnOk result (Changes (text_events option (look (all_writes cfg.old.spanned) (R.row_count records.old, R.column_count records.old) (D.width_of dims.old) (D.height_of dims.old)) (column_line option.line.index)) cfg.old cfg.new) }
{
    option.change(records, cfg, dims)
}

/// A text on the first vertical line of a table.
pub fn text_left_of_the_first_column<R, D>(
    option: LineText<FirstColumn>,
    records: &mut R,
    cfg: &mut ColoredConfig,
    dims: &mut D,
) -> Result<(), OutOfMemory>
where
    R: Records + ExactRecords,
    D: Dimension,
    ensures { OnOk result (Changes (text_events option (look (all_writes cfg.old.spanned) (R.row_count records.old, R.column_count records.old) (D.width_of dims.old) (D.height_of dims.old)) (column_line 0)) cfg.old cfg.new) }
{
    option.change(records, cfg, dims)
}

/// A text on the line left of the last column.
pub fn text_left_of_the_last_column<R, D>(
    option: LineText<LastColumn>,
    records: &mut R,
    cfg: &mut ColoredConfig,
    dims: &mut D,
) -> Result<(), OutOfMemory>
where
    R: Records + ExactRecords,
    D: Dimension,
    ensures { OnOk result (Changes (text_events option (look (all_writes cfg.old.spanned) (R.row_count records.old, R.column_count records.old) (D.width_of dims.old) (D.height_of dims.old)) (last_column_line 0 (R.row_count records.old, R.column_count records.old))) cfg.old cfg.new) }
{
    option.change(records, cfg, dims)
}

/// A text on the line left of the column the given number of columns before the last one.
pub fn text_left_of_a_column_before_the_last<R, D>(
    option: LineText<LastColumnOffset>,
    records: &mut R,
    cfg: &mut ColoredConfig,
    dims: &mut D,
) -> Result<(), OutOfMemory>
where
    R: Records + ExactRecords,
    D: Dimension,
    ensures { OnOk result (Changes (text_events option (look (all_writes cfg.old.spanned) (R.row_count records.old, R.column_count records.old) (D.width_of dims.old) (D.height_of dims.old)) (last_column_line option.line.offset (R.row_count records.old, R.column_count records.old))) cfg.old cfg.new) }
{
    option.change(records, cfg, dims)
}

/// A character at a numbered place of the edge at each position of an entity.
pub fn character_on_edges<R>(
    option: &LineChar,
    records: &mut R,
    cfg: &mut ColoredConfig,
    entity: Entity,
) -> Result<(), OutOfMemory>
where
    R: Records + ExactRecords,
    ensures { OnOk result (Changes (line_char_events option.now (R.row_count records.old, R.column_count records.old) entity) cfg.old cfg.new) }
{
    option.change(records, cfg, entity)
}

/// An outline around the cells that an object lists, in characters and in colors, with a character of its own where two of
/// these cells touch at a corner alone.
pub fn outline_on_a_table<O, R, D>(
    option: Highlight<O>,
    records: &mut R,
    cfg: &mut ColoredConfig,
    dims: &mut D,
) -> Result<(), OutOfMemory>
where
    R: Records + ExactRecords,
    O: Object<R> + Drop,
    ensures { OnOk result (Changes (highlight_events (R.row_count records.old, R.column_count records.old) (O.listing option.target (R.row_count records.old) (R.column_count records.old)) option.border option.diagonal option.color) cfg.old cfg.new) }
{
    option.change(records, cfg, dims)
}

/// The correction of the crossings beside cells that span.
pub fn correction_on_a_table<R, D>(
    option: BorderCorrection,
    records: &mut R,
    cfg: &mut ColoredConfig,
    dims: &mut D,
) -> Result<(), OutOfMemory>
where
    R: Records + ExactRecords,
    ensures { OnOk result (Changes (correction_events (R.row_count records.old, R.column_count records.old) cfg.old.spanned) cfg.old cfg.new) }
{
    option.change(records, cfg, dims)
}

/// Colors of the border of a table.
pub fn border_colors_on_a_table<R, D>(
    option: BorderColor,
    records: &mut R,
    cfg: &mut ColoredConfig,
    dims: &mut D,
) -> Result<(), OutOfMemory>
where
    R: Records + ExactRecords,
    ensures { OnOk result (Changes (table_colored (border_texts option) (R.row_count records.old, R.column_count records.old)) cfg.old cfg.new) }
{
    option.change(records, cfg, dims)
}

/// Colors of the border of each cell of an entity.
pub fn border_colors_on_cells<R>(
    option: &BorderColor,
    records: &mut R,
    cfg: &mut ColoredConfig,
    entity: Entity,
) -> Result<(), OutOfMemory>
where
    R: Records + ExactRecords,
    ensures { OnOk result (Changes (entity_colored (border_texts option.now) (R.row_count records.old, R.column_count records.old) entity) cfg.old cfg.new) }
{
    option.change(records, cfg, entity)
}

/// The color of all cells.
pub fn color_on_a_table<R, D>(
    option: Color,
    records: &mut R,
    cfg: &mut ColoredConfig,
    dims: &mut D,
) -> Result<(), OutOfMemory>
    ensures { OnOk result (Changes (by_cell_color (write_of cells.Global (texts_of option))) cfg.old cfg.new) }
{
    option.change(records, cfg, dims)
}

/// The color of the cells of an entity.
pub fn color_on_cells<R>(
    option: &Color,
    records: &mut R,
    cfg: &mut ColoredConfig,
    entity: Entity,
) -> Result<(), OutOfMemory>
    ensures { OnOk result (Changes (by_cell_color (write_of entity (texts_of option.now))) cfg.old cfg.new) }
{
    option.change(records, cfg, entity)
}

/// One color for the cells of an entity, with their fillings and their padding.
pub fn color_of_whole_cells<R>(
    option: &CellColor,
    records: &mut R,
    cfg: &mut ColoredConfig,
    entity: Entity,
) -> Result<(), OutOfMemory>
    ensures { OnOk result (Changes (entities_colored ((entity, texts_of option.now) ∷ [])) cfg.old cfg.new) }
{
    option.change(records, cfg, entity)
}

/// One color for all cells, with their fillings and their padding.
pub fn color_of_all_cells<R, D>(
    option: CellColor,
    records: &mut R,
    cfg: &mut ColoredConfig,
    dims: &mut D,
) -> Result<(), OutOfMemory>
    ensures { OnOk result (Changes (entities_colored ((cells.Global, texts_of option) ∷ [])) cfg.old cfg.new) }
{
    option.change(records, cfg, dims)
}

/// Colors for the cells of a table in turn, with those of their fillings and of their padding.
pub fn colors_in_turn<R, D>(
    option: Colorization,
    records: &mut R,
    cfg: &mut ColoredConfig,
    dims: &mut D,
) -> Result<(), OutOfMemory>
where
    R: Records + ExactRecords,
    ensures { OnOk result (Changes (entities_colored (colorization option (R.row_count records.old) (R.column_count records.old))) cfg.old cfg.new) }
{
    option.change(records, cfg, dims)
}

/// Colors in turn for the entities that an object lists.
pub fn colors_of_an_object<O, R, D>(
    option: ExactColorization<O>,
    records: &mut R,
    cfg: &mut ColoredConfig,
    dims: &mut D,
) -> Result<(), OutOfMemory>
where
    R: Records + ExactRecords,
    O: Object<R> + Drop,
    ensures { OnOk result (Changes (entities_colored (exact_colorization option.colors (O.listing option.target (R.row_count records.old) (R.column_count records.old)))) cfg.old cfg.new) }
{
    option.change(records, cfg, dims)
}
