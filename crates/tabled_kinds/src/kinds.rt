//! An option of every kind, one after the other: some read nothing, others read what stands before them, the shape, the sizes,
//! the drawn lines or the spans, and some set what is no border.

ghost use Rattle.std.specs.Prelude.{◌≡◌, false, length, is_err, OnOk};
ghost use Rattle.tabled_object.specs.declared.dimension.FixedDimension.{FixedDimension};
ghost use Rattle.tabled_configuration.specs.Colored.{Changes};
ghost use Rattle.tabled_measure.specs.Sizes.{column_count};
ghost use Rattle.tabled_text.specs.TextTable.{AreRead, shape_of};
ghost use Rattle.tabled_kinds.specs.EveryKind.{style_options, edge_options, border_options, line_options, color_options, text_options, room_options, first_targets, other_borders, other_colors, whole_colors, other_settings, other_targets, options, InTurn};

use tabled::TextTable;
use tabled::grid::config::{Border as CellBorder, Borders, ColoredConfig, Entity, OutOfMemory};
use tabled::grid::dimension::FixedDimension;
use tabled::grid::records::Shape;
use tabled::settings::formatting::{AlignmentStrategy, TrimStrategy};
use tabled::settings::object::{Cell, Column, FirstRow, Row};
use tabled::settings::style::{BorderColor, EmptyBorder, LineChar, LineText, On, ReadyStyle};
use tabled::settings::themes::{BorderCorrection, Colorization, ExactColorization, JoinedCorners};
use tabled::settings::{
    Alignment, Border, CellColor, Color, Highlight, JoinedColor, Justification, Margin,
    MarginColor, Padding, PaddingColor, Shadow, Span, Style, TableOption, Theme,
};

/// Options for the borders of a table and of its cells.
#[derive(Drop)]
pub struct BorderKinds {
    /// A theme, which replaces all borders and their colors.
    pub theme: Theme,
    /// A style with a custom line between rows and one between columns, which replaces all borders.
    pub style: Style<On, On, On, On, On, On, 1, 1>,
    /// A style that is chosen while the program runs.
    pub ready: ReadyStyle,
    /// The characters of a style without custom lines.
    pub characters: Borders<char>,
    /// A frame, which is fitted to the lines of the table.
    pub frame: Border<On, On, On, On>,
    /// What stands around each cell of column 0, where it is given.
    pub around: CellBorder<char>,
    /// The colors around the cell of row 1 and column 1.
    pub colors: BorderColor,
}

/// Options for what stands on some lines alone.
#[derive(Drop)]
pub struct LineKinds {
    /// An outline around a row, with characters, one of its own for touches at a corner, and colors, each where it has them.
    pub outline: Highlight<Row>,
    /// A text on the first line, which takes the places that are drawn there.
    pub title: LineText<FirstRow>,
    /// A character at one place of an edge.
    pub mark: LineChar,
}

/// Options for colors of cells, of their padding and of the margin.
#[derive(Drop)]
pub struct ColorKinds {
    /// The color of row 0.
    pub row: Color,
    /// The colors of the padding of all cells.
    pub padding: PaddingColor<Color>,
    /// Colors for the cells in turn.
    pub in_turn: Colorization,
    /// Colors for what an object lists.
    pub exact: ExactColorization<Column>,
    /// The colors of the margin.
    pub margin: MarginColor<Color>,
    /// A shadow, which sets the margin and its colors.
    pub shadow: Shadow,
}

/// Options for how texts stand in their cells.
#[derive(Drop)]
pub struct TextKinds {
    /// How the texts of all cells are aligned.
    pub alignment: Alignment,
    /// Whether the lines of a text of row 0 are aligned by themselves.
    pub strategy: AlignmentStrategy,
    /// What of the texts of column 1 is trimmed.
    pub trim: TrimStrategy,
    /// What fills the cell of row 1 and column 0 beside its text.
    pub justification: Justification,
}

/// Options for how much room the cells and the table have.
#[derive(Drop)]
pub struct RoomKinds {
    /// The margin around the table.
    pub margin: Margin,
    /// The padding of all cells.
    pub padding: Padding,
    /// The padding of row 1.
    pub inner: Padding,
    /// Over how many columns or rows the first cell spans.
    pub span: Span,
}

/// Options for borders at their other targets: on a table where above they are on cells, and on cells where they are on a table.
#[derive(Drop)]
pub struct OtherBorders {
    /// Colors around the table.
    pub colors: BorderColor,
    /// A frame without markers, which is fitted to the lines of the table.
    pub frame: CellBorder<char>,
    /// What stands around each cell of row 1, where it is given.
    pub around: Border<On, On, On, On>,
}

/// Options for cells at their other targets.
#[derive(Drop)]
pub struct OtherSettings {
    /// The color of all cells.
    pub color: Color,
    /// The colors of the padding of row 0.
    pub padding: PaddingColor<Color>,
    /// What fills all cells beside their texts.
    pub justification: Justification,
    /// The color of row 1, with its fillings and its padding.
    pub whole: CellColor,
    /// What is joined onto the color that each cell of column 0 has then.
    pub joined: JoinedColor,
    /// How the texts of column 0 are aligned.
    pub alignment: Alignment,
    /// Whether the lines of all texts are aligned by themselves.
    pub strategy: AlignmentStrategy,
    /// What of all texts is trimmed.
    pub trim: TrimStrategy,
}

/// An option of each kind that has something to choose.
#[derive(Drop)]
pub struct Kinds {
    /// The options for borders.
    pub borders: BorderKinds,
    /// The options for single lines.
    pub lines: LineKinds,
    /// The options for colors.
    pub colors: ColorKinds,
    /// The options for texts.
    pub texts: TextKinds,
    /// The options for rooms.
    pub rooms: RoomKinds,
}

/// The kinds of options that have a second target, at that one.
#[derive(Drop)]
pub struct OtherTargets {
    /// The options for borders.
    pub borders: OtherBorders,
    /// The options for cells.
    pub settings: OtherSettings,
}

/// Options that are applied later: letting go of them is one call wherever their life ends.
struct Later<T: Drop> {
    options: T,
}

impl<T: Drop> Drop for Later<T> {
    fn drop(self) {
        let Later { options } = self;
        drop(options);
    }
}

impl<T: Drop> Later<T> {
    /// The options, to be applied now.
    fn now(self) -> T
        ensures { result ≡ self.options }
    {
        let Later { options } = self;
        options
    }
}

/// Applies them all, at each of their targets, then a correction for the spans that are set, and joins the corners. By its contract the
/// configuration changes by the events of each, in this order, and by nothing else, whatever stood there before; so `headline` says of
/// every place what it shows then, and as the texts stay, `TextTable::to_text` prints that around the same cells.
pub fn every_kind(
    table: &mut TextTable,
    kinds: Kinds,
    others: OtherTargets,
) -> Result<(), OutOfMemory>
    ensures steps { OnOk result (InTurn (options kinds others table.old.texts) table.old.config table.new.config) }
    ensures texts { table.new.texts ≡ table.old.texts }
    ensures sizes { table.new.sizes ≡ table.old.sizes }
{
    let others = Later { options: others };
    every_first_target(table, kinds)?;
    every_other_target(table, others.now())?;
    table.apply(BorderCorrection::span())?;
    table.apply(JoinedCorners::new())
}

/// Applies an option of each kind.
pub fn every_first_target(table: &mut TextTable, kinds: Kinds) -> Result<(), OutOfMemory>
    ensures steps { OnOk result (InTurn (first_targets kinds table.old.texts) table.old.config table.new.config) }
    ensures texts { table.new.texts ≡ table.old.texts }
    ensures sizes { table.new.sizes ≡ table.old.sizes }
{
    let Kinds {
        borders,
        lines,
        colors,
        texts,
        rooms,
    } = kinds;
    let lines = Later { options: lines };
    let colors = Later { options: colors };
    let texts = Later { options: texts };
    every_border(table, borders)?;
    every_line(table, lines.now())?;
    every_color(table, colors.now())?;
    every_text(table, texts.now())?;
    every_room(table, rooms)
}

/// Applies those kinds that have a second target, at that one.
pub fn every_other_target(table: &mut TextTable, others: OtherTargets) -> Result<(), OutOfMemory>
    ensures steps { OnOk result (InTurn (other_targets others (length table.old.texts, column_count table.old.texts)) table.old.config table.new.config) }
    ensures texts { table.new.texts ≡ table.old.texts }
    ensures sizes { table.new.sizes ≡ table.old.sizes }
{
    let OtherTargets { borders, settings } = others;
    let settings = Later { options: settings };
    every_other_border(table, borders)?;
    every_other_setting(table, settings.now())
}

/// Applies options for borders: the first four replace them all, and the others change some of them.
pub fn every_border(table: &mut TextTable, kinds: BorderKinds) -> Result<(), OutOfMemory>
    ensures steps { OnOk result (InTurn (border_options kinds (length table.old.texts, column_count table.old.texts)) table.old.config table.new.config) }
    ensures texts { table.new.texts ≡ table.old.texts }
    ensures sizes { table.new.sizes ≡ table.old.sizes }
{
    let BorderKinds {
        theme,
        style,
        ready,
        characters,
        frame,
        around,
        colors,
    } = kinds;
    let colors = Later { options: colors };
    every_style(table, theme, style, ready, characters)?;
    every_edge(table, frame, &around, &colors.options)
}

/// Applies what replaces all borders.
fn every_style(
    table: &mut TextTable,
    theme: Theme,
    style: Style<On, On, On, On, On, On, 1, 1>,
    ready: ReadyStyle,
    characters: Borders<char>,
) -> Result<(), OutOfMemory>
    ensures steps { OnOk result (InTurn (style_options theme style ready characters) table.old.config table.new.config) }
    ensures texts { table.new.texts ≡ table.old.texts }
    ensures sizes { table.new.sizes ≡ table.old.sizes }
{
    table.apply(theme)?;
    table.apply(style)?;
    table.apply(ready)?;
    table.apply(characters)
}

/// Applies what changes some of them.
fn every_edge(
    table: &mut TextTable,
    frame: Border<On, On, On, On>,
    around: &CellBorder<char>,
    colors: &BorderColor,
) -> Result<(), OutOfMemory>
    ensures steps { OnOk result (InTurn (edge_options frame around.now colors.now (length table.old.texts, column_count table.old.texts)) table.old.config table.new.config) }
    ensures texts { table.new.texts ≡ table.old.texts }
    ensures sizes { table.new.sizes ≡ table.old.sizes }
{
    table.apply(frame)?;
    table.apply_to(&Entity::Column(0), around)?;
    table.apply_to(&Entity::Cell(1, 1), colors)?;
    table.apply_to(&Entity::Cell(0, 0), &EmptyBorder)
}

/// Applies options for single lines.
pub fn every_line(table: &mut TextTable, kinds: LineKinds) -> Result<(), OutOfMemory>
    ensures steps { OnOk result (InTurn (line_options kinds table.old.texts) table.old.config table.new.config) }
    ensures texts { table.new.texts ≡ table.old.texts }
    ensures sizes { table.new.sizes ≡ table.old.sizes }
{
    let LineKinds {
        outline,
        title,
        mark,
    } = kinds;
    table.apply(outline)?;
    table.apply(title)?;
    table.apply_to(&Cell::new(1, 0), &mark)
}

/// Applies options for colors.
pub fn every_color(table: &mut TextTable, kinds: ColorKinds) -> Result<(), OutOfMemory>
    ensures steps { OnOk result (InTurn (color_options kinds (length table.old.texts, column_count table.old.texts)) table.old.config table.new.config) }
    ensures texts { table.new.texts ≡ table.old.texts }
    ensures sizes { table.new.sizes ≡ table.old.sizes }
{
    let done = table.apply_to(&Entity::Row(0), &kinds.row);
    let done = apply_after(done, table, kinds.padding);
    let done = apply_after(done, table, kinds.in_turn);
    let done = apply_after(done, table, kinds.exact);
    let done = apply_after(done, table, kinds.margin);
    apply_after(done, table, kinds.shadow)
}

/// Applies an option after others, unless one of them was refused.
fn apply_after<P>(
    others: Result<(), OutOfMemory>,
    table: &mut TextTable,
    option: P,
) -> Result<(), OutOfMemory>
where
    P: TableOption<Shape, ColoredConfig, FixedDimension> + Drop,
    ensures config { OnOk result ((is_err others ≡ false) × (read : FixedDimension) × AreRead table.old read × Changes (P.makes option (shape_of table.old.texts) read table.old.config) table.old.config table.new.config) }
    ensures texts { table.new.texts ≡ table.old.texts }
    ensures sizes { table.new.sizes ≡ table.old.sizes }
{
    others?;
    table.apply(option)
}

/// Applies options for texts of cells.
pub fn every_text(table: &mut TextTable, kinds: TextKinds) -> Result<(), OutOfMemory>
    ensures steps { OnOk result (InTurn (text_options kinds) table.old.config table.new.config) }
    ensures texts { table.new.texts ≡ table.old.texts }
    ensures sizes { table.new.sizes ≡ table.old.sizes }
{
    table.apply(kinds.alignment)?;
    table.apply_to(&Entity::Row(0), &kinds.strategy)?;
    table.apply_to(&Entity::Column(1), &kinds.trim)?;
    table.apply_to(&Entity::Cell(1, 0), &kinds.justification)
}

/// Applies options for the rooms of cells, and for the margin.
pub fn every_room(table: &mut TextTable, kinds: RoomKinds) -> Result<(), OutOfMemory>
    ensures steps { OnOk result (InTurn (room_options kinds (length table.old.texts, column_count table.old.texts)) table.old.config table.new.config) }
    ensures texts { table.new.texts ≡ table.old.texts }
    ensures sizes { table.new.sizes ≡ table.old.sizes }
{
    table.apply(kinds.margin)?;
    table.apply(kinds.padding)?;
    table.apply_to(&Entity::Row(1), &kinds.inner)?;
    table.apply_to(&Entity::Cell(0, 0), &kinds.span)
}

/// Applies options for borders at their other targets, and at last removes the frame of the table.
pub fn every_other_border(table: &mut TextTable, kinds: OtherBorders) -> Result<(), OutOfMemory>
    ensures steps { OnOk result (InTurn (other_borders kinds (length table.old.texts, column_count table.old.texts)) table.old.config table.new.config) }
    ensures texts { table.new.texts ≡ table.old.texts }
    ensures sizes { table.new.sizes ≡ table.old.sizes }
{
    table.apply(kinds.colors)?;
    table.apply(kinds.frame)?;
    table.apply_to(&Entity::Row(1), &kinds.around)?;
    table.apply(EmptyBorder)
}

/// Applies options for cells at their other targets.
pub fn every_other_setting(table: &mut TextTable, kinds: OtherSettings) -> Result<(), OutOfMemory>
    ensures steps { OnOk result (InTurn (other_settings kinds (length table.old.texts, column_count table.old.texts)) table.old.config table.new.config) }
    ensures texts { table.new.texts ≡ table.old.texts }
    ensures sizes { table.new.sizes ≡ table.old.sizes }
{
    let OtherSettings {
        color,
        padding,
        justification,
        whole,
        joined,
        alignment,
        strategy,
        trim,
    } = kinds;
    every_other_color(table, color, padding, justification)?;
    every_whole_color(table, whole, joined)?;
    table.apply_to(&Entity::Column(0), &alignment)?;
    table.apply(strategy)?;
    table.apply(trim)
}

/// Applies those of them that have colors.
fn every_other_color(
    table: &mut TextTable,
    color: Color,
    padding: PaddingColor<Color>,
    justification: Justification,
) -> Result<(), OutOfMemory>
    ensures steps { OnOk result (InTurn (other_colors color padding justification) table.old.config table.new.config) }
    ensures texts { table.new.texts ≡ table.old.texts }
    ensures sizes { table.new.sizes ≡ table.old.sizes }
{
    let done = table.apply_to(&Entity::Row(0), &padding);
    let done = apply_after(done, table, justification);
    apply_after(done, table, color)
}

/// Applies those that color whole cells.
fn every_whole_color(
    table: &mut TextTable,
    whole: CellColor,
    joined: JoinedColor,
) -> Result<(), OutOfMemory>
    ensures steps { OnOk result (InTurn (whole_colors whole joined (length table.old.texts, column_count table.old.texts)) table.old.config table.new.config) }
    ensures texts { table.new.texts ≡ table.old.texts }
    ensures sizes { table.new.sizes ≡ table.old.sizes }
{
    table.apply_to(&Entity::Row(1), &whole)?;
    table.apply_to(&Entity::Column(0), &joined)
}
