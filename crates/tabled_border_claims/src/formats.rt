//! What the options make that set colors, places and spaces of texts in cells, the margin and the shadow.

ghost use Rattle.std.specs.Prelude.{IsOk, OnOk};
ghost use Rattle.tabled_object.specs.declared.entity.Entity.TheVariants as cells;
ghost use Rattle.tabled_configuration.specs.Colored.{Changes};
ghost use Rattle.tabled_formatting.specs.Formatting.{alignment_set, justification_set, padding_given, padding_set, strategy_set, trim_set};
ghost use Rattle.tabled_formatting.specs.Margins.{margin_colored, margin_given, shadow_set};

use std::alloc::Global;
use tabled_border::{AnsiText, OutOfMemory};
use tabled_changes::{CellOption, ColoredConfig, TableOption};
use tabled_formatting::{
    Alignment, AlignmentStrategy, Justification, Margin, MarginColor, Padding, PaddingColor,
    Shadow, TrimStrategy,
};
use tabled_object::Entity;

/// The padding of all cells, which takes no memory: its colors stay.
pub fn padding_on_a_table<R, D>(
    option: Padding,
    records: &mut R,
    cfg: &mut ColoredConfig,
    dims: &mut D,
) -> Result<(), OutOfMemory>
    ensures changed { OnOk result (Changes (padding_given option cells.Global) cfg.old cfg.new) }
    ensures always { IsOk result }
{
    option.change(records, cfg, dims)
}

/// The padding of the cells of an entity: its colors stay.
pub fn padding_on_cells<R>(
    option: &Padding,
    records: &mut R,
    cfg: &mut ColoredConfig,
    entity: Entity,
) -> Result<(), OutOfMemory>
    ensures { OnOk result (Changes (padding_given option.now entity) cfg.old cfg.new) }
{
    option.change(records, cfg, entity)
}

/// The colors of the padding of all cells.
pub fn padding_colors_on_a_table<C, R, D>(
    option: PaddingColor<C>,
    records: &mut R,
    cfg: &mut ColoredConfig,
    dims: &mut D,
) -> Result<(), OutOfMemory>
where
    C: AnsiText + Drop,
    ensures { OnOk result (Changes (padding_set C.prefix_text C.suffix_text option cells.Global) cfg.old cfg.new) }
{
    option.change(records, cfg, dims)
}

/// The colors of the padding of the cells of an entity.
pub fn padding_colors_on_cells<C, R>(
    option: &PaddingColor<C>,
    records: &mut R,
    cfg: &mut ColoredConfig,
    entity: Entity,
) -> Result<(), OutOfMemory>
where
    C: AnsiText,
    ensures { OnOk result (Changes (padding_set C.prefix_text C.suffix_text option.now entity) cfg.old cfg.new) }
{
    option.change(records, cfg, entity)
}

/// The room of the margin, and what fills it: its offsets and its colors stay.
pub fn margin_on_a_table<R, D>(
    option: Margin,
    records: &mut R,
    cfg: &mut ColoredConfig,
    dims: &mut D,
) -> Result<(), OutOfMemory>
    ensures { OnOk result (Changes (margin_given option) cfg.old cfg.new) }
{
    option.change(records, cfg, dims)
}

/// The colors of the margin.
pub fn margin_colors_on_a_table<C, R, D>(
    option: MarginColor<C>,
    records: &mut R,
    cfg: &mut ColoredConfig,
    dims: &mut D,
) -> Result<(), OutOfMemory>
where
    C: AnsiText + Drop,
    ensures { OnOk result (Changes (margin_colored C.prefix_text C.suffix_text option) cfg.old cfg.new) }
{
    option.change(records, cfg, dims)
}

/// A shadow: the margin of the sides on which it falls, where it begins, and its color where it has one.
pub fn shadow_on_a_table<R, D>(
    option: Shadow,
    records: &mut R,
    cfg: &mut ColoredConfig,
    dims: &mut D,
) -> Result<(), OutOfMemory>
    ensures { OnOk result (Changes (shadow_set option) cfg.old cfg.new) }
{
    option.change(records, cfg, dims)
}

/// How the texts of all cells are aligned in the direction of the alignment; no memory is asked for.
pub fn alignment_on_a_table<R, D>(
    option: Alignment,
    records: &mut R,
    cfg: &mut ColoredConfig,
    dims: &mut D,
) -> Result<(), OutOfMemory>
    ensures changed { OnOk result (Changes (alignment_set option cells.Global) cfg.old cfg.new) }
    ensures always { IsOk result }
{
    option.change(records, cfg, dims)
}

/// How the texts of the cells of an entity are aligned in the direction of the alignment.
pub fn alignment_on_cells<R>(
    option: &Alignment,
    records: &mut R,
    cfg: &mut ColoredConfig,
    entity: Entity,
) -> Result<(), OutOfMemory>
    ensures { OnOk result (Changes (alignment_set option.now entity) cfg.old cfg.new) }
{
    option.change(records, cfg, entity)
}

/// Whether the lines of all texts are aligned by themselves; no memory is asked for.
pub fn alignment_by_line_on_a_table<R, D>(
    option: AlignmentStrategy,
    records: &mut R,
    cfg: &mut ColoredConfig,
    dims: &mut D,
) -> Result<(), OutOfMemory>
    ensures changed { OnOk result (Changes (strategy_set option cells.Global) cfg.old cfg.new) }
    ensures always { IsOk result }
{
    option.change(records, cfg, dims)
}

/// Whether the lines of the texts of an entity are aligned by themselves.
pub fn alignment_by_line_on_cells<R>(
    option: &AlignmentStrategy,
    records: &mut R,
    cfg: &mut ColoredConfig,
    entity: Entity,
) -> Result<(), OutOfMemory>
    ensures { OnOk result (Changes (strategy_set option.now entity) cfg.old cfg.new) }
{
    option.change(records, cfg, entity)
}

/// What of all texts is trimmed; no memory is asked for.
pub fn trim_on_a_table<R, D>(
    option: TrimStrategy,
    records: &mut R,
    cfg: &mut ColoredConfig,
    dims: &mut D,
) -> Result<(), OutOfMemory>
    ensures changed { OnOk result (Changes (trim_set option cells.Global) cfg.old cfg.new) }
    ensures always { IsOk result }
{
    option.change(records, cfg, dims)
}

/// What of the texts of an entity is trimmed.
pub fn trim_on_cells<R>(
    option: &TrimStrategy,
    records: &mut R,
    cfg: &mut ColoredConfig,
    entity: Entity,
) -> Result<(), OutOfMemory>
    ensures { OnOk result (Changes (trim_set option.now entity) cfg.old cfg.new) }
{
    option.change(records, cfg, entity)
}

/// What fills all cells beside their texts, and in which color.
pub fn filling_on_a_table<R, D>(
    option: Justification,
    records: &mut R,
    cfg: &mut ColoredConfig,
    dims: &mut D,
) -> Result<(), OutOfMemory>
    ensures { OnOk result (Changes (justification_set option cells.Global) cfg.old cfg.new) }
{
    option.change(records, cfg, dims)
}

/// What fills the cells of an entity beside their texts, and in which color.
pub fn filling_on_cells<R>(
    option: &Justification,
    records: &mut R,
    cfg: &mut ColoredConfig,
    entity: Entity,
) -> Result<(), OutOfMemory>
    ensures { OnOk result (Changes (justification_set option.now entity) cfg.old cfg.new) }
{
    option.change(records, cfg, entity)
}
