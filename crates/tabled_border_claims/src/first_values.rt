//! What values have before anybody set anything: what `Default` gives, of each type that has it.

ghost use Rattle.std.specs.Prelude.{◌≡◌, ℕ, [], None};
ghost use Rattle.tabled_border.specs.Border.{no_border};
ghost use Rattle.tabled_border.specs.LentTexts.{lent_texts};
ghost use Rattle.tabled_border.specs.declared.ansi.ANSIStr.{ANSIStr as Lent};
ghost use Rattle.tabled_border.specs.declared.border.Border.{Border as Eight};
ghost use Rattle.tabled_color.specs.Shade.{Shade, static_shade};
ghost use Rattle.tabled_compact.specs.Compact.{IsPlain, IsPlainMultiline};
ghost use Rattle.tabled_compact.specs.declared.compact_config.CompactConfig.{CompactConfig as OneLine};
ghost use Rattle.tabled_compact.specs.declared.multiline_config.CompactMultilineConfig.{CompactMultilineConfig as Lines};
ghost use Rattle.tabled_formatting.specs.Formatting.{Justifying};
ghost use Rattle.tabled_places.specs.CustomLines.{no_horizontal, no_vertical};
ghost use Rattle.tabled_places.specs.State.{HasNothing};
ghost use Rattle.tabled_places.specs.declared.borders.Borders.{Borders as Fifteen};
ghost use Rattle.tabled_places.specs.declared.lines.HorizontalLine.{HorizontalLine as Horizontal};
ghost use Rattle.tabled_places.specs.declared.lines.VerticalLine.{VerticalLine as Vertical};
ghost use Rattle.tabled_settings.specs.declared.indent.Indent.{Indent as Filled};

use tabled_border::{ANSIStr, Border as GridBorder};
use tabled_color::{BorderColor, Color};
use tabled_compact::{CompactConfig, CompactMultilineConfig};
use tabled_formatting::Justification;
use tabled_grid::{Borders, HorizontalLine as GridHorizontal, VerticalLine as GridVertical};
use tabled_settings::Indent;
use tabled_style::{Border, HorizontalLine, VerticalLine};

/// New borders, lines and class records have nothing, with markers and without.
pub fn new_borders_have_nothing<T, Top, Bottom, Left, Right, I>()
    ensures border { (border : Eight T) → ⟦<GridBorder<T> as Default>⟧.is_default border → border ≡ no_border }
    ensures record { (borders : Fifteen T) → ⟦<Borders<T> as Default>⟧.is_default borders → HasNothing borders }
    ensures horizontal { (line : Horizontal T) → ⟦<GridHorizontal<T> as Default>⟧.is_default line → line ≡ no_horizontal }
    ensures vertical { (line : Vertical T) → ⟦<GridVertical<T> as Default>⟧.is_default line → line ≡ no_vertical }
    ensures marked_border { (border : Eight ℕ) → ⟦<Border<Top, Bottom, Left, Right> as Default>⟧.is_default border → border ≡ no_border }
    ensures marked_horizontal { (line : Horizontal ℕ) → ⟦<HorizontalLine<Left, Right, I> as Default>⟧.is_default line → line ≡ no_horizontal }
    ensures marked_vertical { (line : Vertical ℕ) → ⟦<VerticalLine<Top, Bottom, I> as Default>⟧.is_default line → line ≡ no_vertical }
{}

/// New colors have no texts, and a new border of colors has none.
pub fn new_colors_have_no_texts()
    ensures color { (color : Shade) → ⟦<Color as Default>⟧.is_default color → color ≡ static_shade [] [] }
    ensures lent { (texts : Lent) → ⟦<ANSIStr<'static> as Default>⟧.is_default texts → lent_texts texts ≡ record { prefix = []; suffix = [] } }
    ensures border { (border : Eight Shade) → ⟦<BorderColor as Default>⟧.is_default border → border ≡ no_border }
{}

/// A new filling has neither a character nor a color, a new indent is no room, of spaces, and new compact configurations are plain.
pub fn new_settings_set_nothing()
    ensures filling { (given : Justifying) → ⟦<Justification as Default>⟧.is_default given → given ≡ record { character = None; color = None } }
    ensures indent { (indent : Filled) → ⟦<Indent as Default>⟧.is_default indent → indent ≡ record { size = 0; fill = 32 } }
    ensures one_line { (cfg : OneLine) → ⟦<CompactConfig as Default>⟧.is_default cfg → IsPlain cfg }
    ensures lines { (cfg : Lines) → ⟦<CompactMultilineConfig as Default>⟧.is_default cfg → IsPlainMultiline cfg }
{}
