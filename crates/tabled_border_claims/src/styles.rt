//! Styles, lines and themes.

ghost use Rattle.std.specs.Prelude.{◌≡◌, ℕ, ◌↔◌, [], ◌∷◌, List, None, IfOk, IsTrue};
ghost use Rattle.tabled_border.specs.declared.border.Border.{Border as Frame};
ghost use Rattle.tabled_places.specs.declared.lines.HorizontalLine.{HorizontalLine as Horizontal};
ghost use Rattle.tabled_places.specs.declared.lines.VerticalLine.{VerticalLine as Vertical};
ghost use Rattle.tabled_places.specs.declared.place.Rank.{Rank};
ghost use Rattle.tabled_places.specs.Borders.{horizontal_of, vertical_of};
ghost use Rattle.tabled_places.specs.CustomLines.{no_borders};
ghost use Rattle.tabled_color.specs.BorderColors.{full_border as colored_border};
ghost use Rattle.tabled_style.specs.Border.{full_border};
ghost use Rattle.tabled_style.specs.Shown.{StyleShown, frame_of};
ghost use Rattle.tabled_style.specs.Lines.{each_line, turned_horizontal};
ghost use Rattle.tabled_style.specs.Removing.{without_ends_horizontal, without_ends_vertical};
ghost use Rattle.tabled_style.specs.Setting.{with_horizontal};
ghost use Rattle.tabled_style.specs.LineCalls.{with_line_horizontal, with_line_vertical};
ghost use Rattle.tabled_style.specs.Frame.{with_frame};
ghost use Rattle.tabled_places.specs.declared.place.LineOf.{LineOf as Line};
ghost use Rattle.tabled_places.specs.declared.place.Place.{Place as At};
ghost use Rattle.tabled_places.specs.Event.{replay};
ghost use Rattle.tabled_places.specs.Value.{value};
ghost use Rattle.tabled_places.specs.Drawn.{Drawn, drawn};
ghost use Rattle.tabled_places.specs.State.{state_at, class_record_set};
ghost use Rattle.tabled_configuration.specs.Colored.{Colored, Shows, Changes};
ghost use Rattle.tabled_configuration.specs.Configuration.{ConfigEvent, borders_replaced, characters_of, colors_of};
ghost use Rattle.tabled_printing.specs.Picture.{marks};
ghost use Rattle.tabled_style.specs.Deciding.{written_by};
ghost use Rattle.tabled_places.specs.declared.site.Site.{Site};
ghost use Rattle.tabled_theme.specs.Shown.{ThemeShown, of_style, of_configuration};
ghost use Rattle.tabled_theme.specs.Events.{as_style, color_texts, style_applied, theme_applied, DrawsLike};

use std::alloc::Global;
use tabled_border::{Border as GridBorder, OutOfMemory};
use tabled_color::{BorderColor, Color};
use tabled_grid::VerticalLine as VLine;
use tabled_style::{Border, HorizontalLine, On, Style};

/// A horizontal line that is converted to a vertical one, whose four characters are then those of a horizontal line,
/// its upper end on the left, has its four characters again.
pub fn turned_and_back<L, R, I>()
    ensures { (line : Horizontal ℕ) (vertical : Vertical ℕ)
        → ⟦<VLine<char> as From<HorizontalLine<L, R, I>>>⟧.from_gives line vertical → turned_horizontal vertical ≡ line }
{}

/// A line that took the place of a line of a style is what is inherited from there, although the rest of the style
/// followed it; and so is a frame, as it was corrected.
#[tactic(auto, using(tabled_style::proofs::Inherited::horizontal_again, tabled_style::proofs::Inherited::vertical_again), unfolding(tabled_style::specs::Frame::with_frame))]
pub fn inherited_again()
    ensures horizontal { (rank : Rank) (line : Horizontal ℕ) (style : StyleShown) → horizontal_of rank (with_line_horizontal rank line style).borders ≡ line }
    ensures vertical { (rank : Rank) (line : Vertical ℕ) (style : StyleShown) → vertical_of rank (with_line_vertical rank line style).borders ≡ line }
    ensures frame { (border : Frame ℕ) (style : StyleShown) → frame_of (with_frame border style).borders ≡ border }
{}

/// A border of one character is the border that is given this character eight times, with markers and without.
pub fn one_character_everywhere(c: char) -> ([Border<On, On, On, On>; 2], [GridBorder<char>; 2])
    ensures marked { result.0 ≡ full_border c c c c c c c c ∷ full_border c c c c c c c c ∷ [] }
    ensures plain { result.1 ≡ full_border c c c c c c c c ∷ full_border c c c c c c c c ∷ [] }
{
    (
        [Border::filled(c), Border::full(c, c, c, c, c, c, c, c)],
        [
            GridBorder::filled(c),
            GridBorder::full(c, c, c, c, c, c, c, c),
        ],
    )
}

/// A border of one color is the border that is given colors of the same texts eight times.
pub fn one_color_everywhere(alloc: Global, color: Color) -> Result<BorderColor, OutOfMemory>
    ensures { IfOk result (λ border. border ≡ colored_border color color color color color color color color) }
{
    BorderColor::filled(alloc, color)
}

/// A style without its frame has what lies between rows and between columns, and its custom lines without their ends.
pub fn style_without_its_frame<H, V, const HN: usize, const VN: usize>(
    style: Style<On, On, On, On, H, V, HN, VN>,
) -> Style<(), (), (), (), H, V, HN, VN>
    ensures { result ≡ record {
      borders = record no_borders {
        horizontal = style.borders.horizontal;
        vertical = style.borders.vertical;
        intersection = style.borders.intersection;
      };
      horizontals = each_line without_ends_horizontal style.horizontals;
      verticals = each_line without_ends_vertical style.verticals;
    } }
{
    style.remove_frame()
}

/// A style whose top is set: the character stands along the edges above the first row, at the corners there of the sides that
/// it has, at the crossings there where it has lines between columns, and at the upper ends of its custom vertical lines.
pub fn top_of_a_style<T, B, L, R, H, V, const HN: usize, const VN: usize>(
    style: Style<T, B, L, R, H, V, HN, VN>,
    c: char,
) -> Style<On, B, L, R, H, V, HN, VN>
    ensures { result ≡ with_horizontal Rank.First c style }
{
    style.top(c)
}

/// A style whose line between rows is replaced: the line stands there with its four characters, and the rest of the style
/// follows it.
pub fn line_of_a_style<T, B, L, R, H, V, Left, Right, I, const HN: usize, const VN: usize>(
    style: Style<T, B, L, R, H, V, HN, VN>,
    line: HorizontalLine<Left, Right, I>,
) -> Style<T, B, Left, Right, On, I, HN, VN>
    ensures { result ≡ with_line_horizontal Rank.Inner line style }
{
    style.line_horizontal(line)
}

/// After a style the character of every border place, and which lines are drawn, are those of what the style writes,
/// by the shape of the table and the length of the edge, and no place has a color, whatever was there before. A class
/// record that is applied as an option makes the same events as a style without custom lines, so it holds there too.
pub fn style_alone_decides()
    ensures characters { (style : StyleShown) (old new : Colored) (shape : ℕ × ℕ) (size : ℕ) (place : At)
        → Changes (borders_replaced style.borders style.horizontals style.verticals) old new
        → value (state_at new.spanned.characters) shape size place ≡ value (replay (written_by style)) shape size place }
    ensures colors { (style : StyleShown) (old new : Colored) (shape : ℕ × ℕ) (size : ℕ) (place : At)
        → Changes (borders_replaced style.borders style.horizontals style.verticals) old new
        → value (state_at new.spanned.colors) shape size place ≡ None }
    ensures lines { (style : StyleShown) (old new : Colored) (count : ℕ) (line : Line)
        → Changes (borders_replaced style.borders style.horizontals style.verticals) old new
        → Drawn (state_at new.spanned.characters) count line ↔ IsTrue (drawn (written_by style) count line) }
{}

/// After a theme the character and the color of every border place, and which lines are drawn, are those of what the
/// theme writes, by the shape of the table and the length of the edge, whatever was there before.
pub fn theme_alone_decides()
    ensures characters { (theme : ThemeShown) (old new : Colored) (shape : ℕ × ℕ) (size : ℕ) (place : At) → Changes (theme_applied theme) old new
        → value (state_at new.spanned.characters) shape size place ≡ value (replay (written_by (as_style theme))) shape size place }
    ensures colors { (theme : ThemeShown) (old new : Colored) (shape : ℕ × ℕ) (size : ℕ) (place : At) → Changes (theme_applied theme) old new
        → value (state_at new.spanned.colors) shape size place ≡ value (replay (class_record_set (color_texts theme))) shape size place }
    ensures lines { (theme : ThemeShown) (old new : Colored) (count : ℕ) (line : Line) → Changes (theme_applied theme) old new
        → Drawn (state_at new.spanned.characters) count line ↔ IsTrue (drawn (written_by (as_style theme)) count line) }
{}

/// After a theme the marks of every line, drawn or not, are those of the theme's own events, by the shape and the sizes of the
/// table, whatever was there before.
pub fn theme_decides_marks()
    ensures { (theme : ThemeShown) (old new : Colored) (events : List ConfigEvent) (shape : ℕ × ℕ) (widths heights : ℕ → ℕ) (line : Line)
        → Changes (theme_applied theme) old new → Shows events new
        → marks events shape widths heights line ≡ marks (theme_applied theme) shape widths heights line }
{}

/// A theme that is made of a style leaves at every site what the style leaves, for every list of custom lines: so every
/// place has the same character and the same color, and the same lines are drawn.
pub fn from_style_draws_the_style()
    ensures characters { (style : StyleShown) (site : Site)
        → replay (characters_of (theme_applied (of_style style))) site ≡ replay (characters_of (style_applied style)) site }
    ensures colors { (style : StyleShown) (site : Site)
        → replay (colors_of (theme_applied (of_style style))) site ≡ replay (colors_of (style_applied style)) site }
    ensures places { (style : StyleShown) (shape : ℕ × ℕ) (size : ℕ) (place : At)
        → value (replay (characters_of (theme_applied (of_style style)))) shape size place ≡ value (replay (characters_of (style_applied style))) shape size place }
    ensures lines { (style : StyleShown) (count : ℕ) (line : Line)
        → Drawn (replay (characters_of (theme_applied (of_style style)))) count line ↔ Drawn (replay (characters_of (style_applied style))) count line }
{}

/// The theme that is read from a configuration to which a theme was applied draws like that theme: it has the same
/// characters, colors of the same texts, and at each index the same line that shows.
pub fn from_config_reads_the_theme()
    ensures { (theme : ThemeShown) (old new : Colored) → Changes (theme_applied theme) old new → DrawsLike (of_configuration new.spanned) theme }
{}
