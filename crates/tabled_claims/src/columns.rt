//! Columns of the terminal: which characters and texts add their width to what stands before them, and which writes keep the text of a
//! table a rectangle.

ghost use Rattle.std.specs.Prelude.{◌≡◌, ◌+◌, ◌≤◌, ◌++◌, ◌∷◌, [], ℕ, List, Option, true, IfSome, IsTrue};
ghost use Rattle.std.specs.List.{list_all};
ghost use Rattle.std.specs.Str.{IsUtf8};
ghost use Rattle.tabled_border.specs.declared.border.Border.{Border as Frame};
ghost use Rattle.tabled_places.specs.declared.borders.Borders.{Borders as Classes};
ghost use Rattle.tabled_places.specs.declared.place.LineOf.{LineOf};
ghost use Rattle.tabled_object.specs.declared.entity.Entity.{Entity};
ghost use Rattle.tabled_configuration.specs.Configuration.{ConfigEvent, characters_of};
ghost use Rattle.tabled_configuration.specs.Options.{entity_bordered, entity_unbordered, table_bordered, table_unbordered};
ghost use Rattle.tabled_width.specs.Narrow.{draws_plainly, is_narrow};
ghost use Rattle.tabled_printing.specs.Columns.{HasNarrowBorders, WritesNarrow};
ghost use Rattle.tabled_claims.specs.NarrowParts.{is_narrow_border, is_narrow_horizontal, is_narrow_if_given, is_narrow_record, is_narrow_vertical};
ghost use Rattle.tabled_printing.specs.Picture.{Look, look};
ghost use Rattle.tabled_width.specs.Texts.{width_of_text};
ghost use Rattle.tabled_color.specs.Shade.{Shade};
ghost use Rattle.tabled_highlight.specs.Highlighting.{highlight_events};
ghost use Rattle.tabled_options.specs.LineChar.{EdgeChar, line_char_events};
ghost use Rattle.tabled_options.specs.LineText.{Lettering, text_events};
ghost use Rattle.tabled_style.specs.Named.{ready_applied};
ghost use Rattle.tabled_style.specs.Shown.{StyleShown};
ghost use Rattle.tabled_style.specs.declared.ready_style.ReadyStyle.{ReadyStyle as Named};
ghost use Rattle.tabled_theme.specs.Events.{as_style, style_applied, theme_applied};
ghost use Rattle.tabled_theme.specs.Shown.{ThemeShown};

/// What stands before a text that begins with a space does not join it: the widths of both add up, whatever they are, joined emoji,
/// flags and accents included.
pub fn widths_add_before_a_space()
    ensures { (front text : List ℕ) → IsUtf8 front → width_of_text (front ++ 32 ∷ text) ≡ width_of_text front + width_of_text (32 ∷ text) }
{}

/// Each character that draws boxes or blocks is narrow.
pub fn box_drawing_is_narrow()
    ensures { (c : ℕ) → 0x2500 ≤ c → c ≤ 0x259F → is_narrow c ≡ true }
{}

/// A test by which a program asks whether a character is surely narrow: printable ASCII passes, and what draws boxes and blocks, and what
/// takes one column here, and two in an East Asian context.
pub fn character_draws_plainly(character: char) -> bool
    ensures test { result ≡ draws_plainly character }
    ensures narrow { IsTrue result → is_narrow character ≡ true }
{
    tabled_width::draws_plainly(character)
}

/// Where only narrow characters are written, a table shows no others.
pub fn narrow_writes_make_narrow_borders()
    ensures { (events : List ConfigEvent) (shape : ℕ × ℕ) (widths heights : ℕ → ℕ) → WritesNarrow events → HasNarrowBorders (look events shape widths heights) }
{}

/// Events after others write narrow characters alone where both do; and events that write no characters do, as those of settings
/// and of colors.
pub fn narrow_writes_add_up()
    ensures both { (before events : List ConfigEvent) → WritesNarrow before → WritesNarrow events → WritesNarrow (before ++ events) }
    ensures no_characters { (events : List ConfigEvent) → characters_of events ≡ [] → WritesNarrow events }
{}

/// A ready style writes narrow characters alone.
pub fn ready_style_writes_narrow()
    ensures { (style : Named) → WritesNarrow (ready_applied style) }
{}

/// A style does where its class record and its lines have no others; so does a class record alone.
pub fn style_writes_narrow()
    ensures { (style : StyleShown) → is_narrow_record style.borders ≡ true → list_all (λ line. is_narrow_horizontal line.1) style.horizontals ≡ true
        → list_all (λ line. is_narrow_vertical line.1) style.verticals ≡ true → WritesNarrow (style_applied style) }
{}

/// A theme does where its class record and the lines that it puts have no others.
pub fn theme_writes_narrow()
    ensures { (theme : ThemeShown) → is_narrow_record theme.characters ≡ true → list_all (λ line. is_narrow_horizontal line.1) (as_style theme).horizontals ≡ true
        → list_all (λ line. is_narrow_vertical line.1) (as_style theme).verticals ≡ true → WritesNarrow (theme_applied theme) }
{}

/// A border does where it gives no others: around cells, and around a table whose class record has no others. Where borders are taken away
/// nothing but such a class record is written.
pub fn border_writes_narrow()
    ensures cells { (border : Frame ℕ) (shape : ℕ × ℕ) (entity : Entity) → is_narrow_border border ≡ true → WritesNarrow (entity_bordered border shape entity) }
    ensures table { (border : Frame ℕ) (class : Classes ℕ) → is_narrow_border border ≡ true → is_narrow_record class ≡ true → WritesNarrow (table_bordered border class) }
    ensures no_border { (shape : ℕ × ℕ) (entity : Entity) → WritesNarrow (entity_unbordered shape entity) }
    ensures no_frame { (shape : ℕ × ℕ) (class : Classes ℕ) → is_narrow_record class ≡ true → WritesNarrow (table_unbordered shape class) }
{}

/// A character on lines does where it is narrow, and a text on a line where its characters are.
pub fn text_on_a_line_writes_narrow<L>()
    ensures character { (mark : EdgeChar) (shape : ℕ × ℕ) (entity : Entity) → is_narrow mark.character ≡ true → WritesNarrow (line_char_events mark shape entity) }
    ensures text { (text : Lettering L) (view : Look) (line : Option LineOf) → list_all is_narrow text.text ≡ true → WritesNarrow (text_events text view line) }
{}

/// An outline does where its border and its diagonal give no others.
pub fn outline_writes_narrow()
    ensures { (shape : ℕ × ℕ) (entities : List Entity) (border : Option (Frame ℕ)) (diagonal : Option ℕ) (color : Option (Frame Shade))
        → IfSome border (λ given. is_narrow_border given ≡ true) → is_narrow_if_given diagonal ≡ true → WritesNarrow (highlight_events shape entities border diagonal color) }
{}
