//! Which options write nothing that steers a terminal, so that where the cells of a table have nothing that does, its text has nothing either.

ghost use Rattle.std.specs.Prelude.{◌≡◌, ◌++◌, [], ℕ, List, Option, true, IfSome};
ghost use Rattle.std.specs.List.{list_all};
ghost use Rattle.tabled_border.specs.declared.border.Border.{Border as Frame};
ghost use Rattle.tabled_places.specs.declared.borders.Borders.{Borders as Classes};
ghost use Rattle.tabled_places.specs.declared.place.LineOf.{LineOf};
ghost use Rattle.tabled_object.specs.declared.entity.Entity.{Entity};
ghost use Rattle.tabled_configuration.specs.Configuration.{ConfigEvent, characters_of};
ghost use Rattle.tabled_configuration.specs.Options.{entity_bordered, entity_unbordered, table_bordered, table_unbordered};
ghost use Rattle.tabled_printing.specs.Picture.{Look};
ghost use Rattle.tabled_color.specs.Shade.{Shade};
ghost use Rattle.tabled_formatting.specs.Formatting.{Justifying, justification_set};
ghost use Rattle.tabled_highlight.specs.Highlighting.{highlight_events};
ghost use Rattle.tabled_options.specs.LineChar.{EdgeChar, line_char_events};
ghost use Rattle.tabled_options.specs.LineText.{Lettering, text_events};
ghost use Rattle.tabled_style.specs.Named.{ready_applied};
ghost use Rattle.tabled_style.specs.Shown.{StyleShown};
ghost use Rattle.tabled_style.specs.declared.ready_style.ReadyStyle.{ReadyStyle as Named};
ghost use Rattle.tabled_theme.specs.Events.{as_style, style_applied, theme_applied};
ghost use Rattle.tabled_theme.specs.Shown.{ThemeShown};
ghost use Rattle.tabled_claims.specs.Clean.{WritesClean, fills_of, is_clean_border, is_clean_horizontal, is_clean_if_given, is_clean_record, is_clean_vertical, is_quiet};

/// Events after others write nothing that steers where both do; and events that write no characters and fill no cells do, as those of colors,
/// of alignments and of the margin.
pub fn clean_writes_add_up()
    ensures both { (before events : List ConfigEvent) → WritesClean before → WritesClean events → WritesClean (before ++ events) }
    ensures no_characters { (events : List ConfigEvent) → characters_of events ≡ [] → fills_of events ≡ [] → WritesClean events }
{}

/// A ready style writes nothing that steers.
pub fn ready_style_writes_clean()
    ensures { (style : Named) → WritesClean (ready_applied style) }
{}

/// A style does not where its class record and its lines have no character that does; so with a class record alone.
pub fn style_writes_clean()
    ensures { (style : StyleShown) → is_clean_record style.borders ≡ true → list_all (λ line. is_clean_horizontal line.1) style.horizontals ≡ true
        → list_all (λ line. is_clean_vertical line.1) style.verticals ≡ true → WritesClean (style_applied style) }
{}

/// A theme does not where its class record and the lines that it puts have none.
pub fn theme_writes_clean()
    ensures { (theme : ThemeShown) → is_clean_record theme.characters ≡ true → list_all (λ line. is_clean_horizontal line.1) (as_style theme).horizontals ≡ true
        → list_all (λ line. is_clean_vertical line.1) (as_style theme).verticals ≡ true → WritesClean (theme_applied theme) }
{}

/// A border does not where it gives none: around cells, and around a table whose class record has none. Where borders are taken away nothing
/// but such a class record is written.
pub fn border_writes_clean()
    ensures cells { (border : Frame ℕ) (shape : ℕ × ℕ) (entity : Entity) → is_clean_border border ≡ true → WritesClean (entity_bordered border shape entity) }
    ensures table { (border : Frame ℕ) (class : Classes ℕ) → is_clean_border border ≡ true → is_clean_record class ≡ true → WritesClean (table_bordered border class) }
    ensures no_border { (shape : ℕ × ℕ) (entity : Entity) → WritesClean (entity_unbordered shape entity) }
    ensures no_frame { (shape : ℕ × ℕ) (class : Classes ℕ) → is_clean_record class ≡ true → WritesClean (table_unbordered shape class) }
{}

/// A character on lines does not where it is none, and a text on a line where it has none, as one that was cleaned.
pub fn text_on_a_line_writes_clean<L>()
    ensures character { (mark : EdgeChar) (shape : ℕ × ℕ) (entity : Entity) → is_quiet mark.character ≡ true → WritesClean (line_char_events mark shape entity) }
    ensures text { (text : Lettering L) (view : Look) (line : Option LineOf) → list_all is_quiet text.text ≡ true → WritesClean (text_events text view line) }
{}

/// An outline does not where its border and its diagonal give none.
pub fn outline_writes_clean()
    ensures { (shape : ℕ × ℕ) (entities : List Entity) (border : Option (Frame ℕ)) (diagonal : Option ℕ) (color : Option (Frame Shade))
        → IfSome border (λ given. is_clean_border given ≡ true) → is_clean_if_given diagonal ≡ true → WritesClean (highlight_events shape entities border diagonal color) }
{}

/// A justification does not where its character is none.
pub fn justification_writes_clean()
    ensures { (given : Justifying) (entity : Entity) → is_clean_if_given given.character ≡ true → WritesClean (justification_set given entity) }
{}
