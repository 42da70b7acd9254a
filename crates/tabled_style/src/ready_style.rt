//! The ready styles as values, so that one is chosen while the program runs.

ghost use Rattle.std.specs.Prelude.{◌≡◌, [], None, Some, Ok, codes, IfSome, IsErr, IsOk, MatchOption, OnErr, OnOk};
ghost use Rattle.std.specs.IoError.{error_kind};
ghost use Rattle.std.specs.declared.io.ErrorKind.TheVariants.{InvalidInput};
ghost use Rattle.tabled_configuration.specs.Colored.{Changes as ColoredChanges};
ghost use Rattle.tabled_configuration.specs.Configuration.{Changes, borders_replaced};
ghost use Rattle.tabled_style.specs.declared.ready_style.ReadyStyle.{ReadyStyle as Ready};
ghost use Rattle.tabled_style.specs.Named.{all_ready, name_of, ready_applied, shown, style_named};

use crate::Style;
use std::error::Error;
use std::io::ErrorKind;
use std::str::FromStr;
use std::{fmt, io};
use tabled_border::OutOfMemory;
use tabled_changes::{ColoredConfig, TableOption};
use tabled_configuration::SpannedConfig;
use tabled_grid::Borders;
use tabled_object::Entity;

/// One of the thirteen ready styles, chosen while the program runs. As an option of a table it does what the
/// [`Style`] of its name does, and its pictures are those of the calls named here.
///
/// A `Style` says in its type which of its borders are there, so two of them have different types; all ready styles have this one.
///
/// `ReadyStyle::from_name("markdown")`, which is `Some(ReadyStyle::Markdown)`, as an option:
///
/// ```text
/// | a | b |
/// |---|---|
/// | c | d |
/// ```
#[derive(Debug, Clone, Copy, PartialEq, Eq, PartialOrd, Ord, Hash)]
pub enum ReadyStyle {
    /// [`Style::empty`]
    Empty,
    /// [`Style::blank`]
    Blank,
    /// [`Style::ascii`]
    Ascii,
    /// [`Style::psql`]
    Psql,
    /// [`Style::markdown`]
    Markdown,
    /// [`Style::modern`]
    Modern,
    /// [`Style::sharp`]
    Sharp,
    /// [`Style::rounded`]
    Rounded,
    /// [`Style::modern_rounded`]
    ModernRounded,
    /// [`Style::extended`]
    Extended,
    /// [`Style::dots`]
    Dots,
    /// [`Style::re_structured_text`]
    ReStructuredText,
    /// [`Style::ascii_rounded`]
    AsciiRounded,
}

impl ReadyStyle {
    /// Returns all ready styles, in the order of their variants.
    pub fn all() -> [ReadyStyle; 13]
        ensures { result ≡ all_ready }
    {
        [
            ReadyStyle::Empty,
            ReadyStyle::Blank,
            ReadyStyle::Ascii,
            ReadyStyle::Psql,
            ReadyStyle::Markdown,
            ReadyStyle::Modern,
            ReadyStyle::Sharp,
            ReadyStyle::Rounded,
            ReadyStyle::ModernRounded,
            ReadyStyle::Extended,
            ReadyStyle::Dots,
            ReadyStyle::ReStructuredText,
            ReadyStyle::AsciiRounded,
        ]
    }

    /// Returns the name of the style: that of the call of [`Style`] that makes it.
    #[tactic(auto, unfolding(crate::specs::Named::name_of))]
    pub fn name(self) -> &'static str
        ensures { result.now ≡ name_of self }
    {
        match self {
            ReadyStyle::Empty => "empty",
            ReadyStyle::Blank => "blank",
            ReadyStyle::Ascii => "ascii",
            ReadyStyle::Psql => "psql",
            ReadyStyle::Markdown => "markdown",
            ReadyStyle::Modern => "modern",
            ReadyStyle::Sharp => "sharp",
            ReadyStyle::Rounded => "rounded",
            ReadyStyle::ModernRounded => "modern_rounded",
            ReadyStyle::Extended => "extended",
            ReadyStyle::Dots => "dots",
            ReadyStyle::ReStructuredText => "re_structured_text",
            ReadyStyle::AsciiRounded => "ascii_rounded",
        }
    }

    /// Returns the style of this name, letter by letter; none where no ready style has it.
    pub fn from_name(name: &str) -> Option<ReadyStyle>
        ensures value { result ≡ style_named name.now }
        ensures named { IfSome result (λ style. name_of style ≡ name.now) }
        ensures found { (style : Ready) → name_of style ≡ name.now → result ≡ Some style }
    {
        ReadyStyle::all()
            .into_iter()
            .find(|style| style.name() == name)
    }

    /// Returns the class record of the style.
    #[tactic(auto, unfolding(crate::specs::Named::shown))]
    pub fn borders(self) -> Borders<char>
        ensures { result ≡ (shown self).borders }
    {
        match self {
            ReadyStyle::Empty => Style::empty().get_borders(),
            ReadyStyle::Blank => Style::blank().get_borders(),
            ReadyStyle::Ascii => Style::ascii().get_borders(),
            ReadyStyle::Psql => Style::psql().get_borders(),
            ReadyStyle::Markdown => Style::markdown().get_borders(),
            ReadyStyle::Modern => Style::modern().get_borders(),
            ReadyStyle::Sharp => Style::sharp().get_borders(),
            ReadyStyle::Rounded => Style::rounded().get_borders(),
            ReadyStyle::ModernRounded => Style::modern_rounded().get_borders(),
            ReadyStyle::Extended => Style::extended().get_borders(),
            ReadyStyle::Dots => Style::dots().get_borders(),
            ReadyStyle::ReStructuredText => Style::re_structured_text().get_borders(),
            ReadyStyle::AsciiRounded => Style::ascii_rounded().get_borders(),
        }
    }

    /// Replaces all borders of the configuration, characters and colors of every level, by those of the style. Where
    /// memory is refused the configuration is as before; for a style without custom lines none is asked for.
    #[tactic(auto, unfolding(crate::specs::Named::shown))]
    pub fn replace_borders(self, cfg: &mut SpannedConfig) -> Result<(), OutOfMemory>
        ensures ok { OnOk result (Changes (ready_applied self) cfg.old cfg.new) }
        ensures err { OnErr result (cfg.new ≡ cfg.old) }
        ensures without_lines { (shown self).horizontals ≡ [] → IsOk result }
    {
        match self {
            ReadyStyle::Empty => replace_by(&Style::empty(), cfg),
            ReadyStyle::Blank => replace_by(&Style::blank(), cfg),
            ReadyStyle::Ascii => replace_by(&Style::ascii(), cfg),
            ReadyStyle::Psql => replace_by(&Style::psql(), cfg),
            ReadyStyle::Markdown => replace_by(&Style::markdown(), cfg),
            ReadyStyle::Modern => replace_by(&Style::modern(), cfg),
            ReadyStyle::Sharp => replace_by(&Style::sharp(), cfg),
            ReadyStyle::Rounded => replace_by(&Style::rounded(), cfg),
            ReadyStyle::ModernRounded => replace_by(&Style::modern_rounded(), cfg),
            ReadyStyle::Extended => replace_by(&Style::extended(), cfg),
            ReadyStyle::Dots => replace_by(&Style::dots(), cfg),
            ReadyStyle::ReStructuredText => replace_by(&Style::re_structured_text(), cfg),
            ReadyStyle::AsciiRounded => replace_by(&Style::ascii_rounded(), cfg),
        }
    }
}

/// All borders of the configuration replaced by those of a style.
fn replace_by<T, B, L, R, H, V, const HN: usize, const VN: usize>(
    style: &Style<T, B, L, R, H, V, HN, VN>,
    cfg: &mut SpannedConfig,
) -> Result<(), OutOfMemory>
    ensures ok { OnOk result (Changes (borders_replaced style.now.borders style.now.horizontals style.now.verticals) cfg.old cfg.new) }
    ensures err { OnErr result (cfg.new ≡ cfg.old) }
    ensures without_lines { style.now.horizontals ≡ [] → style.now.verticals ≡ [] → IsOk result }
{
    cfg.replace_borders(
        style.get_borders(),
        style.get_horizontals(),
        style.get_verticals(),
    )
}

impl<Data, Dims> TableOption<Data, ColoredConfig, Dims> for ReadyStyle {
    ghost makes = { λ style records dims old. ready_applied style };

    ghost hinted = { λ style. None };

    /// Does what the [`Style`] of this name does.
    ///
    /// `ReadyStyle::Markdown`:
    ///
    /// ```text
    /// | a | b |
    /// |---|---|
    /// | c | d |
    /// ```
    fn change(
        self,
        _records: &mut Data,
        cfg: &mut ColoredConfig,
        _dims: &mut Dims,
    ) -> Result<(), OutOfMemory>
        ensures ok { OnOk result (ColoredChanges (ready_applied self) cfg.old cfg.new) }
        ensures err { OnErr result (cfg.new ≡ cfg.old) }
        ensures without_lines { (shown self).horizontals ≡ [] → IsOk result }
        ensures records { _records.new ≡ _records.old }
        ensures sizes { _dims.new ≡ _dims.old }
    {
        self.replace_borders(cfg.config_mut())
    }

    fn hint_change(&self) -> Option<Entity> {
        None
    }
}

/// The class record alone.
impl From<ReadyStyle> for Borders<char> {
    ghost from_gives = { λ style result. result ≡ (shown style).borders };

    fn from(style: ReadyStyle) -> Self {
        style.borders()
    }
}

/// No ready style has this name.
#[derive(Debug, Clone, Copy, PartialEq, Eq)]
pub struct UnknownStyle;

/// One sentence: `no style of the library has this name`.
impl fmt::Display for UnknownStyle {
    ghost output = { λ _. Some (codes "no style of the library has this name") };

    fn fmt<W: fmt::Write>(&self, f: &mut fmt::Formatter<W>) -> fmt::Result {
        f.write_str("no style of the library has this name")
    }
}

impl Error for UnknownStyle {}

/// So that a program that reads and writes takes it by `?`, as a mistake in its input.
impl From<UnknownStyle> for io::Error {
    ghost from_gives = { λ _ error. error_kind error ≡ InvalidInput };

    fn from(_unknown: UnknownStyle) -> io::Error {
        io::Error::new(
            ErrorKind::InvalidInput,
            "no style of the library has this name",
        )
    }
}

impl FromStr for ReadyStyle {
    type Err = UnknownStyle;

    ghost from_str_gives = { λ name result. MatchOption (style_named name) (IsErr result) (λ style. result ≡ Ok style) };

    fn from_str(name: &str) -> Result<Self, UnknownStyle> {
        ReadyStyle::from_name(name).ok_or(UnknownStyle)
    }
}
