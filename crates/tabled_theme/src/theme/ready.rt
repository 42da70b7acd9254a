//! Themes of ready styles, which may be chosen while a program runs.

ghost use Rattle.std.specs.Prelude.{◌≡◌, IfOk};
ghost use Rattle.tabled_style.specs.Named.{shown};
ghost use Rattle.tabled_theme.specs.Shown.{of_style};

use super::Theme;
use std::alloc::Global;
use tabled_border::OutOfMemory;
use tabled_style::{ReadyStyle, Style};

impl Theme {
    /// Makes the theme of what a ready style draws, as `from_style` has it.
    #[tactic(auto, unfolding(tabled_style::specs::Named::shown))]
    pub fn from_ready(alloc: Global, style: ReadyStyle) -> Result<Self, OutOfMemory>
        ensures { IfOk result (λ theme. theme ≡ of_style (shown style)) }
    {
        match style {
            ReadyStyle::Empty => Theme::from_style(alloc, Style::empty()),
            ReadyStyle::Blank => Theme::from_style(alloc, Style::blank()),
            ReadyStyle::Ascii => Theme::from_style(alloc, Style::ascii()),
            ReadyStyle::Psql => Theme::from_style(alloc, Style::psql()),
            ReadyStyle::Markdown => Theme::from_style(alloc, Style::markdown()),
            ReadyStyle::Modern => Theme::from_style(alloc, Style::modern()),
            ReadyStyle::Sharp => Theme::from_style(alloc, Style::sharp()),
            ReadyStyle::Rounded => Theme::from_style(alloc, Style::rounded()),
            ReadyStyle::ModernRounded => Theme::from_style(alloc, Style::modern_rounded()),
            ReadyStyle::Extended => Theme::from_style(alloc, Style::extended()),
            ReadyStyle::Dots => Theme::from_style(alloc, Style::dots()),
            ReadyStyle::ReStructuredText => Theme::from_style(alloc, Style::re_structured_text()),
            ReadyStyle::AsciiRounded => Theme::from_style(alloc, Style::ascii_rounded()),
        }
    }
}
