//! The options by name.

ghost use Rattle.std.specs.Prelude.{◌≡◌, option_map};
ghost use Rattle.tabled_request.specs.Options.{all_options, entry_of, is_named, name_of, option_named, takes_value};

/// An option of the program.
#[derive(Clone, Copy, Debug, PartialEq, Eq)]
pub enum OptionName {
    /// The style, by its name.
    Style,
    /// The character between two cells.
    Separator,
    /// Cells may stand in quotes.
    Csv,
    /// Cells have spaces between them.
    Spaces,
    /// The first row is a header.
    Header,
    /// The first row is as the others.
    NoHeader,
    /// A text above the table.
    Title,
    /// A text below the table.
    Footer,
    /// Columns whose cells stand at the left.
    Left,
    /// Columns whose cells stand in the middle.
    Center,
    /// Columns whose cells stand at the right.
    Right,
    /// Columns of numbers stand as the others.
    NoNumbers,
    /// How many columns of the terminal the table may take.
    Width,
    /// Texts that are too wide go on in further lines.
    Wrap,
    /// Texts that are too wide are cut off.
    Truncate,
    /// The table takes no more columns than the terminal has.
    Terminal,
    /// When there are colors.
    Color,
    /// Every other row has a background.
    Stripes,
    /// The color of borders.
    FrameColor,
    /// Cells by their rows and columns, with an outline around them.
    Outline,
    /// A text, with an outline around each cell that has it.
    Mark,
    /// Short rows are filled with empty cells.
    Fill,
    /// Columns that are shown, in their order.
    Columns,
    /// How many rows are shown at most.
    Head,
    /// The number of each row stands before it.
    RowNumbers,
    /// Texts are left as they are.
    Raw,
    /// Show what the options are.
    Help,
    /// Show which version this is.
    Version,
    /// Show the styles.
    Styles,
}

impl OptionName {
    /// Returns all options, in the order in which one that is near a word is looked for.
    pub fn all() -> [OptionName; 29]
        ensures { result ≡ all_options }
    {
        [
            OptionName::Style,
            OptionName::Separator,
            OptionName::Csv,
            OptionName::Spaces,
            OptionName::NoHeader,
            OptionName::Header,
            OptionName::Title,
            OptionName::Footer,
            OptionName::Left,
            OptionName::Center,
            OptionName::Right,
            OptionName::NoNumbers,
            OptionName::Width,
            OptionName::Wrap,
            OptionName::Truncate,
            OptionName::Terminal,
            OptionName::Color,
            OptionName::Stripes,
            OptionName::FrameColor,
            OptionName::Outline,
            OptionName::Mark,
            OptionName::Fill,
            OptionName::Columns,
            OptionName::Head,
            OptionName::RowNumbers,
            OptionName::Raw,
            OptionName::Help,
            OptionName::Version,
            OptionName::Styles,
        ]
    }

    /// The name of the option, its letter, and whether the word after it is its value.
    #[tactic(auto, unfolding(crate::specs::Options::entry_of))]
    fn entry(self) -> (&'static str, Option<&'static str>, bool)
        ensures name { result.0.now ≡ name_of self }
        ensures letter { option_map (λ letter. letter.now) result.1 ≡ (entry_of self).letter }
        ensures takes_value { result.2 ≡ takes_value self }
    {
        match self {
            OptionName::Style => ("--style", Some("-s"), true),
            OptionName::Separator => ("--separator", Some("-d"), true),
            OptionName::Csv => ("--csv", Some("-c"), false),
            OptionName::Spaces => ("--spaces", None, false),
            OptionName::Header => ("--header", None, false),
            OptionName::NoHeader => ("--no-header", None, false),
            OptionName::Title => ("--title", Some("-t"), true),
            OptionName::Footer => ("--footer", None, true),
            OptionName::Left => ("--left", Some("-l"), true),
            OptionName::Center => ("--center", None, true),
            OptionName::Right => ("--right", Some("-r"), true),
            OptionName::NoNumbers => ("--no-numbers", None, false),
            OptionName::Width => ("--width", Some("-w"), true),
            OptionName::Wrap => ("--wrap", None, false),
            OptionName::Truncate => ("--truncate", None, false),
            OptionName::Terminal => ("--terminal", None, false),
            OptionName::Color => ("--color", Some("-C"), true),
            OptionName::Stripes => ("--stripes", None, false),
            OptionName::FrameColor => ("--frame-color", None, true),
            OptionName::Outline => ("--outline", Some("-o"), true),
            OptionName::Mark => ("--mark", Some("-m"), true),
            OptionName::Fill => ("--fill", None, false),
            OptionName::Columns => ("--columns", None, true),
            OptionName::Head => ("--head", Some("-n"), true),
            OptionName::RowNumbers => ("--row-numbers", None, false),
            OptionName::Raw => ("--raw", None, false),
            OptionName::Help => ("--help", Some("-h"), false),
            OptionName::Version => ("--version", Some("-V"), false),
            OptionName::Styles => ("--styles", None, false),
        }
    }

    /// Returns the name of the option.
    pub fn name(self) -> &'static str
        ensures { result.now ≡ name_of self }
    {
        self.entry().0
    }

    /// Returns whether the word after it is its value.
    pub fn takes_value(self) -> bool
        ensures { result ≡ takes_value self }
    {
        self.entry().2
    }

    /// Whether a word names the option, by its name or its letter.
    fn is_named(self, word: &str) -> bool
        ensures { result ≡ is_named self word.now }
    {
        match self.entry() {
            (name, Some(letter), _) => name == word || letter == word,
            (name, None, _) => name == word,
        }
    }

    /// Returns the option that a word names, if it names one: by its name, or by its letter after a dash.
    pub fn from_name(word: &str) -> Option<OptionName>
        ensures { result ≡ option_named word.now }
    {
        OptionName::all()
            .into_iter()
            .find(|option| option.is_named(word))
    }
}
