//! What is asked for.

ghost use Rattle.std.specs.Prelude.{◌≡◌};
ghost use Rattle.tabled_request.specs.Values.{color_named, when_named};
ghost use Rattle.tabled_request.specs.Words.{first_request};

/// What is shown.
#[derive(Clone, Copy, Debug, PartialEq, Eq)]
pub enum Shows {
    /// The table of the input.
    Table,
    /// What the options are.
    Help,
    /// Which version this is.
    Version,
    /// The styles.
    Styles,
}

/// How the cells of the input stand, where it is said.
#[derive(Clone, Copy, Debug, PartialEq, Eq)]
pub enum Form {
    /// With a separator between two, each in quotes or without.
    Csv,
    /// With spaces between two.
    Spaces,
}

/// When there are colors.
#[derive(Clone, Copy, Debug, PartialEq, Eq)]
pub enum When {
    /// Where the output takes them.
    Auto,
    /// Always.
    Always,
    /// Never.
    Never,
}

impl When {
    /// Returns when there are colors, by the word that says so.
    pub fn from_name(name: &str) -> Option<When>
        ensures { result ≡ when_named name.now }
    {
        match name {
            "auto" => Some(When::Auto),
            "always" => Some(When::Always),
            "never" => Some(When::Never),
            _ => None,
        }
    }
}

/// The color of borders.
#[derive(Clone, Copy, Debug, PartialEq, Eq)]
pub enum FrameColor {
    Black,
    Red,
    Green,
    Yellow,
    Blue,
    Magenta,
    Cyan,
    White,
}

impl FrameColor {
    /// Returns the color of this name, in small letters.
    pub fn from_name(name: &str) -> Option<FrameColor>
        ensures { result ≡ color_named name.now }
    {
        match name {
            "black" => Some(FrameColor::Black),
            "red" => Some(FrameColor::Red),
            "green" => Some(FrameColor::Green),
            "yellow" => Some(FrameColor::Yellow),
            "blue" => Some(FrameColor::Blue),
            "magenta" => Some(FrameColor::Magenta),
            "cyan" => Some(FrameColor::Cyan),
            "white" => Some(FrameColor::White),
            _ => None,
        }
    }
}

/// What the words ask for. A word is named by its number, counted from 0.
#[derive(Clone, Copy, Debug, PartialEq, Eq)]
pub struct Request {
    /// What is shown.
    pub shows: Shows,
    /// The word that names the file to be read; standard input, where none does.
    pub file: Option<usize>,
    /// The word that names the style of the table.
    pub style: Option<usize>,
    /// The character between two cells, where it is given.
    pub separator: Option<char>,
    /// How the cells of the input stand, where it is said.
    pub form: Option<Form>,
    /// Whether the first row is a header.
    pub has_header: bool,
    /// The word that is the text above the table.
    pub title: Option<usize>,
    /// The word that is the text below the table.
    pub footer: Option<usize>,
    /// The word that names the columns whose cells stand at the left.
    pub left: Option<usize>,
    /// The word that names the columns whose cells stand in the middle.
    pub center: Option<usize>,
    /// The word that names the columns whose cells stand at the right.
    pub right: Option<usize>,
    /// Whether columns of numbers stand at the right by themselves.
    pub finds_numbers: bool,
    /// How many columns of the terminal the table may take.
    pub width: Option<usize>,
    /// Whether texts that are too wide are cut off, and do not go on in further lines.
    pub cuts_off: bool,
    /// Whether the table may take the columns of the terminal.
    pub fits_terminal: bool,
    /// When there are colors.
    pub color: When,
    /// Whether every other row has a background.
    pub has_stripes: bool,
    /// The color of borders.
    pub frame_color: Option<FrameColor>,
    /// The word that names the cells with an outline around them.
    pub outline: Option<usize>,
    /// The word that is the text of the cells with an outline around them.
    pub mark: Option<usize>,
    /// Whether short rows are filled with empty cells.
    pub fills: bool,
    /// The word that names the columns that are shown, in their order; all, where none does.
    pub columns: Option<usize>,
    /// How many rows are shown at most, the header not counted.
    pub head: Option<usize>,
    /// Whether the number of each row stands before it.
    pub has_row_numbers: bool,
    /// Whether texts are left as they are.
    pub is_raw: bool,
}

impl Request {
    /// Returns what no words ask for.
    pub fn of_no_words() -> Request
        ensures { result ≡ first_request }
    {
        Request {
            shows: Shows::Table,
            file: None,
            style: None,
            separator: None,
            form: None,
            has_header: true,
            title: None,
            footer: None,
            left: None,
            center: None,
            right: None,
            finds_numbers: true,
            width: None,
            cuts_off: false,
            fits_terminal: false,
            color: When::Auto,
            has_stripes: false,
            frame_color: None,
            outline: None,
            mark: None,
            fills: false,
            columns: None,
            head: None,
            has_row_numbers: false,
            is_raw: false,
        }
    }
}
