//! Styles: which border characters a table has, and on which lines.

ghost use Rattle.std.specs.Prelude.{◌≡◌};

use std::marker::{Model, PhantomData};
use tabled_grid::{Borders, HorizontalLine as HLine, VerticalLine as VLine};

mod compact;
mod custom;
mod frame;
mod lines;
mod option;
mod ready;
mod removers;
mod setters;

use custom::Lines;

/// A class record, and custom lines that stand at some index in place of what the record says there.
///
/// `T`, `B`, `L`, `R`, `H` and `V` mark which of the top, the bottom, the left side, the right side, the lines
/// between rows and the lines between columns are there: [`On`](crate::On), or `()`. `HN` and `VN` are the
/// numbers of custom horizontal and vertical lines.
///
/// As an option a style draws a table anew: what was there before is gone. Here the cell (0, 0) had a border of its own:
///
/// ```text
/// #####---+                             ╭───┬───╮
/// # a # b |                             │ a │ b │
/// #####---+   with(Style::rounded())    ├───┼───┤
/// | c | d |                             │ c │ d │
/// +---+---+                             ╰───┴───╯
/// ```
#[derive(Drop)]
#[derive_where(Clone, Debug, PartialEq, Eq, PartialOrd, Ord, Hash)]
pub struct Style<T, B, L, R, H, V, const HN: usize, const VN: usize> {
    borders: Borders<char>,
    horizontals: Lines<HLine<char>, HN>,
    verticals: Lines<VLine<char>, VN>,
    of_top: PhantomData<T>,
    of_bottom: PhantomData<B>,
    of_left: PhantomData<L>,
    of_right: PhantomData<R>,
    of_horizontal: PhantomData<H>,
    of_vertical: PhantomData<V>,
}

impl<T, B, L, R, H, V, const HN: usize, const VN: usize> Model for Style<T, B, L, R, H, V, HN, VN> {
    ghost use Rattle.tabled_style.specs.Shown.{StyleShown};

    ghost Value = { StyleShown };

    ghost view = { λ fields. record {
      borders = fields.borders;
      horizontals = fields.horizontals;
      verticals = fields.verticals;
    } };

    ghost inverse = { λ shown. record {
      borders = shown.borders;
      horizontals = shown.horizontals;
      verticals = shown.verticals;
      of_top = _;
      of_bottom = _;
      of_left = _;
      of_right = _;
      of_horizontal = _;
      of_vertical = _;
    } };
}

impl<T, B, L, R, H, V, const HN: usize, const VN: usize> Style<T, B, L, R, H, V, HN, VN> {
    /// The style of this record and these lines, whatever the markers say.
    fn new(
        borders: Borders<char>,
        horizontals: Lines<HLine<char>, HN>,
        verticals: Lines<VLine<char>, VN>,
    ) -> Self
        ensures { result ≡ record {
          borders = borders;
          horizontals = horizontals.entry;
          verticals = verticals.entry;
        } }
    {
        Style {
            borders,
            horizontals,
            verticals,
            of_top: PhantomData,
            of_bottom: PhantomData,
            of_left: PhantomData,
            of_right: PhantomData,
            of_horizontal: PhantomData,
            of_vertical: PhantomData,
        }
    }

    /// The style as it is, under other markers.
    fn marked<Top, Bottom, Left, Right, Horizontal, Vertical>(
        self,
    ) -> Style<Top, Bottom, Left, Right, Horizontal, Vertical, HN, VN>
        ensures { result ≡ self }
    {
        Style::new(self.borders, self.horizontals, self.verticals)
    }

    /// Returns the class record.
    pub fn get_borders(&self) -> Borders<char>
        ensures { result ≡ self.now.borders }
    {
        self.borders
    }

    /// Returns the custom horizontal lines, each with its index.
    pub fn get_horizontals(&self) -> &[(usize, HLine<char>)]
        ensures { result.now ≡ self.now.horizontals }
    {
        self.horizontals.as_slice()
    }

    /// Returns the custom vertical lines, each with its index.
    pub fn get_verticals(&self) -> &[(usize, VLine<char>)]
        ensures { result.now ≡ self.now.verticals }
    {
        self.verticals.as_slice()
    }
}

/// The class record alone.
impl<T, B, L, R, H, V, const HN: usize, const VN: usize> From<Style<T, B, L, R, H, V, HN, VN>>
    for Borders<char> {
    ghost from_gives = { λ style result. result ≡ style.borders };

    fn from(style: Style<T, B, L, R, H, V, HN, VN>) -> Self {
        style.borders
    }
}
