//! What vertical lines show beside rows, made once for a table.

ghost use Rattle.std.specs.Prelude.{◌≡◌, ◌≤◌, ◌+◌, ℕ, true, false, None, IfOk, map, option_map, slice_index_or};
ghost use Rattle.std.specs.Option.{ForSome};
ghost use Rattle.tabled_object.specs.Entities.{below};
ghost use Rattle.tabled_printing.specs.Alike.{NoneForCells, NoneForColumns};
ghost use Rattle.tabled_printing.specs.Along.{is_empty};
ghost use Rattle.tabled_printing.specs.Beside.{plain_side};
ghost use Rattle.tabled_printing.specs.SideMarks.{mark_count, side_mark, IsAlikeSide};

use crate::Mark;
use crate::alike::has_none_beside;
use crate::mark::{plain_mark, printed_as};
use tabled_border::OutOfMemory;
use tabled_configuration::SpannedConfig;
use tabled_grid::{LineOf, Place};
use tabled_kept::Probes;

/// What a vertical line shows beside rows.
#[derive(Clone, Copy, Debug)]
pub struct RowSide<'a> {
    /// What is kept for it beside the first row, without its offsets.
    pub mark: Mark<'a>,
    /// Whether it shows that beside each row without offsets, as nothing is kept for an edge of it by itself.
    pub is_alike: bool,
}

/// What vertical lines show beside rows: something for each line that is drawn, and nothing for one that is not.
#[derive(Debug, Drop)]
pub enum SideMarks<'a> {
    /// What the first line shows, what those between show, which look alike, and what the last one shows.
    ByRank(Option<RowSide<'a>>, Option<RowSide<'a>>, Option<RowSide<'a>>),
    /// What each line shows.
    Each(Vec<Option<RowSide<'a>>>),
}

/// What vertical lines show beside rows.
#[derive(Debug, Drop)]
pub struct RowSides<'a> {
    /// Their marks.
    pub marks: SideMarks<'a>,
    /// The number of the last line.
    pub last: usize,
    ghost counted: { mark_count (last + 1) marks ≡ last + 1 },
}

impl<'a> RowSides<'a> {
    ghost use Rattle.tabled_printing.specs.Sides.{AreSides, side_at};

    /// What is kept for each line without its offsets, beside the first row of a table.
    #[tactic(auto, using(crate::proofs::AlikeLemmas::listed_sides))]
    pub(crate) fn of(
        cfg: &'a SpannedConfig,
        shape: (usize, usize),
        with_colors: bool,
        by_rank: bool,
    ) -> Result<Self, OutOfMemory>
        requires shape { is_empty shape ≡ false }
        requires cells { by_rank ≡ true → NoneForCells cfg.now with_colors }
        requires columns { by_rank ≡ true → NoneForColumns cfg.now with_colors }
        ensures sides { IfOk result (AreSides cfg.now with_colors shape) }
        ensures last { IfOk result (λ sides. sides.last ≡ shape.1) }
    {
        let (_, last) = shape;
        if by_rank {
            let first = kept_side(cfg, shape, 0, with_colors);
            let inner = kept_side(cfg, shape, 1, with_colors);
            let end = kept_side(cfg, shape, last, with_colors);
            let marks = SideMarks::ByRank(first, inner, end);
            return Ok(RowSides { marks, last });
        }
        let marks = one_by_one(cfg, shape, with_colors)?;
        Ok(RowSides {
            marks: SideMarks::Each(marks),
            last,
        })
    }

    /// Returns what a line shows, if it is drawn.
    #[inline(always)]
    pub fn at(&self, col: usize) -> &Option<RowSide<'a>>
        requires { col ≤ self.now.last }
        ensures { result.now ≡ side_at self.now col }
    {
        match &self.marks {
            SideMarks::Each(marks) => &marks[col],
            SideMarks::ByRank(first, _, _) if col == 0 => first,
            SideMarks::ByRank(_, _, last) if col == self.last => last,
            SideMarks::ByRank(_, inner, _) => inner,
        }
    }

    /// How many bytes the characters of all lines take beside one line of text. It saturates.
    pub(crate) fn bytes(&self) -> usize {
        match &self.marks {
            SideMarks::ByRank(first, inner, last) => {
                let between = bytes_of(inner).saturating_mul(self.last.saturating_sub(1));
                bytes_of(first)
                    .saturating_add(between)
                    .saturating_add(bytes_of(last))
            }
            SideMarks::Each(marks) => bytes_of_each(marks),
        }
    }
}

/// How many bytes the character of a line takes.
fn bytes_of(side: &Option<RowSide>) -> usize {
    match side {
        Some(side) => printed_as(side.mark.shown).len_utf8(),
        None => 0,
    }
}

/// How many bytes the characters of lines take. It saturates.
fn bytes_of_each(sides: &[Option<RowSide>]) -> usize {
    let mut bytes = 0usize;
    for side in sides {
        bytes = bytes.saturating_add(bytes_of(side));
    }
    bytes
}

/// What a line shows beside the first row without its offsets, and whether beside each other one too, if the line is drawn.
#[tactic(auto, using(crate::proofs::LookLemmas::kept_drawn))]
pub(crate) fn kept_side<'a>(
    cfg: &'a SpannedConfig,
    shape: (usize, usize),
    col: usize,
    with_colors: bool,
) -> Option<RowSide<'a>>
    requires shape { is_empty shape ≡ false }
    requires col { col ≤ shape.1 }
    ensures mark { option_map side_mark result ≡ plain_side cfg.now with_colors shape col }
    ensures alike { ForSome result (IsAlikeSide cfg.now with_colors shape.0 col) }
{
    let line = LineOf::Vertical(col);
    let probes = &mut Probes::new();
    if !cfg.draws(line, shape.1, probes) {
        return None;
    }
    let place = Place::Vertical { row: 0, col, at: 0 };
    Some(RowSide {
        mark: plain_mark(cfg, shape, place, with_colors, probes),
        is_alike: has_none_beside(cfg, shape.0, col, with_colors),
    })
}

/// What all lines show.
fn one_by_one<'a>(
    cfg: &'a SpannedConfig,
    shape: (usize, usize),
    with_colors: bool,
) -> Result<Vec<Option<RowSide<'a>>>, OutOfMemory>
    requires shape { is_empty shape ≡ false }
    ensures marks { IfOk result (λ sides. map (option_map side_mark) sides.items ≡ map (plain_side cfg.now with_colors shape) (below (shape.1 + 1))) }
    ensures alike { IfOk result (λ sides. (c : ℕ) → ForSome (slice_index_or sides.items c None) (IsAlikeSide cfg.now with_colors shape.0 c)) }
{
    let (_, last) = shape;
    let mut sides = Vec::with_capacity(cfg.allocator(), last.saturating_add(1))?;
    for col in 0..last {
        sides.push(kept_side(cfg, shape, col, with_colors))?;
    }
    sides.push(kept_side(cfg, shape, last, with_colors))?;
    Ok(sides)
}
