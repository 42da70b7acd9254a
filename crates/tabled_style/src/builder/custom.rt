//! The custom lines of a style, each with the index of the line that it stands for.

ghost use Rattle.std.specs.Prelude.{◌≡◌, ⊤, length};
ghost use Rattle.tabled_style.specs.Lines.{each_line, over_horizontal, over_vertical};
ghost use Rattle.tabled_places.specs.CustomLines.{put_horizontal_meeting, put_vertical_meeting};

use crate::{HorizontalLine, VerticalLine};
use std::alloc::AllocError;
use std::marker::Model;
use tabled_grid::{HorizontalLine as HLine, Rank, VerticalLine as VLine};

/// A custom line of one direction, and what calls do to it.
pub(super) trait CustomLine: Copy {
    ghost use Rattle.std.specs.Prelude.{◌≡◌, ℕ, Option};
    ghost use Rattle.tabled_places.specs.declared.place.Rank.{Rank};

    /// A line with the given characters of another in place of its own.
    ghost over: { Self → Self → Self };

    /// A line with its crossings of a rank set.
    ghost met: { Rank → Option ℕ → Self → Self };

    /// The line with the given characters of `put`, but for its main one, in place of its own.
    fn put_over(self, put: Self) -> Self
        ensures { result ≡ over put self };

    /// The line with this at its crossings with the lines of a rank.
    fn meeting(self, rank: Rank, c: Option<char>) -> Self
        ensures { result ≡ met rank c self };
}

impl CustomLine for HLine<char> {
    ghost over = { over_horizontal };

    ghost met = { put_horizontal_meeting };

    fn put_over(self, put: Self) -> Self {
        HLine {
            main: self.main,
            intersection: put.intersection.or(self.intersection),
            left: put.left.or(self.left),
            right: put.right.or(self.right),
        }
    }

    fn meeting(mut self, rank: Rank, c: Option<char>) -> Self {
        self.set_crossing(rank, c);
        self
    }
}

impl CustomLine for VLine<char> {
    ghost over = { over_vertical };

    ghost met = { put_vertical_meeting };

    fn put_over(self, put: Self) -> Self {
        VLine {
            main: self.main,
            intersection: put.intersection.or(self.intersection),
            top: put.top.or(self.top),
            bottom: put.bottom.or(self.bottom),
        }
    }

    fn meeting(mut self, rank: Rank, c: Option<char>) -> Self {
        self.set_crossing(rank, c);
        self
    }
}

/// Custom lines of one direction.
#[derive(Debug, Drop, PartialEq, Eq, PartialOrd, Ord, Hash)]
pub(super) struct Lines<Line, const N: usize> {
    pub(super) lines: [(usize, Line); N],
}

impl<Line, const N: usize> Model for Lines<Line, N> {
    ghost use Rattle.std.specs.Prelude.{ℕ, List};

    ghost Value = { List (ℕ × Line) };

    ghost view = { λ fields. fields.lines };

    ghost inverse = { λ lines. record { lines = lines } };
}

/// Lines are copied.
impl<const N: usize> Clone for Lines<HLine<char>, N> {
    ghost is_clone = { λ value copy. copy ≡ value };

    ghost is_infallible = { λ _. ⊤ };

    fn clone(&self) -> Result<Self, AllocError> {
        let lines = self.lines;
        Ok(Lines { lines })
    }
}

/// Lines are copied.
impl<const N: usize> Clone for Lines<VLine<char>, N> {
    ghost is_clone = { λ value copy. copy ≡ value };

    ghost is_infallible = { λ _. ⊤ };

    fn clone(&self) -> Result<Self, AllocError> {
        let lines = self.lines;
        Ok(Lines { lines })
    }
}

impl<Line: CustomLine, const N: usize> Lines<Line, N> {
    /// The lines.
    pub(super) fn as_slice(&self) -> &[(usize, Line)]
        ensures { result.now ≡ self.now }
    {
        &self.lines
    }

    /// Puts the given characters of `put`, but for its main one, in place of those of each line.
    pub(super) fn put_over(&mut self, put: Line)
        ensures { self.new ≡ each_line (Line.over put) self.old }
    {
        put_over_each(&mut self.lines, put);
    }

    /// Sets or drops what each line has at its crossings with the lines of a rank.
    pub(super) fn set_crossing(&mut self, rank: Rank, c: Option<char>)
        ensures { self.new ≡ each_line (Line.met rank c) self.old }
    {
        set_each_crossing(&mut self.lines, rank, c);
    }
}

impl<const N: usize> Lines<HLine<char>, N> {
    /// The characters of marked lines.
    pub(super) fn of_horizontals<L, R, I>(list: [(usize, HorizontalLine<L, R, I>); N]) -> Self
        ensures { result ≡ list }
    {
        let mut lines = [(0, HLine::empty()); N];
        copy_horizontals(&mut lines, &list);
        Lines { lines }
    }
}

impl<const N: usize> Lines<VLine<char>, N> {
    /// The characters of marked lines.
    pub(super) fn of_verticals<T, B, I>(list: [(usize, VerticalLine<T, B, I>); N]) -> Self
        ensures { result ≡ list }
    {
        let mut lines = [(0, VLine::empty()); N];
        copy_verticals(&mut lines, &list);
        Lines { lines }
    }
}

fn put_over_each<Line: CustomLine>(lines: &mut [(usize, Line)], put: Line)
    ensures { lines.new ≡ each_line (Line.over put) lines.old }
{
    for (_, line) in lines.iter_mut() {
        *line = line.put_over(put);
    }
}

fn set_each_crossing<Line: CustomLine>(lines: &mut [(usize, Line)], rank: Rank, c: Option<char>)
    ensures { lines.new ≡ each_line (Line.met rank c) lines.old }
{
    for (_, line) in lines.iter_mut() {
        *line = line.meeting(rank, c);
    }
}

fn copy_horizontals<L, R, I>(
    lines: &mut [(usize, HLine<char>)],
    list: &[(usize, HorizontalLine<L, R, I>)],
)
    requires { length lines.old ≡ length list.now }
    ensures { lines.new ≡ list.now }
{
    for (i, line) in lines.iter_mut().enumerate() {
        let given = &list[i];
        *line = (given.0, given.1.into_inner());
    }
}

fn copy_verticals<T, B, I>(
    lines: &mut [(usize, VLine<char>)],
    list: &[(usize, VerticalLine<T, B, I>)],
)
    requires { length lines.old ≡ length list.now }
    ensures { lines.new ≡ list.now }
{
    for (i, line) in lines.iter_mut().enumerate() {
        let given = &list[i];
        *line = (given.0, given.1.into_inner());
    }
}
