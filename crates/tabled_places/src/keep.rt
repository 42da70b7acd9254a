//! Copies of lines and of the class record.

ghost use Rattle.std.specs.Prelude.{◌≡◌, IfOk};

use crate::{Borders, HorizontalLine, VerticalLine};
use std::alloc::Global;
use tabled_border::{Keep, OutOfMemory};

impl<T: Keep> Keep for HorizontalLine<T> {
    fn keep(&self, alloc: Global) -> Result<Self, OutOfMemory> {
        Ok(HorizontalLine {
            main: self.main.keep(alloc)?,
            intersection: self.intersection.keep(alloc)?,
            left: self.left.keep(alloc)?,
            right: self.right.keep(alloc)?,
        })
    }
}

impl<T: Keep> Keep for VerticalLine<T> {
    fn keep(&self, alloc: Global) -> Result<Self, OutOfMemory> {
        Ok(VerticalLine {
            main: self.main.keep(alloc)?,
            intersection: self.intersection.keep(alloc)?,
            top: self.top.keep(alloc)?,
            bottom: self.bottom.keep(alloc)?,
        })
    }
}

impl<T: Keep> Keep for Borders<T> {
    fn keep(&self, alloc: Global) -> Result<Self, OutOfMemory> {
        let edges = keep_five(
            &self.top,
            &self.bottom,
            &self.left,
            &self.right,
            &self.horizontal,
            alloc,
        )?;
        let corners = keep_five(
            &self.top_left,
            &self.top_right,
            &self.bottom_left,
            &self.bottom_right,
            &self.vertical,
            alloc,
        )?;
        let inner = keep_five(
            &self.top_intersection,
            &self.bottom_intersection,
            &self.left_intersection,
            &self.right_intersection,
            &self.intersection,
            alloc,
        )?;
        Ok(Borders {
            top: edges.0,
            bottom: edges.1,
            left: edges.2,
            right: edges.3,
            top_left: corners.0,
            top_right: corners.1,
            bottom_left: corners.2,
            bottom_right: corners.3,
            top_intersection: inner.0,
            bottom_intersection: inner.1,
            left_intersection: inner.2,
            right_intersection: inner.3,
            horizontal: edges.4,
            vertical: corners.4,
            intersection: inner.4,
        })
    }
}

/// Five values of one type.
type Five<T> = (T, T, T, T, T);

/// Copies of five values, or of none.
fn keep_five<T: Keep>(
    first: &T,
    second: &T,
    third: &T,
    fourth: &T,
    fifth: &T,
    alloc: Global,
) -> Result<Five<T>, OutOfMemory>
    ensures { IfOk result (λ copies. copies ≡ (first.now, second.now, third.now, fourth.now, fifth.now)) }
{
    Ok((
        first.keep(alloc)?,
        second.keep(alloc)?,
        third.keep(alloc)?,
        fourth.keep(alloc)?,
        fifth.keep(alloc)?,
    ))
}
