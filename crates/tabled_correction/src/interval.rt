//! Rows, or columns, in a row.

ghost use Rattle.std.specs.Prelude.{◌≡◌, ℕ, ◌+◌, ◌==◌, ◌&&◌, nat_lt};

/// The numbers from one on, and before another.
#[derive(Clone, Copy, Debug)]
pub(crate) struct Interval {
    pub(crate) start: usize,
    pub(crate) end: usize,
}

impl Interval {
    ghost use Rattle.tabled_correction.specs.Covered.{is_in};

    /// One number alone, where it is below a length.
    pub(crate) fn only(at: usize, length: usize) -> Self
        ensures { (n : ℕ) → is_in result n ≡ ((n == at) && nat_lt n length) }
    {
        Interval {
            start: at,
            end: length.min(at.saturating_add(1)),
        }
    }

    /// The numbers after one, of the given count from it on, where they are below a length.
    pub(crate) fn after(at: usize, count: usize, length: usize) -> Self
        ensures { (n : ℕ) → is_in result n ≡ ((nat_lt at n && nat_lt n (at + count)) && nat_lt n length) }
    {
        Interval {
            start: at.saturating_add(1),
            end: length.min(at.saturating_add(count)),
        }
    }
}
