//! How many columns lines have, from how many words each of them has.

ghost use Rattle.std.specs.Prelude.{◌≡◌, ◌≤◌, length};
ghost use Rattle.tabled_input.specs.Spaced.{area, column_count, largest, may_head};

/// A line and all lines below it: how many they are, and the fewest words that one of them has.
#[derive(Clone, Copy, Debug, PartialEq, Eq)]
pub struct Block {
    pub height: usize,
    pub width: usize,
}

impl Block {
    /// How many words the block has room for.
    fn area(self) -> u128
        ensures { result ≡ area self }
    {
        self.height as u128 * self.width as u128
    }
}

/// The block of a line and those below it whose area is the largest, the uppermost one of equals.
fn largest(counts: &[usize]) -> Block
    ensures block { result ≡ largest counts.now }
    ensures within { result.height ≤ length counts.now }
{
    let mut best = Block {
        height: 0,
        width: 0,
    };
    let mut width = usize::MAX;
    for below in 0..counts.len() {
        width = width.min(counts[counts.len() - 1 - below]);
        let block = Block {
            height: below + 1,
            width,
        };
        if best.area() <= block.area() {
            best = block;
        }
    }
    best
}

/// Whether a line above a block of that width may have its headings.
fn may_head(width: usize, count: usize) -> bool
    ensures { result ≡ may_head width count }
{
    count < width && count.saturating_mul(3) >= width
}

/// Returns how many columns lines have.
pub fn column_count(counts: &[usize]) -> usize
    ensures { result ≡ column_count counts.now }
{
    let table = largest(counts);
    let above = &counts[..counts.len() - table.height];
    let headings = above
        .iter()
        .copied()
        .filter(|count| may_head(table.width, *count));
    headings.max().unwrap_or(table.width)
}
