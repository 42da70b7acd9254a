//! Which lines of a table are drawn.

ghost use Rattle.std.specs.Prelude.{◌≡◌, ◌+◌, ℕ, false, length, slice_index_or, IfOk};
ghost use Rattle.tabled_configuration.specs.Configuration.{all_writes, characters_of};
ghost use Rattle.tabled_places.specs.Drawn.{drawn};
ghost use Rattle.tabled_painting.specs.RoomLines.{line_in};

use tabled_border::OutOfMemory;
use tabled_configuration::SpannedConfig;
use tabled_grid::{Direction, LineOf};
use tabled_kept::Probes;

/// The line of a direction and a number.
fn line_in(direction: Direction, number: usize) -> LineOf
    ensures { result ≡ line_in direction number }
{
    match direction {
        Direction::Horizontal => LineOf::Horizontal(number),
        Direction::Vertical => LineOf::Vertical(number),
    }
}

/// Which lines of a direction are drawn, the last one with them, in a table of so many rows or columns.
pub(crate) fn lines_drawn(
    cfg: &SpannedConfig,
    direction: Direction,
    count: usize,
) -> Result<Vec<bool>, OutOfMemory>
    ensures count { IfOk result (λ lines. length lines.items ≡ count + 1) }
    ensures drawn { IfOk result (λ lines. (n : ℕ) → slice_index_or lines.items n false ≡ drawn (characters_of (all_writes cfg.now)) count (line_in direction n)) }
{
    let probes = &mut Probes::new();
    let mut lines = Vec::with_capacity(cfg.allocator(), count.saturating_add(1))?;
    for number in 0..count {
        lines.push(cfg.draws(line_in(direction, number), count, probes))?;
    }
    lines.push(cfg.draws(line_in(direction, count), count, probes))?;
    Ok(lines)
}
