//! What keeps a text within a number of columns or lines.

use std::alloc::Global;
use tabled_border::OutOfMemory;

/// What keeps a text within a number of columns or lines: `Width::wrap`, `Width::truncate` and `Height::limit`, or one of one's own.
pub trait TextLimit {
    ghost use Rattle.std.specs.Prelude.{◌≡◌, ℕ, List, string_bytes, IfOk};

    /// What it makes of a text.
    ghost limits: { Self → List ℕ → List ℕ };

    /// What it makes of a text. Only memory can be refused.
    fn limited(&self, alloc: Global, text: &str) -> Result<String, OutOfMemory>
        ensures { IfOk result (λ found. string_bytes found ≡ limits self.now text.now) };
}
