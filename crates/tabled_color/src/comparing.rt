//! When colors are equal, and how they are ordered.

ghost use Rattle.std.specs.Prelude.{◌≡◌, ◌==◌, ◌++◌};
ghost use Rattle.std.specs.Cmp.{partial_order_from_own_ties};
ghost use Rattle.std.specs.Cmp.Rules.{comparing};
ghost use Rattle.std.specs.Ordering.{as_partial_cmp};
ghost use Rattle.std.proofs.Common.{rules};
ghost use Rattle.tabled_color.specs.Order.{same_shade, shade_cmp};

use crate::color::{Color, Inner};
use std::cmp::Ordering;
use std::hash::{Hash, Hasher};

impl Color {
    /// Whether the texts are owned.
    fn is_owned(&self) -> bool
        ensures { result ≡ self.now.owned }
    {
        match self.inner {
            Inner::Static { .. } => false,
            Inner::Buf(_) => true,
        }
    }
}

/// Colors are equal where both are static, or both own their texts, and the texts are equal.
impl PartialEq for Color {
    ghost eq = { same_shade };

    ghost laws = { Prim.search (comparing, rules) };

    fn eq(&self, other: &Color) -> bool {
        self.is_owned() == other.is_owned()
            && self.get_prefix() == other.get_prefix()
            && self.get_suffix() == other.get_suffix()
    }
}

impl Eq for Color {
    ghost laws = { Prim.search (comparing, rules) };
}

/// Static colors come first; then the prefixes decide, and then the suffixes.
impl Ord for Color {
    ghost cmp = { shade_cmp };

    ghost total = { Prim.search (comparing, rules) };

    ghost matches_partial_cmp = { Prim.search (comparing, rules) };

    ghost matches_eq = { Prim.search (comparing, rules) };

    fn cmp(&self, other: &Color) -> Ordering {
        self.is_owned()
            .cmp(&other.is_owned())
            .then(self.get_prefix().cmp(other.get_prefix()))
            .then(self.get_suffix().cmp(other.get_suffix()))
    }
}

impl PartialOrd for Color {
    ghost partial_cmp = { as_partial_cmp shade_cmp };

    ghost laws = { partial_order_from_own_ties (Prim.search (comparing, rules)) (Prim.search (comparing, rules)) };

    fn partial_cmp(&self, other: &Color) -> Option<Ordering> {
        Some(self.cmp(other))
    }
}

impl Hash for Color {
    ghost use Rattle.std.specs.Hash as fed;
    ghost use Rattle.std.specs.Cmp.Rules.{hashing};

    ghost hash_input = { λ a. fed.bool a.owned ++ fed.str a.prefix ++ fed.str a.suffix };

    ghost respects_eq = { Prim.search (hashing, rules) };

    fn hash<H: Hasher>(&self, state: &mut H) {
        self.is_owned().hash(state);
        self.get_prefix().hash(state);
        self.get_suffix().hash(state);
    }
}
