//! Colors, as the texts that a terminal reads before and after what is colored.

ghost use Rattle.std.specs.Prelude.{◌≡◌, ◌↔◌, [], ◌++◌, ◌==◌, ℕ, List, IsTrue, IfOk, IsOk, OnOk};
ghost use Rattle.std.specs.String.{string_bytes};
ghost use Rattle.std.specs.Cmp.{partial_order_from_own_ties};
ghost use Rattle.std.specs.Cmp.Rules.{comparing};
ghost use Rattle.std.specs.Cmp.Lexicographic.{slice_cmp, pointwise};
ghost use Rattle.std.specs.Ordering.{nat_cmp, on, then_cmp, eq_of_both, as_partial_cmp};
ghost use Rattle.std.proofs.Common.{rules};

use crate::{Keep, OutOfMemory};
use std::alloc::Global;
use std::cmp::Ordering;
use std::fmt;
use std::hash::{Hash, Hasher};
use std::marker::Model;
use std::sync::Arc;

/// A value that writes a text before and a text after what it is wrapped around.
pub trait ANSIFmt {
    ghost prefix_text: { Self → List ℕ };

    ghost suffix_text: { Self → List ℕ };

    /// Writes the text before. A fault of the writer is passed on.
    fn fmt_ansi_prefix<W: fmt::Write>(&self, f: &mut W) -> fmt::Result
        ensures { OnOk result (W.write_str_gives f.old (prefix_text self.now) f.new) };

    /// Writes the text after. A fault of the writer is passed on.
    fn fmt_ansi_suffix<W: fmt::Write>(&self, f: &mut W) -> fmt::Result
        ensures { OnOk result (W.write_str_gives f.old (suffix_text self.now) f.new) };
}

/// A color that lends its two texts.
pub trait AnsiText {
    ghost prefix_text: { Self → List ℕ };

    ghost suffix_text: { Self → List ℕ };

    /// The text before what is colored.
    fn prefix(&self) -> &str
        ensures { result.now ≡ prefix_text self.now };

    /// The text after what is colored.
    fn suffix(&self) -> &str
        ensures { result.now ≡ suffix_text self.now };
}

/// A color that owns its texts, together with its copies: these share them.
///
/// Two colors are equal where their texts are. Colors are ordered by prefix, then by suffix.
#[derive(Drop)]
pub struct ANSIBuf {
    /// The two texts of the color, or none where both are empty.
    texts: Option<Arc<OwnedTexts>>,
}

/// The two texts of a color.
#[derive(Drop)]
struct OwnedTexts {
    prefix: String,
    suffix: String,
}

/// Shows the two texts.
impl fmt::Debug for ANSIBuf {
    fn fmt<W: fmt::Write>(&self, f: &mut fmt::Formatter<W>) -> fmt::Result {
        f.debug_struct("ANSIBuf")
            .field("prefix", &self.get_prefix())
            .field("suffix", &self.get_suffix())
            .finish()
    }
}

impl Model for ANSIBuf {
    ghost use Rattle.std.specs.Prelude.{option_map, unwrap_or};
    ghost use Rattle.tabled_border.specs.Texts.{Texts, no_texts};
    ghost use Rattle.std.specs.String.{string_bytes};

    ghost Value = { Texts };

    ghost view = { λ color. unwrap_or (option_map (λ texts. record { prefix = string_bytes texts.value.prefix; suffix = string_bytes texts.value.suffix }) color.texts) no_texts };
}

impl ANSIBuf {
    /// Makes the color of these two texts, which are copied. Empty texts take no memory.
    pub fn new(alloc: Global, prefix: &str, suffix: &str) -> Result<Self, OutOfMemory>
        ensures texts { IfOk result (λ color. color ≡ record { prefix = prefix.now; suffix = suffix.now }) }
        ensures empty { prefix.now ≡ [] → suffix.now ≡ [] → IsOk result }
    {
        if prefix.is_empty() && suffix.is_empty() {
            return Ok(ANSIBuf { texts: None });
        }
        let texts = OwnedTexts {
            prefix: String::from_str(alloc, prefix)?,
            suffix: String::from_str(alloc, suffix)?,
        };
        Ok(ANSIBuf {
            texts: Some(Arc::new(alloc, texts)?),
        })
    }

    /// Returns the text before what is colored.
    pub fn get_prefix(&self) -> &str
        ensures { result.now ≡ self.now.prefix }
    {
        match &self.texts {
            Some(texts) => texts.prefix.as_str(),
            None => "",
        }
    }

    /// Returns the text after what is colored.
    pub fn get_suffix(&self) -> &str
        ensures { result.now ≡ self.now.suffix }
    {
        match &self.texts {
            Some(texts) => texts.suffix.as_str(),
            None => "",
        }
    }

    /// Returns whether both texts are empty.
    pub fn is_empty(&self) -> bool
        ensures { IsTrue result ↔ ((self.now.prefix ≡ []) × (self.now.suffix ≡ [])) }
    {
        match &self.texts {
            Some(texts) => texts.prefix.is_empty() && texts.suffix.is_empty(),
            None => true,
        }
    }
}

impl Keep for ANSIBuf {
    /// A copy of the color, which shares its texts and takes no memory beside itself. It is refused where no number says how many copies
    /// there are; the empty color never is.
    fn keep(&self, _alloc: Global) -> Result<Self, OutOfMemory>
        ensures copy { IfOk result (λ copy. copy ≡ self.now) }
        ensures empty { self.now.prefix ≡ [] → self.now.suffix ≡ [] → IsOk result }
    {
        match &self.texts {
            Some(texts) if !self.is_empty() => Ok(ANSIBuf {
                texts: Some(texts.clone()?),
            }),
            _ => Ok(ANSIBuf { texts: None }),
        }
    }
}

impl AnsiText for ANSIBuf {
    ghost prefix_text = { λ color. color.prefix };

    ghost suffix_text = { λ color. color.suffix };

    fn prefix(&self) -> &str {
        self.get_prefix()
    }

    fn suffix(&self) -> &str {
        self.get_suffix()
    }
}

impl ANSIFmt for ANSIBuf {
    ghost prefix_text = { λ color. color.prefix };

    ghost suffix_text = { λ color. color.suffix };

    fn fmt_ansi_prefix<W: fmt::Write>(&self, f: &mut W) -> fmt::Result {
        f.write_str(self.get_prefix())
    }

    fn fmt_ansi_suffix<W: fmt::Write>(&self, f: &mut W) -> fmt::Result {
        f.write_str(self.get_suffix())
    }
}

impl PartialEq for ANSIBuf {
    ghost eq = { eq_of_both (on (λ a. a.prefix) (pointwise ◌==◌)) (on (λ a. a.suffix) (pointwise ◌==◌)) };

    ghost laws = { Prim.search (comparing, rules) };

    fn eq(&self, other: &ANSIBuf) -> bool {
        self.get_prefix() == other.get_prefix() && self.get_suffix() == other.get_suffix()
    }
}

impl Eq for ANSIBuf {
    ghost laws = { Prim.search (comparing, rules) };
}

impl Ord for ANSIBuf {
    ghost cmp = { then_cmp (on (λ a. a.prefix) (slice_cmp nat_cmp)) (on (λ a. a.suffix) (slice_cmp nat_cmp)) };

    ghost total = { Prim.search (comparing, rules) };

    ghost matches_partial_cmp = { Prim.search (comparing, rules) };

    ghost matches_eq = { Prim.search (comparing, rules) };

    fn cmp(&self, other: &ANSIBuf) -> Ordering {
        self.get_prefix()
            .cmp(other.get_prefix())
            .then(self.get_suffix().cmp(other.get_suffix()))
    }
}

impl PartialOrd for ANSIBuf {
    ghost partial_cmp = { as_partial_cmp (then_cmp (on (λ a. a.prefix) (slice_cmp nat_cmp)) (on (λ a. a.suffix) (slice_cmp nat_cmp))) };

    ghost laws = { partial_order_from_own_ties (Prim.search (comparing, rules)) (Prim.search (comparing, rules)) };

    fn partial_cmp(&self, other: &ANSIBuf) -> Option<Ordering> {
        Some(self.cmp(other))
    }
}

impl Hash for ANSIBuf {
    ghost use Rattle.std.specs.Hash as fed;
    ghost use Rattle.std.specs.Cmp.Rules.{hashing};

    ghost hash_input = { λ a. fed.str a.prefix ++ fed.str a.suffix };

    ghost respects_eq = { Prim.search (hashing, rules) };

    fn hash<H: Hasher>(&self, state: &mut H) {
        self.get_prefix().hash(state);
        self.get_suffix().hash(state);
    }
}

/// A color that lends its texts for as long as they live.
#[derive(Clone, Copy, Debug, PartialEq, Eq, PartialOrd, Ord, Hash)]
pub struct ANSIStr<'a> {
    prefix: &'a str,
    suffix: &'a str,
}

impl<'a> ANSIStr<'a> {
    ghost use Rattle.tabled_border.specs.LentTexts.{lent_texts};

    /// Makes the color of these two texts.
    pub const fn new(prefix: &'a str, suffix: &'a str) -> Self
        ensures { lent_texts result ≡ record { prefix = prefix.now; suffix = suffix.now } }
    {
        ANSIStr { prefix, suffix }
    }

    /// Makes the color of two empty texts.
    pub const fn empty() -> Self
        ensures { lent_texts result ≡ record { prefix = []; suffix = [] } }
    {
        ANSIStr::new("", "")
    }

    /// Returns the text before what is colored.
    pub const fn get_prefix(&self) -> &'a str
        ensures { result.now ≡ (lent_texts self.now).prefix }
    {
        self.prefix
    }

    /// Returns the text after what is colored.
    pub const fn get_suffix(&self) -> &'a str
        ensures { result.now ≡ (lent_texts self.now).suffix }
    {
        self.suffix
    }

    /// Returns whether both texts are empty.
    pub fn is_empty(&self) -> bool
        ensures { IsTrue result ↔ (((lent_texts self.now).prefix ≡ []) × ((lent_texts self.now).suffix ≡ [])) }
    {
        self.get_prefix().is_empty() && self.get_suffix().is_empty()
    }
}

impl<'a> Default for ANSIStr<'a> {
    ghost use Rattle.tabled_border.specs.LentTexts.{lent_texts};

    ghost is_default = { λ color. lent_texts color ≡ record { prefix = []; suffix = [] } };

    fn default() -> Self {
        ANSIStr::empty()
    }
}

impl<'a> Keep for ANSIStr<'a> {
    /// A copy, which takes no memory, as the texts are lent on.
    fn keep(&self, _alloc: Global) -> Result<Self, OutOfMemory>
        ensures copy { IfOk result (λ copy. copy ≡ self.now) }
        ensures always { IsOk result }
    {
        Ok(*self)
    }
}

impl<'a> AnsiText for ANSIStr<'a> {
    ghost use Rattle.tabled_border.specs.LentTexts.{lent_texts};

    ghost prefix_text = { λ color. (lent_texts color).prefix };

    ghost suffix_text = { λ color. (lent_texts color).suffix };

    fn prefix(&self) -> &str {
        self.get_prefix()
    }

    fn suffix(&self) -> &str {
        self.get_suffix()
    }
}

impl<'a> ANSIFmt for ANSIStr<'a> {
    ghost use Rattle.tabled_border.specs.LentTexts.{lent_texts};

    ghost prefix_text = { λ color. (lent_texts color).prefix };

    ghost suffix_text = { λ color. (lent_texts color).suffix };

    fn fmt_ansi_prefix<W: fmt::Write>(&self, f: &mut W) -> fmt::Result {
        f.write_str(self.prefix)
    }

    fn fmt_ansi_suffix<W: fmt::Write>(&self, f: &mut W) -> fmt::Result {
        f.write_str(self.suffix)
    }
}
