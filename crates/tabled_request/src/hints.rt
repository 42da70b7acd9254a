//! Which option a word that names none may have meant.

ghost use Rattle.std.specs.Prelude.{◌≡◌, ◌==◌, drop};
ghost use Rattle.std.specs.List.{common_prefix_len};
ghost use Rattle.tabled_request.specs.Options.{alike, are_near, is_rest, name_of, option_near};

use crate::options::OptionName;
use crate::spread::cut;

/// How many bytes two texts begin with alike.
fn alike(a: &[u8], b: &[u8]) -> usize
    ensures { result ≡ alike a.now b.now }
{
    let mut at = 0;
    while at < a.len() && at < b.len() && a[at] == b[at] {
        at += 1;
    }
    at
}

/// What is left of a text without its first bytes, so many.
fn without(text: &[u8], count: usize) -> &[u8]
    ensures { result.now ≡ drop count text.now }
{
    match text.get(count..) {
        Some(rest) => rest,
        None => &[],
    }
}

/// Whether a text is another one, or what is left of it after its first byte, or its first two.
fn is_rest(rest: &[u8], text: &[u8]) -> bool
    ensures { result ≡ is_rest rest.now text.now }
{
    rest == text || rest == without(text, 1) || rest == without(text, 2)
}

/// Whether two texts are near.
fn are_near(a: &[u8], b: &[u8]) -> bool
    ensures { result ≡ are_near a.now b.now }
{
    let count = alike(a, b);
    let (left, other) = (without(a, count), without(b, count));
    left.is_empty()
        || other.is_empty()
        || is_rest(left, other)
        || is_rest(without(left, 1), other)
        || is_rest(without(left, 2), other)
}

impl OptionName {
    /// Whether the name of the option is near a word.
    fn is_near(self, word: &str) -> bool
        ensures { result ≡ are_near (name_of self) word.now }
    {
        are_near(self.name().as_bytes(), word.as_bytes())
    }

    /// Returns the first option that a word which names none may have meant, or what stands before an equals sign of the word: the name of the
    /// option begins with it, or it with the name; or, after what they begin with alike, no more than two bytes of each are between them. None
    /// where no option is so near.
    pub fn near(word: &str) -> Option<OptionName>
        ensures { result ≡ option_near word.now }
    {
        let (name, _) = cut(word);
        OptionName::all()
            .into_iter()
            .find(|option| option.is_near(name))
    }
}
