//! The pieces of a text between separators.

ghost use Rattle.std.specs.Prelude.{◌≡◌, ◌<◌, ◌==◌, [], ◌∷◌, length, IfSome, MatchOption};
ghost use Rattle.std.specs.List.{slice_split};

/// The first piece of a text and what follows the separator after it, if the text has one.
pub(crate) fn cut_at(text: &str, separator: char) -> Option<(&str, &str)>
    requires { separator < 128 }
    ensures pieces { MatchOption result (slice_split (λ byte. byte == separator) text.now ≡ text.now ∷ [])
        (λ parts. slice_split (λ byte. byte == separator) text.now ≡ parts.0.now ∷ slice_split (λ byte. byte == separator) parts.1.now) }
    ensures shorter { IfSome result (λ parts. length parts.1.now < length text.now) }
{
    text.split_once(separator)
}
