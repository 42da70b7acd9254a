//! Texts of values as they display themselves.

ghost use Rattle.std.specs.Prelude.{◌≡◌, ◌+◌, ◌++◌, [], ◌∷◌, ℕ, Option, List, OnOk, IfOk, length, map, string_bytes};
ghost use Rattle.tabled_rows.specs.Spelled.{AreSpelled, numbers};

use std::alloc::Global;
use std::fmt::Display;
use std::string::ToString;
use tabled_border::OutOfMemory;

/// No texts yet.
pub(crate) fn no_texts(alloc: Global) -> Vec<String>
    ensures count { length result.items ≡ 0 }
    ensures texts { AreSpelled [] (map string_bytes result.items) }
{
    Vec::new(alloc)
}

/// Puts the text of a value at the end of texts.
pub(crate) fn push_text<D: Display>(texts: &mut Vec<String>, value: &D) -> Result<(), OutOfMemory>
    ensures count { OnOk result (length texts.new.items ≡ length texts.old.items + 1) }
    ensures texts { OnOk result ((known : List (Option (List ℕ))) → AreSpelled known (map string_bytes texts.old.items)
        → AreSpelled (known ++ D.output value.now ∷ []) (map string_bytes texts.new.items)) }
{
    let text = value.to_string(*texts.allocator())?;
    texts.push(text)?;
    Ok(())
}

/// The numbers below `count` as texts, which stand above the cells of a tuple.
pub(crate) fn numbered(alloc: Global, count: usize) -> Result<Vec<String>, OutOfMemory>
    ensures count { IfOk result (λ texts. length texts.items ≡ count) }
    ensures texts { IfOk result (λ texts. AreSpelled (numbers count) (map string_bytes texts.items)) }
{
    let mut texts = no_texts(alloc);
    for number in 0..count {
        push_text(&mut texts, &number)?;
    }
    Ok(texts)
}
