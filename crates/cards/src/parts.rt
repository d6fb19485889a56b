//! Texts in four parts: the suits of a hand, and the hands of a deal.
ghost use Rattle.std.specs.Prelude.{◌<◌, ℕ, List, IfSome, IfNone};
ghost use Rattle.cards.specs.Parts.{JoinsFour};

/// The four parts of a text with this mark between them. Only the last may have the mark in it.
pub fn in_four(text: &str, mark: char) -> Option<(&str, &str, &str, &str)>
    requires { mark < 128 }
    ensures parts { IfSome result (λ parts. JoinsFour mark text.now parts.0.now parts.1.now parts.2.now parts.3.now) }
    ensures none { IfNone result ((one two three four : List ℕ) → ¬ JoinsFour mark text.now one two three four) }
{
    let Some((one, rest)) = text.split_once(mark) else {
        return None;
    };
    let Some((two, rest)) = rest.split_once(mark) else {
        return None;
    };
    let Some((three, four)) = rest.split_once(mark) else {
        return None;
    };
    Some((one, two, three, four))
}
