//! What a text's lines are: each function here has nothing to do, and its clauses are the theorem.

ghost use Rattle.std.specs.Prelude.{◌≡◌, ℕ, List, [], ◌∷◌, ◌++◌, All, flat_map};
ghost use Rattle.script_lines.specs.Lines.{pieces_of};
ghost use Rattle.script_lines.specs.Reading.{IsUnbroken};

/// A text is cut at each LF and nowhere else: it is its pieces, each followed by an LF, and what is left over, and no
/// LF stands within any of them.
#[tactic(auto, using(crate::proofs::LineLemmas::joins))]
pub fn cut_at_each_line_feed()
    ensures whole { (text : List ℕ) →
        text ≡ flat_map (λ piece. piece ++ 10 ∷ []) (pieces_of text).ended ++ (pieces_of text).rest }
    ensures unbroken { (text : List ℕ) → All IsUnbroken (pieces_of text).ended × IsUnbroken (pieces_of text).rest }
{}
