//! What is known of every text: each function here has nothing to do, and its clauses are the theorem.

ghost use Rattle.std.specs.Prelude.{◌≡◌, [], ◌∷◌, ◌++◌, ℕ, List, Bool, true, false};
ghost use Rattle.pbn_pieces.specs.Bytes.{line_feed, quote, percent, semicolon, open_bracket, open_brace, close_brace};
ghost use Rattle.pbn_pieces.specs.Pieces.{Piece, Comment, OpenComment, LineComment, EscapeLine, Quoted, Tagged, Broken, Plain, Each, is_other_than, IsWithinQuotes, Quotes, Tag, tag_text, IsTag, HasTag, AtLineEnd, Joins, Begins};

/// A text is cut in one way alone.
#[tactic(auto, using(crate::proofs::CutLemmas::cut_once))]
pub fn cut_in_one_way()
    ensures { (starting : Bool) (some others : List Piece) (text : List ℕ) →
        Joins starting some text → Joins starting others text → some ≡ others }
{}

/// Each text is cut.
#[tactic(auto, using(crate::proofs::ExistenceLemmas::cut_each))]
pub fn cut_each_text()
    ensures { (starting : Bool) (text : List ℕ) → (pieces : List Piece) × Joins starting pieces text }
{}

/// `{` opens a comment that ends with the next `}`, whatever stands in it: so comments don't nest, and hold no tag.
#[tactic(auto, using(crate::proofs::LawLemmas::comment))]
pub fn a_comment_ends_with_the_next_brace()
    ensures { (starting : Bool) (inside rest : List ℕ) (pieces : List Piece) → Each (is_other_than close_brace) inside →
        Joins starting pieces (open_brace ∷ (inside ++ close_brace ∷ rest)) → Begins pieces (Comment inside) rest }
{}

/// `{` with no `}` after it opens a comment up to the text's end.
#[tactic(auto, using(crate::proofs::LawLemmas::open_comment))]
pub fn an_open_comment_ends_with_the_text()
    ensures { (starting : Bool) (inside : List ℕ) (pieces : List Piece) → Each (is_other_than close_brace) inside →
        Joins starting pieces (open_brace ∷ inside) → Begins pieces (OpenComment inside) [] }
{}

/// `;` opens a comment that ends with its line.
#[tactic(auto, using(crate::proofs::LawLemmas::line_comment))]
pub fn a_line_comment_ends_with_its_line()
    ensures { (starting : Bool) (inside rest : List ℕ) (pieces : List Piece) → Each (is_other_than line_feed) inside →
        AtLineEnd rest → Joins starting pieces (semicolon ∷ (inside ++ rest)) →
        Begins pieces (LineComment inside) rest }
{}

/// A line that begins with `%` is skipped whole.
#[tactic(auto, using(crate::proofs::LawLemmas::escape_line))]
pub fn an_escape_line_is_skipped()
    ensures { (inside rest : List ℕ) (pieces : List Piece) → Each (is_other_than line_feed) inside → AtLineEnd rest →
        Joins true pieces (percent ∷ (inside ++ rest)) → Begins pieces (EscapeLine inside) rest }
{}

/// `%` within a line is a byte as any other.
#[tactic(auto, using(crate::proofs::LawLemmas::percent_within))]
pub fn a_percent_within_a_line_is_plain()
    ensures { (rest : List ℕ) (pieces : List Piece) →
        Joins false pieces (percent ∷ rest) → Begins pieces (Plain percent) rest }
{}

/// A text in quotes is skipped, up to the next `"` on its line that is no `\"`.
#[tactic(auto, using(crate::proofs::LawLemmas::quoted))]
pub fn a_quoted_text_is_skipped()
    ensures { (starting : Bool) (within rest : List ℕ) (pieces : List Piece) → IsWithinQuotes within →
        Joins starting pieces (quote ∷ (within ++ quote ∷ rest)) → Begins pieces (Quoted within) rest }
{}

/// A `"` that isn't closed on its line is a byte as any other.
#[tactic(auto, using(crate::proofs::LawLemmas::unclosed_quote))]
pub fn an_unclosed_quote_is_plain()
    ensures { (starting : Bool) (rest : List ℕ) (pieces : List Piece) → (¬ Quotes rest) →
        Joins starting pieces (quote ∷ rest) → Begins pieces (Plain quote) rest }
{}

/// `[`, a name, a value in quotes and `]`, with blanks between them, is a tag.
#[tactic(auto, using(crate::proofs::LawLemmas::whole_tag))]
pub fn a_tag_is_told()
    ensures { (starting : Bool) (tag : Tag) (rest : List ℕ) (pieces : List Piece) → IsTag tag →
        Joins starting pieces (open_bracket ∷ tag_text tag rest) → Begins pieces (Tagged tag) rest }
{}

/// `[` that begins no tag ends the text: nothing after it is read.
#[tactic(auto, using(crate::proofs::LawLemmas::broken))]
pub fn a_broken_tag_ends_the_text()
    ensures { (starting : Bool) (after : List ℕ) (pieces : List Piece) → (¬ HasTag after) →
        Joins starting pieces (open_bracket ∷ after) → Begins pieces (Broken after) [] }
{}
