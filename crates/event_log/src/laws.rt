//! What holds of each line: the functions here have nothing to do, and their clauses are the theorem.

ghost use Rattle.std.specs.Prelude.{◌≤◌, ◌≡◌, ℕ, List, All, length};
ghost use Rattle.event_log.specs.Plain.{plain};

/// No name ends its line, or looks like another word: each of its bytes is written as a printed character, and no blank.
pub fn a_name_is_one_word()
    ensures { (name : List ℕ) → All (λ byte. (33 ≤ byte) × (byte ≤ 126)) (plain name) }
{}

/// As many bytes are written of a name as it has.
pub fn a_name_keeps_its_length()
    ensures { (name : List ℕ) → length (plain name) ≡ length name }
{}
