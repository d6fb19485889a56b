//! What follows from the definitions alone: each function here has nothing to do, and its clauses are the theorem.

ghost use Rattle.std.specs.Prelude.{◌≡◌, ℕ, List, map};
ghost use Rattle.sign_ins.specs.Token.{bits_that_count, token_text};

/// Two draws that differ in a bit that counts give two tokens: of 20 bytes there are 2 to the power of 100.
pub fn each_draw_has_a_token_of_its_own()
    ensures { (one other : List ℕ) → token_text one ≡ token_text other →
        map bits_that_count one ≡ map bits_that_count other }
{}
