//! What comes of words: each function here has nothing to do, and its clauses are the theorem.

ghost use Rattle.std.specs.Prelude.{List, ℕ, ◌∷◌, [], codes};
ghost use Rattle.server_words.specs.Words.{AsksFor};
ghost use Rattle.server_words.specs.declared.words.Words.TheVariants.{Script};

/// After the program's name, whatever it is, the one word `script` asks for a script.
pub fn the_word_script_alone()
    ensures { (name : List ℕ) → AsksFor (name ∷ codes "script" ∷ []) Script }
{}
