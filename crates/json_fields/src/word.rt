//! The words that say what a message asks for.

ghost use Rattle.std.specs.Prelude.{◌≡◌, map};
ghost use Rattle.std.specs.List.{list_any};
ghost use Rattle.std.specs.Str.{bytes_eq};

/// Whether the word is one of these.
pub fn is_one_of(word: &str, words: &[&str]) -> bool
    ensures { result ≡ list_any (λ other. bytes_eq word.now other) (map (λ other. other.now) words.now) }
{
    for other in words {
        if word == *other {
            return true;
        }
    }
    false
}
