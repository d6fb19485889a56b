ghost use Rattle.std.specs.Prelude.{◌≡◌, IfOk};

use std::alloc::{AllocError, Global};
use std::marker::Model;

/// What a user signs in with: a text, whose bytes contracts see. It is a secret, and so nothing prints it.
#[derive(Drop)]
pub struct Token {
    text: String,
}

impl Model for Token {
    ghost use Rattle.std.specs.Prelude.{ℕ, List, string_bytes};
    ghost use Rattle.std.specs.Coded.{coded_list, coded_ℕ};

    ghost Value = { List ℕ };

    ghost coded = { coded_list coded_ℕ };

    ghost view = { λ token. string_bytes token.text };
}

impl Token {
    /// The token of a text.
    pub fn new(alloc: Global, text: &str) -> Result<Token, AllocError>
        ensures { IfOk result (λ token. token ≡ text.now) }
    {
        let text = text.to_string(alloc)?;
        Ok(Token { text })
    }

    /// The bytes of its text.
    pub fn as_bytes(&self) -> &[u8]
        ensures { result.now ≡ self.now }
    {
        self.text.as_bytes()
    }
}
