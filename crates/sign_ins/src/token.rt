//! A token, made of random bytes.

ghost use Rattle.std.specs.Prelude.{◌≡◌, ◌<◌, ◌∷◌, ◌++◌, [], IfOk, OnOk, string_bytes};
ghost use Rattle.sha2.specs.Sha256.{sha256};
ghost use Rattle.sign_ins.specs.Token.{IsToken, dash_before, token_letter, token_text};

use crate::sign_in_token::SignInToken;
use sha2::{Digest as _, Sha256};
use std::alloc::{AllocError, Global};
use user_names::Digest;

/// The letters of tokens: those of Crockford's base 32, in which no two are taken for one another.
const LETTERS: [char; 32] = [
    '0', '1', '2', '3', '4', '5', '6', '7', '8', '9', 'a', 'b', 'c', 'd', 'e', 'f', 'g', 'h', 'j',
    'k', 'm', 'n', 'p', 'q', 'r', 's', 't', 'v', 'w', 'x', 'y', 'z',
];

impl SignInToken {
    /// The token of random bytes, of each of which the last five bits count.
    pub fn new(alloc: Global, bytes: &[u8; SignInToken::LETTERS]) -> Result<SignInToken, AllocError>
        ensures { IfOk result (IsToken bytes.now) }
    {
        let text = letters_of(alloc, &bytes[..])?;
        let digest = digest_of(text.as_str());
        Ok(SignInToken { text, digest })
    }
}

fn digest_of(text: &str) -> Digest
    ensures { result.bytes ≡ sha256 text.now }
{
    let mut hasher = Sha256::new();
    hasher.update(text.as_bytes());
    Digest {
        bytes: hasher.finalize(),
    }
}

fn letters_of(alloc: Global, bytes: &[u8]) -> Result<String, AllocError>
    ensures { IfOk result (λ text. string_bytes text ≡ token_text bytes.now) }
{
    let mut text = String::new(alloc);
    for place in 0..bytes.len() {
        push_dash(&mut text, place)?;
        push_letter(&mut text, bytes[place])?;
    }
    Ok(text)
}

fn push_dash(text: &mut String, place: usize) -> Result<(), AllocError>
    ensures { OnOk result (string_bytes text.new ≡ string_bytes text.old ++ dash_before place) }
{
    if place >= 1 && place % 4 == 0 {
        text.push('-')
    } else {
        Ok(())
    }
}

fn push_letter(text: &mut String, byte: u8) -> Result<(), AllocError>
    ensures { OnOk result (string_bytes text.new ≡ string_bytes text.old ++ token_letter byte ∷ []) }
{
    text.push(letter_of(byte))
}

#[tactic(auto, using(crate::proofs::LetterLemmas::letter_is_ascii), unfolding(crate::specs::Token::token_letter))]
fn letter_of(byte: u8) -> char
    ensures letter { result ≡ token_letter byte }
    ensures ascii { result < 128 }
{
    LETTERS[(byte % 32) as usize]
}
