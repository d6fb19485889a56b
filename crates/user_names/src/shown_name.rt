ghost use Rattle.std.specs.Prelude.{◌≡◌, ◌==◌, ◌≤◌, [], true, false, length, IfOk, OnErr, Some};
ghost use Rattle.user_names.specs.ShownName.{is_shown_name, is_shown_or_none};
ghost use Rattle.user_names.specs.declared.shown_name.TheConstants.ShownName.{MOST};

use crate::shown_text::is_shown_text;
use std::marker::Model;
use std::{fmt, str};
use thiserror::Error;

/// A name to show, as `Anna Müller`, or none: a text of at most 64 bytes, which lies in the value itself.
#[derive(Clone, Copy)]
pub struct ShownName {
    bytes: [u8; ShownName::MOST],
    len: u8,
}

impl Model for ShownName {
    ghost use Rattle.std.specs.Prelude.{List, ℕ};

    ghost Value = { List ℕ };

    ghost use Rattle.user_names.specs.ShownName.{IsShownInPlaces, text_of, name_of, name_of-text_of};

    ghost view = { text_of };

    ghost invariant = { IsShownInPlaces };

    ghost inverse = { name_of };

    ghost inverse_ok = { name_of-text_of };
}

/// A text that is no name to show.
#[derive(Clone, Copy, Debug, Error)]
#[error("a name to show has 1 to 64 bytes, no blank at either end, and no character that is not shown")]
pub struct NotShown;

#[tactic(auto, unfolding(crate::specs::ShownName::is_shown_name))]
fn is_shown_name(text: &str) -> bool
    ensures { result ≡ is_shown_name text.now }
{
    text.len() <= ShownName::MOST && is_shown_text(text)
}

impl ShownName {
    /// How many bytes a name to show has at most.
    pub const MOST: usize = 64;

    fn placed(text: &str) -> ShownName
        requires short { length text.now ≤ MOST }
        requires shown { is_shown_or_none text.now ≡ true }
        ensures { result ≡ text.now }
    {
        let len = text.len();
        let mut bytes = [0; ShownName::MOST];
        bytes[..len].copy_from_slice(text.as_bytes());
        ShownName {
            bytes,
            len: len as u8,
        }
    }

    /// No name to show.
    #[tactic(auto, unfolding(crate::specs::ShownName::is_shown_or_none))]
    pub fn none() -> ShownName
        ensures { result ≡ [] }
    {
        ShownName::placed("")
    }

    /// The name to show that is this text.
    #[tactic(auto, using(crate::proofs::ShownLemmas::shown_or_none, crate::proofs::ShownLemmas::short_shown))]
    pub fn new(text: &str) -> Result<ShownName, NotShown>
        ensures ok { IfOk result (λ name. name ≡ text.now) }
        ensures shown { IfOk result (λ name. is_shown_name text.now ≡ true) }
        ensures err { OnErr result (is_shown_name text.now ≡ false) }
    {
        if !is_shown_name(text) {
            return Err(NotShown);
        }
        Ok(ShownName::placed(text))
    }

    /// The name to show that is this text, or none where it is empty.
    #[tactic(auto, using(crate::proofs::ShownLemmas::shown_or_none, crate::proofs::ShownLemmas::where_not_empty))]
    pub fn or_none(text: &str) -> Result<ShownName, NotShown>
        ensures ok { IfOk result (λ name. name ≡ text.now) }
        ensures shown { IfOk result (λ name. is_shown_or_none text.now ≡ true) }
        ensures err { OnErr result (is_shown_or_none text.now ≡ false) }
    {
        if text.is_empty() {
            return Ok(ShownName::none());
        }
        ShownName::new(text)
    }

    /// The text, which is empty where there is no name to show.
    pub fn as_str(&self) -> &str
        ensures text { result.now ≡ self.now }
        ensures shown { is_shown_or_none result.now ≡ true }
        ensures short { length result.now ≤ MOST }
    {
        match str::from_utf8(&self.bytes[..self.len as usize]) {
            Ok(text) => text,
            Err(_) => unreachable!(),
        }
    }

    /// Whether there is none.
    pub fn is_none(&self) -> bool
        ensures { result ≡ (length self.now == 0) }
    {
        self.as_str().is_empty()
    }
}

impl PartialEq for ShownName {
    ghost use Rattle.std.specs.Prelude.{nat_eq};
    ghost use Rattle.std.specs.Cmp.{partial_equiv_from_equiv};
    ghost use Rattle.std.specs.Cmp.Lexicographic.{pointwise, nat_list_eq_equiv};

    ghost eq = { pointwise nat_eq };

    ghost laws = { partial_equiv_from_equiv nat_list_eq_equiv };

    fn eq(&self, other: &ShownName) -> bool {
        self.as_str() == other.as_str()
    }
}

impl Eq for ShownName {
    ghost use Rattle.std.specs.Cmp.Lexicographic.{nat_list_eq_equiv};

    ghost laws = { nat_list_eq_equiv };
}

impl fmt::Display for ShownName {
    ghost output = { λ name. Some name };

    fn fmt<W: fmt::Write>(&self, f: &mut fmt::Formatter<W>) -> fmt::Result {
        f.write_str(self.as_str())
    }
}

impl fmt::Debug for ShownName {
    fn fmt<W: fmt::Write>(&self, f: &mut fmt::Formatter<W>) -> fmt::Result {
        f.write_str(self.as_str())
    }
}
