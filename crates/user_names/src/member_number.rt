ghost use Rattle.std.specs.Prelude.{◌≡◌, ◌≤◌, true, false, length, IfOk, OnErr, Some};
ghost use Rattle.std.specs.Char.{is_ascii_alphanumeric};
ghost use Rattle.std.specs.List.{list_all};
ghost use Rattle.user_names.specs.MemberNumber.{is_member_number};
ghost use Rattle.user_names.specs.declared.member_number.TheConstants.MemberNumber.{MOST};

use std::marker::Model;
use std::{fmt, str};
use thiserror::Error;

/// The number of a club's or a federation's member: a text of at most 16 bytes, which lies in the value itself.
#[derive(Clone, Copy)]
pub struct MemberNumber {
    bytes: [u8; MemberNumber::MOST],
    len: u8,
}

impl Model for MemberNumber {
    ghost use Rattle.std.specs.Prelude.{List, ℕ};

    ghost Value = { List ℕ };

    ghost use Rattle.user_names.specs.MemberNumber.{IsNumberInPlaces, text_of, member_number_of, member_number_of-text_of};

    ghost view = { text_of };

    ghost invariant = { IsNumberInPlaces };

    ghost inverse = { member_number_of };

    ghost inverse_ok = { member_number_of-text_of };
}

/// A text that is no member's number.
#[derive(Clone, Copy, Debug, Error)]
#[error("a member's number has 1 to 16 letters and digits")]
pub struct NotNumber;

fn is_alphanumeric(bytes: &[u8]) -> bool
    ensures { result ≡ list_all is_ascii_alphanumeric bytes.now }
{
    bytes.iter().all(|b| b.is_ascii_alphanumeric())
}

#[tactic(auto, unfolding(crate::specs::MemberNumber::is_member_number))]
fn is_member_number(text: &str) -> bool
    ensures { result ≡ is_member_number text.now }
{
    1 <= text.len() && text.len() <= MemberNumber::MOST && is_alphanumeric(text.as_bytes())
}

impl MemberNumber {
    /// How many bytes a member's number has at most.
    pub const MOST: usize = 16;

    fn placed(text: &str) -> MemberNumber
        requires short { length text.now ≤ MOST }
        requires number { is_member_number text.now ≡ true }
        ensures { result ≡ text.now }
    {
        let len = text.len();
        let mut bytes = [0; MemberNumber::MOST];
        bytes[..len].copy_from_slice(text.as_bytes());
        MemberNumber {
            bytes,
            len: len as u8,
        }
    }

    /// The number that is this text.
    #[tactic(auto, using(crate::proofs::NumberLemmas::short_number))]
    pub fn new(text: &str) -> Result<MemberNumber, NotNumber>
        ensures ok { IfOk result (λ number. number ≡ text.now) }
        ensures number { IfOk result (λ number. is_member_number text.now ≡ true) }
        ensures err { OnErr result (is_member_number text.now ≡ false) }
    {
        if !is_member_number(text) {
            return Err(NotNumber);
        }
        Ok(MemberNumber::placed(text))
    }

    /// The text.
    pub fn as_str(&self) -> &str
        ensures text { result.now ≡ self.now }
        ensures number { is_member_number result.now ≡ true }
    {
        match str::from_utf8(&self.bytes[..self.len as usize]) {
            Ok(text) => text,
            Err(_) => unreachable!(),
        }
    }
}

impl PartialEq for MemberNumber {
    ghost use Rattle.std.specs.Prelude.{nat_eq};
    ghost use Rattle.std.specs.Cmp.{partial_equiv_from_equiv};
    ghost use Rattle.std.specs.Cmp.Lexicographic.{pointwise, nat_list_eq_equiv};

    ghost eq = { pointwise nat_eq };

    ghost laws = { partial_equiv_from_equiv nat_list_eq_equiv };

    fn eq(&self, other: &MemberNumber) -> bool {
        self.as_str() == other.as_str()
    }
}

impl Eq for MemberNumber {
    ghost use Rattle.std.specs.Cmp.Lexicographic.{nat_list_eq_equiv};

    ghost laws = { nat_list_eq_equiv };
}

impl fmt::Display for MemberNumber {
    ghost output = { λ number. Some number };

    fn fmt<W: fmt::Write>(&self, f: &mut fmt::Formatter<W>) -> fmt::Result {
        f.write_str(self.as_str())
    }
}

impl fmt::Debug for MemberNumber {
    fn fmt<W: fmt::Write>(&self, f: &mut fmt::Formatter<W>) -> fmt::Result {
        f.write_str(self.as_str())
    }
}
