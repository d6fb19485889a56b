ghost use Rattle.std.specs.Prelude.{◌≡◌, ◌<◌, ◌≤◌, length, IfOk, OnErr, Some};
ghost use Rattle.user_names.specs.declared.name.TheConstants.Name.{MOST};

use std::marker::Model;
use std::{fmt, str};
use thiserror::Error;

/// The name of a user: a text of at most 32 bytes, which lies in the value itself.
#[derive(Clone, Copy)]
pub struct Name {
    bytes: [u8; Name::MOST],
    len: u8,
}

impl Model for Name {
    ghost use Rattle.std.specs.Prelude.{List, ℕ};

    ghost Value = { List ℕ };

    ghost use Rattle.user_names.specs.Name.{IsNameInPlaces, text_of, name_of, name_of-text_of};

    ghost view = { text_of };

    ghost invariant = { IsNameInPlaces };

    ghost inverse = { name_of };

    ghost inverse_ok = { name_of-text_of };
}

/// A text of more than 32 bytes.
#[derive(Clone, Copy, Debug, Error)]
#[error("a name has at most 32 bytes")]
pub struct NameTooLong;

impl Name {
    /// How many bytes a name has at most.
    pub const MOST: usize = 32;

    /// The name that is this text.
    pub fn new(text: &str) -> Result<Name, NameTooLong>
        ensures ok { IfOk result (λ name. name ≡ text.now) }
        ensures short { IfOk result (λ name. length text.now ≤ MOST) }
        ensures err { OnErr result (MOST < length text.now) }
    {
        let len = text.len();
        if len > Name::MOST {
            return Err(NameTooLong);
        }
        let mut bytes = [0; Name::MOST];
        bytes[..len].copy_from_slice(text.as_bytes());
        Ok(Name {
            bytes,
            len: len as u8,
        })
    }

    /// The text.
    pub fn as_str(&self) -> &str
        ensures text { result.now ≡ self.now }
        ensures short { length result.now ≤ MOST }
    {
        match str::from_utf8(&self.bytes[..self.len as usize]) {
            Ok(text) => text,
            Err(_) => unreachable!(),
        }
    }
}

impl PartialEq for Name {
    ghost use Rattle.std.specs.Prelude.{nat_eq};
    ghost use Rattle.std.specs.Cmp.{partial_equiv_from_equiv};
    ghost use Rattle.std.specs.Cmp.Lexicographic.{pointwise, nat_list_eq_equiv};

    ghost eq = { pointwise nat_eq };

    ghost laws = { partial_equiv_from_equiv nat_list_eq_equiv };

    // By their bytes: `as_str` would look through both once more as UTF-8, and a name is compared with each account's.
    fn eq(&self, other: &Name) -> bool {
        self.bytes[..self.len as usize] == other.bytes[..other.len as usize]
    }
}

impl Eq for Name {
    ghost use Rattle.std.specs.Cmp.Lexicographic.{nat_list_eq_equiv};

    ghost laws = { nat_list_eq_equiv };
}

impl fmt::Display for Name {
    ghost output = { λ name. Some name };

    fn fmt<W: fmt::Write>(&self, f: &mut fmt::Formatter<W>) -> fmt::Result {
        f.write_str(self.as_str())
    }
}

impl fmt::Debug for Name {
    fn fmt<W: fmt::Write>(&self, f: &mut fmt::Formatter<W>) -> fmt::Result {
        f.write_str(self.as_str())
    }
}
