ghost use Rattle.std.specs.Prelude.{Some};
ghost use Rattle.table_terms.specs.Pair.{pair_text};

use crate::side::Side;
use std::fmt;

/// Two partners of a Mitchell movement, by the side that they play and their number in it.
#[derive(Clone, Copy, PartialEq, Eq)]
pub struct Pair {
    pub side: Side,
    pub number: u8,
}

impl fmt::Display for Pair {
    ghost output = { λ pair. Some (pair_text pair) };

    fn fmt<W: fmt::Write>(&self, f: &mut fmt::Formatter<W>) -> fmt::Result {
        write!(f, "{}{}", self.side, self.number)
    }
}
