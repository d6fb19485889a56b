ghost use Rattle.std.specs.Prelude.{◌≡◌, ◌≢◌, ◌≤◌, ◌++◌, ℕ, List, IfSome, IfNone};
ghost use Rattle.std.specs.Fmt.{decimal};
ghost use Rattle.table_terms.specs.declared.side.Side.{Side};
ghost use Rattle.table_terms.specs.PairReading.{ReadsPair};
ghost use Rattle.table_terms.specs.Side.{side_text};

use crate::pair::Pair;
use crate::side::Side;
use std::str::FromStr;
use thiserror::Error;

/// A text that names no pair.
#[derive(Clone, Copy, Debug, Error)]
#[error("not a pair")]
pub struct NotAPair;

/// Reads a side and a number from 1 to 255 without leading zeros: `NS1`, `EW12`.
impl FromStr for Pair {
    type Err = NotAPair;

    ghost from_str_gives = { ReadsPair };

    fn from_str(text: &str) -> Result<Pair, NotAPair> {
        let Some((side, digits)) = read_side(text) else {
            return Err(NotAPair);
        };
        match read_number(digits) {
            Some(number) => Ok(Pair { side, number }),
            None => Err(NotAPair),
        }
    }
}

/// The side that a text begins with, and the text after it.
fn read_side(text: &str) -> Option<(Side, &str)>
    ensures side { IfSome result (λ read. text.now ≡ side_text read.0 ++ read.1.now) }
    ensures none { IfNone result ((side : Side) (rest : List ℕ) → text.now ≢ side_text side ++ rest) }
{
    if let Some(rest) = text.strip_prefix("NS") {
        return Some((Side::NorthSouth, rest));
    }
    match text.strip_prefix("EW") {
        Some(rest) => Some((Side::EastWest, rest)),
        None => None,
    }
}

/// A number from 1 to 255, without leading zeros.
fn read_number(digits: &str) -> Option<u8>
    ensures number { IfSome result (λ number. (decimal number ≡ digits.now) × (1 ≤ number) × (number ≤ 255)) }
    ensures none { IfNone result ((number : ℕ) → 1 ≤ number → number ≤ 255 → decimal number ≢ digits.now) }
{
    match digits.as_bytes() {
        [b'1'..=b'9', ..] => digits.parse().ok(),
        _ => None,
    }
}
