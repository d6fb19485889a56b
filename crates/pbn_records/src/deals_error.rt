use std::fmt;
use thiserror::Error;

/// Why no boards are read from a text. An offset is that of a `[`, from the text's first byte.
#[derive(Clone, Copy, Debug, Error)]
pub enum DealsError {
    /// A `[` that begins no tag.
    BadTag(usize),
    /// A Deal that is no deal of 52 cards.
    BadDeal(usize),
    /// A Deal with a hand that isn't shown.
    HiddenHand(usize),
    /// A Dealer or a Vulnerable with another value than the standard's.
    BadMark(usize),
    /// A Deal other than the one that its board has already.
    DealConflict(usize),
    /// A used tag whose value begins with `##`.
    InheritedForm(usize),
    /// The least board that has no deal.
    MissingBoard(u8),
    /// Memory ran out.
    OutOfMemory,
}

/// The variant's name with its number: `BadTag(12)`.
impl fmt::Display for DealsError {
    fn fmt<W: fmt::Write>(&self, f: &mut fmt::Formatter<W>) -> fmt::Result {
        write!(f, "{self:?}")
    }
}
