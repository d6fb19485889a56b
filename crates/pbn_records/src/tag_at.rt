ghost use Rattle.std.specs.Prelude.{◌≡◌};
ghost use Rattle.pbn_records.specs.Boards as boards;
ghost use Rattle.pbn_records.specs.DealValue.{parts, four_of};
ghost use Rattle.pbn_records.specs.FourParts.{kept_parts};

use crate::number::board_number;
use crate::parts::{FourParts, four_parts};

/// A used tag of a game: the offset of its `[`, its value as written, the board's number that this is, and its four
/// parts, where it is or has them. So a value is gone over once, where it stands, however many games take it by `#`.
#[derive(Clone, Copy)]
pub(crate) struct TagAt<'t> {
    pub(crate) offset: usize,
    pub(crate) value: &'t [u8],
    pub(crate) number: Option<u8>,
    pub(crate) four: Option<FourParts<'t>>,
    ghost numbered: { number ≡ boards.board_number 255 value.now },
    ghost parted: { kept_parts four ≡ four_of (parts value.now) },
}

impl<'t> TagAt<'t> {
    /// A tag as it stands in a text.
    pub(crate) fn new(offset: usize, value: &'t [u8]) -> TagAt<'t>
        ensures offset { result.offset ≡ offset }
        ensures value { result.value.now ≡ value.now }
    {
        TagAt {
            offset,
            value,
            number: board_number(value, 255),
            four: four_parts(value),
        }
    }
}
