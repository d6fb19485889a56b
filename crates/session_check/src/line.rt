//! The line of the boards' text in which a fault of it stands.

ghost use Rattle.std.specs.Prelude.{◌≡◌};
ghost use Rattle.session_check.specs.Lines.{line_at, offset_of, offset_of_error};

use pbn_records::DealsError;
use session_object::SessionFault;

/// The line of the byte at an offset, from 1.
pub(crate) fn line_at(text: &[u8], offset: usize) -> usize
    ensures { result ≡ line_at text.now offset }
{
    let before = &text[..offset.min(text.len())];
    before.iter().filter(|byte| **byte == b'\n').count() + 1
}

/// At which byte of the boards' text a fault stands, if it is one at a byte.
pub(crate) fn offset_of(fault: SessionFault) -> Option<usize>
    ensures { result ≡ offset_of fault }
{
    match fault {
        SessionFault::Deals(error) => offset_of_error(error),
        _ => None,
    }
}

fn offset_of_error(error: DealsError) -> Option<usize>
    ensures { result ≡ offset_of_error error }
{
    match error {
        DealsError::BadTag(offset)
        | DealsError::BadDeal(offset)
        | DealsError::HiddenHand(offset)
        | DealsError::BadMark(offset)
        | DealsError::DealConflict(offset)
        | DealsError::InheritedForm(offset) => Some(offset),
        DealsError::MissingBoard(_) | DealsError::OutOfMemory => None,
    }
}
