ghost use Rattle.std.specs.Prelude.{◌≡◌};
ghost use Rattle.pbn_records.specs.Kept.{error_of, earlier_of};

use crate::deals_error::DealsError;

/// What is wrong at a `[`.
#[derive(Clone, Copy)]
pub(crate) enum Fault {
    BadTag,
    BadDeal,
    HiddenHand,
    BadMark,
    DealConflict,
    InheritedForm,
}

/// A fault, and the offset of its `[`.
#[derive(Clone, Copy)]
pub(crate) struct FaultAt {
    pub(crate) offset: usize,
    pub(crate) fault: Fault,
}

impl FaultAt {
    /// The refusal for this fault.
    pub(crate) fn error(self) -> DealsError
        ensures { result ≡ error_of self.fault self.offset }
    {
        match self.fault {
            Fault::BadTag => DealsError::BadTag(self.offset),
            Fault::BadDeal => DealsError::BadDeal(self.offset),
            Fault::HiddenHand => DealsError::HiddenHand(self.offset),
            Fault::BadMark => DealsError::BadMark(self.offset),
            Fault::DealConflict => DealsError::DealConflict(self.offset),
            Fault::InheritedForm => DealsError::InheritedForm(self.offset),
        }
    }
}

/// The fault with the lesser offset.
pub(crate) fn earlier(one: Option<FaultAt>, other: Option<FaultAt>) -> Option<FaultAt>
    ensures { result ≡ earlier_of one other }
{
    match (one, other) {
        (Some(first), Some(second)) => Some(if first.offset <= second.offset {
            first
        } else {
            second
        }),
        (None, other) => other,
        (one, None) => one,
    }
}
