ghost use Rattle.std.specs.Prelude.{◌≡◌};
ghost use Rattle.session_object.specs.FaultText.{fault_output, row_fault_name};
ghost use Rattle.session_object.specs.declared.session_fault.SessionFault.TheVariants.{OutOfMemory};

use movement::{MovementError, MovementFault};
use pbn_records::DealsError;
use std::alloc::AllocFailed;
use std::fmt;
use thiserror::Error;

/// Why no session is read from a text. The first that applies is given.
#[derive(Clone, Copy, Debug, Error)]
pub enum SessionFault {
    /// The text has more than 1,048,576 bytes.
    TooLong,
    /// The text is no JSON object.
    Malformed,
    /// A member is missing, isn't listed, or hasn't the type or the range that it should.
    BadField,
    /// No movement can be made of the numbers, or of the list's.
    Movement(MovementError),
    /// The row of a list that has this number, from 1, can't stand after those before it.
    Row(MovementFault, usize),
    /// No boards are read from the PBN text.
    Deals(DealsError),
    /// Memory was refused.
    OutOfMemory,
}

/// The variant's name, and for a fault of the movement or of the boards that fault's own.
impl fmt::Display for SessionFault {
    ghost output = { fault_output };

    fn fmt<W: fmt::Write>(&self, f: &mut fmt::Formatter<W>) -> fmt::Result {
        match self {
            SessionFault::TooLong => f.write_str("TooLong"),
            SessionFault::Malformed => f.write_str("Malformed"),
            SessionFault::BadField => f.write_str("BadField"),
            SessionFault::Movement(MovementError::BadTables) => f.write_str("BadTables"),
            SessionFault::Movement(MovementError::BadRounds) => f.write_str("BadRounds"),
            SessionFault::Movement(MovementError::BadSets) => f.write_str("BadSets"),
            SessionFault::Movement(MovementError::BadPair) => f.write_str("BadPair"),
            SessionFault::Row(fault, number) => write!(f, "{}({number})", row_fault_name(*fault)),
            SessionFault::Deals(error) => write!(f, "{error}"),
            SessionFault::OutOfMemory => f.write_str("OutOfMemory"),
        }
    }
}

fn row_fault_name(fault: MovementFault) -> &'static str
    ensures { result.now ≡ row_fault_name fault }
{
    match fault {
        MovementFault::OutOfRange => "OutOfRange",
        MovementFault::TableTwice => "TableTwice",
        MovementFault::SetAtTableAgain => "SetAtTableAgain",
        MovementFault::PairTwice => "PairTwice",
        MovementFault::SetAgain => "SetAgain",
        MovementFault::OpponentsAgain => "OpponentsAgain",
        MovementFault::SharedByTooMany => "SharedByTooMany",
    }
}

impl<T: Drop> From<AllocFailed<T>> for SessionFault {
    ghost from_gives = { λ _ fault. fault ≡ OutOfMemory };

    fn from(_refused: AllocFailed<T>) -> SessionFault {
        SessionFault::OutOfMemory
    }
}
