//! The words that a log has of its own: why a batch has no answer, and why a connection ended.

ghost use Rattle.std.specs.Prelude.{◌≡◌};
ghost use Rattle.event_log.specs.Lines.{batch_fault_word, client_end_word};

use crate::event::BatchFault;
use hall_terms::ClientEnd;

/// Why a batch has no answer of its own.
pub(crate) fn batch_fault_word(fault: BatchFault) -> &'static str
    ensures { result.now ≡ batch_fault_word fault }
{
    match fault {
        BatchFault::NotKept => "NotKept",
        BatchFault::Unsure => "Unsure",
        BatchFault::OutOfMemory => "OutOfMemory",
    }
}

/// Why a client's connection ended.
pub(crate) fn client_end_word(why: ClientEnd) -> &'static str
    ensures { result.now ≡ client_end_word why }
{
    match why {
        ClientEnd::Closed => "Closed",
        ClientEnd::Late => "Late",
        ClientEnd::BrokeRule => "BrokeRule",
        ClientEnd::TooLong => "TooLong",
        ClientEnd::Failed => "Failed",
        ClientEnd::OutOfMemory => "OutOfMemory",
    }
}
