//! What is written of a message that no request was read from, or that a connection doesn't answer. It takes no memory.

ghost use Rattle.std.specs.Prelude.{◌≡◌, ◌++◌, ◌∷◌, []};
ghost use Rattle.wire.specs.ReceiptText.{fault_text, connection_fault_text};

use crate::connection_fault::ConnectionFault;
use json_fields::RequestFault;

/// The text that says why no request was read.
#[tactic(auto, unfolding(crate::specs::ReceiptText::fault_text, serde_json::proofs::OnLiterals::serde_json_on_literals))]
pub fn fault_text(fault: RequestFault) -> &'static str
    ensures { result.now ≡ fault_text fault }
{
    match fault {
        RequestFault::TooLong => "{\"error\":\"TooLong\"}",
        RequestFault::Malformed => "{\"error\":\"Malformed\"}",
        RequestFault::UnknownRequest => "{\"error\":\"UnknownRequest\"}",
        RequestFault::BadField => "{\"error\":\"BadField\"}",
        RequestFault::OutOfMemory => "{\"error\":\"OutOfMemory\"}",
    }
}

/// The line of that text.
#[tactic(auto, unfolding(crate::specs::ReceiptText::fault_text, serde_json::proofs::OnLiterals::serde_json_on_literals))]
pub fn fault_line(fault: RequestFault) -> &'static str
    ensures { result.now ≡ fault_text fault ++ 10 ∷ [] }
{
    match fault {
        RequestFault::TooLong => "{\"error\":\"TooLong\"}\n",
        RequestFault::Malformed => "{\"error\":\"Malformed\"}\n",
        RequestFault::UnknownRequest => "{\"error\":\"UnknownRequest\"}\n",
        RequestFault::BadField => "{\"error\":\"BadField\"}\n",
        RequestFault::OutOfMemory => "{\"error\":\"OutOfMemory\"}\n",
    }
}

/// The text that says why a connection gives no other answer.
#[tactic(auto, unfolding(crate::specs::ReceiptText::connection_fault_text, serde_json::proofs::OnLiterals::serde_json_on_literals))]
pub fn connection_fault_text(fault: ConnectionFault) -> &'static str
    ensures { result.now ≡ connection_fault_text fault }
{
    match fault {
        ConnectionFault::NotSignedIn => "{\"error\":\"NotSignedIn\"}",
        ConnectionFault::NotKnown => "{\"error\":\"NotKnown\"}",
        ConnectionFault::NoEntry => "{\"error\":\"NoEntry\"}",
        ConnectionFault::NotKept => "{\"error\":\"NotKept\"}",
        ConnectionFault::Unsure => "{\"error\":\"Unsure\"}",
        ConnectionFault::OutOfMemory => "{\"error\":\"OutOfMemory\"}",
    }
}
