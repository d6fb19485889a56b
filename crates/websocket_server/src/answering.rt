//! What is sent to a client: the answer to its message, or why its connection ends.

ghost use Rattle.std.specs.Prelude.{◌≡◌, ℕ, List, Option, IfOk};
ghost use Rattle.tungstenite.specs.Content.{text};
ghost use Rattle.tungstenite.specs.Socket.{content_of};
ghost use Rattle.websocket_server.specs.Messages.{sent_text};

use crate::message_server::MessageServer;
use std::alloc::Global;
use std::borrow::CowStr;
use std::sync::Wait;
use tungstenite::{CloseCode, CloseFrame, Error, Message, Utf8Bytes};

/// The message that answers a text of a guest's connection: the server's answer, or a fixed one where it found no memory. The
/// error is that there is no memory for the message.
pub fn answer_message<R: Wait, A: MessageServer<R>>(
    rt: &R,
    alloc: Global,
    guest: &mut A::Guest,
    question: &[u8],
    server: &mut A,
) -> Result<Message, Error>
    ensures answered { (answer : Option (List ℕ))
        × A.answers server.old guest.old question.now answer server.new guest.new
        × IfOk result (λ message. content_of message ≡ text (sent_text A.memory_text answer)) }
{
    match server.serve_message(rt, alloc, guest, question) {
        Ok(CowStr::Borrowed(words)) => Ok(fixed_message(words)),
        Ok(CowStr::Owned(answer)) => match Message::text(alloc, answer.as_str()) {
            Ok(message) => Ok(message),
            Err(_) => Err(Error::OutOfMemory),
        },
        Err(_) => Ok(fixed_message(A::memory_answer())),
    }
}

/// The message of a text that is there before any client comes. It takes no memory.
pub fn fixed_message(words: &'static str) -> Message
    ensures { content_of result ≡ text words.now }
{
    Message::Text(Utf8Bytes::from_static(words))
}

/// The close frame of a connection that ends for this error, if a rule of the protocol ends it.
pub fn close_frame(error: &Error) -> Option<CloseFrame> {
    match close_code(error) {
        Some(code) => Some(CloseFrame {
            code,
            reason: Utf8Bytes::from_static(""),
        }),
        None => None,
    }
}

// The code of RFC 6455, section 7.4.1, for a message that wasn't read.
fn close_code(error: &Error) -> Option<CloseCode> {
    match error {
        Error::Capacity(_) => Some(CloseCode::Size),
        Error::Protocol(_) => Some(CloseCode::Protocol),
        Error::Utf8 => Some(CloseCode::Invalid),
        _ => None,
    }
}
