ghost use Rattle.std.specs.Prelude.{◌≡◌, ℕ, List, Option, Some, None, IfOk, OnErr};
ghost use Rattle.std.specs.Cow.{cow_str_bytes};

use std::alloc::{AllocError, Global};
use std::borrow::CowStr;

/// What answers the messages of clients, each as the guest who is on its connection. `H` is what it waits by: a handle of
/// the runtime, where it may wait for others, and anything, where it waits for nobody.
pub trait MessageServer<H> {
    /// Who is on a connection: it is the connection's own, whoever else is served between two of its messages.
    type Guest: Copy;

    // From what a server was and who was on a connection, with a message that came there and the text that answers it
    // (none where there was no memory for one), to what it is and who is on that connection.
    ghost answers: { Self → Self.Guest → List ℕ → Option (List ℕ) → Self → Self.Guest → Type 0 };
    // Who is on a connection at first: nobody is signed in.
    ghost nobody: { Self.Guest };
    // What each binary message is answered.
    ghost binary_text: { List ℕ };
    // What is answered where there is no memory for an answer.
    ghost memory_text: { List ℕ };

    /// The text that answers a text which came on this guest's connection: one that was written for it, or one that was
    /// there before, which is sent without memory.
    fn serve_message(
        &mut self,
        rt: &H,
        alloc: Global,
        guest: &mut Self::Guest,
        message: &[u8],
    ) -> Result<CowStr<'static>, AllocError>
        ensures answered { IfOk result (λ text.
            answers self.old guest.old message.now (Some (cow_str_bytes text)) self.new guest.new) }
        ensures without_memory { OnErr result (answers self.old guest.old message.now None self.new guest.new) };

    /// The text that answers a binary message.
    fn binary_answer() -> &'static str
        ensures { result.now ≡ binary_text };

    /// The text that is sent where there is no memory for an answer.
    fn memory_answer() -> &'static str
        ensures { result.now ≡ memory_text };

    /// Who is on a connection that is new.
    fn newcomer() -> Self::Guest
        ensures { result ≡ nobody };
}
