//! How far a client has come.

ghost use Rattle.std.specs.Prelude.{◌≡◌};
ghost use Rattle.hall_terms.specs.Times.{stage_after};

use crate::client_event::ClientEvent;

/// How far a client has come.
#[derive(Clone, Copy, Debug, PartialEq, Eq)]
pub enum ClientStage {
    /// It asks over HTTP, for a page or to be let in.
    Asking,
    /// It is let in, and nobody is signed in on its connection.
    Stranger,
    /// A user is signed in on its connection.
    SignedIn,
}

impl ClientStage {
    // The stage after an event.
    pub(crate) fn after(self, event: ClientEvent) -> ClientStage
        ensures { result ≡ stage_after event self }
    {
        match event {
            ClientEvent::Accepted => ClientStage::Asking,
            ClientEvent::Upgraded => ClientStage::Stranger,
            ClientEvent::Heard(true) => ClientStage::SignedIn,
            ClientEvent::Heard(false) => ClientStage::Stranger,
            ClientEvent::Waits | ClientEvent::Taken => self,
        }
    }
}
