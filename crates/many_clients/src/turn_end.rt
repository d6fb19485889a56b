ghost use Rattle.std.specs.Prelude.{◌≡◌};
ghost use Rattle.many_clients.specs.Turns.{is_sending_after};

use hall_terms::ClientEnd;

/// What a client's turn came to, and so what it waits for.
#[derive(Clone, Copy, Debug, PartialEq, Eq)]
pub enum TurnEnd {
    /// A message was read, and what it gets was sent whole; or what waited was. There may be another message.
    Answered,
    /// A part of what a message gets waits until the client takes it. Nothing more is read so long.
    Sending,
    /// No message has come whole.
    Reading,
    /// The connection is over, for this reason.
    Closed(ClientEnd),
}

impl TurnEnd {
    // Whether a part of an answer waits.
    pub(crate) fn is_sending(self) -> bool
        ensures { result ≡ is_sending_after self }
    {
        matches!(self, TurnEnd::Sending)
    }
}
