//! A client that talks.

ghost use Rattle.std.specs.Prelude.{◌≡◌};

use std::marker::Model;
use tungstenite::{NoMask, WebSocket};

/// A client whose handshake is done: its socket, the guest who is on its connection, and whether a part of an answer waits
/// until it takes it.
#[derive(Drop)]
pub struct Client<S, G> {
    pub(crate) socket: WebSocket<S, NoMask>,
    pub(crate) guest: G,
    pub(crate) is_sending: bool,
}

impl<S, G> Model for Client<S, G> {
    ghost use Rattle.many_clients.specs.Talker.{Talker, talker_code};

    ghost Value = { Talker S G };

    ghost coded = { talker_code S.code G.code };

    ghost view = { λ c. record { socket = c.socket; guest = c.guest; is_sending = c.is_sending } };
}

impl<S: Drop, G> Client<S, G> {
    /// The stream of its socket.
    pub fn stream(&self) -> &S
        ensures { result.now ≡ self.now.socket.stream }
    {
        self.socket.get_ref()
    }

    /// Who is on its connection.
    pub fn guest(&self) -> &G
        ensures { result.now ≡ self.now.guest }
    {
        &self.guest
    }
}
