use hall_terms::ClientEnd;
use websocket_server::MessageServer;

/// What answers the messages of a hall's clients, and tells of them what their times depend on.
pub trait HallServer<H>: MessageServer<H> {
    /// Whether somebody is signed in on a guest's connection.
    fn is_signed_in(guest: &Self::Guest) -> bool;

    /// How many greetings it has refused: a client whose message makes it more isn't read for a second.
    fn refusals(&self) -> u64;

    /// Hears that the connection of a guest ended: why, and how many milliseconds after its handshake.
    fn hear_end(&self, rt: &H, guest: &Self::Guest, why: ClientEnd, after: u64);
}
