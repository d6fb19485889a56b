/// What happens on a client's connection that tells until when it may go on.
#[derive(Clone, Copy, Debug, PartialEq, Eq)]
pub enum ClientEvent {
    /// It was accepted, and asks over HTTP.
    Accepted,
    /// Its handshake is done: the answer that lets it in, a 101, is sent.
    Upgraded,
    /// A message, a ping or a pong of it was read, after which a user is signed in on its connection, or nobody is.
    Heard(bool),
    /// A part of what is sent to it waits until it takes it.
    Waits,
    /// All that was sent to it is taken.
    Taken,
}
