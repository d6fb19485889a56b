/// Why the connection of a client ended whose handshake was done.
#[derive(Clone, Copy, Debug, PartialEq, Eq)]
pub enum ClientEnd {
    /// The client closed it.
    Closed,
    /// The client was late.
    Late,
    /// The client broke a rule of RFC 6455.
    BrokeRule,
    /// A message of the client was too long to be read.
    TooLong,
    /// The stream failed, or the other side went without a word.
    Failed,
    /// There was no memory to serve it on.
    OutOfMemory,
}
