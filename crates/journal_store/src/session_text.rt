//! What the row of the session says.

/// The texts that a session is made from.
#[derive(Drop)]
pub struct SessionText {
    /// The session's JSON object, byte for byte.
    pub object: String,
    /// The boards' text, byte for byte.
    pub boards: Vec<u8>,
}
