//! What a row of an entry says.

/// An entry as its row has it, beside its number.
#[derive(Drop)]
pub struct RowText {
    /// The number of the publication that it is part of, from 1.
    pub publication: u32,
    /// Who entered it, as `user NAME` or `solver`.
    pub actor: String,
    /// The command as a client sends it, a JSON object.
    pub command: String,
}
