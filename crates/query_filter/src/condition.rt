use crate::atom::Atom;

/// A condition on a board: an atom, or one that is put together of others. What it says is a formula, by which clauses
/// know it.
#[derive(Drop)]
pub enum Condition {
    Atom(Atom),
    /// The other doesn't hold.
    Not(Box<Condition>),
    /// Each of these holds.
    And(Vec<Condition>),
    /// Some of these holds.
    Or(Vec<Condition>),
}
