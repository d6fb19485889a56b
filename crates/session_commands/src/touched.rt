use user_names::Name;

/// Whom a command may let see the hands of a board, who didn't see them before.
#[derive(Clone, Copy)]
pub enum Touched {
    /// Nobody.
    Nothing,
    /// Anybody, those of one board.
    Board(u8),
    /// One user, those of any board.
    User(Name),
    /// Anybody, those of any board.
    Everything,
}
