use session_book::Book;

/// A session that was opened, with what its object says beside the state.
#[derive(Drop)]
pub struct OpenedSession {
    /// The book of the session, for whoever keeps it.
    pub book: Book,
    /// How many visits each call of the solver's may make.
    pub budget: u64,
}
