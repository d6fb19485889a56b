use session_commands::Refusal;

/// What became of a command.
#[derive(Clone, Copy)]
pub enum Answer {
    /// It is an entry of the journal.
    Accepted,
    /// It changed nothing.
    Refused(Refusal),
}

impl Answer {
    ghost use Rattle.std.specs.Prelude.{◌≡◌};
    ghost use Rattle.session_book.specs.Run.{answer_of};

    /// The answer to a command, from why it is refused, if it is.
    pub fn new(refusal: Option<Refusal>) -> Answer
        ensures { result ≡ answer_of refusal }
    {
        match refusal {
            None => Answer::Accepted,
            Some(cause) => Answer::Refused(cause),
        }
    }
}
