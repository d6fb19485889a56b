ghost use Rattle.std.specs.Prelude.{◌≡◌};
ghost use Rattle.session_book.specs.Run.{first_number, last_number};

use crate::answer::Answer;

/// What became of a batch.
#[derive(Drop)]
pub struct Submission {
    /// The answers, in the order of the commands.
    pub answers: Vec<Answer>,
    /// The number of the first entry that joined the journal, or 0 where none did.
    pub first: usize,
    /// The number of the last entry that joined the journal, or 0 where none did.
    pub last: usize,
}

impl Submission {
    /// What became of a batch that led from a version to another.
    pub fn new(answers: Vec<Answer>, before: usize, after: usize) -> Submission
        ensures answers { result.answers ≡ answers }
        ensures first { result.first ≡ first_number before after }
        ensures last { result.last ≡ last_number before after }
    {
        if before < after {
            Submission {
                answers,
                first: before + 1,
                last: after,
            }
        } else {
            Submission {
                answers,
                first: 0,
                last: 0,
            }
        }
    }
}
