//! What follows from the definitions alone: each function here has nothing to do, and its clauses are the theorem.

ghost use Rattle.std.specs.Prelude.{List};
ghost use Rattle.session_commands.specs.declared.entry.Entry.{Entry};
ghost use Rattle.session_state.specs.SessionState.{SessionState};
ghost use Rattle.session_book.specs.Journal.{MayFollow, IsAccepted};
ghost use Rattle.entry_texts.specs.Kept.{IsReadable};
ghost use Rattle.kept_entries.specs.RowTexts.{AreReadable};

/// What a session accepts is read of its texts: a command of the solver's, whoever gives it; and of a user's each one that
/// is accepted a client can send. So is each entry of an accepted journal.
pub fn what_is_accepted_is_readable()
    ensures entry { (opening : SessionState) (before : List Entry) (entry : Entry) → MayFollow opening before entry
        → IsReadable entry.actor entry.command }
    ensures journal { (opening : SessionState) (journal : List Entry) → IsAccepted opening journal → AreReadable journal }
{}
