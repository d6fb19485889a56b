//! What holds of a start over a journal that is accepted.

ghost use Rattle.std.specs.Prelude.{◌≡◌, ◌⊎◌, ◌∷◌, [], ℕ, IsUtf8, List, None, Option};
ghost use Rattle.sqlite.specs.Recovery.{Image};
ghost use Rattle.sqlite.specs.declared.file.Leftover.{Leftover};
ghost use Rattle.journal_store.specs.Restart.{HoldsRows};
ghost use Rattle.journal_store.specs.Tables.{session_row};
ghost use Rattle.session_state.specs.SessionState.{SessionState};
ghost use Rattle.session_commands.specs.declared.entry.Entry.{Entry};
ghost use Rattle.session_book.specs.Journal.{IsAccepted};
ghost use Rattle.history.specs.Prefixes.{entries_of};
ghost use Rattle.kept_entries.specs.KeptRows.{AreKeepable, rows_of};
ghost use Rattle.kept_sessions.specs.Faults.{IsStartFailure, WhyNotReopened, WhyNotTakenUp};
ghost use Rattle.kept_sessions.specs.Sources.{WhyNoSession};
ghost use Rattle.kept_sessions.specs.declared.source_fault.KeptSessionFault.{KeptSessionFault as Fault};
ghost use Rattle.kept_sessions.specs.declared.source_fault.KeptSessionFault.TheVariants.{NoJournal};

use sqlite_disk::Disk;

/// Where the files hold the rows of publications that a session accepts, no start is refused once it has opened them, but for memory
/// or visits, a disk that has failed since, a file that is as long as one can be, or since the texts themselves open no session.
/// Where it hasn't opened them that is for memory, since another program holds them, or since the system doesn't open them; or, of
/// the journal alone, since the system knows no file there.
pub fn no_start_refuses_an_accepted_journal<D: Disk>()
    ensures with_texts { (image : Image) (object boards : List ℕ) (opening : SessionState) (published : List (List Entry))
        (left : Option (Leftover D D.Disk)) (fault : Fault)
        → AreKeepable published → IsAccepted opening (entries_of published)
        → HoldsRows image (session_row object boards ∷ []) (rows_of published)
        → WhyNotTakenUp image object boards left fault
        → WhyNoSession object boards fault ⊎ IsStartFailure left fault }
    ensures alone { (image : Image) (object boards : List ℕ) (opening : SessionState) (published : List (List Entry))
        (left : Option (Leftover D D.Disk)) (fault : Fault)
        → IsUtf8 object → AreKeepable published → IsAccepted opening (entries_of published)
        → HoldsRows image (session_row object boards ∷ []) (rows_of published) → WhyNotReopened image left fault
        → WhyNoSession object boards fault ⊎ (IsStartFailure left fault ⊎ ((fault ≡ NoJournal) × (left ≡ None))) }
{}
