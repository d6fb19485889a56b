//! What follows from the definitions alone: each function here has nothing to do, and its clauses are the theorem.

ghost use Rattle.std.specs.Prelude.{ℕ, List, Some};
ghost use Rattle.session_object.specs.Session.{Session, IsSession};
ghost use Rattle.session_text.specs.SessionData.{session_data};
ghost use Rattle.session_text.specs.Writable.{IsWritableSession};

/// What is written of a session says this session, once its boards are given beside it, and by
/// `session_object::laws::a_session_is_read_in_one_way` no other.
pub fn what_is_written_is_read()
    ensures { (session : Session) → IsWritableSession session → IsSession (Some session.pbn) (session_data session) session }
{}
