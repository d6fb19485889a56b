//! What follows from the definitions alone: each function here has nothing to do, and its clauses are the theorem.

ghost use Rattle.std.specs.Prelude.{◌≡◌, ℕ, List, Some};
ghost use Rattle.serde_json.specs.Read.{read};
ghost use Rattle.session_state.specs.SessionState.{SessionState};
ghost use Rattle.session_object.specs.Session.{Session};
ghost use Rattle.opened_session.specs.Opened.{OpensWith};
ghost use Rattle.session_text.specs.SessionData.{session_data};
ghost use Rattle.session_text.specs.Writable.{IsWritableSession};
ghost use Rattle.preparing.specs.OpensAs.{OpensAs};

/// Where an object can say a session, whatever opens by what is written of it is this session: who is prepared is who is in it.
pub fn what_is_written_opens_as_written()
    ensures { (session : Session) (text : List ℕ) (opening : SessionState) → IsWritableSession session →
        read text ≡ Some (session_data session) → OpensWith (Some session.pbn) text opening → OpensAs session opening }
{}
