//! What reading comes to: each function here has nothing to do, and its clauses are the theorem.

ghost use Rattle.std.specs.Prelude.{◌≡◌, ◌≢◌, ℕ, List, Option};
ghost use Rattle.session_object.specs.declared.object.SessionObject.{SessionObject};
ghost use Rattle.session_object.specs.declared.session_fault.SessionFault.{SessionFault};
ghost use Rattle.session_object.specs.declared.session_fault.SessionFault.TheVariants.{OutOfMemory};
ghost use Rattle.session_object.specs.Reading.{ReadsSession, IsSessionRefused};

/// A text opens one session at most.
pub fn a_session_is_read_in_one_way()
    ensures { (given : Option (List ℕ)) (text : List ℕ) (one other : SessionObject) → ReadsSession given text one →
        ReadsSession given text other → one ≡ other }
{}

/// A text that is read has no fault.
pub fn what_is_read_is_not_refused()
    ensures { (given : Option (List ℕ)) (text : List ℕ) (object : SessionObject) (fault : SessionFault) →
        ReadsSession given text object → fault ≢ OutOfMemory → ¬ IsSessionRefused fault given text }
{}
