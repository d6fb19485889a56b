//! What holds of a client's time: each function here has nothing to do, and its clauses are the theorem.

ghost use Rattle.std.specs.Prelude.{◌≡◌, ◌+◌, ◌*◌, ◌≤◌, ℕ, true, Some, None, List, ◌∷◌, ◌++◌};
ghost use Rattle.hall_terms.specs.declared.client_event.ClientEvent.TheVariants.{Upgraded, Heard, Waits};
ghost use Rattle.hall_terms.specs.Strangers.{NobodySignsIn};
ghost use Rattle.hall_terms.specs.Times.{Happening, greeting_time, late_at, taking_of};

/// Whatever is sent by a client on whose connection nobody signs in, pings or not, and whatever it takes or leaves, it is
/// late ten seconds after its handshake at the latest.
pub fn a_stranger_has_ten_seconds()
    ensures { (idle at : ℕ) (since earlier : List Happening) → NobodySignsIn since →
        late_at idle (since ++ (record { event = Upgraded; at = at } ∷ earlier)) ≤ at + greeting_time }
{}

/// No part of an answer that a client takes gives it longer for the rest: a further part that waits moves nothing.
pub fn a_part_moves_nothing()
    ensures { (idle at until : ℕ) (history : List Happening) → taking_of history ≡ Some until →
        late_at idle (record { event = Waits; at = at } ∷ history) ≡ late_at idle history }
{}

/// Of a client who is signed in each message, ping and pong counts: it is late so many seconds after the last that was read,
/// unless an answer waits.
pub fn who_is_heard_has_the_whole_time()
    ensures { (idle at : ℕ) (history : List Happening) → taking_of history ≡ None →
        late_at idle (record { event = Heard true; at = at } ∷ history) ≡ at + 1000 * idle }
{}
