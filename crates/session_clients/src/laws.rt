//! What holds of a session's clients: the function here has nothing to do, and its clauses are the theorem.

ghost use Rattle.std.specs.Prelude.{◌≡◌, ◌+◌, ℕ, List, Option};
ghost use Rattle.many_clients.specs.Talker.{Talker};
ghost use Rattle.session_state.specs.SessionState.{SessionState};
ghost use Rattle.session_commands.specs.declared.entry.Entry.{Entry};
ghost use Rattle.published_view.specs.World.{Moment, IsHistory};
ghost use Rattle.request_answers.specs.Conversing.{Stop, IsConversation, IsToldBy, OnlyAdd, added_by_all};
ghost use Rattle.connections.specs.Conversation.{AreStopsOf};
ghost use Rattle.session_clients.specs.Transcript.{AreServedInTurns};

use session_keeper::Keeper;
use std::io::{Read, Write};

/// Whatever clients are served over one who keeps a session, beside one another, in whatever turns, as they come and go, what each
/// of them is sent is told by a history of the session: for each exchange in the transcript there is a stop of a conversation
/// of users, and a history whose readings, submissions and audits have, in their order, the texts that were answered. By
/// each stop the keeper has entered just what came of the request that the client sent, once; in all it has entered as many
/// entries as the submissions of the clients' requests have added in that history, and none beside.
pub fn every_client_in_turns<S: Read + Write, K: Keeper>()
    ensures { (opening : SessionState) (own connections : ℕ) (places : ℕ → Option (Talker S (Option (List ℕ))))
        (journal : List Entry) (own_now : ℕ) (served : AreServedInTurns S.remaining S.contents K.others K.no_entry
        K.not_kept opening own connections places journal own_now) → OnlyAdd K.others →
        (stops : List Stop) × AreStopsOf K.others K.no_entry K.not_kept served.transcript.exchanges stops
        × IsConversation K.others opening stops
        × (history : List Moment) × IsHistory opening history × (told : IsToldBy opening stops history)
        × (own_now ≡ own + added_by_all opening stops history told) }
{}
