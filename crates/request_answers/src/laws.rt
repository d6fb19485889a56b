//! What holds of the answers: each function here has nothing to do, and its clauses are the theorem.

ghost use Rattle.std.specs.Prelude.{◌≡◌, ◌≢◌, ◌⊎◌, ℕ, List, [], ◌∷◌, ◌++◌};
ghost use mathlib.Core.List.{IsPrefix};
ghost use Rattle.session_state.specs.SessionState.{SessionState};
ghost use Rattle.session_commands.specs.declared.entry.Entry.{Entry};
ghost use Rattle.published_view.specs.World.{Moment, IsHistory};
ghost use Rattle.wire.specs.declared.request.UserRequest.{UserRequest};
ghost use Rattle.request_answers.specs.Answering.{IsAnsweredOnce, IsUnanswered};
ghost use Rattle.request_answers.specs.Conversing.{Answered, TakenIn, Passed, TakesTurn, Stop};
ghost use Rattle.request_answers.specs.Conversing.{IsConversation, IsTextSince, IsToldBy, OnlyAdd};
ghost use Rattle.request_answers.specs.Response.{response_at};
ghost use Rattle.request_answers.specs.declared.answer_fault.AnswerFault.{AnswerFault};
ghost use Rattle.request_answers.specs.declared.answer_fault.AnswerFault.TheVariants.{OutOfMemory};

use session_keeper::Keeper;

/// What was answered stays answered: whatever journal the keeper stands for later, it begins with the one that came of
/// the request, and so with each command that was told as accepted.
pub fn what_was_accepted_stays<K: Keeper>()
    ensures { (opening : SessionState) (before now later : List Entry) (user : List ℕ)
        (request : UserRequest) (text : List ℕ) →
        (answered : IsAnsweredOnce K.others opening before user request text now) → IsPrefix now later →
        IsPrefix (response_at opening answered.met answered.refused_at user request).journal later }
{}

/// Every conversation with one who keeps a session is told by a history of the session: where each turn is what
/// `answer_request` promises, and others only add to the journal meanwhile, there are readings, submissions and what
/// others did, in the order of the requests, and each text is the one of a reply, of a receipt or of an audit there. So
/// what holds of each reply in a history holds of the text of each query that was answered.
pub fn every_conversation<K: Keeper>()
    ensures { (opening : SessionState) (stops : List Stop) →
        OnlyAdd K.others → IsConversation K.others opening stops →
        (history : List Moment) × IsHistory opening history × IsToldBy opening stops history }
{}

/// Whatever comes of a request is a turn of a conversation: it was answered, or took effect though there was no memory
/// for its text, or nothing came of it. Where memory wasn't refused, but no version could be entered or a batch wasn't
/// kept, nothing came of it.
pub fn every_outcome_is_a_turn<K: Keeper>()
    ensures answered { (opening : SessionState) (before after : List Entry) (user : List ℕ) (request : UserRequest)
        (text : List ℕ) →
        IsAnsweredOnce K.others opening before user request text after →
        TakesTurn K.others opening before (Answered user request text) after }
    ensures unanswered { (opening : SessionState) (before after : List Entry) (user : List ℕ) (request : UserRequest)
        (fault : AnswerFault) →
        IsUnanswered K.others K.no_entry K.not_kept opening before user request fault after →
        TakesTurn K.others opening before (TakenIn user request) after ⊎ TakesTurn K.others opening before Passed after }
    ensures passed { (opening : SessionState) (before after : List Entry) (user : List ℕ) (request : UserRequest)
        (fault : AnswerFault) → fault ≢ OutOfMemory →
        IsUnanswered K.others K.no_entry K.not_kept opening before user request fault after →
        TakesTurn K.others opening before Passed after }
{}

/// Each text in a conversation is that of what happened since the opening, in the whole history that tells it. So the
/// text of a query is the one of a reply that is given in that history, and `published_view::laws::every_run` holds of
/// this reply.
pub fn every_text()
    ensures { (opening : SessionState) (stops later earlier : List Stop) (history : List Moment) (user : List ℕ)
        (request : UserRequest) (text : List ℕ) (journal : List Entry) →
        IsToldBy opening stops history →
        stops ≡ later ++ record { turn = Answered user request text; journal = journal } ∷ earlier →
        IsTextSince opening [] history user request text }
{}
