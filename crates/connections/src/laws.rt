//! What holds of connections: each function here has nothing to do, and its clauses are the theorem.

ghost use Rattle.std.specs.Prelude.{◌≡◌, ◌+◌, ℕ, List};
ghost use Rattle.session_state.specs.SessionState.{SessionState};
ghost use Rattle.published_view.specs.World.{Moment, IsHistory};
ghost use Rattle.request_answers.specs.Conversing.{Stop, IsConversation, IsToldBy, OnlyAdd, added_by_all};
ghost use Rattle.connections.specs.Conversation.{Exchange, AreExchanged, AreStopsOf, IsExchanged, SendsBatch};
ghost use Rattle.connections.specs.Conversation.{own_entries_then};
ghost use Rattle.connections.specs.Linked.{EntersNone};

use session_keeper::Keeper;

/// Whatever messages come on connections over one keeper, one after another, what is answered to them is told by a history
/// of the session: for each there is a stop of a conversation of users, and a history whose readings, submissions and
/// audits have, in their order, the texts that were answered. So what holds of each reply in a history holds of what is
/// sent to a client. By each stop the keeper has entered just what came of the message's own request, once; in all it has
/// entered as many entries as the submissions of these requests have added in that history, and none beside.
pub fn every_exchange<K: Keeper>()
    ensures { (opening : SessionState) (own : ℕ) (exchanges : List Exchange) →
        OnlyAdd K.others → AreExchanged K.others K.no_entry K.not_kept opening own exchanges →
        (stops : List Stop) × AreStopsOf K.others K.no_entry K.not_kept exchanges stops
        × IsConversation K.others opening stops
        × (history : List Moment) × IsHistory opening history × (told : IsToldBy opening stops history)
        × (own_entries_then own exchanges ≡ own + added_by_all opening stops history told) }
{}

/// Nothing is entered for a message but a batch of the user who is signed in: not for a query, an audit or a greeting, nor
/// for what isn't read, or is asked before anybody has signed in; whether there was memory for the answer or not.
pub fn only_batches_enter<K: Keeper>()
    ensures { (exchange : Exchange) →
        IsExchanged K.others K.no_entry K.not_kept exchange.before exchange.message exchange.answer exchange.after →
        (¬ SendsBatch exchange) → EntersNone exchange.before exchange.after }
{}
