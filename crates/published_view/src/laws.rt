//! What holds of the replies as a whole.

ghost use Rattle.std.specs.Prelude.{◌≡◌, ◌≢◌, ℕ, None, List};
ghost use Rattle.movement.specs.declared.cell.Cell.{Cell};
ghost use Rattle.movement.specs.Movement.{IsSection};
ghost use Rattle.disclosure_rules.specs.declared.fact.Fact.TheVariants.{Hands};
ghost use Rattle.disclosure_rules.specs.Policy.{first_rule};
ghost use Rattle.disclosure_rules.specs.Seating.{IsSeatedAt};
ghost use Rattle.denials.specs.declared.denial.Denial.{Denial};
ghost use Rattle.notices.specs.declared.notices.Notices.{Notices};
ghost use Rattle.session_state.specs.SessionState.{SessionState, viewer_of};
ghost use Rattle.session_state.specs.Told.{told_as};
ghost use Rattle.session_commands.specs.declared.entry.Entry.{Entry};
ghost use Rattle.session_opening.specs.Opening.{opening_of};
ghost use Rattle.session_opening.specs.declared.config.Config.{Config};
ghost use Rattle.session_book.specs.Exposure.{SomeAllowed};
ghost use Rattle.session_book.specs.Journal.{IsAccepted};
ghost use Rattle.session_book.specs.Replay.{replay};
ghost use Rattle.session_queries.specs.Query.{fact_of};
ghost use Rattle.session_queries.specs.declared.body.Body.TheVariants.{Denied};
ghost use Rattle.session_queries.specs.declared.query.Query.{Query};
ghost use Rattle.session_queries.specs.declared.query.Query.TheVariants.{Status};
ghost use Rattle.session_queries.specs.declared.reply.Reply.{Reply};
ghost use Rattle.published_view.specs.Agreement.{Agree, DifferAt};
ghost use Rattle.published_view.specs.History.{IsGivenIn, state_there, NamesPublished, IsWritten, NamesFirst};
ghost use Rattle.published_view.specs.History.{AskTheSame, IsExhaustive, IsToldAfter};
ghost use Rattle.published_view.specs.Reply.{reply_of};
ghost use Rattle.published_view.specs.World.{Moment, Reading, IsHistory, MayGoOn, now};

/// In two states that agree for a user, the user gets the same reply to every query, with any filter, page and wanted
/// version: none tells of what the user may not see. So what belongs to a board whose hands a rule forbids the user is
/// no matter to any reply.
pub fn two_worlds()
    ensures replies { (one other : SessionState) (version : ℕ) (user : List ℕ) (query : Query) (since : ℕ) →
        Agree one other user → reply_of one version user query since ≡ reply_of other version user query since }
    ensures hidden { (one other : SessionState) (version : ℕ) (user : List ℕ) (query : Query) (since board : ℕ) →
        DifferAt board one other → first_rule one.public (viewer_of one user) (Hands board) ≢ None →
        reply_of one version user query since ≡ reply_of other version user query since }
{}

/// Names to show, and what a session tells of itself, are told in the status alone: with others every user gets the same
/// reply to every other query.
pub fn names_are_told_in_the_status_alone()
    ensures { (state : SessionState) (names : List (List ℕ)) (notices : Notices) (version : ℕ) (user : List ℕ)
        (query : Query) (since : ℕ) → query ≢ Status →
        reply_of (told_as state names notices) version user query since ≡ reply_of state version user query since }
{}

/// Over every interleaving of desk batches, solver results and queries, each reply names one published version and is
/// the written query over exactly the facts that the policy table allows its user there, each denial names the first
/// forbidding rule, two histories that agree on the user's role, public and allowed facts and version give equal
/// replies, and every double-dummy number shown is the exhaustive one. And whoever was allowed something of a board at
/// the version of a reply sits at no cell where a later entry enters or confirms a result of that board.
pub fn every_run()
    ensures interleaving { (opening : SessionState) (history : List Moment) →
        IsHistory opening history → IsAccepted opening (now history).journal × MayGoOn opening (now history) }
    ensures version { (opening : SessionState) (history : List Moment) (reading : Reading) (reply : Reply) →
        IsHistory opening history → (given : IsGivenIn history reading reply) →
        NamesPublished opening history given.earlier reading reply }
    ensures written { (opening : SessionState) (history : List Moment) (reading : Reading) (reply : Reply) →
        IsHistory opening history → IsGivenIn history reading reply →
        IsWritten (state_there opening history reply) reading reply }
    ensures denials { (opening : SessionState) (history : List Moment) (reading : Reading) (reply : Reply)
        (denial : Denial) →
        IsHistory opening history → IsGivenIn history reading reply → reply.body ≡ Denied denial →
        NamesFirst (state_there opening history reply) reading.user (fact_of reading.query) denial }
    ensures worlds { (one other : SessionState) (here there : List Moment) (asked again : Reading)
        (reply answer : Reply) →
        IsHistory one here → IsGivenIn here asked reply → IsHistory other there → IsGivenIn there again answer →
        AskTheSame asked again → reply.version ≡ answer.version →
        Agree (state_there one here reply) (state_there other there answer) asked.user → reply ≡ answer }
    ensures exhaustive { (config : Config) (history : List Moment) (reading : Reading) (reply : Reply) →
        IsSection config.movement → IsHistory (opening_of config) history → IsGivenIn history reading reply →
        IsExhaustive (opening_of config) (state_there (opening_of config) history reply) reading reply }
    ensures no_foreknowledge { (opening : SessionState) (history : List Moment) (reading : Reading) (reply : Reply)
        (board : ℕ) (before : List Entry) (cell : Cell) →
        IsHistory opening history → IsGivenIn history reading reply →
        SomeAllowed (state_there opening history reply) reading.user board →
        IsToldAfter (now history).journal reply.version before cell → cell.board ≡ board →
        ¬ IsSeatedAt (replay opening before).public (viewer_of (replay opening before) reading.user) cell }
{}
