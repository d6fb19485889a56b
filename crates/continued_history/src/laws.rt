//! What holds over the end of a server and its next start: each function here has nothing to do, and its clauses are
//! the theorem.

ghost use Rattle.std.specs.Prelude.{◌≡◌, ◌⊎◌, ℕ, Bool, List, [], ◌∷◌, ◌++◌, Contains, length};
ghost use mathlib.Core.List.{IsPrefix};
ghost use Rattle.movement.specs.declared.cell.Cell.{Cell};
ghost use Rattle.movement.specs.Movement.{IsSection};
ghost use Rattle.disclosure_rules.specs.Seating.{IsSeatedAt};
ghost use Rattle.denials.specs.declared.denial.Denial.{Denial};
ghost use Rattle.session_state.specs.SessionState.{SessionState, viewer_of};
ghost use Rattle.session_commands.specs.declared.actor.Actor.TheVariants.{Solver};
ghost use Rattle.session_commands.specs.declared.command.Command.{Command};
ghost use Rattle.session_commands.specs.declared.entry.Entry.{Entry};
ghost use Rattle.session_opening.specs.Opening.{opening_of};
ghost use Rattle.session_opening.specs.declared.config.Config.{Config};
ghost use Rattle.session_book.specs.declared.answer.Answer.{Answer};
ghost use Rattle.session_book.specs.Exposure.{Exposed, SomeAllowed};
ghost use Rattle.session_book.specs.Journal.{IsAccepted};
ghost use Rattle.session_book.specs.Replay.{replay};
ghost use Rattle.session_book.specs.Run.{Progress, Runs, IsTried};
ghost use Rattle.session_queries.specs.Query.{fact_of};
ghost use Rattle.session_queries.specs.declared.body.Body.TheVariants.{Denied};
ghost use Rattle.session_queries.specs.declared.reply.Reply.{Reply};
ghost use Rattle.history.specs.Prefixes.{entries_of};
ghost use Rattle.published_view.specs.Agreement.{Agree};
ghost use Rattle.published_view.specs.History.{IsGivenIn, state_there, IsWritten, NamesFirst};
ghost use Rattle.published_view.specs.History.{AskTheSame, IsExhaustive, IsToldAfter};
ghost use Rattle.published_view.specs.World.{Moment, Reading, IsHistory, MayGoOn, now, book_with};
ghost use Rattle.continued_history.specs.OneJournal.{AreOfOneJournal};
ghost use Rattle.continued_history.specs.Publications.{AreOfOneStep, publications_of, versions_of, MayBeEntered};
ghost use Rattle.continued_history.specs.Restart.{NoneFrom, IsRestart, IsOfBoth, IsGivenInEither, IsOfVersion};
ghost use Rattle.continued_history.specs.Runs.{Run, AreRuns, IsOfAll};

/// What joins the journal with a batch, or with a command of the solver's, is a publication of one step, or nothing.
pub fn what_joins_is_of_one_step()
    ensures batch { (stopped : Bool) (opening : SessionState) (before : List Entry) (actor : List ℕ)
        (batch : List Command) (progress : Progress) → Runs stopped opening before actor batch progress →
        (more : List Entry) × (progress.journal ≡ before ++ more) × ((more ≡ []) ⊎ AreOfOneStep more) }
    ensures found { (opening : SessionState) (before after : List Entry) (command : Command) (answer : Answer) →
        IsTried (book_with opening before) Solver command answer (book_with opening after) →
        (more : List Entry) × (after ≡ before ++ more) × ((more ≡ []) ⊎ AreOfOneStep more) }
{}

/// What a history publishes tells its journal and the versions that were published, and may be entered again: each
/// publication is of one user's batch or of the solver's, and all their entries are an accepted journal.
pub fn publications_tell_a_history()
    ensures entries { (opening : SessionState) (history : List Moment) → IsHistory opening history →
        entries_of (publications_of history) ≡ (now history).journal }
    ensures versions { (opening : SessionState) (history : List Moment) → IsHistory opening history →
        (now history).published ≡ versions_of (publications_of history) }
    ensures enterable { (opening : SessionState) (history : List Moment) → IsHistory opening history →
        MayBeEntered opening (publications_of history) }
{}

/// Publications that are entered again, one after another, each as a batch of its user or as what the solver found, are
/// a history of the session that has just these publications, and of which no display has seen anything.
pub fn publications_entered_again_are_a_history()
    ensures { (opening : SessionState) (publications : List (List Entry)) → MayBeEntered opening publications →
        (again : List Moment) × IsHistory opening again × (publications_of again ≡ publications)
        × NoneFrom 0 (now again) }
{}

/// Each accepted journal is that of a history of its session, in which its version is published.
pub fn an_accepted_journal_has_a_history()
    ensures { (opening : SessionState) (journal : List Entry) → IsAccepted opening journal →
        (history : List Moment) × IsHistory opening history × ((now history).journal ≡ journal)
        × Contains (now history).published (length journal) }
{}

/// Whatever history a session has come to when its server ends, it may be served again: from what was published, or
/// from that and one publication more, which was being kept.
pub fn a_start_may_follow()
    ensures published { (opening : SessionState) (run : List Moment) → IsHistory opening run →
        (restart : IsRestart opening run []) × (publications_of restart.again ≡ publications_of run) }
    ensures one_more { (opening : SessionState) (run : List Moment) (more : List Entry) → IsHistory opening run →
        AreOfOneStep more → IsAccepted opening ((now run).journal ++ more) →
        (restart : IsRestart opening run []) × (publications_of restart.again ≡ publications_of run ++ more ∷ []) }
{}

/// A run and the later one that goes on from what its start found are together one history of the session: the earlier
/// run, with the step more that was kept and that nobody had been shown, if there was one; and behind it what happened
/// in the later run, whose displays have numbers of their own.
pub fn a_later_run_goes_on()
    ensures { (opening : SessionState) (run later : List Moment) (restart : IsRestart opening run later) →
        (history : List Moment) × IsHistory opening history × IsOfBoth restart history }
{}

/// What holds of every run holds over a restart, of the replies of both runs: by the journal to which the later run has
/// come, which begins with all that the earlier one published. So nothing that anybody was shown is taken away, a reply
/// of the later run at a version of the earlier one is the reply that the earlier run gave, and whoever was allowed
/// something of a board in the earlier run sits at no cell where an entry of the later run enters or confirms a result
/// of it.
pub fn every_run_over_a_restart()
    ensures interleaving { (opening : SessionState) (run later : List Moment)
        (restart : IsRestart opening run later) → IsAccepted opening (now (later ++ restart.again)).journal
        × MayGoOn opening (now (later ++ restart.again)) }
    ensures kept { (opening : SessionState) (run later : List Moment) (restart : IsRestart opening run later) →
        IsPrefix (now run).journal (now (later ++ restart.again)).journal }
    ensures published { (opening : SessionState) (run later : List Moment) (restart : IsRestart opening run later) →
        IsPrefix (publications_of run) (publications_of (later ++ restart.again)) }
    ensures shown { (opening : SessionState) (run later : List Moment) (restart : IsRestart opening run later)
        (reading : Reading) (reply : Reply) → IsGivenIn run reading reply →
        state_there opening (later ++ restart.again) reply ≡ state_there opening run reply }
    ensures exposed { (opening : SessionState) (run later : List Moment) (restart : IsRestart opening run later)
        (user : List ℕ) (board : ℕ) → Exposed opening (now run).journal user board →
        Exposed opening (now (later ++ restart.again)).journal user board }
    ensures same { (opening : SessionState) (run later : List Moment) → IsRestart opening run later →
        (asked again : Reading) (reply answer : Reply) →
        IsGivenIn run asked reply → IsGivenIn later again answer →
        AskTheSame asked again → reply.version ≡ answer.version → reply ≡ answer }
    ensures version { (opening : SessionState) (run later : List Moment) (restart : IsRestart opening run later)
        (reading : Reading) (reply : Reply) → IsGivenInEither run later reading reply →
        IsOfVersion opening (later ++ restart.again) reply }
    ensures written { (opening : SessionState) (run later : List Moment) (restart : IsRestart opening run later)
        (reading : Reading) (reply : Reply) → IsGivenInEither run later reading reply →
        IsWritten (state_there opening (later ++ restart.again) reply) reading reply }
    ensures denials { (opening : SessionState) (run later : List Moment) (restart : IsRestart opening run later)
        (reading : Reading) (reply : Reply) (denial : Denial) →
        IsGivenInEither run later reading reply → reply.body ≡ Denied denial →
        NamesFirst (state_there opening (later ++ restart.again) reply) reading.user (fact_of reading.query) denial }
    ensures worlds { (one other : SessionState) (here here_later there there_later : List Moment)
        (restart : IsRestart one here here_later) (other_restart : IsRestart other there there_later)
        (asked again : Reading) (reply answer : Reply) →
        IsGivenInEither here here_later asked reply → IsGivenInEither there there_later again answer →
        AskTheSame asked again → reply.version ≡ answer.version →
        Agree (state_there one (here_later ++ restart.again) reply)
        (state_there other (there_later ++ other_restart.again) answer) asked.user → reply ≡ answer }
    ensures exhaustive { (config : Config) (run later : List Moment)
        (restart : IsRestart (opening_of config) run later) (reading : Reading) (reply : Reply) →
        IsSection config.movement → IsGivenInEither run later reading reply →
        IsExhaustive (opening_of config)
        (state_there (opening_of config) (later ++ restart.again) reply) reading reply }
    ensures no_foreknowledge { (opening : SessionState) (run later : List Moment)
        (restart : IsRestart opening run later) (reading : Reading) (reply : Reply)
        (board : ℕ) (before : List Entry) (cell : Cell) →
        IsGivenInEither run later reading reply →
        SomeAllowed (state_there opening (later ++ restart.again) reply) reading.user board →
        IsToldAfter (now (later ++ restart.again)).journal reply.version before cell → cell.board ≡ board →
        ¬ IsSeatedAt (replay opening before).public (viewer_of (replay opening before) reading.user) cell }
{}

/// However often a server ends and is started again, its runs are one history of the session.
pub fn any_number_of_restarts()
    ensures { (opening : SessionState) (runs : List Run) → AreRuns opening runs →
        (history : List Moment) × IsHistory opening history × IsOfAll runs history }
{}

/// Two histories of a session that tell of one journal, whoever found them, in one run of a server or before and after
/// a restart: replies of one version to one user's query are equal, and whoever was allowed something of a board at the
/// version of a reply in the one sits at no cell where a later entry of the other enters or confirms a result of it.
pub fn histories_of_one_journal()
    ensures same { (opening : SessionState) (one other : List Moment) → AreOfOneJournal opening one other →
        (asked again : Reading) (reply answer : Reply) → IsGivenIn one asked reply → IsGivenIn other again answer →
        AskTheSame asked again → reply.version ≡ answer.version → reply ≡ answer }
    ensures no_foreknowledge { (opening : SessionState) (one other : List Moment) → AreOfOneJournal opening one other →
        (reading : Reading) (reply : Reply) (board : ℕ) (before : List Entry) (cell : Cell) →
        IsGivenIn one reading reply → SomeAllowed (state_there opening one reply) reading.user board →
        IsToldAfter (now other).journal reply.version before cell → cell.board ≡ board →
        ¬ IsSeatedAt (replay opening before).public (viewer_of (replay opening before) reading.user) cell }
{}
