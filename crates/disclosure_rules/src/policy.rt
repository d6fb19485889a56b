ghost use Rattle.std.specs.Prelude.{◌≡◌, ◌&&◌, ◌||◌, not};
ghost use Rattle.session_roles.specs.declared.role.Role.TheVariants.{Spectator, Director, Administrator};
ghost use Rattle.disclosure_rules.specs.Fact.{board_of_fact, cell_of_fact, is_accounts, is_analysed, is_of_play, is_reason};
ghost use Rattle.disclosure_rules.specs.LiveCells.{is_live};
ghost use Rattle.small_sets.specs.Numbers.{has_number};
ghost use Rattle.disclosure_rules.specs.Phase.{is_running};
ghost use Rattle.disclosure_rules.specs.Policy.{is_authorized, is_contestant, comments, forbids, guarded, first_rule};
ghost use Rattle.disclosure_rules.specs.Seating.{some_that, is_complete, plays_board, has_still_to_play, is_seated_at};

use crate::fact::Fact;
use crate::public::Public;
use crate::rule::Rule;
use crate::seating::{has_still_to_play, is_seated_at, plays_board};
use crate::viewer::Viewer;
use movement::Cell;
use session_roles::Role;

/// The first rule that forbids the fact to the user, if one does.
pub fn decide(public: &Public, viewer: &Viewer, fact: Fact) -> Option<Rule>
    ensures { result ≡ first_rule public.now viewer.now fact }
{
    // what is guarded from the user is the same by every rule
    let board = guarded(viewer, fact.board());
    let cell = guarded(viewer, fact.cell());
    for rule in Rule::ALL {
        if forbids(rule, public, viewer, fact, board, cell) {
            return Some(rule);
        }
    }
    None
}

/// Whether a rule forbids the fact to the user, from whom its board and its cell are guarded.
fn forbids(
    rule: Rule,
    public: &Public,
    viewer: &Viewer,
    fact: Fact,
    board: Option<u8>,
    cell: Option<Cell>,
) -> bool
    requires board { board ≡ guarded viewer.now (board_of_fact fact) }
    requires cell { cell ≡ guarded viewer.now (cell_of_fact fact) }
    ensures { result ≡ forbids rule public.now viewer.now fact }
{
    match rule {
        Rule::NoAccount => viewer.roles.is_none(),
        Rule::NotAMember => !viewer.is_authorized(Role::Member),
        Rule::AccountsAreClosed => accounts_are_closed(viewer, fact),
        Rule::SessionIsEmbargoed => board.is_some() && public.is_embargoed(),
        Rule::BoardIsHeld => is_held(public, board),
        Rule::StillToPlay => is_still_to_play(public, viewer, board),
        Rule::OthersStillPlay => others_still_play(public, viewer, board),
        Rule::NeitherContestantNorSpectator => board.is_some() && !watches(viewer),
        Rule::BoardIsIncomplete => board_is_incomplete(public, viewer, board),
        Rule::AnalysisWaits => analysis_waits(public, viewer, fact, board),
        Rule::PlayWaits => play_waits(public, viewer, fact, cell),
        Rule::ReasonIsForThePairs => reason_is_for_the_pairs(public, viewer, fact, cell),
        Rule::NoResult => has_no_result(public, cell),
    }
}

fn accounts_are_closed(viewer: &Viewer, fact: Fact) -> bool
    ensures { result ≡ (is_accounts fact
        && (not (is_authorized viewer.now.roles Administrator) && not (is_authorized viewer.now.roles Director))) }
{
    fact.is_accounts()
        && !viewer.is_authorized(Role::Administrator)
        && !viewer.is_authorized(Role::Director)
}

fn is_held(public: &Public, board: Option<u8>) -> bool
    ensures { result ≡ some_that board (λ board. has_number public.now.held board) }
{
    match board {
        Some(board) => public.held.contains(board),
        None => false,
    }
}

fn is_still_to_play(public: &Public, viewer: &Viewer, board: Option<u8>) -> bool
    ensures { result ≡ some_that board (λ board.
        is_contestant viewer.now && has_still_to_play public.now viewer.now board) }
{
    match board {
        Some(board) => is_contestant(viewer) && has_still_to_play(public, viewer, board),
        None => false,
    }
}

fn others_still_play(public: &Public, viewer: &Viewer, board: Option<u8>) -> bool
    ensures { result ≡ some_that board (λ board. is_contestant viewer.now
        && (not (plays_board public.now viewer.now board) && not (is_complete public.now board))) }
{
    match board {
        Some(board) => {
            is_contestant(viewer)
                && !plays_board(public, viewer, board)
                && !public.is_complete(board)
        }
        None => false,
    }
}

// Whether the user plays or watches.
fn watches(viewer: &Viewer) -> bool
    ensures { result ≡ (is_contestant viewer.now || is_authorized viewer.now.roles Spectator) }
{
    is_contestant(viewer) || viewer.is_authorized(Role::Spectator)
}

fn board_is_incomplete(public: &Public, viewer: &Viewer, board: Option<u8>) -> bool
    ensures { result ≡ some_that board (λ board.
        not (is_contestant viewer.now)
        && (not (comments public.now viewer.now) && not (is_complete public.now board))) }
{
    match board {
        Some(board) => {
            !is_contestant(viewer) && !comments(public, viewer) && !public.is_complete(board)
        }
        None => false,
    }
}

fn analysis_waits(public: &Public, viewer: &Viewer, fact: Fact, board: Option<u8>) -> bool
    ensures { result ≡ some_that board (λ board. is_analysed fact
        && (not (comments public.now viewer.now) && not (is_complete public.now board))) }
{
    match board {
        Some(board) => {
            fact.is_analysed() && !comments(public, viewer) && !public.is_complete(board)
        }
        None => false,
    }
}

fn play_waits(public: &Public, viewer: &Viewer, fact: Fact, cell: Option<Cell>) -> bool
    ensures { result ≡ some_that cell (λ cell. is_of_play fact
        && (not (is_seated_at public.now viewer.now cell) && is_running public.now.phase)) }
{
    match cell {
        Some(cell) => {
            fact.is_of_play() && !is_seated_at(public, viewer, cell) && public.phase.is_running()
        }
        None => false,
    }
}

fn reason_is_for_the_pairs(public: &Public, viewer: &Viewer, fact: Fact, cell: Option<Cell>) -> bool
    ensures { result ≡ some_that cell (λ cell.
        is_reason fact && not (is_seated_at public.now viewer.now cell)) }
{
    match cell {
        Some(cell) => fact.is_reason() && !is_seated_at(public, viewer, cell),
        None => false,
    }
}

fn has_no_result(public: &Public, cell: Option<Cell>) -> bool
    ensures { result ≡ some_that cell (λ cell. not (is_live public.now.live cell)) }
{
    match cell {
        Some(cell) => !public.live.contains(cell),
        None => false,
    }
}

fn is_contestant(viewer: &Viewer) -> bool
    ensures { result ≡ is_contestant viewer.now }
{
    viewer.is_authorized(Role::Contestant)
}

// Whether the user may comment on boards before they are complete.
fn comments(public: &Public, viewer: &Viewer) -> bool
    ensures { result ≡ comments public.now viewer.now }
{
    public.edition.is_second() && viewer.is_authorized(Role::Commentator)
}

/// What is guarded, from everybody but a director.
fn guarded<T: Copy>(viewer: &Viewer, secret: Option<T>) -> Option<T>
    ensures { result ≡ guarded viewer.now secret }
{
    if viewer.is_authorized(Role::Director) {
        None
    } else {
        secret
    }
}
