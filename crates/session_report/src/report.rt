ghost use Rattle.std.specs.Prelude.{◌≡◌, ◌≤◌, length, IfOk};
ghost use Rattle.movement.specs.Movement.{most_boards};
ghost use Rattle.session_report.specs.Report.{AreReported, report_of};

use crate::board_report::BoardReport;
use crate::boards::boards_of;
use crate::membership::Membership;
use crate::player::Player;
use crate::players::players_of;
use crate::ranking::ranking_of;
use disclosure_rules::Phase;
use notices::NoticeText;
use scoring::Standing;
use session_state::State;
use std::alloc::{AllocError, Global};
use table_terms::Items;

/// What a session comes to at a version.
pub struct Report {
    /// What the session is called, where that is said.
    pub title: Option<NoticeText>,
    /// The day of the session, as `2026-11-27`, where that is said.
    pub date: Option<NoticeText>,
    /// How far the session has come: its results are final in the last phase alone.
    pub phase: Phase,
    /// How many entries the session has taken.
    pub version: usize,
    /// Who sits where, in the order of the accounts.
    pub players: Items<Player>,
    /// The pairs in the order in which they rank.
    pub ranking: Items<Standing>,
    /// The boards from 1.
    pub boards: Items<BoardReport>,
}

// It is written out, so that a caller does not prove again how each part is dropped.
impl Drop for Report {
    fn drop(self) {
        let Report {
            title: _,
            date: _,
            phase: _,
            version: _,
            players: _,
            ranking: _,
            boards: _,
        } = self;
    }
}

/// What a session comes to that has taken so many entries. The state keeps no numbers of members: those that are known are
/// given beside it.
pub fn report_of(
    alloc: Global,
    state: &State,
    memberships: &[Membership],
    version: usize,
) -> Result<Report, AllocError>
    ensures report { IfOk result (λ report. report ≡ report_of state.now memberships.now version) }
    ensures numbered { IfOk result (λ report. AreReported 1 report.boards) }
    ensures few { IfOk result (λ report. length report.boards ≤ most_boards) }
{
    let players = players_of(alloc, state, memberships)?;
    let ranking = ranking_of(alloc, state)?;
    let boards = boards_of(alloc, state)?;
    let notices = state.notices();
    Ok(Report {
        title: notices.title,
        date: notices.date,
        phase: state.phase(),
        version,
        players: Items::new(players),
        ranking: Items::new(ranking),
        boards: Items::new(boards),
    })
}
