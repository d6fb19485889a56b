ghost use Rattle.std.specs.Prelude.{◌≡◌};
ghost use Rattle.disclosure_rules.specs.Policy.{is_embargoed};
ghost use Rattle.disclosure_rules.specs.Seating.{is_complete};

use crate::boards::Boards;
use crate::live_cells::LiveCells;
use crate::marks::Marks;
use crate::phase::Phase;
use movement::Movement;
use session_roles::Edition;

/// What every member of a session may see, beside the seats.
#[derive(Drop)]
pub struct Public {
    pub movement: Movement,
    /// The markings of board 1, 2, ..
    pub marks: [Marks; Movement::MOST_BOARDS as usize],
    /// The present round, from 1.
    pub round: u8,
    pub phase: Phase,
    /// The edition of the policy by which facts are denied.
    pub edition: Edition,
    /// Whether the director has put the session under embargo, which the second edition alone knows.
    pub embargo: bool,
    /// The boards that the director withholds.
    pub held: Boards,
    pub live: LiveCells,
}

impl Public {
    pub fn copy(&self) -> Public
        ensures { result ≡ self.now }
    {
        Public {
            movement: self.movement.copy(),
            marks: self.marks,
            round: self.round,
            phase: self.phase,
            edition: self.edition,
            embargo: self.embargo,
            held: self.held,
            live: self.live.copy(),
        }
    }

    /// Whether the session is under embargo, in an edition that knows one.
    pub fn is_embargoed(&self) -> bool
        ensures { result ≡ is_embargoed self.now }
    {
        self.edition.is_second() && self.embargo
    }

    /// Whether every table that is scheduled to play the board has a result on it.
    pub fn is_complete(&self, board: u8) -> bool
        ensures { result ≡ is_complete self.now board }
    {
        let scheduled = self.movement.scheduled(board);
        scheduled.is_subset(self.live.tables(board))
    }
}
