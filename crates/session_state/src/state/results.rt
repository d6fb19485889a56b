//! Why a command on a result is refused, and what it does to a state.
ghost use Rattle.std.specs.Prelude.{◌≡◌, None, true};
ghost use Rattle.movement.specs.declared.cell.Cell.{Cell};
ghost use Rattle.session_state.specs.Apply.{effect, with_result, without_result};
ghost use Rattle.session_commands.specs.CellState.{has_result};
ghost use Rattle.session_state.specs.Refusal.{first_cause, hindrance_of, is_bad_result, is_bad_ruling, own_causes};
ghost use Rattle.session_state.specs.SessionState.{SessionState, IsPlaced};
ghost use Rattle.session_commands.specs.declared.command.Command.TheVariants.{Enter, Confirm, Correct, Rule, Void};

use crate::causes::first_cause;
use crate::state::{State, cell_index};
use cards::Play;
use movement::Cell;
use scoring::Outcome;
use session_commands::{CellState, Refusal};

impl State {
    pub(super) fn enter_cause(&self, cell: Cell, outcome: Outcome, play: &Play) -> Option<Refusal>
        requires { IsPlaced cell }
        ensures { result ≡ first_cause (own_causes self.now (Enter cell outcome play.now)) }
    {
        first_cause(&[
            is_bad_result(outcome, play).then_some(Refusal::BadResult),
            self.cell(cell).has_result().then_some(Refusal::AlreadyLive),
        ])
    }

    // Sets what is entered.
    pub(super) fn enter(&mut self, cell: Cell, outcome: Outcome, play: Play)
        requires placed { IsPlaced cell }
        requires unhindered { hindrance_of self.old (Enter cell outcome play) ≡ None }
        ensures { self.new ≡ effect self.old (Enter cell outcome play) }
    {
        let place = cell_index(cell);
        self.cells[place] = CellState::Entered { outcome, play };
    }

    pub(super) fn confirm_cause(&self, cell: Cell, outcome: Outcome) -> Option<Refusal>
        requires { IsPlaced cell }
        ensures { result ≡ first_cause (own_causes self.now (Confirm cell outcome)) }
    {
        let known = self.cell(cell);
        first_cause(&[
            known.has_result().then_some(Refusal::AlreadyLive),
            known.is_empty().then_some(Refusal::NothingEntered),
            known
                .is_entered_otherwise(outcome)
                .then_some(Refusal::Mismatch),
        ])
    }

    // Makes what is entered the result.
    pub(super) fn confirm(&mut self, cell: Cell, outcome: Outcome)
        requires placed { IsPlaced cell }
        ensures { self.new ≡ effect self.old (Confirm cell outcome) }
    {
        if let CellState::Entered { outcome, play } = self.cell(cell) {
            let costs = None;
            self.set_result(
                cell,
                CellState::Confirmed {
                    outcome,
                    play,
                    costs,
                },
            );
        }
    }

    pub(super) fn correct_cause(&self, cell: Cell, outcome: Outcome, play: &Play) -> Option<Refusal>
        requires { IsPlaced cell }
        ensures { result ≡ first_cause (own_causes self.now (Correct cell outcome play.now)) }
    {
        first_cause(&[
            is_bad_result(outcome, play).then_some(Refusal::BadResult),
            (!self.cell(cell).has_result()).then_some(Refusal::NotLive),
        ])
    }

    // Puts a corrected outcome and play in place of a result.
    pub(super) fn correct(&mut self, cell: Cell, outcome: Outcome, play: Play)
        requires placed { IsPlaced cell }
        ensures { self.new ≡ effect self.old (Correct cell outcome play) }
    {
        let costs = None;
        self.set_result(
            cell,
            CellState::Confirmed {
                outcome,
                play,
                costs,
            },
        );
    }

    pub(super) fn rule_cause(north_south: u8, east_west: u8, reason: u8) -> Option<Refusal>
        ensures { (state : SessionState) (cell : Cell) →
            result ≡ first_cause (own_causes state (Rule cell north_south east_west reason)) }
    {
        is_bad_ruling(north_south, east_west, reason).then_some(Refusal::BadRuling)
    }

    // Makes a ruling the result.
    pub(super) fn rule(&mut self, cell: Cell, north_south: u8, east_west: u8, reason: u8)
        requires placed { IsPlaced cell }
        ensures { self.new ≡ effect self.old (Rule cell north_south east_west reason) }
    {
        self.set_result(
            cell,
            CellState::Ruled {
                north_south,
                east_west,
                reason,
            },
        );
    }

    pub(super) fn void_cause(&self, cell: Cell) -> Option<Refusal>
        requires { IsPlaced cell }
        ensures { result ≡ first_cause (own_causes self.now (Void cell)) }
    {
        (!self.cell(cell).has_result()).then_some(Refusal::NotLive)
    }

    // Takes the result away.
    pub(super) fn void(&mut self, cell: Cell)
        requires placed { IsPlaced cell }
        ensures { self.new ≡ effect self.old (Void cell) }
    {
        let place = cell_index(cell);
        self.cells[place] = CellState::Empty;
        self.public.live.remove(cell);
    }

    // Makes what is known of a cell a result.
    fn set_result(&mut self, cell: Cell, known: CellState)
        requires placed { IsPlaced cell }
        requires live { has_result known ≡ true }
        ensures { self.new ≡ with_result self.old cell known }
    {
        let place = cell_index(cell);
        self.cells[place] = known;
        self.public.live.insert(cell);
    }
}

// Whether the play has a card twice, or cards were played on a passed-out board.
fn is_bad_result(outcome: Outcome, play: &Play) -> bool
    ensures { result ≡ is_bad_result outcome play.now }
{
    play.has_repeat() || matches!(outcome, Outcome::PassedOut) && !play.is_empty()
}

// Whether a percentage is over 100, or the reason isn't one of 1 to 99.
fn is_bad_ruling(north_south: u8, east_west: u8, reason: u8) -> bool
    ensures { result ≡ is_bad_ruling north_south east_west reason }
{
    north_south > 100 || east_west > 100 || !(1 <= reason && reason <= 99)
}
