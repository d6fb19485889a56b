//! Each command with the function that says why it is refused, and the one that does it.
ghost use Rattle.std.specs.Prelude.{◌≡◌, not, false, None, IfSome};
ghost use Rattle.disclosure_rules.specs.Seating.{some_that};
ghost use Rattle.session_state.specs.Accounts.{has_account};
ghost use Rattle.session_state.specs.Apply.{effect};
ghost use Rattle.session_commands.specs.Command.{subject_user, subject_cell, subject_board};
ghost use Rattle.session_state.specs.Refusal.{first_cause, own_causes, hindrance_of};
ghost use Rattle.session_state.specs.SessionState.{IsPlaced, IsKeptBoard};

use crate::state::State;
use disclosure_rules::Seat;
use session_commands::{Command, Refusal};

impl State {
    // The first of a command's own causes that is met.
    pub(crate) fn own_cause(&self, command: &Command) -> Option<Refusal>
        requires user { some_that (subject_user command.now) (λ name. not (has_account self.now.roles name)) ≡ false }
        requires cell { IfSome (subject_cell command.now) IsPlaced }
        requires board { IfSome (subject_board command.now) IsKeptBoard }
        ensures { result ≡ first_cause (own_causes self.now command.now) }
    {
        match command {
            Command::Enter {
                cell,
                outcome,
                play,
            } => self.enter_cause(*cell, *outcome, play),
            Command::Confirm { cell, outcome } => self.confirm_cause(*cell, *outcome),
            Command::Correct {
                cell,
                outcome,
                play,
            } => self.correct_cause(*cell, *outcome, play),
            Command::Rule {
                north_south,
                east_west,
                reason,
                ..
            } => State::rule_cause(*north_south, *east_west, *reason),
            Command::Void { cell } => self.void_cause(*cell),
            Command::Hold { board } => self.hold_cause(*board),
            Command::Release { board } => self.release_cause(*board),
            Command::Seat { name, pair, place } => self.seat_cause(
                *name,
                Seat {
                    pair: *pair,
                    place: *place,
                },
            ),
            Command::Unseat { name } => self.unseat_cause(*name),
            Command::NextRound => self.next_round_cause(),
            Command::Close | Command::Finalise => self.all_live_cause(),
            Command::AddUser { name, .. } => self.add_user_cause(*name),
            Command::Assign { name, role } => self.assign_cause(*name, *role),
            Command::Deassign { name, role } => self.deassign_cause(*name, *role),
            Command::AddInheritance { senior, junior } => {
                self.add_inheritance_cause(*senior, *junior)
            }
            Command::DeleteInheritance { senior, junior } => {
                self.delete_inheritance_cause(*senior, *junior)
            }
            Command::Solved { board, table } => self.solved_cause(*board, table),
            Command::Analysed { cell, costs } => self.analysed_cause(*cell, costs),
            Command::Embargo => self.embargo_cause(),
            Command::Lift => self.lift_cause(),
            Command::Rename { .. } => None,
        }
    }

    // Does what a command does where nothing hinders it.
    pub(super) fn take_effect(&mut self, command: &Command)
        requires unhindered { hindrance_of self.old command.now ≡ None }
        requires cell { IfSome (subject_cell command.now) IsPlaced }
        requires board { IfSome (subject_board command.now) IsKeptBoard }
        ensures { self.new ≡ effect self.old command.now }
    {
        match *command {
            Command::Enter {
                cell,
                outcome,
                play,
            } => self.enter(cell, outcome, play),
            Command::Confirm { cell, outcome } => self.confirm(cell, outcome),
            Command::Correct {
                cell,
                outcome,
                play,
            } => self.correct(cell, outcome, play),
            Command::Rule {
                cell,
                north_south,
                east_west,
                reason,
            } => self.rule(cell, north_south, east_west, reason),
            Command::Void { cell } => self.void(cell),
            Command::Hold { board } => self.hold(board),
            Command::Release { board } => self.release(board),
            Command::Seat { name, pair, place } => self.take_seat(name, Seat { pair, place }),
            Command::Unseat { name } => self.unseat(name),
            Command::NextRound => self.next_round(),
            Command::Close => self.close(),
            Command::Finalise => self.finalise(),
            Command::AddUser { name, digest } => self.add_user(name, digest),
            Command::Assign { name, role } => self.assign(name, role),
            Command::Deassign { name, role } => self.deassign(name, role),
            Command::AddInheritance { senior, junior } => self.add_inheritance(senior, junior),
            Command::DeleteInheritance { senior, junior } => {
                self.delete_inheritance(senior, junior)
            }
            Command::Solved { board, table } => self.solve(board, table),
            Command::Analysed { cell, costs } => self.analyse(cell, costs),
            Command::Embargo => self.embargo(),
            Command::Lift => self.lift(),
            Command::Rename { name, shown } => self.rename(name, shown),
        }
    }
}
