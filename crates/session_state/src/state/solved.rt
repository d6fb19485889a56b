//! Why a command of the solver's is refused, and what it does to a state.
ghost use Rattle.std.specs.Prelude.{◌≡◌};
ghost use Rattle.session_state.specs.Apply.{effect};
ghost use Rattle.session_state.specs.Refusal.{first_cause, own_causes};
ghost use Rattle.session_state.specs.SessionState.{IsPlaced, IsKeptBoard};
ghost use Rattle.session_commands.specs.declared.command.Command.TheVariants.{Solved, Analysed};

use crate::causes::first_cause;
use crate::state::{State, cell_index};
use movement::Cell;
use session_commands::Refusal;
use solver_results::{DdTable, PlayCosts};

impl State {
    pub(super) fn solved_cause(&self, board: u8, table: &DdTable) -> Option<Refusal>
        requires { IsKeptBoard board }
        ensures { result ≡ first_cause (own_causes self.now (Solved board table.now)) }
    {
        first_cause(&[
            (!self.is_dealt(board, table.deal())).then_some(Refusal::StrangeDeal),
            self.table(board)
                .is_some()
                .then_some(Refusal::AlreadySolved),
        ])
    }

    // Keeps a board's table.
    pub(super) fn solve(&mut self, board: u8, table: DdTable)
        requires { IsKeptBoard board }
        ensures { self.new ≡ effect self.old (Solved board table) }
    {
        self.tables[board as usize - 1] = Some(table);
    }

    pub(super) fn analysed_cause(&self, cell: Cell, costs: &PlayCosts) -> Option<Refusal>
        requires { IsPlaced cell }
        ensures { result ≡ first_cause (own_causes self.now (Analysed cell costs.now)) }
    {
        let known = self.cell(cell);
        let own = self.is_dealt(cell.board, costs.deal())
            && known.is_played_as(costs.contract(), costs.play());
        first_cause(&[
            (!known.has_result()).then_some(Refusal::NotLive),
            (!own).then_some(Refusal::StrangePlay),
            known.is_counted().then_some(Refusal::AlreadySolved),
        ])
    }

    // Keeps what the cards of a cell cost.
    pub(super) fn analyse(&mut self, cell: Cell, costs: PlayCosts)
        requires { IsPlaced cell }
        ensures { self.new ≡ effect self.old (Analysed cell costs) }
    {
        let place = cell_index(cell);
        let known = self.cell(cell);
        self.cells[place] = known.with_costs(costs);
    }
}
