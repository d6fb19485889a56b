ghost use Rattle.std.specs.Prelude.{◌≡◌};
ghost use Rattle.session_commands.specs.CellState.{is_contract_of, same_play};

use cards::{Card, Play};
use scoring::{Contract, Outcome};
use solver_results::PlayCosts;

/// What is known of a board at a table.
#[derive(Clone, Copy)]
pub enum CellState {
    /// Nothing is entered yet.
    Empty,
    /// It is entered, and waits to be confirmed.
    Entered {
        outcome: Outcome,
        play: Play,
    },
    /// It is confirmed: there is a result.
    Confirmed {
        outcome: Outcome,
        play: Play,
        /// What its cards cost, once they are counted.
        costs: Option<PlayCosts>,
    },
    /// The director gave an adjusted score (Law 12C2), which is a result: the percentage of a top for each side, from 0
    /// to 100, and the number of the reason, from 1 to 99.
    Ruled {
        north_south: u8,
        east_west: u8,
        reason: u8,
    },
}

impl CellState {
    ghost use Rattle.std.specs.Prelude.{◌≡◌};
    ghost use Rattle.session_commands.specs.CellState.{has_result, is_empty, is_entered_otherwise, is_played_as};
    ghost use Rattle.session_commands.specs.CellState.{is_counted, with_costs};

    /// Whether there is a result.
    pub fn has_result(&self) -> bool
        ensures { result ≡ has_result self.now }
    {
        matches!(self, CellState::Confirmed { .. } | CellState::Ruled { .. })
    }

    /// Whether nothing is known.
    pub fn is_empty(&self) -> bool
        ensures { result ≡ is_empty self.now }
    {
        matches!(self, CellState::Empty)
    }

    /// Whether another outcome is entered.
    pub fn is_entered_otherwise(&self, outcome: Outcome) -> bool
        ensures { result ≡ is_entered_otherwise self.now outcome }
    {
        match self {
            CellState::Entered {
                outcome: entered,
                ..
            } => outcome != *entered,
            _ => false,
        }
    }

    /// Whether it is confirmed with this contract and this play.
    pub fn is_played_as(&self, contract: Contract, cards: &[Card]) -> bool
        ensures { result ≡ is_played_as self.now contract cards.now }
    {
        match self {
            CellState::Confirmed { outcome, play, .. } => {
                is_contract_of(*outcome, contract) && is_same_play(play.as_slice(), cards)
            }
            _ => false,
        }
    }

    /// Whether nothing of its play is left to be counted.
    pub fn is_counted(&self) -> bool
        ensures { result ≡ is_counted self.now }
    {
        match self {
            CellState::Confirmed { play, costs, .. } => costs.is_some() || play.is_empty(),
            _ => false,
        }
    }

    /// With what its cards cost, where it is confirmed.
    pub fn with_costs(self, counted: PlayCosts) -> CellState
        ensures { result ≡ with_costs self counted }
    {
        match self {
            CellState::Confirmed { outcome, play, .. } => CellState::Confirmed {
                outcome,
                play,
                costs: Some(counted),
            },
            other => other,
        }
    }
}

// Whether it is an outcome of this contract, with whatever tricks.
fn is_contract_of(outcome: Outcome, contract: Contract) -> bool
    ensures { result ≡ is_contract_of outcome contract }
{
    match outcome {
        Outcome::PassedOut => false,
        Outcome::Played { tricks, .. } => outcome == Outcome::Played { contract, tricks },
    }
}

// Whether two plays are one.
fn is_same_play(cards: &[Card], other: &[Card]) -> bool
    ensures { result ≡ same_play cards.now other.now }
{
    if cards.len() != other.len() {
        return false;
    }
    for place in 0..cards.len() {
        if cards[place].number() != other[place].number() {
            return false;
        }
    }
    true
}
