//! How many visits the solver's calls take: with too few each says so, and has none left; of many most are left.

use cards::{Card, Deal, Play, Position, Rank};
use double_dummy::{Budget, CostsError, SolveError, costs, play_costs, solve, table};
use scoring::{Contract, Doubling, Level};
use std::alloc::Global;
use table_terms::{Place, Strain, Suit};

/// North has the spades, East the hearts, South the diamonds and West the clubs.
const SUITS: &str = "N:AKQJT98765432... .AKQJT98765432.. ..AKQJT98765432. ...AKQJT98765432";

/// What the solver is asked of that deal, played without trumps by North.
#[derive(Clone, Copy, Debug)]
enum Question {
    Tricks,
    Table,
    Costs,
    HeldCosts,
}

static QUESTIONS: [Question; 4] = [
    Question::Tricks,
    Question::Table,
    Question::Costs,
    Question::HeldCosts,
];

/// What comes of a question.
#[derive(Clone, Copy, PartialEq, Debug)]
enum Ending {
    Answered,
    OutOfBudget,
    Other,
}

fn ended<T: Drop>(solved: &Result<T, SolveError>) -> Ending {
    match solved {
        Ok(_) => Ending::Answered,
        Err(SolveError::OutOfBudget) => Ending::OutOfBudget,
        Err(SolveError::OutOfMemory) => Ending::Other,
    }
}

fn costs_ended<T: Drop>(solved: &Result<T, CostsError>) -> Ending {
    match solved {
        Ok(_) => Ending::Answered,
        Err(CostsError::OutOfBudget) => Ending::OutOfBudget,
        Err(_) => Ending::Other,
    }
}

/// A deal, a contract and the first trick of its play.
#[derive(Clone, Copy)]
struct Case {
    deal: Deal,
    contract: Contract,
    play: Play,
}

const fn two(suit: Suit) -> Card {
    Card {
        suit,
        rank: Rank::Two,
    }
}

/// The two of each suit, from East's lead.
fn trick() -> [Card; 4] {
    [
        two(Suit::Hearts),
        two(Suit::Diamonds),
        two(Suit::Clubs),
        two(Suit::Spades),
    ]
}

fn whole_suits() -> Option<Case> {
    let contract = Contract {
        level: Level::new(1)?,
        strain: Strain::NoTrump,
        declarer: Place::North,
        doubling: Doubling::Undoubled,
    };
    Some(Case {
        deal: SUITS.parse::<Deal>().ok()?,
        contract,
        play: Play::new(&trick())?,
    })
}

fn asked(alloc: Global, case: &Case, question: Question, budget: &mut Budget) -> Ending {
    let Case {
        deal,
        contract,
        play,
    } = *case;
    match question {
        Question::Tricks => {
            let start = Position::start(deal, contract.strain, contract.declarer);
            ended(&solve(alloc, &start, budget))
        }
        Question::Table => ended(&table(alloc, deal, budget)),
        Question::Costs => costs_ended(&costs(alloc, deal, contract, &trick(), budget)),
        Question::HeldCosts => ended(&play_costs(alloc, deal, contract, &play, budget)),
    }
}

/// Whether so many visits come to this, and at least so many of them are left then.
fn comes_to(question: Question, visits: u64, want: Ending, least: u64, alloc: Global) -> bool {
    let Some(case) = whole_suits() else {
        return false;
    };
    let mut budget = Budget::new(visits);
    asked(alloc, &case, question, &mut budget) == want && least <= budget.left()
}

#[test]
fn a_visit_is_too_few_and_a_million_are_many(rt: HostRuntime) {
    let alloc = rt.alloc();
    for &question in &QUESTIONS {
        assert!(rt;
            comes_to(question, 1, Ending::OutOfBudget, 0, alloc),
            "{question:?}"
        );
        assert!(rt;
            comes_to(question, 1_000_000, Ending::Answered, 990_000, alloc),
            "{question:?}"
        );
    }
}
