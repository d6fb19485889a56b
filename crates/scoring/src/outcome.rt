use crate::contract::Contract;
use crate::tricks::Tricks;

/// How a board ended at one table.
#[derive(Clone, Copy)]
pub enum Outcome {
    /// All four players passed (Law 22).
    PassedOut,
    /// A contract was played, and declarer's side won so many tricks.
    Played { contract: Contract, tricks: Tricks },
}

impl PartialEq for Outcome {
    ghost use Rattle.std.specs.Cmp.{on_per, partial_equiv_from_equiv};
    ghost use Rattle.std.specs.Cmp.Lexicographic.{nat_list_eq_equiv};
    ghost use Rattle.scoring.specs.Outcome.{outcome_parts, same_outcome};

    ghost eq = { same_outcome };

    ghost laws = { on_per outcome_parts (partial_equiv_from_equiv nat_list_eq_equiv) };

    fn eq(&self, other: &Outcome) -> bool {
        match self {
            Outcome::PassedOut => matches!(other, Outcome::PassedOut),
            Outcome::Played { contract, tricks } => match other {
                Outcome::PassedOut => false,
                Outcome::Played {
                    contract: bid,
                    tricks: won,
                } => contract == bid && tricks == won,
            },
        }
    }
}

impl Eq for Outcome {
    ghost use Rattle.std.specs.Cmp.{on_equiv};
    ghost use Rattle.std.specs.Cmp.Lexicographic.{nat_list_eq_equiv};
    ghost use Rattle.scoring.specs.Outcome.{outcome_parts};

    ghost laws = { on_equiv outcome_parts nat_list_eq_equiv };
}
