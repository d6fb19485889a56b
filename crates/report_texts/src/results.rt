//! The results on a board, as every form writes them.
ghost use Rattle.std.specs.Prelude.{◌≡◌, IfOk};
ghost use Rattle.report_texts.specs.Terms.{contract_text, doubling_text, outcome_contract, outcome_declarer, outcome_tricks, row_contract, row_declarer, row_score, row_tricks, strain_text};

use crate::players::copied_text;
use scoring::{Contract, Doubling, Outcome};
use standings::RowResult;
use std::alloc::{AllocError, Global};
use table_terms::Strain;
use text_writer::{TextWriter, bytes_of};

/// `S`, `H`, `D`, `C` or `NT`.
pub fn strain_text(strain: Strain) -> &'static str
    ensures { result.now ≡ strain_text strain }
{
    match strain {
        Strain::Spades => "S",
        Strain::Hearts => "H",
        Strain::Diamonds => "D",
        Strain::Clubs => "C",
        Strain::NoTrump => "NT",
    }
}

fn doubling_text(doubling: Doubling) -> &'static str
    ensures { result.now ≡ doubling_text doubling }
{
    match doubling {
        Doubling::Undoubled => "",
        Doubling::Doubled => "X",
        Doubling::Redoubled => "XX",
    }
}

fn contract_text(alloc: Global, contract: Contract) -> Result<Vec<u8>, AllocError>
    ensures { IfOk result (λ bytes. bytes.items ≡ contract_text contract) }
{
    TextWriter::new(alloc)
        .number(u64::from(contract.level.number()))
        .text(strain_text(contract.strain))
        .text(doubling_text(contract.doubling))
        .finish()
}

fn outcome_contract(alloc: Global, outcome: Outcome) -> Result<Vec<u8>, AllocError>
    ensures { IfOk result (λ bytes. bytes.items ≡ outcome_contract outcome) }
{
    match outcome {
        Outcome::PassedOut => copied_text(alloc, "Pass"),
        Outcome::Played { contract, .. } => contract_text(alloc, contract),
    }
}

/// The contract of a row, as `4SX`, `Pass`, or `Ruled`.
pub fn row_contract(alloc: Global, ended: &RowResult) -> Result<Vec<u8>, AllocError>
    ensures { IfOk result (λ bytes. bytes.items ≡ row_contract ended.now) }
{
    match ended {
        RowResult::Played { outcome, .. } => outcome_contract(alloc, *outcome),
        RowResult::Ruled { .. } => copied_text(alloc, "Ruled"),
    }
}

fn outcome_declarer(alloc: Global, outcome: Outcome) -> Result<Vec<u8>, AllocError>
    ensures { IfOk result (λ bytes. bytes.items ≡ outcome_declarer outcome) }
{
    match outcome {
        Outcome::PassedOut => Ok(Vec::new(alloc)),
        Outcome::Played { contract, .. } => bytes_of(contract.declarer.to_string(alloc)),
    }
}

fn outcome_tricks(alloc: Global, outcome: Outcome) -> Result<Vec<u8>, AllocError>
    ensures { IfOk result (λ bytes. bytes.items ≡ outcome_tricks outcome) }
{
    match outcome {
        Outcome::PassedOut => Ok(Vec::new(alloc)),
        Outcome::Played { tricks, .. } => bytes_of(tricks.number().to_string(alloc)),
    }
}

/// Who declared, or nothing.
pub fn row_declarer(alloc: Global, ended: &RowResult) -> Result<Vec<u8>, AllocError>
    ensures { IfOk result (λ bytes. bytes.items ≡ row_declarer ended.now) }
{
    match ended {
        RowResult::Played { outcome, .. } => outcome_declarer(alloc, *outcome),
        RowResult::Ruled { .. } => Ok(Vec::new(alloc)),
    }
}

/// How many tricks declarer's side won, or nothing.
pub fn row_tricks(alloc: Global, ended: &RowResult) -> Result<Vec<u8>, AllocError>
    ensures { IfOk result (λ bytes. bytes.items ≡ row_tricks ended.now) }
{
    match ended {
        RowResult::Played { outcome, .. } => outcome_tricks(alloc, *outcome),
        RowResult::Ruled { .. } => Ok(Vec::new(alloc)),
    }
}

/// North-South's score, or nothing.
pub fn row_score(alloc: Global, ended: &RowResult) -> Result<Vec<u8>, AllocError>
    ensures { IfOk result (λ bytes. bytes.items ≡ row_score ended.now) }
{
    match ended {
        RowResult::Played { score, .. } => bytes_of(score.to_string(alloc)),
        RowResult::Ruled { .. } => Ok(Vec::new(alloc)),
    }
}
