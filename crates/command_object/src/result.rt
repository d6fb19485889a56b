//! How a board ended, as a message has it.

ghost use Rattle.std.specs.Prelude.{◌≡◌, [], Some};
ghost use Rattle.serde_json.specs.Find.{get};
ghost use Rattle.serde_json.specs.View.{view};
ghost use Rattle.json_fields.specs.Form.{formed};
ghost use Rattle.command_object.specs.Result.{doubled, level, tricks_won, played_contract, text_or_played, outcome};

use json_fields::{doubling_numbered, has_only, read_declarer, read_strain, small_number_at};
use scoring::{Contract, Doubling, Level, Outcome, Tricks};
use serde_json::Value;

/// How often a contract was doubled, by the member `doubled`.
pub fn doubling_of(value: &Value) -> Option<Doubling>
    ensures { result ≡ doubled.value (get doubled.name (view value.now)) }
{
    doubling_numbered(small_number_at(value, "doubled")?)
}

/// The level of a contract, by the member `level`.
pub fn level_of(value: &Value) -> Option<Level>
    ensures { result ≡ level.value (get level.name (view value.now)) }
{
    Level::new(small_number_at(value, "level")?)
}

fn tricks_of(value: &Value) -> Option<Tricks>
    ensures { result ≡ tricks_won.value (get tricks_won.name (view value.now)) }
{
    Tricks::new(small_number_at(value, "tricks")?)
}

fn played_of(value: &Value) -> Option<Outcome>
    ensures { result ≡ formed [] played_contract (view value.now) }
{
    if !has_only(value, &["by", "doubled", "level", "strain", "tricks"]) {
        return None;
    }
    let declarer = read_declarer(value)?;
    let doubling = doubling_of(value)?;
    let level = level_of(value)?;
    let strain = read_strain(value)?;
    let tricks = tricks_of(value)?;
    let contract = Contract {
        level,
        strain,
        declarer,
        doubling,
    };
    Some(Outcome::Played { contract, tricks })
}

fn passed_out(text: &str, value: &Value) -> Option<Outcome>
    ensures { result ≡ text_or_played (Some text.now) (view value.now) }
{
    if text == "pass" {
        Some(Outcome::PassedOut)
    } else {
        None
    }
}

#[tactic(auto, unfolding(crate::specs::Result::outcome_by))]
pub(crate) fn outcome_at(value: &Value) -> Option<Outcome>
    ensures { result ≡ outcome.value (get outcome.name (view value.now)) }
{
    let Some(member) = value.get("result") else {
        return None;
    };
    match member.as_str() {
        Some(text) => passed_out(text, member),
        None => played_of(member),
    }
}
