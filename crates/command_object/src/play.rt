//! The cards of a board as a message has them.

ghost use Rattle.std.specs.Prelude.{◌≡◌, Some, IfOk, IfErr};
ghost use Rattle.serde_json.specs.Find.{get};
ghost use Rattle.serde_json.specs.View.{view, items_view};
ghost use Rattle.json_fields.specs.Reading.{wanted, Fails, Gives};
ghost use Rattle.command_object.specs.Play.{card_named, card_of, cards_of_items, cards_by, play};

use cards::{Card, Play};
use json_fields::RequestFault;
use serde_json::Value;
use std::alloc::Global;

fn card_named(text: &str) -> Option<Card>
    ensures { result ≡ card_named text.now }
{
    match text.parse::<Card>() {
        Ok(card) => Some(card),
        Err(_) => None,
    }
}

#[tactic(auto, unfolding(crate::specs::Play::card_of))]
fn card_of(value: &Value) -> Result<Card, RequestFault>
    ensures { result ≡ wanted (card_of (view value.now)) }
{
    match value.as_str() {
        Some(text) => card_named(text).ok_or(RequestFault::BadField),
        None => Err(RequestFault::BadField),
    }
}

fn cards_of_items(alloc: Global, list: &[Value]) -> Result<Vec<Card>, RequestFault>
    ensures cards { IfOk result (λ cards. cards_of_items (items_view list.now) ≡ Some cards.items) }
    ensures fault { IfErr result (λ fault. Fails fault (wanted (cards_of_items (items_view list.now)))) }
{
    let mut cards = Vec::new(alloc);
    for value in list {
        let card = card_of(value)?;
        cards.push(card)?;
    }
    Ok(cards)
}

// The play of a list of cards, which is looked at only where it isn't too long.
#[tactic(auto, using(json_fields::proofs::ListLemmas::item_count_of, crate::proofs::MemberLemmas::cards_as_many))]
fn play_in(alloc: Global, list: &[Value]) -> Result<Play, RequestFault>
    ensures { Gives result (wanted (cards_by (Some (items_view list.now)))) }
{
    if list.len() > Play::MOST {
        return Err(RequestFault::BadField);
    }
    let cards = cards_of_items(alloc, list)?;
    Play::new(cards.as_slice()).ok_or(RequestFault::BadField)
}

/// The cards of a board, by the member `play`: none where nothing stands there.
#[tactic(auto, unfolding(crate::specs::Play::play_by))]
pub fn read_play(alloc: Global, value: &Value) -> Result<Play, RequestFault>
    ensures { Gives result (wanted (play.value (get play.name (view value.now)))) }
{
    let Some(member) = value.get("play") else {
        return Ok(Play::none());
    };
    match member.as_array() {
        Some(list) => play_in(alloc, list.as_slice()),
        None => Err(RequestFault::BadField),
    }
}
