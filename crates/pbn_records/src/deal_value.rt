ghost use Rattle.std.specs.Prelude.{◌≡◌, ◌≢◌, ◌↔◌, ◌⊎◌, ℕ, List, [], ◌∷◌, ◌++◌, All, count_by, nat_eq, codes, length, None, IsTrue, IfSome, IfNone, IfOk, IfErr, OnOk};
ghost use Rattle.table_terms.specs.declared.place.Place.{Place};
ghost use Rattle.cards.specs.Cards.{Cards};
ghost use Rattle.cards.specs.Hands.{Hands, IsDeal};
ghost use Rattle.cards.specs.FourHands.{clockwise_from};
ghost use Rattle.cards.specs.HandReading.{IsHandText};
ghost use Rattle.pbn_records.specs.Bytes.{dot};
ghost use Rattle.pbn_records.specs.DealValue.{parts, HasParts, IsDealOf, IsDealValue, IsRankLetter, IsHandForm, IsPart, AreHidden, IsHiddenValue};
ghost use Rattle.pbn_records.specs.Faults.{DealFault};

use crate::fault::Fault;
use crate::parts::{DealParts, deal_parts};
use crate::tag_at::TagAt;
use cards::{Deal, Hand, NotADeal, Rank};
use std::str;
use table_terms::Place;

/// The deal of a tag's value.
pub(crate) fn read_deal(tag: &TagAt<'_>) -> Result<Deal, Fault>
    ensures deal { IfOk result (λ deal. IsDealValue deal tag.now.value.now) }
    ensures shown { OnOk result (¬ IsHiddenValue tag.now.value.now) }
    ensures fault { IfErr result (DealFault None tag.now.value.now) }
{
    let Some(parts) = deal_parts(tag) else {
        return Err(Fault::BadDeal);
    };
    if are_hidden(&parts) {
        return Err(Fault::HiddenHand);
    }
    match deal_of(&parts) {
        Some(deal) => Ok(deal),
        None => Err(Fault::BadDeal),
    }
}

/// Whether some hand isn't shown, and the others have a hand's form.
fn are_hidden(parts: &DealParts<'_>) -> bool
    ensures { IsTrue result ↔ AreHidden parts.now.own.now parts.now.left.now parts.now.opposite.now parts.now.right.now }
{
    (is_hyphen(parts.own)
        || is_hyphen(parts.left)
        || is_hyphen(parts.opposite)
        || is_hyphen(parts.right))
        && is_part(parts.own)
        && is_part(parts.left)
        && is_part(parts.opposite)
        && is_part(parts.right)
}

/// The deal, if each part is a hand's text and they are a deal.
fn deal_of(parts: &DealParts<'_>) -> Option<Deal>
    ensures deal { IfSome result (λ deal. IsDealOf deal parts.now.first parts.now.own.now parts.now.left.now parts.now.opposite.now parts.now.right.now) }
    ensures none { IfNone result ((hands : Hands) → ¬ IsDealOf hands parts.now.first parts.now.own.now parts.now.left.now parts.now.opposite.now parts.now.right.now) }
{
    let Some(own) = read_hand(parts.own) else {
        return None;
    };
    let Some(left) = read_hand(parts.left) else {
        return None;
    };
    let Some(opposite) = read_hand(parts.opposite) else {
        return None;
    };
    let Some(right) = read_hand(parts.right) else {
        return None;
    };
    deal_from(parts.first, own, left, opposite, right)
}

/// The deal of four hands clockwise from a player's, if they are one.
fn deal_from(first: Place, own: Hand, left: Hand, opposite: Hand, right: Hand) -> Option<Deal>
    ensures hands { IfSome result (λ deal. deal ≡ clockwise_from first own left opposite right) }
    ensures deal { IfSome result IsDeal }
    ensures none { IfNone result (¬ IsDeal (clockwise_from first own left opposite right)) }
{
    let deal = match first {
        Place::North => Deal::new(own, left, opposite, right),
        Place::East => Deal::new(right, own, left, opposite),
        Place::South => Deal::new(opposite, right, own, left),
        Place::West => Deal::new(left, opposite, right, own),
    };
    match deal {
        Ok(deal) => Some(deal),
        Err(NotADeal) => None,
    }
}

/// The hand of a part.
fn read_hand(part: &[u8]) -> Option<Hand>
    ensures hand { IfSome result (λ hand. IsHandText hand part.now) }
    ensures none { IfNone result ((cards : Cards) → ¬ IsHandText cards part.now) }
{
    let Ok(text) = str::from_utf8(part) else {
        return None;
    };
    match text.parse::<Hand>() {
        Ok(hand) => Some(hand),
        Err(_) => None,
    }
}

/// Whether a part stands for a hand that isn't shown.
fn is_hyphen(part: &[u8]) -> bool
    ensures { IsTrue result ↔ (part.now ≡ codes "-") }
{
    *part == *b"-".as_slice()
}

/// Whether a part is a hand that isn't shown, or has the form of one that is.
fn is_part(part: &[u8]) -> bool
    ensures { IsTrue result ↔ IsPart part.now }
{
    is_hyphen(part) || is_hand_form(part)
}

/// Whether a part is four lists of rank letters with a dot between them.
fn is_hand_form(part: &[u8]) -> bool
    ensures { IsTrue result ↔ IsHandForm part.now }
{
    has_rank_letters_and_dots(part) && dots(part) == 3
}

fn has_rank_letters_and_dots(part: &[u8]) -> bool
    ensures { IsTrue result ↔ All (λ byte. (byte ≡ dot) ⊎ IsRankLetter byte) part.now }
{
    part.iter()
        .all(|byte| *byte == b'.' || is_rank_letter(*byte))
}

fn dots(part: &[u8]) -> usize
    ensures { result ≡ count_by (nat_eq dot) part.now }
{
    part.iter().filter(|byte| **byte == b'.').count()
}

fn is_rank_letter(byte: u8) -> bool
    ensures { IsTrue result ↔ IsRankLetter byte }
{
    match Rank::from_letter(char::from(byte.to_ascii_uppercase())) {
        Some(_) => true,
        None => false,
    }
}
