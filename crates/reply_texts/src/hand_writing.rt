//! A deal, written behind a text letter by letter: its `Display`, which writes to any writer, takes four times as many instructions.

ghost use Rattle.std.specs.Prelude.{◌≡◌, ◌++◌, OnOk, string_bytes};
ghost use Rattle.cards.specs.Hands.{hand_of};
ghost use Rattle.cards.specs.HandText.{holding_text, hand_text, deal_text};

use cards::{Card, Deal, Hand, Rank};
use std::alloc::AllocError;
use table_terms::{Place, Suit};

/// The hands, clockwise from North.
pub(crate) fn push_deal(text: &mut String, deal: &Deal) -> Result<(), AllocError>
    ensures { OnOk result (string_bytes text.new ≡ string_bytes text.old ++ deal_text deal.now) }
{
    text.push_str("N:")?;
    push_dealt(text, deal, Place::North)?;
    text.push(' ')?;
    push_dealt(text, deal, Place::East)?;
    text.push(' ')?;
    push_dealt(text, deal, Place::South)?;
    text.push(' ')?;
    push_dealt(text, deal, Place::West)
}

// What a player was dealt.
fn push_dealt(text: &mut String, deal: &Deal, place: Place) -> Result<(), AllocError>
    ensures { OnOk result (string_bytes text.new ≡ string_bytes text.old ++ hand_text (hand_of deal.now place)) }
{
    push_hand(text, deal.hand(place))
}

// The suits, from the spades down.
fn push_hand(text: &mut String, hand: Hand) -> Result<(), AllocError>
    ensures { OnOk result (string_bytes text.new ≡ string_bytes text.old ++ hand_text hand) }
{
    push_holding(text, hand, Suit::Spades)?;
    text.push('.')?;
    push_holding(text, hand, Suit::Hearts)?;
    text.push('.')?;
    push_holding(text, hand, Suit::Diamonds)?;
    text.push('.')?;
    push_holding(text, hand, Suit::Clubs)
}

// The cards of a suit, from the ace down.
fn push_holding(text: &mut String, hand: Hand, suit: Suit) -> Result<(), AllocError>
    ensures { OnOk result (string_bytes text.new ≡ string_bytes text.old ++ holding_text hand suit) }
{
    for rank in &Rank::DOWN {
        if hand.contains(Card { suit, rank: *rank }) {
            text.push(rank.letter())?;
        }
    }
    Ok(())
}
