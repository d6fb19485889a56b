ghost use Rattle.std.specs.Prelude.{◌≡◌, ◌≤◌};
ghost use Rattle.cards.specs.Play.{strength, strongest, winner};

use crate::card::Card;
use table_terms::{Place, Strain, Suit};

/// How strong a card is in a trick to which this suit was led: a trump from 14, a card of the suit led from 1,
/// a discard 0 (Law 44E, 44F).
pub fn strength(trump: Option<Suit>, led: Suit, card: Card) -> u8
    ensures strength { result ≡ strength trump led card }
    ensures small { result ≤ 26 }
{
    if trump == Some(card.suit) {
        14 + card.rank as u8
    } else if led == card.suit {
        1 + card.rank as u8
    } else {
        0
    }
}

/// Who wins a trick, by the cards in the order in which they were played (Law 44E, 44F).
pub fn winner(
    strain: Strain,
    leader: Place,
    first: Card,
    second: Card,
    third: Card,
    fourth: Card,
) -> Place
    ensures { result ≡ winner strain leader first second third fourth }
{
    let trump = strain.trump();
    let led = first.suit;
    strongest(
        leader,
        strength(trump, led, first),
        strength(trump, led, second),
        strength(trump, led, third),
        strength(trump, led, fourth),
    )
}

#[tactic(auto, unfolding(crate::specs::Play::strongest))]
fn strongest(leader: Place, first: u8, second: u8, third: u8, fourth: u8) -> Place
    ensures { result ≡ strongest leader first second third fourth }
{
    if second <= first && third <= first && fourth <= first {
        leader
    } else if third <= second && fourth <= second {
        leader.left()
    } else if fourth <= third {
        leader.partner()
    } else {
        leader.partner().left()
    }
}
