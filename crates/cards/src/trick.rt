ghost use Rattle.std.specs.Prelude.{◌≡◌, ◌<◌, ◌≤◌, List, IfSome, IfNone, length};
ghost use Rattle.cards.specs.Play.{legal_of, following, is_of, table_after, turn, played_by, one_for};
ghost use Rattle.cards.specs.Trick.{cards_in};
ghost use Rattle.std.specs.FinSet as set;

use crate::card::Card;
use crate::hand::Hand;
use table_terms::{Place, Suit};

/// A trick under way: the cards on the table, in the order in which they were played.
#[derive(Clone, Copy, PartialEq, Eq)]
pub enum Trick {
    Empty,
    One(Card),
    Two(Card, Card),
    Three(Card, Card, Card),
}

impl Trick {
    /// The trick of these cards, if they are at most three.
    pub fn from_cards(cards: &[Card]) -> Option<Trick>
        ensures trick { IfSome result (λ trick. cards_in trick ≡ cards.now) }
        ensures none { IfNone result (3 < length cards.now) }
    {
        match cards {
            [] => Some(Trick::Empty),
            [first] => Some(Trick::One(*first)),
            [first, second] => Some(Trick::Two(*first, *second)),
            [first, second, third] => Some(Trick::Three(*first, *second, *third)),
            _ => None,
        }
    }

    /// How many cards are on the table.
    pub fn len(self) -> u32
        ensures cards { result ≡ length (cards_in self) }
        ensures few { result ≤ 3 }
    {
        match self {
            Trick::Empty => 0,
            Trick::One(_) => 1,
            Trick::Two(_, _) => 2,
            Trick::Three(_, _, _) => 3,
        }
    }

    /// The cards as a set.
    pub fn cards(self) -> Hand
        ensures { result ≡ set.from_list (cards_in self) }
    {
        let mut cards = Hand::new();
        match self {
            Trick::Empty => {}
            Trick::One(a) => cards.insert(a),
            Trick::Two(a, b) => {
                cards.insert(b);
                cards.insert(a);
            }
            Trick::Three(a, b, c) => {
                cards.insert(c);
                cards.insert(b);
                cards.insert(a);
            }
        }
        cards
    }

    /// The player who plays next to a trick with this leader.
    pub fn turn(self, leader: Place) -> Place
        ensures { result ≡ turn leader (cards_in self) }
    {
        match self {
            Trick::Empty => leader,
            Trick::One(_) => leader.left(),
            Trick::Two(_, _) => leader.partner(),
            Trick::Three(_, _, _) => leader.partner().left(),
        }
    }

    /// The cards of a hand that may be played to the trick (Law 44A to 44D).
    pub fn legal(self, hand: Hand) -> Hand
        ensures { result ≡ legal_of hand (cards_in self) }
    {
        match self {
            Trick::Empty => hand,
            Trick::One(led) => following(hand, led.suit),
            Trick::Two(led, _) => following(hand, led.suit),
            Trick::Three(led, _, _) => following(hand, led.suit),
        }
    }

    /// The trick with one card more; a fourth one completes it, and the next is empty.
    pub fn after(self, card: Card) -> Trick
        ensures { cards_in result ≡ table_after (cards_in self) card }
    {
        match self {
            Trick::Empty => Trick::One(card),
            Trick::One(first) => Trick::Two(first, card),
            Trick::Two(first, second) => Trick::Three(first, second, card),
            Trick::Three(_, _, _) => Trick::Empty,
        }
    }

    /// How many of the cards a player has played, in a trick with this leader.
    pub fn played_by(self, leader: Place, place: Place) -> u32
        ensures played { result ≡ played_by leader (cards_in self) place }
        ensures few { result ≤ 3 }
    {
        let second = leader.left();
        let third = leader.partner();
        match self {
            Trick::Empty => 0,
            Trick::One(_) => one_for(leader, place),
            Trick::Two(_, _) => one_for(leader, place) + one_for(second, place),
            Trick::Three(_, _, _) => one_for(leader, place)
                + one_for(second, place)
                + one_for(third, place),
        }
    }
}

/// The cards of the hand in the suit led, or the whole hand where it has none.
fn following(hand: Hand, led: Suit) -> Hand
    ensures { result ≡ following hand (set.retain hand (is_of led)) }
{
    let held = hand.of_suit(led);
    if held.is_empty() { hand } else { held }
}

fn one_for(player: Place, place: Place) -> u32
    ensures one { result ≡ one_for player place }
    ensures few { result ≤ 1 }
{
    if player == place { 1 } else { 0 }
}
