ghost use Rattle.std.specs.Prelude.{◌≡◌, ◌<◌};
ghost use Rattle.cards.specs.Card.{number_in_pack};
ghost use Rattle.cards.specs.Rank.{height};

use crate::card::Card;
use crate::rank::Rank;
use table_terms::Suit;

impl Card {
    /// The card that stands in the pack at this number, from 0 for the two of spades to 51 for the ace of clubs.
    pub fn from_number(number: u8) -> Card
        requires { number < 52 }
        ensures { number_in_pack result ≡ number }
    {
        let suit = Suit::from_number(number / 13);
        let rank = Rank::from_height(number % 13);
        Card { suit, rank }
    }
}

impl Rank {
    /// How many ranks are below this one, from 0 for the two to 12 for the ace.
    pub fn height(self) -> u8
        ensures height { result ≡ height self }
        ensures below { result < 13 }
    {
        self as u8
    }

    /// The rank with so many below it, from 0 for the two to 12 for the ace.
    pub fn from_height(below: u8) -> Rank
        requires { below < 13 }
        ensures { height result ≡ below }
    {
        match below {
            0 => Rank::Two,
            1 => Rank::Three,
            2 => Rank::Four,
            3 => Rank::Five,
            4 => Rank::Six,
            5 => Rank::Seven,
            6 => Rank::Eight,
            7 => Rank::Nine,
            8 => Rank::Ten,
            9 => Rank::Jack,
            10 => Rank::Queen,
            11 => Rank::King,
            _ => Rank::Ace,
        }
    }
}
