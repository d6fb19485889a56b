ghost use Rattle.std.specs.Prelude.{◌≡◌, ◌≢◌, ◌<◌, ◌∷◌, [], IfSome, IfNone, Some};
ghost use Rattle.table_terms.specs.Suit.{suit_letter, suit_number};
ghost use Rattle.table_terms.specs.declared.suit.Suit.{Suit};

use std::fmt;

/// A suit of the pack (Law 1), in the order in which a hand is written.
#[derive(Clone, Copy, PartialEq, Eq)]
pub enum Suit {
    Spades,
    Hearts,
    Diamonds,
    Clubs,
}

impl Suit {
    /// The suit's number in the order of a written hand, from 0 for spades to 3 for clubs.
    pub fn number(self) -> u8
        ensures number { result ≡ suit_number self }
        ensures below { result < 4 }
    {
        self as u8
    }

    /// The suit at this number, from 0 for spades to 3 for clubs.
    pub fn from_number(number: u8) -> Suit
        requires { number < 4 }
        ensures { suit_number result ≡ number }
    {
        match number {
            0 => Suit::Spades,
            1 => Suit::Hearts,
            2 => Suit::Diamonds,
            _ => Suit::Clubs,
        }
    }

    /// `S`, `H`, `D` or `C`.
    pub fn letter(self) -> char
        ensures { result ≡ suit_letter self }
    {
        match self {
            Suit::Spades => 'S',
            Suit::Hearts => 'H',
            Suit::Diamonds => 'D',
            Suit::Clubs => 'C',
        }
    }

    /// The suit of a capital letter.
    pub fn from_letter(letter: char) -> Option<Suit>
        ensures found { IfSome result (λ suit. suit_letter suit ≡ letter) }
        ensures none { IfNone result ((suit : Suit) → suit_letter suit ≢ letter) }
    {
        match letter {
            'S' => Some(Suit::Spades),
            'H' => Some(Suit::Hearts),
            'D' => Some(Suit::Diamonds),
            'C' => Some(Suit::Clubs),
            _ => None,
        }
    }
}

impl fmt::Display for Suit {
    ghost output = { λ suit. Some (suit_letter suit ∷ []) };

    fn fmt<W: fmt::Write>(&self, f: &mut fmt::Formatter<W>) -> fmt::Result {
        f.write_char(self.letter())
    }
}
