ghost use Rattle.std.specs.Prelude.{◌≡◌, ◌≢◌, ◌∷◌, [], IfSome, IfNone, Some};
ghost use Rattle.table_terms.specs.Strain.{strain_letter, trump_of};
ghost use Rattle.table_terms.specs.declared.strain.Strain.{Strain};

use crate::suit::Suit;
use std::fmt;

/// What a contract names beside its level: a suit as trumps, or no trump.
#[derive(Clone, Copy, PartialEq, Eq)]
pub enum Strain {
    Spades,
    Hearts,
    Diamonds,
    Clubs,
    NoTrump,
}

impl Strain {
    /// The five strains, in the order in which a double-dummy table lists them.
    pub const ALL: [Strain; 5] = [
        Strain::Spades,
        Strain::Hearts,
        Strain::Diamonds,
        Strain::Clubs,
        Strain::NoTrump,
    ];

    /// The trump suit, if there is one.
    pub fn trump(self) -> Option<Suit>
        ensures { result ≡ trump_of self }
    {
        match self {
            Strain::Spades => Some(Suit::Spades),
            Strain::Hearts => Some(Suit::Hearts),
            Strain::Diamonds => Some(Suit::Diamonds),
            Strain::Clubs => Some(Suit::Clubs),
            Strain::NoTrump => None,
        }
    }

    /// `S`, `H`, `D`, `C`, or `N` for no trump.
    pub fn letter(self) -> char
        ensures { result ≡ strain_letter self }
    {
        match self {
            Strain::Spades => 'S',
            Strain::Hearts => 'H',
            Strain::Diamonds => 'D',
            Strain::Clubs => 'C',
            Strain::NoTrump => 'N',
        }
    }

    /// The strain of a capital letter.
    pub fn from_letter(letter: char) -> Option<Strain>
        ensures found { IfSome result (λ strain. strain_letter strain ≡ letter) }
        ensures none { IfNone result ((strain : Strain) → strain_letter strain ≢ letter) }
    {
        match letter {
            'S' => Some(Strain::Spades),
            'H' => Some(Strain::Hearts),
            'D' => Some(Strain::Diamonds),
            'C' => Some(Strain::Clubs),
            'N' => Some(Strain::NoTrump),
            _ => None,
        }
    }
}

impl fmt::Display for Strain {
    ghost output = { λ strain. Some (strain_letter strain ∷ []) };

    fn fmt<W: fmt::Write>(&self, f: &mut fmt::Formatter<W>) -> fmt::Result {
        f.write_char(self.letter())
    }
}
