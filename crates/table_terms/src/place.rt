ghost use Rattle.std.specs.Prelude.{◌≡◌, ◌≢◌, ◌∷◌, [], IfSome, IfNone, Some};
ghost use Rattle.table_terms.specs.Place.{place_letter, left_of, partner_of, side_of};
ghost use Rattle.table_terms.specs.declared.place.Place.{Place};

use crate::side::Side;
use std::fmt;

/// Where a player sits at the table, clockwise from North (Law 3).
#[derive(Clone, Copy, PartialEq, Eq)]
pub enum Place {
    North,
    East,
    South,
    West,
}

impl Place {
    /// The player to the left, to whom the turn passes (Law 17C, Law 44).
    pub fn left(self) -> Place
        ensures { result ≡ left_of self }
    {
        match self {
            Place::North => Place::East,
            Place::East => Place::South,
            Place::South => Place::West,
            Place::West => Place::North,
        }
    }

    /// The player opposite.
    pub fn partner(self) -> Place
        ensures { result ≡ partner_of self }
    {
        self.left().left()
    }

    /// The side that the player is of.
    pub fn side(self) -> Side
        ensures { result ≡ side_of self }
    {
        match self {
            Place::North | Place::South => Side::NorthSouth,
            Place::East | Place::West => Side::EastWest,
        }
    }

    /// `N`, `E`, `S` or `W`.
    pub fn letter(self) -> char
        ensures { result ≡ place_letter self }
    {
        match self {
            Place::North => 'N',
            Place::East => 'E',
            Place::South => 'S',
            Place::West => 'W',
        }
    }

    /// The place of a capital letter.
    pub fn from_letter(letter: char) -> Option<Place>
        ensures found { IfSome result (λ place. place_letter place ≡ letter) }
        ensures none { IfNone result ((place : Place) → place_letter place ≢ letter) }
    {
        match letter {
            'N' => Some(Place::North),
            'E' => Some(Place::East),
            'S' => Some(Place::South),
            'W' => Some(Place::West),
            _ => None,
        }
    }
}

impl fmt::Display for Place {
    ghost output = { λ place. Some (place_letter place ∷ []) };

    fn fmt<W: fmt::Write>(&self, f: &mut fmt::Formatter<W>) -> fmt::Result {
        f.write_char(self.letter())
    }
}
