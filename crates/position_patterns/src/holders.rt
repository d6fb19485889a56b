ghost use Rattle.std.specs.Prelude.{◌≡◌};
ghost use Rattle.std.specs.FinSet as set;
ghost use Rattle.cards.specs.Hands.{IsDeal};
ghost use Rattle.cards.specs.Play.{IsApart, is_of};
ghost use Rattle.position_patterns.specs.Remainder.{IsAmong, IsPartOf, all_held};
ghost use Rattle.double_dummy_laws.specs.Pattern.{holder_of};

use cards::{Card, Deal, Hand, Position};
use std::marker::Model;
use table_terms::{Place, Suit};

/// What the four players hold.
#[derive(Clone, Copy)]
pub struct Holders {
    north: Hand,
    east: Hand,
    south: Hand,
    west: Hand,
}

impl Model for Holders {
    ghost use Rattle.cards.specs.Hands.{Hands, hands_code};

    ghost Value = { Hands };

    ghost coded = { hands_code };

    ghost view = { λ holders. record {
      north = holders.north;
      east = holders.east;
      south = holders.south;
      west = holders.west;
    } };

    ghost inverse = { λ hands. record {
      north = hands.north;
      east = hands.east;
      south = hands.south;
      west = hands.west;
    } };
}

impl Holders {
    /// The four hands of a position.
    pub fn of(position: &Position) -> Holders
        ensures hands { result ≡ position.now.hands }
        ensures apart { IsApart result }
    {
        Holders {
            north: position.hand(Place::North),
            east: position.hand(Place::East),
            south: position.hand(Place::South),
            west: position.hand(Place::West),
        }
    }

    /// The four hands of a deal.
    pub fn dealt(deal: Deal) -> Holders
        ensures hands { result ≡ deal }
        ensures deal { IsDeal deal }
        ensures apart { IsApart result }
    {
        Holders {
            north: deal.hand(Place::North),
            east: deal.hand(Place::East),
            south: deal.hand(Place::South),
            west: deal.hand(Place::West),
        }
    }

    /// Who holds the card.
    #[tactic(auto, unfolding(double_dummy_laws::specs::Pattern::holder_of))]
    pub fn holder(&self, card: Card) -> Option<Place>
        ensures { result ≡ holder_of self.now card }
    {
        if self.north.contains(card) {
            Some(Place::North)
        } else if self.east.contains(card) {
            Some(Place::East)
        } else if self.south.contains(card) {
            Some(Place::South)
        } else if self.west.contains(card) {
            Some(Place::West)
        } else {
            None
        }
    }

    /// All cards that are held.
    pub fn all(&self) -> Hand
        ensures { result ≡ all_held self.now }
    {
        self.north
            .union(self.east)
            .union(self.south.union(self.west))
    }

    /// The suit's cards that are held.
    pub fn held(&self, suit: Suit) -> Hand
        ensures { result ≡ set.retain (all_held self.now) (is_of suit) }
    {
        self.all().of_suit(suit)
    }

    /// The hands with only these cards.
    pub fn part(&self, cards: Hand) -> Holders
        ensures cards { IsAmong result cards self.now }
        ensures part { IsPartOf result self.now }
    {
        Holders {
            north: self.north.difference(self.north.difference(cards)),
            east: self.east.difference(self.east.difference(cards)),
            south: self.south.difference(self.south.difference(cards)),
            west: self.west.difference(self.west.difference(cards)),
        }
    }
}
