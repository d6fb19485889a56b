ghost use Rattle.std.specs.Prelude.{◌≡◌, ◌+◌, ◌*◌, ◌<◌, ◌≤◌, ◌↔◌, true, false, [], length, IfOk, OnOk, OnErr, IsTrue};
ghost use Rattle.std.specs.FinSet as set;
ghost use Rattle.cards.specs.Card.{card_cmp};
ghost use Rattle.cards.specs.Cards.{AreDisjoint};
ghost use Rattle.cards.specs.Hands.{hand_of};
ghost use Rattle.cards.specs.Play.{start, to_play, legal, after, point, leader_after, played_by, cards_left, IsPosition};
ghost use Rattle.cards.specs.Trick.{cards_in};
ghost use Rattle.table_terms.specs.declared.place.Place.TheVariants.{North, East, South, West};

use crate::card::Card;
use crate::deal::{Deal, no_two_share};
use crate::hand::Hand;
use crate::law44::winner;
use crate::trick::Trick;
use std::marker::Model;
use table_terms::{Place, Side, Strain};
use thiserror::Error;

/// What the players hold and what lies on the table at a moment of the play.
#[derive(Clone, Copy)]
pub struct Position {
    north: Hand,
    east: Hand,
    south: Hand,
    west: Hand,
    strain: Strain,
    leader: Place,
    trick: Trick,
}

impl Model for Position {
    ghost use Rattle.cards.specs.Play.{Position, position_code, IsPosition};

    ghost Value = { Position };

    ghost coded = { position_code };

    ghost use Rattle.cards.specs.Position.{position_of};
    ghost use Rattle.cards.specs.Trick.{trick_of, trick_of-cards_in};

    ghost view = { position_of };

    ghost invariant = { λ p. IsPosition (position_of p) };

    ghost inverse = { λ p. record {
      north = p.hands.north;
      east = p.hands.east;
      south = p.hands.south;
      west = p.hands.west;
      strain = p.strain;
      leader = p.leader;
      trick = trick_of p.table;
    } };

    ghost inverse_ok = { λ p valid i. record {
      north = p.north;
      east = p.east;
      south = p.south;
      west = p.west;
      strain = p.strain;
      leader = p.leader;
      trick = trick_of-cards_in p.trick i;
    } };
}

/// Hands and cards on the table that are no position: a card is in two places, more than three are on the table, or the
/// hands are not equal once each card on the table is counted to its player.
#[derive(Clone, Copy, Debug, Error)]
#[error("not a position")]
pub struct NotAPosition;

/// A card that the player in turn does not hold, or that does not follow suit although another would (Law 44C).
#[derive(Clone, Copy, Debug, Error)]
#[error("not a legal card")]
pub struct NotLegal;

impl Position {
    /// The position in which declarer's left-hand opponent is to lead to the first trick (Law 41A).
    pub fn start(deal: Deal, strain: Strain, declarer: Place) -> Position
        ensures { result ≡ start deal strain declarer }
    {
        Position {
            north: deal.hand(Place::North),
            east: deal.hand(Place::East),
            south: deal.hand(Place::South),
            west: deal.hand(Place::West),
            strain,
            leader: declarer.left(),
            trick: Trick::Empty,
        }
    }

    /// The position of these hands and these cards on the table, the leader's first.
    pub fn new(
        north: Hand,
        east: Hand,
        south: Hand,
        west: Hand,
        strain: Strain,
        leader: Place,
        table: &[Card],
    ) -> Result<Position, NotAPosition>
        ensures ok { IfOk result (λ position. position ≡ record {
          hands = record { north = north; east = east; south = south; west = west };
          strain = strain;
          leader = leader;
          table = table.now;
        }) }
        ensures position { IfOk result IsPosition }
        ensures err { OnErr result (¬ IsPosition (record {
          hands = record { north = north; east = east; south = south; west = west };
          strain = strain;
          leader = leader;
          table = table.now;
        })) }
    {
        let Some(trick) = Trick::from_cards(table) else {
            return Err(NotAPosition);
        };
        if !no_two_share(north, east, south, west) {
            return Err(NotAPosition);
        }
        let held = north.union(east).union(south.union(west));
        if !are_elsewhere(trick, held) {
            return Err(NotAPosition);
        }
        if !are_equal(north, east, south, west, leader, trick) {
            return Err(NotAPosition);
        }
        Ok(Position {
            north,
            east,
            south,
            west,
            strain,
            leader,
            trick,
        })
    }

    /// What a player still holds.
    pub fn hand(&self, place: Place) -> Hand
        ensures hand { result ≡ hand_of self.now.hands place }
        ensures position { IsPosition self.now }
    {
        match place {
            Place::North => self.north,
            Place::East => self.east,
            Place::South => self.south,
            Place::West => self.west,
        }
    }

    pub fn strain(&self) -> Strain
        ensures { result ≡ self.now.strain }
    {
        self.strain
    }

    /// Who led to the trick, or is to lead to it.
    pub fn leader(&self) -> Place
        ensures { result ≡ self.now.leader }
    {
        self.leader
    }

    /// The cards on the table.
    pub fn trick(&self) -> Trick
        ensures { cards_in result ≡ self.now.table }
    {
        self.trick
    }

    /// How many tricks are still to be completed, with the one under way.
    pub fn tricks_left(&self) -> u8
        ensures quarter { 4 * result ≡ cards_left self.now + length self.now.table }
        ensures some { 0 < result → 0 < cards_left self.now }
        ensures position { IsPosition self.now }
    {
        let held = self.north.len() + self.east.len() + self.south.len() + self.west.len();
        ((held + self.trick.len()) / 4) as u8
    }

    /// Whose turn it is to play.
    pub fn to_play(&self) -> Place
        requires { 0 < cards_left self.now }
        ensures { result ≡ to_play self.now }
    {
        self.trick.turn(self.leader)
    }

    /// The cards that may be played (Law 44A to 44D).
    pub fn legal_cards(&self) -> Hand
        ensures { result ≡ legal self.now }
    {
        let place = self.trick.turn(self.leader);
        self.trick.legal(self.hand(place))
    }

    /// Whether a card may be played.
    pub fn legal(&self, card: Card) -> bool
        ensures { result ≡ set.contains (legal self.now) card }
    {
        self.legal_cards().contains(card)
    }

    /// Plays a card for the player in turn.
    pub fn play(&mut self, card: Card) -> Result<(), NotLegal>
        ensures legal { OnOk result (set.contains (legal self.old) card ≡ true) }
        ensures played { OnOk result (self.new ≡ after self.old card) }
        ensures refused { OnErr result (set.contains (legal self.old) card ≡ false) }
        ensures unchanged { OnErr result (self.new ≡ self.old) }
    {
        if !self.legal(card) {
            return Err(NotLegal);
        }
        *self = self.after(card);
        Ok(())
    }

    /// The position after a legal card. A search asks for millions: within its caller nothing of it is written twice.
    #[inline(always)]
    pub fn after(&self, card: Card) -> Position
        requires { set.contains (legal self.now) card ≡ true }
        ensures { result ≡ after self.now card }
    {
        let leader = self.leader_after(card);
        Position {
            north: self.north.without(card),
            east: self.east.without(card),
            south: self.south.without(card),
            west: self.west.without(card),
            strain: self.strain,
            leader,
            trick: self.trick.after(card),
        }
    }

    fn leader_after(&self, card: Card) -> Place
        ensures { result ≡ leader_after self.now.strain self.now.leader self.now.table card }
    {
        match self.trick {
            Trick::Three(a, b, c) => winner(self.strain, self.leader, a, b, c, card),
            _ => self.leader,
        }
    }

    /// 1 where the card completes a trick that North and South win, else 0.
    pub fn point(&self, card: Card) -> u8
        ensures point { result ≡ point self.now card }
        ensures small { result ≤ 1 }
    {
        let Trick::Three(a, b, c) = self.trick else {
            return 0;
        };
        match winner(self.strain, self.leader, a, b, c, card).side() {
            Side::NorthSouth => 1,
            Side::EastWest => 0,
        }
    }
}

/// Whether no card of the trick is held, and no two are the same.
fn are_elsewhere(trick: Trick, held: Hand) -> bool
    ensures { IsTrue result
        ↔ ((set.len (set.from_list {R = card_cmp} (cards_in trick)) ≡ length (cards_in trick))
        × AreDisjoint (set.from_list (cards_in trick)) held) }
{
    let cards = trick.cards();
    cards.len() == trick.len() && cards.is_disjoint(held)
}

/// Whether the players have as many cards each, with those on the table.
fn are_equal(north: Hand, east: Hand, south: Hand, west: Hand, leader: Place, trick: Trick) -> bool
    ensures { IsTrue result
        ↔ ((set.len east + played_by leader (cards_in trick) East ≡ set.len north + played_by leader (cards_in trick) North)
        × (set.len south + played_by leader (cards_in trick) South ≡ set.len north + played_by leader (cards_in trick) North)
        × (set.len west + played_by leader (cards_in trick) West ≡ set.len north + played_by leader (cards_in trick) North)) }
{
    let count = north.len() + trick.played_by(leader, Place::North);
    east.len() + trick.played_by(leader, Place::East) == count
        && south.len() + trick.played_by(leader, Place::South) == count
        && west.len() + trick.played_by(leader, Place::West) == count
}
