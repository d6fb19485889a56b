ghost use Rattle.std.specs.Prelude.{◌≡◌, ◌↔◌, IsTrue, IfOk, OnErr, Some};
ghost use Rattle.cards.specs.Hands.{IsDeal, hand_of};
ghost use Rattle.cards.specs.FourHands.{NoTwoShare};
ghost use Rattle.std.specs.FinSet as set;
ghost use Rattle.cards.specs.HandText.{deal_text};

use crate::hand::Hand;
use std::fmt;
use std::marker::Model;
use table_terms::Place;
use thiserror::Error;

/// The cards as they were dealt: thirteen to each player (Laws 1 and 6).
#[derive(Clone, Copy, PartialEq, Eq)]
pub struct Deal {
    north: Hand,
    east: Hand,
    south: Hand,
    west: Hand,
}

impl Model for Deal {
    ghost use Rattle.cards.specs.Hands.{Hands, hands_code, IsDeal};

    ghost Value = { Hands };

    ghost coded = { hands_code };

    ghost view = { λ deal. record { north = deal.north; east = deal.east; south = deal.south; west = deal.west } };

    ghost invariant = { λ deal. IsDeal (record { north = deal.north; east = deal.east; south = deal.south; west = deal.west }) };

    ghost inverse = { λ hands. record { north = hands.north; east = hands.east; south = hands.south; west = hands.west } };
}

/// Four hands that are no deal: one has other than thirteen cards, or two have a card in common.
#[derive(Clone, Copy, Debug, Error)]
#[error("not a deal")]
pub struct NotADeal;

impl Deal {
    /// The deal of four hands, if they are one.
    pub fn new(north: Hand, east: Hand, south: Hand, west: Hand) -> Result<Deal, NotADeal>
        ensures ok { IfOk result (λ deal. deal ≡ record { north = north; east = east; south = south; west = west }) }
        ensures deal { IfOk result IsDeal }
        ensures err { OnErr result (¬ IsDeal (record { north = north; east = east; south = south; west = west })) }
    {
        if !all_have_thirteen(north, east, south, west) {
            return Err(NotADeal);
        }
        if !no_two_share(north, east, south, west) {
            return Err(NotADeal);
        }
        Ok(Deal {
            north,
            east,
            south,
            west,
        })
    }

    /// What a player was dealt.
    pub fn hand(self, place: Place) -> Hand
        ensures hand { result ≡ hand_of self place }
        ensures deal { IsDeal self }
    {
        match place {
            Place::North => self.north,
            Place::East => self.east,
            Place::South => self.south,
            Place::West => self.west,
        }
    }
}

/// The hands clockwise from North, with a space between them, as `N:.63.AKQ987.A9732 A8654.KQ5.T.QJT6 ..`.
impl fmt::Display for Deal {
    ghost output = { λ deal. Some (deal_text deal) };

    fn fmt<W: fmt::Write>(&self, f: &mut fmt::Formatter<W>) -> fmt::Result {
        let north = self.north;
        let east = self.east;
        let south = self.south;
        let west = self.west;
        write!(f, "N:{north} {east} {south} {west}")
    }
}

fn all_have_thirteen(north: Hand, east: Hand, south: Hand, west: Hand) -> bool
    ensures { IsTrue result
        ↔ ((set.len north ≡ 13) × (set.len east ≡ 13) × (set.len south ≡ 13) × (set.len west ≡ 13)) }
{
    north.len() == 13 && east.len() == 13 && south.len() == 13 && west.len() == 13
}

pub(crate) fn no_two_share(north: Hand, east: Hand, south: Hand, west: Hand) -> bool
    ensures { IsTrue result ↔ NoTwoShare (record { north = north; east = east; south = south; west = west }) }
{
    north.is_disjoint(east)
        && north.is_disjoint(south)
        && north.is_disjoint(west)
        && east.is_disjoint(south)
        && east.is_disjoint(west)
        && south.is_disjoint(west)
}
