ghost use Rattle.std.specs.Prelude.{◌≡◌};
ghost use Rattle.table_terms.specs.declared.strain.Strain.TheVariants.{Spades, Hearts, Diamonds, Clubs, NoTrump};
ghost use Rattle.cards.specs.DoubleDummy.{declarer_tricks};
ghost use Rattle.solver_results.specs.DdTable.{IsTricksIn, tricks_by};

use cards::Deal;
use std::marker::Model;
use table_terms::{Place, Strain};

/// The tricks that each player takes as declarer in one strain.
#[derive(Clone, Copy)]
pub struct DeclarerTricks {
    pub north: u8,
    pub east: u8,
    pub south: u8,
    pub west: u8,
}

/// A deal's double-dummy table: the tricks of each declarer in each strain. Clauses see the deal alone, since the type
/// keeps that the twenty numbers are the deal's.
#[derive(Clone, Copy)]
pub struct DdTable {
    deal: Deal,
    spades: DeclarerTricks,
    hearts: DeclarerTricks,
    diamonds: DeclarerTricks,
    clubs: DeclarerTricks,
    no_trump: DeclarerTricks,
}

impl Model for DdTable {
    ghost use Rattle.cards.specs.Hands.{Hands, hands_code};

    ghost Value = { Hands };

    ghost coded = { hands_code };

    ghost use Rattle.solver_results.specs.DdTableInside.{IsTable, dd_table_of, dd_table_of-deal};

    ghost view = { λ table. table.deal };

    ghost invariant = { IsTable };

    ghost inverse = { dd_table_of };

    ghost inverse_ok = { dd_table_of-deal };
}

impl DdTable {
    /// The table of a deal, with the tricks of the four declarers in each strain, which are the deal's.
    pub fn new(
        deal: Deal,
        spades: DeclarerTricks,
        hearts: DeclarerTricks,
        diamonds: DeclarerTricks,
        clubs: DeclarerTricks,
        no_trump: DeclarerTricks,
    ) -> DdTable
        requires spades { IsTricksIn deal Spades spades }
        requires hearts { IsTricksIn deal Hearts hearts }
        requires diamonds { IsTricksIn deal Diamonds diamonds }
        requires clubs { IsTricksIn deal Clubs clubs }
        requires no_trump { IsTricksIn deal NoTrump no_trump }
        ensures { result ≡ deal }
    {
        DdTable {
            deal,
            spades,
            hearts,
            diamonds,
            clubs,
            no_trump,
        }
    }

    /// The deal that the table is of.
    pub fn deal(&self) -> Deal
        ensures { result ≡ self.now }
    {
        self.deal
    }

    /// The tricks that a declarer takes in a strain, from the opening lead.
    pub fn tricks(&self, strain: Strain, declarer: Place) -> u8
        ensures { result ≡ declarer_tricks self.now strain declarer }
    {
        let tricks = match strain {
            Strain::Spades => self.spades,
            Strain::Hearts => self.hearts,
            Strain::Diamonds => self.diamonds,
            Strain::Clubs => self.clubs,
            Strain::NoTrump => self.no_trump,
        };
        tricks.of(declarer)
    }
}

impl DeclarerTricks {
    /// The number of this declarer.
    pub(crate) fn of(self, declarer: Place) -> u8
        ensures { result ≡ tricks_by self declarer }
    {
        match declarer {
            Place::North => self.north,
            Place::East => self.east,
            Place::South => self.south,
            Place::West => self.west,
        }
    }
}
