ghost use Rattle.std.specs.Prelude.{◌≡◌};
ghost use Rattle.query_filter.specs.TrickTable.{strain_tricks, tricks_of};

use table_terms::{Place, Strain};

/// The double-dummy tricks of the four declarers in one strain.
#[derive(Clone, Copy)]
pub struct StrainTricks {
    pub north: u8,
    pub east: u8,
    pub south: u8,
    pub west: u8,
}

/// The twenty numbers of a double-dummy table.
#[derive(Clone, Copy)]
pub struct TrickTable {
    pub spades: StrainTricks,
    pub hearts: StrainTricks,
    pub diamonds: StrainTricks,
    pub clubs: StrainTricks,
    pub no_trump: StrainTricks,
}

impl TrickTable {
    /// The tricks of a declarer in a strain.
    pub fn tricks(&self, strain: Strain, declarer: Place) -> u8
        ensures { result ≡ tricks_of self.now strain declarer }
    {
        let tricks = match strain {
            Strain::Spades => self.spades,
            Strain::Hearts => self.hearts,
            Strain::Diamonds => self.diamonds,
            Strain::Clubs => self.clubs,
            Strain::NoTrump => self.no_trump,
        };
        tricks.of(declarer)
    }
}

impl StrainTricks {
    /// The tricks of this declarer.
    pub fn of(self, declarer: Place) -> u8
        ensures { result ≡ strain_tricks self declarer }
    {
        match declarer {
            Place::North => self.north,
            Place::East => self.east,
            Place::South => self.south,
            Place::West => self.west,
        }
    }
}
