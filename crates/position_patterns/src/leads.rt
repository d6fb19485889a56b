ghost use Rattle.std.specs.Prelude.{◌<◌};

use cards::Card;
use std::alloc::{AllocError, Global};
use table_terms::Place;

// A place for each leader and each number of tricks that may be left.
const PLACES: usize = 64;

// No card has this number in the pack.
const NO_CARD: u8 = 255;

/// The leads that decided a search last: two by who led and how many tricks were left, and one by a hash of who led and
/// how many cards each player had of each suit. Most often one of them decides again, so it is tried early; nothing else
/// depends on them.
#[derive(Drop)]
pub struct Leads {
    last: [u8; PLACES],
    before: [u8; PLACES],
    alike: Vec<u8>,
}

/// Three cards by their numbers in the pack: the lead that decided last where the leader had as many cards, the one
/// before it, and the one that decided last where the players had as many cards of each suit.
#[derive(Clone, Copy)]
pub struct LastLeads {
    last: u8,
    before: u8,
    alike: u8,
}

impl Leads {
    /// No lead yet, with room for so many hashes.
    pub fn new(alloc: Global, room: usize) -> Result<Leads, AllocError> {
        Ok(Leads {
            last: [NO_CARD; PLACES],
            before: [NO_CARD; PLACES],
            alike: Vec::from_elem(alloc, NO_CARD, room)?,
        })
    }

    /// Forgets all of them.
    pub fn clear(&mut self) {
        self.last = [NO_CARD; PLACES];
        self.before = [NO_CARD; PLACES];
        self.alike.fill(NO_CARD);
    }

    /// Those of this leader with so many tricks left, and of this hash.
    pub fn of(&self, leader: Place, tricks_left: u32, hash: u64) -> LastLeads {
        let place = place(leader, tricks_left);
        LastLeads {
            last: self.last[place],
            before: self.before[place],
            alike: self.alike(hash),
        }
    }

    /// Takes in one that decided.
    pub fn push(&mut self, leader: Place, tricks_left: u32, hash: u64, card: Card) {
        let place = place(leader, tricks_left);
        let number = card.number();
        if self.last[place] != number {
            self.before[place] = self.last[place];
            self.last[place] = number;
        }
        let alike = self.place_alike(hash);
        if alike < self.alike.len() {
            self.alike[alike] = number;
        }
    }

    fn alike(&self, hash: u64) -> u8 {
        let place = self.place_alike(hash);
        if place < self.alike.len() {
            self.alike[place]
        } else {
            NO_CARD
        }
    }

    fn place_alike(&self, hash: u64) -> usize {
        let mask = (self.alike.len() as u64).saturating_sub(1);
        ((hash >> 20) & mask) as usize
    }
}

impl LastLeads {
    /// Whether the card of this number decided last.
    pub fn is_last(self, number: u8) -> bool {
        self.last == number
    }

    /// Whether it decided before that.
    pub fn is_before(self, number: u8) -> bool {
        self.before == number
    }

    /// Whether it decided last where the players had as many cards of each suit.
    pub fn is_alike(self, number: u8) -> bool {
        self.alike == number
    }
}

fn place(leader: Place, tricks_left: u32) -> usize
    ensures { result < 64 }
{
    (16 * leader as usize + tricks_left.min(15) as usize).min(PLACES - 1)
}
