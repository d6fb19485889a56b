use crate::chains::hash;
use crate::pattern::{Pattern, Remembered, SuitTops};
use table_terms::{Place, Strain};

// How many slots a block has: with the next block's number they fill a line of a processor's cache.
pub const SLOTS: usize = 5;

// What a slot without an entry points at, and what ends a chain.
pub const NONE: u32 = u32::MAX;

/// A sketch of an entry: the holders of its top cards, up to four of each suit. Most entries that do not match are
/// passed over by their sketch, unread; which are decides nothing but the time.
#[derive(Clone, Copy)]
pub struct Slot {
    mask: u32,
    holders: u32,
    pub entry: u32,
}

/// A few slots of a chain, and the number of the block after it.
#[derive(Clone, Copy)]
pub struct Block {
    pub next: u32,
    pub slots: [Slot; SLOTS],
}

impl Slot {
    /// The slot of an entry that lies in this place.
    pub fn of(entry: &Remembered, place: u32) -> Slot {
        let spades = few(&entry.spades);
        let hearts = few(&entry.hearts);
        let diamonds = few(&entry.diamonds);
        let clubs = few(&entry.clubs);
        let mask = spades | hearts << 8 | diamonds << 16 | clubs << 24;
        let holders = entry.spades.owners & 255
            | (entry.hearts.owners & 255) << 8
            | (entry.diamonds.owners & 255) << 16
            | (entry.clubs.owners & 255) << 24;
        Slot {
            mask,
            holders,
            entry: place,
        }
    }

    /// Whether the holders of a position's top cards may be those of the entry.
    pub fn fits(&self, tops: u32) -> bool {
        tops & self.mask == self.holders
    }
}

/// A mask for the holders of at most four top cards.
fn few(tops: &SuitTops) -> u32 {
    (1 << (2 * tops.count.min(4))) - 1
}

/// How many cards each player has of each suit, in one word: a key, of which no clause speaks.
fn four(spades: u16, hearts: u16, diamonds: u16, clubs: u16) -> u64 {
    (spades as u64) << 48 | (hearts as u64) << 32 | (diamonds as u64) << 16 | clubs as u64
}

impl Remembered {
    /// How many cards each player has of each suit.
    pub fn lengths(&self) -> u64 {
        four(
            self.spades.lengths,
            self.hearts.lengths,
            self.diamonds.lengths,
            self.clubs.lengths,
        )
    }
}

impl Pattern {
    /// How many cards each player has of each suit.
    pub fn lengths(&self) -> u64 {
        four(
            self.spades.lengths,
            self.hearts.lengths,
            self.diamonds.lengths,
            self.clubs.lengths,
        )
    }

    /// A hash of them, of the leader and the strain.
    pub fn hash(&self, leader: Place, strain: Strain) -> u64 {
        hash(self.lengths(), leader, strain)
    }

    /// The holders of four top cards of each suit.
    pub fn sketch(&self) -> u32 {
        let spades = self.spades.owners & 255;
        let hearts = self.hearts.owners & 255;
        let diamonds = self.diamonds.owners & 255;
        let clubs = self.clubs.owners & 255;
        spades | hearts << 8 | diamonds << 16 | clubs << 24
    }
}

impl Block {
    /// A block with one slot.
    pub fn new(next: u32, first: Slot) -> Block {
        let free = Slot {
            mask: 0,
            holders: 1,
            entry: NONE,
        };
        Block {
            next,
            slots: [first, free, free, free, free],
        }
    }

    /// Whether some slot's entry may match where these hold the top cards. Mostly none may, and to ask all at once takes one
    /// branch.
    pub fn may_match(&self, tops: u32) -> bool {
        let [a, b, c, d, e] = &self.slots;
        a.fits(tops) | b.fits(tops) | c.fits(tops) | d.fits(tops) | e.fits(tops)
    }

    /// Puts a slot first, where one is free.
    pub fn fill(&mut self, first: Slot) -> bool {
        for i in 0..SLOTS {
            if self.slots[i].entry == NONE {
                self.slots[i] = self.slots[0];
                self.slots[0] = first;
                return true;
            }
        }
        false
    }
}
