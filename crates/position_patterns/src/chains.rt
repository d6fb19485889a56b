use crate::pattern::Remembered;
use crate::sketch::{Block, NONE, SLOTS, Slot};
use table_terms::{Place, Strain};

/// Chains of blocks whose slots point at entries of which the lengths, leader and strain have one hash: where each
/// chain begins, and all blocks.
#[derive(Drop)]
pub struct Chains {
    pub heads: Vec<u32>,
    pub blocks: Vec<Block>,
}

/// A hash of how many cards each player has of each suit, of the leader and the strain.
pub fn hash(lengths: u64, leader: Place, strain: Strain) -> u64 {
    let word = lengths ^ leader as u64 ^ (strain as u64) << 8;
    (word ^ word >> 29).wrapping_mul(0x9e37_79b9_7f4a_7c15)
}

impl Chains {
    /// Empties the chains.
    pub fn clear(&mut self) {
        self.blocks.clear();
        self.heads.fill(NONE);
    }

    /// The chain of a hash of lengths, leader and strain.
    pub fn chain(&self, hash: u64) -> usize {
        let mask = (self.heads.len() as u64).saturating_sub(1);
        ((hash >> 20) & mask) as usize
    }

    /// The first block of a chain.
    pub fn head(&self, chain: usize) -> u32 {
        if chain < self.heads.len() {
            self.heads[chain]
        } else {
            NONE
        }
    }

    /// The block after this one.
    pub fn next(&self, at: u32) -> u32 {
        let place = at as usize;
        if place < self.blocks.len() {
            self.blocks[place].next
        } else {
            NONE
        }
    }

    /// Lets a slot stand first in its chain, whose first block is this.
    pub fn to_front(&mut self, front: u32, at: u32, slot: usize) {
        let first = front as usize;
        let place = at as usize;
        if first < self.blocks.len() && place < self.blocks.len() && slot < SLOTS {
            let served = self.blocks[place].slots[slot];
            self.blocks[place].slots[slot] = self.blocks[first].slots[0];
            self.blocks[first].slots[0] = served;
        }
    }

    /// Puts an entry first in its chain: into the first block, or into a new one before it, if that finds room.
    pub fn link(&mut self, place: usize, entry: &Remembered) {
        if place >= NONE as usize {
            return;
        }
        let slot = Slot::of(entry, place as u32);
        let chain = self.chain(hash(entry.lengths(), entry.leader, entry.strain));
        let front = self.head(chain);
        let first = front as usize;
        if first < self.blocks.len() && self.blocks[first].fill(slot) {
            return;
        }
        let at = self.blocks.len();
        let block = Block::new(front, slot);
        if chain < self.heads.len() && at < NONE as usize && self.blocks.push(block).is_ok() {
            self.heads[chain] = at as u32;
        }
    }
}
