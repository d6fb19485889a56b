ghost use Rattle.cards.specs.Play.{IsApart};
ghost use Rattle.table_terms.specs.declared.suit.Suit.{Suit};
ghost use Rattle.double_dummy_laws.specs.Found.{IsFound};
ghost use Rattle.double_dummy_laws.specs.Pattern.{holding};
ghost use Rattle.position_patterns.specs.Tops.{IsPatternOf, IsTruePattern, pattern_of};
ghost use Rattle.std.proofs.Props.{props};
ghost use Rattle.std.specs.Prelude.{◌≡◌, All, IfSome, []};

use crate::chains::Chains;
use crate::finding::Finding;
use crate::holders::Holders;
use crate::leads::{LastLeads, Leads};
use crate::pattern::{Pattern, Remembered};
use crate::sketch::NONE;
use cards::{Card, Position};
use std::alloc::{AllocError, Global};
use table_terms::Place;

// How many blocks of a chain are looked at.
const LONGEST: u32 = 100;

/// What was found out, by pattern: entries, and chains of blocks whose slots point at entries of which the lengths,
/// leader and strain have one hash, with the entry that served last in front. What it forgets is searched again, so the
/// chains need no proof, only the entries.
#[derive(Drop)]
pub struct Memory {
    entries: Vec<Remembered>,
    chains: Chains,
    room: usize,
    leads: Leads,
    ghost true_entries: { All IsTruePattern entries.items } by { Prim.hlevel props },
}

/// An entry that answers: its slot in the block, and what it says.
#[derive(Clone, Copy)]
struct Hit {
    slot: usize,
    finding: Finding,
}

impl Memory {
    /// Room for so many tricks: twice as many entries for each trick more, and at most 2^20: with their chains some 60 MB.
    pub fn new(alloc: Global, tricks: u8) -> Result<Memory, AllocError> {
        let tricks = tricks.min(12);
        let room = 1 << (tricks + 8);
        let heads = Vec::from_elem(alloc, NONE, room / 8)?;
        let blocks = Vec::with_capacity(alloc, room / 4)?;
        Ok(Memory {
            entries: Vec::with_capacity(alloc, room)?,
            chains: Chains { heads, blocks },
            room,
            leads: Leads::new(alloc, room / 16)?,
        })
    }

    /// Forgets everything.
    pub fn clear(&mut self) {
        self.entries.clear();
        self.chains.clear();
        self.leads.clear();
    }

    /// The leads of a player that decided last with so many tricks left, and at a pattern of this hash.
    pub fn last_leads(&self, leader: Place, tricks_left: u32, hash: u64) -> LastLeads {
        self.leads.of(leader, tricks_left, hash)
    }

    /// Takes in a lead that decided.
    pub fn push_lead(&mut self, leader: Place, tricks_left: u32, hash: u64, card: Card) {
        self.leads.push(leader, tricks_left, hash, card);
    }

    /// What is known of the position, at the beginning of a trick, if its pattern is remembered.
    pub fn find(
        &mut self,
        position: &Position,
        holders: &Holders,
        pattern: &Pattern,
        target: u8,
    ) -> Option<Finding>
        requires same { holders.now ≡ position.now.hands }
        requires pattern { (suit : Suit) → IsPatternOf (pattern_of pattern.now suit) (holding holders.now suit) }
        requires start { position.now.table ≡ [] }
        ensures { IfSome result (λ found. IsFound position.now target found.known found.holds) }
    {
        let hash = pattern.hash(position.leader(), position.strain());
        let chain = self.chains.chain(hash);
        let tops = pattern.sketch();
        let front = self.chains.head(chain);
        let mut at = front;
        for _ in 0..LONGEST {
            if at == NONE {
                return None;
            }
            if let Some(hit) = self.hit(at, tops, position, holders, pattern, target) {
                self.chains.to_front(front, at, hit.slot);
                return Some(hit.finding);
            }
            at = self.chains.next(at);
        }
        None
    }

    /// The first slot of a block whose entry answers.
    fn hit(
        &self,
        at: u32,
        tops: u32,
        position: &Position,
        holders: &Holders,
        pattern: &Pattern,
        target: u8,
    ) -> Option<Hit>
        requires same { holders.now ≡ position.now.hands }
        requires pattern { (suit : Suit) → IsPatternOf (pattern_of pattern.now suit) (holding holders.now suit) }
        requires start { position.now.table ≡ [] }
        ensures { IfSome result (λ hit. IsFound position.now target hit.finding.known hit.finding.holds) }
    {
        let place = at as usize;
        if place >= self.chains.blocks.len() {
            return None;
        }
        if !self.chains.blocks[place].may_match(tops) {
            return None;
        }
        for (slot, sketched) in self.chains.blocks[place].slots.iter().enumerate() {
            if sketched.fits(tops) {
                if let Some(finding) = self.answer(
                    sketched.entry,
                    position,
                    holders,
                    pattern,
                    target,
                ) {
                    return Some(Hit { slot, finding });
                }
            }
        }
        None
    }

    /// What an entry says of the position.
    fn answer(
        &self,
        at: u32,
        position: &Position,
        holders: &Holders,
        pattern: &Pattern,
        target: u8,
    ) -> Option<Finding>
        requires same { holders.now ≡ position.now.hands }
        requires pattern { (suit : Suit) → IsPatternOf (pattern_of pattern.now suit) (holding holders.now suit) }
        requires start { position.now.table ≡ [] }
        ensures { IfSome result (λ found. IsFound position.now target found.known found.holds) }
    {
        let place = at as usize;
        if place >= self.entries.len() {
            return None;
        }
        let entry = &self.entries[place];
        if entry.serves(target) && entry.matches(position, holders, pattern) {
            return Some(entry.finding(position, holders));
        }
        None
    }

    /// Remembers what was found out. Where there is no room for it, answers of few tricks are forgotten first.
    pub fn store(
        &mut self,
        position: &Position,
        holders: &Holders,
        pattern: &Pattern,
        target: u8,
        finding: &Finding,
    )
        requires same { holders.now ≡ position.now.hands }
        requires apart { IsApart holders.now }
        requires start { position.now.table ≡ [] }
        requires pattern { (suit : Suit) → IsPatternOf (pattern_of pattern.now suit) (holding holders.now suit) }
        requires found { IsFound position.now target finding.now.known finding.now.holds }
    {
        if self.entries.len() >= self.room || self.chains.blocks.len() >= self.room / 4 {
            self.forget();
        }
        let entry = Remembered::new(position, holders, pattern, target, finding);
        let place = self.entries.len();
        if push_entry(&mut self.entries, entry) {
            self.chains.link(place, &entry);
        }
    }

    /// Forgets the answers of few tricks, which are many and soon found again: a quarter of the room is kept at most.
    fn forget(&mut self) {
        let least = least_kept(&self.entries, self.room / 4);
        keep(&mut self.entries, least);
        self.chains.clear();
        for (place, entry) in self.entries.iter().enumerate() {
            self.chains.link(place, entry);
        }
    }
}

/// From how many tricks on there is room for the answers.
fn least_kept(entries: &[Remembered], room: usize) -> u8 {
    for least in 3..14 {
        let mut found: usize = 0;
        for entry in entries {
            if entry.tricks >= least {
                found = found.wrapping_add(1);
            }
        }
        if found <= room {
            return least;
        }
    }
    14
}

/// Keeps the entries of so many tricks and more.
fn keep(entries: &mut Vec<Remembered>, least: u8)
    requires { All IsTruePattern entries.old.items }
    ensures { All IsTruePattern entries.new.items }
{
    entries.retain(|entry| entry.tricks >= least);
}

/// Adds an entry, if it finds room.
fn push_entry(entries: &mut Vec<Remembered>, entry: Remembered) -> bool
    requires all { All IsTruePattern entries.old.items }
    requires entry { IsTruePattern entry }
    ensures { All IsTruePattern entries.new.items }
{
    match entries.push(entry) {
        Ok(()) => true,
        Err(_) => false,
    }
}
