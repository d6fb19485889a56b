ghost use Rattle.table_terms.specs.Place.{place_number};
ghost use Rattle.cards.specs.Play.{IsApart, cards_left};
ghost use Rattle.position_patterns.specs.Tops.{HasTopCards, HasTops, IsPatternOf, IsReach, IsTruePattern, Matches, pattern_of, place_weight, tops_of};
ghost use Rattle.double_dummy_laws.specs.Found.{IsFound};
ghost use Rattle.double_dummy_laws.specs.Pattern.{IsTop, holder_of, holding};
ghost use Rattle.std.specs.Prelude.{◌≡◌, ◌<◌, ◌≤◌, ◌+◌, ◌-◌, ◌*◌, ◌%◌, ◌^◌, [], true, false, length, IsTrue, bit_and};
ghost use Rattle.std.specs.FinSet as set;
ghost use Rattle.cards.specs.declared.card.Card.{Card};
ghost use Rattle.cards.specs.Card.{number_in_pack};
ghost use Rattle.table_terms.specs.declared.suit.Suit.{Suit};

use crate::finding::Finding;
use crate::holders::Holders;
use cards::{Card, Hand, Position, Rank};
use table_terms::{Place, Strain, Suit};

/// A suit's cards that are left: who holds each, the top card's holder in the lowest digit to base 4, and how many
/// cards each player has, to base 16.
#[derive(Clone, Copy)]
pub struct SuitPattern {
    pub owners: u32,
    pub lengths: u16,
}

/// The four suits' patterns.
#[derive(Clone, Copy)]
pub struct Pattern {
    pub spades: SuitPattern,
    pub hearts: SuitPattern,
    pub diamonds: SuitPattern,
    pub clubs: SuitPattern,
}

/// The holders of so many top cards of a suit, and how many cards each player has.
#[derive(Clone, Copy)]
pub struct SuitTops {
    pub owners: u32,
    pub lengths: u16,
    pub count: u8,
}

/// What was found out of every position of a pattern.
#[derive(Clone, Copy)]
pub struct Remembered {
    pub target: u8,
    pub holds: bool,
    pub leader: Place,
    pub strain: Strain,
    pub tricks: u8,
    pub spades: SuitTops,
    pub hearts: SuitTops,
    pub diamonds: SuitTops,
    pub clubs: SuitTops,
}

pub(crate) fn place_number(place: Place) -> u32
    ensures { result ≡ place_number place }
{
    match place {
        Place::North => 0,
        Place::East => 1,
        Place::South => 2,
        Place::West => 3,
    }
}

pub(crate) fn place_weight(place: Place) -> u16
    ensures { result ≡ place_weight place }
{
    match place {
        Place::North => 1,
        Place::East => 16,
        Place::South => 256,
        Place::West => 4096,
    }
}

impl Holders {
    /// Who holds a suit's cards, and how many each player has.
    pub fn suit_pattern(&self, suit: Suit) -> SuitPattern
        ensures { IsPatternOf result (holding self.now suit) }
    {
        let mut owners = 0;
        let mut lengths = 0;
        let mut below = 0;
        while below < 13 {
            let rank = Rank::from_height(below);
            if let Some(place) = self.holder(Card { suit, rank }) {
                owners = place_number(place) + 4 * owners;
                lengths = place_weight(place) + lengths;
            }
            below += 1;
        }
        SuitPattern { owners, lengths }
    }

    /// How many of the suit's cards, from the top, there are down to the lowest known one.
    pub fn reach(&self, suit: Suit, known: Hand) -> u8
        ensures reach { IsReach known (holding self.now suit) result }
        ensures few { result ≤ 13 }
    {
        let held = self.held(suit);
        let Some(lowest) = held.difference(held.difference(known)).first() else {
            return 0;
        };
        upper(held, lowest).len() as u8
    }

    /// So many of the suit's cards, from the top.
    pub fn top_cards(&self, suit: Suit, count: u8) -> Hand
        ensures { (card : Card) → IsTop count (holding self.now suit) card → set.contains result card ≡ true }
    {
        if count == 0 {
            return Hand::new();
        }
        let held = self.held(suit);
        let tops = upper(held, from_top(held, count));
        if tops.len() < count as u32 {
            return held;
        }
        tops
    }

    /// What is to be remembered of a suit.
    fn suit_tops(&self, suit: Suit, pattern: &SuitPattern, known: Hand) -> SuitTops
        requires { IsPatternOf pattern.now (holding self.now suit) }
        ensures tops { HasTops result (holding self.now suit) }
        ensures reach { IsReach known (holding self.now suit) result.count }
    {
        let count = self.reach(suit, known);
        SuitTops {
            count,
            owners: pattern.owners & ((1 << (2 * count)) - 1),
            lengths: pattern.lengths,
        }
    }
}

/// The cards of a set from this one up, in the order of the pack.
pub(crate) fn upper(cards: Hand, lowest: Card) -> Hand
    ensures among { (card : Card) → set.contains result card ≡ true →
        (set.contains cards card ≡ true) × (number_in_pack lowest ≤ number_in_pack card) }
    ensures all { (card : Card) → set.contains cards card ≡ true → number_in_pack lowest ≤ number_in_pack card →
        set.contains result card ≡ true }
{
    if lowest.number() == 0 {
        return cards;
    }
    let first = Card {
        suit: Suit::Spades,
        rank: Rank::Two,
    };
    let below = Hand::between(first, lowest);
    cards.difference(below).without(first)
}

/// The card with which there are so many from the top, or the lowest where there are not so many, of a suit's cards: its
/// height above the lowest is found bit by bit, without a step for each card.
fn from_top(cards: Hand, count: u8) -> Card {
    let word = cards.word();
    let lowest = word.trailing_zeros().min(51);
    let held = word >> lowest;
    let mut above = 0;
    if has_many(held >> 8, count) {
        above = 8;
    }
    if has_many(held >> (above + 4), count) {
        above += 4;
    }
    if has_many(held >> (above + 2), count) {
        above += 2;
    }
    if has_many(held >> (above + 1), count) {
        above += 1;
    }
    Card::from_number((lowest + above).min(51) as u8)
}

/// Whether there are so many cards.
fn has_many(cards: u64, count: u8) -> bool {
    cards.count_ones() >= count as u32
}

impl SuitTops {
    fn has(&self, pattern: &SuitPattern) -> bool
        ensures owners { IsTrue result → pattern.now.owners % 2 ^ (2 * self.now.count) ≡ self.now.owners }
        ensures lengths { IsTrue result → pattern.now.lengths ≡ self.now.lengths }
    {
        if self.count > 13 || pattern.lengths != self.lengths {
            return false;
        }
        pattern.owners & ((1 << (2 * self.count)) - 1) == self.owners
    }
}

impl Remembered {
    /// What was found out, as of each position of the pattern.
    pub fn new(
        position: &Position,
        holders: &Holders,
        pattern: &Pattern,
        target: u8,
        finding: &Finding,
    ) -> Remembered
        requires same { holders.now ≡ position.now.hands }
        requires apart { IsApart holders.now }
        requires start { position.now.table ≡ [] }
        requires pattern { (suit : Suit) → IsPatternOf (pattern_of pattern.now suit) (holding holders.now suit) }
        requires found { IsFound position.now target finding.now.known finding.now.holds }
        ensures { IsTruePattern result }
    {
        let known = finding.known;
        Remembered {
            strain: position.strain(),
            leader: position.leader(),
            tricks: position.tricks_left(),
            spades: holders.suit_tops(Suit::Spades, &pattern.spades, known),
            hearts: holders.suit_tops(Suit::Hearts, &pattern.hearts, known),
            diamonds: holders.suit_tops(Suit::Diamonds, &pattern.diamonds, known),
            clubs: holders.suit_tops(Suit::Clubs, &pattern.clubs, known),
            target,
            holds: finding.holds,
        }
    }

    /// Whether the entry answers for so many tricks too.
    pub fn serves(&self, target: u8) -> bool
        ensures holds { IsTrue result → self.now.holds ≡ true → target ≤ self.now.target }
        ensures refused { IsTrue result → self.now.holds ≡ false → self.now.target ≤ target }
    {
        if self.holds {
            target <= self.target
        } else {
            self.target <= target
        }
    }

    /// Whether the position is of the entry's pattern.
    pub fn matches(&self, position: &Position, holders: &Holders, pattern: &Pattern) -> bool
        requires same { holders.now ≡ position.now.hands }
        requires pattern { (suit : Suit) → IsPatternOf (pattern_of pattern.now suit) (holding holders.now suit) }
        requires start { position.now.table ≡ [] }
        ensures { IsTrue result → Matches self.now position.now }
    {
        if self.leader != position.leader() {
            return false;
        }
        if self.strain != position.strain() {
            return false;
        }
        if !self.spades.has(&pattern.spades) {
            return false;
        }
        if !self.hearts.has(&pattern.hearts) {
            return false;
        }
        if !self.diamonds.has(&pattern.diamonds) {
            return false;
        }
        if self.tricks != position.tricks_left() {
            return false;
        }
        self.clubs.has(&pattern.clubs)
    }

    /// What the entry says of a position of its pattern.
    pub fn finding(&self, position: &Position, holders: &Holders) -> Finding
        requires same { holders.now ≡ position.now.hands }
        requires true_pattern { IsTruePattern self.now }
        requires matches { Matches self.now position.now }
        ensures found { IsFound position.now self.now.target result.known result.holds }
        ensures same { result.holds ≡ self.now.holds }
    {
        let spades = holders.top_cards(Suit::Spades, self.spades.count);
        let hearts = holders.top_cards(Suit::Hearts, self.hearts.count);
        let diamonds = holders.top_cards(Suit::Diamonds, self.diamonds.count);
        let clubs = holders.top_cards(Suit::Clubs, self.clubs.count);
        Finding {
            holds: self.holds,
            known: spades.union(hearts).union(diamonds.union(clubs)),
        }
    }
}
