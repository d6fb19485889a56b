use cards::{Card, Hand};
use std::alloc::Global;
use std::str::SplitWhitespace;
use table_terms::{Place, Strain};

/// Four hands, a strain, a player, and cards, as `N:AQ... .32.. 2...2 K3... N S SQ,ST` has them, with a dash for no
/// cards.
#[derive(Drop)]
pub struct Line {
    /// North's, East's, South's and West's.
    pub hands: [Hand; 4],
    pub strain: Strain,
    pub player: Place,
    pub cards: Vec<Card>,
}

/// What a line has, if it has all of that, and there is memory for its cards.
pub fn parse_line(alloc: Global, text: &str) -> Option<Line> {
    let mut words = text.split_whitespace();
    let hands = read_hands(&mut words)?;
    let strain = Strain::from_letter(read_letter(&mut words))?;
    let player = Place::from_letter(read_letter(&mut words))?;
    let cards = read_cards(alloc, words.next()?)?;
    Some(Line {
        hands,
        strain,
        player,
        cards,
    })
}

fn read_hands(words: &mut SplitWhitespace<'_>) -> Option<[Hand; 4]> {
    let north = words.next()?.strip_prefix("N:")?.parse::<Hand>().ok()?;
    Some([
        north,
        read_hand(words)?,
        read_hand(words)?,
        read_hand(words)?,
    ])
}

fn read_hand(words: &mut SplitWhitespace<'_>) -> Option<Hand> {
    words.next()?.parse::<Hand>().ok()
}

// The letter with which the next word begins, or where there is none a space, which stands for nothing.
fn read_letter(words: &mut SplitWhitespace<'_>) -> char {
    match words.next() {
        Some(word) => word.chars().next().unwrap_or(' '),
        None => ' ',
    }
}

fn read_cards(alloc: Global, word: &str) -> Option<Vec<Card>> {
    let mut cards = Vec::new(alloc);
    if word == "-" {
        return Some(cards);
    }
    for card in word.split(',') {
        if !push_card(&mut cards, card) {
            return None;
        }
    }
    Some(cards)
}

// Puts a card at the end, if it is one, and there is memory for it.
fn push_card(cards: &mut Vec<Card>, word: &str) -> bool {
    match word.parse::<Card>() {
        Ok(card) => cards.push(card).is_ok(),
        Err(_) => false,
    }
}
