//! What a hand holds in a suit, as every form writes it.
ghost use Rattle.std.specs.Prelude.{◌≡◌, ◌∷◌, ◌++◌, [], cond, IfOk, OnOk, string_bytes};
ghost use Rattle.cards.specs.HandText.{holding_text};
ghost use Rattle.cards.specs.Rank.{rank_letter};

use cards::{Card, Hand, Rank};
use std::alloc::{AllocError, Global};
use table_terms::Suit;
use text_writer::bytes_of;

/// The letters of the ranks from the ace down; nothing for a void.
pub fn held_text(alloc: Global, hand: &Hand, suit: Suit) -> Result<Vec<u8>, AllocError>
    ensures { IfOk result (λ bytes. bytes.items ≡ holding_text hand.now suit) }
{
    bytes_of(held_letters(alloc, *hand, suit))
}

fn held_letters(alloc: Global, hand: Hand, suit: Suit) -> Result<String, AllocError>
    ensures { IfOk result (λ text. string_bytes text ≡ holding_text hand suit) }
{
    let mut letters = String::new(alloc);
    for rank in &Rank::DOWN {
        let held = hand.contains(Card { suit, rank: *rank });
        push_if(&mut letters, held, *rank)?;
    }
    Ok(letters)
}

// Adds the letter of a rank that is held.
fn push_if(letters: &mut String, held: bool, rank: Rank) -> Result<(), AllocError>
    ensures { OnOk result (string_bytes letters.new ≡ string_bytes letters.old ++ cond held (rank_letter rank ∷ []) []) }
{
    if held {
        letters.push(rank.letter())?;
    }
    Ok(())
}
