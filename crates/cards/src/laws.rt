//! What follows from the definitions alone: each function here has nothing to do, and its clauses are the theorem.
ghost use Rattle.std.specs.Prelude.{◌≡◌, ◌+◌, ◌<◌, ◌≤◌, ◌↔◌, true, ℕ, List, Result, Ok, IsTrue};
ghost use Rattle.std.specs.FinSet as set;
ghost use Rattle.cards.specs.declared.hand_reading.NotAHand.{NotAHand};
ghost use Rattle.cards.specs.declared.deal_reading.DealTextError.{DealTextError};
ghost use Rattle.cards.specs.Cards.{Cards, are_same};
ghost use Rattle.cards.specs.Play.{Position, legal, after, cards_left, IsPosition};
ghost use Rattle.cards.specs.declared.card.Card.{Card};
ghost use Rattle.cards.specs.Hands.{Hands, IsDeal};
ghost use Rattle.cards.specs.HandText.{hand_text, deal_text};
ghost use Rattle.cards.specs.HandReading.{IsHandText, IsDealText, ReadsHand, ReadsDeal};

/// Two hands are found equal exactly where they have the same cards.
#[tactic(auto, using(crate::proofs::CardBitsLemmas::are_same_decides))]
pub fn equal_hands_are_one()
    ensures { (one other : Cards) → IsTrue (are_same one other) ↔ (one ≡ other) }
{}

/// What is written of a hand is read as that hand.
pub fn a_hand_reads_what_it_writes()
    ensures { (cards : Cards) → IsHandText cards (hand_text cards) }
{}

/// No text is that of two hands.
pub fn a_text_is_one_hand()
    ensures { (one other : Cards) (text : List ℕ) →
        IsHandText one text → IsHandText other text → one ≡ other }
{}

/// What is written of four hands is read as those hands.
pub fn a_deal_reads_what_it_writes()
    ensures { (hands : Hands) → IsDealText hands (deal_text hands) }
{}

/// No text is that of two deals.
pub fn a_text_is_one_deal()
    ensures { (one other : Hands) (text : List ℕ) →
        IsDealText one text → IsDealText other text → one ≡ other }
{}

/// A hand that is written is read back, and so no hand's own text is refused.
pub fn a_written_hand_is_read_back()
    ensures { (hand : Cards) (read : Result Cards NotAHand) →
        ReadsHand (hand_text hand) read → read ≡ Ok hand }
{}

/// A deal that is written is read back.
pub fn a_written_deal_is_read_back()
    ensures { (deal : Hands) (read : Result Hands DealTextError) →
        IsDeal deal → ReadsDeal (deal_text deal) read → read ≡ Ok deal }
{}

/// While cards are left the player in turn has a legal one, and it leads to a position with one card fewer.
pub fn a_deal_can_be_played_out()
    ensures legal { (p : Position) → IsPosition p → 0 < cards_left p →
        (card : Card) × (set.contains (legal p) card ≡ true) }
    ensures position { (p : Position) (card : Card) →
        IsPosition p → set.contains (legal p) card ≡ true → IsPosition (after p card) }
    ensures fewer { (p : Position) (card : Card) →
        IsPosition p → set.contains (legal p) card ≡ true → cards_left (after p card) + 1 ≡ cards_left p }
{}
