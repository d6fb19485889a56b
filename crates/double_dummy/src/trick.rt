ghost use Rattle.cards.specs.Play.{after, winner as won_by};
ghost use Rattle.double_dummy_laws.specs.Known.{IsKnown, IsSettled, IsTrickKnown};
ghost use Rattle.double_dummy_laws.specs.Renaming.{Ownership, knowing};
ghost use Rattle.std.specs.Prelude.{◌≡◌};
ghost use Rattle.cards.specs.declared.card.Card.{Card};
ghost use Rattle.table_terms.specs.declared.strain.Strain.{Strain};

use cards::{Card, Hand, Position, Trick};
use table_terms::Place;

/// The winning card of the trick that this card completes, where another card of its suit fell: its player leads next.
#[inline(always)]
pub fn decisive(position: &Position, card: Card, next: &Position) -> Hand
    requires { next.now ≡ after position.now card }
    ensures { (ownership : Ownership) →
        IsKnown (knowing ownership result) position.now.strain position.now.table card }
{
    // most cards complete no trick: those should not pay for a call
    let Trick::Three(_, _, _) = position.trick() else {
        return Hand::new();
    };
    decisive_of_fourth(position, card, next)
}

/// The same, for a fourth card.
#[inline(never)]
fn decisive_of_fourth(position: &Position, card: Card, next: &Position) -> Hand
    requires { next.now ≡ after position.now card }
    ensures { (ownership : Ownership) →
        IsKnown (knowing ownership result) position.now.strain position.now.table card }
{
    let Trick::Three(a, b, c) = position.trick() else {
        return Hand::new();
    };
    decisive_of(position.leader(), next.leader(), a, b, c, card)
}

/// The winning card of a trick, by who won it, where another card of its suit fell.
pub fn decisive_of(leader: Place, winner: Place, a: Card, b: Card, c: Card, d: Card) -> Hand
    ensures { (ownership : Ownership) (strain : Strain) → winner ≡ won_by strain leader a b c d →
        IsTrickKnown (knowing ownership result) strain a b c d }
{
    let second = leader.left();
    let third = second.left();
    if winner == leader {
        settled(a, b, c, d)
    } else if winner == second {
        settled(b, a, c, d)
    } else if winner == third {
        settled(c, a, b, d)
    } else {
        settled(d, a, b, c)
    }
}

/// The card, if another is of its suit.
fn settled(top: Card, a: Card, b: Card, c: Card) -> Hand
    ensures { (ownership : Ownership) → IsSettled (knowing ownership result) top a b c }
{
    let mut known = Hand::new();
    if a.suit != top.suit && b.suit != top.suit && c.suit != top.suit {
        return known;
    }
    known.insert(top);
    known
}
