ghost use Rattle.std.specs.Prelude.{◌≡◌, ◌+◌, ◌*◌, ◌≤◌, [], length, Some, IfSome};
ghost use Rattle.table_terms.specs.Strain.{trump_of};
ghost use Rattle.cards.specs.Play.{cards_left};
ghost use Rattle.double_dummy_laws.specs.Found.{IsFound};

use crate::run::common;
use crate::sure::{answer, lowest_counted, opponents_cards, tricks_wanted, upwards};
use cards::Position;
use position_patterns::Finding;
use table_terms::{Place, Suit};

/// Whether North and South take so many tricks, at the beginning of a trick, where the trumps of both partners from one
/// up, less the opponents' that are as high, take as many as that needs: a player has as many trumps as these are, so
/// two of them need not fall to one trick.
pub fn by_shared_trumps(
    position: &Position,
    trump: Suit,
    holder: Place,
    target: u8,
    tricks_left: u8,
) -> Option<Finding>
    requires start { position.now.table ≡ [] }
    requires left { 4 * tricks_left ≡ cards_left position.now + length position.now.table }
    requires some { target ≤ tricks_left }
    requires trump { trump_of position.now.strain ≡ Some trump }
    ensures { IfSome result (λ found. IsFound position.now target found.known found.holds) }
{
    let wanted = tricks_wanted(holder.side(), target, tricks_left);
    let mine = position.hand(holder);
    let theirs = position.hand(holder.partner());
    // a partner without trumps adds none
    if theirs.of_suit(trump).is_empty() {
        return None;
    }
    let both = mine.union(theirs).of_suit(trump);
    let against = opponents_cards(position, holder).of_suit(trump);
    let lowest = lowest_counted(both, against, wanted)?;
    let reach = upwards(lowest);
    let counted = common(both, reach);
    if counted.len() > mine.of_suit(trump).len() {
        return None;
    }
    let beaters = common(against, reach);
    if counted.len().saturating_sub(beaters.len()) < wanted {
        return None;
    }
    Some(answer(holder.side(), counted))
}
