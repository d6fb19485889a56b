ghost use Rattle.std.specs.Prelude.{◌≡◌, ◌≤◌, ◌↔◌, ℕ, true, false, IsTrue, Option, Some, None, IfSome, IfNone};
ghost use Rattle.table_terms.specs.declared.place.Place.{Place};
ghost use Rattle.pbn_records.specs.declared.fault.Fault.{Fault};
ghost use Rattle.pbn_records.specs.declared.fault.Fault.TheVariants.{BadMark, DealConflict};
ghost use Rattle.pbn_records.specs.Values.{Values, read_value};
ghost use Rattle.pbn_records.specs.MarkValue.{ReadsDealer, ReadsVulnerable, IsBadDealer, IsBadVulnerable};
ghost use Rattle.pbn_records.specs.Boards as boards_of;
ghost use Rattle.pbn_records.specs.Boards.{IsRead};
ghost use Rattle.pbn_records.specs.Faults.{DealFault, BoardFault, FaultAtTag};
ghost use Rattle.pbn_records.specs.Shown.{as_written, as_read, values_read};
ghost use Rattle.pbn_records.specs.Kept.{IsOther, KnowsDeal, Finds, HasTagFault, HasBadDealer, HasBadVulnerable};

use crate::board::Board;
use crate::deal_value::read_deal;
use crate::fault::{Fault, FaultAt, earlier};
use crate::game::UsedTags;
use crate::mark_value::{dealer, is_inherited_form, is_open, vulnerability};
use crate::number::number_within;
use crate::tag_at::TagAt;
use crate::used::Used;
use cards::Deal;
use table_terms::{Place, Vulnerability, dealer_of, vulnerability_of};

/// The board of a game, unless the game is ignored.
pub(crate) fn game_board(values: &UsedTags<'_>, boards: u8) -> Option<u8>
    ensures { result ≡ boards_of.game_board boards (values_read values.now) }
{
    let Some(deal) = &values.deal else {
        return None;
    };
    if is_open(deal.value) {
        return None;
    }
    let Some(board) = &values.board else {
        return None;
    };
    number_within(board.number, boards)
}

/// The fault of least offset of a game, by its board and what is known of that.
pub(crate) fn first_fault(
    values: &UsedTags<'_>,
    board: Option<u8>,
    known: &Option<Board>,
) -> Option<FaultAt>
    ensures { (first : Option Values) → KnowsDeal first known.now →
        Finds result (HasTagFault board first (values_read values.now)) }
{
    let of_board = tag_fault(Used::Board, &values.board, board, known);
    let of_dealer = tag_fault(Used::Dealer, &values.dealer, board, known);
    let of_vulnerable = tag_fault(Used::Vulnerable, &values.vulnerable, board, known);
    let of_deal = tag_fault(Used::Deal, &values.deal, board, known);
    earlier(
        earlier(of_board, of_dealer),
        earlier(of_vulnerable, of_deal),
    )
}

/// The fault of a tag.
fn tag_fault(
    used: Used,
    tag: &Option<TagAt<'_>>,
    board: Option<u8>,
    known: &Option<Board>,
) -> Option<FaultAt>
    ensures { (first : Option Values) → KnowsDeal first known.now →
        Finds result (FaultAtTag board first used (as_read (as_written tag.now))) }
{
    let Some(tag) = tag else {
        return None;
    };
    if is_inherited_form(tag.value) {
        return Some(FaultAt {
            offset: tag.offset,
            fault: Fault::InheritedForm,
        });
    }
    if board.is_none() {
        return None;
    }
    match board_fault(used, tag, known) {
        Some(fault) => Some(FaultAt {
            offset: tag.offset,
            fault,
        }),
        None => None,
    }
}

/// The fault of a used tag's value in a game of a board.
fn board_fault(used: Used, tag: &TagAt<'_>, known: &Option<Board>) -> Option<Fault>
    ensures some { IfSome result (λ fault. (first : Option Values) → KnowsDeal first known.now →
        BoardFault first used (read_value tag.now.value.now) fault) }
    ensures none { IfNone result ((first : Option Values) → KnowsDeal first known.now → (fault : Fault) →
        ¬ BoardFault first used (read_value tag.now.value.now) fault) }
{
    match used {
        Used::Board => None,
        Used::Dealer => mark_fault(known, is_bad_dealer(tag.value)),
        Used::Vulnerable => mark_fault(known, is_bad_vulnerable(tag.value)),
        Used::Deal => deal_fault(tag, known),
    }
}

/// The fault of a bad mark, if the board has no earlier game.
fn mark_fault(known: &Option<Board>, bad: bool) -> Option<Fault>
    ensures some { IfSome result (λ fault. (fault ≡ BadMark) × (known.now ≡ None) × (bad ≡ true)) }
    ensures none { IfNone result (known.now ≡ None → bad ≡ false) }
{
    if known.is_none() && bad {
        Some(Fault::BadMark)
    } else {
        None
    }
}

/// Whether a value is neither open nor a player's letter.
fn is_bad_dealer(value: &[u8]) -> bool
    ensures { IsTrue result ↔ IsBadDealer (read_value value.now) }
{
    if is_open(value) {
        return false;
    }
    match dealer(value) {
        Some(_) => false,
        None => true,
    }
}

/// Whether a value is neither open nor a word of a marking.
fn is_bad_vulnerable(value: &[u8]) -> bool
    ensures { IsTrue result ↔ IsBadVulnerable (read_value value.now) }
{
    if is_open(value) {
        return false;
    }
    match vulnerability(value) {
        Some(_) => false,
        None => true,
    }
}

/// The fault of a Deal's value.
fn deal_fault(tag: &TagAt<'_>, known: &Option<Board>) -> Option<Fault>
    ensures some { IfSome result (λ fault. (first : Option Values) → KnowsDeal first known.now →
        DealFault first (read_value tag.now.value.now) fault) }
    ensures none { IfNone result ((first : Option Values) → KnowsDeal first known.now → (fault : Fault) →
        ¬ DealFault first (read_value tag.now.value.now) fault) }
{
    match read_deal(tag) {
        Ok(deal) => conflict(deal, known),
        Err(fault) => Some(fault),
    }
}

/// The fault of a deal other than the known one.
fn conflict(deal: Deal, known: &Option<Board>) -> Option<Fault>
    ensures some { IfSome result (λ fault. (fault ≡ DealConflict) × IsOther known.now deal) }
    ensures none { IfNone result (¬ IsOther known.now deal) }
{
    let Some(board) = known else {
        return None;
    };
    if board.deal == deal {
        None
    } else {
        Some(Fault::DealConflict)
    }
}

/// What a board's first game says of it.
pub(crate) fn board_in(values: &UsedTags<'_>, number: u8) -> Option<Board>
    requires { 1 ≤ number }
    ensures board { IfSome result (IsRead number (values_read values.now)) }
    ensures none { IfNone result ((boards : ℕ) → boards_of.game_board boards (values_read values.now) ≡ Some number →
        (fault : Fault) × (offset : ℕ) × HasTagFault (Some number) None (values_read values.now) fault offset) }
{
    let Some(tag) = &values.deal else {
        return None;
    };
    let Ok(deal) = read_deal(tag) else {
        return None;
    };
    let Some(dealer) = dealer_in(&values.dealer, number) else {
        return None;
    };
    let Some(vulnerability) = vulnerability_in(&values.vulnerable, number) else {
        return None;
    };
    Some(Board {
        deal,
        dealer,
        vulnerability,
    })
}

/// Who deals a board.
fn dealer_in(tag: &Option<TagAt<'_>>, number: u8) -> Option<Place>
    requires { 1 ≤ number }
    ensures dealer { IfSome result (ReadsDealer number (as_read (as_written tag.now))) }
    ensures none { IfNone result (HasBadDealer (as_read (as_written tag.now))) }
{
    let Some(tag) = tag else {
        return Some(dealer_of(number));
    };
    if is_open(tag.value) {
        return Some(dealer_of(number));
    }
    dealer(tag.value)
}

/// Which sides are vulnerable on a board.
fn vulnerability_in(tag: &Option<TagAt<'_>>, number: u8) -> Option<Vulnerability>
    requires { 1 ≤ number }
    ensures vulnerability { IfSome result (ReadsVulnerable number (as_read (as_written tag.now))) }
    ensures none { IfNone result (HasBadVulnerable (as_read (as_written tag.now))) }
{
    let Some(tag) = tag else {
        return Some(vulnerability_of(number));
    };
    if is_open(tag.value) {
        return Some(vulnerability_of(number));
    }
    vulnerability(tag.value)
}
