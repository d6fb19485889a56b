ghost use Rattle.std.specs.Prelude.{◌≡◌, ℕ, List, true, false, min, MatchOption};
ghost use Rattle.std.specs.List.{list_all};
ghost use Rattle.pbn_records.specs.Boards as board;
ghost use Rattle.pbn_pieces.specs.Pieces.{is_digit};
ghost use Rattle.pbn_records.specs.Boards.{decimal_number};

/// More than any board's number.
const OVER: u16 = 256;

/// The number of decimal digits, if it is that of a board.
pub(crate) fn board_number(digits: &[u8], boards: u8) -> Option<u8>
    ensures { result ≡ board.board_number boards digits.now }
{
    if digits.is_empty() {
        return None;
    }
    let Some(number) = capped_number(digits) else {
        return None;
    };
    match u8::try_from(number) {
        Ok(number) if 1 <= number && number <= boards => Some(number),
        _ => None,
    }
}

/// A board's number, if it isn't over `boards`.
pub(crate) fn number_within(number: Option<u8>, boards: u8) -> Option<u8>
    ensures { (digits : List ℕ) → number ≡ board.board_number 255 digits → result ≡ board.board_number boards digits }
{
    match number {
        Some(number) if number <= boards => Some(number),
        _ => None,
    }
}

/// The number of decimal digits, or `OVER` where it is more.
fn capped_number(digits: &[u8]) -> Option<u16>
    ensures { MatchOption result
        (list_all is_digit digits.now ≡ false)
        (λ number. (list_all is_digit digits.now ≡ true) × (number ≡ min (decimal_number digits.now) 256)) }
{
    let mut number: u16 = 0;
    for digit in digits {
        if !digit.is_ascii_digit() {
            return None;
        }
        number = (10 * number + u16::from(*digit - b'0')).min(OVER);
    }
    Some(number)
}
