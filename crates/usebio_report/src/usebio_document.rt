//! A report as an XML document.
ghost use Rattle.std.specs.Prelude.{◌≡◌, ◌≤◌, ℕ, List, IfOk, codes, length, map};
ghost use Rattle.std.specs.List.{concat};
ghost use Rattle.cards.specs.HandText.{holding_text};
ghost use Rattle.table_terms.specs.Side.{side_text};
ghost use Rattle.usebio_report.specs.UsebioText.{board_element, description_element, direction_text, element, event_element, hand_element, hands_element, line_contract, line_score, number_on, pair_element, pair_number, people_element, phase_mark, player_element, slashed_date, traveller_line, usebio_text};

use cards::Hand;
use disclosure_rules::Phase;
use movement::Movement;
use report_texts::{
    copied_text, earned_text, first_player, held_text, notice_text, percent_text, place_text,
    player_name, player_number, row_contract, row_declarer, row_score, row_tricks, second_player,
    total_text,
};
use scoring::Standing;
use session_report::{BoardReport, Player, Report, ResultRow};
use standings::RowResult;
use std::alloc::{AllocError, Global};
use table_terms::{Pair, Place, Side, Suit};
use text_writer::{TextWriter, Written, bytes_of, written_list};

/// The event with its participants and its boards, and the hands.
#[tactic(auto, unfolding(crate::specs::UsebioText::usebio_text))]
pub fn usebio_text(alloc: Global, report: &Report) -> Result<Vec<u8>, AllocError>
    ensures { IfOk result (λ text. text.items ≡ usebio_text report.now) }
{
    TextWriter::new(alloc)
        .text("<?xml version=\"1.0\" encoding=\"UTF-8\"?>\n<USEBIO Version=\"1.2\">\n<CLUB>\n")
        .part(people_element(alloc, "CLUB_NAME", notice_text(alloc, &report.title)))
        .text("</CLUB>\n")
        .part(event_element(alloc, report))
        .text("<HANDSET>\n")
        .part(all_hands(alloc, report))
        .text("</HANDSET>\n</USEBIO>\n")
        .finish()
}

fn all_hands(alloc: Global, report: &Report) -> Result<Vec<u8>, AllocError>
    ensures { IfOk result (λ text. text.items ≡ concat (map (hands_element report.now) report.now.boards)) }
{
    written_list::<HandsOfBoard, Report, BoardReport>(alloc, report, report.boards.as_slice())
}

fn all_pairs(alloc: Global, report: &Report) -> Result<Vec<u8>, AllocError>
    ensures { IfOk result (λ text. text.items ≡ concat (map (pair_element report.now) report.now.ranking)) }
{
    written_list::<PairElement, Report, Standing>(alloc, report, report.ranking.as_slice())
}

fn all_boards(alloc: Global, report: &Report) -> Result<Vec<u8>, AllocError>
    ensures { IfOk result (λ text. text.items ≡ concat (map (board_element report.now) report.now.boards)) }
{
    written_list::<BoardElement, Report, BoardReport>(alloc, report, report.boards.as_slice())
}

fn board_lines(alloc: Global, report: &Report, board: &BoardReport) -> Result<Vec<u8>, AllocError>
    ensures { IfOk result (λ text. text.items ≡ concat (map traveller_line board.now.rows)) }
{
    written_list::<TravellerLine, Report, ResultRow>(alloc, report, board.rows.as_slice())
}

struct PairElement;

struct BoardElement;

struct TravellerLine;

struct HandsOfBoard;

// An element with a text of the program's own.
fn element(
    alloc: Global,
    name: &str,
    text: Result<Vec<u8>, AllocError>,
) -> Result<Vec<u8>, AllocError>
    ensures { (within : List ℕ) → IfOk text (λ bytes. bytes.items ≡ within) →
        IfOk result (λ written. written.items ≡ element name.now within) }
{
    TextWriter::new(alloc)
        .text("<")
        .text(name)
        .text(">")
        .part(text)
        .text("</")
        .text(name)
        .text(">\n")
        .finish()
}

// An element with a text from people.
fn people_element(
    alloc: Global,
    name: &str,
    text: Result<Vec<u8>, AllocError>,
) -> Result<Vec<u8>, AllocError>
    ensures { (within : List ℕ) → IfOk text (λ bytes. bytes.items ≡ within) →
        IfOk result (λ written. written.items ≡ people_element name.now within) }
{
    match text {
        Ok(within) => escaped_element(alloc, name, &within),
        Err(refused) => Err(refused),
    }
}

fn escaped_element(alloc: Global, name: &str, within: &[u8]) -> Result<Vec<u8>, AllocError>
    ensures { IfOk result (λ written. written.items ≡ people_element name.now within.now) }
{
    TextWriter::new(alloc)
        .text("<")
        .text(name)
        .text(">")
        .escaped(within)
        .text("</")
        .text(name)
        .text(">\n")
        .finish()
}

fn event_element(alloc: Global, report: &Report) -> Result<Vec<u8>, AllocError>
    ensures { IfOk result (λ text. text.items ≡ event_element report.now) }
{
    let date = slashed_part(alloc, notice_text(alloc, &report.date));
    TextWriter::new(alloc)
        .text("<EVENT EVENT_TYPE=\"MP_PAIRS\">\n")
        .part(described(alloc, report, notice_text(alloc, &report.title)))
        .part(people_element(alloc, "DATE", date))
        .text("<PARTICIPANTS>\n")
        .part(all_pairs(alloc, report))
        .text("</PARTICIPANTS>\n")
        .part(all_boards(alloc, report))
        .text("</EVENT>\n")
        .finish()
}

fn described(
    alloc: Global,
    report: &Report,
    title: Result<Vec<u8>, AllocError>,
) -> Result<Vec<u8>, AllocError>
    ensures { (text : List ℕ) → IfOk title (λ bytes. bytes.items ≡ text) →
        IfOk result (λ written. written.items ≡ description_element report.now text) }
{
    match title {
        Ok(text) => description_element(alloc, report, &text),
        Err(refused) => Err(refused),
    }
}

// What the event is called, behind a mark where its results aren't final.
fn description_element(alloc: Global, report: &Report, title: &[u8]) -> Result<Vec<u8>, AllocError>
    ensures { IfOk result (λ written. written.items ≡ description_element report.now title.now) }
{
    TextWriter::new(alloc)
        .text("<EVENT_DESCRIPTION>")
        .text(phase_mark(report.phase))
        .escaped(title)
        .text(" (version ")
        .string(report.version.to_string(alloc))
        .text(")</EVENT_DESCRIPTION>\n")
        .finish()
}

fn phase_mark(phase: Phase) -> &'static str
    ensures { result.now ≡ phase_mark phase }
{
    match phase {
        Phase::Running => "NOT FINAL, boards are still being played: ",
        Phase::Closed => "NOT FINAL, scores may still be corrected: ",
        Phase::Final => "",
    }
}

fn slashed_part(alloc: Global, date: Result<Vec<u8>, AllocError>) -> Result<Vec<u8>, AllocError>
    ensures { (text : List ℕ) → IfOk date (λ bytes. bytes.items ≡ text) →
        IfOk result (λ written. written.items ≡ slashed_date text) }
{
    match date {
        Ok(text) => slashed_date(alloc, &text),
        Err(refused) => Err(refused),
    }
}

fn slashed_date(alloc: Global, date: &[u8]) -> Result<Vec<u8>, AllocError>
    ensures { IfOk result (λ written. written.items ≡ slashed_date date.now) }
{
    if date.len() == 10 {
        TextWriter::new(alloc)
            .bytes(&date[8..])
            .text("/")
            .bytes(&date[5..7])
            .text("/")
            .bytes(&date[..4])
            .finish()
    } else {
        let mut copy = Vec::new(alloc);
        copy.extend_from_slice(date)?;
        Ok(copy)
    }
}

impl Written<Report, Standing> for PairElement {
    ghost text = { pair_element };

    fn written(alloc: Global, report: &Report, standing: &Standing) -> Result<Vec<u8>, AllocError> {
        let first = first_player(report, standing.pair);
        let second = second_player(report, standing.pair);
        let place = place_text(alloc, report, standing);
        let points = total_text(alloc, standing.earned);
        let percentage = percent_text(alloc, standing.earned, standing.tops);
        TextWriter::new(alloc)
            .text("<PAIR>\n")
            .part(element(alloc, "PAIR_NUMBER", pair_number(alloc, standing.pair)))
            .part(element(alloc, "DIRECTION", side_value(alloc, standing.pair.side)))
            .part(element(alloc, "PLACE", place))
            .part(element(alloc, "TOTAL_SCORE", points))
            .part(element(alloc, "PERCENTAGE", percentage))
            .part(player_element(alloc, &first))
            .part(player_element(alloc, &second))
            .text("</PAIR>\n")
            .finish()
    }
}

fn player_element(alloc: Global, player: &Option<Player>) -> Result<Vec<u8>, AllocError>
    ensures { IfOk result (λ text. text.items ≡ player_element player.now) }
{
    TextWriter::new(alloc)
        .text("<PLAYER>\n")
        .part(people_element(alloc, "PLAYER_NAME", player_name(alloc, player)))
        .part(people_element(alloc, "NATIONAL_ID_NUMBER", player_number(alloc, player)))
        .text("</PLAYER>\n")
        .finish()
}

fn side_value(alloc: Global, side: Side) -> Result<Vec<u8>, AllocError>
    ensures { IfOk result (λ text. text.items ≡ side_text side) }
{
    copied_text(alloc, side.text())
}

// A number that no other pair has.
fn pair_number(alloc: Global, pair: Pair) -> Result<Vec<u8>, AllocError>
    ensures { IfOk result (λ text. text.items ≡ pair_number pair) }
{
    bytes_of(number_on(pair.side, pair.number).to_string(alloc))
}

fn number_on(side: Side, number: u8) -> u16
    ensures { result ≡ number_on side number }
{
    match side {
        Side::NorthSouth => u16::from(number),
        Side::EastWest => u16::from(Movement::MOST_TABLES) + u16::from(number),
    }
}

impl Written<Report, BoardReport> for BoardElement {
    ghost text = { board_element };

    fn written(alloc: Global, report: &Report, board: &BoardReport) -> Result<Vec<u8>, AllocError> {
        let number = bytes_of(board.number.to_string(alloc));
        TextWriter::new(alloc)
            .text("<BOARD>\n")
            .part(element(alloc, "BOARD_NUMBER", number))
            .part(board_lines(alloc, report, board))
            .text("</BOARD>\n")
            .finish()
    }
}

impl Written<Report, ResultRow> for TravellerLine {
    ghost text = { λ report row. traveller_line row };

    fn written(alloc: Global, _report: &Report, row: &ResultRow) -> Result<Vec<u8>, AllocError> {
        let ended = &row.row.result;
        let north_south = earned_text(alloc, row.earning.for_north_south);
        let east_west = earned_text(alloc, row.earning.for_east_west);
        TextWriter::new(alloc)
            .text("<TRAVELLER_LINE>\n")
            .part(element(
                alloc,
                "NS_PAIR_NUMBER",
                pair_number(alloc, row.row.north_south),
            ))
            .part(element(
                alloc,
                "EW_PAIR_NUMBER",
                pair_number(alloc, row.row.east_west),
            ))
            .part(element(alloc, "CONTRACT", line_contract(alloc, ended)))
            .part(element(alloc, "PLAYED_BY", row_declarer(alloc, ended)))
            .part(element(alloc, "TRICKS", row_tricks(alloc, ended)))
            .part(element(alloc, "SCORE", line_score(alloc, ended)))
            .part(element(alloc, "NS_MATCH_POINTS", north_south))
            .part(element(alloc, "EW_MATCH_POINTS", east_west))
            .text("</TRAVELLER_LINE>\n")
            .finish()
    }
}

fn line_contract(alloc: Global, ended: &RowResult) -> Result<Vec<u8>, AllocError>
    ensures { IfOk result (λ text. text.items ≡ line_contract ended.now) }
{
    match ended {
        RowResult::Played { .. } => row_contract(alloc, ended),
        RowResult::Ruled { .. } => Ok(Vec::new(alloc)),
    }
}

fn line_score(alloc: Global, ended: &RowResult) -> Result<Vec<u8>, AllocError>
    ensures { IfOk result (λ text. text.items ≡ line_score ended.now) }
{
    match ended {
        RowResult::Played { .. } => row_score(alloc, ended),
        RowResult::Ruled {
            north_south,
            east_west,
        } => TextWriter::new(alloc)
            .text("A")
            .number(u64::from(*north_south))
            .text("-")
            .number(u64::from(*east_west))
            .finish(),
    }
}

impl Written<Report, BoardReport> for HandsOfBoard {
    ghost text = { hands_element };

    fn written(
        alloc: Global,
        _report: &Report,
        board: &BoardReport,
    ) -> Result<Vec<u8>, AllocError> {
        let number = bytes_of(board.number.to_string(alloc));
        TextWriter::new(alloc)
            .text("<BOARD>\n")
            .part(element(alloc, "BOARD_NUMBER", number))
            .part(hand_element(alloc, Place::North, &board.deal.hand(Place::North)))
            .part(hand_element(alloc, Place::East, &board.deal.hand(Place::East)))
            .part(hand_element(alloc, Place::South, &board.deal.hand(Place::South)))
            .part(hand_element(alloc, Place::West, &board.deal.hand(Place::West)))
            .text("</BOARD>\n")
            .finish()
    }
}

fn hand_element(alloc: Global, place: Place, hand: &Hand) -> Result<Vec<u8>, AllocError>
    ensures { IfOk result (λ text. text.items ≡ hand_element place hand.now) }
{
    TextWriter::new(alloc)
        .text("<HAND>\n")
        .part(element(alloc, "DIRECTION", direction_value(alloc, place)))
        .part(suit_element(alloc, "CLUBS", hand, Suit::Clubs))
        .part(suit_element(alloc, "DIAMONDS", hand, Suit::Diamonds))
        .part(suit_element(alloc, "HEARTS", hand, Suit::Hearts))
        .part(suit_element(alloc, "SPADES", hand, Suit::Spades))
        .text("</HAND>\n")
        .finish()
}

// What a hand holds in a suit.
fn suit_element(alloc: Global, name: &str, hand: &Hand, suit: Suit) -> Result<Vec<u8>, AllocError>
    ensures { IfOk result (λ text. text.items ≡ element name.now (holding_text hand.now suit)) }
{
    element(alloc, name, held_text(alloc, hand, suit))
}

fn direction_value(alloc: Global, place: Place) -> Result<Vec<u8>, AllocError>
    ensures { IfOk result (λ text. text.items ≡ direction_text place) }
{
    copied_text(alloc, direction_text(place))
}

fn direction_text(place: Place) -> &'static str
    ensures { result.now ≡ direction_text place }
{
    match place {
        Place::North => "North",
        Place::East => "East",
        Place::South => "South",
        Place::West => "West",
    }
}
