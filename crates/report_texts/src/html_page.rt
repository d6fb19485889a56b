//! A report as one page of HTML without scripts.
ghost use Rattle.std.specs.Prelude.{◌≡◌, List, ℕ, IfOk, map};
ghost use Rattle.std.specs.List.{concat};
ghost use Rattle.report_texts.specs.HtmlText.{board_section, table_cell, hand_row, hands_table, html_text, name_cell, page_head, page_notice, page_title, page_top, pair_cells, phase_notice, ranking_row, ranking_table, result_heads, result_row, tricks_part, tricks_row, tricks_table};

use crate::fields::{notice_text, tricks_field};
use crate::hands::held_text;
use crate::players::{copied_text, pair_names};
use crate::points::{
    earned_text, east_west_percent, north_south_percent, percent_text, place_text, total_text,
};
use crate::results::{row_contract, row_declarer, row_score, row_tricks};
use cards::Hand;
use disclosure_rules::Phase;
use notices::NoticeText;
use query_filter::TrickTable;
use scoring::Standing;
use session_report::{BoardReport, Report, ResultRow};
use std::alloc::{AllocError, Global};
use table_terms::{Pair, Place, Strain, Suit};
use text_writer::{TextWriter, Written, bytes_of, written_list};

/// A page with the ranking, and each board with its hands, its double-dummy numbers and its results.
#[tactic(auto, unfolding(crate::specs::HtmlText::html_text))]
pub fn html_text(alloc: Global, report: &Report) -> Result<Vec<u8>, AllocError>
    ensures { IfOk result (λ text. text.items ≡ html_text report.now) }
{
    TextWriter::new(alloc)
        .part(page_head(alloc, report))
        .part(ranking_table(alloc, report))
        .text("<h2>Boards</h2>\n")
        .part(board_sections(alloc, report))
        .text("</body>\n</html>\n")
        .finish()
}

fn board_sections(alloc: Global, report: &Report) -> Result<Vec<u8>, AllocError>
    ensures { IfOk result (λ text. text.items ≡ concat (map (board_section report.now) report.now.boards)) }
{
    written_list::<BoardSection, Report, BoardReport>(alloc, report, report.boards.as_slice())
}

fn ranking_rows(alloc: Global, report: &Report) -> Result<Vec<u8>, AllocError>
    ensures { IfOk result (λ text. text.items ≡ concat (map (ranking_row report.now) report.now.ranking)) }
{
    written_list::<RankingRow, Report, Standing>(alloc, report, report.ranking.as_slice())
}

fn result_rows(alloc: Global, report: &Report, board: &BoardReport) -> Result<Vec<u8>, AllocError>
    ensures { IfOk result (λ text. text.items ≡ concat (map (result_row report.now) board.now.rows)) }
{
    written_list::<ResultRowOf, Report, ResultRow>(alloc, report, board.rows.as_slice())
}

struct RankingRow;

struct BoardSection;

struct ResultRowOf;

// A cell with a text of the program's own.
fn table_cell(alloc: Global, part: Result<Vec<u8>, AllocError>) -> Result<Vec<u8>, AllocError>
    ensures { (text : List ℕ) → IfOk part (λ bytes. bytes.items ≡ text) →
        IfOk result (λ written. written.items ≡ table_cell text) }
{
    TextWriter::new(alloc)
        .text("<td>")
        .part(part)
        .text("</td>")
        .finish()
}

// A cell with a text from people.
fn name_cell(alloc: Global, part: Result<Vec<u8>, AllocError>) -> Result<Vec<u8>, AllocError>
    ensures { (text : List ℕ) → IfOk part (λ bytes. bytes.items ≡ text) →
        IfOk result (λ written. written.items ≡ name_cell text) }
{
    match part {
        Ok(text) => escaped_cell(alloc, &text),
        Err(refused) => Err(refused),
    }
}

fn escaped_cell(alloc: Global, text: &[u8]) -> Result<Vec<u8>, AllocError>
    ensures { IfOk result (λ written. written.items ≡ name_cell text.now) }
{
    TextWriter::new(alloc)
        .text("<td class='name'>")
        .escaped(text)
        .text("</td>")
        .finish()
}

fn page_head(alloc: Global, report: &Report) -> Result<Vec<u8>, AllocError>
    ensures { IfOk result (λ text. text.items ≡ page_head report.now) }
{
    TextWriter::new(alloc)
        .part(titled_top(alloc, page_title(alloc, &report.title)))
        .part(dated_notice(alloc, report, notice_text(alloc, &report.date)))
        .finish()
}

fn titled_top(alloc: Global, title: Result<Vec<u8>, AllocError>) -> Result<Vec<u8>, AllocError>
    ensures { (text : List ℕ) → IfOk title (λ bytes. bytes.items ≡ text) →
        IfOk result (λ written. written.items ≡ page_top text) }
{
    match title {
        Ok(text) => page_top(alloc, &text),
        Err(refused) => Err(refused),
    }
}

// The page up to its heading.
fn page_top(alloc: Global, title: &[u8]) -> Result<Vec<u8>, AllocError>
    ensures { IfOk result (λ written. written.items ≡ page_top title.now) }
{
    TextWriter::new(alloc)
        .text("<!DOCTYPE html>\n<html lang='en'>\n<head>\n<meta charset='utf-8'>\n<title>")
        .escaped(title)
        .text(
            "</title>\n<style>\nbody { font-family: sans-serif; }\ntable { border-collapse: collapse; margin: 1em 0; }\n",
        )
        .text(
            "td, th { border: 1px solid #999; padding: 0.2em 0.5em; text-align: right; }\n.name { text-align: left; }\n",
        )
        .text("</style>\n</head>\n<body>\n<h1>")
        .escaped(title)
        .text("</h1>\n")
        .finish()
}

fn dated_notice(
    alloc: Global,
    report: &Report,
    date: Result<Vec<u8>, AllocError>,
) -> Result<Vec<u8>, AllocError>
    ensures { (text : List ℕ) → IfOk date (λ bytes. bytes.items ≡ text) →
        IfOk result (λ written. written.items ≡ page_notice report.now text) }
{
    match date {
        Ok(text) => page_notice(alloc, report, &text),
        Err(refused) => Err(refused),
    }
}

// The day, how far the session has come, and its version.
fn page_notice(alloc: Global, report: &Report, date: &[u8]) -> Result<Vec<u8>, AllocError>
    ensures { IfOk result (λ written. written.items ≡ page_notice report.now date.now) }
{
    TextWriter::new(alloc)
        .text("<p>")
        .escaped(date)
        .text("</p>\n<p>")
        .text(phase_notice(report.phase))
        .text(" Version ")
        .string(report.version.to_string(alloc))
        .text(".</p>\n")
        .finish()
}

fn page_title(alloc: Global, title: &Option<NoticeText>) -> Result<Vec<u8>, AllocError>
    ensures { IfOk result (λ bytes. bytes.items ≡ page_title title.now) }
{
    match title {
        Some(title) => copied_text(alloc, title.as_str()),
        None => copied_text(alloc, "Results"),
    }
}

fn phase_notice(phase: Phase) -> &'static str
    ensures { result.now ≡ phase_notice phase }
{
    match phase {
        Phase::Running => "These results are not final: boards are still being played.",
        Phase::Closed => "These results are not final: scores may still be corrected.",
        Phase::Final => "Final results.",
    }
}

fn ranking_table(alloc: Global, report: &Report) -> Result<Vec<u8>, AllocError>
    ensures { IfOk result (λ text. text.items ≡ ranking_table report.now) }
{
    TextWriter::new(alloc)
        .text("<h2>Ranking</h2>\n<table>\n")
        .text(
            "<tr><th>Place</th><th>Pair</th><th>Names</th><th>Points</th><th>Top</th><th>%</th></tr>\n",
        )
        .part(ranking_rows(alloc, report))
        .text("</table>\n")
        .finish()
}

impl Written<Report, Standing> for RankingRow {
    ghost text = { ranking_row };

    fn written(alloc: Global, report: &Report, standing: &Standing) -> Result<Vec<u8>, AllocError> {
        let place = place_text(alloc, report, standing);
        let names = pair_names(alloc, report, standing.pair);
        let points = total_text(alloc, standing.earned);
        let top = total_text(alloc, standing.tops);
        let percentage = percent_text(alloc, standing.earned, standing.tops);
        TextWriter::new(alloc)
            .text("<tr>")
            .part(table_cell(alloc, place))
            .part(table_cell(alloc, bytes_of(standing.pair.to_string(alloc))))
            .part(name_cell(alloc, names))
            .part(table_cell(alloc, points))
            .part(table_cell(alloc, top))
            .part(table_cell(alloc, percentage))
            .text("</tr>\n")
            .finish()
    }
}

impl Written<Report, BoardReport> for BoardSection {
    ghost text = { board_section };

    fn written(alloc: Global, report: &Report, board: &BoardReport) -> Result<Vec<u8>, AllocError> {
        TextWriter::new(alloc)
            .text("<h3>Board ")
            .string(board.number.to_string(alloc))
            .text("</h3>\n<p>Dealer ")
            .string(board.marks.dealer.to_string(alloc))
            .text(", vulnerable: ")
            .text(board.marks.vulnerability.text())
            .text("</p>\n")
            .part(hands_table(alloc, board))
            .part(tricks_part(alloc, &board.tricks))
            .text("<table class='results'>\n")
            .part(result_heads(alloc))
            .part(result_rows(alloc, report, board))
            .text("</table>\n")
            .finish()
    }
}

fn hands_table(alloc: Global, board: &BoardReport) -> Result<Vec<u8>, AllocError>
    ensures { IfOk result (λ text. text.items ≡ hands_table board.now) }
{
    TextWriter::new(alloc)
        .text("<table class='hands'>\n")
        .text(
            "<tr><th></th><th>&spades;</th><th>&hearts;</th><th>&diams;</th><th>&clubs;</th></tr>\n",
        )
        .part(hand_row(alloc, Place::North, &board.deal.hand(Place::North)))
        .part(hand_row(alloc, Place::East, &board.deal.hand(Place::East)))
        .part(hand_row(alloc, Place::South, &board.deal.hand(Place::South)))
        .part(hand_row(alloc, Place::West, &board.deal.hand(Place::West)))
        .text("</table>\n")
        .finish()
}

fn hand_row(alloc: Global, place: Place, hand: &Hand) -> Result<Vec<u8>, AllocError>
    ensures { IfOk result (λ text. text.items ≡ hand_row place hand.now) }
{
    TextWriter::new(alloc)
        .text("<tr><th>")
        .string(place.to_string(alloc))
        .text("</th>")
        .part(table_cell(alloc, held_text(alloc, hand, Suit::Spades)))
        .part(table_cell(alloc, held_text(alloc, hand, Suit::Hearts)))
        .part(table_cell(alloc, held_text(alloc, hand, Suit::Diamonds)))
        .part(table_cell(alloc, held_text(alloc, hand, Suit::Clubs)))
        .text("</tr>\n")
        .finish()
}

// Nothing where the board isn't solved.
fn tricks_part(alloc: Global, tricks: &Option<TrickTable>) -> Result<Vec<u8>, AllocError>
    ensures { IfOk result (λ text. text.items ≡ tricks_part tricks.now) }
{
    match tricks {
        Some(_) => tricks_table(alloc, tricks),
        None => Ok(Vec::new(alloc)),
    }
}

fn tricks_table(alloc: Global, tricks: &Option<TrickTable>) -> Result<Vec<u8>, AllocError>
    ensures { IfOk result (λ text. text.items ≡ tricks_table tricks.now) }
{
    TextWriter::new(alloc)
        .text("<table class='tricks'>\n")
        .text("<tr><th></th><th>NT</th><th>S</th><th>H</th><th>D</th><th>C</th></tr>\n")
        .part(tricks_row(alloc, tricks, Place::North))
        .part(tricks_row(alloc, tricks, Place::East))
        .part(tricks_row(alloc, tricks, Place::South))
        .part(tricks_row(alloc, tricks, Place::West))
        .text("</table>\n")
        .finish()
}

fn tricks_row(
    alloc: Global,
    tricks: &Option<TrickTable>,
    declarer: Place,
) -> Result<Vec<u8>, AllocError>
    ensures { IfOk result (λ text. text.items ≡ tricks_row tricks.now declarer) }
{
    TextWriter::new(alloc)
        .text("<tr><th>")
        .string(declarer.to_string(alloc))
        .text("</th>")
        .part(table_cell(
            alloc,
            tricks_field(alloc, tricks, declarer, Strain::NoTrump),
        ))
        .part(table_cell(alloc, tricks_field(alloc, tricks, declarer, Strain::Spades)))
        .part(table_cell(alloc, tricks_field(alloc, tricks, declarer, Strain::Hearts)))
        .part(table_cell(
            alloc,
            tricks_field(alloc, tricks, declarer, Strain::Diamonds),
        ))
        .part(table_cell(alloc, tricks_field(alloc, tricks, declarer, Strain::Clubs)))
        .text("</tr>\n")
        .finish()
}

fn result_heads(alloc: Global) -> Result<Vec<u8>, AllocError>
    ensures { IfOk result (λ text. text.items ≡ result_heads) }
{
    TextWriter::new(alloc)
        .text(
            "<tr><th>Table</th><th>NS</th><th>Names</th><th>EW</th><th>Names</th><th>Contract</th><th>By</th>",
        )
        .text(
            "<th>Tricks</th><th>Score</th><th>NS points</th><th>EW points</th><th>NS %</th><th>EW %</th></tr>\n",
        )
        .finish()
}

// A pair with its names.
fn pair_cells(alloc: Global, report: &Report, pair: Pair) -> Result<Vec<u8>, AllocError>
    ensures { IfOk result (λ text. text.items ≡ pair_cells report.now pair) }
{
    let names = pair_names(alloc, report, pair);
    TextWriter::new(alloc)
        .part(table_cell(alloc, bytes_of(pair.to_string(alloc))))
        .part(name_cell(alloc, names))
        .finish()
}

impl Written<Report, ResultRow> for ResultRowOf {
    ghost text = { result_row };

    fn written(alloc: Global, report: &Report, row: &ResultRow) -> Result<Vec<u8>, AllocError> {
        let ended = &row.row.result;
        let north_south = earned_text(alloc, row.earning.for_north_south);
        let east_west = earned_text(alloc, row.earning.for_east_west);
        TextWriter::new(alloc)
            .text("<tr>")
            .part(table_cell(alloc, bytes_of(row.row.table.to_string(alloc))))
            .part(pair_cells(alloc, report, row.row.north_south))
            .part(pair_cells(alloc, report, row.row.east_west))
            .part(table_cell(alloc, row_contract(alloc, ended)))
            .part(table_cell(alloc, row_declarer(alloc, ended)))
            .part(table_cell(alloc, row_tricks(alloc, ended)))
            .part(table_cell(alloc, row_score(alloc, ended)))
            .part(table_cell(alloc, north_south))
            .part(table_cell(alloc, east_west))
            .part(table_cell(alloc, north_south_percent(alloc, row)))
            .part(table_cell(alloc, east_west_percent(alloc, row)))
            .text("</tr>\n")
            .finish()
    }
}
