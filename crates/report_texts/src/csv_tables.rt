//! A report as comma-separated tables.
ghost use Rattle.std.specs.Prelude.{◌≡◌, List, ℕ, IfOk, map};
ghost use Rattle.std.specs.List.{concat};
ghost use Rattle.table_terms.specs.Vulnerability.{vulnerability_text};
ghost use Rattle.report_texts.specs.CsvText.{HasFields, board_columns, board_marks, board_record, board_results, csv_text, ranking_columns, ranking_record, record_text, result_columns, result_record, occasion_columns, session_fields, with_declarer};

use crate::fields::{notice_text, tricks_field};
use crate::players::{
    copied_text, first_player, pair_names, phase_field, player_name, player_number, second_player,
};
use crate::points::{
    earned_text, east_west_percent, north_south_percent, percent_text, place_text, total_text,
};
use crate::record_writer::RecordWriter;
use crate::results::{row_contract, row_declarer, row_score, row_tricks};
use query_filter::TrickTable;
use scoring::Standing;
use session_report::{BoardReport, Report, ResultRow};
use std::alloc::{AllocError, Global};
use table_terms::{Place, Strain, Vulnerability};
use text_writer::{TextWriter, Written, bytes_of, written_list};

/// The session, its ranking, its results and its boards, each as a table with a line of column names.
#[tactic(auto, unfolding(crate::specs::CsvText::csv_text))]
pub fn csv_text(alloc: Global, report: &Report) -> Result<Vec<u8>, AllocError>
    ensures { IfOk result (λ text. text.items ≡ csv_text report.now) }
{
    TextWriter::new(alloc)
        .part(occasion_columns(alloc))
        .part(session_record(alloc, report))
        .text("\n")
        .part(ranking_columns(alloc))
        .part(ranking_lines(alloc, report))
        .text("\n")
        .part(result_columns(alloc))
        .part(all_results(alloc, report))
        .text("\n")
        .part(board_columns(alloc))
        .part(board_lines(alloc, report))
        .finish()
}

fn ranking_lines(alloc: Global, report: &Report) -> Result<Vec<u8>, AllocError>
    ensures { IfOk result (λ text. text.items ≡ concat (map (ranking_record report.now) report.now.ranking)) }
{
    written_list::<RankingLine, Report, Standing>(alloc, report, report.ranking.as_slice())
}

fn all_results(alloc: Global, report: &Report) -> Result<Vec<u8>, AllocError>
    ensures { IfOk result (λ text. text.items ≡ concat (map (board_results report.now) report.now.boards)) }
{
    written_list::<BoardResults, Report, BoardReport>(alloc, report, report.boards.as_slice())
}

fn board_lines(alloc: Global, report: &Report) -> Result<Vec<u8>, AllocError>
    ensures { IfOk result (λ text. text.items ≡ concat (map (board_record report.now) report.now.boards)) }
{
    written_list::<BoardLine, Report, BoardReport>(alloc, report, report.boards.as_slice())
}

struct RankingLine;

struct ResultLine;

struct BoardResults;

struct BoardLine;

impl Written<Report, Standing> for RankingLine {
    ghost text = { ranking_record };

    fn written(alloc: Global, report: &Report, standing: &Standing) -> Result<Vec<u8>, AllocError> {
        let first = first_player(report, standing.pair);
        let second = second_player(report, standing.pair);
        RecordWriter::new(alloc)
            .part(place_text(alloc, report, standing))
            .part(bytes_of(standing.pair.to_string(alloc)))
            .part(player_name(alloc, &first))
            .part(player_number(alloc, &first))
            .part(player_name(alloc, &second))
            .part(player_number(alloc, &second))
            .part(total_text(alloc, standing.earned))
            .part(total_text(alloc, standing.tops))
            .part(percent_text(alloc, standing.earned, standing.tops))
            .record()
    }
}

impl Written<Report, ResultRow> for ResultLine {
    ghost text = { result_record };

    fn written(alloc: Global, report: &Report, row: &ResultRow) -> Result<Vec<u8>, AllocError> {
        let ended = &row.row.result;
        RecordWriter::new(alloc)
            .part(bytes_of(row.board.to_string(alloc)))
            .part(bytes_of(row.row.table.to_string(alloc)))
            .part(bytes_of(row.row.north_south.to_string(alloc)))
            .part(pair_names(alloc, report, row.row.north_south))
            .part(bytes_of(row.row.east_west.to_string(alloc)))
            .part(pair_names(alloc, report, row.row.east_west))
            .part(row_contract(alloc, ended))
            .part(row_declarer(alloc, ended))
            .part(row_tricks(alloc, ended))
            .part(row_score(alloc, ended))
            .part(earned_text(alloc, row.earning.for_north_south))
            .part(earned_text(alloc, row.earning.for_east_west))
            .part(earned_text(alloc, row.earning.top))
            .part(north_south_percent(alloc, row))
            .part(east_west_percent(alloc, row))
            .record()
    }
}

impl Written<Report, BoardReport> for BoardResults {
    ghost text = { board_results };

    fn written(alloc: Global, report: &Report, board: &BoardReport) -> Result<Vec<u8>, AllocError> {
        written_list::<ResultLine, Report, ResultRow>(alloc, report, board.rows.as_slice())
    }
}

impl Written<Report, BoardReport> for BoardLine {
    ghost text = { board_record };

    fn written(
        alloc: Global,
        _report: &Report,
        board: &BoardReport,
    ) -> Result<Vec<u8>, AllocError> {
        let marked = marked_fields(alloc, board);
        let north = with_declarer(alloc, marked, &board.tricks, Place::North);
        let east = with_declarer(alloc, north, &board.tricks, Place::East);
        let south = with_declarer(alloc, east, &board.tricks, Place::South);
        with_declarer(alloc, south, &board.tricks, Place::West).record()
    }
}

// The number of a board, its marks and its hands.
fn marked_fields(alloc: Global, board: &BoardReport) -> RecordWriter
    ensures { HasFields result (board_marks board.now) }
{
    RecordWriter::new(alloc)
        .part(bytes_of(board.number.to_string(alloc)))
        .part(bytes_of(board.marks.dealer.to_string(alloc)))
        .part(vulnerable_field(alloc, board.marks.vulnerability))
        .part(bytes_of(board.deal.to_string(alloc)))
}

fn vulnerable_field(alloc: Global, vulnerability: Vulnerability) -> Result<Vec<u8>, AllocError>
    ensures { IfOk result (λ bytes. bytes.items ≡ vulnerability_text vulnerability) }
{
    copied_text(alloc, vulnerability.text())
}

// Adds the double-dummy numbers of a declarer.
fn with_declarer(
    alloc: Global,
    writer: RecordWriter,
    tricks: &Option<TrickTable>,
    declarer: Place,
) -> RecordWriter
    ensures { (fields : List (List ℕ)) → HasFields writer fields →
        HasFields result (with_declarer fields tricks.now declarer) }
{
    writer
        .part(tricks_field(alloc, tricks, declarer, Strain::NoTrump))
        .part(tricks_field(alloc, tricks, declarer, Strain::Spades))
        .part(tricks_field(alloc, tricks, declarer, Strain::Hearts))
        .part(tricks_field(alloc, tricks, declarer, Strain::Diamonds))
        .part(tricks_field(alloc, tricks, declarer, Strain::Clubs))
}

fn occasion_columns(alloc: Global) -> Result<Vec<u8>, AllocError>
    ensures { IfOk result (λ text. text.items ≡ record_text occasion_columns) }
{
    RecordWriter::new(alloc)
        .text("title")
        .text("date")
        .text("phase")
        .text("version")
        .record()
}

fn session_record(alloc: Global, report: &Report) -> Result<Vec<u8>, AllocError>
    ensures { IfOk result (λ text. text.items ≡ record_text (session_fields report.now)) }
{
    RecordWriter::new(alloc)
        .part(notice_text(alloc, &report.title))
        .part(notice_text(alloc, &report.date))
        .part(phase_field(alloc, report.phase))
        .part(bytes_of(report.version.to_string(alloc)))
        .record()
}

fn ranking_columns(alloc: Global) -> Result<Vec<u8>, AllocError>
    ensures { IfOk result (λ text. text.items ≡ record_text ranking_columns) }
{
    RecordWriter::new(alloc)
        .text("place")
        .text("pair")
        .text("first_player")
        .text("first_number")
        .text("second_player")
        .text("second_number")
        .text("points")
        .text("top")
        .text("percentage")
        .record()
}

fn result_columns(alloc: Global) -> Result<Vec<u8>, AllocError>
    ensures { IfOk result (λ text. text.items ≡ record_text result_columns) }
{
    RecordWriter::new(alloc)
        .text("board")
        .text("table")
        .text("ns")
        .text("ns_names")
        .text("ew")
        .text("ew_names")
        .text("contract")
        .text("declarer")
        .text("tricks")
        .text("score")
        .text("ns_points")
        .text("ew_points")
        .text("top")
        .text("ns_percentage")
        .text("ew_percentage")
        .record()
}

fn board_columns(alloc: Global) -> Result<Vec<u8>, AllocError>
    ensures { IfOk result (λ text. text.items ≡ record_text board_columns) }
{
    let marked = RecordWriter::new(alloc)
        .text("board")
        .text("dealer")
        .text("vulnerable")
        .text("deal");
    let north = marked
        .text("N_NT")
        .text("N_S")
        .text("N_H")
        .text("N_D")
        .text("N_C");
    let east = north
        .text("E_NT")
        .text("E_S")
        .text("E_H")
        .text("E_D")
        .text("E_C");
    let south = east
        .text("S_NT")
        .text("S_S")
        .text("S_H")
        .text("S_D")
        .text("S_C");
    south
        .text("W_NT")
        .text("W_S")
        .text("W_H")
        .text("W_D")
        .text("W_C")
        .record()
}
