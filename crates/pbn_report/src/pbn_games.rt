//! A report as an export in PBN 2.1.
ghost use Rattle.std.specs.Prelude.{◌≡◌, ◌≤◌, ◌∷◌, ◌++◌, [], List, ℕ, Some, IfOk, map, length};
ghost use Rattle.std.specs.List.{concat};
ghost use Rattle.pbn_export.specs.Export.{export_header};
ghost use Rattle.pbn_records.specs.Reads.{Reads};
ghost use Rattle.session_report.specs.Report.{AreReported};
ghost use Rattle.pbn_export.specs.Games.{board_game, unknown, vulnerable_word};
ghost use Rattle.report_texts.specs.Terms.{strain_text};
ghost use Rattle.pbn_export.specs.Tables.{game_text, row_text, tag as a_tag, game_tag_text};
ghost use Rattle.table_terms.specs.declared.strain.Strain.TheVariants.{Spades, Hearts, Diamonds, Clubs, NoTrump};
ghost use Rattle.text_writer.specs.Written.{HasWritten};
ghost use Rattle.pbn_report.specs.PbnText.{board_read, dotted_byte, dotted_date, exported_board, known_text, optimum_table, pbn_text, phase_tag, score_row, score_table, total_row, total_table, totals_game, optimum_row, optimum_rows};

use notices::NoticeText;
use pbn_export::{first_item, next_item, table, tag, vulnerable_word};
use query_filter::TrickTable;
use report_texts::{
    copied_text, earned_text, east_west_percent, north_south_percent, pair_names, percent_text,
    phase_field, place_text, row_contract, row_declarer, row_score, row_tricks, strain_text,
    total_text,
};
use scoring::Standing;
use session_report::{BoardReport, Report, ResultRow};
use std::alloc::{AllocError, Global};
use table_terms::{Place, Strain, Vulnerability};
use text_writer::{TextWriter, Written, bytes_of, written_list};

/// The boards as games, with their double-dummy numbers and their results, and behind them a game with the ranking.
pub fn pbn_text(alloc: Global, report: &Report) -> Result<Vec<u8>, AllocError>
    ensures text { IfOk result (λ text. text.items ≡ pbn_text report.now) }
    ensures read_back { AreReported 1 report.now.boards → length report.now.boards ≤ 128 →
        IfOk result (λ text. Reads text.items (length report.now.boards) (map board_read report.now.boards)) }
{
    games_text(alloc, report)
}

// The same, one after another.
#[tactic(auto, unfolding(crate::specs::PbnText::pbn_text))]
fn games_text(alloc: Global, report: &Report) -> Result<Vec<u8>, AllocError>
    ensures { IfOk result (λ text. text.items ≡ pbn_text report.now) }
{
    TextWriter::new(alloc)
        .part(header(alloc))
        .part(all_games(alloc, report))
        .part(totals_game(alloc, report))
        .finish()
}

fn all_games(alloc: Global, report: &Report) -> Result<Vec<u8>, AllocError>
    ensures { IfOk result (λ text. text.items
        ≡ concat (map (λ board. game_text (board_game board)) (map (exported_board report.now) report.now.boards))) }
{
    board_games(alloc, report, report.boards.as_slice())
}

struct BoardGame;

struct ScoreRow;

struct TotalRow;

fn header(alloc: Global) -> Result<Vec<u8>, AllocError>
    ensures { IfOk result (λ text. text.items ≡ export_header) }
{
    copied_text(alloc, "% PBN 2.1\n% EXPORT\n")
}

#[tactic(auto, using(crate::proofs::PbnLemmas::rows_listed))]
fn board_games(
    alloc: Global,
    report: &Report,
    boards: &[BoardReport],
) -> Result<Vec<u8>, AllocError>
    ensures { IfOk result (λ text. text.items
        ≡ concat (map (λ board. game_text (board_game board)) (map (exported_board report.now) boards.now))) }
{
    written_list::<BoardGame, Report, BoardReport>(alloc, report, boards)
}

impl Written<Report, BoardReport> for BoardGame {
    ghost text = { λ report board. game_text (board_game (exported_board report board)) };

    fn written(alloc: Global, report: &Report, board: &BoardReport) -> Result<Vec<u8>, AllocError> {
        let marks = board.marks;
        TextWriter::new(alloc)
            .part(tag(alloc, "Event", known_text(alloc, &report.title)))
            .part(unknown_tag(alloc, "Site"))
            .part(tag(alloc, "Date", dotted_date(alloc, &report.date)))
            .part(tag(alloc, "Board", bytes_of(board.number.to_string(alloc))))
            .part(unknown_tag(alloc, "West"))
            .part(unknown_tag(alloc, "North"))
            .part(unknown_tag(alloc, "East"))
            .part(unknown_tag(alloc, "South"))
            .part(tag(alloc, "Dealer", bytes_of(marks.dealer.to_string(alloc))))
            .part(tag(
                alloc,
                "Vulnerable",
                vulnerable_value(alloc, marks.vulnerability),
            ))
            .part(tag(alloc, "Deal", bytes_of(board.deal.to_string(alloc))))
            .part(tag(alloc, "Scoring", copied_text(alloc, "MP")))
            .part(unknown_tag(alloc, "Declarer"))
            .part(unknown_tag(alloc, "Contract"))
            .part(unknown_tag(alloc, "Result"))
            .part(optimum_table(alloc, &board.tricks))
            .part(score_table(alloc, report, board))
            .part(phase_tag(alloc, report))
            .text("\n")
            .finish()
    }
}

fn vulnerable_value(alloc: Global, vulnerability: Vulnerability) -> Result<Vec<u8>, AllocError>
    ensures { IfOk result (λ bytes. bytes.items ≡ vulnerable_word vulnerability) }
{
    copied_text(alloc, vulnerable_word(vulnerability))
}

fn unknown_tag(alloc: Global, name: &str) -> Result<Vec<u8>, AllocError>
    ensures { IfOk result (λ text. text.items ≡ game_tag_text (a_tag name.now unknown)) }
{
    tag(alloc, name, copied_text(alloc, "?"))
}

fn phase_tag(alloc: Global, report: &Report) -> Result<Vec<u8>, AllocError>
    ensures { IfOk result (λ text. text.items ≡ game_tag_text (phase_tag report.now)) }
{
    tag(alloc, "SessionPhase", phase_field(alloc, report.phase))
}

fn known_text(alloc: Global, text: &Option<NoticeText>) -> Result<Vec<u8>, AllocError>
    ensures { IfOk result (λ bytes. bytes.items ≡ known_text text.now) }
{
    match text {
        Some(text) => copied_text(alloc, text.as_str()),
        None => copied_text(alloc, "?"),
    }
}

fn dotted_date(alloc: Global, date: &Option<NoticeText>) -> Result<Vec<u8>, AllocError>
    ensures { IfOk result (λ bytes. bytes.items ≡ dotted_date date.now) }
{
    match date {
        Some(date) => dotted(alloc, date.as_str().as_bytes()),
        None => copied_text(alloc, "????.??.??"),
    }
}

fn dotted(alloc: Global, date: &[u8]) -> Result<Vec<u8>, AllocError>
    ensures { IfOk result (λ bytes. bytes.items ≡ map dotted_byte date.now) }
{
    let mut bytes = Vec::with_capacity(alloc, date.len())?;
    for byte in date {
        bytes.push(dotted_byte(*byte))?;
    }
    Ok(bytes)
}

fn dotted_byte(byte: u8) -> u8
    ensures { result ≡ dotted_byte byte }
{
    if byte == b'-' { b'.' } else { byte }
}

fn optimum_table(alloc: Global, tricks: &Option<TrickTable>) -> Result<Vec<u8>, AllocError>
    ensures { IfOk result (λ text. text.items ≡ game_tag_text (optimum_table tricks.now)) }
{
    table(
        alloc,
        "OptimumResultTable",
        "Declarer;Denomination;Result",
        found_tricks(alloc, tricks),
    )
}

fn found_tricks(alloc: Global, tricks: &Option<TrickTable>) -> Result<Vec<u8>, AllocError>
    ensures { IfOk result (λ text. text.items ≡ concat (map row_text (optimum_rows tricks.now))) }
{
    match tricks {
        Some(tricks) => optimum_rows(alloc, tricks),
        None => Ok(Vec::new(alloc)),
    }
}

fn optimum_rows(alloc: Global, tricks: &TrickTable) -> Result<Vec<u8>, AllocError>
    ensures { IfOk result (λ text. text.items ≡ concat (map row_text (optimum_rows (Some tricks.now)))) }
{
    let north = with_declarer(TextWriter::new(alloc), alloc, tricks, Place::North);
    let south = with_declarer(north, alloc, tricks, Place::South);
    let east = with_declarer(south, alloc, tricks, Place::East);
    with_declarer(east, alloc, tricks, Place::West).finish()
}

// Adds the rows of a declarer.
fn with_declarer(
    writer: TextWriter,
    alloc: Global,
    tricks: &TrickTable,
    declarer: Place,
) -> TextWriter
    ensures { (parts : List (List ℕ)) → HasWritten writer parts → HasWritten result (parts
        ++ row_text (optimum_row tricks.now declarer NoTrump) ∷ []
        ++ row_text (optimum_row tricks.now declarer Spades) ∷ []
        ++ row_text (optimum_row tricks.now declarer Hearts) ∷ []
        ++ row_text (optimum_row tricks.now declarer Diamonds) ∷ []
        ++ row_text (optimum_row tricks.now declarer Clubs) ∷ []) }
{
    writer
        .part(optimum_row(alloc, tricks, declarer, Strain::NoTrump))
        .part(optimum_row(alloc, tricks, declarer, Strain::Spades))
        .part(optimum_row(alloc, tricks, declarer, Strain::Hearts))
        .part(optimum_row(alloc, tricks, declarer, Strain::Diamonds))
        .part(optimum_row(alloc, tricks, declarer, Strain::Clubs))
}

fn strain_value(alloc: Global, strain: Strain) -> Result<Vec<u8>, AllocError>
    ensures { IfOk result (λ bytes. bytes.items ≡ strain_text strain) }
{
    copied_text(alloc, strain_text(strain))
}

fn optimum_row(
    alloc: Global,
    tricks: &TrickTable,
    declarer: Place,
    strain: Strain,
) -> Result<Vec<u8>, AllocError>
    ensures { IfOk result (λ text. text.items ≡ row_text (optimum_row tricks.now declarer strain)) }
{
    let number = bytes_of(tricks.tricks(strain, declarer).to_string(alloc));
    TextWriter::new(alloc)
        .part(first_item(alloc, bytes_of(declarer.to_string(alloc))))
        .part(next_item(alloc, strain_value(alloc, strain)))
        .part(next_item(alloc, number))
        .text("\n")
        .finish()
}

#[tactic(auto, using(crate::proofs::PbnLemmas::rows_listed))]
fn score_rows(alloc: Global, report: &Report, rows: &[ResultRow]) -> Result<Vec<u8>, AllocError>
    ensures { IfOk result (λ text. text.items ≡ concat (map row_text (map (score_row report.now) rows.now))) }
{
    written_list::<ScoreRow, Report, ResultRow>(alloc, report, rows)
}

fn score_table(alloc: Global, report: &Report, board: &BoardReport) -> Result<Vec<u8>, AllocError>
    ensures { IfOk result (λ text. text.items ≡ game_tag_text (score_table report.now board.now)) }
{
    table(
        alloc,
        "ScoreTable",
        "Table;PairId_NS;PairId_EW;Contract;Declarer;Result;Score_NS;MP_NS;MP_EW;Percentage_NS;Percentage_EW;Names_NS;Names_EW",
        score_rows(alloc, report, board.rows.as_slice()),
    )
}

impl Written<Report, ResultRow> for ScoreRow {
    ghost text = { λ report row. row_text (score_row report row) };

    fn written(alloc: Global, report: &Report, row: &ResultRow) -> Result<Vec<u8>, AllocError> {
        let ended = &row.row.result;
        let north_south = earned_text(alloc, row.earning.for_north_south);
        let east_west = earned_text(alloc, row.earning.for_east_west);
        TextWriter::new(alloc)
            .part(first_item(alloc, bytes_of(row.row.table.to_string(alloc))))
            .part(next_item(alloc, bytes_of(row.row.north_south.to_string(alloc))))
            .part(next_item(alloc, bytes_of(row.row.east_west.to_string(alloc))))
            .part(next_item(alloc, row_contract(alloc, ended)))
            .part(next_item(alloc, row_declarer(alloc, ended)))
            .part(next_item(alloc, row_tricks(alloc, ended)))
            .part(next_item(alloc, row_score(alloc, ended)))
            .part(next_item(alloc, north_south))
            .part(next_item(alloc, east_west))
            .part(next_item(alloc, north_south_percent(alloc, row)))
            .part(next_item(alloc, east_west_percent(alloc, row)))
            .part(next_item(alloc, pair_names(alloc, report, row.row.north_south)))
            .part(next_item(alloc, pair_names(alloc, report, row.row.east_west)))
            .text("\n")
            .finish()
    }
}

// The game behind the boards.
fn totals_game(alloc: Global, report: &Report) -> Result<Vec<u8>, AllocError>
    ensures { IfOk result (λ text. text.items ≡ game_text (totals_game report.now)) }
{
    let version = bytes_of(report.version.to_string(alloc));
    TextWriter::new(alloc)
        .part(tag(alloc, "Event", known_text(alloc, &report.title)))
        .part(tag(alloc, "Date", dotted_date(alloc, &report.date)))
        .part(phase_tag(alloc, report))
        .part(tag(alloc, "SessionVersion", version))
        .part(total_table(alloc, report))
        .text("\n")
        .finish()
}

fn total_table(alloc: Global, report: &Report) -> Result<Vec<u8>, AllocError>
    ensures { IfOk result (λ text. text.items ≡ game_tag_text (total_table report.now)) }
{
    table(
        alloc,
        "TotalScoreTable",
        "Rank;PairId;TotalScoreMP;TotalPercentage;Names",
        total_rows(alloc, report, report.ranking.as_slice()),
    )
}

#[tactic(auto, using(crate::proofs::PbnLemmas::rows_listed))]
fn total_rows(alloc: Global, report: &Report, ranking: &[Standing]) -> Result<Vec<u8>, AllocError>
    ensures { IfOk result (λ text. text.items ≡ concat (map row_text (map (total_row report.now) ranking.now))) }
{
    written_list::<TotalRow, Report, Standing>(alloc, report, ranking)
}

impl Written<Report, Standing> for TotalRow {
    ghost text = { λ report standing. row_text (total_row report standing) };

    fn written(alloc: Global, report: &Report, standing: &Standing) -> Result<Vec<u8>, AllocError> {
        let points = total_text(alloc, standing.earned);
        let percentage = percent_text(alloc, standing.earned, standing.tops);
        let names = pair_names(alloc, report, standing.pair);
        TextWriter::new(alloc)
            .part(first_item(alloc, place_text(alloc, report, standing)))
            .part(next_item(alloc, bytes_of(standing.pair.to_string(alloc))))
            .part(next_item(alloc, points))
            .part(next_item(alloc, percentage))
            .part(next_item(alloc, names))
            .text("\n")
            .finish()
    }
}
