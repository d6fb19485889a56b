//! The names of players, and how far a session has come, as every form writes them.
ghost use Rattle.std.specs.Prelude.{◌≡◌, ◌∷◌, [], IfOk, codes};
ghost use Rattle.std.specs.List.{concat};
ghost use Rattle.report_texts.specs.Terms.{first_player, names_by, pair_names, phase_text, player_in, player_name, player_number, second_player, text_or_empty, name_told};

use disclosure_rules::{Phase, Seat};
use session_report::{Player, Report};
use std::alloc::{AllocError, Global};
use table_terms::{Pair, Place, Side};
use text_writer::TextWriter;
use user_names::{MemberNumber, Name, ShownName};

/// How far the session has come.
pub fn phase_field(alloc: Global, phase: Phase) -> Result<Vec<u8>, AllocError>
    ensures { IfOk result (λ bytes. bytes.items ≡ phase_text phase) }
{
    copied_text(alloc, phase_text(phase))
}

fn phase_text(phase: Phase) -> &'static str
    ensures { result.now ≡ phase_text phase }
{
    match phase {
        Phase::Running => "running",
        Phase::Closed => "closed",
        Phase::Final => "final",
    }
}

/// Who sits North or East of a pair, if somebody does.
pub fn first_player(report: &Report, pair: Pair) -> Option<Player>
    ensures { result ≡ first_player report.now.players pair }
{
    let place = match pair.side {
        Side::NorthSouth => Place::North,
        Side::EastWest => Place::East,
    };
    player_in(report.players.as_slice(), Seat { pair, place })
}

/// Who sits South or West of a pair, if somebody does.
pub fn second_player(report: &Report, pair: Pair) -> Option<Player>
    ensures { result ≡ second_player report.now.players pair }
{
    let place = match pair.side {
        Side::NorthSouth => Place::South,
        Side::EastWest => Place::West,
    };
    player_in(report.players.as_slice(), Seat { pair, place })
}

fn player_in(players: &[Player], seat: Seat) -> Option<Player>
    ensures { result ≡ player_in players.now seat }
{
    match players {
        [] => None,
        [player, others @ ..] => {
            if player.seat == seat {
                Some(*player)
            } else {
                player_in(others, seat)
            }
        }
    }
}

/// A text of its own.
pub fn copied_text(alloc: Global, text: &str) -> Result<Vec<u8>, AllocError>
    ensures { IfOk result (λ bytes. bytes.items ≡ text.now) }
{
    let mut bytes = Vec::new(alloc);
    bytes.extend_from_slice(text.as_bytes())?;
    Ok(bytes)
}

/// A player's name, or nothing where nobody sits there.
pub fn player_name(alloc: Global, player: &Option<Player>) -> Result<Vec<u8>, AllocError>
    ensures { IfOk result (λ bytes. bytes.items ≡ player_name player.now) }
{
    match player {
        Some(player) => told_name(alloc, &player.name, &player.shown),
        None => Ok(Vec::new(alloc)),
    }
}

fn told_name(alloc: Global, name: &Name, shown: &Option<ShownName>) -> Result<Vec<u8>, AllocError>
    ensures { IfOk result (λ bytes. bytes.items ≡ name_told name.now shown.now) }
{
    match shown {
        Some(shown) => copied_text(alloc, shown.as_str()),
        None => copied_text(alloc, name.as_str()),
    }
}

/// A player's number as a member, or nothing where none is known.
pub fn player_number(alloc: Global, player: &Option<Player>) -> Result<Vec<u8>, AllocError>
    ensures { IfOk result (λ bytes. bytes.items ≡ player_number player.now) }
{
    match player {
        Some(player) => number_text(alloc, &player.number),
        None => Ok(Vec::new(alloc)),
    }
}

fn number_text(alloc: Global, number: &Option<MemberNumber>) -> Result<Vec<u8>, AllocError>
    ensures { IfOk result (λ bytes. bytes.items ≡ text_or_empty number.now) }
{
    match number {
        Some(number) => copied_text(alloc, number.as_str()),
        None => Ok(Vec::new(alloc)),
    }
}

/// The names of a pair.
pub fn pair_names(alloc: Global, report: &Report, pair: Pair) -> Result<Vec<u8>, AllocError>
    ensures { IfOk result (λ bytes. bytes.items ≡ pair_names report.now.players pair) }
{
    let first = first_player(report, pair);
    let second = second_player(report, pair);
    names_by(alloc, &first, &second)
}

fn names_by(
    alloc: Global,
    first: &Option<Player>,
    second: &Option<Player>,
) -> Result<Vec<u8>, AllocError>
    ensures { IfOk result (λ bytes. bytes.items ≡ names_by first.now second.now) }
{
    match first {
        None => player_name(alloc, second),
        Some(_) => match second {
            None => player_name(alloc, first),
            Some(_) => joined_names(alloc, first, second),
        },
    }
}

fn joined_names(
    alloc: Global,
    first: &Option<Player>,
    second: &Option<Player>,
) -> Result<Vec<u8>, AllocError>
    ensures { IfOk result (λ bytes. bytes.items
        ≡ concat (player_name first.now ∷ codes " & " ∷ player_name second.now ∷ [])) }
{
    TextWriter::new(alloc)
        .part(player_name(alloc, first))
        .text(" & ")
        .part(player_name(alloc, second))
        .finish()
}
