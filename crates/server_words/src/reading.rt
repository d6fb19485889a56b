//! What the program's words ask for, read by `clap`.

ghost use Rattle.std.specs.Prelude.{MatchResult, ◌≡◌, ◌⊎◌, ℕ, List, [], codes, map, option_map, string_bytes, Some, IfOk, IfErr, IfSome, IsSome};
ghost use Rattle.clap.specs.Words.{HasKind, app_of, first_of, found_of, kind_of, rows_of};
ghost use Rattle.clap.specs.declared.error.kind.ErrorKind.TheVariants.{InvalidValue, OutOfMemory};
ghost use Rattle.server_words.specs.CommandLine.{needing_one};
ghost use Rattle.server_words.specs.ReportForm.{form_word};
ghost use Rattle.server_words.specs.Words.{AsksFor, IsAddressGiven, IsPreparingGiven, IsReadFrom, IsServingGiven, IsSourceGiven, faults_in};

use crate::command_line::{add_subcommands, plain_line};
use crate::options_named::need_files;
use crate::words::{
    Checking, JournalCopy, Preparing, ReportForm, Reporting, Serving, SessionFiles, SessionSource,
    Words,
};
use clap::error::ErrorKind;
use clap::{ArgMatches, Command, Error};
use std::alloc::Global;
use std::net::{IpAddr, Ipv4Addr};

/// What the words ask for, the program's name first. The error has the text for who called the program: of a mistake,
/// or the help that was asked for.
pub fn read_words<'a>(alloc: Global, words: &'a [String]) -> Result<Words<'a>, Error>
    ensures asked { IfOk result (AsksFor (map string_bytes words.entry.now)) }
    ensures script { AsksFor (map string_bytes words.entry.now) Words.Script →
        IfErr result (λ error. kind_of error ≡ OutOfMemory) }
    ensures refused { IfErr result (λ error. (kind_of error ≡ InvalidValue)
        ⊎ HasKind (faults_in (map string_bytes words.entry.now)) error) }
{
    let mut command = plain_line(alloc);
    words_by(alloc, &mut command, words)
}

// The same by the program's command, which is lent, and dropped where it was made.
fn words_by<'a>(
    alloc: Global,
    command: &mut Command<'a>,
    words: &'a [String],
) -> Result<Words<'a>, Error>
    requires { app_of command.old ≡ needing_one }
    ensures asked { IfOk result (AsksFor (map string_bytes words.entry.now)) }
    ensures script { AsksFor (map string_bytes words.entry.now) Words.Script →
        IfErr result (λ error. kind_of error ≡ OutOfMemory) }
    ensures refused { IfErr result (λ error. (kind_of error ≡ InvalidValue)
        ⊎ HasKind (faults_in (map string_bytes words.entry.now)) error) }
{
    match matches_of(alloc, command, words) {
        Ok(matches) => match words_of(&matches) {
            Some(words) => Ok(words),
            None => Err(out_of_range(command, &matches)),
        },
        Err(error) => Err(error),
    }
}

// What words ask for in which `clap` found no fault.
fn words_of<'a>(matches: &ArgMatches<'a>) -> Option<Words<'a>>
    ensures asked { (words : List (List ℕ)) → IsReadFrom words matches.now → IfSome result (AsksFor words) }
    ensures script { (words : List (List ℕ)) → IsReadFrom words matches.now → AsksFor words Words.Script → IsSome result }
{
    match matches.subcommand() {
        Some(("script", _)) => Some(Words::Script),
        Some(("serve", given)) => match serving_of(given) {
            Some(serving) => Some(Words::Serve(serving)),
            None => None,
        },
        Some(("audit", given)) => match journal_of(given) {
            Some(path) => Some(Words::Audit(path)),
            None => None,
        },
        Some(("copy", given)) => match copy_of(given) {
            Some(copy) => Some(Words::Copy(copy)),
            None => None,
        },
        Some(("check", given)) => match checking_of(given) {
            Some(checking) => Some(Words::Check(checking)),
            None => None,
        },
        Some(("prepare", given)) => match preparing_of(given) {
            Some(preparing) => Some(Words::Prepare(preparing)),
            None => None,
        },
        Some(("report", given)) => match reporting_of(given) {
            Some(reporting) => Some(Words::Report(reporting)),
            None => None,
        },
        _ => None,
    }
}

// What `clap` makes of the words, once the command has its subcommands.
fn matches_of<'a>(
    alloc: Global,
    command: &mut Command<'a>,
    words: &'a [String],
) -> Result<ArgMatches<'a>, Error>
    requires { app_of command.old ≡ needing_one }
    ensures { MatchResult result (IsReadFrom (map string_bytes words.entry.now))
        (HasKind (faults_in (map string_bytes words.entry.now))) }
{
    match add_subcommands(alloc, command, need_files(words)) {
        Ok(()) => command.try_get_matches_from_mut(words),
        Err(error) => Err(Error::from(error)),
    }
}

// How clients are to be served.
fn serving_of<'a>(given: &ArgMatches<'a>) -> Option<Serving<'a>>
    ensures { IfSome result (IsServingGiven (rows_of (found_of given.now))) }
{
    let serving = Serving {
        source: source_of(given)?,
        address: address_of(given)?,
        port: given.get_one("port")?,
        displays: given.get_one("displays")?,
        workers: given.get_one("workers")?,
        connections: given.get_one("connections")?,
        clients: given.get_one("clients")?,
        idle: given.get_one("idle")?,
        origin: text_of(given, "origin"),
        page: text_of(given, "page"),
        log: text_of(given, "log"),
    };
    if serving.is_in_range() {
        Some(serving)
    } else {
        None
    }
}

// Which session is to be served.
fn source_of<'a>(given: &ArgMatches<'a>) -> Option<SessionSource<'a>>
    ensures { IfSome result (IsSourceGiven (rows_of (found_of given.now))) }
{
    match (
        text_of(given, "journal"),
        text_of(given, "session"),
        text_of(given, "deals"),
    ) {
        (None, Some(session), Some(deals)) => Some(SessionSource::Files(SessionFiles {
            session,
            deals,
        })),
        (Some(path), Some(session), Some(deals)) => {
            Some(SessionSource::Journal(path, Some(SessionFiles { session, deals })))
        }
        (Some(path), None, None) => Some(SessionSource::Journal(path, None)),
        _ => None,
    }
}

// At which address clients are to come, where what names it is one.
fn address_of(given: &ArgMatches<'_>) -> Option<IpAddr>
    ensures { IfSome result (IsAddressGiven (rows_of (found_of given.now))) }
{
    match text_of(given, "listen") {
        Some(text) => match text.parse::<IpAddr>() {
            Ok(address) => Some(address),
            Err(_) => None,
        },
        None => Some(IpAddr::V4(Ipv4Addr::LOCALHOST)),
    }
}

// Which journal's audit is to be told.
fn journal_of<'a>(given: &ArgMatches<'a>) -> Option<&'a str>
    ensures { IfSome result (λ path. first_of (codes "journal") (rows_of (found_of given.now)) ≡ Some path.now) }
{
    text_of(given, "journal")
}

// Which journal is to be copied, and to where.
fn copy_of<'a>(given: &ArgMatches<'a>) -> Option<JournalCopy<'a>>
    ensures journal { IfSome result (λ copy. first_of (codes "journal") (rows_of (found_of given.now)) ≡ Some copy.journal.now) }
    ensures to { IfSome result (λ copy. first_of (codes "to") (rows_of (found_of given.now)) ≡ Some copy.to.now) }
{
    Some(JournalCopy {
        journal: text_of(given, "journal")?,
        to: text_of(given, "to")?,
    })
}

// Of which journal a report is to be written, and in which form, where it is one.
fn reporting_of<'a>(given: &ArgMatches<'a>) -> Option<Reporting<'a>>
    ensures journal { IfSome result (λ reporting.
        first_of (codes "journal") (rows_of (found_of given.now)) ≡ Some reporting.journal.now) }
    ensures form { IfSome result (λ reporting.
        first_of (codes "as") (rows_of (found_of given.now)) ≡ Some (form_word reporting.form)) }
{
    let journal = text_of(given, "journal")?;
    let word = text_of(given, "as")?;
    let form = ReportForm::of(word)?;
    Some(Reporting { journal, form })
}

// Which session is to be looked at.
fn checking_of<'a>(given: &ArgMatches<'a>) -> Option<Checking<'a>>
    ensures session { IfSome result (λ checking.
        first_of (codes "session") (rows_of (found_of given.now)) ≡ Some checking.session.now) }
    ensures deals { IfSome result (λ checking.
        first_of (codes "deals") (rows_of (found_of given.now)) ≡ option_map (λ deals. deals.now) checking.deals) }
{
    Some(Checking {
        session: text_of(given, "session")?,
        deals: text_of(given, "deals"),
    })
}

// How a session is to be prepared.
fn preparing_of<'a>(given: &ArgMatches<'a>) -> Option<Preparing<'a>>
    ensures { IfSome result (IsPreparingGiven (rows_of (found_of given.now))) }
{
    Some(Preparing {
        people: text_of(given, "people")?,
        deals: text_of(given, "deals")?,
        to: text_of(given, "to")?,
        tables: given.get_one("tables")?,
        rounds: given.get_one("rounds")?,
        per_set: given.get_one("per-set")?,
        movement: text_of(given, "movement"),
        switched: given.get_one("switched")?,
        absent: text_of(given, "absent"),
        budget: given.get_one("budget")?,
        title: text_of(given, "title"),
        date: text_of(given, "date"),
        address: text_of(given, "address")?,
    })
}

// The text of an option, if it is there.
fn text_of<'a>(given: &ArgMatches<'a>, name: &str) -> Option<&'a str>
    ensures { first_of name.now (rows_of (found_of given.now)) ≡ option_map (λ text. text.now) result }
{
    given.get_str(name)
}

// What is said of a value out of its range. `clap` takes no such words but for a report's form that is none of the four, and an
// address that is none.
fn out_of_range(command: &mut Command<'_>, matches: &ArgMatches<'_>) -> Error
    ensures { (kind_of result ≡ InvalidValue) ⊎ (kind_of result ≡ OutOfMemory) }
{
    let why = match matches.subcommand() {
        Some(("serve", _)) => "--listen takes an IP address, as 0.0.0.0",
        _ => "a value is out of its range",
    };
    match command.error(ErrorKind::InvalidValue, why) {
        Ok(error) => error,
        Err(error) => Error::from(error),
    }
}
