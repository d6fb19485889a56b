//! The command line as `clap` takes it.

ghost use Rattle.std.specs.Prelude.{◌≡◌, false, true, Ok, OnOk, codes, pos};
ghost use Rattle.clap.specs.Words.{app_of, new_app, rule_of, shape_of, with_rule, with_subcommand};
ghost use Rattle.clap.specs.declared.builder.command.Command.TheViews.{out-Command};
ghost use Rattle.server_words.specs.CommandLine.{command_line, needing_one, serve_line, audit_line, copy_line, check_line, prepare_line, report_line, with_prepared_files, with_movement_numbers, with_movement_words, with_notice_words, with_session_words, needed_number, default_option, with_files, with_counts, with_clients, option_rule, port_rule, file_rule, number_rule, default_rule};

use crate::version::VERSION;
use crate::words::{
    CLIENTS_AT_MOST, DISPLAYS_AT_MOST, MOST_BUDGET, MOST_CONNECTIONS, MOST_IDLE, MOST_WORKERS,
};
use clap::builder::ValueParser;
use clap::{Arg, Command};
use std::alloc::{AllocError, Global};
use std::mem;

/// The program's command, still without its subcommands.
pub(crate) fn plain_line<'a>(alloc: Global) -> Command<'a>
    ensures { app_of result ≡ needing_one }
{
    Command::new(alloc, "bridge_server")
        .about("Serves a session of duplicate bridge while it is played")
        .version(VERSION)
        .subcommand_required(true)
}

/// Adds the subcommands. Whether the files of a session are needed is told by the words.
pub(crate) fn add_subcommands(
    alloc: Global,
    command: &mut Command<'_>,
    needed: bool,
) -> Result<(), AllocError>
    ensures { app_of command.old ≡ needing_one → OnOk result (app_of command.new ≡ command_line needed) }
{
    add_script(alloc, command)?;
    add_serve(alloc, command, needed)?;
    add_audit(alloc, command)?;
    add_copy(alloc, command)?;
    add_check(alloc, command)?;
    add_prepare(alloc, command)?;
    add_report(alloc, command)
}

// Adds the subcommand that answers a script.
fn add_script(alloc: Global, command: &mut Command<'_>) -> Result<(), AllocError>
    ensures { OnOk result (app_of command.new ≡ with_subcommand (app_of command.old) (new_app (codes "script")).top) }
{
    let script = Command::new(alloc, "script").about(
        "Answers a script on standard input, line by line",
    );
    add_subcommand(alloc, command, script)
}

// Adds the subcommand that serves clients. It is added whatever came of its options, so that it is moved on one way
// alone.
fn add_serve(alloc: Global, command: &mut Command<'_>, needed: bool) -> Result<(), AllocError>
    ensures { OnOk result (app_of command.new ≡ with_subcommand (app_of command.old) (serve_line needed).top) }
{
    let mut serve = Command::new(alloc, "serve").about("Serves clients over WebSockets");
    let filled = add_options(alloc, &mut serve, needed);
    let added = add_subcommand(alloc, command, serve);
    match filled {
        Ok(()) => added,
        Err(error) => Err(error),
    }
}

// Adds the subcommand that tells the audit of a journal.
fn add_audit(alloc: Global, command: &mut Command<'_>) -> Result<(), AllocError>
    ensures { OnOk result (app_of command.new ≡ with_subcommand (app_of command.old) audit_line.top) }
{
    let mut audit = Command::new(alloc, "audit").about(
        "Tells the audit of a journal, a line for each entry",
    );
    let filled = add_journal(alloc, &mut audit);
    let added = add_subcommand(alloc, command, audit);
    match filled {
        Ok(()) => added,
        Err(error) => Err(error),
    }
}

// Adds the subcommand that copies a journal.
fn add_copy(alloc: Global, command: &mut Command<'_>) -> Result<(), AllocError>
    ensures { OnOk result (app_of command.new ≡ with_subcommand (app_of command.old) copy_line.top) }
{
    let mut copy = Command::new(alloc, "copy").about("Copies a journal that no server has open");
    let filled = add_copy_files(alloc, &mut copy);
    let added = add_subcommand(alloc, command, copy);
    match filled {
        Ok(()) => added,
        Err(error) => Err(error),
    }
}

// Adds the subcommand that writes what a session comes to.
fn add_report(alloc: Global, command: &mut Command<'_>) -> Result<(), AllocError>
    ensures { OnOk result (app_of command.new ≡ with_subcommand (app_of command.old) report_line.top) }
{
    let mut report = Command::new(alloc, "report").about(
        "Writes what the session of a journal comes to",
    );
    let filled = add_report_options(alloc, &mut report);
    let added = add_subcommand(alloc, command, report);
    match filled {
        Ok(()) => added,
        Err(error) => Err(error),
    }
}

// Adds the journal of a report, and its form.
fn add_report_options(alloc: Global, command: &mut Command<'_>) -> Result<(), AllocError>
    ensures line { OnOk result (app_of command.new
        ≡ with_rule (with_rule (app_of command.old) (file_rule true (codes "journal"))) (file_rule true (codes "as"))) }
    ensures local { OnOk result ((out-Command command.new).has_globals ≡ (out-Command command.old).has_globals) }
{
    add_journal(alloc, command)?;
    let form = option(alloc, "as", "FORM", "The form: csv, html, pbn or usebio").required(true);
    add(alloc, command, form)
}

// Adds the subcommand that looks at a session before it is opened.
fn add_check(alloc: Global, command: &mut Command<'_>) -> Result<(), AllocError>
    ensures { OnOk result (app_of command.new ≡ with_subcommand (app_of command.old) check_line.top) }
{
    let mut check = Command::new(alloc, "check").about(
        "Says why a session isn't opened, and where, or that it opens",
    );
    let filled = add_checked_files(alloc, &mut check);
    let added = add_subcommand(alloc, command, check);
    match filled {
        Ok(()) => added,
        Err(error) => Err(error),
    }
}

// Adds the files of a session that is looked at: the deals may stand in the object.
fn add_checked_files(alloc: Global, command: &mut Command<'_>) -> Result<(), AllocError>
    ensures line { OnOk result (app_of command.new
        ≡ with_rule (with_rule (app_of command.old) (file_rule true (codes "session"))) (file_rule false (codes "deals"))) }
    ensures local { OnOk result ((out-Command command.new).has_globals ≡ (out-Command command.old).has_globals) }
{
    add_file(
        alloc,
        command,
        "session",
        "The session object, or without deals a script, whose first line is one",
        true,
    )?;
    add_file(
        alloc,
        command,
        "deals",
        "The deals of the session, in PBN",
        false,
    )
}

// Adds the subcommand that prepares a session.
#[tactic(auto, unfolding(crate::specs::CommandLine::prepare_line))]
fn add_prepare(alloc: Global, command: &mut Command<'_>) -> Result<(), AllocError>
    ensures { OnOk result (app_of command.new ≡ with_subcommand (app_of command.old) prepare_line.top) }
{
    let mut prepare = Command::new(alloc, "prepare").about(
        "Makes a folder with a session object, the tokens of its people, and cards to print",
    );
    let filled = add_prepare_options(alloc, &mut prepare);
    let added = add_subcommand(alloc, command, prepare);
    match filled {
        Ok(()) => added,
        Err(error) => Err(error),
    }
}

// Adds the options of the subcommand that prepares a session.
fn add_prepare_options(alloc: Global, command: &mut Command<'_>) -> Result<(), AllocError>
    ensures line { OnOk result (app_of command.new
        ≡ with_session_words (with_movement_words (with_movement_numbers (with_prepared_files (app_of command.old))))) }
    ensures local { OnOk result ((out-Command command.new).has_globals ≡ (out-Command command.old).has_globals) }
{
    add_prepared_files(alloc, command)?;
    add_movement_numbers(alloc, command)?;
    add_movement_words(alloc, command)?;
    add_session_words(alloc, command)
}

// Adds what a session is prepared of, and to where.
#[tactic(auto, unfolding(crate::specs::CommandLine::with_prepared_files))]
fn add_prepared_files(alloc: Global, command: &mut Command<'_>) -> Result<(), AllocError>
    ensures line { OnOk result (app_of command.new ≡ with_prepared_files (app_of command.old)) }
    ensures local { OnOk result ((out-Command command.new).has_globals ≡ (out-Command command.old).has_globals) }
{
    add_file(
        alloc,
        command,
        "people",
        "The people, in CSV: name,pair,place,roles,number,sign_in",
        true,
    )?;
    add_file(
        alloc,
        command,
        "deals",
        "The deals of the session, in PBN",
        true,
    )?;
    add_file(
        alloc,
        command,
        "to",
        "The folder that is made, at a path where nothing is yet",
        true,
    )
}

// Adds the numbers of a movement.
#[tactic(auto, unfolding(crate::specs::CommandLine::with_movement_numbers))]
fn add_movement_numbers(alloc: Global, command: &mut Command<'_>) -> Result<(), AllocError>
    ensures line { OnOk result (app_of command.new ≡ with_movement_numbers (app_of command.old)) }
    ensures local { OnOk result ((out-Command command.new).has_globals ≡ (out-Command command.old).has_globals) }
{
    add_needed(alloc, command, "tables", "How many tables there are")?;
    add_needed(alloc, command, "rounds", "How many rounds are played")?;
    add_needed(
        alloc,
        command,
        "per-set",
        "How many boards are played in a round",
    )
}

// Adds what else may be said of a movement.
#[tactic(auto, unfolding(crate::specs::CommandLine::with_movement_words))]
fn add_movement_words(alloc: Global, command: &mut Command<'_>) -> Result<(), AllocError>
    ensures line { OnOk result (app_of command.new ≡ with_movement_words (app_of command.old)) }
    ensures local { OnOk result ((out-Command command.new).has_globals ≡ (out-Command command.old).has_globals) }
{
    add_option(
        alloc,
        command,
        "movement",
        "WORD",
        "The movement: mitchell, howell, share_and_relay or web",
    )?;
    add_count(
        alloc,
        command,
        "switched",
        (0, 255),
        "0",
        "In how many of the last rounds the pairs sit the other way round",
    )?;
    add_option(
        alloc,
        command,
        "absent",
        "PAIR",
        "The pair that is absent, as EW9",
    )
}

// Adds what is said of the session besides, and where people sign in.
#[tactic(auto, unfolding(crate::specs::CommandLine::with_session_words))]
fn add_session_words(alloc: Global, command: &mut Command<'_>) -> Result<(), AllocError>
    ensures line { OnOk result (app_of command.new ≡ with_session_words (app_of command.old)) }
    ensures local { OnOk result ((out-Command command.new).has_globals ≡ (out-Command command.old).has_globals) }
{
    add_notice_words(alloc, command)?;
    add_default(
        alloc,
        command,
        "address",
        "http://localhost:8000/",
        "Where the page is that people sign in on",
    )
}

// Adds what is said of the session besides.
#[tactic(auto, unfolding(crate::specs::CommandLine::with_notice_words))]
fn add_notice_words(alloc: Global, command: &mut Command<'_>) -> Result<(), AllocError>
    ensures line { OnOk result (app_of command.new ≡ with_notice_words (app_of command.old)) }
    ensures local { OnOk result ((out-Command command.new).has_globals ≡ (out-Command command.old).has_globals) }
{
    add_count(
        alloc,
        command,
        "budget",
        (0, MOST_BUDGET),
        "10000000",
        "How many visits a solver's call may make",
    )?;
    add_option(
        alloc,
        command,
        "title",
        "TEXT",
        "What the session is called",
    )?;
    add_option(
        alloc,
        command,
        "date",
        "DAY",
        "The day of the session, as 2026-11-27",
    )
}

// Adds an option of this name, whose value is this text where it isn't there.
fn add_default<'a>(
    alloc: Global,
    command: &mut Command<'a>,
    name: &'a str,
    default: &'a str,
    help: &'a str,
) -> Result<(), AllocError>
    ensures line { OnOk result (app_of command.new
        ≡ with_rule (app_of command.old) (default_option name.now default.now)) }
    ensures local { OnOk result ((out-Command command.new).has_globals ≡ (out-Command command.old).has_globals) }
{
    let named = option(alloc, name, "URL", help).default_value(default);
    add(alloc, command, named)
}

// Adds an option of this name, which may be left out.
fn add_option<'a>(
    alloc: Global,
    command: &mut Command<'a>,
    name: &'a str,
    value: &'a str,
    help: &'a str,
) -> Result<(), AllocError>
    ensures line { OnOk result (app_of command.new ≡ with_rule (app_of command.old) (option_rule name.now)) }
    ensures local { OnOk result ((out-Command command.new).has_globals ≡ (out-Command command.old).has_globals) }
{
    let named = option(alloc, name, value, help);
    add(alloc, command, named)
}

// Adds a number up to 255, which has to be there.
fn add_needed<'a>(
    alloc: Global,
    command: &mut Command<'a>,
    name: &'a str,
    help: &'a str,
) -> Result<(), AllocError>
    ensures line { OnOk result (app_of command.new ≡ with_rule (app_of command.old) (needed_number name.now (pos 0) (pos 255))) }
    ensures local { OnOk result ((out-Command command.new).has_globals ≡ (out-Command command.old).has_globals) }
{
    let needed = number(alloc, name, (0, 255), help).required(true);
    add(alloc, command, needed)
}

// Adds a journal, which has to be there.
fn add_journal(alloc: Global, command: &mut Command<'_>) -> Result<(), AllocError>
    ensures line { OnOk result (app_of command.new ≡ with_rule (app_of command.old) (file_rule true (codes "journal"))) }
    ensures local { OnOk result ((out-Command command.new).has_globals ≡ (out-Command command.old).has_globals) }
{
    add_file(alloc, command, "journal", "The journal", true)
}

// Adds the files of a copy.
fn add_copy_files(alloc: Global, command: &mut Command<'_>) -> Result<(), AllocError>
    ensures line { OnOk result (app_of command.new
        ≡ with_rule (with_rule (app_of command.old) (file_rule true (codes "journal"))) (file_rule true (codes "to"))) }
    ensures local { OnOk result ((out-Command command.new).has_globals ≡ (out-Command command.old).has_globals) }
{
    add_journal(alloc, command)?;
    add_file(
        alloc,
        command,
        "to",
        "The copy, at a path where nothing is yet",
        true,
    )
}

// Adds the options of the subcommand that serves clients.
fn add_options(alloc: Global, command: &mut Command<'_>, needed: bool) -> Result<(), AllocError>
    ensures line { OnOk result (app_of command.new
        ≡ with_clients (with_counts (with_rule (with_files needed (app_of command.old)) port_rule))) }
    ensures local { OnOk result ((out-Command command.new).has_globals ≡ (out-Command command.old).has_globals) }
{
    add_files(alloc, command, needed)?;
    add_port(alloc, command)?;
    add_counts(alloc, command)?;
    add_clients(alloc, command)
}

// Adds the files of the session, and its journal.
fn add_files(alloc: Global, command: &mut Command<'_>, needed: bool) -> Result<(), AllocError>
    ensures line { OnOk result (app_of command.new ≡ with_files needed (app_of command.old)) }
    ensures local { OnOk result ((out-Command command.new).has_globals ≡ (out-Command command.old).has_globals) }
{
    add_file(alloc, command, "session", "The session object", needed)?;
    add_file(
        alloc,
        command,
        "deals",
        "The deals of the session, in PBN",
        needed,
    )?;
    let journal = option(
        alloc,
        "journal",
        "FILE",
        "The file that keeps the session. Where it has one, the other files aren't needed",
    );
    add(alloc, command, journal)
}

// Adds the numbers that have a default.
fn add_counts(alloc: Global, command: &mut Command<'_>) -> Result<(), AllocError>
    ensures line { OnOk result (app_of command.new ≡ with_counts (app_of command.old)) }
    ensures local { OnOk result ((out-Command command.new).has_globals ≡ (out-Command command.old).has_globals) }
{
    add_count(
        alloc,
        command,
        "displays",
        (1, DISPLAYS_AT_MOST as i64),
        "4",
        "How many threads serve clients",
    )?;
    add_count(
        alloc,
        command,
        "workers",
        (0, MOST_WORKERS as i64),
        "2",
        "How many threads solve deals",
    )?;
    add_count(
        alloc,
        command,
        "connections",
        (0, MOST_CONNECTIONS as i64),
        "0",
        "After how many connections each display ends (0: never)",
    )
}

// Adds how many clients there may be, what is asked of each, and what else may be said.
fn add_clients(alloc: Global, command: &mut Command<'_>) -> Result<(), AllocError>
    ensures line { OnOk result (app_of command.new ≡ with_clients (app_of command.old)) }
    ensures local { OnOk result ((out-Command command.new).has_globals ≡ (out-Command command.old).has_globals) }
{
    add_count(
        alloc,
        command,
        "clients",
        (1, CLIENTS_AT_MOST as i64),
        "1000",
        "How many clients are served at once",
    )?;
    add_count(
        alloc,
        command,
        "idle",
        (1, MOST_IDLE as i64),
        "300",
        "Within how many seconds a client has to send a message or a ping",
    )?;
    add_option(
        alloc,
        command,
        "origin",
        "URL",
        "The origin that a page has to come from, as https://bridge.example.org",
    )?;
    add_option(
        alloc,
        command,
        "page",
        "DIR",
        "The folder of the page, which is handed out at the same port",
    )?;
    add_option(
        alloc,
        command,
        "listen",
        "ADDRESS",
        "The address at which clients come, in place of 127.0.0.1, as 0.0.0.0",
    )?;
    add_option(
        alloc,
        command,
        "log",
        "FILE",
        "The file to which a line is added for each event, or - for standard error",
    )
}

// Adds an option that names a file, and that may have to be there.
fn add_file<'a>(
    alloc: Global,
    command: &mut Command<'a>,
    name: &'a str,
    help: &'a str,
    needed: bool,
) -> Result<(), AllocError>
    ensures line { OnOk result (app_of command.new ≡ with_rule (app_of command.old) (file_rule needed name.now)) }
    ensures local { OnOk result ((out-Command command.new).has_globals ≡ (out-Command command.old).has_globals) }
{
    let file = option(alloc, name, "FILE", help).required(needed);
    add(alloc, command, file)
}

// Adds the port, which has to be there.
fn add_port(alloc: Global, command: &mut Command<'_>) -> Result<(), AllocError>
    ensures line { OnOk result (app_of command.new ≡ with_rule (app_of command.old) port_rule) }
    ensures local { OnOk result ((out-Command command.new).has_globals ≡ (out-Command command.old).has_globals) }
{
    let port = number(alloc, "port", (1, 65_535), "The port").required(true);
    add(alloc, command, port)
}

// Adds an option that has a number within these limits, and this one where it isn't there.
fn add_count<'a>(
    alloc: Global,
    command: &mut Command<'a>,
    name: &'a str,
    limits: (i64, i64),
    default: &'a str,
    help: &'a str,
) -> Result<(), AllocError>
    ensures line { OnOk result (app_of command.new
        ≡ with_rule (app_of command.old) (default_rule name.now limits.0 limits.1 default.now)) }
    ensures local { OnOk result ((out-Command command.new).has_globals ≡ (out-Command command.old).has_globals) }
{
    let count = number(alloc, name, limits, help).default_value(default);
    add(alloc, command, count)
}

// Adds the option.
fn add<'a>(alloc: Global, command: &mut Command<'a>, option: Arg<'a>) -> Result<(), AllocError>
    ensures line { option.entry.global ≡ false →
        OnOk result (app_of command.new ≡ with_rule (app_of command.old) (rule_of option.entry)) }
    ensures local { option.entry.global ≡ false →
        OnOk result ((out-Command command.new).has_globals ≡ (out-Command command.old).has_globals) }
{
    let made = taken(alloc, command).arg(option);
    put(command, made)
}

// Adds the subcommand.
fn add_subcommand<'a>(
    alloc: Global,
    command: &mut Command<'a>,
    subcommand: Command<'a>,
) -> Result<(), AllocError>
    ensures { (out-Command subcommand.entry).has_globals ≡ false →
        OnOk result (app_of command.new ≡ with_subcommand (app_of command.old) (shape_of subcommand.entry)) }
{
    let made = taken(alloc, command).subcommand(subcommand);
    put(command, made)
}

// Takes the command, of which `clap` makes the next one. Its many fields are moved in the functions above and here
// alone.
fn taken<'a>(alloc: Global, command: &mut Command<'a>) -> Command<'a>
    ensures { result ≡ command.old }
{
    mem::replace(command, Command::new(alloc, ""))
}

// Puts what was made where it belongs, whatever it is.
fn put<T: Drop>(place: &mut T, made: Result<T, AllocError>) -> Result<(), AllocError>
    ensures { OnOk result (made ≡ Ok place.new) }
{
    match made {
        Ok(new) => {
            *place = new;
            Ok(())
        }
        Err(error) => Err(error),
    }
}

// An option that has a number within these limits.
fn number<'a>(alloc: Global, name: &'a str, limits: (i64, i64), help: &'a str) -> Arg<'a>
    ensures rule { rule_of result ≡ number_rule name.now limits.0 limits.1 }
    ensures local { result.global ≡ false }
{
    option(alloc, name, "NUMBER", help).value_parser(ValueParser::signed(limits.0, limits.1))
}

// An option of this name, whose value help calls so.
fn option<'a>(alloc: Global, name: &'a str, value: &'a str, help: &'a str) -> Arg<'a>
    ensures rule { rule_of result ≡ option_rule name.now }
    ensures local { result.global ≡ false }
{
    Arg::new(alloc, name)
        .long(name)
        .value_name(value)
        .help(help)
}
