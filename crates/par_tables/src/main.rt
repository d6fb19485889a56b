//! The par of boards whose twenty numbers are known, a line each, to compare: for each vulnerability and dealer what the
//! board scores for North-South, and the contract.
#![tactic(auto)]

mod line;

use line::parse_line;
use par::{Par, par_of_board};
use scoring::{Contract, Doubling, Outcome};
use std::io;
use std::io::{BufRead, BufReader};
use table_terms::{Place, Vulnerability};

static VULNERABILITIES: [Vulnerability; 4] = [
    Vulnerability::Neither,
    Vulnerability::NorthSouth,
    Vulnerability::EastWest,
    Vulnerability::Both,
];

static DEALERS: [Place; 4] = [Place::North, Place::East, Place::South, Place::West];

/// A line is the tricks of North, East, South and West as declarer in spades, hearts, diamonds, clubs and no trump, as
/// `deal_tables` prints them. After it stand 16 answers: by vulnerability (none, North-South, East-West, both), and for
/// each by dealer from North.
fn main(rt: HostRuntime) -> io::Result<()> {
    let mut number = 0u64;
    for line in BufReader::new(rt.alloc(), rt.reader())?.lines(rt.alloc()) {
        number = number.saturating_add(1);
        answer_line(&rt, number, line?.as_str())?;
    }
    Ok(())
}

fn answer_line(rt: &HostRuntime, number: u64, text: &str) -> io::Result<()> {
    if text.is_empty() || text.starts_with('#') {
        return Ok(());
    }
    let Some(table) = parse_line(text) else {
        return eprintln!(rt; "line {number} has no twenty numbers of tricks");
    };
    print!(rt; "{text}")?;
    for vulnerability in &VULNERABILITIES {
        for dealer in &DEALERS {
            print_par(rt, &par_of_board(&table, *vulnerability, *dealer))?;
        }
    }
    println!(rt; "")
}

// As ` 420/4HN+0`, ` -300/5CxS-2` or ` 0/pass`.
fn print_par(rt: &HostRuntime, par: &Option<Par>) -> io::Result<()> {
    let Some(par) = par else {
        return Ok(());
    };
    match &par.outcome {
        Outcome::PassedOut => print!(rt; " 0/pass"),
        Outcome::Played { contract, tricks } => {
            print_contract(rt, par.score, contract, tricks.number())
        }
    }
}

fn print_contract(rt: &HostRuntime, score: i32, contract: &Contract, tricks: u8) -> io::Result<()> {
    let level = contract.level.number();
    let strain = contract.strain.letter();
    let doubled = doubled_mark(contract.doubling);
    let declarer = contract.declarer.letter();
    let (sign, margin) = margin_of(6 + level, tricks);
    print!(rt; " {score}/{level}{strain}{doubled}{declarer}{sign}{margin}")
}

fn doubled_mark(doubling: Doubling) -> &'static str {
    match doubling {
        Doubling::Undoubled => "",
        Doubling::Doubled => "x",
        Doubling::Redoubled => "xx",
    }
}

// The overtricks, or the undertricks.
fn margin_of(needed: u8, tricks: u8) -> (char, u8) {
    if needed <= tricks {
        ('+', tricks - needed)
    } else {
        ('-', needed - tricks)
    }
}
