//! Double-dummy numbers of deals, of endings and of plays, a line each, to compare: a deal's twenty numbers, the tricks
//! that North and South take from an ending, or what each card of a play costs.
#![tactic(auto)]

mod line;
mod workers;

use cards::{Deal, Position};
use double_dummy::{Budget, CostsError, costs, solve, table};
use line::{Line, parse_line};
use scoring::{Contract, Doubling, Level};
use solver_pool::Done;
use solver_results::{Costs, DdTable};
use std::alloc::Global;
use std::io::{BufRead, BufReader, Read};
use std::{env, io};
use table_terms::{Place, Strain};
use workers::{share_deals, table_in};

// More visits than any line takes.
const VISITS: u64 = 1_000_000_000_000;

const MOST_WORKERS: usize = 16;

// What the program's words ask for.
#[derive(Clone, Copy)]
struct Asked {
    // Each line is an ending.
    endings: bool,
    // Each line ends with the visits that it took.
    counts: bool,
    // The visits that a line may take.
    visits: u64,
    // The workers that solve the deals once all lines are read, if any do.
    workers: usize,
}

// What a line asks for.
#[derive(Clone, Copy)]
enum Answer {
    // The numbers of a deal.
    Table(DdTable),
    // The tricks that North and South take from an ending.
    Tricks(u8),
    // What the cards of a play cost.
    Costs(Costs),
    // The first card of a play that is not legal, from 1.
    NotLegal(usize),
}

/// With the word `endings` each line is an ending, with `numbers` no visits are printed, and with a number a line that
/// takes more visits is not solved. With `workers=4` so many workers in threads, 16 at most, solve the deals once all
/// lines are read, and no visits are printed.
fn main(rt: HostRuntime) -> io::Result<()> {
    let asked = read_words(&rt)?;
    if asked.workers == 0 {
        return solve_input(&rt, &asked);
    }
    let text = read_text(&rt)?;
    let found = share_deals(&rt, text.as_str(), asked.workers, asked.visits)?;
    solve_lines(&rt, text.as_bytes(), &asked, found.as_slice())
}

fn read_words(rt: &HostRuntime) -> io::Result<Asked> {
    let mut asked = Asked {
        endings: false,
        counts: true,
        visits: VISITS,
        workers: 0,
    };
    for word in env::args(rt)? {
        hear(&mut asked, word.as_str());
    }
    Ok(asked)
}

fn hear(asked: &mut Asked, word: &str) {
    asked.endings |= word == "endings";
    asked.counts &= word != "numbers";
    asked.visits = word.parse::<u64>().unwrap_or(asked.visits);
    if let Some(workers) = word.strip_prefix("workers=") {
        asked.workers = workers.parse::<usize>().unwrap_or(0).min(MOST_WORKERS);
    }
}

// All lines.
fn read_text(rt: &HostRuntime) -> io::Result<String> {
    let mut text = String::new(rt.alloc());
    rt.reader().read_to_string(&mut text)?;
    Ok(text)
}

// Answers each line as it is read.
fn solve_input(rt: &HostRuntime, asked: &Asked) -> io::Result<()> {
    solve_lines(rt, BufReader::new(rt.alloc(), rt.reader())?, asked, &[])
}

// Answers each line.
fn solve_lines<R: BufRead + Drop>(
    rt: &HostRuntime,
    reader: R,
    asked: &Asked,
    found: &[Done],
) -> io::Result<()> {
    let mut number = 0u64;
    for line in reader.lines(rt.alloc()) {
        number = number.saturating_add(1);
        solve_line(rt, number, line?.as_str(), asked, found)?;
    }
    Ok(())
}

// Prints a line with what it asks for, or says that it is not solved.
fn solve_line(
    rt: &HostRuntime,
    number: u64,
    text: &str,
    asked: &Asked,
    found: &[Done],
) -> io::Result<()> {
    if text.is_empty() || text.starts_with('#') {
        return Ok(());
    }
    let mut budget = Budget::new(asked.visits);
    let Some(answer) = answer_of(rt.alloc(), text, asked, found, &mut budget) else {
        return eprintln!(rt; "line {number} is not solved");
    };
    print!(rt; "{text}\t")?;
    print_answer(rt, &answer)?;
    if !asked.counts || asked.workers > 0 {
        return println!(rt; "");
    }
    let visits = asked.visits.saturating_sub(budget.left());
    println!(rt; "\t{visits}")
}

// What a line asks for: a deal, the word `costs` before a play, or an ending.
fn answer_of(
    alloc: Global,
    text: &str,
    asked: &Asked,
    found: &[Done],
    budget: &mut Budget,
) -> Option<Answer> {
    if asked.endings {
        return tricks_of(alloc, text, budget);
    }
    if let Ok(deal) = text.parse::<Deal>() {
        return table_of(alloc, deal, asked, found, budget);
    }
    match text.strip_prefix("costs ") {
        Some(play) => costs_of(alloc, play, budget),
        None => tricks_of(alloc, text, budget),
    }
}

// A deal's table, as a worker found it where workers were asked for.
fn table_of(
    alloc: Global,
    deal: Deal,
    asked: &Asked,
    found: &[Done],
    budget: &mut Budget,
) -> Option<Answer> {
    let numbers = if asked.workers == 0 {
        table(alloc, deal, budget).ok()?
    } else {
        found.iter().find_map(|done| table_in(done, deal))?
    };
    Some(Answer::Table(numbers))
}

// The tricks of an ending: the hands, the strain, the leader, and the cards on the table.
fn tricks_of(alloc: Global, text: &str, budget: &mut Budget) -> Option<Answer> {
    let position = read_ending(alloc, text)?;
    let tricks = solve(alloc, &position, budget).ok()?;
    Some(Answer::Tricks(tricks))
}

fn read_ending(alloc: Global, text: &str) -> Option<Position> {
    let line = parse_line(alloc, text)?;
    let [north, east, south, west] = line.hands;
    let cards = line.cards.as_slice();
    Position::new(north, east, south, west, line.strain, line.player, cards).ok()
}

// What the cards of a play cost: the hands, the strain, declarer, and the cards.
fn costs_of(alloc: Global, text: &str, budget: &mut Budget) -> Option<Answer> {
    let line = parse_line(alloc, text)?;
    costs_in(alloc, &line, budget)
}

fn costs_in(alloc: Global, line: &Line, budget: &mut Budget) -> Option<Answer> {
    let [north, east, south, west] = line.hands;
    let deal = Deal::new(north, east, south, west).ok()?;
    let contract = contract_of(line)?;
    match costs(alloc, deal, contract, line.cards.as_slice(), budget) {
        Ok(numbers) => Some(Answer::Costs(numbers)),
        Err(CostsError::NotAPlay(number)) => Some(Answer::NotLegal(number)),
        Err(_) => None,
    }
}

// A contract at the strain of a line.
fn contract_of(line: &Line) -> Option<Contract> {
    Some(Contract {
        level: Level::new(1)?,
        strain: line.strain,
        declarer: line.player,
        doubling: Doubling::Undoubled,
    })
}

fn print_answer(rt: &HostRuntime, answer: &Answer) -> io::Result<()> {
    match answer {
        Answer::Table(numbers) => print_table(rt, numbers),
        Answer::Tricks(tricks) => print!(rt; "{tricks}"),
        Answer::Costs(numbers) => print_numbers(rt, "", numbers.as_slice()),
        Answer::NotLegal(number) => print!(rt; "card {number} is not legal"),
    }
}

// The twenty numbers of a deal, by declarer N, E, S, W.
fn print_table(rt: &HostRuntime, numbers: &DdTable) -> io::Result<()> {
    let mut before = "";
    for declarer in [Place::North, Place::East, Place::South, Place::West] {
        print_numbers(rt, before, &by_strain(numbers, declarer))?;
        before = " ";
    }
    Ok(())
}

// A declarer's numbers in spades, hearts, diamonds, clubs and no trump.
fn by_strain(numbers: &DdTable, declarer: Place) -> [u8; 5] {
    [
        numbers.tricks(Strain::Spades, declarer),
        numbers.tricks(Strain::Hearts, declarer),
        numbers.tricks(Strain::Diamonds, declarer),
        numbers.tricks(Strain::Clubs, declarer),
        numbers.tricks(Strain::NoTrump, declarer),
    ]
}

// Prints numbers with commas between them, and this before the first.
fn print_numbers(rt: &HostRuntime, first: &str, numbers: &[u8]) -> io::Result<()> {
    let mut before = first;
    for number in numbers {
        print!(rt; "{before}{number}")?;
        before = ",";
    }
    Ok(())
}
