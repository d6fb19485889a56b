//! The solver's numbers are found again: a row tells a deal, or a play, and never its numbers.

ghost use Rattle.std.specs.Prelude.{◌≡◌, ◌<◌, length, map, All, IfOk, IfSome};
ghost use Rattle.session_commands.specs.declared.command.Command.TheVariants as command;
ghost use Rattle.kept_entries.specs.RowTexts.{IsToldAt, entry_told};

use cards::{Deal, Play};
use double_dummy::{Budget, play_costs, table};
use entry_texts::KeptEntry;
use movement::Cell;
use scoring::Contract;
use session_commands::{Actor, Command, Entry};
use std::alloc::{AllocError, Global};
use std::sync::atomic::{AtomicU64, Ordering};
use std::thread::{self, Threads};

/// An entry with the solver's numbers, and the place of its row.
#[derive(Clone, Copy)]
pub(crate) struct SolvedAt {
    pub(crate) place: usize,
    pub(crate) entry: Entry,
}

/// Puts entries with the solver's numbers in the place of what tells them, where they are found: so many workers beside one another
/// take one after another, each with so many visits.
pub(crate) fn solve_all<R: Threads + Sync>(
    rt: &R,
    alloc: Global,
    read: &mut [KeptEntry],
    budget: u64,
    workers: usize,
) -> Result<(), AllocError>
    ensures each { length read.new ≡ length read.old }
    ensures told { map entry_told read.new ≡ map entry_told read.old }
{
    let shares = solve_shares(rt, alloc, read, budget, workers)?;
    'shares: for place in 0..shares.len() {
        match &shares[place] {
            Ok(solved) => fill(read, solved.as_slice()),
            Err(_) => return Err(AllocError),
        }
    }
    Ok(())
}

// What each worker found.
fn solve_shares<R: Threads + Sync>(
    rt: &R,
    alloc: Global,
    read: &[KeptEntry],
    budget: u64,
    workers: usize,
) -> Result<Vec<Result<Vec<SolvedAt>, AllocError>>, AllocError>
    ensures { IfOk result (λ shares.
        All (λ share. IfOk share (λ solved. All (IsToldAt read.now) solved.items)) shares.items) }
{
    let next = AtomicU64::new(0);
    thread::map_indices(
        rt,
        alloc,
        workers,
        &|_| { solve_share(alloc, read, &next, budget) },
    )
}

// Solves what no worker has taken, one after another, until all is taken.
fn solve_share(
    alloc: Global,
    read: &[KeptEntry],
    next: &AtomicU64,
    budget: u64,
) -> Result<Vec<SolvedAt>, AllocError>
    ensures { IfOk result (λ solved. All (IsToldAt read.now) solved.items) }
{
    let mut solved = Vec::new(alloc);
    'turns: for _ in 0..read.len() {
        let place = next.fetch_add(1, Ordering::SeqCst) as usize;
        if place >= read.len() {
            break;
        }
        if let Some(one) = solve_at(alloc, read, place, budget) {
            solved.push(one)?;
        }
    }
    Ok(solved)
}

// Puts entries in the place of what tells them.
fn fill(read: &mut [KeptEntry], solved: &[SolvedAt])
    requires { All (IsToldAt read.old) solved.now }
    ensures { map entry_told read.new ≡ map entry_told read.old }
{
    'solved: for one in solved {
        put(read, one);
    }
}

fn put(read: &mut [KeptEntry], one: &SolvedAt)
    requires { IsToldAt read.old one.now }
    ensures { map entry_told read.new ≡ map entry_told read.old }
{
    read[one.place] = KeptEntry::Given(one.entry);
}

// The entry of a place, if it has numbers of the solver's and these are found within the budget.
fn solve_at(alloc: Global, read: &[KeptEntry], place: usize, budget: u64) -> Option<SolvedAt>
    requires { place < length read.now }
    ensures { IfSome result (IsToldAt read.now) }
{
    let entry = solve(alloc, &read[place], budget)?;
    Some(SolvedAt { place, entry })
}

// The entry, if it has numbers of the solver's and these are found within the budget.
fn solve(alloc: Global, read: &KeptEntry, budget: u64) -> Option<Entry>
    ensures { IfSome result (λ entry. entry_told read.now ≡ entry) }
{
    match *read {
        KeptEntry::Given(_) => None,
        KeptEntry::Solved { actor, board, deal } => solve_table(alloc, actor, board, deal, budget),
        KeptEntry::Analysed {
            actor,
            cell,
            deal,
            contract,
            play,
        } => solve_costs(alloc, actor, cell, deal, contract, &play, budget),
    }
}

fn solve_table(alloc: Global, actor: Actor, board: u8, deal: Deal, budget: u64) -> Option<Entry>
    ensures { IfSome result (λ entry. record { actor = actor; command = command.Solved board deal } ≡ entry) }
{
    let Ok(table) = table(alloc, deal, &mut Budget::new(budget)) else {
        return None;
    };
    Some(Entry {
        actor,
        command: Command::Solved { board, table },
    })
}

fn solve_costs(
    alloc: Global,
    actor: Actor,
    cell: Cell,
    deal: Deal,
    contract: Contract,
    play: &Play,
    budget: u64,
) -> Option<Entry>
    ensures { IfSome result (λ entry. record {
      actor = actor;
      command = command.Analysed cell (record { deal = deal; contract = contract; play = play.now });
    } ≡ entry) }
{
    let Ok(costs) = play_costs(alloc, deal, contract, play, &mut Budget::new(budget)) else {
        return None;
    };
    Some(Entry {
        actor,
        command: Command::Analysed { cell, costs },
    })
}
