//! A result that a worker found.

ghost use Rattle.std.specs.Prelude.{◌≡◌, None, Some, IfSome, IfNone, List};
ghost use Rattle.session_commands.specs.declared.command.Command.{Command};
ghost use Rattle.session_commands.specs.declared.entry.Entry.{Entry};
ghost use Rattle.solver_pool.specs.declared.found.Found.TheVariants as found;
ghost use Rattle.desks.specs.Batch.{IsEntered};
ghost use Rattle.session_keeper.specs.Keeping.{EntersJust};
ghost use Rattle.history.specs.Prefixes.{entries_of};
ghost use Rattle.collector.specs.Collecting.{after_result, entered_of, telling_command};

use desks::Desk;
use displays::{Receipt, Server};
use entry_store::EntryStore;
use session_book::Answer;
use session_commands::Command;
use solver_pool::{CollectError, Done, Found, Pool, Work};
use solver_results::{DdTable, PlayCosts};
use std::sync::Wait;

/// Takes in a result. Of a job that was never given, of one whose result came before, and where visits or memory ran out,
/// nothing is entered. Anything else that was found is handed to the desk, once: its answer, and the receipt.
pub fn collect<N: Server, K: EntryStore, R: Wait>(
    rt: &R,
    pool: &mut Pool,
    desk: &mut Desk<'_, N, K>,
    done: &Done,
) -> Option<(Answer, Receipt<N>)>
    ensures pool { pool.new ≡ after_result pool.old done.now }
    ensures none { IfNone result (entered_of pool.old done.now ≡ None) }
    ensures same { IfNone result (desk.new ≡ desk.old) }
    ensures entered { IfSome result (λ t. (command : Command) × (entered_of pool.old done.now ≡ Some command)
        × (before : List Entry) × IsEntered N.opening before command t.0 t.1
        × EntersJust desk.old before desk.new (entries_of t.1.published)) }
{
    match pool.collect(done) {
        Ok(()) => enter(rt, desk, done),
        Err(CollectError::Stranger) => None,
        Err(CollectError::Double) => None,
    }
}

// Enters what was found of a job, if anything was.
fn enter<N: Server, K: EntryStore, R: Wait>(
    rt: &R,
    desk: &mut Desk<'_, N, K>,
    done: &Done,
) -> Option<(Answer, Receipt<N>)>
    ensures none { IfNone result (telling_command done.now.job.work done.now.found ≡ None) }
    ensures same { IfNone result (desk.new ≡ desk.old) }
    ensures entered { IfSome result (λ t. (command : Command)
        × (telling_command done.now.job.work done.now.found ≡ Some command)
        × (before : List Entry) × IsEntered N.opening before command t.0 t.1
        × EntersJust desk.old before desk.new (entries_of t.1.published)) }
{
    match done.found() {
        Found::Table(table) => enter_table(rt, desk, done.job().work, *table),
        Found::Costs(costs) => enter_costs(rt, desk, done.job().work, *costs),
        Found::OutOfBudget | Found::OutOfMemory => None,
    }
}

// Enters the table of a board.
fn enter_table<N: Server, K: EntryStore, R: Wait>(
    rt: &R,
    desk: &mut Desk<'_, N, K>,
    work: Work,
    table: DdTable,
) -> Option<(Answer, Receipt<N>)>
    ensures none { IfNone result (telling_command work (found.Table table) ≡ None) }
    ensures same { IfNone result (desk.new ≡ desk.old) }
    ensures entered { IfSome result (λ t. (command : Command)
        × (telling_command work (found.Table table) ≡ Some command)
        × (before : List Entry) × IsEntered N.opening before command t.0 t.1
        × EntersJust desk.old before desk.new (entries_of t.1.published)) }
{
    match work {
        Work::Table { board, .. } => Some(desk.submit_found(rt, &Command::Solved { board, table })),
        Work::Costs { .. } => None,
    }
}

// Enters what the cards cost that were played at a cell.
fn enter_costs<N: Server, K: EntryStore, R: Wait>(
    rt: &R,
    desk: &mut Desk<'_, N, K>,
    work: Work,
    costs: PlayCosts,
) -> Option<(Answer, Receipt<N>)>
    ensures none { IfNone result (telling_command work (found.Costs costs) ≡ None) }
    ensures same { IfNone result (desk.new ≡ desk.old) }
    ensures entered { IfSome result (λ t. (command : Command)
        × (telling_command work (found.Costs costs) ≡ Some command)
        × (before : List Entry) × IsEntered N.opening before command t.0 t.1
        × EntersJust desk.old before desk.new (entries_of t.1.published)) }
{
    match work {
        Work::Costs { cell, .. } => Some(desk.submit_found(rt, &Command::Analysed { cell, costs })),
        Work::Table { .. } => None,
    }
}
