//! What desks do to the book, the publisher and the store that are lent to them under the lock.

ghost use Rattle.std.specs.Prelude.{List, Bool, true, false, vec_capacity, IsTrue, ◌↔◌, ◌≡◌, ◌≢◌, ◌<◌, ◌≤◌, ◌||◌, [], ◌∷◌, length, IfOk, IfErr, OnOk, OnErr, ◌++◌};
ghost use Rattle.history.specs.Prefixes.{entries_of};
ghost use Rattle.entry_store.specs.Keeping.{LeavesAsBefore};
ghost use Rattle.entry_store.specs.declared.keep_fault.KeepFault.TheVariants as keeping;
ghost use Rattle.session_book.specs.declared.answer.Answer.{Answer};
ghost use Rattle.session_book.specs.Run.{Runs, IsTried, stops, answer_of, first_number, last_number, most_commands};
ghost use Rattle.session_keeper.specs.declared.submit_fault.SubmitFault.TheVariants.{OutOfMemory, Unsure};
ghost use Rattle.session_commands.specs.declared.actor.Actor.TheVariants.{Solver};
ghost use Rattle.session_commands.specs.declared.command.Command.{Command};
ghost use Rattle.session_commands.specs.declared.entry.Entry.{Entry};
ghost use Rattle.displays.specs.Copies.{IsPublished};
ghost use Rattle.displays.specs.Publishing.{Outgoing, receipted};
ghost use Rattle.desks.specs.Batch.{with_publication, after_showing, receipt_after, only_published};
ghost use Rattle.desks.specs.Kept.{IsKeptBy};

use displays::{Publisher, Receipt, Server};
use entry_store::{EntryStore, KeepFault};
use session_book::{Answer, Book, is_stopped};
use session_commands::room::put_item;
use session_commands::{Actor, Command, Refusal};
use session_keeper::SubmitFault;
use std::alloc::Global;
use std::sync::Wait;
use user_names::Name;

/// Tries a user's commands, one after another. What was accepted, where anything was, is kept as one publication, then
/// published as one, and then there is a receipt. Where it isn't kept, or memory is refused for the answers, all is as
/// before; a store that is shut keeps nothing, so then none is tried. Where memory is refused for a command, those before
/// it stand.
pub fn batch<N: Server, K: EntryStore, R: Wait>(
    rt: &R,
    alloc: Global,
    book: &mut Book,
    publisher: &mut Publisher<N>,
    store: &mut K,
    actor: Name,
    batch: &[Command],
) -> Result<(Vec<Answer>, Receipt<N>), SubmitFault>
    requires opening { book.old.opening ≡ N.opening }
    requires published { (entries_of publisher.old.published ≡ book.old.journal) × (publisher.old.pending ≡ []) }
    requires few { length batch.now ≤ most_commands }
    ensures opening { book.new.opening ≡ N.opening }
    ensures published { (entries_of publisher.new.published ≡ book.new.journal) × (publisher.new.pending ≡ []) }
    ensures ran { IfOk result (λ t. (stopped : Bool) × Runs stopped N.opening book.old.journal actor batch.now
        (record { journal = book.new.journal; answers = t.0.items })) }
    ensures once { (more : List Entry) × (book.new.journal ≡ book.old.journal ++ more)
        × (publisher.new.published ≡ with_publication publisher.old.published more) }
    ensures receipt { IfOk result (λ t. t.1 ≡ receipted
        (first_number (length book.old.journal) (length book.new.journal))
        (last_number (length book.old.journal) (length book.new.journal)) publisher.new.published) }
    ensures accepted { IfOk result (λ t. IsPublished N.opening publisher.new.published) }
    ensures none { OnErr result ((book.new.journal ≡ book.old.journal) × (publisher.new ≡ publisher.old)) }
    ensures kept { IsKeptBy N.opening publisher.old.published (K.doubt store.old) (K.is_open store.old) (K.leaves store.old) →
        IsKeptBy N.opening publisher.new.published (K.doubt store.new) (K.is_open store.new) (K.leaves store.new) }
    ensures open { OnOk result (K.is_open store.new ≡ true) }
    ensures fault { IfErr result (λ fault. fault ≢ OutOfMemory → K.fails) }
    ensures unsure { IfErr result (λ fault. fault ≡ Unsure → K.doubt store.new ≡ 0 → K.is_open store.new ≡ false) }
    ensures unkept { IfErr result (λ fault. fault ≢ Unsure → K.doubt store.new ≡ 0 →
        LeavesAsBefore (K.leaves store.old) (K.leaves store.new)) }
    ensures goes_on { IfErr result (λ fault. fault ≢ Unsure → K.is_open store.new ≡ K.is_open store.old) }
{
    if !store.is_open() {
        return Err(SubmitFault::NotKept);
    }
    let Ok(mut answers) = Vec::with_capacity(alloc, batch.len()) else {
        return Err(SubmitFault::OutOfMemory);
    };
    let before = book.version();
    run_batch(book, publisher, actor, batch, &mut answers);
    match show(rt, publisher, store, book.version() > before) {
        Ok(receipt) => Ok((answers, receipt)),
        Err(fault) => {
            book.take_back(before);
            Err(fault_of(fault))
        }
    }
}

/// Tries a command of the solver's, keeps it where it was accepted, and publishes it then. One that isn't kept is dropped,
/// as one for which there is no memory.
pub fn found<N: Server, K: EntryStore, R: Wait>(
    rt: &R,
    book: &mut Book,
    publisher: &mut Publisher<N>,
    store: &mut K,
    command: &Command,
) -> (Answer, Receipt<N>)
    requires opening { book.old.opening ≡ N.opening }
    requires published { (entries_of publisher.old.published ≡ book.old.journal) × (publisher.old.pending ≡ []) }
    ensures opening { book.new.opening ≡ N.opening }
    ensures published { (entries_of publisher.new.published ≡ book.new.journal) × (publisher.new.pending ≡ []) }
    ensures tried { IsTried book.old Solver command.now result.0 book.new }
    ensures once { (more : List Entry) × (book.new.journal ≡ book.old.journal ++ more)
        × (publisher.new.published ≡ with_publication publisher.old.published more) }
    ensures receipt { result.1 ≡ receipted
        (first_number (length book.old.journal) (length book.new.journal))
        (last_number (length book.old.journal) (length book.new.journal)) publisher.new.published }
    ensures accepted { IsPublished N.opening publisher.new.published }
    ensures kept { IsKeptBy N.opening publisher.old.published (K.doubt store.old) (K.is_open store.old) (K.leaves store.old) →
        IsKeptBy N.opening publisher.new.published (K.doubt store.new) (K.is_open store.new) (K.leaves store.new) }
{
    let told = publisher.tell();
    let entry = match book.check(Actor::Solver, command) {
        Ok(entry) => entry,
        Err(cause) => return (Answer::Refused(cause), told),
    };
    if !store.is_open() || publisher.append(&entry).is_err() {
        return (Answer::Refused(Refusal::OutOfMemory), told);
    }
    match show(rt, publisher, store, true) {
        Ok(receipt) => {
            book.commit(entry);
            (Answer::Accepted, receipt)
        }
        Err(_) => (Answer::Refused(Refusal::OutOfMemory), told),
    }
}

// Keeps what is pending, if anything is, and publishes it then; what isn't kept is dropped.
fn show<N: Server, K: EntryStore, R: Wait>(
    rt: &R,
    publisher: &mut Publisher<N>,
    store: &mut K,
    grown: bool,
) -> Result<Receipt<N>, KeepFault>
    requires grown { IsTrue grown ↔ (0 < length publisher.old.pending) }
    requires open { K.is_open store.old ≡ true }
    ensures line { OnOk result (publisher.new ≡ after_showing publisher.old) }
    ensures none { OnErr result (publisher.new ≡ only_published publisher.old) }
    ensures receipt { IfOk result (λ receipt.
        receipt ≡ receipt_after (entries_of publisher.old.published) publisher.new.published) }
    ensures accepted { IfOk result (λ _. IsPublished N.opening publisher.new.published) }
    ensures kept { IsKeptBy N.opening publisher.old.published (K.doubt store.old) true (K.leaves store.old) →
        IsKeptBy N.opening publisher.new.published (K.doubt store.new) (K.is_open store.new) (K.leaves store.new) }
    ensures open { OnOk result (K.is_open store.new ≡ true) }
    ensures fails { OnErr result K.fails }
    ensures unsure { IfErr result (λ fault.
        fault ≡ keeping.Unsure → K.doubt store.new ≡ 0 → K.is_open store.new ≡ false) }
    ensures unkept { IfErr result (λ fault. fault ≢ keeping.Unsure → K.doubt store.new ≡ 0 →
        LeavesAsBefore (K.leaves store.old) (K.leaves store.new)) }
    ensures goes_on { IfErr result (λ fault. fault ≢ keeping.Unsure → K.is_open store.new ≡ true) }
{
    let told = publisher.tell();
    if !grown {
        return Ok(told);
    }
    if let Err(fault) = store.keep(publisher.pending()) {
        publisher.drop_pending();
        return Err(fault);
    }
    Ok(publisher.publish(rt))
}

// What is told of a batch that wasn't kept.
fn fault_of(fault: KeepFault) -> SubmitFault
    ensures memory { result ≢ OutOfMemory }
    ensures unsure { (result ≡ Unsure) ↔ (fault ≡ keeping.Unsure) }
{
    match fault {
        KeepFault::NotKept => SubmitFault::NotKept,
        KeepFault::Unsure => SubmitFault::Unsure,
    }
}

// Tries the commands of a batch, one after another, with an answer for each.
fn run_batch<N: Server>(
    book: &mut Book,
    publisher: &mut Publisher<N>,
    actor: Name,
    batch: &[Command],
    answers: &mut Vec<Answer>,
)
    requires opening { book.old.opening ≡ N.opening }
    requires published { (entries_of publisher.old.published ≡ book.old.journal) × (publisher.old.pending ≡ []) }
    requires room { (answers.old.items ≡ []) × (length batch.now ≤ vec_capacity answers.old) }
    ensures opening { book.new.opening ≡ N.opening }
    ensures published { (publisher.new.published ≡ publisher.old.published)
        × (book.new.journal ≡ entries_of publisher.new.published ++ publisher.new.pending) }
    ensures ran { (stopped : Bool) × Runs stopped N.opening book.old.journal actor batch.now
        (record { journal = book.new.journal; answers = answers.new.items }) }
{
    let mut stopped = false;
    for command in batch {
        let refusal = try_command(book, publisher, actor, command, stopped);
        stopped = is_stopped(stopped, &refusal);
        put_item(answers, Answer::new(refusal));
    }
}

// Why one command of a batch is refused, if it is: none is tried once memory was refused.
fn try_command<N: Server>(
    book: &mut Book,
    publisher: &mut Publisher<N>,
    actor: Name,
    command: &Command,
    stopped: bool,
) -> Option<Refusal>
    requires opening { book.old.opening ≡ N.opening }
    requires journal { book.old.journal ≡ entries_of publisher.old.published ++ publisher.old.pending }
    ensures opening { book.new.opening ≡ N.opening }
    ensures same { publisher.new.published ≡ publisher.old.published }
    ensures journal { book.new.journal ≡ entries_of publisher.new.published ++ publisher.new.pending }
    ensures runs { (before : List Entry) (tried : List Command) (answers : List Answer) →
        Runs stopped N.opening before actor tried (record { journal = book.old.journal; answers = answers }) →
        Runs (stopped || stops result) N.opening before actor (tried ++ command.now ∷ [])
        (record { journal = book.new.journal; answers = answers ++ answer_of result ∷ [] }) }
{
    if stopped {
        return Some(Refusal::NotTried);
    }
    let entry = match book.check(Actor::User(actor), command) {
        Ok(entry) => entry,
        Err(cause) => return Some(cause),
    };
    if publisher.append(&entry).is_err() {
        return Some(Refusal::OutOfMemory);
    }
    book.commit(entry);
    None
}
