//! Publications that are entered again at a start.

ghost use Rattle.std.specs.Prelude.{◌≡◌, ◌<◌, ◌+◌, ◌⊎◌, ◌++◌, ◌∷◌, [], List, length, map, false, IfErr, OnOk, OnErr};
ghost use Rattle.history.specs.Prefixes.{entries_of};
ghost use Rattle.displays.specs.Copies.{IsPublished};
ghost use Rattle.session_book.specs.Journal.{Follow};
ghost use Rattle.session_commands.specs.Refusal.{is_out_of_memory};
ghost use Rattle.session_commands.specs.declared.refusal.Refusal.{Refusal};
ghost use Rattle.desks.specs.Reentry.{IsRefusedAfter, IsReentryFault};
ghost use Rattle.desks.specs.declared.reentry.ReentryFault.TheVariants.{Refused, OutOfMemory};

use displays::{Publisher, Server};
use session_book::Book;
use session_commands::{Entry, Refusal};
use std::sync::Wait;

/// Why publications aren't entered again.
#[derive(Clone, Copy)]
pub enum ReentryFault {
    /// An entry is refused where it stands.
    Refused(Refusal),
    /// A publication has no entry.
    Empty,
    /// Memory was refused.
    OutOfMemory,
}

/// Enters publications again, each as one. Where one is refused, those before it are entered, and the number is that of the
/// entry that wasn't.
pub fn reenter_all<N: Server, R: Wait>(
    rt: &R,
    book: &mut Book,
    publisher: &mut Publisher<N>,
    publications: &[Vec<Entry>],
) -> Result<(), (usize, ReentryFault)>
    requires opening { book.old.opening ≡ N.opening }
    requires published { (entries_of publisher.old.published ≡ book.old.journal) × (publisher.old.pending ≡ []) }
    ensures opening { book.new.opening ≡ N.opening }
    ensures shown { OnOk result (publisher.new.published
        ≡ publisher.old.published ++ map (λ publication. publication.items) publications.now) }
    ensures published { OnOk result ((entries_of publisher.new.published ≡ book.new.journal)
        × (publisher.new.pending ≡ [])) }
    ensures number { IfErr result (λ t. t.0 ≡ length book.new.journal + 1) }
    ensures refused { IfErr result (λ t. (cause : Refusal) → t.1 ≡ Refused cause →
        IsRefusedAfter N.opening book.old.journal
        (entries_of (map (λ publication. publication.items) publications.now)) cause book.new.journal) }
    ensures complete { IfErr result (λ t.
        IsPublished N.opening (publisher.old.published ++ map (λ publication. publication.items) publications.now) →
        t.1 ≡ OutOfMemory) }
{
    for publication in publications {
        if let Err(fault) = reenter(rt, book, publisher, publication.as_slice()) {
            return Err((book.version() + 1, fault));
        }
    }
    Ok(())
}

/// Enters a publication again, as one. Where it is refused nothing of it is published.
pub fn reenter<N: Server, R: Wait>(
    rt: &R,
    book: &mut Book,
    publisher: &mut Publisher<N>,
    entries: &[Entry],
) -> Result<(), ReentryFault>
    requires opening { book.old.opening ≡ N.opening }
    requires published { (entries_of publisher.old.published ≡ book.old.journal) × (publisher.old.pending ≡ []) }
    ensures opening { book.new.opening ≡ N.opening }
    ensures journal { OnOk result (book.new.journal ≡ book.old.journal ++ entries.now) }
    ensures shown { OnOk result (publisher.new.published ≡ publisher.old.published ++ entries.now ∷ []) }
    ensures published { OnOk result ((entries_of publisher.new.published ≡ book.new.journal)
        × (publisher.new.pending ≡ [])) }
    ensures none { OnErr result (publisher.new.published ≡ publisher.old.published) }
    ensures fault { IfErr result (λ fault.
        IsReentryFault fault N.opening book.old.journal entries.now book.new.journal) }
    ensures complete { IfErr result (λ fault. 0 < length entries.now →
        Follow N.opening book.old.journal entries.now → fault ≡ OutOfMemory) }
{
    if entries.is_empty() {
        return Err(ReentryFault::Empty);
    }
    if let Err(fault) = enter_all(book, publisher, entries) {
        return Err(fault);
    }
    let _receipt = publisher.publish(rt);
    Ok(())
}

// Enters entries again, which are then pending.
fn enter_all<N: Server>(
    book: &mut Book,
    publisher: &mut Publisher<N>,
    entries: &[Entry],
) -> Result<(), ReentryFault>
    requires opening { book.old.opening ≡ N.opening }
    requires journal { book.old.journal ≡ entries_of publisher.old.published ++ publisher.old.pending }
    ensures opening { book.new.opening ≡ N.opening }
    ensures same { publisher.new.published ≡ publisher.old.published }
    ensures journal { book.new.journal ≡ entries_of publisher.new.published ++ publisher.new.pending }
    ensures pending { OnOk result (publisher.new.pending ≡ publisher.old.pending ++ entries.now) }
    ensures fault { IfErr result (λ fault. (0 < length entries.now)
        × IsReentryFault fault N.opening book.old.journal entries.now book.new.journal) }
{
    for entry in entries {
        if let Err(fault) = enter(book, publisher, entry) {
            return Err(fault);
        }
    }
    Ok(())
}

// Enters an entry again, which is then pending.
fn enter<N: Server>(
    book: &mut Book,
    publisher: &mut Publisher<N>,
    entry: &Entry,
) -> Result<(), ReentryFault>
    requires opening { book.old.opening ≡ N.opening }
    requires journal { book.old.journal ≡ entries_of publisher.old.published ++ publisher.old.pending }
    ensures opening { book.new.opening ≡ N.opening }
    ensures same { publisher.new.published ≡ publisher.old.published }
    ensures journal { book.new.journal ≡ entries_of publisher.new.published ++ publisher.new.pending }
    ensures pending { OnOk result (publisher.new.pending ≡ publisher.old.pending ++ entry.now ∷ []) }
    ensures fault { IfErr result (λ fault.
        IsReentryFault fault N.opening book.old.journal (entry.now ∷ []) book.new.journal) }
{
    let checked = match book.check(entry.actor, &entry.command) {
        Ok(checked) => checked,
        Err(cause) => return Err(fault_of(cause)),
    };
    if publisher.append(&checked).is_err() {
        return Err(ReentryFault::OutOfMemory);
    }
    book.commit(checked);
    Ok(())
}

// What is told of an entry that a book refuses: want of memory is no cause of the session's.
fn fault_of(cause: Refusal) -> ReentryFault
    ensures { (result ≡ OutOfMemory) ⊎ ((result ≡ Refused cause) × (is_out_of_memory cause ≡ false)) }
{
    if cause.is_out_of_memory() {
        ReentryFault::OutOfMemory
    } else {
        ReentryFault::Refused(cause)
    }
}
